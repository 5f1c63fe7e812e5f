// Disks of 512-byte blocks: what every disk keeps, and four makes of disk.
#![tactic(auto)]

ghost use Rattle.std.specs.Prelude.{◌≡◌, ℕ, length};
ghost use Rattle.disk.specs.Meaning.{Blocks, Whole, refusal, answered, filled, written, counted};

mod cards;
mod fault;
mod pair;
#[cfg(test)]
mod tests;
mod window;

pub use cards::{Card, Layout, Marked, MarkedCard, Plain, PlainCard};
pub use fault::{DiskFault, Layer, refusals_in_order};
pub use pair::Pair;
pub use window::Window;

// How many bytes a block has.
pub const BLOCK: usize = 512;

// How many blocks a disk may have.
pub const MOST_BLOCKS: usize = 65536;

// A disk of blocks numbered from 0. A call that it refuses changes nothing.
pub trait Disk {
    // its blocks, each 512 bytes or dead
    ghost blocks: { Self → Blocks };

    // how many writes it has granted, round again at 2^64
    ghost writes: { Self → ℕ };

    // How many blocks there are.
    fn count(&self) -> u32
        ensures count { result ≡ length (blocks self.now) }
        ensures whole { Whole (blocks self.now) };

    // Fills the buffer with a block's bytes.
    fn read(&self, block: u32, buf: &mut [u8]) -> Result<(), DiskFault>
        ensures answer { result ≡ answered (refusal (blocks self.now) block (length buf.old)) }
        ensures buffer { buf.new ≡ filled (blocks self.now) block buf.old };

    // Replaces a block's bytes.
    fn write(&mut self, block: u32, buf: &[u8]) -> Result<(), DiskFault>
        ensures answer { result ≡ answered (refusal (blocks self.old) block (length buf.now)) }
        ensures blocks { blocks self.new ≡ written (blocks self.old) block buf.now }
        ensures writes { writes self.new ≡ counted (blocks self.old) block (length buf.now) (writes self.old) };
}
