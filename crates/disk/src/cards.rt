// Cards: disks that lie in a run of bytes, a cell of bytes to each block.
ghost use Rattle.std.specs.Prelude.{◌≡◌, ℕ, ◌^◌, ◌<◌, min, List, length, Some};
ghost use Rattle.disk.specs.Meaning.{Block, Whole, block_size, most_blocks, is_live, refusal, answered, written, counted};
ghost use Rattle.disk.specs.Runs.{Laid, cell_blocks, cell_written, CellFound};
ghost use Rattle.disk.specs.Plain.{plain_laid};
ghost use Rattle.disk.specs.Marked.{marked_size, marked_block, marked_laid};
ghost use Rattle.disk.specs.Cards.{bytes_of};

use crate::{BLOCK, Disk, DiskFault, MOST_BLOCKS};
use std::marker::PhantomData;

// How a card lays out its blocks. A cell begins with its block's bytes.
pub trait Layout {
    // how many bytes a cell has
    ghost CELL: { ℕ };

    const CELL: usize;

    // the block that a cell's bytes show
    ghost told: { List ℕ → Block };

    // Whether the block of a cell is live.
    fn is_live(cell: &[u8]) -> bool
        requires { length cell.now ≡ CELL }
        ensures { result ≡ is_live (told cell.now) };

    ghost laid: { Laid CELL told };
}

// A cell is the 512 bytes of its block, and no block is dead.
#[derive(Clone, Copy)]
pub struct Plain;

impl Layout for Plain {
    ghost CELL = { block_size };

    const CELL: usize = BLOCK;

    ghost told = { Some };

    fn is_live(_cell: &[u8]) -> bool {
        true
    }

    ghost laid = { plain_laid };
}

// A cell is the 512 bytes of its block and then a mark, without which the block is dead.
#[derive(Clone, Copy)]
pub struct Marked;

// The mark of a live block.
const LIVE: u8 = 255;

impl Layout for Marked {
    ghost CELL = { marked_size };

    const CELL: usize = 513;

    ghost told = { marked_block };

    fn is_live(cell: &[u8]) -> bool {
        cell[BLOCK] == LIVE
    }

    ghost laid = { marked_laid };
}

#[derive(Drop)]
pub struct Card<'a, L> {
    bytes: &'a mut [u8],
    writes: u64,
    layout: PhantomData<L>,
}

pub type PlainCard<'a> = Card<'a, Plain>;

pub type MarkedCard<'a> = Card<'a, Marked>;

impl<'a, L: Layout> Card<'a, L> {
    // A card that lies in these bytes and has granted no write.
    pub fn new(bytes: &'a mut [u8]) -> Card<'a, L>
        ensures bytes { bytes_of result ≡ bytes.old }
        ensures writes { result.writes ≡ 0 }
        ensures lender { result.bytes.ghost_name ≡ bytes.entry.ghost_name }
    {
        Card {
            bytes,
            writes: 0,
            layout: PhantomData,
        }
    }

    // How many writes the card has granted, round again at 2^64.
    pub fn worn(&self) -> u64
        ensures { result ≡ self.now.writes }
    {
        self.writes
    }

    // How many bytes there are.
    fn len(&self) -> usize
        ensures { result ≡ length (bytes_of self.now) }
    {
        self.bytes.len()
    }

    // How many blocks fit into the bytes.
    fn cells(&self) -> usize
        ensures count { min result most_blocks ≡ length (cell_blocks L.CELL L.told (bytes_of self.now)) }
        ensures whole { Whole (cell_blocks L.CELL L.told (bytes_of self.now)) }
        ensures short { length (bytes_of self.now) < 2 ^ 64 }
    {
        self.len() / L::CELL
    }

    // Where a block begins that may be read into this buffer or written from it.
    fn locate(&self, block: u32, buf: &[u8]) -> Result<usize, DiskFault>
        ensures { CellFound L.CELL L.told (bytes_of self.now) block buf.now result }
    {
        if block >= self.count() {
            return Err(DiskFault::Beyond(block));
        }
        if buf.len() != BLOCK {
            return Err(DiskFault::Length(block));
        }
        let cell = L::CELL;
        let at = cell * block as usize;
        if !L::is_live(&self.bytes[at..at + cell]) {
            return Err(DiskFault::Dead(block));
        }
        Ok(at)
    }
}

impl<'a, L: Layout> Disk for Card<'a, L> {
    ghost blocks = { λ s. cell_blocks L.CELL L.told (bytes_of s) };

    ghost writes = { λ s. s.writes };

    fn count(&self) -> u32
        ensures count { result ≡ length (cell_blocks L.CELL L.told (bytes_of self.now)) }
        ensures whole { Whole (cell_blocks L.CELL L.told (bytes_of self.now)) }
        ensures short { length (bytes_of self.now) < 2 ^ 64 }
    {
        self.cells().min(MOST_BLOCKS) as u32
    }

    fn read(&self, block: u32, buf: &mut [u8]) -> Result<(), DiskFault> {
        let at = self.locate(block, buf)?;
        buf.copy_from_slice(&self.bytes[at..at + BLOCK]);
        Ok(())
    }

    fn write(&mut self, block: u32, buf: &[u8]) -> Result<(), DiskFault>
        ensures answer { result ≡ answered (refusal (cell_blocks L.CELL L.told (bytes_of self.old)) block (length buf.now)) }
        ensures blocks { cell_blocks L.CELL L.told (bytes_of self.new) ≡ written (cell_blocks L.CELL L.told (bytes_of self.old)) block buf.now }
        ensures writes { self.new.writes ≡ counted (cell_blocks L.CELL L.told (bytes_of self.old)) block (length buf.now) self.old.writes }
        ensures bytes { bytes_of self.new ≡ cell_written L.CELL L.told (bytes_of self.old) block buf.now }
        ensures lender { self.new.bytes.ghost_name ≡ self.old.bytes.ghost_name }
    {
        let at = self.locate(block, buf)?;
        self.bytes[at..at + BLOCK].copy_from_slice(buf);
        self.writes = self.writes.wrapping_add(1);
        Ok(())
    }
}
