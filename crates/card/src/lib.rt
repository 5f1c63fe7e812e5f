// The blocks of the card: where things lie, and the bytes of the two blocks that hold positions.
#![tactic(auto)]

ghost use Rattle.std.specs.Prelude.{◌≡◌, ℕ, ◌^◌, ◌+◌, ◌<◌, ◌≤◌, map, length, take, drop, replicate, slice_index};
ghost use Rattle.std.specs.List.{flat_map};
ghost use Rattle.disk.specs.Meaning.{block_size};
ghost use Rattle.card.specs.Bytes.{all_zero, field, to_bytes, from_bytes};
ghost use Rattle.card.specs.Layout.{slots, slot as slot_of, log_block, homes_in, header_block, start_block, header_in, start_in, home_in, SlotsDiffer};

use disk::BLOCK;
use std::array;

// How many slots the log has.
pub const SLOTS: usize = 62;

// The first data block.
pub const HOMES_FROM: u32 = 64;

// No position is higher.
pub const HIGHEST: u64 = 1 << 63;

// The first reserved byte of block 0 and of block 1.
pub const HEADER_END: usize = 256;

pub const START_END: usize = 8;

// Block 0: the end position, and the home number of each slot.
#[derive(Clone, Copy)]
pub struct Header {
    pub end: u64,
    pub homes: [u32; SLOTS],
}

// A home's new bytes, on the way there.
#[derive(Clone, Copy)]
pub struct Update {
    pub home: u32,
    pub bytes: [u8; BLOCK],
}

// Zeros, for the empty places of a list. By hand: a derived one fills the bytes one by one.
impl Default for Update {
    ghost is_default = { λ update. update ≡ record { home = 0; bytes = replicate block_size 0 } };

    fn default() -> Update {
        Update {
            home: 0,
            bytes: [0; BLOCK],
        }
    }
}

// How many positions have slots of their own: any that are less than that apart.
fn apart() -> u64
    ensures count { result ≡ slots }
    ensures law { SlotsDiffer }
{
    SLOTS as u64
}

// The slot of a position.
pub fn slot(position: u64) -> usize
    ensures value { result ≡ slot_of position }
    ensures apart { SlotsDiffer }
{
    (position % apart()) as usize
}

// The log block of a position.
pub fn log_block(position: u64) -> u32
    ensures { result ≡ log_block position }
{
    2 + slot(position) as u32
}

// Whether every byte is zero.
pub fn all_zero(bytes: &[u8]) -> bool
    ensures { result ≡ all_zero bytes.now }
{
    bytes.iter().all(|byte| *byte == 0)
}

// The bytes of a block from byte `at` on, as many as are asked for.
fn bytes_at<const N: usize>(block: &[u8; BLOCK], at: usize) -> [u8; N]
    requires { at + N ≤ 512 }
    ensures { result ≡ take N (drop at block.now) }
{
    let mut bytes = [0; N];
    bytes.copy_from_slice(&block[at..at + N]);
    bytes
}

// The bytes of a home number.
fn home_bytes(home: u32) -> [u8; 4]
    ensures bytes { result ≡ to_bytes 4 home }
    ensures decodes { from_bytes result ≡ home }
{
    home.to_le_bytes()
}

// The number in the four bytes from byte `at` on.
fn u32_at(block: &[u8; BLOCK], at: usize) -> u32
    requires { at < 509 }
    ensures { result ≡ field at 4 block.now }
{
    u32::from_le_bytes(bytes_at(block, at))
}

// The number in the first eight bytes.
fn first_u64(block: &[u8; BLOCK]) -> u64
    ensures { result ≡ field 0 8 block.now }
{
    u64::from_le_bytes(bytes_at(block, 0))
}

// A block that begins with this number, and is zero from there on.
fn beginning_with(number: u64) -> [u8; BLOCK]
    ensures { result ≡ start_block number }
{
    let mut block = [0; BLOCK];
    block[..8].copy_from_slice(&number.to_le_bytes());
    block
}

// The bytes of home numbers. By index: a `map` over the array was tried, and took fourteen times as long.
fn home_cells(homes: &[u32; SLOTS]) -> [[u8; 4]; SLOTS]
    ensures { flat_map (λ bytes. bytes) result ≡ flat_map (to_bytes 4) homes.now }
{
    array::from_fn(
        |slot| -> [u8; 4]
            requires { slot < slots }
            ensures { result ≡ to_bytes 4 (slice_index homes.entry.now slot) }
        { home_bytes(homes[slot]) },
    )
}

// The bytes of block 0 with this end and these home numbers.
fn header_bytes(end: u64, homes: &[u32; SLOTS]) -> [u8; BLOCK]
    ensures bytes { result ≡ header_block (record { end = end; homes = homes.now }) }
    ensures decodes { header_in result ≡ record { end = end; homes = homes.now } }
{
    let mut block = beginning_with(end);
    block[8..HEADER_END].copy_from_slice(home_cells(homes).as_flattened());
    block
}

impl Header {
    // The bytes of block 0.
    pub fn encode(&self) -> [u8; BLOCK]
        ensures bytes { result ≡ header_block self.now }
        ensures decodes { header_in result ≡ self.now }
    {
        header_bytes(self.end, &self.homes)
    }

    // What the bytes of block 0 say.
    pub fn decode(block: &[u8; BLOCK]) -> Header
        ensures { result ≡ header_in block.now }
    {
        Header {
            end: first_u64(block),
            homes: array::from_fn(|s| u32_at(block, 8 + 4 * s)),
        }
    }

    // The home number of a position's slot.
    pub fn home_of(&self, position: u64) -> u32
        ensures { result ≡ slice_index self.now.homes (slot_of position) }
    {
        self.homes[slot(position)]
    }
}

// The bytes of block 1.
pub fn encode_start(start: u64) -> [u8; BLOCK]
    ensures bytes { result ≡ start_block start }
    ensures decodes { start_in result ≡ start }
{
    beginning_with(start)
}

// The start position that the bytes of block 1 say.
pub fn decode_start(block: &[u8; BLOCK]) -> u64
    ensures { result ≡ start_in block.now }
{
    first_u64(block)
}
