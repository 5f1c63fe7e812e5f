// The part of a block that an object is: taken out of the block, and laid into it.
ghost use Rattle.std.specs.Prelude.{◌≡◌, ◌<◌, length, slice_index};
ghost use Rattle.object.specs.Objects.{bit_at, with_bit, width as width_of, part, laid};
ghost use Rattle.object.specs.Laws.{Placed};

use crate::Place;
use disk::BLOCK;

// Bit `k` of a byte, from the lowest.
fn bit_of(byte: u8, k: u32) -> u8
    requires { k < 8 }
    ensures { result ≡ bit_at byte k }
{
    byte >> k & 1
}

// The byte with bit `k` set to `value`.
fn with_bit(byte: u8, k: u32, value: u8) -> u8
    requires place { k < 8 }
    requires bit { value < 2 }
    ensures { result ≡ with_bit byte k value }
{
    byte - (bit_of(byte, k) << k) + (value << k)
}

impl Place {
    // How many bytes the object is handed over in.
    pub fn width(&self) -> usize
        ensures { result ≡ width_of self.now.size }
    {
        if self.size == 1 {
            1
        } else {
            (self.size / 8) as usize
        }
    }
}

// A place that an object has: of an allowed size, at an offset of that size within the block.
#[derive(Clone, Copy)]
pub struct Spot {
    pub place: Place,
    ghost placed: { Placed place },
}

impl Spot {
    pub fn new(place: Place) -> Spot
        requires { Placed place }
        ensures { result.place ≡ place }
    {
        Spot { place }
    }

    // Fills `value` with the object's bytes in this block.
    pub fn take(&self, block: &[u8; BLOCK], value: &mut [u8])
        requires { length value.old ≡ width_of self.now.place.size }
        ensures bytes { value.new ≡ part self.now.place block.now }
        ensures bit { self.now.place.size ≡ 1 → slice_index value.new 0 < 2 }
    {
        let Place { offset, size, .. } = self.place;
        let at = (offset / 8) as usize;
        if size == 1 {
            value[0] = bit_of(block[at], offset % 8);
        } else {
            let end = at + self.place.width();
            value.copy_from_slice(&block[at..end]);
        }
    }

    // Lays the object's bytes into a block; every other bit stays.
    pub fn lay(&self, value: &[u8], block: &mut [u8; BLOCK])
        requires long { length value.now ≡ width_of self.now.place.size }
        requires bit { self.now.place.size ≡ 1 → slice_index value.now 0 < 2 }
        ensures { block.new ≡ laid self.now.place value.now block.old }
    {
        let Place { offset, size, .. } = self.place;
        let at = (offset / 8) as usize;
        if size == 1 {
            block[at] = with_bit(block[at], offset % 8, value[0]);
        } else {
            let end = at + self.place.width();
            block[at..end].copy_from_slice(value);
        }
    }
}
