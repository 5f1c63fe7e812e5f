// An object that an operation holds: its bytes as the operation sees them, and whether it has changed them.
ghost use Rattle.std.specs.Prelude.{◌≡◌, false, true, length, not, ◌==◌};
ghost use Rattle.disk.specs.Tests.{both};
ghost use Rattle.object.specs.Objects.{width, part, laid, same, overlap};
ghost use Rattle.operation.specs.Held.{IsValue, blank};

use disk::BLOCK;
use object::{Place, Spot};
use std::marker::Model;

// The bytes are an array, so that an object can be copied: its own, and then zeros.
#[derive(Clone, Copy)]
pub struct Held {
    place: Place,
    bytes: [u8; BLOCK],
    dirty: bool,
}

// A contract sees the object; its bytes are as many as its size takes, and a bit is 0 or 1.
impl Model for Held {
    ghost use Rattle.std.specs.Prelude.{take};
    ghost use Rattle.std.proofs.Common.{ap};
    ghost use Rattle.disk.specs.Meaning.{block_size};
    ghost use Rattle.object.specs.Tables.{Held as Object};
    ghost use Rattle.object.specs.Objects.{width};
    ghost use Rattle.operation.specs.Held.{Kept, padded};

    ghost Value = { Object };

    ghost view = { λ h. record { place = h.place; bytes = take (width h.place.size) h.bytes; dirty = h.dirty } };

    ghost invariant = { λ h. Kept h.place h.bytes };

    ghost inverse = { λ o. record { place = o.place; bytes = padded block_size 0 o.bytes; dirty = o.dirty } };

    ghost inverse_ok = { λ h kept. ap (λ bs. record { place = h.place; bytes = bs; dirty = h.dirty }) kept.rest };
}

impl Held {
    // An object as its block has it.
    pub fn read(spot: Spot, block: &[u8; BLOCK]) -> Held
        ensures { result ≡ record { place = spot.place; bytes = part spot.place block.now; dirty = false } }
    {
        let mut bytes = [0; BLOCK];
        spot.take(block, &mut bytes[..spot.place.width()]);
        Held {
            place: spot.place,
            bytes,
            dirty: false,
        }
    }

    // An object with new bytes.
    pub fn written(spot: Spot, value: &[u8]) -> Held
        requires { IsValue spot.place value.now }
        ensures { result ≡ record { place = spot.place; bytes = value.now; dirty = true } }
    {
        let mut bytes = [0; BLOCK];
        bytes[..value.len()].copy_from_slice(value);
        Held {
            place: spot.place,
            bytes,
            dirty: true,
        }
    }

    // The object has new bytes, and is dirty from then on.
    pub(crate) fn replace(&mut self, value: &[u8])
        requires { IsValue self.old.place value.now }
        ensures { self.new ≡ record { place = self.old.place; bytes = value.now; dirty = true } }
    {
        self.bytes[..value.len()].copy_from_slice(value);
        self.dirty = true;
    }

    pub(crate) fn place(&self) -> Place
        ensures { result ≡ self.now.place }
    {
        self.place
    }

    // The object's bytes.
    pub fn value(&self) -> &[u8]
        ensures bytes { result.now ≡ self.now.bytes }
        ensures long { length result.now ≡ width self.now.place.size }
    {
        &self.bytes[..self.place.width()]
    }

    pub(crate) fn is_dirty(&self) -> bool
        ensures { result ≡ self.now.dirty }
    {
        self.dirty
    }

    // Lays the object into its block's bytes.
    pub(crate) fn lay(&self, block: &mut [u8; BLOCK])
        ensures { block.new ≡ laid self.now.place self.now.bytes block.old }
    {
        Spot::new(self.place).lay(&self.bytes[..self.place.width()], block);
    }

    // Whether it is this object.
    pub(crate) fn is(&self, place: &Place) -> bool
        ensures { result ≡ same self.now.place place.now }
    {
        self.place == *place
    }

    // Whether it has a bit in common with this object, and another size.
    pub(crate) fn clashes(&self, place: &Place) -> bool
        ensures { result ≡ both (overlap self.now.place place.now) (not (self.now.place.size == place.now.size)) }
    {
        let held = self.place();
        held.block == place.block
            && u64::from(held.offset) < u64::from(place.offset) + u64::from(place.size)
            && u64::from(place.offset) < u64::from(held.offset) + u64::from(held.size)
            && held.size != place.size
    }
}

// The first bit of all, zero: it stands in a table's empty places.
impl Default for Held {
    ghost is_default = { λ h. h ≡ blank };

    fn default() -> Held {
        let place = Place {
            block: 0,
            offset: 0,
            size: 1,
        };
        Held::read(Spot::new(place), &[0; BLOCK])
    }
}
