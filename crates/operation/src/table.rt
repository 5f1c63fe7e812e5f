// The table of an operation: the objects that it has touched, in the order of first touch.
ghost use Rattle.std.specs.Prelude.{◌≡◌, ◌<◌, ◌≤◌, true, false, not, [], ◌∷◌, ◌++◌, length, IfSome, ◌==◌, nat_le};
ghost use Rattle.std.specs.Option.{option_map};
ghost use Rattle.std.specs.List.{list_any, find, position};
ghost use Rattle.disk.specs.Tests.{both, first_of};
ghost use Rattle.object.specs.Objects.{width, same, overlap};
ghost use Rattle.object.specs.Tables.{most_held, is_in, value_in, holding, clashes};
ghost use Rattle.model.specs.Outcomes.{passed};
ghost use Rattle.model.specs.Operations.{dirty_blocks, laid_in};
ghost use Rattle.operation.specs.Held.{IsValue};
ghost use Rattle.operation.specs.Table.{as_fault, table_room};

use crate::blocks::BlockList;
use crate::held::Held;
use disk::BLOCK;
use object::{ObjectFault, Place, Spot};
use std::marker::Model;

// How many objects an operation holds at most.
pub const MOST_HELD: usize = 8;

// The objects are an array, so that a table can be copied: those held, and then blank ones.
#[derive(Clone, Copy)]
pub struct Table {
    held: [Held; MOST_HELD],
    len: usize,
}

// A contract sees the objects held.
impl Model for Table {
    ghost use Rattle.std.specs.Prelude.{List, length, take};
    ghost use Rattle.std.proofs.Common.{ap, ◌∙◌};
    ghost use Rattle.object.specs.Tables.{Held as Object};
    ghost use Rattle.operation.specs.Held.{Filled, padded, blank};

    ghost Value = { List Object };

    ghost view = { λ t. take t.len t.held };

    ghost invariant = { λ t. Filled 8 blank t.len t.held };

    ghost inverse = { λ hs. record { held = padded 8 blank hs; len = length hs } };

    ghost inverse_ok = { λ a filled. ap (λ xs. record { held = xs; len = length (take a.len a.held) }) filled.rest ∙ ap (λ n. record { held = a.held; len = n }) filled.count };
}

impl Table {
    // It holds nothing.
    pub fn new() -> Table
        ensures { result ≡ [] }
    {
        Table {
            held: [Held::default(); MOST_HELD],
            len: 0,
        }
    }

    // The objects held.
    fn entries(&self) -> &[Held]
        ensures objects { result.now ≡ self.now }
        ensures few { length result.now ≤ 8 }
    {
        &self.held[..self.len]
    }

    // The held value of an object.
    pub fn value(&self, place: &Place) -> Option<&[u8]>
        ensures value { option_map (λ x. x.now) result ≡ value_in self.now place.now }
        ensures long { IfSome result (λ v. length v.now ≡ width place.now.size) }
    {
        let held = find(self.entries(), place)?;
        Some(held.value())
    }

    // Whether it holds the object.
    #[tactic(auto, using(crate::proofs::Tables::in_any))]
    pub fn holds(&self, place: &Place) -> bool
        ensures { result ≡ is_in self.now place.now }
    {
        is_held(self.entries(), place)
    }

    // Whether an object that it holds clashes with this one.
    fn clashes(&self, place: &Place) -> bool
        ensures { result ≡ clashes self.now place.now }
    {
        any_clashes(self.entries(), place)
    }

    // Whether it does not hold the object, and cannot, since it is full.
    fn is_full_for(&self, place: &Place) -> bool
        ensures { result ≡ both (nat_le most_held (length self.now)) (not (is_in self.now place.now)) }
    {
        self.len >= MOST_HELD && !self.holds(place)
    }

    // Refuses an object that clashes with one held, or that is one too many.
    pub fn check(&self, place: Place) -> Result<(), ObjectFault>
        ensures { as_fault result ≡ passed (first_of (table_room self.now place)) }
    {
        if self.clashes(&place) {
            return Err(ObjectFault::Overlap(place.block));
        }
        if self.is_full_for(&place) {
            return Err(ObjectFault::Table(place.block));
        }
        Ok(())
    }

    // Adds an object that is not held.
    pub fn add(&mut self, held: Held)
        requires { length self.old < 8 }
        ensures { self.new ≡ self.old ++ held ∷ [] }
    {
        self.held[self.len] = held;
        self.len += 1;
    }

    // Holds the object in place of what is held of it; adds it where nothing is.
    pub fn overwrite(&mut self, held: Held)
        requires { both (nat_le most_held (length self.old)) (not (is_in self.old held.place)) ≡ false }
        ensures { self.new ≡ holding self.old held }
    {
        match position(self.entries(), &held.place()) {
            Some(i) => self.held[i] = held,
            None => self.add(held),
        }
    }

    // Gives an object new bytes, and marks it dirty; adds it where it is not held.
    pub fn write(&mut self, spot: Spot, value: &[u8])
        requires value { IsValue spot.place value.now }
        requires room { both (nat_le most_held (length self.old)) (not (is_in self.old spot.place)) ≡ false }
        ensures { self.new ≡ holding self.old (record { place = spot.place; bytes = value.now; dirty = true }) }
    {
        match position(self.entries(), &spot.place) {
            Some(i) => self.held[i].replace(value),
            None => self.add(Held::written(spot, value)),
        }
    }

    // The blocks of the dirty objects in table order, each once.
    pub fn dirty_blocks(&self) -> BlockList
        ensures { result ≡ dirty_blocks self.now [] }
    {
        let mut blocks = BlockList::new();
        for held in self.entries() {
            blocks.add(held);
        }
        blocks
    }

    // Lays the dirty objects of a block into its bytes.
    pub fn lay_in(&self, block: u32, bytes: &mut [u8; BLOCK])
        ensures { bytes.new ≡ laid_in self.now block bytes.old }
    {
        for held in self.entries() {
            lay_one(held, block, bytes);
        }
    }
}

// Searches of what is held. They take a slice, since the check follows a chain over one, and not over what a table lends.

// Whether the object is one of these.
fn is_held(held: &[Held], place: &Place) -> bool
    ensures { result ≡ list_any (λ h. same h.place place.now) held.now }
{
    held.iter().any(|held| held.is(place))
}

// Whether one of these clashes with the object.
fn any_clashes(held: &[Held], place: &Place) -> bool
    ensures { result ≡ list_any (λ h. both (overlap h.place place.now) (not (h.place.size == place.now.size))) held.now }
{
    held.iter().any(|held| held.clashes(place))
}

// The first of these that is the object.
fn find<'a>(held: &'a [Held], place: &Place) -> Option<&'a Held>
    ensures { option_map (λ x. x.now) result ≡ find (λ h. same h.place place.now) held.now }
{
    held.iter().find(|held| held.is(place))
}

// Which of these the object is.
fn position(held: &[Held], place: &Place) -> Option<usize>
    ensures { result ≡ position (λ h. same h.place place.now) held.now }
{
    held.iter().position(|held| held.is(place))
}

// Lays the object into a block's bytes, if it is dirty and of that block.
fn lay_one(held: &Held, block: u32, bytes: &mut [u8; BLOCK])
    ensures { bytes.new ≡ laid_in (held.now ∷ []) block bytes.old }
{
    if held.is_dirty() && held.place().block == block {
        held.lay(bytes);
    }
}
