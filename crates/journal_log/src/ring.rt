// The updates in memory, a row for each slot: position p has row p mod 62.
ghost use Rattle.std.specs.Prelude.{◌≡◌, length, replicate, slice_set};
ghost use Rattle.card.specs.Layout.{slot as slot_of};
ghost use Rattle.journal_log.specs.Ring.{blank, row_at};

use card::{SLOTS, Update, slot};

#[derive(Clone, Copy)]
pub(crate) struct Ring {
    rows: [Update; SLOTS],
    ghost long: { length rows ≡ 62 },
}

impl Ring {
    // Blank rows.
    pub(crate) fn new() -> Ring
        ensures { result.rows ≡ replicate 62 blank }
    {
        Ring {
            rows: [Update::default(); SLOTS],
        }
    }

    // The update at a position is this one.
    pub(crate) fn put(&mut self, position: u64, update: Update)
        ensures { self.new.rows ≡ slice_set self.old.rows (slot_of position) update }
    {
        self.rows[slot(position)] = update;
    }

    // The update at a position.
    pub(crate) fn at(&self, position: u64) -> &Update
        ensures { result.now ≡ row_at self.now.rows position }
    {
        &self.rows[slot(position)]
    }
}
