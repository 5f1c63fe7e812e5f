// The updates that a commit is to add: at most as many as an operation holds objects. An array of one's own, lent on the way: a list of the
// kit, and one that is handed on, were tried, and a commit took 1.6 times as long.
ghost use Rattle.std.specs.Prelude.{◌≡◌, ◌<◌, ◌≤◌, [], ◌∷◌, ◌++◌, length};

use card::Update;
use operation::MOST_HELD;
use std::marker::Model;

#[derive(Drop)]
pub(crate) struct Staged {
    updates: [Update; MOST_HELD],
    len: usize,
}

// A contract sees the updates, in order.
impl Model for Staged {
    ghost use Rattle.std.specs.Prelude.{◌≡◌, ◌≤◌, List, length, take};
    ghost use Rattle.card.specs.declared.Update.{Update};

    ghost Value = { List Update };

    ghost view = { λ s. take s.len s.updates };

    ghost invariant = { λ s. (s.len ≤ 8) × (length s.updates ≡ 8) };
}

impl Staged {
    // None.
    pub(crate) fn new() -> Staged
        ensures { result ≡ [] }
    {
        Staged {
            updates: [Update::default(); MOST_HELD],
            len: 0,
        }
    }

    // The updates, in order.
    pub(crate) fn as_slice(&self) -> &[Update]
        ensures value { result.now ≡ self.now }
        ensures few { length result.now ≤ 8 }
    {
        &self.updates[..self.len]
    }

    // Adds an update at the end.
    pub(crate) fn push(&mut self, update: Update)
        requires { length self.old < 8 }
        ensures { self.new ≡ self.old ++ update ∷ [] }
    {
        self.updates[self.len] = update;
        self.len += 1;
    }
}
