// The blocks of an operation's dirty objects: at most as many as it holds objects.
ghost use Rattle.std.specs.Prelude.{◌≡◌, ◌<◌, ◌≤◌, [], length};
ghost use Rattle.operation.specs.Table.{with_dirty};

use crate::held::Held;
use crate::table::MOST_HELD;
use std::marker::Model;

// The numbers are an array, so that a list can be copied: those listed, and then zeros.
#[derive(Clone, Copy)]
pub struct BlockList {
    blocks: [u32; MOST_HELD],
    len: usize,
}

// A contract sees the blocks listed.
impl Model for BlockList {
    ghost use Rattle.std.specs.Prelude.{List, ℕ, length, take};
    ghost use Rattle.std.proofs.Common.{ap, ◌∙◌};
    ghost use Rattle.operation.specs.Held.{Filled, padded};

    ghost Value = { List ℕ };

    ghost view = { λ l. take l.len l.blocks };

    ghost invariant = { λ l. Filled 8 0 l.len l.blocks };

    ghost inverse = { λ bs. record { blocks = padded 8 0 bs; len = length bs } };

    ghost inverse_ok = { λ a filled. ap (λ xs. record { blocks = xs; len = length (take a.len a.blocks) }) filled.rest ∙ ap (λ n. record { blocks = a.blocks; len = n }) filled.count };
}

impl BlockList {
    // No block is listed.
    pub(crate) fn new() -> BlockList
        ensures { result ≡ [] }
    {
        BlockList {
            blocks: [0; MOST_HELD],
            len: 0,
        }
    }

    // The block numbers, in order.
    pub fn as_slice(&self) -> &[u32]
        ensures value { result.now ≡ self.now }
        ensures few { length result.now ≤ 8 }
    {
        &self.blocks[..self.len]
    }

    // Lists the block of a dirty object at the end, unless it is there.
    pub(crate) fn add(&mut self, held: &Held)
        requires { length self.old < 8 }
        ensures { self.new ≡ with_dirty self.old held.now }
    {
        let block = held.place().block;
        if held.is_dirty() && !self.as_slice().contains(&block) {
            self.blocks[self.len] = block;
            self.len += 1;
        }
    }
}
