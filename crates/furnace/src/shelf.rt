// The bit that says whether a shelf is taken.
ghost use Rattle.std.specs.Prelude.{◌≡◌};
ghost use Rattle.std.proofs.Common.{rules};
ghost use Rattle.furnace.specs.Settings.{shelf_place, shelf_in};

use crate::stored::Stored;
use object::Place;
use std::fmt;

#[derive(Clone, Copy, Debug, PartialEq)]
pub struct Shelf {
    pub taken: bool,
}

impl Stored<1> for Shelf {
    const PLACE: Place = Place {
        block: 65,
        offset: 9,
        size: 1,
    };

    ghost PLACE = { shelf_place };

    ghost said = { shelf_in };

    ghost in_a_block = { Prim.search rules };

    fn encode(&self) -> [u8; 1] {
        [u8::from(self.taken)]
    }

    fn decode(bytes: &[u8; 1]) -> Shelf {
        Shelf {
            taken: bytes[0] == 1,
        }
    }
}

impl fmt::Display for Shelf {
    fn fmt<W: fmt::Write>(&self, f: &mut fmt::Formatter<W>) -> fmt::Result {
        let shelf = if self.taken { "in" } else { "out" };
        write!(f, "{shelf}")
    }
}
