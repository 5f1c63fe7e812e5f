// Melt records: the temperature of the crucible, minute by minute.
ghost use Rattle.std.specs.Prelude.{◌≡◌};
ghost use Rattle.std.proofs.Common.{rules};
ghost use Rattle.furnace.specs.Settings.{melt_place, melt_in};

use crate::stored::Stored;
use crate::words::{word_at, word_bytes};
use object::Place;
use std::{array, fmt};

// How many readings a record has, and how many bytes it takes.
pub const READINGS: usize = 256;

pub const MELT_BYTES: usize = 2 * READINGS;

// The readings, in degrees Celsius.
#[derive(Clone, Copy, Debug, PartialEq)]
pub struct Melt {
    pub readings: [u16; READINGS],
}

impl Melt {
    // A melt that rises by so many degrees a minute until it is at the top.
    pub fn rising(from: u16, degrees: u16, top: u16) -> Melt {
        Melt {
            readings: array::from_fn(|minute| {
                let rise = degrees.saturating_mul(minute as u16);
                from.saturating_add(rise).min(top)
            }),
        }
    }
}

impl Stored<MELT_BYTES> for Melt {
    const PLACE: Place = Place {
        block: 66,
        offset: 0,
        size: 4096,
    };

    ghost PLACE = { melt_place };

    ghost said = { melt_in };

    ghost in_a_block = { Prim.search rules };

    // Two bytes for each reading.
    fn encode(&self) -> [u8; MELT_BYTES] {
        word_bytes(&self.readings)
    }

    fn decode(bytes: &[u8; MELT_BYTES]) -> Melt {
        Melt {
            readings: array::from_fn(|i| word_at(bytes, i)),
        }
    }
}

impl fmt::Display for Melt {
    fn fmt<W: fmt::Write>(&self, f: &mut fmt::Formatter<W>) -> fmt::Result {
        let [first, .., last] = self.readings;
        write!(f, "{READINGS} minutes, from {first} °C to {last} °C")
    }
}
