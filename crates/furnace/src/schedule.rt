// Firing schedules: what the kiln does, step by step.
ghost use Rattle.std.specs.Prelude.{◌≡◌, [], ◌∷◌};
ghost use Rattle.std.proofs.Common.{rules};
ghost use Rattle.furnace.specs.Settings.{schedule_place, schedule_in};

use crate::stored::Stored;
use crate::words::{word_at, word_bytes};
use object::Place;
use std::{array, fmt};

// How many firings a schedule has, how many numbers these are, and how many bytes.
pub const FIRINGS: usize = 8;

const WORDS: usize = 2 * FIRINGS;

pub const SCHEDULE_BYTES: usize = 2 * WORDS;

// One firing: the temperature to reach, and the minutes that it takes.
#[derive(Clone, Copy, Debug, PartialEq)]
pub struct Firing {
    pub celsius: u16,
    pub minutes: u16,
}

#[derive(Clone, Copy, Debug, PartialEq)]
pub struct Schedule {
    pub firings: [Firing; FIRINGS],
}

impl Firing {
    // The two numbers of a firing.
    fn words(self) -> [u16; 2]
        ensures { result ≡ self.celsius ∷ self.minutes ∷ [] }
    {
        [self.celsius, self.minutes]
    }
}

impl From<(u16, u16)> for Firing {
    ghost from_gives = { λ pair r. r ≡ record { celsius = pair.0; minutes = pair.1 } };

    // A firing to this temperature, in so many minutes.
    fn from((celsius, minutes): (u16, u16)) -> Firing {
        Firing { celsius, minutes }
    }
}

impl Stored<SCHEDULE_BYTES> for Schedule {
    const PLACE: Place = Place {
        block: 64,
        offset: 0,
        size: 256,
    };

    ghost PLACE = { schedule_place };

    ghost said = { schedule_in };

    ghost in_a_block = { Prim.search rules };

    fn encode(&self) -> [u8; SCHEDULE_BYTES] {
        let words: [u16; WORDS] = array::from_fn(|i| self.firings[i / 2].words()[i % 2]);
        word_bytes(&words)
    }

    fn decode(bytes: &[u8; SCHEDULE_BYTES]) -> Schedule {
        Schedule {
            firings: array::from_fn(|i| Firing {
                celsius: word_at(bytes, 2 * i),
                minutes: word_at(bytes, 2 * i + 1),
            }),
        }
    }
}

impl fmt::Display for Firing {
    fn fmt<W: fmt::Write>(&self, f: &mut fmt::Formatter<W>) -> fmt::Result {
        let Firing { celsius, minutes } = *self;
        write!(f, "{minutes} min to {celsius} °C")
    }
}

impl fmt::Display for Schedule {
    fn fmt<W: fmt::Write>(&self, f: &mut fmt::Formatter<W>) -> fmt::Result {
        for (i, firing) in self.firings.iter().enumerate() {
            if i > 0 {
                write!(f, ", ")?;
            }
            write!(f, "{firing}")?;
        }
        Ok(())
    }
}
