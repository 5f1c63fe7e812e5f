// A furnace that keeps its settings on a card: it stores them, loses power in the middle of the next change, and finds them whole.
#![tactic(auto)]

mod days;
mod melt;
mod runs;
mod schedule;
mod settings;
mod shelf;
mod stored;
mod trouble;
mod words;

use days::{first_day, second_day};
use trouble::Trouble;

// The card has 70 blocks of 512 bytes.
const CARD_BYTES: usize = 70 * 512;

// Both days, on one card.
fn run(rt: &HostRuntime) -> Result<(), Trouble> {
    let mut card = vec![in rt.alloc(); 0u8; CARD_BYTES]?;
    first_day(rt, &mut card)?;
    second_day(rt, &mut card)
}

fn main(rt: HostRuntime) -> Result<(), Trouble> {
    run(&rt)
}
