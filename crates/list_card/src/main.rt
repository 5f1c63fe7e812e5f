// Lists a plain card: reads it from standard input, opens a journal on it, and prints what it found in six lines.
#![tactic(auto)]

mod lists;
#[cfg(test)]
mod tests;

use lists::listing;
use std::io;
use std::io::Read;

// The most bytes of a card that are read.
const MOST: u64 = 65536;

fn main(rt: HostRuntime) -> io::Result<()> {
    let mut card = Vec::new(rt.alloc());
    rt.stdin().take(MOST).read_to_end(&mut card)?;
    let found = listing(card);
    print!(rt; "{found}")
}
