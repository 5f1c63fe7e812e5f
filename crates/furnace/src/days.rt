// Two days at the furnace: the power fails on the first, in the middle of a change, and the second finds the one before it whole.
use crate::melt::Melt;
use crate::runs::{Run, run_until};
use crate::schedule::{Firing, Schedule};
use crate::settings::{Settings, load, store};
use crate::shelf::Shelf;
use crate::trouble::Trouble;
use disk::{Disk, PlainCard};
use journal::Journal;

// A plate that is fused, with the shelf in.
fn plate() -> Settings {
    Settings {
        schedule: Schedule {
            firings: [
                (230, 60),
                (520, 90),
                (620, 45),
                (780, 40),
                (800, 15),
                (516, 20),
                (516, 90),
                (370, 120),
            ]
            .map(Firing::from),
        },
        melt: Melt::rising(20, 5, 1180),
        shelf: Shelf { taken: true },
    }
}

// A bowl that is cast, with the shelf out.
fn bowl() -> Settings {
    Settings {
        schedule: Schedule {
            firings: [
                (200, 75),
                (500, 120),
                (650, 60),
                (830, 45),
                (850, 30),
                (516, 25),
                (516, 180),
                (350, 240),
            ]
            .map(Firing::from),
        },
        melt: Melt::rising(900, 3, 1350),
        shelf: Shelf { taken: false },
    }
}

// Prints the settings that the card has, and whether they are the plate's or the bowl's.
fn show<D: Disk>(rt: &HostRuntime, journal: &mut Journal<D>) -> Result<(), Trouble> {
    let found = load(journal)?;
    println!(rt; "{found}")?;
    for (one, other, settings) in [("plate", "bowl", plate()), ("bowl", "plate", bowl())] {
        if found == settings {
            println!(rt; "that is the {one}, whole, and nothing of the {other}")?;
        }
    }
    Ok(())
}

// Stores settings, and lets the logger make them durable.
fn keep<D: Disk>(
    rt: &HostRuntime,
    journal: &mut Journal<D>,
    settings: &Settings,
) -> Result<(), Trouble> {
    let position = store(journal, settings)?;
    println!(rt; "stored the schedule, the melt record and the shelf bit: position {position}")?;
    let flushed = journal.flush()?;
    let Run { steps, position } = run_until(journal, Journal::log_step, flushed)?;
    println!(rt; "the logger took {steps} steps: durable below position {position}")?;
    Ok(())
}

// The first day: the plate is stored, and the power fails while the bowl is on its way.
pub fn first_day(rt: &HostRuntime, card: &mut [u8]) -> Result<(), Trouble> {
    let mut journal = Journal::new(PlainCard::new(card));
    journal.format()?;
    journal.open()?;
    let blocks = journal.disk().count();
    println!(rt; "formatted and opened a card of {blocks} blocks")?;
    keep(rt, &mut journal, &plate())?;
    show(rt, &mut journal)?;
    let position = store(&mut journal, &bowl())?;
    let flushed = journal.flush()?;
    println!(rt; "stored the bowl: position {position}, to be durable below {flushed}")?;
    for _ in 0..2 {
        let end = journal.log_step()?.position;
        println!(rt; "the logger took a step: still durable below position {end}")?;
    }
    println!(rt; "the power fails")?;
    Ok(())
}

// The second day: the card is opened again, and the bowl is stored and carried home.
pub fn second_day(rt: &HostRuntime, card: &mut [u8]) -> Result<(), Trouble> {
    let mut journal = Journal::new(PlainCard::new(card));
    let end = journal.open()?;
    println!(rt; "opened the card again: durable below position {end}")?;
    show(rt, &mut journal)?;
    keep(rt, &mut journal, &bowl())?;
    let end = journal.flush()?;
    let Run { steps, position } = run_until(&mut journal, Journal::install_step, end)?;
    println!(rt; "the installer took {steps} steps: free below position {position}")?;
    show(rt, &mut journal)?;
    if let Some(log) = journal.log() {
        let start = log.start();
        let end = log.end();
        println!(rt; "start {start}, end {end}")?;
    }
    Ok(())
}
