// The settings of a furnace, kept on a card: the firing schedule, the melt record and the shelf bit, which change together.
ghost use Rattle.std.specs.Prelude.{◌≡◌, ℕ, IfOk};
ghost use Rattle.journal.specs.View.{view};
ghost use Rattle.furnace.specs.Seen.{seen};

use crate::melt::Melt;
use crate::schedule::Schedule;
use crate::shelf::Shelf;
use crate::stored::Stored;
use disk::Disk;
use journal::{Journal, Refused, Ticket};
use model::Fault;
use std::fmt;

#[derive(Clone, Copy, PartialEq)]
pub struct Settings {
    pub schedule: Schedule,
    pub melt: Melt,
    pub shelf: Shelf,
}

// The operation that stores and loads them.
const OPERATION: u32 = 0;

// Stores the settings as one operation, and answers its position. Nothing is written to the card yet.
pub fn store<D: Disk>(journal: &mut Journal<D>, settings: &Settings) -> Result<u64, Fault>
    ensures { journal.new.disk ≡ journal.old.disk }
{
    let ticket = journal.begin(OPERATION)?;
    if let Err(fault) = overwrite(journal, &ticket, settings) {
        return Err(give_up(journal, ticket, fault));
    }
    // a `map_err` whose closure changes the journal would leave nothing known of the disk
    match journal.commit(ticket) {
        Ok(position) => Ok(position),
        Err(Refused { ticket, fault }) => Err(give_up(journal, ticket, fault)),
    }
}

// Loads the settings, by an operation that changes nothing.
pub fn load<D: Disk>(journal: &mut Journal<D>) -> Result<Settings, Fault>
    ensures { journal.new.disk ≡ journal.old.disk }
{
    let ticket = journal.begin(OPERATION)?;
    let found = read(journal, &ticket);
    journal.give_up(ticket)?;
    found
}

// Gives the three objects of an operation new bytes.
fn overwrite<D: Disk>(
    journal: &mut Journal<D>,
    ticket: &Ticket,
    settings: &Settings,
) -> Result<(), Fault>
    ensures { journal.new.disk ≡ journal.old.disk }
{
    settings.schedule.overwrite(journal, ticket)?;
    settings.melt.overwrite(journal, ticket)?;
    settings.shelf.overwrite(journal, ticket)?;
    Ok(())
}

// Reads the three objects as an operation sees them.
fn read<D: Disk>(journal: &mut Journal<D>, ticket: &Ticket) -> Result<Settings, Fault>
    ensures settings { IfOk result (λ found. found ≡ seen ticket.now.number (view journal.old) (D.Disk.blocks journal.old.disk)) }
    ensures disk { journal.new.disk ≡ journal.old.disk }
{
    Ok(Settings {
        schedule: Schedule::read(journal, ticket)?,
        melt: Melt::read(journal, ticket)?,
        shelf: Shelf::read(journal, ticket)?,
    })
}

// Gives up an operation that met this fault, and answers the fault to be told.
fn give_up<D: Disk>(journal: &mut Journal<D>, ticket: Ticket, fault: Fault) -> Fault
    ensures { journal.new.disk ≡ journal.old.disk }
{
    journal.give_up(ticket).err().unwrap_or(fault)
}

impl fmt::Display for Settings {
    fn fmt<W: fmt::Write>(&self, f: &mut fmt::Formatter<W>) -> fmt::Result {
        let Settings {
            schedule,
            melt,
            shelf,
        } = self;
        write!(
            f,
            "  schedule: {schedule}\n  melt: {melt}\n  shelf: {shelf}"
        )
    }
}
