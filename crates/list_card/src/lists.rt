// What a listing says of a card.
ghost use Rattle.std.specs.Prelude.{◌≡◌, ℕ, length};
ghost use Rattle.disk.specs.Plain.{plain_blocks};
ghost use Rattle.journal.specs.View.{view};
ghost use Rattle.model.specs.Journal.{shut};
ghost use Rattle.list_card.specs.Listing.{told, told_of, listed, row_homes, live_told};

use card::SLOTS;
use disk::{Disk, PlainCard};
use journal::Journal;
use journal_log::Log;
use model::Fault;
use std::fmt;

// The live positions and their homes: an array, so that they can be copied, with as many homes as there are positions, and then zeros.
#[derive(Clone, Copy)]
pub struct Live {
    start: u64,
    end: u64,
    homes: [u32; SLOTS],
}

// How many blocks a card has, and what opening finds on it.
#[derive(Drop)]
pub struct Summary {
    blocks: u32,
    found: Result<Live, Fault>,
}

// The homes of the positions from start up to end.
fn live_homes(log: &Log) -> Live
    ensures { live_told result ≡ (log.now.start, log.now.end, row_homes log.now) }
{
    let start = log.start();
    let end = log.end();
    let mut homes = [0; SLOTS];
    for p in start..end {
        homes[(p - start) as usize] = log.home_at(p).unwrap_or(0);
    }
    Live { start, end, homes }
}

// The live positions of a shut journal's card, once it is open.
fn open<D: Disk>(journal: &mut Journal<D>) -> Result<Live, Fault>
    requires { view journal.old ≡ shut }
    ensures found { told_of (length (D.Disk.blocks journal.old.disk)) result ≡ listed (D.Disk.blocks journal.old.disk) }
    ensures disk { journal.new.disk ≡ journal.old.disk }
{
    journal.open()?;
    let log = journal.log().ok_or(Fault::Shut)?;
    Ok(live_homes(log))
}

// What opening this shut journal finds.
fn examine<D: Disk>(journal: &mut Journal<D>) -> Summary
    requires { view journal.old ≡ shut }
    ensures fields { told result ≡ listed (D.Disk.blocks journal.old.disk) }
    ensures disk { journal.new.disk ≡ journal.old.disk }
{
    Summary {
        blocks: journal.disk().count(),
        found: open(journal),
    }
}

// What opening finds on a plain card in these bytes.
pub fn listing(mut bytes: Vec<u8>) -> Summary
    ensures { told result ≡ listed (plain_blocks bytes.items) }
{
    let mut journal = Journal::new(PlainCard::new(&mut bytes));
    examine(&mut journal)
}

impl Summary {
    // The number of the refusal, or 0.
    pub fn refusal(&self) -> u32
        ensures { result ≡ (told self.now).refusal }
    {
        self.found.as_ref().err().map_or(0, |fault| fault.number())
    }

    // The block that the refusal is about, or 0.
    pub fn place(&self) -> u32
        ensures { result ≡ (told self.now).place }
    {
        self.found.as_ref().err().map_or(0, |fault| fault.place())
    }
}

impl fmt::Display for Live {
    fn fmt<W: fmt::Write>(&self, f: &mut fmt::Formatter<W>) -> fmt::Result {
        let Live { start, end, homes } = self;
        write!(f, "start={start}\nend={end}\nhomes=")?;
        let count = end.saturating_sub(*start) as usize;
        for (i, home) in homes.iter().take(count).enumerate() {
            if i > 0 {
                write!(f, ",")?;
            }
            write!(f, "{home}")?;
        }
        writeln!(f)
    }
}

impl fmt::Display for Summary {
    fn fmt<W: fmt::Write>(&self, f: &mut fmt::Formatter<W>) -> fmt::Result {
        let blocks = self.blocks;
        let refusal = self.refusal();
        let place = self.place();
        writeln!(f, "blocks={blocks}\nrefusal={refusal}\nplace={place}")?;
        match &self.found {
            Ok(live) => write!(f, "{live}"),
            Err(_) => writeln!(f, "start=-\nend=-\nhomes=-"),
        }
    }
}
