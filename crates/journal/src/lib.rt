// The journal of a card: objects that change together or not at all, whatever moment the power fails.
#![tactic(auto)]

ghost use Rattle.std.specs.Prelude.{◌≡◌, ℕ, OnOk};
ghost use Rattle.std.specs.Option.{option_map};
ghost use Rattle.model.specs.Outcomes.{writes_after};
ghost use Rattle.model.specs.Journal.{shut, format as format_outcome, opening, FormatAgain};
ghost use Rattle.model.specs.Order.{FormatOrder, OpeningOrder};
ghost use Rattle.law.specs.Law.{Lasting};
ghost use Rattle.journal.specs.View.{view, WhileOpen};
ghost use Rattle.journal.specs.Laws.{Meaning};

mod begin;
mod commit;
mod objects;
mod opened;
mod operations;
mod staged;
mod steps;
#[cfg(test)]
mod tests;
mod ticket;
mod touch;

use disk::Disk;
use journal_log::Log;
pub use journal_log::Step;
use model::Fault;
use opened::Open;
pub use operations::OPERATIONS;
use operations::Operations;
pub use ticket::{Refused, Ticket};

// A journal on a disk, shut or open.
#[derive(Drop)]
pub struct Journal<D: Disk> {
    disk: D,
    state: Option<Open>,
}

impl<D: Disk> Journal<D> {
    // A shut journal on this disk. Its calls mean what the definitions say, and these have the laws of `Meaning`.
    pub fn new(disk: D) -> Journal<D>
        ensures disk { result.disk ≡ disk }
        ensures state { view result ≡ shut }
        ensures meaning { Meaning }
    {
        meaning();
        Journal { disk, state: None }
    }

    // Writes an empty log to the card, and answers 0. The journal stays shut.
    pub fn format(&mut self) -> Result<u64, Fault>
        ensures answer { result ≡ (format_outcome (view self.old) (D.Disk.blocks self.old.disk)).answer }
        ensures state { view self.new ≡ (format_outcome (view self.old) (D.Disk.blocks self.old.disk)).state }
        ensures blocks { D.Disk.blocks self.new.disk ≡ (format_outcome (view self.old) (D.Disk.blocks self.old.disk)).disk }
        ensures writes { D.Disk.writes self.new.disk ≡ writes_after (format_outcome (view self.old) (D.Disk.blocks self.old.disk)) (D.Disk.writes self.old.disk) }
        ensures again { OnOk result (FormatAgain (D.Disk.blocks self.old.disk)) }
        ensures order { FormatOrder }
    {
        self.check_shut()?;
        self.format_card()
    }

    // Opens the journal with what the card holds, and answers the end position. Nothing is written. Once it is granted, the crash law holds
    // of all calls and power cuts from then on.
    pub fn open(&mut self) -> Result<u64, Fault>
        ensures answer { result ≡ (opening (view self.old) (D.Disk.blocks self.old.disk)).answer }
        ensures state { view self.new ≡ (opening (view self.old) (D.Disk.blocks self.old.disk)).state }
        ensures disk { self.new.disk ≡ self.old.disk }
        ensures law { OnOk result (Lasting (view self.new) (D.Disk.blocks self.new.disk)) }
        ensures order { OpeningOrder }
    {
        self.check_shut()?;
        self.open_card()
    }

    // The disk, to look at.
    pub fn disk(&self) -> &D
        ensures { result.now ≡ self.now.disk }
    {
        &self.disk
    }

    // The log, where the journal is open.
    pub fn log(&self) -> Option<&Log>
        ensures { option_map (λ x. x.now) result ≡ option_map (λ o. o.log) self.now.state }
    {
        self.state.as_ref().map(|open| &open.log)
    }

    // Ends the journal and hands the disk back.
    pub fn into_disk(self) -> D
        ensures { result ≡ self.disk }
    {
        let Journal { disk, state: _ } = self;
        disk
    }
}

// What holds of the definitions, once for all.
fn meaning()
    ensures { Meaning }
{}

impl<D: Disk> Journal<D> {
    // Refuses where the journal is open, as format and opening then do.
    fn check_shut(&self) -> Result<(), Fault>
        ensures state { WhileOpen (view self.now) result }
        ensures format_order { FormatOrder }
        ensures opening_order { OpeningOrder }
    {
        if self.state.is_some() {
            return Err(Fault::Opened);
        }
        Ok(())
    }

    // Format, on a shut journal.
    fn format_card(&mut self) -> Result<u64, Fault>
        requires { view self.old ≡ shut }
        ensures answer { result ≡ (format_outcome (view self.old) (D.Disk.blocks self.old.disk)).answer }
        ensures state { view self.new ≡ (format_outcome (view self.old) (D.Disk.blocks self.old.disk)).state }
        ensures blocks { D.Disk.blocks self.new.disk ≡ (format_outcome (view self.old) (D.Disk.blocks self.old.disk)).disk }
        ensures writes { D.Disk.writes self.new.disk ≡ writes_after (format_outcome (view self.old) (D.Disk.blocks self.old.disk)) (D.Disk.writes self.old.disk) }
        ensures again { OnOk result (FormatAgain (D.Disk.blocks self.old.disk)) }
    {
        journal_log::format(&mut self.disk)?;
        Ok(0)
    }

    // Opening, on a shut journal.
    fn open_card(&mut self) -> Result<u64, Fault>
        requires { view self.old ≡ shut }
        ensures answer { result ≡ (opening (view self.old) (D.Disk.blocks self.old.disk)).answer }
        ensures state { view self.new ≡ (opening (view self.old) (D.Disk.blocks self.old.disk)).state }
        ensures disk { self.new.disk ≡ self.old.disk }
        ensures law { OnOk result (Lasting (view self.new) (D.Disk.blocks self.new.disk)) }
    {
        let log = Log::open(&self.disk)?;
        let end = log.end();
        self.state = Some(Open {
            log,
            operations: Operations::new(),
        });
        Ok(end)
    }
}
