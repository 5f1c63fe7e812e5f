// How operations begin, and how they end with nothing changed.
ghost use Rattle.std.specs.Prelude.{◌≡◌, ℕ, ◌<◌, true, is_some, Some, None};
ghost use Rattle.std.specs.Option.{option_map};
ghost use Rattle.disk.specs.Meaning.{Blocks};
ghost use Rattle.model.specs.Calls.{outcome, called, operation, with_operation, begins, gives_up};
ghost use Rattle.journal.specs.View.{view, open_view, begun_as};

use crate::Journal;
use crate::opened::Open;
use crate::operations::OPERATIONS;
use crate::ticket::Ticket;
use disk::Disk;
use model::Fault;
use operation::Table;

impl<D: Disk> Journal<D> {
    // Begins the operation with this number, from 0 to 3, and answers its ticket.
    pub fn begin(&mut self, number: u32) -> Result<Ticket, Fault>
        ensures answer { begun_as result ≡ (outcome (begins number) (view self.old) (D.Disk.blocks self.old.disk)).answer }
        ensures state { view self.new ≡ (outcome (begins number) (view self.old) (D.Disk.blocks self.old.disk)).state }
        ensures disk { self.new.disk ≡ self.old.disk }
    {
        let open = self.state.as_mut().ok_or(Fault::Shut)?;
        open.begin(number)
    }

    // Ends the operation with nothing changed, and answers 0. The ticket is taken even where the call is refused.
    pub fn give_up(&mut self, ticket: Ticket) -> Result<u64, Fault>
        ensures answer { result ≡ (outcome (gives_up ticket.number) (view self.old) (D.Disk.blocks self.old.disk)).answer }
        ensures state { view self.new ≡ (outcome (gives_up ticket.number) (view self.old) (D.Disk.blocks self.old.disk)).state }
        ensures disk { self.new.disk ≡ self.old.disk }
    {
        let Ticket { number } = ticket;
        let open = self.state.as_mut().ok_or(Fault::Shut)?;
        open.give_up(number)
    }
}

impl Open {
    // The operation is over.
    pub(crate) fn close(&mut self, number: u32)
        ensures { open_view self.new ≡ with_operation (open_view self.old) number None }
    {
        self.operations.set(number, None);
    }

    fn begin(&mut self, number: u32) -> Result<Ticket, Fault>
        ensures answer { (d : Blocks) → begun_as result ≡ (called (begins number) (open_view self.old) d).answer }
        ensures state { (d : Blocks) → open_view self.new ≡ (called (begins number) (open_view self.old) d).state }
    {
        if number as usize >= OPERATIONS || self.operations.is_begun(number) {
            return Err(Fault::Number);
        }
        self.operations.set(number, Some(Table::new()));
        Ok(Ticket { number })
    }

    fn give_up(&mut self, number: u32) -> Result<u64, Fault>
        ensures answer { (d : Blocks) → result ≡ (called (gives_up number) (open_view self.old) d).answer }
        ensures state { (d : Blocks) → open_view self.new ≡ (called (gives_up number) (open_view self.old) d).state }
    {
        if !self.operations.is_begun(number) {
            return Err(Fault::Ticket);
        }
        self.close(number);
        Ok(0)
    }
}
