// Reads and overwrites.
ghost use Rattle.std.specs.Prelude.{◌≡◌};
ghost use Rattle.model.specs.Calls.{outcome, reads, overwrites};
ghost use Rattle.journal.specs.View.{view};

use crate::Journal;
use crate::ticket::Ticket;
use disk::Disk;
use model::Fault;
use object::Place;

impl<D: Disk> Journal<D> {
    // Fills the buffer with an object as the operation sees it, and answers how many bytes it has.
    pub fn read(&mut self, ticket: &Ticket, place: Place, buf: &mut [u8]) -> Result<usize, Fault>
        ensures answer { result ≡ (outcome (reads ticket.now.number place buf.old) (view self.old) (D.Disk.blocks self.old.disk)).answer }
        ensures buffer { buf.new ≡ (outcome (reads ticket.now.number place buf.old) (view self.old) (D.Disk.blocks self.old.disk)).buffer }
        ensures state { view self.new ≡ (outcome (reads ticket.now.number place buf.old) (view self.old) (D.Disk.blocks self.old.disk)).state }
        ensures disk { self.new.disk ≡ self.old.disk }
    {
        let open = self.state.as_mut().ok_or(Fault::Shut)?;
        open.operations
            .read(&open.log, &self.disk, ticket.number, place, buf)
    }

    // Gives an object new bytes in the operation, and answers how many.
    pub fn overwrite(&mut self, ticket: &Ticket, place: Place, bytes: &[u8]) -> Result<usize, Fault>
        ensures answer { result ≡ (outcome (overwrites ticket.now.number place bytes.now) (view self.old) (D.Disk.blocks self.old.disk)).answer }
        ensures state { view self.new ≡ (outcome (overwrites ticket.now.number place bytes.now) (view self.old) (D.Disk.blocks self.old.disk)).state }
        ensures disk { self.new.disk ≡ self.old.disk }
    {
        let open = self.state.as_mut().ok_or(Fault::Shut)?;
        open.operations
            .overwrite(&open.log, &self.disk, ticket.number, place, bytes)
    }
}
