// Reads and overwrites by one operation. A value is looked for in the operation's table, then in the log, then at home; the disk is
// asked only where it is in neither of the first two.
//
// That a place lies inside the disk is asked by three functions here. It is a fact of a place and a disk together: a struct of both
// would be made in each call and taken apart at once, and is no plainer.
ghost use Rattle.std.specs.Prelude.{◌≡◌, ◌<◌, true, false, not, length, [], Some, None, MatchResult, OnOk, nat_le};
ghost use Rattle.std.specs.Option.{unwrap_or};
ghost use Rattle.disk.specs.Tests.{first_of, unless, both};
ghost use Rattle.disk.specs.declared.fault.DiskFault.TheVariants.{Dead};
ghost use Rattle.object.specs.declared.ObjectFault.TheVariants.{DeadBlock};
ghost use Rattle.object.specs.Objects.{width};
ghost use Rattle.object.specs.Tables.{most_held, is_in, holding};
ghost use Rattle.model.specs.Outcomes.{passed, value_unless};
ghost use Rattle.model.specs.Steps.{newest};
ghost use Rattle.operation.specs.Held.{IsValue};
ghost use Rattle.operation.specs.Table.{as_fault};
ghost use Rattle.journal_log.specs.View.{view as log_view};
ghost use Rattle.journal.specs.Touch.{held_tests, seen_by, read_into, read_tests, overwrite_tests, read_by, overwritten_by};

use disk::{BLOCK, Disk};
use journal_log::Log;
use model::Fault;
use object::{ObjectFault, Place, Spot};
use operation::{Held, Table, check_bit, check_place};

// What is newest of the disk's blocks: the log over the disk.
#[derive(Clone, Copy)]
pub(crate) struct Newest<'a, D> {
    pub(crate) log: &'a Log,
    pub(crate) disk: &'a D,
}

impl<'a, D: Disk> Newest<'a, D> {
    // The newest bytes of a block of the disk, unless it is dead.
    fn bytes(&self, block: u32) -> Result<[u8; BLOCK], ObjectFault>
        requires { block < length (D.Disk.blocks self.now.disk.now) }
        ensures { MatchResult result (λ bs. newest (log_view self.now.log.now) (D.Disk.blocks self.now.disk.now) block ≡ Some bs) (λ f. (newest (log_view self.now.log.now) (D.Disk.blocks self.now.disk.now) block ≡ None) × (f ≡ DeadBlock (Dead block))) }
    {
        Ok(self.log.newest(self.disk, block)?)
    }

    // Fills the buffer with an object, and holds it.
    fn read_object(&self, table: &mut Table, spot: Spot, buf: &mut [u8]) -> Result<(), ObjectFault>
        requires long { length buf.old ≡ width spot.place.size }
        requires inside { spot.place.block < length (D.Disk.blocks self.now.disk.now) }
        ensures answer { as_fault result ≡ passed (first_of (held_tests (log_view self.now.log.now) (D.Disk.blocks self.now.disk.now) spot.place table.old)) }
        ensures buffer { buf.new ≡ unless (first_of (held_tests (log_view self.now.log.now) (D.Disk.blocks self.now.disk.now) spot.place table.old)) (seen_by (log_view self.now.log.now) (D.Disk.blocks self.now.disk.now) spot.place table.old) buf.old }
        ensures table { table.new ≡ unless (first_of (held_tests (log_view self.now.log.now) (D.Disk.blocks self.now.disk.now) spot.place table.old)) (read_into (log_view self.now.log.now) (D.Disk.blocks self.now.disk.now) spot.place table.old) table.old }
    {
        let place = spot.place;
        table.check(place)?;
        if let Some(value) = table.value(&place) {
            buf.copy_from_slice(value);
            return Ok(());
        }
        let block = self.bytes(place.block)?;
        spot.take(&block, buf);
        table.add(Held::read(spot, &block));
        Ok(())
    }

    // Refuses an object that the table cannot hold, or whose block is dead.
    fn check_held(&self, table: &Table, place: Place) -> Result<(), ObjectFault>
        requires { place.block < length (D.Disk.blocks self.now.disk.now) }
        ensures answer { as_fault result ≡ passed (first_of (held_tests (log_view self.now.log.now) (D.Disk.blocks self.now.disk.now) place table.now)) }
        ensures room { OnOk result (both (nat_le most_held (length table.now)) (not (is_in table.now place)) ≡ false) }
    {
        table.check(place)?;
        if !table.holds(&place) {
            self.bytes(place.block)?;
        }
        Ok(())
    }

    // A read by an operation with this table. Answers how many bytes the object has.
    fn read_by(&self, table: &mut Table, place: Place, buf: &mut [u8]) -> Result<usize, Fault>
        ensures answer { result ≡ value_unless (first_of (read_tests (log_view self.now.log.now) (D.Disk.blocks self.now.disk.now) place table.old (length buf.old))) (width place.size) }
        ensures buffer { buf.new ≡ unless (first_of (read_tests (log_view self.now.log.now) (D.Disk.blocks self.now.disk.now) place table.old (length buf.old))) (seen_by (log_view self.now.log.now) (D.Disk.blocks self.now.disk.now) place table.old) buf.old }
        ensures table { table.new ≡ unless (first_of (read_tests (log_view self.now.log.now) (D.Disk.blocks self.now.disk.now) place table.old (length buf.old))) (read_into (log_view self.now.log.now) (D.Disk.blocks self.now.disk.now) place table.old) table.old }
    {
        let spot = check_place(self.disk, place, buf.len())?;
        self.read_object(table, spot, buf)?;
        Ok(place.width())
    }

    // An overwrite by an operation with this table. Answers how many bytes the object has.
    fn overwrite_by(&self, table: &mut Table, place: Place, bytes: &[u8]) -> Result<usize, Fault>
        ensures answer { result ≡ value_unless (first_of (overwrite_tests (log_view self.now.log.now) (D.Disk.blocks self.now.disk.now) place table.old bytes.now)) (width place.size) }
        ensures table { table.new ≡ unless (first_of (overwrite_tests (log_view self.now.log.now) (D.Disk.blocks self.now.disk.now) place table.old bytes.now)) (holding table.old (record { place = place; bytes = bytes.now; dirty = true })) table.old }
    {
        let spot = check_place(self.disk, place, bytes.len())?;
        check_bit(place, bytes)?;
        self.check_held(table, place)?;
        table.write(spot, bytes);
        Ok(place.width())
    }

    // A read by the operation in this slot, if one is open there. The whole look-up is one chain of `let .. else` and `if let`: the slot,
    // the held table, the log; then the disk.
    pub(crate) fn read_in(
        &self,
        slot: &mut Option<Table>,
        place: Place,
        buf: &mut [u8],
    ) -> Result<usize, Fault>
        ensures answer { result ≡ value_unless (read_by (log_view self.now.log.now) (D.Disk.blocks self.now.disk.now) place slot.old (length buf.old)) (width place.size) }
        ensures buffer { buf.new ≡ unless (read_by (log_view self.now.log.now) (D.Disk.blocks self.now.disk.now) place slot.old (length buf.old)) (seen_by (log_view self.now.log.now) (D.Disk.blocks self.now.disk.now) place (unwrap_or slot.old [])) buf.old }
        ensures slot { slot.new ≡ unless (read_by (log_view self.now.log.now) (D.Disk.blocks self.now.disk.now) place slot.old (length buf.old)) (Some (read_into (log_view self.now.log.now) (D.Disk.blocks self.now.disk.now) place (unwrap_or slot.old []))) slot.old }
    {
        let Some(table) = slot.as_mut() else {
            return Err(Fault::Ticket);
        };
        self.read_by(table, place, buf)
    }

    // An overwrite by the operation in this slot, if one is open there.
    pub(crate) fn overwrite_in(
        &self,
        slot: &mut Option<Table>,
        place: Place,
        bytes: &[u8],
    ) -> Result<usize, Fault>
        ensures answer { result ≡ value_unless (overwritten_by (log_view self.now.log.now) (D.Disk.blocks self.now.disk.now) place slot.old bytes.now) (width place.size) }
        ensures slot { slot.new ≡ unless (overwritten_by (log_view self.now.log.now) (D.Disk.blocks self.now.disk.now) place slot.old bytes.now) (Some (holding (unwrap_or slot.old []) (record { place = place; bytes = bytes.now; dirty = true }))) slot.old }
    {
        let Some(table) = slot.as_mut() else {
            return Err(Fault::Ticket);
        };
        self.overwrite_by(table, place, bytes)
    }
}
