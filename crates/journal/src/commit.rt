// Commit: the dirty objects of an operation become updates of the log, together.
ghost use Rattle.std.specs.Prelude.{◌≡◌, ◌<◌, ◌≤◌, [], ◌∷◌, ◌++◌, map, length};
ghost use Rattle.std.specs.Option.{option_map};
ghost use Rattle.disk.specs.Tests.{first_of};
ghost use Rattle.model.specs.Outcomes.{value_unless};
ghost use Rattle.model.specs.Operations.{bytes_tests};
ghost use Rattle.model.specs.Calls.{outcome, called, tests_of, operation, commits};
ghost use Rattle.journal_log.specs.View.{view as log_view};
ghost use Rattle.journal_log.specs.Updates.{update_for};
ghost use Rattle.operation.specs.Table.{as_fault};
ghost use Rattle.journal.specs.Commit.{staged_as, updates_of};
ghost use Rattle.journal.specs.View.{view, open_view, committed_as, HandsBack};

use crate::Journal;
use crate::objects::Newest;
use crate::opened::Open;
use crate::staged::Staged;
use crate::ticket::{Refused, Ticket};
use card::Update;
use disk::{Disk, DiskFault};
use model::Fault;
use object::ObjectFault;
use operation::Table;

impl<D: Disk> Journal<D> {
    // Commits the operation: its dirty objects become updates of the log, together. Answers the operation's position. Refused, it hands
    // the ticket back, and the operation stays open.
    pub fn commit(&mut self, ticket: Ticket) -> Result<u64, Refused>
        ensures answer { committed_as result ≡ (outcome (commits ticket.number) (view self.old) (D.Disk.blocks self.old.disk)).answer }
        ensures ticket { HandsBack ticket.number result }
        ensures state { view self.new ≡ (outcome (commits ticket.number) (view self.old) (D.Disk.blocks self.old.disk)).state }
        ensures disk { self.new.disk ≡ self.old.disk }
    {
        let Ticket { number } = ticket;
        self.commit_number(number).map_err(|fault| Refused {
            ticket: Ticket { number },
            fault,
        })
    }

    // Commits the operation with this number.
    fn commit_number(&mut self, number: u32) -> Result<u64, Fault>
        ensures answer { result ≡ (outcome (commits number) (view self.old) (D.Disk.blocks self.old.disk)).answer }
        ensures state { view self.new ≡ (outcome (commits number) (view self.old) (D.Disk.blocks self.old.disk)).state }
        ensures disk { self.new.disk ≡ self.old.disk }
    {
        let open = self.state.as_mut().ok_or(Fault::Shut)?;
        open.commit(&self.disk, number)
    }
}

impl Open {
    // Tests all that a commit tests, and stages its updates. Nothing but the list is changed yet.
    fn prepare<D: Disk>(&self, disk: &D, number: u32, staged: &mut Staged) -> Result<(), Fault>
        requires { staged.old ≡ [] }
        ensures { staged_as result staged.new ≡ value_unless (first_of (tests_of (commits number) (open_view self.now) (D.Disk.blocks disk.now))) (updates_of (open_view self.now) (D.Disk.blocks disk.now) number) }
    {
        let table = self.operations.table(number).ok_or(Fault::Ticket)?;
        let dirty = table.dirty_blocks();
        let blocks = dirty.as_slice();
        self.log.check_room(blocks)?;
        let newest = Newest {
            log: &self.log,
            disk,
        };
        newest.stage(table, blocks, staged)?;
        Ok(())
    }

    fn commit<D: Disk>(&mut self, disk: &D, number: u32) -> Result<u64, Fault>
        ensures answer { result ≡ (called (commits number) (open_view self.old) (D.Disk.blocks disk.now)).answer }
        ensures state { open_view self.new ≡ (called (commits number) (open_view self.old) (D.Disk.blocks disk.now)).state }
    {
        let mut staged = Staged::new();
        self.prepare(disk, number, &mut staged)?;
        self.log.add_all(staged.as_slice());
        self.close(number);
        Ok(self.log.last())
    }
}

impl<'a, D: Disk> Newest<'a, D> {
    // The update of a dirty block: its newest bytes, with the operation's dirty objects laid in.
    fn update_for(&self, table: &Table, block: u32) -> Result<Update, ObjectFault>
        ensures { as_fault result ≡ value_unless (first_of (bytes_tests (log_view self.now.log.now) (D.Disk.blocks self.now.disk.now) (block ∷ []))) (update_for table.now (D.Disk.blocks self.now.disk.now) (log_view self.now.log.now).updates block) }
    {
        // It fails in no run: an object is held only of a live block.
        let mut bytes = self
            .log
            .newest(self.disk, block)
            .map_err(|_| ObjectFault::DeadBlock(DiskFault::Dead(block)))?;
        table.lay_in(block, &mut bytes);
        Ok(Update { home: block, bytes })
    }

    // Stages the updates of dirty blocks. Nothing but the list is changed yet.
    fn stage(&self, table: &Table, blocks: &[u32], staged: &mut Staged) -> Result<(), ObjectFault>
        requires few { length blocks.now ≤ 8 }
        requires none { staged.old ≡ [] }
        ensures { staged_as (as_fault result) staged.new ≡ value_unless (first_of (bytes_tests (log_view self.now.log.now) (D.Disk.blocks self.now.disk.now) blocks.now)) (map (update_for table.now (D.Disk.blocks self.now.disk.now) (log_view self.now.log.now).updates) blocks.now) }
    {
        for block in blocks {
            staged.push(self.update_for(table, *block)?);
        }
        Ok(())
    }
}
