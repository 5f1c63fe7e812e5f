// The operations of an open journal: what each holds, where it is open.
ghost use Rattle.std.specs.Prelude.{◌≡◌, is_some, replicate, slice_set, slice_index_or, None};
ghost use Rattle.std.specs.Option.{option_map};
ghost use Rattle.model.specs.Calls.{called, reads, overwrites};
ghost use Rattle.journal.specs.View.{opened};

use crate::objects::Newest;
use disk::Disk;
use journal_log::Log;
use model::Fault;
use object::Place;
use operation::Table;
use std::marker::Model;

// How many operations there may be.
pub const OPERATIONS: usize = 4;

#[derive(Drop)]
pub(crate) struct Operations {
    tables: [Option<Table>; OPERATIONS],
}

// A contract sees what each of the four holds, none where it is not open.
impl Model for Operations {
    ghost use Rattle.std.specs.Prelude.{◌≡◌, List, Option, length};
    ghost use Rattle.object.specs.Tables.{Held};

    ghost Value = { List (Option (List Held)) };

    ghost view = { λ o. o.tables };

    ghost invariant = { λ o. length o.tables ≡ 4 };
}

impl Operations {
    // None is open.
    pub(crate) fn new() -> Operations
        ensures { result ≡ replicate 4 None }
    {
        Operations {
            tables: [None; OPERATIONS],
        }
    }

    // What the operation with this number holds, if it is open.
    pub(crate) fn table(&self, number: u32) -> Option<&Table>
        ensures { option_map (λ t. t.now) result ≡ slice_index_or self.now number None }
    {
        self.tables.get(number as usize)?.as_ref()
    }

    // Whether the operation with this number is open.
    pub(crate) fn is_begun(&self, number: u32) -> bool
        ensures { result ≡ is_some (slice_index_or self.now number None) }
    {
        self.table(number).is_some()
    }

    // The operation with this number, if there is one, holds this, or is not open.
    pub(crate) fn set(&mut self, number: u32, table: Option<Table>)
        ensures { self.new ≡ slice_set self.old number table }
    {
        if (number as usize) < OPERATIONS {
            self.tables[number as usize] = table;
        }
    }

    // A read by the operation with this number. Two things that were tried, here and below, the borrow checker does not follow yet: log
    // and disk in one struct, lent out of one journal; and what is known of the table that `get_mut` lends.
    pub(crate) fn read<D: Disk>(
        &mut self,
        log: &Log,
        disk: &D,
        number: u32,
        place: Place,
        buf: &mut [u8],
    ) -> Result<usize, Fault>
        ensures answer { result ≡ (called (reads number place buf.old) (opened log.now self.old) (D.Disk.blocks disk.now)).answer }
        ensures buffer { buf.new ≡ (called (reads number place buf.old) (opened log.now self.old) (D.Disk.blocks disk.now)).buffer }
        ensures state { opened log.now self.new ≡ (called (reads number place buf.old) (opened log.now self.old) (D.Disk.blocks disk.now)).state }
    {
        let tables = &mut self.tables;
        if number as usize >= OPERATIONS {
            return Err(Fault::Ticket);
        }
        Newest { log, disk }.read_in(&mut tables[number as usize], place, buf)
    }

    // An overwrite by the operation with this number.
    pub(crate) fn overwrite<D: Disk>(
        &mut self,
        log: &Log,
        disk: &D,
        number: u32,
        place: Place,
        bytes: &[u8],
    ) -> Result<usize, Fault>
        ensures answer { result ≡ (called (overwrites number place bytes.now) (opened log.now self.old) (D.Disk.blocks disk.now)).answer }
        ensures state { opened log.now self.new ≡ (called (overwrites number place bytes.now) (opened log.now self.old) (D.Disk.blocks disk.now)).state }
    {
        let tables = &mut self.tables;
        if number as usize >= OPERATIONS {
            return Err(Fault::Ticket);
        }
        Newest { log, disk }.overwrite_in(&mut tables[number as usize], place, bytes)
    }
}
