// What the journal does on examples, by its public calls alone. What is tried is written for any disk; the tests say on which.
mod example;
mod opening;
mod refusals;
mod room;
mod together;

use disk::{Disk, DiskFault, Layer};
use journal::{Journal, Refused, Ticket};
use model::Fault;
use object::Place;

// What a fault says: its number, its layer, its place, and the disk's own fault.
type Told = (u32, Layer, u32, Option<DiskFault>);

fn tell(fault: Fault) -> Told {
    (fault.number(), fault.layer(), fault.place(), fault.cause())
}

// What the fault of an answer says, if it is one.
fn told<T: Drop>(answer: Result<T, Fault>) -> Option<Told> {
    answer.err().map(tell)
}

// Marks the blocks of a marked card as live, all but one.
fn mark(bytes: &mut [u8], dead: usize) {
    for (number, block) in bytes.chunks_exact_mut(513).enumerate() {
        if number != dead {
            block[512] = 255;
        }
    }
}

// What a block of a disk holds; nines where it cannot be read.
fn block<D: Disk>(disk: &D, number: u32) -> [u8; 512] {
    let mut bytes = [9; 512];
    let _ = disk.read(number, &mut bytes);
    bytes
}

fn object(block: u32, offset: u32, size: u32) -> Place {
    Place {
        block,
        offset,
        size,
    }
}

// An open journal on this disk.
fn opened<D: Disk + Drop>(disk: D) -> Result<Journal<D>, Fault> {
    let mut journal = Journal::new(disk);
    journal.open()?;
    Ok(journal)
}

// Commits an operation, and gives it up where that is refused.
fn spend<D: Disk>(journal: &mut Journal<D>, ticket: Ticket) -> Result<u64, Fault> {
    journal.commit(ticket).map_err(|Refused { ticket, fault }| {
        let _ = journal.give_up(ticket);
        fault
    })
}

// A data block as a new operation reads it; nines where it may not.
fn seen<D: Disk>(journal: &mut Journal<D>, block: u32) -> Result<[u8; 512], Fault> {
    let mut bytes = [9; 512];
    let ticket = journal.begin(3)?;
    let _ = journal.read(&ticket, object(block, 0, 4096), &mut bytes);
    let _ = journal.give_up(ticket);
    Ok(bytes)
}
