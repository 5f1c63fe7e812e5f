// Commits for which the log has no room or no position left.
use super::{Told, object, tell};
use disk::{Disk, Layer, PlainCard};
use journal::{Journal, Refused, Ticket};
use model::Fault;
use std::process::Abort;
use std::test::Fail;

// A refused commit: what its fault says, the number of the ticket that is handed back, and the byte that its operation then still reads.
type Kept = (Told, u32, [u8; 1]);

const FULL: Kept = ((21, Layer::Log, 0, None), 2, [5]);

const EXHAUSTED: Kept = ((22, Layer::Log, 0, None), 2, [5]);

// Reads block 65 by the operation of a refused commit, and gives it up.
fn keep<D: Disk>(journal: &mut Journal<D>, ticket: Ticket, fault: Fault) -> Kept {
    let mut byte = [7];
    let number = ticket.number();
    let _ = journal.read(&ticket, object(65, 0, 8), &mut byte);
    let _ = journal.give_up(ticket);
    (tell(fault), number, byte)
}

// What a commit answers that changes a byte of each data block from 65 to before `end`.
fn committed<D: Disk>(journal: &mut Journal<D>, end: u32) -> Result<Result<u64, Kept>, Fault> {
    let ticket = journal.begin(2)?;
    for block in 65..end {
        let _ = journal.overwrite(&ticket, object(block, 0, 8), &[5]);
    }
    Ok(
        journal
            .commit(ticket)
            .map_err(|Refused { ticket, fault }| keep(journal, ticket, fault)),
    )
}

// That opening answers this end, and commits up to these blocks answer as is said beside each.
fn check_commits<D: Disk + Drop>(
    rt: &impl Abort,
    disk: D,
    end: u64,
    commits: &[(u32, Result<u64, Kept>)],
) -> Result<(), Fail> {
    let mut journal = Journal::new(disk);
    assert_eq!(rt; journal.open(), Ok(end));
    for (end, answer) in commits {
        assert_eq!(rt; committed(&mut journal, *end)?, *answer);
    }
    Ok(())
}

// Makes the header of a card with 55 live positions, all with home 64.
fn fill_log(bytes: &mut [u8; 80 * 512]) {
    bytes[0] = 55;
    for home in bytes[8..8 + 4 * 55].chunks_exact_mut(4) {
        home[0] = 64;
    }
}

#[test]
fn the_log_has_62_slots(rt: HostRuntime) -> Result<(), Fail> {
    let mut bytes = [0; 80 * 512];
    fill_log(&mut bytes);
    let commits = [
        (73, Err(FULL)),
        (72, Ok(62)),
        (73, Err(FULL)),
        (72, Ok(62)),
        (65, Ok(62)),
    ];
    check_commits(&rt, PlainCard::new(&mut bytes), 55, &commits)
}

#[test]
fn there_is_no_position_above_the_highest(rt: HostRuntime) -> Result<(), Fail> {
    let mut bytes = [0; 66 * 512];
    bytes[7] = 0x80;
    bytes[519] = 0x80;
    let commits = [(65, Ok(1 << 63)), (66, Err(EXHAUSTED)), (65, Ok(1 << 63))];
    check_commits(&rt, PlainCard::new(&mut bytes), 1 << 63, &commits)
}
