// Two operations at a time on one block.
use super::{object, opened, seen, spend};
use disk::{Disk, PlainCard};
use journal::{Journal, Ticket};
use model::Fault;
use std::process::Abort;
use std::test::Fail;

fn begin_two<D: Disk>(journal: &mut Journal<D>) -> Result<(Ticket, Ticket), Fault> {
    let one = journal.begin(1)?;
    match journal.begin(2) {
        Ok(two) => Ok((one, two)),
        Err(fault) => {
            let _ = journal.give_up(one);
            Err(fault)
        }
    }
}

// What an operation overwrites in block 64: offset, size and byte.
type Change = (u32, u32, u8);

// Two changes that are committed in this order though they were made in the other, and the first two bytes that block 64 then begins with.
const CHANGES: [(Change, Change, [u8; 2]); 4] = [
    ((0, 8, 0x10), (8, 8, 0x20), [0x10, 0x20]),
    ((0, 8, 0x30), (0, 8, 0x40), [0x40, 0x20]),
    ((0, 8, 0x50), (1, 1, 1), [0x52, 0x20]),
    ((1, 1, 0), (0, 8, 0x06), [0x06, 0x20]),
];

fn change<D: Disk>(journal: &mut Journal<D>, ticket: &Ticket, change: Change) {
    let (offset, size, byte) = change;
    let _ = journal.overwrite(ticket, object(64, offset, size), &[byte]);
}

fn both<D: Disk>(
    journal: &mut Journal<D>,
    first: Change,
    second: Change,
) -> Result<[u8; 512], Fault> {
    let (one, two) = begin_two(journal)?;
    change(journal, &two, second);
    change(journal, &one, first);
    let _ = spend(journal, one);
    let _ = spend(journal, two);
    seen(journal, 64)
}

// A block that begins with these two bytes and is zero from there on.
fn beginning(bytes: [u8; 2]) -> [u8; 512] {
    let mut block = [0; 512];
    block[0..2].copy_from_slice(&bytes);
    block
}

fn check_changes<D: Disk + Drop>(rt: &impl Abort, disk: D) -> Result<(), Fail> {
    let mut journal = opened(disk)?;
    for (first, second, bytes) in CHANGES {
        assert_eq!(rt; both(&mut journal, first, second), Ok(beginning(bytes)));
    }
    Ok(())
}

#[test]
fn a_later_commit_lays_its_own_bits_only(rt: HostRuntime) -> Result<(), Fail> {
    check_changes(&rt, PlainCard::new(&mut [0; 65 * 512]))
}

// What an operation reads in the first byte of block 64 before and after another commits a 2 there, and the block after the reader has committed a
// 1 beside it.
fn read_meanwhile<D: Disk + Drop>(disk: D) -> Result<([u8; 1], [u8; 1], [u8; 512]), Fault> {
    let mut journal = opened(disk)?;
    let (one, two) = begin_two(&mut journal)?;
    let mut before = [7];
    let mut after = [7];
    let _ = journal.read(&one, object(64, 0, 8), &mut before);
    change(&mut journal, &two, (0, 8, 2));
    let _ = spend(&mut journal, two);
    let _ = journal.read(&one, object(64, 0, 8), &mut after);
    change(&mut journal, &one, (8, 8, 1));
    let _ = spend(&mut journal, one);
    Ok((before, after, seen(&mut journal, 64)?))
}

#[test]
fn a_byte_that_was_only_read_is_not_laid(rt: HostRuntime) {
    let found = read_meanwhile(PlainCard::new(&mut [0; 65 * 512]));
    assert_eq!(rt; found, Ok(([0], [0], beginning([2, 1]))));
}

// What giving up a change answers, what flush answers then, and block 64.
fn given_up<D: Disk + Drop>(disk: D) -> Result<(u64, u64, [u8; 512]), Fault> {
    let mut journal = opened(disk)?;
    let ticket = journal.begin(0)?;
    change(&mut journal, &ticket, (0, 8, 1));
    let answer = journal.give_up(ticket)?;
    Ok((answer, journal.flush()?, seen(&mut journal, 64)?))
}

#[test]
fn a_give_up_changes_nothing(rt: HostRuntime) {
    let found = given_up(PlainCard::new(&mut [0; 65 * 512]));
    assert_eq!(rt; found, Ok((0, 0, [0; 512])));
}
