// Format and opening.
use super::{Told, block, mark, opened, told};
use crate::Traced;
use disk::{Disk, DiskFault, Layer, MarkedCard, PlainCard};
use journal::Journal;
use model::Fault;
use std::process::Abort;

// That format writes block 0 and then block 1. The disk is handed back.
fn formatted<D: Disk + Drop>(rt: &impl Abort, disk: D) -> D {
    let mut journal = Journal::new(Traced::new(disk));
    let answer = journal.format();
    let traced = journal.into_disk();
    assert_eq!(rt; (answer, traced.last_two()), (Ok(0), (Some(0), Some(1))));
    traced.into_disk()
}

#[test]
fn format_writes_block_0_and_then_block_1(rt: HostRuntime) {
    let mut bytes = [7; 65 * 512];
    let disk = formatted(&rt, PlainCard::new(&mut bytes));
    let blocks = [block(&disk, 0), block(&disk, 1), block(&disk, 2)];
    assert_eq!(rt; (blocks, disk.worn()), ([[0; 512], [0; 512], [7; 512]], 2));
}

// What an open journal says to opening and format.
fn twice<D: Disk + Drop>(disk: D) -> Result<[Option<Told>; 2], Fault> {
    let mut journal = opened(disk)?;
    Ok([told(journal.open()), told(journal.format())])
}

#[test]
fn an_open_journal_refuses_format_and_opening(rt: HostRuntime) {
    let mut bytes = [0; 65 * 512];
    let opened = Some((5, Layer::Operation, 0, None));
    assert_eq!(rt; twice(PlainCard::new(&mut bytes)), Ok([opened; 2]));
}

// Format's and opening's answers on a marked card of so many blocks, all zero, of which one is dead.
fn answers(bytes: &mut [u8], dead: usize) -> (Option<Told>, Option<Told>) {
    mark(bytes, dead);
    let mut journal = Journal::new(MarkedCard::new(bytes));
    let opened = told(journal.open());
    let formatted = told(Journal::new(journal.into_disk()).format());
    (formatted, opened)
}

#[test]
fn a_dead_block_is_told_with_the_fault_of_the_disk(rt: HostRuntime) {
    let dead = Some((7, Layer::Log, 3, Some(DiskFault::Dead(3))));
    assert_eq!(rt; answers(&mut [0; 65 * 513], 3), (dead, dead));
    let small = Some((6, Layer::Log, 0, None));
    assert_eq!(rt; answers(&mut [0; 64 * 513], 3), (small, small));
    assert_eq!(rt; answers(&mut [0; 65 * 513], 64), (None, None));
    let mut card = [0; 66 * 513];
    card[0] = 1;
    card[8] = 65;
    let home = Some((11, Layer::Log, 65, Some(DiskFault::Dead(65))));
    assert_eq!(rt; answers(&mut card, 65), (None, home));
}
