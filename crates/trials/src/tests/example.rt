// The worked example: three commits, logged and installed block by block, and a power cut after each step.
use super::{block, mark, object, opened, seen, spend};
use disk::{Disk, MarkedCard, Pair, PlainCard, Window};
use journal::{Journal, Step};
use model::Fault;
use object::Place;
use std::process::Abort;
use std::test::Fail;

// Who makes a step. The steps themselves are generic in the disk, and so no table can hold them.
#[derive(Clone, Copy)]
enum By {
    Logger,
    Installer,
}

// A step: who makes it, which block it writes, the position it answers, and how many of the three commits are shown after a power cut.
type Turn = (By, u32, u64, u32);

// All is logged, and then all is installed.
const LOGGED_FIRST: [Turn; 9] = [
    (By::Logger, 2, 0, 0),
    (By::Logger, 3, 0, 0),
    (By::Logger, 0, 2, 2),
    (By::Logger, 4, 2, 2),
    (By::Logger, 0, 3, 3),
    (By::Installer, 64, 0, 3),
    (By::Installer, 65, 0, 3),
    (By::Installer, 64, 0, 3),
    (By::Installer, 1, 3, 3),
];

// The first two commits are installed before the third is logged.
const BY_TURNS: [Turn; 10] = [
    (By::Logger, 2, 0, 0),
    (By::Logger, 3, 0, 0),
    (By::Logger, 0, 2, 2),
    (By::Installer, 64, 0, 2),
    (By::Logger, 4, 2, 2),
    (By::Installer, 65, 0, 2),
    (By::Installer, 1, 2, 2),
    (By::Logger, 0, 3, 3),
    (By::Installer, 64, 2, 3),
    (By::Installer, 1, 3, 3),
];

// Overwrites these objects by one operation, all the bytes of each alike, and commits it.
fn overwritten<D: Disk>(journal: &mut Journal<D>, objects: &[(Place, u8)]) -> Result<u64, Fault> {
    let ticket = journal.begin(0)?;
    for (place, byte) in objects {
        let width = (place.size as usize / 8).clamp(1, 512);
        let _ = journal.overwrite(&ticket, *place, &[*byte; 512][0..width]);
    }
    spend(journal, ticket)
}

// Formats and opens the card and makes the three commits, with a flush after the second. What each call answers.
fn prepare<D: Disk>(journal: &mut Journal<D>) -> [Result<u64, Fault>; 6] {
    let long = object(64, 0, 256);
    [
        journal.format(),
        journal.open(),
        overwritten(journal, &[(long, 0x11), (object(65, 9, 1), 1)]),
        overwritten(journal, &[(object(64, 256, 256), 0x22)]),
        journal.flush(),
        overwritten(journal, &[(long, 0x33)]),
    ]
}

// What data blocks 64 and 65 hold after so many of the commits: none, two or three.
fn expected(commits: u32) -> [[u8; 512]; 2] {
    let mut low = [0; 512];
    let mut high = [0; 512];
    if commits > 0 {
        let long = if commits < 3 { 0x11 } else { 0x33 };
        low[0..32].fill(long);
        low[32..64].fill(0x22);
        high[1] = 2;
    }
    [low, high]
}

// That an operation sees so many of the commits, and no part of others.
fn check_shown<D: Disk>(
    rt: &impl Abort,
    journal: &mut Journal<D>,
    commits: u32,
) -> Result<(), Fail> {
    assert_eq!(rt; [seen(journal, 64)?, seen(journal, 65)?], expected(commits));
    Ok(())
}

// Makes the commits and then these steps, and hands the disk back as a power cut leaves it.
fn run<D: Disk + Drop>(rt: &impl Abort, disk: D, turns: &[Turn]) -> Result<D, Fail> {
    let mut journal = Journal::new(disk);
    assert_eq!(rt;
        prepare(&mut journal),
        [Ok(0), Ok(0), Ok(2), Ok(2), Ok(2), Ok(3)]
    );
    for (by, wrote, position, _) in turns {
        let step = match by {
            By::Logger => journal.log_step(),
            By::Installer => journal.install_step(),
        };
        let wrote = Some(*wrote);
        let position = *position;
        assert_eq!(rt; step, Ok(Step { wrote, position }));
        check_shown(rt, &mut journal, 3)?;
    }
    Ok(journal.into_disk())
}

// That so many of the commits are shown after a power cut that follows these steps.
fn check_cut<D: Disk + Drop>(
    rt: &impl Abort,
    disk: D,
    turns: &[Turn],
    commits: u32,
) -> Result<(), Fail> {
    let left = run(rt, disk, turns)?;
    check_shown(rt, &mut opened(left)?, commits)
}

// The same for a cut after each of these steps.
fn check_cuts(rt: &impl Abort, turns: &[Turn]) -> Result<(), Fail> {
    for (i, (_, _, _, commits)) in turns.iter().enumerate() {
        check_cut(
            rt,
            PlainCard::new(&mut [0; 70 * 512]),
            &turns[0..i + 1],
            *commits,
        )?;
    }
    Ok(())
}

#[test]
fn cuts_while_logging_and_then_installing(rt: HostRuntime) -> Result<(), Fail> {
    check_cuts(&rt, &LOGGED_FIRST)
}

#[test]
fn cuts_while_logging_and_installing_by_turns(rt: HostRuntime) -> Result<(), Fail> {
    check_cuts(&rt, &BY_TURNS)
}

#[test]
fn a_window_on_a_pair_does_the_same(rt: HostRuntime) -> Result<(), Fail> {
    let mut plain = [7; 40 * 512];
    let mut marked = [0; 40 * 513];
    mark(&mut marked, 40);
    let pair = Pair::new(PlainCard::new(&mut plain), MarkedCard::new(&mut marked));
    check_cut(&rt, Window::new(pair, 5, 70), &BY_TURNS, 3)
}

#[test]
fn the_header_write_makes_two_commits_durable(rt: HostRuntime) -> Result<(), Fail> {
    let mut bytes = [0; 70 * 512];
    let disk = run(&rt, PlainCard::new(&mut bytes), &LOGGED_FIRST[0..3])?;
    let mut header = [0; 512];
    header[0] = 2;
    header[8] = 0x40;
    header[12] = 0x41;
    assert_eq!(rt; [block(&disk, 0), block(&disk, 1)], [header, [0; 512]]);
    Ok(())
}
