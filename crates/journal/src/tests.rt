// What format and opening do on examples.
use crate::*;
use disk::{DiskFault, Layer, MarkedCard, PlainCard};

// A disk of one's own: one that remembers the blocks of its last two writes, 9 and 9 before the first. `trials` has its like, and what
// follows here, and stands on this crate, so nothing of it can be used; the tests of a crate stay beside it.
#[derive(Drop)]
struct Traced<D: Disk> {
    disk: D,
    before: u32,
    latest: u32,
}

impl<D: Disk> Disk for Traced<D> {
    ghost blocks = { λ s. D.Disk.blocks s.disk };

    ghost writes = { λ s. D.Disk.writes s.disk };

    fn count(&self) -> u32 {
        self.disk.count()
    }

    fn read(&self, block: u32, buf: &mut [u8]) -> Result<(), DiskFault> {
        self.disk.read(block, buf)
    }

    fn write(&mut self, block: u32, buf: &[u8]) -> Result<(), DiskFault> {
        self.before = self.latest;
        self.latest = block;
        self.disk.write(block, buf)
    }
}

#[test]
fn format_writes_block_0_and_then_block_1(rt: HostRuntime) {
    let mut bytes = [7; 65 * 512];
    let disk = Traced {
        disk: PlainCard::new(&mut bytes),
        before: 9,
        latest: 9,
    };
    let mut journal = Journal::new(disk);
    assert_eq!(rt; journal.format(), Ok(0));
    let Traced {
        disk,
        before,
        latest,
    } = journal.into_disk();
    assert_eq!(rt; (before, latest, disk.worn()), (0, 1, 2));
    let mut block = [9; 512];
    assert_eq!(rt; disk.read(1, &mut block), Ok(()));
    assert!(rt; block[0] == 0 && block[511] == 0);
    assert_eq!(rt; disk.read(2, &mut block), Ok(()));
    assert!(rt; block[0] == 7 && block[511] == 7);
}

// What a fault says: its number, its layer, its place, and the disk's own fault.
type Told = (u32, Layer, u32, Option<DiskFault>);

fn told(answer: Result<u64, Fault>) -> Option<Told> {
    answer.err().map(|fault| (fault.number(), fault.layer(), fault.place(), fault.cause()))
}

#[test]
fn an_open_journal_refuses_format_and_opening(rt: HostRuntime) {
    let mut bytes = [0; 65 * 512];
    let mut journal = Journal::new(PlainCard::new(&mut bytes));
    assert_eq!(rt; journal.open(), Ok(0));
    let opened = Some((5, Layer::Operation, 0, None));
    assert_eq!(rt; told(journal.open()), opened);
    assert_eq!(rt; told(journal.format()), opened);
    assert_eq!(rt; journal.disk().worn(), 0);
}

// Format's and opening's answers on a marked card of so many blocks, all zero, of which one is dead.
fn answers(bytes: &mut [u8], dead: usize) -> (Option<Told>, Option<Told>) {
    for (block, cell) in bytes.chunks_exact_mut(513).enumerate() {
        if block != dead {
            cell[512] = 255;
        }
    }
    let mut journal = Journal::new(MarkedCard::new(bytes));
    let opened = told(journal.open());
    let formatted = told(Journal::new(journal.into_disk()).format());
    (formatted, opened)
}

#[test]
fn a_dead_block_is_told_with_the_fault_of_the_disk(rt: HostRuntime) {
    let dead = Some((7, Layer::Log, 3, Some(DiskFault::Dead(3))));
    assert_eq!(rt; answers(&mut [0; 65 * 513], 3), (dead, dead));
    let small = Some((6, Layer::Log, 0, None));
    assert_eq!(rt; answers(&mut [0; 64 * 513], 3), (small, small));
    assert_eq!(rt; answers(&mut [0; 65 * 513], 64), (None, None));
    let mut card = [0; 66 * 513];
    card[0] = 1;
    card[8] = 65;
    let home = Some((11, Layer::Log, 65, Some(DiskFault::Dead(65))));
    assert_eq!(rt; answers(&mut card, 65), (None, home));
}
