// Two disks, one after the other.
ghost use Rattle.std.specs.Prelude.{◌≡◌, ◌+◌, ◌≤◌, min, length};
ghost use Rattle.disk.specs.Meaning.{Whole, refusal, answered, written, counted};
ghost use Rattle.disk.specs.Pair.{pair_shown, pair_writes, PairSides, PairFound};

use crate::fault::handed_on;
use crate::{Disk, DiskFault, MOST_BLOCKS};

#[derive(Drop)]
pub struct Pair<F: Disk, S: Disk> {
    first: F,
    second: S,
}

// The side of a pair on which a block lies, and its number there.
#[derive(Clone, Copy)]
enum Side {
    First(u32),
    Second(u32),
}

impl<F: Disk, S: Disk> Pair<F, S> {
    pub fn new(first: F, second: S) -> Pair<F, S>
        ensures { result ≡ record { first = first; second = second } }
    {
        Pair { first, second }
    }

    // The disks below, handed back.
    pub fn into_disks(self) -> (F, S)
        ensures { result ≡ (self.first, self.second) }
    {
        let Pair { first, second } = self;
        (first, second)
    }

    // How many blocks each disk has.
    fn counts(&self) -> (u32, u32)
        ensures first { (result.0 ≡ length (F.Disk.blocks self.now.first)) × (result.0 ≤ 65536) }
        ensures second { (result.1 ≡ length (S.Disk.blocks self.now.second)) × (result.1 ≤ 65536) }
        ensures both { min (result.0 + result.1) 65536 ≡ length (pair_shown F.Disk.blocks S.Disk.blocks self.now) }
        ensures whole { Whole (pair_shown F.Disk.blocks S.Disk.blocks self.now) }
    {
        (self.first.count(), self.second.count())
    }

    // Where a block lies.
    fn locate(&self, block: u32, buf: &[u8]) -> Result<Side, DiskFault>
        ensures { PairFound (F.Disk.blocks self.now.first) (S.Disk.blocks self.now.second) (F.Disk.writes self.now.first) (S.Disk.writes self.now.second) block buf.now result }
    {
        let (first, _) = self.counts();
        if block >= self.count() {
            return Err(DiskFault::Beyond(block));
        }
        if block < first {
            return Ok(Side::First(block));
        }
        Ok(Side::Second(block - first))
    }
}

impl<F: Disk, S: Disk> Disk for Pair<F, S> {
    ghost blocks = { λ s. pair_shown F.Disk.blocks S.Disk.blocks s };

    ghost writes = { λ s. pair_writes (F.Disk.writes s.first) (S.Disk.writes s.second) };

    fn count(&self) -> u32 {
        let (first, second) = self.counts();
        (first + second).min(MOST_BLOCKS as u32)
    }

    fn read(&self, block: u32, buf: &mut [u8]) -> Result<(), DiskFault> {
        match self.locate(block, buf)? {
            Side::First(at) => handed_on(self.first.read(at, buf), block),
            Side::Second(at) => handed_on(self.second.read(at, buf), block),
        }
    }

    fn write(&mut self, block: u32, buf: &[u8]) -> Result<(), DiskFault>
        ensures answer { result ≡ answered (refusal (pair_shown F.Disk.blocks S.Disk.blocks self.old) block (length buf.now)) }
        ensures blocks { pair_shown F.Disk.blocks S.Disk.blocks self.new ≡ written (pair_shown F.Disk.blocks S.Disk.blocks self.old) block buf.now }
        ensures writes { pair_writes (F.Disk.writes self.new.first) (S.Disk.writes self.new.second) ≡ counted (pair_shown F.Disk.blocks S.Disk.blocks self.old) block (length buf.now) (pair_writes (F.Disk.writes self.old.first) (S.Disk.writes self.old.second)) }
        ensures sides { PairSides (F.Disk.blocks self.old.first) (S.Disk.blocks self.old.second) (F.Disk.writes self.old.first) (S.Disk.writes self.old.second) block buf.now (F.Disk.blocks self.new.first) (S.Disk.blocks self.new.second) (F.Disk.writes self.new.first) (S.Disk.writes self.new.second) }
    {
        match self.locate(block, buf)? {
            Side::First(at) => handed_on(self.first.write(at, buf), block),
            Side::Second(at) => handed_on(self.second.write(at, buf), block),
        }
    }
}
