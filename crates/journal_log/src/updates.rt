// The updates of a log: the newest of a home, and those that commits add.
ghost use Rattle.std.specs.Prelude.{◌≡◌, ◌+◌, ◌≤◌, List, not, length, drop};
ghost use Rattle.disk.specs.Meaning.{Block};
ghost use Rattle.disk.specs.Tests.{first_of};
ghost use Rattle.card.specs.Layout.{latest as latest_of, slots, highest};
ghost use Rattle.model.specs.Outcomes.{passed};
ghost use Rattle.model.specs.Steps.{room_tests, with_updates, added};
ghost use Rattle.journal_log.specs.View.{view};
ghost use Rattle.journal_log.specs.Updates.{settled, has_home, in_log, newest_read, in_fault, fresh as fresh_of, Absorbing, NewestAt, added_all};

use crate::fetching::fetch;
use crate::state::Log;
use card::{HIGHEST, SLOTS, Update};
use disk::{BLOCK, Disk, DiskFault};
use model::LogFault;
use std::ops::Range;

impl Log {
    // The highest position whose update is of this home.
    fn newest_position(&self, home: u32) -> Option<u64>
        ensures { NewestAt self.now home result }
    {
        (self.start..self.last).rfind(|p| self.ring.at(*p).home == home)
    }

    // The newest update of a home: that of the highest position.
    #[tactic(auto, using(crate::proofs::Newest::newest_found))]
    pub fn latest(&self, block: u32) -> Option<&Update>
        ensures { (old : Block) → latest_of (view self.now).updates block old ≡ in_log result old }
    {
        let position = self.newest_position(block)?;
        Some(self.ring.at(position))
    }

    // The newest bytes of a block: the log's, else the block's own.
    #[tactic(auto, using(crate::proofs::Newest::newest_own))]
    pub fn newest<D: Disk>(&self, disk: &D, block: u32) -> Result<[u8; BLOCK], DiskFault>
        ensures { result ≡ newest_read (view self.now) (D.Disk.blocks disk.now) block }
    {
        if let Some(update) = self.latest(block) {
            return Ok(update.bytes);
        }
        fetch(disk, block)
    }

    // The positions whose updates may absorb others.
    fn unsettled(&self) -> Range<u64>
        ensures { result ≡ record { start = self.now.frozen; end = self.now.last } }
    {
        self.frozen..self.last
    }

    // The position whose update absorbs one of this home: the first unsettled one with that home.
    fn absorbing(&self, home: u32) -> Option<u64>
        ensures { Absorbing self.now home result }
    {
        self.unsettled().find(|p| self.ring.at(*p).home == home)
    }

    // Whether an update of this home takes a position of its own.
    #[tactic(auto, using(crate::proofs::Adding::absorbing_told))]
    fn is_fresh(&self, home: u32) -> bool
        ensures { result ≡ not (has_home (drop (settled (view self.now)) (view self.now).updates) home) }
    {
        self.absorbing(home).is_none()
    }

    // Where last would be with updates of these blocks, each named once.
    fn last_with(&self, blocks: &[u32]) -> u64
        ensures { result ≡ self.now.last + fresh_of blocks.now (drop (settled (view self.now)) (view self.now).updates) }
    {
        self.last + blocks.iter().filter(|block| self.is_fresh(**block)).count() as u64
    }

    // Whether the log can take updates of these blocks: it refuses for want of slots, then of positions.
    #[tactic(auto, using(crate::proofs::Adding::room))]
    pub fn check_room(&self, blocks: &[u32]) -> Result<(), LogFault>
        ensures { (us : List Update) → length us ≡ length (view self.now).updates + fresh_of blocks.now (drop (settled (view self.now)) (view self.now).updates) → in_fault result ≡ passed (first_of (room_tests (view self.now) us)) }
    {
        let last = self.last_with(blocks);
        if last - self.start > SLOTS as u64 {
            return Err(LogFault::Full);
        }
        if last > HIGHEST {
            return Err(LogFault::Exhausted);
        }
        Ok(())
    }

    // Absorbs the update, or adds it at last.
    pub fn add(&mut self, update: Update)
        requires slots { length (added (settled (view self.old)) update (view self.old).updates) ≤ slots }
        requires top { self.old.start + length (added (settled (view self.old)) update (view self.old).updates) ≤ highest }
        ensures { view self.new ≡ with_updates (view self.old) (added (settled (view self.old)) update (view self.old).updates) }
    {
        match self.absorbing(update.home) {
            Some(p) => self.ring.put(p, update),
            None => {
                self.ring.put(self.last, update);
                self.last += 1;
            }
        }
    }

    // Absorbs or adds updates in order.
    pub fn add_all(&mut self, updates: &[Update])
        requires slots { length (added_all (settled (view self.old)) updates.now (view self.old).updates) ≤ slots }
        requires top { self.old.start + length (added_all (settled (view self.old)) updates.now (view self.old).updates) ≤ highest }
        ensures { view self.new ≡ with_updates (view self.old) (added_all (settled (view self.old)) updates.now (view self.old).updates) }
    {
        for update in updates {
            self.add(*update);
        }
    }
}
