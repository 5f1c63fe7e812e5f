// The steps of logger and installer. Each writes at most one block, and changes the log only once the disk has granted that.
//
// The logger makes positions durable in rounds. A round runs from the end to a target: first it writes the log block of each position, then
// block 0 with the target as the new end. Until then the card's end is the old one, so a cut leaves the round undone.
//
// The installer carries updates home in rounds. A round runs from the start to a target: first it writes the home of each position, then
// block 1 with the target as the new start. Until then the log still shows the same bytes.
//
// The two stay apart: they write other blocks, change other fields and have other definitions, so one form for both would take all of these as
// parameters. `Logs` and `Installs` tie a round to the log as it stands, which no field of the round can do.
ghost use Rattle.std.specs.Prelude.{◌≡◌, ℕ, ◌<◌, ◌≤◌, MatchOption, slice_set};
ghost use Rattle.card.specs.Layout.{slot as slot_of};
ghost use Rattle.model.specs.Steps as means;
ghost use Rattle.journal_log.specs.View.{view};
ghost use Rattle.model.specs.Log.{last};
ghost use Rattle.journal_log.specs.Steps.{Stepped, Logs, Installs, settling, new_target};

use crate::state::Log;
use card::{Header, SLOTS, encode_start, log_block, slot};
use disk::Disk;
use model::{LogFault, Round};

// What a step did: the block that it wrote, if any, and the end (the logger's) or the start (the installer's) after it.
#[derive(Clone, Copy, Debug, PartialEq)]
pub struct Step {
    pub wrote: Option<u32>,
    pub position: u64,
}

impl Step {
    // Nothing was left to do.
    fn idle(position: u64) -> Step
        ensures { result ≡ record { wrote = None; position = position } }
    {
        Step {
            wrote: None,
            position,
        }
    }

    // This block was written.
    fn wrote(block: u32, position: u64) -> Step
        ensures { result ≡ record { wrote = Some block; position = position } }
    {
        Step {
            wrote: Some(block),
            position,
        }
    }
}

impl Log {
    // Settles all updates: none of them absorbs any more, and the logger makes them durable. Answers last.
    pub fn flush(&mut self) -> u64
        ensures answer { result ≡ last (view self.old) }
        ensures log { view self.new ≡ means.frozen_at (view self.old) (last (view self.old)) }
    {
        let last = self.past_updates();
        self.frozen = last;
        last
    }

    // The position after all updates.
    #[tactic(auto, using(crate::proofs::Stepping::last_is))]
    fn past_updates(&self) -> u64
        ensures value { result ≡ last (view self.now) }
        ensures field { result ≡ self.now.last }
    {
        self.last
    }

    // One step of the logger.
    pub fn log_step<D: Disk>(&mut self, disk: &mut D) -> Result<Step, LogFault>
        ensures { Stepped (means.log_step (view self.old) (D.Disk.blocks disk.old)) result (view self.new) (D.Disk.blocks disk.new) (D.Disk.writes disk.old) (D.Disk.writes disk.new) }
    {
        if let Some(round) = self.logging {
            return self.log_round(disk, round);
        }
        match self.log_target() {
            Some(target) => {
                let next = self.end;
                self.log_round(disk, Round { next, target })
            }
            None => Ok(Step::idle(self.end)),
        }
    }

    // Where a new round of the logger ends: at frozen, else at last. None where all is durable.
    fn log_target(&self) -> Option<u64>
        ensures value { result ≡ new_target self.now }
        ensures within { MatchOption result (self.now.last ≤ self.now.end) (λ target. (self.now.frozen ≤ target) × Logs self.now (record { next = self.now.end; target = target })) }
    {
        if self.end < self.frozen {
            return Some(self.frozen);
        }
        if self.end < self.last {
            return Some(self.last);
        }
        None
    }

    // A step in a round, which settles all below its target.
    fn log_round<D: Disk>(&mut self, disk: &mut D, round: Round) -> Result<Step, LogFault>
        requires { Logs self.old round }
        ensures { Stepped (means.log_round (view self.old) (settling self.old round) round (D.Disk.blocks disk.old)) result (view self.new) (D.Disk.blocks disk.new) (D.Disk.writes disk.old) (D.Disk.writes disk.new) }
    {
        if round.next < round.target {
            self.log_next(disk, round)
        } else {
            self.log_header(disk, round)
        }
    }

    // The next log block of a round.
    fn log_next<D: Disk>(&mut self, disk: &mut D, round: Round) -> Result<Step, LogFault>
        requires round { Logs self.old round }
        requires more { round.next < round.target }
        ensures { Stepped (means.log_next (view self.old) (settling self.old round) round (D.Disk.blocks disk.old)) result (view self.new) (D.Disk.blocks disk.new) (D.Disk.writes disk.old) (D.Disk.writes disk.new) }
    {
        let block = log_block(round.next);
        disk.write(block, &self.ring.at(round.next).bytes)?;
        self.frozen = self.frozen.max(round.target);
        self.logging = Some(Round {
            next: round.next + 1,
            ..round
        });
        Ok(Step::wrote(block, self.end))
    }

    // Block 0, which ends a round.
    fn log_header<D: Disk>(&mut self, disk: &mut D, round: Round) -> Result<Step, LogFault>
        requires { Logs self.old round }
        ensures { Stepped (means.log_header (view self.old) (settling self.old round) round (D.Disk.blocks disk.old)) result (view self.new) (D.Disk.blocks disk.new) (D.Disk.writes disk.old) (D.Disk.writes disk.new) }
    {
        let end = round.target;
        let homes = self.homes_up_to(end);
        disk.write(0, &Header { end, homes }.encode())?;
        self.end = end;
        self.frozen = self.frozen.max(round.target);
        self.homes = homes;
        self.logging = None;
        Ok(Step::wrote(0, end))
    }

    // The home numbers of block 0 with those of the positions from the end up to `target`.
    fn homes_up_to(&self, target: u64) -> [u32; SLOTS]
        requires { (self.now.end ≤ target) × (target ≤ self.now.last) }
        ensures { result ≡ means.homes_after (view self.now) (record { next = target; target = target }) }
    {
        let mut homes = self.homes;
        for p in self.end..target {
            put_home(&mut homes, p, self.ring.at(p).home);
        }
        homes
    }

    // One step of the installer.
    pub fn install_step<D: Disk>(&mut self, disk: &mut D) -> Result<Step, LogFault>
        ensures { Stepped (means.install_step (view self.old) (D.Disk.blocks disk.old)) result (view self.new) (D.Disk.blocks disk.new) (D.Disk.writes disk.old) (D.Disk.writes disk.new) }
    {
        match self.installing {
            Some(round) => self.install_round(disk, round),
            None if self.start < self.end => {
                let round = Round {
                    next: self.start,
                    target: self.end,
                };
                self.install_round(disk, round)
            }
            None => Ok(Step::idle(self.start)),
        }
    }

    // A step in a round.
    fn install_round<D: Disk>(&mut self, disk: &mut D, round: Round) -> Result<Step, LogFault>
        requires { Installs self.old round }
        ensures { Stepped (means.install_round (view self.old) round (D.Disk.blocks disk.old)) result (view self.new) (D.Disk.blocks disk.new) (D.Disk.writes disk.old) (D.Disk.writes disk.new) }
    {
        if round.next < round.target {
            self.install_next(disk, round)
        } else {
            self.install_start(disk, round)
        }
    }

    // The next home of a round.
    fn install_next<D: Disk>(&mut self, disk: &mut D, round: Round) -> Result<Step, LogFault>
        requires round { Installs self.old round }
        requires more { round.next < round.target }
        ensures { Stepped (means.install_next (view self.old) round (D.Disk.blocks disk.old)) result (view self.new) (D.Disk.blocks disk.new) (D.Disk.writes disk.old) (D.Disk.writes disk.new) }
    {
        let update = self.ring.at(round.next);
        let home = update.home;
        disk.write(home, &update.bytes)?;
        self.installing = Some(Round {
            next: round.next + 1,
            ..round
        });
        Ok(Step::wrote(home, self.start))
    }

    // Block 1, which ends a round.
    fn install_start<D: Disk>(&mut self, disk: &mut D, round: Round) -> Result<Step, LogFault>
        requires { Installs self.old round }
        ensures { Stepped (means.install_start (view self.old) round (D.Disk.blocks disk.old)) result (view self.new) (D.Disk.blocks disk.new) (D.Disk.writes disk.old) (D.Disk.writes disk.new) }
    {
        let start = round.target;
        disk.write(1, &encode_start(start))?;
        self.start = start;
        self.installing = None;
        Ok(Step::wrote(1, start))
    }
}

// The home number of a position, in its slot.
fn put_home(homes: &mut [u32; SLOTS], position: u64, home: u32)
    ensures { homes.new ≡ slice_set homes.old (slot_of position) home }
{
    homes[slot(position)] = home;
}
