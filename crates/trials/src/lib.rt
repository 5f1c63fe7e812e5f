// A disk of one's own, and trials of the journal: what its calls do on examples.
#![tactic(auto)]

ghost use Rattle.std.specs.Prelude.{◌≡◌, length, Some, None};
ghost use Rattle.disk.specs.Tests.{unless};
ghost use Rattle.disk.specs.Meaning.{refusal, answered, written, counted};

#[cfg(test)]
mod tests;

use disk::{Disk, DiskFault};

// A disk that remembers the blocks of the last two writes that it granted.
#[derive(Drop)]
pub struct Traced<D: Disk> {
    disk: D,
    before: Option<u32>,
    latest: Option<u32>,
}

impl<D: Disk> Traced<D> {
    // This disk, with no write to remember.
    pub fn new(disk: D) -> Traced<D>
        ensures { result ≡ record { disk = disk; before = None; latest = None } }
    {
        Traced {
            disk,
            before: None,
            latest: None,
        }
    }

    // The blocks of the last write but one and of the last write.
    pub fn last_two(&self) -> (Option<u32>, Option<u32>)
        ensures { result ≡ (self.now.before, self.now.latest) }
    {
        (self.before, self.latest)
    }

    // The disk below, handed back.
    pub fn into_disk(self) -> D
        ensures { result ≡ self.disk }
    {
        let Traced {
            disk,
            before: _,
            latest: _,
        } = self;
        disk
    }
}

impl<D: Disk> Disk for Traced<D> {
    ghost blocks = { λ s. D.Disk.blocks s.disk };

    ghost writes = { λ s. D.Disk.writes s.disk };

    fn count(&self) -> u32 {
        self.disk.count()
    }

    fn read(&self, block: u32, buf: &mut [u8]) -> Result<(), DiskFault> {
        self.disk.read(block, buf)
    }

    fn write(&mut self, block: u32, buf: &[u8]) -> Result<(), DiskFault>
        ensures answer { result ≡ answered (refusal (D.Disk.blocks self.old.disk) block (length buf.now)) }
        ensures blocks { D.Disk.blocks self.new.disk ≡ written (D.Disk.blocks self.old.disk) block buf.now }
        ensures writes { D.Disk.writes self.new.disk ≡ counted (D.Disk.blocks self.old.disk) block (length buf.now) (D.Disk.writes self.old.disk) }
        ensures latest { self.new.latest ≡ unless (refusal (D.Disk.blocks self.old.disk) block (length buf.now)) (Some block) self.old.latest }
        ensures before { self.new.before ≡ unless (refusal (D.Disk.blocks self.old.disk) block (length buf.now)) self.old.latest self.old.before }
    {
        self.disk.write(block, buf)?;
        self.before = self.latest;
        self.latest = Some(block);
        Ok(())
    }
}
