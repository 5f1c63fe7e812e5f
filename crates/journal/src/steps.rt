// Flush, and the steps of logger and installer.
ghost use Rattle.std.specs.Prelude.{◌≡◌};
ghost use Rattle.model.specs.Outcomes.{writes_after};
ghost use Rattle.model.specs.Calls.{outcome, flushes, logs, installs};
ghost use Rattle.journal.specs.View.{view, stepped_to, stepped_on};

use crate::Journal;
use disk::Disk;
use journal_log::Step;
use model::Fault;

impl<D: Disk> Journal<D> {
    // Settles all that is committed, so that the logger makes it durable, and answers the position up to which that is.
    pub fn flush(&mut self) -> Result<u64, Fault>
        ensures answer { result ≡ (outcome flushes (view self.old) (D.Disk.blocks self.old.disk)).answer }
        ensures state { view self.new ≡ (outcome flushes (view self.old) (D.Disk.blocks self.old.disk)).state }
        ensures disk { self.new.disk ≡ self.old.disk }
    {
        let open = self.state.as_mut().ok_or(Fault::Shut)?;
        Ok(open.log.flush())
    }

    // One step of the logger: it writes one block at most, and answers which, and the end position after it.
    pub fn log_step(&mut self) -> Result<Step, Fault>
        ensures answer { stepped_to result ≡ (outcome logs (view self.old) (D.Disk.blocks self.old.disk)).answer }
        ensures wrote { stepped_on result ≡ (outcome logs (view self.old) (D.Disk.blocks self.old.disk)).wrote }
        ensures state { view self.new ≡ (outcome logs (view self.old) (D.Disk.blocks self.old.disk)).state }
        ensures blocks { D.Disk.blocks self.new.disk ≡ (outcome logs (view self.old) (D.Disk.blocks self.old.disk)).disk }
        ensures writes { D.Disk.writes self.new.disk ≡ writes_after (outcome logs (view self.old) (D.Disk.blocks self.old.disk)) (D.Disk.writes self.old.disk) }
    {
        let open = self.state.as_mut().ok_or(Fault::Shut)?;
        Ok(open.log.log_step(&mut self.disk)?)
    }

    // One step of the installer: it writes one block at most, and answers which, and the start position after it.
    pub fn install_step(&mut self) -> Result<Step, Fault>
        ensures answer { stepped_to result ≡ (outcome installs (view self.old) (D.Disk.blocks self.old.disk)).answer }
        ensures wrote { stepped_on result ≡ (outcome installs (view self.old) (D.Disk.blocks self.old.disk)).wrote }
        ensures state { view self.new ≡ (outcome installs (view self.old) (D.Disk.blocks self.old.disk)).state }
        ensures blocks { D.Disk.blocks self.new.disk ≡ (outcome installs (view self.old) (D.Disk.blocks self.old.disk)).disk }
        ensures writes { D.Disk.writes self.new.disk ≡ writes_after (outcome installs (view self.old) (D.Disk.blocks self.old.disk)) (D.Disk.writes self.old.disk) }
    {
        let open = self.state.as_mut().ok_or(Fault::Shut)?;
        Ok(open.log.install_step(&mut self.disk)?)
    }
}
