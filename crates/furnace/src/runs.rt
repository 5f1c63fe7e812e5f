// Runs of the logger or of the installer: steps until they have come far enough.
ghost use Rattle.std.specs.Prelude.{◌≤◌, IfOk};

use crate::trouble::Trouble;
use disk::Disk;
use journal::{Journal, Step};
use law::step_bound;
use model::Fault;

// How many steps a run took, and the position that it came to.
#[derive(Clone, Copy)]
pub struct Run {
    pub steps: u32,
    pub position: u64,
}

// Takes steps until all below this position is done. The crash law bounds how many.
pub fn run_until<D: Disk, F: FnMut(&mut Journal<D>) -> Result<Step, Fault>>(
    journal: &mut Journal<D>,
    mut take_step: F,
    position: u64,
) -> Result<Run, Trouble>
    requires { F.IsAlwaysCallable take_step }
    ensures { IfOk result (λ run. position ≤ run.position) }
{
    for steps in 1..=step_bound() {
        let step = take_step(journal)?;
        if step.position >= position {
            return Ok(Run {
                steps,
                position: step.position,
            });
        }
    }
    Err(Trouble::Unfinished)
}
