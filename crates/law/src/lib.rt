// What holds of every run of a journal, and its proof.
#![tactic(auto)]

ghost use Rattle.std.specs.Prelude.{◌≡◌};
ghost use Rattle.law.specs.Law.{bound as bound_of_steps, CrashLaw};

// The crash law, once for all.
fn hold()
    ensures crash { CrashLaw }
{}

// Within how many logger steps a flushed position is durable, and within how many installer steps more its slots are free.
pub fn step_bound() -> u32
    ensures count { result ≡ bound_of_steps }
    ensures crash { CrashLaw }
{
    hold();
    2 * (card::SLOTS as u32 + 1)
}
