// Examples worked out by computing, as theorems about the journal's definitions. Each function says how many equations its theorem has.
#![tactic(auto)]

ghost use Rattle.std.specs.Prelude.{◌≡◌};
ghost use Rattle.worked.specs.Examples.{WorkedExamples};
ghost use Rattle.worked.specs.More.{MoreExamples};

// Both theorems, once for all.
fn hold()
    ensures worked { WorkedExamples }
    ensures more { MoreExamples }
{}

// The card's layout, which objects are allowed, a run of three operations with cuts in it, and the log's limits.
pub fn worked_examples() -> u32
    ensures count { result ≡ 17 }
    ensures shown { WorkedExamples }
{
    hold();
    17
}

// Each refusal on both sides of its line and against the next, what operations see of each other, and how rounds go.
pub fn more_examples() -> u32
    ensures count { result ≡ 31 }
    ensures shown { MoreExamples }
{
    hold();
    31
}
