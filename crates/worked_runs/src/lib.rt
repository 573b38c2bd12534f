// The worked runs of the documents, gathered in one list and proved to follow from the
// definitions. They are a list of their own beside the first worked examples, since the law of runs stands on what those are
// about.
#![tactic(auto)]

ghost use Rattle.std.specs.Prelude.{◌≡◌, length};
ghost use Rattle.worked_runs.specs.Examples.{examples, AllHold};

// The number of worked runs, all of which hold.
pub fn worked_examples() -> usize
    ensures value { result ≡ length examples }
    ensures hold { AllHold examples }
{
    6
}
