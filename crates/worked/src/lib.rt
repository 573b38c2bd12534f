// The worked examples of the documents, gathered in one list and proved to follow from the
// definitions.
#![tactic(auto)]

ghost use Rattle.std.specs.Prelude.{◌≡◌, length};
ghost use Rattle.worked.specs.Examples.{examples, AllHold};

// The number of worked examples, all of which hold.
pub fn worked_examples() -> usize
    ensures value { result ≡ length examples }
    ensures hold { AllHold examples }
{
    10
}
