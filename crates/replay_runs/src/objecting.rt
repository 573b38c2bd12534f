// What is said of a participant whose tenths object.

ghost use Rattle.std.specs.Prelude.{◌≡◌};
ghost use Rattle.replay_runs.specs.Objecting.{objecting};

use gap::Objections;

// At most one of the two objects, since gains never rise with the level; each is asked for by itself, so they are two
// answers and no enum.
pub(crate) fn objecting(objections: Objections) -> &'static str
    ensures { result.now ≡ objecting objections }
{
    if objections.last {
        " last objects"
    } else if objections.next {
        " next objects"
    } else {
        ""
    }
}
