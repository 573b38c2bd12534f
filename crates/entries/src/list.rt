// Lists of entries in tables of fixed size, one entry for each word that is left.

ghost use Rattle.std.specs.Prelude.{◌≡◌, ℕ, ◌+◌, ◌<◌, ◌≤◌, min, List, [], ◌∷◌, ◌++◌, length, take, Ok, Err, ◌⊎◌, IfOk, MatchResult, slice_set};
ghost use Rattle.std.specs.Fn.{FnReturnsAt};
ghost use Rattle.given.specs.Kept.{kept};
ghost use Rattle.words.specs.Next.{left};
ghost use Rattle.entries.specs.Entries.{Counted, Within};

use given::Given;
use words::{Mistake, Words};

// Two loops, since one goes on where there is no room and one ends; a loop for both would be told which by a switch.

// Every entry is counted, and as many are kept as there is room for.
pub(crate) fn read_counted<T: Copy, const N: usize, F: Fn(&str) -> Result<T, Mistake>>(
    words: Words,
    blank: T,
    read: F,
) -> Result<Given<T, N>, Mistake>
    requires { F.IsAlwaysCallable read }
    ensures { MatchResult result (Counted (λ word entry. FnReturnsAt F.Fn read word (Ok entry)) (left words.entry)) (λ m. (word : List ℕ) × FnReturnsAt F.Fn read word (Err m)) }
{
    let mut list = Given::new(blank);
    for word in words {
        list.push(read(word)?);
    }
    Ok(list)
}

// The first entry for which there is no room is a mistake.
pub(crate) fn read_within<T: Copy, const N: usize, F: Fn(&str) -> Result<T, Mistake>>(
    words: Words,
    blank: T,
    read: F,
    over: Mistake,
) -> Result<Given<T, N>, Mistake>
    requires { F.IsAlwaysCallable read }
    ensures { MatchResult result (Within (λ word entry. FnReturnsAt F.Fn read word (Ok entry)) (left words.entry)) (λ m. ((word : List ℕ) × FnReturnsAt F.Fn read word (Err m)) ⊎ (m ≡ over)) }
{
    let mut list = Given::new(blank);
    for word in words {
        add(&mut list, read(word)?, over)?;
    }
    Ok(list)
}

// One entry more, if there is room for it.
fn add<T: Copy, const N: usize>(
    list: &mut Given<T, N>,
    entry: T,
    over: Mistake,
) -> Result<(), Mistake>
    ensures count { MatchResult result (λ _. list.new.count ≡ list.old.count + 1) (λ m. (m ≡ over) × (N ≤ list.old.count)) }
    ensures room { IfOk result (λ _. (list.old.count < N) × (kept list.new.count list.new.items ≡ kept list.old.count list.old.items ++ entry ∷ [])) }
    ensures kept { MatchResult result (λ _. list.new.items ≡ slice_set list.old.items list.old.count entry) (λ _. list.new.items ≡ list.old.items) }
{
    if list.count >= N {
        return Err(over);
    }
    list.push(entry);
    Ok(())
}
