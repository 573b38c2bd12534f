// The words of a line, taken one after another.

ghost use Rattle.std.specs.Prelude.{◌≡◌, length, MatchOption, MatchResult};
ghost use Rattle.std.specs.Iterator.{at_most};
ghost use Rattle.std.specs.Str.Iter.{split_whitespace_rest};
ghost use Rattle.words.specs.Next.{left, Said, Next, Spent, More};
ghost use Rattle.words.specs.declared.mistake.Mistake.TheVariants.{MissingWord, ExtraWord};

use crate::mistake::Mistake;
use std::str::SplitWhitespace;

#[derive(Drop)]
pub struct Words<'a> {
    rest: SplitWhitespace<'a>,
}

impl<'a> Words<'a> {
    // The words before the comment, which `#` opens.
    pub fn of(line: &'a str) -> Words<'a>
        ensures { Said line.now (left result) }
    {
        Words {
            rest: before_comment(line).split_whitespace(),
        }
    }

    // The next word, which has to be there.
    pub fn word(&mut self) -> Result<&'a str, Mistake>
        ensures { MatchResult result (λ w. Next (left self.old) w.now (left self.new)) (λ m. (m ≡ MissingWord) × Spent (left self.old)) }
    {
        self.next().ok_or(Mistake::MissingWord)
    }

    // No word is left.
    pub fn end(mut self) -> Result<(), Mistake>
        ensures { MatchResult result (λ _. Spent (left self.entry)) (λ m. (m ≡ ExtraWord) × More (left self.entry)) }
    {
        match self.next() {
            Some(_) => Err(Mistake::ExtraWord),
            None => Ok(()),
        }
    }

    // All words that are left.
    pub fn rest(self) -> SplitWhitespace<'a>
        ensures { split_whitespace_rest result ≡ left self.entry }
    {
        let Words { rest } = self;
        rest
    }
}

impl<'a> Iterator for Words<'a> {
    type Item = &'a str;

    ghost next_gives = { λ words word rest. MatchOption word (Spent (left words)) (λ w. Next (left words) w.now (left rest)) };

    ghost remaining = { λ words. at_most (length (left words)) };

    // The next word, if there is one.
    fn next(&mut self) -> Option<&'a str> {
        self.rest.next()
    }
}

fn before_comment(line: &str) -> &str
    ensures { Said line.now result.now }
{
    match line.split_once('#') {
        Some((before, _)) => before,
        None => line,
    }
}
