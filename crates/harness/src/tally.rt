//! Counting what a program runs and comparing it with what is expected.
ghost use Rattle.std.specs.Prelude.{◌≡◌, ◌+◌, ◌^◌, ◌<◌, ◌≤◌, None, Some};
ghost use Rattle.harness.specs.Tally.{wrong_in, first_kept, summary};

use std::fmt;

/// What was run, by a noun that is printed, how much of it went wrong, and the first of that with how many were run
/// before it.
#[derive(Drop)]
pub struct Tally<W> {
    pub noun: &'static str,
    pub runs: u64,
    pub wrong: u64,
    pub first: Option<(u64, W)>,
    ghost part: { wrong ≤ runs },
}

impl<W: Copy> Tally<W> {
    /// Nothing was run.
    pub fn new(noun: &'static str) -> Tally<W>
        ensures noun { result.noun.now ≡ noun.now }
        ensures runs { result.runs ≡ 0 }
        ensures wrong { result.wrong ≡ 0 }
        ensures first { result.first ≡ None }
    {
        Tally {
            noun,
            runs: 0,
            wrong: 0,
            first: None,
        }
    }

    /// One more, with what is to be told of it where it went wrong. Only the first of those is kept.
    pub fn count(&mut self, wrong: Option<W>)
        requires { self.old.runs + 1 < 2 ^ 64 }
        ensures noun { self.new.noun.now ≡ self.old.noun.now }
        ensures runs { self.new.runs ≡ self.old.runs + 1 }
        ensures wrong { self.new.wrong ≡ self.old.wrong + wrong_in wrong }
        ensures first { self.new.first ≡ first_kept self.old.first self.old.runs wrong }
    {
        let at = self.runs;
        self.runs += 1;
        if let Some(told) = wrong {
            self.wrong += 1;
            self.first = self.first.or(Some((at, told)));
        }
    }
}

// How many were run and how many of them went right and wrong.
impl<W> fmt::Display for Tally<W> {
    ghost output = { λ t. Some (summary t.noun.now t.runs t.wrong) };

    fn fmt<F: fmt::Write>(&self, f: &mut fmt::Formatter<F>) -> fmt::Result {
        let right = self.runs - self.wrong;
        write!(
            f,
            "{} {}: {right} as expected, {} not",
            self.runs, self.noun, self.wrong
        )
    }
}
