//! Two equal names among those of several records, found by numbers that are made of the names.
ghost use Rattle.std.specs.Prelude.{◌≡◌, ℕ, ◌/◌, ◌<◌, ◌≤◌, length, get_or, Ok};
ghost use Rattle.refusals.specs.RepeatedNames.{name_at, First, FindsEqual, name_number, Numbered};

use crate::records::Records;
use crate::repeated_names::{Pair, Unsure};
use sheet::label::mix;

// The number of a name.
pub(crate) fn name_number(name: &[u8]) -> u32
    ensures { result ≡ name_number name.now }
{
    mix(name) as u32
}

// The first place at which x stands.
fn place_of(xs: &[u32], x: u32) -> Option<usize>
    ensures { First (λ (i : ℕ). get_or xs.now i 0) x (length xs.now) result }
{
    xs.iter().position(|y| *y == x)
}

// The highest 13 bits of a number.
fn key(x: u32) -> usize
    ensures { (result ≡ x / 524288) × (result < 8192) }
{
    (x >> 19) as usize
}

// Two equal ones of several numbers. The keys of the numbers that were met are marked, so that few are looked for.
fn equal_numbers(xs: &[u32]) -> Option<(usize, usize)>
    ensures { FindsEqual (λ (i : ℕ). get_or xs.now i 0) (length xs.now) (Ok result) }
{
    // A mark for each key.
    let mut marks = [false; 8192];
    for (i, x) in xs.iter().enumerate() {
        let q = key(*x);
        if marks[q]
            && let Some(j) = place_of(&xs[..i], *x)
        {
            return Some((j, i));
        }
        marks[q] = true;
    }
    None
}

impl Records<'_> {
    // Two equal names among those of several records, whose numbers are given; Err where names that differ have one
    // number.
    pub(crate) fn by_number(self, recs: &[u16], numbers: &[u32]) -> Pair
        requires { (length numbers.now ≤ length recs.now) × Numbered self.sheet.now self.n recs.now (length numbers.now) numbers.now }
        ensures { FindsEqual (name_at self.entry.sheet.now self.entry.n recs.now) (length numbers.now) result }
    {
        match equal_numbers(numbers) {
            None => Ok(None),
            Some((a, b)) if self.have_one_name(recs[a], recs[b]) => Ok(Some((a, b))),
            Some(_) => Err(Unsure),
        }
    }
}
