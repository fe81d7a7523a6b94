//! Filling lent spaces before a call, and what a call leaves in them.
ghost use Rattle.std.specs.Prelude.{◌≡◌, ◌+◌, ◌^◌, ◌<◌, ◌≤◌, length};
ghost use Rattle.sheet.specs.Refusals.{all_zero};
ghost use Rattle.replay.specs.Spaces.{mark_at, marks, is_marked, is_answered, is_cleared, cleared_bytes};

use crate::stored::Reply;

// What the byte at i is filled with: never zero, and not the same everywhere.
fn mark(i: usize) -> u8
    ensures { result ≡ mark_at i }
{
    (i % 251) as u8 + 5
}

/// Fills a space with marks, from the first byte on.
pub fn fill(place: &mut [u8])
    ensures { place.new ≡ marks 0 (length place.old) }
{
    for (i, byte) in place.iter_mut().enumerate() {
        *byte = mark(i);
    }
}

// Whether the rest of a space, from the byte at `from` on, is still as it was filled.
fn is_filled(rest: &[u8], from: usize) -> bool
    requires { from + length rest.now < 2 ^ 64 }
    ensures { result ≡ is_marked from rest.now }
{
    rest.iter()
        .enumerate()
        .all(|(i, byte)| *byte == mark(from + i))
}

fn is_zero(place: &[u8]) -> bool
    ensures { result ≡ all_zero place.now }
{
    place.iter().all(|byte| *byte == 0)
}

/// Whether an output has an answer at its front and is as it was filled behind it.
pub fn is_answered(output: &[u8], answer: &[u8]) -> bool
    ensures { result ≡ is_answered output.now answer.now }
{
    output.starts_with(answer) && is_filled(&output[answer.len()..], answer.len())
}

/// Whether the first n bytes of a work space are zero and the others as they were filled.
pub fn is_cleared(work: &[u8], n: usize) -> bool
    ensures { result ≡ is_cleared work.now n }
{
    n <= work.len() && is_zero(&work[..n]) && is_filled(&work[n..], n)
}

/// How many bytes of work space a call leaves zero: none where it is refused.
pub fn cleared(expected: Reply, sheet: usize) -> usize
    requires { sheet ≤ 20000 }
    ensures { result ≡ cleared_bytes expected.0 sheet }
{
    match expected.0 {
        Ok(_) => 2 * sheet,
        Err(_) => 0,
    }
}
