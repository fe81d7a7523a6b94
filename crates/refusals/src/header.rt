//! The header of a sheet and the kinds of its records: refusals 1 and 2.
ghost use Rattle.std.specs.Prelude.{◌≡◌, true, false, not, ◌+◌, ◌*◌, ◌-◌, ◌<◌, ◌≤◌, length, get_or, take, drop, MatchOption};
ghost use Rattle.sheet.specs.Head.{head_at};
ghost use Rattle.sheet.specs.Kind.{is_kind};
ghost use Rattle.sheet.specs.Holds.{Plain};
ghost use Rattle.sheet.specs.Refusals.{all_zero, any_from, torn};
ghost use Rattle.refusals.specs.Framed.{FramedBy};

use crate::records::Records;
use sheet::kind::is_kind;
use sheet::limits::{MOST_LABEL_BYTES, MOST_RECORDS, RECORD_BYTES};
use sheet::record::{quad_at, word_at};

// Whether the bytes of a header behind n and m are zero.
fn is_rest_zero(s: &[u8]) -> bool
    requires { RECORD_BYTES ≤ length s.now }
    ensures { result ≡ all_zero (take 12 (drop 4 s.now)) }
{
    quad_at(s, 4) + quad_at(s, 8) + quad_at(s, 12) == 0
}

// Whether a sheet is torn: refusal 1. A wrong length is met most, and `|` keeps the compiler from putting the other
// tests before it.
fn is_torn(s: &[u8]) -> bool
    ensures { result ≡ torn s.now }
{
    if s.len() < RECORD_BYTES {
        return true;
    }
    let n = word_at(s, 0);
    let m = word_at(s, 2);
    if s.len() != RECORD_BYTES * n + m {
        return true;
    }
    (n < 1) | (MOST_RECORDS < n) | (MOST_LABEL_BYTES < m) | !is_rest_zero(s)
}

/// A sheet that is not torn, with the n and m of its header: they are within their limits, and its length is theirs.
#[derive(Clone, Copy)]
pub struct Framed<'a> {
    /// The bytes of the sheet.
    pub sheet: &'a [u8],
    /// How many records the sheet has, its header included.
    pub n: usize,
    /// How many label bytes it has.
    pub m: usize,
    ghost bytes: { Plain sheet.now },
    ghost framed: { FramedBy sheet.now n m },
}

impl<'a> Framed<'a> {
    /// A sheet as one that is not torn; None where it is, which is refusal 1.
    pub fn of(sheet: &'a [u8]) -> Option<Framed<'a>>
        ensures { MatchOption result (torn sheet.now ≡ true) (λ f. f.sheet.now ≡ sheet.now) }
    {
        if is_torn(sheet) {
            return None;
        }
        Some(Framed::read(sheet))
    }

    /// The same of a sheet that is known not to be torn: its header is read, and nothing is tested.
    pub fn read(sheet: &'a [u8]) -> Framed<'a>
        requires { torn sheet.now ≡ false }
        ensures { result.sheet.now ≡ sheet.now }
    {
        Framed {
            sheet,
            n: word_at(sheet, 0),
            m: word_at(sheet, 2),
        }
    }
}

// Whether four records have kinds of 1 to 38, of which the first begins at byte i.
fn are_kinds(s: &[u8], i: usize) -> bool
    requires { i + 48 < length s.now }
    ensures { result ≡ true → (is_kind (get_or s.now i 0) ≡ true) × ((is_kind (get_or s.now (i + 16) 0) ≡ true) × ((is_kind (get_or s.now (i + 32) 0) ≡ true) × (is_kind (get_or s.now (i + 48) 0) ≡ true))) }
{
    is_kind(s[i]) && is_kind(s[i + 16]) && is_kind(s[i + 32]) && is_kind(s[i + 48])
}

impl Records<'_> {
    // Whether a record from r on has a kind outside 1 to 38.
    fn odd_kind_from(&self, r: usize) -> bool
        ensures { result ≡ any_from (λ r. not (is_kind (head_at self.now.sheet.now r).kind)) r (self.now.n - r) }
    {
        for q in r..self.n {
            if !is_kind(self.sheet[RECORD_BYTES * q]) {
                return true;
            }
        }
        false
    }

    // Whether a record has a kind outside 1 to 38. Eight are tested at a time, as most sheets have none.
    pub(crate) fn odd_kind(&self) -> bool
        ensures { result ≡ any_from (λ r. not (is_kind (head_at self.now.sheet.now r).kind)) 1 (self.now.n - 1) }
    {
        let mut r = 1;
        while r + 7 < self.n
            && are_kinds(self.sheet, RECORD_BYTES * r)
            && are_kinds(self.sheet, RECORD_BYTES * (r + 4))
        {
            r += 8;
        }
        self.odd_kind_from(r)
    }
}
