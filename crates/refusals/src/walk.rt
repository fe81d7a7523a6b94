//! The walk over the records of a sheet, which finds what refusals 3, 4 and 5 are about. What it has found so far is
//! one number, made by `pass`, which stays in a register.
ghost use Rattle.std.specs.Prelude.{◌≡◌, ◌+◌, ◌*◌, ◌-◌, ◌<◌, ◌≤◌, true};
ghost use Rattle.refusals.specs.Walk.{WalkReady, Walks};
ghost use Rattle.refusals.specs.Found.{outset};
ghost use Rattle.refusals.specs.Packed.{progress_of, usual_decimal, plain, PlainAt, Row, WalkTells};

use crate::Progress;
use crate::pass::pass_record;
use crate::records::Records;
use sheet::caps::Width;
use sheet::figure::parts_right;
use sheet::kind::{self, is_decimal};
use sheet::limits::RECORD_BYTES;
use sheet::record::{head_from, quad_at};

// A walk along a chain: the record that is due behind it, how many records the chain has, and what was found.
#[derive(Clone, Copy)]
struct Walked {
    due: usize,
    count: usize,
    found: usize,
}

// Whether a kind with no flags, a precision and a scale are those of a Decimal128 as it is mostly written.
fn is_usual_decimal(k: usize, p: usize, s: usize) -> bool
    ensures { result ≡ usual_decimal k p s }
{
    k == usize::from(kind::DECIMAL128) && s <= p && 0 < p && p <= Width::CAP128
}

// Whether a record says nothing but a kind that has no parts, at most a usual decimal's figures, and its links, by its
// numbers of 32 bits.
fn is_plain_record(a: usize, b: usize, d: usize) -> bool
    requires { (b < 4294967296) × (d < 4294967296) }
    ensures { result ≡ plain a b d }
{
    if b + d != 0 {
        return false;
    }
    if a < usize::from(kind::LIST) {
        return !is_decimal(a as u8);
    }
    is_usual_decimal(a % 65536, a / 65536 % 256, a / 16777216)
}

impl Records<'_> {
    // Whether record r is such a record, and its links are the number given.
    fn is_plain_at(&self, r: usize, links: usize) -> bool
        requires { r < self.now.n }
        ensures { result ≡ true → PlainAt self.now.sheet.now r links }
    {
        let i = RECORD_BYTES * r;
        quad_at(self.sheet, i + 8) == links
            && is_plain_record(
                quad_at(self.sheet, i),
                quad_at(self.sheet, i + 4),
                quad_at(self.sheet, i + 12),
            )
    }

    // Follows the chain that begins at record r through plain records, each of which leads to the following one, and
    // gives the record at which it stopped.
    fn plain_row(&self, r: usize) -> usize
        requires { r ≤ self.now.n }
        ensures { Row self.now.sheet.now self.now.n r result result }
    {
        for q in r..self.n {
            if !self.is_plain_at(q, 65536 * (q + 1)) {
                return q;
            }
        }
        self.n
    }

    // Walks the chain that a link leads to, in a record of kind up, by such a row as far as it goes. None where a link
    // leads elsewhere or a number of parts is wrong.
    #[cycle(walk_chain_walk_records)]
    #[inline(always)]
    fn walk_chain(&self, up: u8, link: usize, due: usize, found: usize) -> Option<Walked>
        requires { WalkReady self.now.n (progress_of due found) 0 × ((found < 17179869184) × (0 < link)) }
        ensures { WalkTells self.now.sheet.now self.now.n up link (progress_of due found) 0 result }
    {
        if link != due {
            return None;
        }
        let last = self.plain_row(due);
        if last < self.n && self.is_plain_at(last, 0) {
            return Some(Walked {
                due: last + 1,
                count: last + 1 - due,
                found,
            });
        }
        self.walk_records(up, last, found, last - due)
    }

    // Walks the chain from the record that is due, of which k records are passed. Parts are walked by a call, the
    // chain by the loop.
    #[cycle(walk_chain_walk_records)]
    fn walk_records(&self, up: u8, due: usize, found: usize, k: usize) -> Option<Walked>
        requires { WalkReady self.now.n (progress_of due found) k × (found < 17179869184) }
        ensures { WalkTells self.now.sheet.now self.now.n up due (progress_of due found) k result }
    {
        // Read once: the loop runs for each record.
        let Records { sheet, n } = *self;
        let mut link = due;
        let mut due = due;
        let mut found = found;
        let mut k = k;
        while link != 0 {
            if link != due || n <= due {
                return None;
            }
            let i = RECORD_BYTES * due;
            found = pass_record(sheet, i, up, found);
            let h = head_from(sheet, i);
            due += 1;
            k += 1;
            link = h.next;
            if h.first == 0 {
                if parts_right(h.kind, 0) {
                    continue;
                }
                return None;
            }
            let inner = self.walk_chain(h.kind, h.first, due, found)?;
            if !parts_right(h.kind, inner.count) {
                return None;
            }
            due = inner.due;
            found = inner.found;
        }
        Some(Walked {
            due,
            count: k,
            found,
        })
    }

    // Walks the chain of the listed types.
    fn walk_types(&self, link: usize) -> Option<Walked>
        requires { WalkReady self.now.n outset 0 }
        ensures { WalkTells self.now.sheet.now self.now.n 0 link outset 0 result }
    {
        if link == 0 {
            return Some(Walked {
                due: 1,
                count: 0,
                found: 0,
            });
        }
        self.walk_chain(0, link, 1, 0)
    }

    // Walks all records of a sheet.
    pub(crate) fn walk_all(&self, link: usize) -> Option<(Progress, usize)>
        requires { WalkReady self.now.n outset 0 }
        ensures { Walks self.now.sheet.now self.now.n 0 link outset 0 result }
    {
        let w = self.walk_types(link)?;
        let p = Progress {
            due: w.due,
            at: w.found % 4294967296,
            figure: w.found / 4294967296 % 2 == 1,
            label: w.found / 8589934592 % 2 == 1,
        };
        Some((p, w.count))
    }
}
