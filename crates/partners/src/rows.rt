//! The row of each field of the left: what feeds it.

ghost use Rattle.std.specs.Prelude.{◌≡◌, not, ◌≤◌};
ghost use Rattle.sheet.specs.Head.{head_at};
ghost use Rattle.sheet.specs.Read.{label_at};
ghost use Rattle.sheet.specs.Bounds.{Bounded};
ghost use Rattle.buffers.specs.Writes.{side};
ghost use Rattle.partners.specs.Feeds.{RowIs};
ghost use Rattle.partners.specs.Partners.{Partners};
ghost use Rattle.partners.specs.Naming.{Finds, RowPairs, row_of};

use crate::search::{are_known, find};
use crate::table::partner_in;
use crate::{Chains, Feed, Row};
use buffers::sides::Sides;
use sheet::Head;
use sheet::label::label_at;

// The sources of two chains, what is known of their names, and a table of partners.
#[derive(Clone, Copy)]
struct Rows<'a> {
    sides: Sides<'a>,
    work: &'a [u8],
    known: Option<usize>,
    table: &'a [u32],
    ghost few: { sides.space.n ≤ 1024 },
}

// The row of a field whose type and nullability come from one record of the right, or from two.
fn row_of(partner: usize, a: Head, b: Head, next: usize) -> Row
    ensures { result ≡ row_of partner a b next }
{
    Row {
        partner,
        nullable: a.nullable() || b.nullable(),
        next,
    }
}

impl Rows<'_> {
    // The record of the right that has the name of the record of the left whose head is x, in the
    // chain at r; 0 where there is none.
    fn searched(&self, x: Head, r: usize) -> usize
        requires { Bounded x }
        ensures { Finds self.now.sides.space.n (side (not self.now.sides.swap) self.now.sides.sheet.now self.now.work.now) (label_at (side self.now.sides.swap self.now.sides.sheet.now self.now.work.now) self.now.sides.space.n x.name x.name_len) r result }
    {
        let n = self.sides.space.n;
        let (s, t) = self.sides.slices(self.work);
        find(t, n, label_at(s, n, x.name, x.name_len), r)
    }

    // The same of record l, where p is the record at its place. Where it is known or the table says
    // which it is, no name is compared.
    fn partner(&self, x: Head, l: usize, r: usize, p: usize) -> usize
        requires { Bounded x }
        ensures { x ≡ head_at (side self.now.sides.swap self.now.sides.sheet.now self.now.work.now) l → Partners self.now.sides.space self.now.sides.sheet.now self.now.work.now self.now.table.now → RowPairs self.now.known self.now.sides.space (side self.now.sides.swap self.now.sides.sheet.now self.now.work.now) (side (not self.now.sides.swap) self.now.sides.sheet.now self.now.work.now) l r p result }
    {
        if are_known(self.known, l, p) {
            return p;
        }
        let j = partner_in(self.table, self.sides.swap, l, r);
        if 0 < j {
            return j;
        }
        self.searched(x, r)
    }

    // The row of a field that is fed by name.
    fn named_row(&self, x: Head, y: Head, l: usize, r: usize, p: usize) -> Row
        requires { Bounded x }
        ensures { x ≡ head_at (side self.now.sides.swap self.now.sides.sheet.now self.now.work.now) l → y ≡ head_at (side (not self.now.sides.swap) self.now.sides.sheet.now self.now.work.now) p → Partners self.now.sides.space self.now.sides.sheet.now self.now.work.now self.now.table.now → RowIs self.now.known self.now.sides.space self.now.sides.swap self.now.sides.sheet.now self.now.work.now Feed.Name l r p result }
    {
        let j = self.partner(x, l, r, p);
        let h = self.sides.right_head(self.work, j);
        row_of(j, x, h, y.next)
    }

    // The row of a field that takes its type by name and its nullability by place.
    fn named_place(&self, x: Head, y: Head, l: usize, r: usize, p: usize) -> Row
        requires { Bounded x }
        ensures { x ≡ head_at (side self.now.sides.swap self.now.sides.sheet.now self.now.work.now) l → y ≡ head_at (side (not self.now.sides.swap) self.now.sides.sheet.now self.now.work.now) p → Partners self.now.sides.space self.now.sides.sheet.now self.now.work.now self.now.table.now → RowIs self.now.known self.now.sides.space self.now.sides.swap self.now.sides.sheet.now self.now.work.now Feed.NameThenPlace l r p result }
    {
        let next = y.next;
        if p == 0 {
            return row_of(0, x, y, next);
        }
        row_of(self.partner(x, l, r, p), x, y, next)
    }
}

/// What feeds the next field of the left. Where `known` says at which record the chains from there
/// on differ, and it is past the field, it and the field at its place are taken to have the same
/// name. Nothing is said for a table with an entry that is not true (`Partners`).
pub fn row(
    sides: &Sides,
    work: &[u8],
    known: Option<usize>,
    feed: Feed,
    chains: Chains,
    table: &[u32],
) -> Row
    requires { sides.now.space.n ≤ 1024 }
    ensures { Partners sides.now.space sides.now.sheet.now work.now table.now → RowIs known sides.now.space sides.now.swap sides.now.sheet.now work.now feed chains.l chains.r chains.p result }
{
    let Chains { l, r, p } = chains;
    let (x, y) = sides.heads(work, l, p);
    let rows = Rows {
        sides: *sides,
        work,
        known,
        table,
    };
    match feed {
        Feed::Place => row_of(p, x, y, y.next),
        Feed::Own => row_of(p, x, x, y.next),
        Feed::Name => rows.named_row(x, y, l, r, p),
        Feed::NameThenPlace => rows.named_place(x, y, l, r, p),
    }
}
