//! What feeds the fields of a chain by their names, and how many they are.

ghost use Rattle.std.specs.Prelude.{◌≡◌, not, ℕ, ◌≤◌, length, eqb};
ghost use Rattle.sheet.specs.Types.{Fields, arity};
ghost use Rattle.buffers.specs.Writes.{side};
ghost use Rattle.buffers.specs.Region.{Held};
ghost use Rattle.buffers.specs.Typed.{Chain};
ghost use Rattle.partners.specs.Partners.{Partners};
ghost use Rattle.buffers.specs.declared.Space.{Space};
ghost use Rattle.partners.specs.Naming.{Indexed, Matched, Walked, StructsFed};

use crate::index::Index;
use crate::order::are_found_in_order;
use crate::search::{are_known, find, is_field_named};
use crate::table::{key_of, note};
use crate::{Feed, Sources};
use buffers::sides::Sides;
use sheet::label::label_at;
use sheet::record::head_at;

// Whether each name of the chain at a link of s is one of the chain at a link of t, of which there
// is an index. Those that are found are noted in a table, from a key on. Where a row of the index
// is long, the rest are looked for in order.
fn are_listed(
    from: &Sources,
    floor: usize,
    l: usize,
    r: usize,
    index: &Index,
    key: usize,
    table: &mut [u32],
) -> bool
    requires { ((from.now.n ≤ 1024) × (key ≤ 1024)) × Indexed from.now.n from.now.t.now r index.now.heads index.now.olds }
    ensures { Matched from.now.n from.now.s.now from.now.t.now floor l r key table.old table.new result }
{
    let Sources { s, t, n } = *from;
    let mut low = floor;
    let mut i = l;
    while low < i {
        if n <= i {
            return false;
        }
        let g = head_at(s, i);
        let Some(j) = index.look_up(t, n, label_at(s, n, g.name, g.name_len), r) else {
            return are_found_in_order(from, low, i, r, key, table);
        };
        if j == 0 {
            return false;
        }
        note(table, key + i, r, j);
        low = i;
        i = g.next;
    }
    true
}

// The same without an index at hand.
fn are_indexed(
    from: &Sources,
    floor: usize,
    l: usize,
    r: usize,
    key: usize,
    table: &mut [u32],
) -> bool
    requires { (from.now.n ≤ 1024) × (key ≤ 1024) }
    ensures { Matched from.now.n from.now.s.now from.now.t.now floor l r key table.old table.new result }
{
    are_listed(from, floor, l, r, &Index::of(from.t, from.n, r), key, table)
}

// The same by a search for each name. From the fifth name on an index is made.
fn are_searched(
    from: &Sources,
    floor: usize,
    l: usize,
    r: usize,
    key: usize,
    table: &mut [u32],
) -> bool
    requires { (from.now.n ≤ 1024) × (key ≤ 1024) }
    ensures { Matched from.now.n from.now.s.now from.now.t.now floor l r key table.old table.new result }
{
    let Sources { s, t, n } = *from;
    let mut low = floor;
    let mut i = l;
    let mut k = 0usize;
    while low < i {
        if n <= i {
            return false;
        }
        if k == 4 {
            return are_indexed(from, low, i, r, key, table);
        }
        let g = head_at(s, i);
        let j = find(t, n, label_at(s, n, g.name, g.name_len), r);
        if j == 0 {
            return false;
        }
        note(table, key + i, r, j);
        low = i;
        i = g.next;
        k += 1;
    }
    true
}

// What feeds the fields of the chain at a link of s: those at their places in the chain at a link
// of t where the names stand in one order, by_name where they are the same in another. Names that
// stand in order are noted on the way, and the search goes on from the first that does not.
fn feed_along(
    from: &Sources,
    known: Option<usize>,
    by_name: Feed,
    floor: usize,
    l: usize,
    r: usize,
    key: usize,
    table: &mut [u32],
) -> Option<Feed>
    requires { (from.now.n ≤ 1024) × (key ≤ 1024) }
    ensures { Walked from.now.n from.now.s.now from.now.t.now known by_name floor l r key table.old table.new result }
{
    let Sources { s, t, n } = *from;
    let mut low = floor;
    let mut i = l;
    let mut j = r;
    while low < i {
        if n <= i {
            return None;
        }
        let g = head_at(s, i);
        let h = head_at(t, j);
        if !are_known(known, i, j) {
            if !is_field_named(t, n, j, h, label_at(s, n, g.name, g.name_len)) {
                return are_searched(from, low, i, r, key, table).then_some(by_name);
            }
            note(table, key + i, r, j);
        }
        low = i;
        i = g.next;
        j = h.next;
    }
    Some(Feed::Place)
}

/// What feeds the fields of the chain at `l` of the left from the chain at `r` of the right:
/// `Feed::Place` where the names stand in one order, `by_name` where they are the same in another,
/// and none where a name of the left is missing. Where `known` says at which record the two chains
/// differ, the names before it are not compared. Partners whose names were compared are noted in
/// the table.
pub fn struct_feed(
    sides: &Sides,
    work: &[u8],
    known: Option<usize>,
    by_name: Feed,
    floor: usize,
    l: usize,
    r: usize,
    table: &mut [u32],
) -> Option<Feed>
    requires { sides.now.space.n ≤ 1024 }
    ensures fed { StructsFed known by_name sides.now.space (side sides.now.swap sides.now.sheet.now work.now) (side (not sides.now.swap) sides.now.sheet.now work.now) floor l r result }
    ensures table_stays { (length table.new ≡ length table.old) × (Partners sides.now.space sides.now.sheet.now work.now table.old → Partners sides.now.space sides.now.sheet.now work.now table.new) }
{
    let (s, t) = sides.slices(work);
    let n = sides.space.n;
    let from = Sources { s, t, n };
    let key = key_of(sides.swap, 0);
    feed_along(&from, known, by_name, floor, l, r, key, table)
}

// Whether the chains at a link of s and at one of t have as many fields.
fn are_as_many(from: &Sources, floor: usize, l: usize, r: usize) -> bool
    ensures { (space : Space) → from.now.n ≡ space.n → (a o up : ℕ) (lf rf : Fields) → Held space from.now.s.now floor l a o up lf → Chain space from.now.t.now r rf → result ≡ eqb (arity lf) (arity rf) }
{
    let Sources { s, t, n } = *from;
    let mut low = floor;
    let mut i = l;
    let mut j = r;
    while low < i {
        if n <= i {
            return false;
        }
        if j == 0 {
            return false;
        }
        low = i;
        i = head_at(s, i).next;
        j = head_at(t, j).next;
    }
    j == 0
}

/// Whether the chains at two links have as many fields.
pub fn same_arity(sides: &Sides, work: &[u8], floor: usize, l: usize, r: usize) -> bool
    ensures { (a o up : ℕ) (lf rf : Fields) → Held sides.now.space (side sides.now.swap sides.now.sheet.now work.now) floor l a o up lf → Chain sides.now.space (side (not sides.now.swap) sides.now.sheet.now work.now) r rf → result ≡ eqb (arity lf) (arity rf) }
{
    let (s, t) = sides.slices(work);
    let n = sides.space.n;
    are_as_many(&Sources { s, t, n }, floor, l, r)
}
