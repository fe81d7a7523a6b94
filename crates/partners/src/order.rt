//! The search for the names of a chain in another by an order of the names, for names that are
//! made to fall into one row of an index.

ghost use Rattle.std.specs.Prelude.{◌≡◌, ◌<◌, ◌≤◌, length};
ghost use Rattle.partners.specs.Naming.{Finds, Lists, Matched, name_of};

use crate::Sources;
use crate::search::find;
use crate::table::note;
use sheet::label::label_at;
use sheet::record::head_at;

// The name of record j.
fn name_of(t: &[u8], n: usize, j: u16) -> &[u8]
    requires { n ≤ 1024 }
    ensures { result.now ≡ name_of t.now n j }
{
    let h = head_at(t, usize::from(j));
    label_at(t, n, h.name, h.name_len)
}

// Lists the records of the chain at a link, and says how many they are. Each is past the one before
// it and below 1,024, so that there is room for all.
fn list(t: &[u8], n: usize, link: usize, recs: &mut [u16; 1024]) -> usize
    requires { (n ≤ 1024) × Lists n t.now link recs.old }
    ensures { (result ≤ 1024) × Lists n t.now link recs.new }
{
    let mut floor = 0;
    let mut j = link;
    let mut k = 0;
    while floor < j {
        if n <= j {
            return k;
        }
        recs[k] = j as u16;
        k += 1;
        floor = j;
        j = head_at(t, j).next;
    }
    k
}

// A field of the chain at r that has a name; 0 where there is none. It is looked for by halving
// among records of that chain, where 0 is none, and what these do not have in the whole chain.
fn look_up(t: &[u8], n: usize, want: &[u8], r: usize, recs: &[u16]) -> usize
    requires { ((n ≤ 1024) × (length want.now ≤ 255)) × Lists n t.now r recs.now }
    ensures { (result < 1024) × Finds n t.now want.now r result }
{
    match recs.binary_search_by(|j| name_of(t, n, *j).cmp(want)) {
        Ok(k) if 0 < recs[k] => usize::from(recs[k]),
        _ => find(t, n, want, r),
    }
}

// Whether each name of the chain at a link of s is one of the chain at r of t, of which records are
// at hand in the order of their names.
fn are_among(
    from: &Sources,
    floor: usize,
    l: usize,
    r: usize,
    recs: &[u16],
    key: usize,
    table: &mut [u32],
) -> bool
    requires { ((from.now.n ≤ 1024) × (key ≤ 1024)) × Lists from.now.n from.now.t.now r recs.now }
    ensures { Matched from.now.n from.now.s.now from.now.t.now floor l r key table.old table.new result }
{
    let Sources { s, t, n } = *from;
    let mut low = floor;
    let mut i = l;
    while low < i {
        if n <= i {
            return false;
        }
        let g = head_at(s, i);
        let j = look_up(t, n, label_at(s, n, g.name, g.name_len), r, recs);
        if j == 0 {
            return false;
        }
        note(table, key + i, r, j);
        low = i;
        i = g.next;
    }
    true
}

/// The same, where they are put in order first. It is not inlined: its array is for names that are
/// made to be hard, and lies in no other frame.
#[inline(never)]
pub(crate) fn are_found_in_order(
    from: &Sources,
    floor: usize,
    l: usize,
    r: usize,
    key: usize,
    table: &mut [u32],
) -> bool
    requires { (from.now.n ≤ 1024) × (key ≤ 1024) }
    ensures { Matched from.now.n from.now.s.now from.now.t.now floor l r key table.old table.new result }
{
    let Sources { s, t, n } = *from;
    let mut recs = [0u16; 1024];
    let k = list(t, n, r, &mut recs);
    let recs = &mut recs[..k];
    recs.sort_unstable_by(|a, b| name_of(t, n, *a).cmp(name_of(t, n, *b)));
    are_among(from, floor, l, r, recs, key, table)
}
