//! A table of partners: for a record of a side, the record of a chain of the other side that
//! has its name. An entry is one number, 1,048,576 times the number of the record, and 1,024
//! times the link of the chain, and the partner: so a table may be short, where records share a
//! place, and what another left there says nothing.

ghost use Rattle.std.specs.Prelude.{◌≡◌, ◌<◌, get_or};
ghost use Rattle.partners.specs.Partners.{key_of};
ghost use Rattle.partners.specs.Naming.{place_in, partner_in, noted};

/// The number of record `i` of a side.
pub(crate) fn key_of(swap: bool, i: usize) -> usize
    requires { i < 65536 }
    ensures { result ≡ key_of swap i }
{
    if swap { 1024 + i } else { i }
}

// The place of a record's number in a table of a length.
fn place_in(len: usize, k: usize) -> usize
    ensures { result ≡ place_in len k }
{
    if len < 64 {
        k % 8 + 8 * (k / 1024)
    } else if len < 2048 {
        k % 32 + 32 * (k / 1024)
    } else {
        k
    }
}

fn at(table: &[u32], k: usize) -> usize
    ensures { result ≡ get_or table.now k 0 }
{
    table.get(k).map_or(0, |&e| e as usize)
}

/// The partner of record `i` of a side in the chain at `r`, as a table says; 0 where it says
/// nothing of them.
pub(crate) fn partner_in(table: &[u32], swap: bool, i: usize, r: usize) -> usize
    ensures { result ≡ partner_in table.now swap i r }
{
    if 1024 <= i || 1024 <= r {
        return 0;
    }
    let k = key_of(swap, i);
    let e = at(table, place_in(table.len(), k));
    if e / 1024 == 1024 * k + r {
        e % 1024
    } else {
        0
    }
}

/// Notes that record `j` of the chain at `r` is the partner of the record of number `k`, where
/// there is a place for it.
pub(crate) fn note(table: &mut [u32], k: usize, r: usize, j: usize)
    requires { j < 1024 }
    ensures { table.new ≡ noted table.old k r j }
{
    let place = place_in(table.len(), k);
    if k < 2048 && r < 1024 && place < table.len() {
        table[place] = (1048576 * k + 1024 * r + j) as u32;
    }
}
