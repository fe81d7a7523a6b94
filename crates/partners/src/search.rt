//! The search for a name in a chain.

ghost use Rattle.std.specs.Prelude.{◌≡◌, ◌<◌, ◌≤◌, length, ltb, ◌&&◌};
ghost use Rattle.sheet.specs.Read.{label_at};
ghost use Rattle.sheet.specs.Names.{same_bytes};
ghost use Rattle.sheet.specs.Bounds.{Bounded};
ghost use Rattle.buffers.specs.Differ.{known_past};
ghost use Rattle.partners.specs.Naming.{Finds};

use sheet::Head;
use sheet::label::same_label;
use sheet::record::head_at;

/// Whether a record, whose head is `h`, has a name.
pub(crate) fn is_named(t: &[u8], n: usize, h: Head, want: &[u8]) -> bool
    requires { ((n < 65536) × Bounded h) × (length want.now ≤ 255) }
    ensures { result ≡ same_bytes want.now (label_at t.now n h.name h.name_len) }
{
    same_label(want, 0, want.len(), t, 16 * n + h.name, h.name_len)
}

/// Whether a link leads to a record, whose head is `h`, that has a name.
pub(crate) fn is_field_named(t: &[u8], n: usize, j: usize, h: Head, want: &[u8]) -> bool
    requires { ((n < 65536) × Bounded h) × (length want.now ≤ 255) }
    ensures { result ≡ (ltb 0 j && (ltb j n && same_bytes want.now (label_at t.now n h.name h.name_len))) }
{
    0 < j && j < n && is_named(t, n, h, want)
}

/// A field of the chain at a link that has a name; 0 where there is none.
pub(crate) fn find(t: &[u8], n: usize, want: &[u8], link: usize) -> usize
    requires { (n ≤ 1024) × (length want.now ≤ 255) }
    ensures { (result < 1024) × Finds n t.now want.now link result }
{
    let mut floor = 0;
    let mut j = link;
    while floor < j {
        if n <= j {
            return 0;
        }
        let h = head_at(t, j);
        if is_named(t, n, h, want) {
            return j;
        }
        floor = j;
        j = h.next;
    }
    0
}

/// Whether record `i` and record `j` at its place are known to have one name, as the chains of both
/// first differ past `i`.
pub(crate) fn are_known(known: Option<usize>, i: usize, j: usize) -> bool
    ensures { result ≡ (ltb 0 j && known_past known i) }
{
    match known {
        Some(d) => 0 < j && i < d,
        None => false,
    }
}
