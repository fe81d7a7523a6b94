//! Where two chains of fields, or two types, first differ, with the names of their fields or
//! without, and whether they are the same. `a` has `n` records and `b` has `m`. A link of the
//! first is followed only to a record past floor, so that each comparison ends.

ghost use Rattle.std.specs.Prelude.{◌≡◌, ℕ, not, ◌∷◌, [], ◌/◌, ◌%◌, ◌<◌};
ghost use Rattle.std.specs.Bool.{beq};
ghost use Rattle.sheet.specs.Booleans.{all_of, implies};
ghost use Rattle.sheet.specs.Head.{head_at, nullable_in};
ghost use Rattle.sheet.specs.Read.{label_at, shape_of};
ghost use Rattle.sheet.specs.Names.{same_bytes};
ghost use Rattle.sheet.specs.Bounds.{Bounded};
ghost use Rattle.coercion.specs.Same.{same_shape};
ghost use Rattle.buffers.specs.Writes.{side};
ghost use Rattle.buffers.specs.Source.{SameTypes};
ghost use Rattle.buffers.specs.Differ.{DifferChains, DifferTypes};
ghost use Rattle.buffers.specs.Records.{same_figures, same_content};

use crate::sides::Sides;
use sheet::Head;
use sheet::label::{label_at, same, same_name};
use sheet::record::head_at;

// Whether the zones that bytes 4 to 7 of two records place are the same.
fn same_zone(a: &[u8], n: usize, p: usize, b: &[u8], m: usize, q: usize) -> bool
    requires { (n < 65536) × (m < 65536) }
    ensures { result ≡ same_bytes (label_at a.now n (p % 65536) (p / 65536 % 256)) (label_at b.now m (q % 65536) (q / 65536 % 256)) }
{
    same(
        label_at(a, n, p % 65536, p / 65536 % 256),
        label_at(b, m, q % 65536, q / 65536 % 256),
    )
}

// Whether bytes 4 to 7 of two records of which both or neither has a zone say the same.
fn same_content(a: &[u8], n: usize, g: Head, b: &[u8], m: usize, h: Head) -> bool
    requires { (n < 65536) × (m < 65536) }
    ensures { result ≡ same_content a.now n g b.now m h }
{
    if g.zoned() {
        same_zone(a, n, g.bytes_4_7, b, m, h.bytes_4_7)
    } else {
        g.bytes_4_7 == h.bytes_4_7
    }
}

// Whether bytes 0, 2 and 3 and the bits for sorted and for a zone of two records are the same.
#[tactic(auto, unfolding(sheet::specs::Booleans::all_of))]
fn same_figures(g: Head, h: Head) -> bool
    ensures { result ≡ same_figures g h }
{
    g.kind == h.kind
        && g.figure == h.figure
        && g.scale == h.scale
        && g.flags / 2 % 4 == h.flags / 2 % 4
}

// Whether the shapes of two records are the same. Inlined, as `differ_heads` is, so that heads at
// hand are not read from memory again.
#[inline(always)]
#[tactic(auto, using(crate::proofs::Sameness::shape_is))]
fn same_shape(a: &[u8], n: usize, g: Head, b: &[u8], m: usize, h: Head) -> bool
    requires { (n < 65536) × (m < 65536) }
    ensures { result ≡ same_shape (shape_of a.now n g) (shape_of b.now m h) }
{
    same_figures(g, h) && same_content(a, n, g, b, m, h)
}

// Whether two records are the same but for their parts.
#[tactic(auto, using(crate::proofs::Sameness::record_is))]
fn same_record(a: &[u8], n: usize, g: Head, b: &[u8], m: usize, h: Head, named: bool) -> bool
    requires { ((n < 65536) × (m < 65536)) × (Bounded g × Bounded h) }
    ensures { result ≡ all_of (implies named (same_bytes (label_at a.now n g.name g.name_len) (label_at b.now m h.name h.name_len)) ∷ beq (nullable_in g) (nullable_in h) ∷ same_shape (shape_of a.now n g) (shape_of b.now m h) ∷ []) }
{
    same_figures(g, h)
        && g.flags % 2 == h.flags % 2
        && same_content(a, n, g, b, m, h)
        && (!named || same_name(a, n, g, b, m, h))
}

// The record at which the chain that a link of a leads to and the one that a link of b leads to
// first differ. The first chain is the parts of record floor, or what is left of them.
fn differ_fields(
    a: &[u8],
    n: usize,
    floor: usize,
    i: usize,
    b: &[u8],
    m: usize,
    j: usize,
    named: bool,
) -> usize
    requires { (n < 65536) × (m < 65536) }
    ensures { DifferChains a.now n floor i b.now m j named floor result }
{
    let mut low = floor;
    let mut x = i;
    let mut y = j;
    while low < x {
        if n <= x || y == 0 {
            return floor;
        }
        let g = head_at(a, x);
        let h = head_at(b, y);
        if !same_record(a, n, g, b, m, h, named) {
            return x;
        }
        low = x;
        x = g.next;
        y = h.next;
        if g.first + h.first == 0 {
            continue;
        }
        let d = differ_fields(a, n, low, g.first, b, m, h.first, named);
        if d != 0 {
            return d;
        }
    }
    if y == 0 { 0 } else { floor }
}

/// The record at which two types first differ, record `i` of `a` and one of `b`, whose heads are
/// read already; 0 where they are the same. A list reads the head of its first type once for all
/// the others.
#[inline(always)]
pub fn differ_heads(
    a: &[u8],
    n: usize,
    i: usize,
    g: Head,
    b: &[u8],
    m: usize,
    h: Head,
    named: bool,
) -> usize
    requires sizes { ((n < 65536) × (m < 65536)) × (Bounded g × Bounded h) }
    requires head { g ≡ head_at a.now i }
    ensures { (j : ℕ) → h ≡ head_at b.now j → DifferTypes a.now n i b.now m j named result }
{
    if !same_shape(a, n, g, b, m, h) {
        return i;
    }
    if g.first + h.first == 0 {
        return 0;
    }
    differ_fields(a, n, i, g.first, b, m, h.first, named)
}

/// The record at which the type of record `i` of `a` and that of record `j` of `b` first differ, by
/// its number in `a`; 0 where they are the same. Names count where `named` is set; the nullability
/// of the two records themselves does not.
pub fn differ_type(a: &[u8], n: usize, i: usize, b: &[u8], m: usize, j: usize, named: bool) -> usize
    requires { (n < 65536) × (m < 65536) }
    ensures { DifferTypes a.now n i b.now m j named result }
{
    // The kinds are read alone first, as most types that differ do there.
    if head_at(a, i).kind != head_at(b, j).kind {
        return i;
    }
    differ_heads(a, n, i, head_at(a, i), b, m, head_at(b, j), named)
}

impl Sides<'_> {
    /// The same of record `l` and record `r` of the right.
    pub fn differ_sides(&self, work: &[u8], l: usize, r: usize, named: bool) -> usize
        requires { self.now.space.n < 65536 }
        ensures { DifferTypes (side self.now.swap self.now.sheet.now work.now) self.now.space.n l (side (not self.now.swap) self.now.sheet.now work.now) self.now.space.n r named result }
    {
        let n = self.space.n;
        let (a, b) = self.slices(work);
        differ_type(a, n, l, b, n, r, named)
    }

    /// Whether the type of record `l` is that of record `r` of the right. Names count where
    /// `named` is set.
    pub fn same_sides(&self, work: &[u8], l: usize, r: usize, named: bool) -> bool
        requires { self.now.space.n < 65536 }
        ensures { SameTypes (side self.now.swap self.now.sheet.now work.now) self.now.space.n l (side (not self.now.swap) self.now.sheet.now work.now) self.now.space.n r named result }
    {
        self.differ_sides(work, l, r, named) == 0
    }
}
