//! Labels as parts of a sheet, and whether two are the same bytes.
ghost use Rattle.std.specs.Prelude.{◌≡◌, ◌++◌, false, length, take, drop};
ghost use Prim.Native.Nat.{◌+◌, ◌*◌, ◌-◌, ◌<◌, ◌≤◌};
ghost use Rattle.sheet.specs.Read.{label_at};
ghost use Rattle.sheet.specs.Names.{same_bytes, stir, mixed};
ghost use Rattle.sheet.specs.Bounds.{Bounded, Filled};

use crate::Head;
use crate::limits::{LONGEST_LABEL, RECORD_BYTES};
use crate::record::{eight_at, quad_at, word_at};

// The len bytes of a slice from at on, as far as it has them.
fn part(s: &[u8], at: usize, len: usize) -> &[u8]
    ensures { result.now ≡ take len (drop at s.now) }
{
    let rest = &s[at.min(s.len())..];
    &rest[..len.min(rest.len())]
}

/// The label of len bytes at an offset in a sheet of n records: what lies inside, where the sheet ends before it does.
pub fn label_at(s: &[u8], n: usize, at: usize, len: usize) -> &[u8]
    requires { (n < 65536) × ((at < 65536) × (len < 65536)) }
    ensures { result.now ≡ label_at s.now n at len }
{
    part(s, RECORD_BYTES * n + at, len)
}

// Whether two slices of one length, less than eight, are the same bytes. The last four, or two, may overlap the first.
fn same_short(a: &[u8], b: &[u8]) -> bool
    requires { (length a.now ≡ length b.now) × (length a.now < 8) }
    ensures { result ≡ same_bytes a.now b.now }
{
    let n = a.len();
    if 4 <= n {
        quad_at(a, 0) == quad_at(b, 0) && quad_at(a, n - 4) == quad_at(b, n - 4)
    } else if 2 <= n {
        word_at(a, 0) == word_at(b, 0) && word_at(a, n - 2) == word_at(b, n - 2)
    } else {
        n == 0 || a[0] == b[0]
    }
}

/// Whether two slices are the same bytes.
// Eight at a time, the last eight at the end, as short names are quicker so than by the library's `==`.
pub fn same(a: &[u8], b: &[u8]) -> bool
    ensures { result ≡ same_bytes a.now b.now }
{
    let n = a.len();
    if n != b.len() {
        return false;
    }
    if n < 8 {
        return same_short(a, b);
    }
    let last = n - 8;
    for i in (0..last).step_by(8) {
        if eight_at(a, i) != eight_at(b, i) {
            return false;
        }
    }
    eight_at(a, last) == eight_at(b, last)
}

/// Copies a slice to the front of a buffer that has room for it, and gives its length.
pub fn copy(src: &[u8], dst: &mut [u8]) -> usize
    requires { length src.now ≤ length dst.old }
    ensures count { result ≡ length src.now }
    ensures bytes { dst.new ≡ take (length src.now) src.now ++ drop (length src.now) dst.old }
{
    dst[..src.len()].copy_from_slice(src);
    src.len()
}

/// Copies the m bytes of s from a on, as far as s has them, to the front of a buffer that has room for m bytes, and
/// gives how many they are.
pub fn fill(s: &[u8], a: usize, m: usize, buf: &mut [u8]) -> usize
    requires { m ≤ length buf.old }
    ensures { Filled (take m (drop a s.now)) buf.old buf.new result }
{
    copy(part(s, a, m), buf)
}

// The comparison of labels that may be the same. Each is held in an array of its own before they are compared.
fn same_held(x: &[u8], y: &[u8]) -> bool
    requires { (length x.now ≤ LONGEST_LABEL) × (length y.now ≤ LONGEST_LABEL) }
    ensures { result ≡ same_bytes x.now y.now }
{
    let mut a = [0u8; LONGEST_LABEL];
    let mut b = [0u8; LONGEST_LABEL];
    let i = copy(x, &mut a);
    let j = copy(y, &mut b);
    same(&a[..i], &b[..j])
}

// Whether two labels of one length have the same bytes at the end and at the front, where they have four or more.
fn look_alike(x: &[u8], y: &[u8]) -> bool
    requires { length x.now ≡ length y.now }
    ensures { result ≡ false → false ≡ same_bytes x.now y.now }
{
    let n = x.len();
    if 8 <= n {
        eight_at(x, n - 8) == eight_at(y, n - 8) && eight_at(x, 0) == eight_at(y, 0)
    } else if 4 <= n {
        quad_at(x, n - 4) == quad_at(y, n - 4) && quad_at(x, 0) == quad_at(y, 0)
    } else {
        true
    }
}

// The comparison of labels of one length whose last bytes are the same. Few that differ get as far as the arrays.
// It is not inlined, so that the quick tests of `same_label` can be, in the loops that ask them.
#[inline(never)]
fn same_close(x: &[u8], y: &[u8]) -> bool
    requires { (length x.now ≡ length y.now) × (length x.now ≤ LONGEST_LABEL) }
    ensures { result ≡ same_bytes x.now y.now }
{
    look_alike(x, y) && same_held(x, y)
}

/// Whether the m bytes of s from a on are the n bytes of t from b on, each as far as its slice has them.
// Most labels differ in length or in their last two bytes, and are told apart by these.
pub fn same_label(s: &[u8], a: usize, m: usize, t: &[u8], b: usize, n: usize) -> bool
    requires { (m ≤ LONGEST_LABEL) × (n ≤ LONGEST_LABEL) }
    ensures { result ≡ same_bytes (take m (drop a s.now)) (take n (drop b t.now)) }
{
    let x = part(s, a, m);
    let y = part(t, b, n);
    let i = x.len();
    if i != y.len() {
        return false;
    }
    if i == 0 {
        return true;
    }
    x[i - 1] == y[i - 1] && (i == 1 || x[i - 2] == y[i - 2]) && same_close(x, y)
}

// Four bytes, or one, stirred into a number of 32 bits.
fn stirred(k: u32, x: u32) -> u32
    ensures { result ≡ stir k x }
{
    k.rotate_left(16).wrapping_add(x).wrapping_mul(1640531527)
}

/// A number of 32 bits that is made of the bytes of a name, four at a time. Names that differ mostly differ in it.
pub fn mix(name: &[u8]) -> usize
    ensures { (result ≡ mixed 0 name.now) × (result < 4294967296) }
{
    let (quads, rest) = name.as_chunks::<4>();
    let mut k = 0;
    for quad in quads {
        k = stirred(k, u32::from_le_bytes(*quad));
    }
    for byte in rest {
        k = stirred(k, u32::from(*byte));
    }
    k as usize
}

/// Whether two records have one name: head h of the sheet s of n records, and head g of the sheet t of m records.
pub fn same_name(s: &[u8], n: usize, h: Head, t: &[u8], m: usize, g: Head) -> bool
    requires { ((n < 65536) × (m < 65536)) × (Bounded h × Bounded g) }
    ensures { result ≡ same_bytes (label_at s.now n h.name h.name_len) (label_at t.now m g.name g.name_len) }
{
    let i = RECORD_BYTES * n + h.name;
    let j = RECORD_BYTES * m + g.name;
    same_label(s, i, h.name_len, t, j, g.name_len)
}
