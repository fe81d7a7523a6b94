//! The heads of records.
ghost use Rattle.std.specs.Prelude.{◌≡◌, ◌+◌, ◌<◌, ◌≤◌, length};
ghost use Rattle.sheet.specs.Head.{word, quad_at, eight_at, head_from, head_at};
ghost use Rattle.sheet.specs.Bounds.{Bounded};

use crate::Head;
use crate::limits::RECORD_BYTES;

/// Two bytes as one number, the lower first.
pub fn word_at(s: &[u8], i: usize) -> usize
    requires { i + 1 < length s.now }
    ensures { (result ≡ word s.now i) × (result < 65536) }
{
    usize::from(u16::from_le_bytes([s[i], s[i + 1]]))
}

/// Four bytes as one number, the lowest first.
pub fn quad_at(s: &[u8], i: usize) -> usize
    requires { i + 3 < length s.now }
    ensures { (result ≡ quad_at s.now i) × (result < 4294967296) }
{
    u32::from_le_bytes([s[i], s[i + 1], s[i + 2], s[i + 3]]) as usize
}

// Eight bytes as one number, the lowest first.
pub(crate) fn eight_at(s: &[u8], i: usize) -> usize
    requires { i + 7 < length s.now }
    ensures { result ≡ eight_at s.now i }
{
    usize::from_le_bytes([
        s[i],
        s[i + 1],
        s[i + 2],
        s[i + 3],
        s[i + 4],
        s[i + 5],
        s[i + 6],
        s[i + 7],
    ])
}

/// The head in the sixteen bytes from byte i on.
pub fn head_from(s: &[u8], i: usize) -> Head
    requires { i + RECORD_BYTES ≤ length s.now }
    ensures { (result ≡ head_from s.now i) × Bounded result }
{
    Head {
        kind: s[i],
        flags: s[i + 1],
        figure: s[i + 2],
        scale: s[i + 3],
        bytes_4_7: quad_at(s, i + 4),
        first: word_at(s, i + 8),
        next: word_at(s, i + 10),
        name: word_at(s, i + 12),
        name_len: usize::from(s[i + 14]),
        byte_15: s[i + 15],
    }
}

/// The head of record r, or zeros where the sixteen bytes of that record are not all inside.
#[tactic(auto, using(std::proofs::lemmas::Bool::Decides::nat_tests), unfolding(crate::specs::Head::head_at))]
pub fn head_at(s: &[u8], r: usize) -> Head
    ensures { (result ≡ head_at s.now r) × Bounded result }
{
    if r < s.len() / RECORD_BYTES {
        head_from(s, RECORD_BYTES * r)
    } else {
        Head::default()
    }
}
