//! The tests of one record: its figures, its number of parts and the places of its labels.
#![tactic(auto, using(std::proofs::lemmas::Bool::Decides::nat_tests), unfolding(crate::specs::Booleans::between, crate::specs::Booleans::all_of, crate::specs::Kind::is_decimal, crate::specs::Kind::names_parts, crate::specs::Kind::parts_right, crate::specs::Kind::last_unit, crate::specs::Kind::sized, crate::specs::Refusals::decimal_right, crate::specs::Refusals::figure_right, crate::specs::Refusals::size_right, crate::specs::Refusals::figures_right, crate::specs::Refusals::record_right, crate::specs::Refusals::label_right))]

ghost use Rattle.std.specs.Prelude.{◌≡◌, ◌<◌, ◌≤◌, cond};
ghost use Rattle.sheet.specs.Kind.{last_unit, parts_right, names_parts};
ghost use Rattle.sheet.specs.Head.{labelled};
ghost use Rattle.sheet.specs.Refusals.{biased, decimal_right, figure_right, size_right, figures_right, record_right, placed, label_right};
ghost use Rattle.sheet.specs.Bounds.{Bounded};

use crate::Head;
use crate::caps::precision_cap;
use crate::kind::{self, is_decimal, within};

/// Whether the parts of a record of kind k may have names and be nullable.
pub fn names_parts(k: u8) -> bool
    ensures { result ≡ names_parts k }
{
    within(kind::LIST, kind::MAP, k) || k == kind::RUN_END_ENCODED
}

/// Whether a record of kind k may have n parts.
pub fn parts_right(k: u8, n: usize) -> bool
    ensures { result ≡ parts_right k n }
{
    match k {
        kind::LIST..=kind::FIXED_SIZE_LIST | kind::MAP => n == 1,
        kind::STRUCT => true,
        kind::DICTIONARY | kind::RUN_END_ENCODED => n == 2,
        _ => n == 0,
    }
}

// The greatest unit of a kind, 0 for one that has none.
fn last_unit(k: u8) -> u8
    ensures { result ≡ last_unit k }
{
    match k {
        kind::TIME32..=kind::TIMESTAMP | kind::DURATION => 3,
        kind::INTERVAL => 2,
        _ => 0,
    }
}

/// A scale that is stored as a byte, plus 128: 0 for −128, 255 for 127.
pub fn biased_scale(b: u8) -> usize
    ensures { (result ≡ biased b) × (result < 256) }
{
    (usize::from(b) + 128) % 256
}

// Whether a decimal may have a precision and a scale, where the cap is `most`.
fn decimal_right(most: usize, p: u8, s: u8) -> bool
    ensures { result ≡ decimal_right most p s }
{
    let p = usize::from(p);
    let s = biased_scale(s);
    1 <= p && p <= most && s <= p + 128 && p + 1 <= s
}

/// Whether bytes 2 and 3 of a record of kind k are right: precision and scale, or a unit.
pub fn figure_right(k: u8, figure: u8, scale: u8) -> bool
    ensures { result ≡ figure_right k figure scale }
{
    if is_decimal(k) {
        decimal_right(precision_cap(k), figure, scale)
    } else {
        figure <= last_unit(k) && scale == 0
    }
}

// Whether a type of kind k may have a size.
fn size_right(k: u8, size: usize) -> bool
    ensures { result ≡ size_right k size }
{
    match k {
        kind::FIXED_SIZE_BINARY | kind::FIXED_SIZE_LIST => size < 2147483648,
        _ => size == 0,
    }
}

// Whether a type of kind k may have all these figures.
fn figures_right(k: u8, figure: u8, scale: u8, size: usize, sorted: bool, zoned: bool) -> bool
    ensures { result ≡ figures_right k figure scale size sorted zoned }
{
    figure_right(k, figure, scale)
        && size_right(k, size)
        && (!sorted || k == kind::MAP)
        && (!zoned || k == kind::TIMESTAMP)
}

/// The size that bytes 4 to 7 hold; 0 where they hold the place of a zone, as a Timestamp has no size.
pub fn size_in(zoned: bool, bytes_4_7: usize) -> usize
    ensures { result ≡ cond zoned 0 bytes_4_7 }
{
    if zoned { 0 } else { bytes_4_7 }
}

/// Whether a record has nothing of refusal 4, as a part of one of kind up, or as a listed type where up is 0.
// `&` leaves no branch on bits that change from record to record.
pub fn record_right(h: Head, up: u8) -> bool
    ensures { result ≡ record_right h up }
{
    let zoned = h.zoned();
    let size = size_in(zoned, h.bytes_4_7);
    figures_right(h.kind, h.figure, h.scale, size, h.sorted(), zoned)
        & (!h.nullable() | names_parts(up))
        & (h.flags < 8)
        & (!zoned | (h.bytes_4_7 < 16777216))
        & (h.byte_15 == 0)
}

// Whether a label of len bytes is where it belongs, at o.
fn is_placed(o: usize, at: usize, len: usize) -> bool
    ensures { result ≡ placed o at len }
{
    if len == 0 { at == 0 } else { at == o }
}

/// Whether a record has nothing of refusal 5 where its labels are to begin at o; up is as for `record_right`.
pub fn label_right(h: Head, up: u8, o: usize) -> bool
    requires { (o < 1000000) × Bounded h }
    ensures { result ≡ label_right h up o }
{
    is_placed(o, h.name, h.name_len)
        && (h.name_len == 0 || names_parts(up))
        && (!h.zoned() || is_placed(o + h.name_len, h.zone_at(), h.zone_len()))
}

/// How many label bytes a record has: those of its name, and of its zone where one is present.
pub fn label_bytes(h: Head) -> usize
    requires { Bounded h }
    ensures { (result ≡ labelled h) × (result ≤ 510) }
{
    h.name_len + if h.zoned() { h.zone_len() } else { 0 }
}
