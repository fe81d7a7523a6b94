//! The tests of one record by the walk: by few numbers where these show that nothing is wrong, and else by every test
//! of refusals 4 and 5.
ghost use Rattle.std.specs.Prelude.{◌≡◌, true, ℕ, ◌+◌, ◌%◌, ◌<◌, ◌≤◌, length, IfSome};
ghost use Rattle.sheet.specs.Head.{head_from, by_quads};
ghost use Rattle.sheet.specs.Bounds.{Bounded};
ghost use Rattle.sheet.specs.declared.Head as Declared;
ghost use Rattle.refusals.specs.Packed.{light, Stamped, PassesBy, Passed};

use sheet::Head;
use sheet::figure::{figure_right, label_bytes, label_right, names_parts, record_right};
use sheet::kind::{self, is_decimal};
use sheet::limits::RECORD_BYTES;
use sheet::record::{head_from, quad_at};

// Whether a record has no flag but the first, no size, and right figures, by its first two numbers of 32 bits.
#[tactic(auto, unfolding(crate::specs::Packed::light))]
fn is_light(a: usize, b: usize) -> bool
    requires { a < 4294967296 }
    ensures { result ≡ light (by_quads a b 0 0) }
{
    if b != 0 {
        return false;
    }
    let kind = (a % 256) as u8;
    if a < 512 {
        return !is_decimal(kind);
    }
    a / 256 % 256 < 2 && figure_right(kind, (a / 65536 % 256) as u8, (a / 16777216) as u8)
}

// How many label bytes a light record has that is a part of one of kind up, where the next label is at byte at, by its
// first and its last number of 32 bits. None leaves open whether it is right.
fn light_labels(a: usize, d: usize, up: u8, at: usize) -> Option<usize>
    requires { light (by_quads a 0 0 0) ≡ true }
    ensures { IfSome result (PassesBy (by_quads a 0 0 d) up at) }
{
    if d == 0 {
        if a / 256 % 256 == 0 || names_parts(up) {
            return Some(0);
        }
        return None;
    }
    if 65536 <= d && d < 16777216 && names_parts(up) && d % 65536 == at {
        return Some(d / 65536);
    }
    None
}

// Whether a record is a Timestamp with a zone that has no name and is not nullable, and its unit and its unused bytes
// are right.
fn is_stamped(h: Head) -> bool
    ensures { result ≡ true → Stamped h }
{
    h.kind == kind::TIMESTAMP
        && h.flags == 4
        && h.figure <= 3
        && h.scale == 0
        && h.name == 0
        && h.name_len == 0
        && h.byte_15 == 0
        && h.bytes_4_7 < 16777216
}

// How many label bytes such a record has, by its bytes 4 to 7.
fn zone_labels(bytes_4_7: usize, next: usize) -> Option<usize>
    ensures { (h : Declared.Head) (up : ℕ) → Stamped h → h.bytes_4_7 ≡ bytes_4_7 → IfSome result (PassesBy h up next) }
{
    let at = bytes_4_7 % 65536;
    let len = bytes_4_7 / 65536;
    if len == 0 {
        if at == 0 {
            return Some(0);
        }
        return None;
    }
    if at == next && len < 256 {
        return Some(len);
    }
    None
}

// Goes past a record, by every test. The number `found` is the offset of the next label, with 2³² where a figure is
// wrong and 2³³ where a label is.
fn pass_open(h: Head, up: u8, found: usize) -> usize
    requires { (found % 4294967296 < 1000000) × Bounded h }
    ensures { Passed h up found result }
{
    let at = found % 4294967296;
    let figure = found / 4294967296 % 2 == 1 || !record_right(h, up);
    let label = found / 8589934592 % 2 == 1 || !label_right(h, up, at);
    at + label_bytes(h) + 4294967296 * usize::from(figure) + 8589934592 * usize::from(label)
}

// Goes past the record at byte i, by the quick tests where these decide. It calls `pass_open` twice, so that this is
// not inlined.
pub(crate) fn pass_record(s: &[u8], i: usize, up: u8, found: usize) -> usize
    requires { (i + RECORD_BYTES ≤ length s.now) × ((found % 4294967296 < 1000000) × (found < 17179869184)) }
    ensures { Passed (head_from s.now i) up found result }
{
    let at = found % 4294967296;
    let a = quad_at(s, i);
    if is_light(a, quad_at(s, i + 4)) {
        return match light_labels(a, quad_at(s, i + 12), up, at) {
            Some(labels) => found + labels,
            None => pass_open(head_from(s, i), up, found),
        };
    }
    let h = head_from(s, i);
    if is_stamped(h) {
        if let Some(labels) = zone_labels(h.bytes_4_7, at) {
            return found + labels;
        }
    }
    pass_open(head_from(s, i), up, found)
}
