//! The category of a type: that of the value below all its wrappers. The categories seen in a list are bits: two in one
//! list are told by counting ones.

ghost use Rattle.std.specs.Prelude.{◌≡◌, ℕ, ◌<◌, ltb, IfSome, MatchOption};
ghost use Rattle.std.specs.Int.Bits.{bit_or};
ghost use Rattle.std.specs.Int.Count.{ones};
ghost use Rattle.sheet.specs.Types.{Fields};
ghost use Rattle.sheet.specs.Holds.{Leads};
ghost use Rattle.coercion.specs.Answers.{own_category};
ghost use Rattle.coercion.specs.Meaning.{category_bit, is_supported, value_category};
ghost use Rattle.resolution.specs.Wrapped.{CoreFound};

use sheet::kind::{self, is_string, is_wrapper};
use sheet::record::head_at;

/// The bit of the category of a kind that is no wrapper, 0 where the category is Unknown or there is none.
#[tactic(auto, using(crate::proofs::Categories::kind_bits))]
pub(crate) fn category_bit(k: u8) -> u8
    ensures { result ≡ category_bit (own_category k) }
{
    match k {
        kind::BOOLEAN => 2,
        kind::INT8..=kind::DECIMAL256 => 4,
        kind::DATE32..=kind::DURATION => 8,
        kind::LIST..=kind::FIXED_SIZE_LIST => 1,
        kind::STRUCT | kind::MAP => 16,
        _ => 0,
    }
}

/// Whether a kind that is no wrapper has a category: one that has a bit, or Unknown.
#[tactic(auto, using(crate::proofs::Categories::supported))]
pub(crate) fn is_supported(k: u8) -> bool
    ensures { result ≡ is_supported (own_category k) }
{
    category_bit(k) != 0 || is_string(k) || k == kind::NULL
}

/// The bits with the category of one more kind.
pub(crate) fn with_category(bits: u8, k: u8) -> u8
    ensures { result ≡ bit_or bits (category_bit (own_category k)) }
{
    bits | category_bit(k)
}

/// Whether more than one category was seen.
pub(crate) fn is_mixed(bits: u8) -> bool
    ensures { result ≡ ltb 1 (ones bits) }
{
    1 < u8::count_ones(bits)
}

// The record of the value of a wrapper at record r, its second part, whose first part is at a link. None where there
// is no such record behind r.
fn value_at(s: &[u8], n: usize, r: usize, first: usize) -> Option<usize>
    ensures behind { IfSome result (λ v. (r < v) × (v < n)) }
    ensures category { (i o : ℕ) (parts : Fields) → Leads s.now n r first i o parts → MatchOption result (own_category 0 ≡ value_category parts) (λ v. (k : ℕ) → CoreFound s.now n v k → own_category k ≡ value_category parts) }
{
    if first <= r {
        return None;
    }
    let value = head_at(s, first).next;
    if value <= first || n <= value {
        return None;
    }
    Some(value)
}

/// The kind of the value below all wrappers of record r, whose category is that of the type. Where a wrapper has no
/// value it is 0, which is no kind and has no category.
pub(crate) fn category_kind(s: &[u8], n: usize, r: usize) -> u8
    ensures { CoreFound s.now n r result }
{
    let h = head_at(s, r);
    if !is_wrapper(h.kind) {
        return h.kind;
    }
    match value_at(s, n, r, h.first) {
        Some(value) => category_kind(s, n, value),
        None => 0,
    }
}
