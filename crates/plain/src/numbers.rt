//! Numbers and decimals. Where the source has a function for each of four widths, one over the width's kind serves.
//! A kind is the byte of a record, and every function here takes any byte.
ghost use Rattle.std.specs.Prelude.{◌≡◌, true, ◌&&◌, ◌+◌, ◌<◌, ◌≤◌, Some};
ghost use Rattle.sheet.specs.Kind.{is_decimal, cap, is_integer};
ghost use Rattle.coercion.specs.Numbers.{decimal, ahead, wider_scale, wider_precision, create_decimal_type, get_wider_decimal_type, get_wider_decimal_type_cross_variant, digits_of, fraction_of, takes, coerce_numeric_type_to_decimal, get_common_decimal_type, decimal_coercion, float_coercion, integer_coercion, numerical_coercion, binary_numeric_coercion};
ghost use Rattle.coercion.specs.Data.{or_else};

use coercion::Figures;
use sheet::caps::precision_cap;
use sheet::figure::biased_scale;
use sheet::kind::{self, is_decimal, is_integer, is_numeric, one_is, within};

// p - s, plus 256, of a precision and a scale plus 128.
fn digits_ahead(p: u8, s: usize) -> usize
    requires { s < 256 }
    ensures { (result ≡ ahead p s) × ((result < 512) × (256 ≤ result + s)) }
{
    usize::from(p) + 256 - s
}

fn wider_scale(l: Figures, r: Figures) -> usize
    ensures { (result ≡ wider_scale l r) × (result < 256) }
{
    biased_scale(l.scale).max(biased_scale(r.scale))
}

fn wider_precision(l: Figures, r: Figures) -> usize
    ensures { (result ≡ wider_precision l r) × (result < 512) }
{
    let a = biased_scale(l.scale);
    let b = biased_scale(r.scale);
    digits_ahead(l.figure, a).max(digits_ahead(r.figure, b)) + a.max(b) - 256
}

// A decimal of a precision and a scale plus 128.
fn decimal_of(kind: u8, p: usize, s: usize) -> Figures
    requires { (p < 256) × (s < 256) }
    ensures { result ≡ decimal kind p s }
{
    Figures {
        kind,
        figure: p as u8,
        scale: ((s + 128) % 256) as u8,
    }
}

// `create_decimal32_type` to `create_decimal256_type`
fn create_decimal_type(kind: u8, p: usize, s: usize) -> Figures
    requires { s < 256 }
    ensures { result ≡ create_decimal_type kind p s }
{
    let cap = precision_cap(kind);
    decimal_of(kind, cap.min(p), (cap + 128).min(s))
}

#[tactic(auto, unfolding(coercion::specs::Numbers::get_wider_decimal_type))]
fn get_wider_decimal_type(l: Figures, r: Figures) -> Figures
    ensures { result ≡ get_wider_decimal_type l r }
{
    create_decimal_type(l.kind, wider_precision(l, r), wider_scale(l, r))
}

#[tactic(auto, unfolding(coercion::specs::Numbers::get_wider_decimal_type_cross_variant))]
fn get_wider_decimal_type_cross_variant(l: Figures, r: Figures) -> Option<Figures>
    ensures { result ≡ get_wider_decimal_type_cross_variant l r }
{
    let kind = l.kind.max(r.kind);
    let p = wider_precision(l, r);
    (p <= precision_cap(kind)).then(|| decimal_of(kind, p, wider_scale(l, r)))
}

// The digits of a number's kind (Spark), and of a float those after the point.
fn digits_of(k: u8) -> usize
    ensures { (result ≡ digits_of k) × (result < 256) }
{
    match k {
        kind::INT8 | kind::UINT8 => 3,
        kind::INT16 | kind::UINT16 => 5,
        kind::INT32 | kind::UINT32 => 10,
        kind::INT64 | kind::UINT64 => 20,
        kind::FLOAT16 => 6,
        kind::FLOAT32 => 14,
        _ => 30,
    }
}

fn fraction_of(k: u8) -> usize
    ensures { (result ≡ fraction_of k) × (result < 128) }
{
    match k {
        kind::FLOAT16 => 3,
        kind::FLOAT32 => 7,
        kind::FLOAT64 => 15,
        _ => 0,
    }
}

// Whether a decimal of kind w takes a number of kind k.
fn takes_number(w: u8, k: u8) -> bool
    ensures { result ≡ takes w k }
{
    match w {
        kind::DECIMAL32 => {
            one_is(k, kind::INT8, kind::UINT8)
                || one_is(k, kind::INT16, kind::UINT16)
                || k == kind::FLOAT16
        }
        kind::DECIMAL64 => {
            within(kind::INT8, kind::FLOAT32, k) && !one_is(k, kind::INT64, kind::UINT64)
        }
        _ => within(kind::INT8, kind::FLOAT64, k),
    }
}

// `coerce_numeric_type_to_decimal32` to `coerce_numeric_type_to_decimal256`
#[tactic(auto, unfolding(coercion::specs::Numbers::coerce_numeric_type_to_decimal))]
fn coerce_numeric_type_to_decimal(w: u8, k: u8) -> Option<Figures>
    ensures { result ≡ coerce_numeric_type_to_decimal w k }
{
    takes_number(w, k).then(|| decimal_of(w, digits_of(k), fraction_of(k) + 128))
}

#[tactic(auto, unfolding(coercion::specs::Numbers::get_common_decimal_type))]
fn get_common_decimal_type(d: Figures, other: Figures) -> Option<Figures>
    ensures { result ≡ get_common_decimal_type d other }
{
    coerce_numeric_type_to_decimal(d.kind, other.kind).map(|o| get_wider_decimal_type(d, o))
}

#[tactic(auto, unfolding(coercion::specs::Numbers::decimal_coercion))]
fn decimal_coercion(l: Figures, r: Figures) -> Option<Figures>
    ensures { result ≡ decimal_coercion l r }
{
    match (is_decimal(l.kind), is_decimal(r.kind)) {
        (true, true) if l.kind == r.kind => Some(get_wider_decimal_type(l, r)),
        (true, true) => get_wider_decimal_type_cross_variant(l, r),
        (true, false) => get_common_decimal_type(l, r),
        (false, true) => get_common_decimal_type(r, l),
        (false, false) => None,
    }
}

// The first rules of `numerical_coercion`: floats.
fn float_coercion(k: u8, j: u8) -> Option<Figures>
    ensures { result ≡ float_coercion k j }
{
    if one_is(kind::FLOAT64, k, j) {
        Some(Figures::of_kind(kind::FLOAT64))
    } else if one_is(kind::FLOAT32, k, j) {
        Some(Figures::of_kind(kind::FLOAT32))
    } else if one_is(kind::FLOAT16, k, j) {
        Some(Figures::of_kind(kind::FLOAT16))
    } else {
        None
    }
}

// Two integers: the wider of two signed or two unsigned ones, and else the signed one that holds both, or
// Decimal128(20,0) where there is none.
#[tactic(auto, using(crate::proofs::Integers::wider_integers))]
fn wider_integer(k: u8, j: u8) -> Figures
    requires { (is_integer k && is_integer j) ≡ true }
    ensures { integer_coercion k j ≡ Some result }
{
    let low = k.min(j);
    let high = k.max(j);
    if high <= kind::INT64 || kind::UINT8 <= low {
        Figures::of_kind(high)
    } else if high == kind::UINT64 {
        decimal_of(kind::DECIMAL128, 20, 128)
    } else {
        Figures::of_kind(low.max(high - (kind::UINT8 - kind::INT16)))
    }
}

// The other rules of `numerical_coercion`: integers. Beside any other kind an integer stays.
#[tactic(auto, using(crate::proofs::Integers::one_integer))]
fn integer_coercion(k: u8, j: u8) -> Option<Figures>
    ensures { result ≡ integer_coercion k j }
{
    match (is_integer(k), is_integer(j)) {
        (true, true) => Some(wider_integer(k, j)),
        (true, false) => Some(Figures::of_kind(k)),
        (false, true) => Some(Figures::of_kind(j)),
        (false, false) => None,
    }
}

#[tactic(auto, unfolding(coercion::specs::Numbers::numerical_coercion))]
fn numerical_coercion(k: u8, j: u8) -> Option<Figures>
    ensures { result ≡ numerical_coercion k j }
{
    float_coercion(k, j).or_else(|| integer_coercion(k, j))
}

// The rules for two numbers that are not the same. Of two integers neither is a decimal or a float.
#[tactic(auto, using(crate::proofs::Integers::integers_alone))]
fn other_figures(l: Figures, r: Figures) -> Option<Figures>
    ensures { result ≡ or_else (decimal_coercion l r) (numerical_coercion l.kind r.kind) }
{
    if is_integer(l.kind) && is_integer(r.kind) {
        return Some(wider_integer(l.kind, r.kind));
    }
    decimal_coercion(l, r).or_else(|| numerical_coercion(l.kind, r.kind))
}

/// The common type of two numbers, by `binary_numeric_coercion` of the source; none where one is no number.
#[tactic(auto, unfolding(coercion::specs::Numbers::binary_numeric_coercion))]
pub fn binary_numeric_coercion(l: Figures, r: Figures) -> Option<Figures>
    ensures { result ≡ binary_numeric_coercion l r }
{
    if !is_numeric(l.kind) || !is_numeric(r.kind) {
        None
    } else if l == r {
        Some(l)
    } else {
        other_figures(l, r)
    }
}
