//! Null and string rules, whose answer is one of the two types. A kind is the byte of a record.
ghost use Rattle.std.specs.Prelude.{◌≡◌, ◌<◌, Some};
ghost use Rattle.coercion.specs.Data.{DataType, may_become};
ghost use Rattle.coercion.specs.Rules.{null_coercion, string_numeric_coercion, string_numeric_union_coercion, string_temporal_coercion};
ghost use Rattle.coercion.specs.Meaning.{side_of, moment_of};
ghost use Rattle.plain.specs.Sides.{number_side};

use crate::times::is_time_with_valid_unit;
use coercion::{Moment, Side};
use sheet::kind::{self, is_date, is_numeric, is_string, is_time};

/// Whether Null may become a kind: a bit of the mask.
pub fn may_become(mask: u64, k: u8) -> bool
    requires { k < 64 }
    ensures { result ≡ may_become mask k }
{
    (mask >> k) % 2 == 1
}

/// `null_coercion` of the source, on the kinds of the left and the right type.
#[tactic(auto, unfolding(coercion::specs::Rules::null_coercion))]
pub fn null_coercion(mask: u64, k: u8, j: u8) -> Option<Side>
    requires { (k < 64) × (j < 64) }
    ensures { (l r : DataType) → l.shape.kind ≡ k → r.shape.kind ≡ j → side_of result l r ≡ null_coercion mask l r }
{
    if k == kind::NULL {
        may_become(mask, j).then_some(Side::Right)
    } else if j == kind::NULL {
        may_become(mask, k).then_some(Side::Left)
    } else {
        None
    }
}

// The number of a number and a string, in either order.
fn number_side(k: u8, j: u8) -> Option<Side>
    ensures { result ≡ number_side k j }
{
    if is_numeric(k) && is_string(j) {
        Some(Side::Left)
    } else if is_string(k) && is_numeric(j) {
        Some(Side::Right)
    } else {
        None
    }
}

/// `string_numeric_coercion` of the source, of comparison and list: the number of a number and a string.
#[tactic(auto, using(crate::proofs::NumberSides::number_kept))]
pub fn string_numeric_coercion(k: u8, j: u8) -> Option<Side>
    ensures { (l r : DataType) → l.shape.kind ≡ k → r.shape.kind ≡ j → side_of result l r ≡ string_numeric_coercion l r }
{
    number_side(k, j)
}

/// `string_numeric_union_coercion` of the source, of a union: the string of a number and a string.
#[tactic(auto, using(crate::proofs::NumberSides::string_kept))]
pub fn string_numeric_union_coercion(k: u8, j: u8) -> Option<Side>
    ensures { (l r : DataType) → l.shape.kind ≡ k → r.shape.kind ≡ j → side_of result l r ≡ string_numeric_union_coercion l r }
{
    // The string stands where the number does in the swapped pair.
    number_side(j, k)
}

// What a string and a type of a kind and a unit become: the type itself (Left), a Timestamp in nanoseconds, or nothing.
fn time_of_string(k: u8, unit: u8) -> Option<Moment>
    ensures { (l r : DataType) → l.shape.kind ≡ k → l.shape.figure ≡ unit → moment_of result l r ≡ Rattle.coercion.specs.Rules.time_of_string l }
{
    if is_date(k) {
        Some(Moment::Left)
    } else if is_time(k) {
        is_time_with_valid_unit(k, unit).then_some(Moment::Left)
    } else if k == kind::TIMESTAMP {
        Some(Moment::LeftNanoseconds)
    } else {
        None
    }
}

// The same with the sides exchanged.
fn swapped(m: Moment) -> Moment
    ensures { (l r : DataType) → moment_of (Some result) l r ≡ moment_of (Some m) r l }
{
    match m {
        Moment::Left => Moment::Right,
        Moment::Right => Moment::Left,
        Moment::LeftNanoseconds => Moment::RightNanoseconds,
        Moment::RightNanoseconds => Moment::LeftNanoseconds,
    }
}

/// `string_temporal_coercion` of the source: of kind k with unit u on the left, and kind j with unit v on the right.
#[tactic(auto, using(crate::proofs::Moments::right_string, crate::proofs::Moments::no_string))]
pub fn string_temporal_coercion(k: u8, u: u8, j: u8, v: u8) -> Option<Moment>
    ensures { (l r : DataType) → l.shape.kind ≡ k → l.shape.figure ≡ u → r.shape.kind ≡ j → r.shape.figure ≡ v → moment_of result l r ≡ string_temporal_coercion l r }
{
    if is_string(k) {
        time_of_string(j, v).map(swapped)
    } else if is_string(j) {
        time_of_string(k, u)
    } else {
        None
    }
}
