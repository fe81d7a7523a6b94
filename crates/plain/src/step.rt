//! The rules for types without parts, from their figures.

ghost use Rattle.std.specs.Prelude.{◌≡◌, ◌<◌};
ghost use Rattle.coercion.specs.Data.{DataType, figures_of, as_type};
ghost use Rattle.coercion.specs.Numbers.{binary_numeric_coercion};
ghost use Rattle.coercion.specs.Times.{temporal_coercion_nonstrict_timezone};
ghost use Rattle.coercion.specs.Rules.{null_coercion};
ghost use Rattle.coercion.specs.Answers.{of_kind_type, string_number};
ghost use Rattle.coercion.specs.Meaning.{side_of, moment_of};
ghost use Rattle.plain.specs.Plain.{string_time, plain_rules};
ghost use Rattle.plain.specs.Steps.{Reads, Figured, step_of, KeepsZone};

use crate::numbers::binary_numeric_coercion;
use crate::sides::{
    null_coercion, string_numeric_coercion, string_numeric_union_coercion, string_temporal_coercion,
};
use crate::strings::{binary_coercion, string_coercion};
use crate::times::{NANOSECOND, temporal_coercion, timeunit_coercion};
use coercion::{Figures, Moment, Question, Rules, Side};
use sheet::Head;
use sheet::kind::{self, is_numeric, is_string, within};

/// What a rule for types without parts says of two types.
#[derive(Clone, Copy)]
pub enum Step {
    /// A type of these figures.
    Lay(Figures),
    /// A Timestamp of this unit, with the left's zone if it has one, else the right's.
    Stamp(u8),
    /// The left type.
    Left,
    /// The right type.
    Right,
}

fn of_common(c: Option<Figures>) -> Option<Step>
    ensures { (l r : DataType) → step_of result l r ≡ as_type c }
{
    c.map(Step::Lay)
}

fn of_found(f: Option<u8>) -> Option<Step>
    ensures { (l r : DataType) → step_of result l r ≡ of_kind_type f }
{
    f.map(|kind| Step::Lay(Figures::of_kind(kind)))
}

fn of_side(s: Option<Side>) -> Option<Step>
    ensures { (l r : DataType) → step_of result l r ≡ side_of s l r }
{
    s.map(|side| match side {
        Side::Left => Step::Left,
        Side::Right => Step::Right,
    })
}

// A Timestamp that a string becomes keeps its zone, and the string has none.
fn of_moment(m: Option<Moment>) -> Option<Step>
    ensures { (l r : DataType) → KeepsZone l r (moment_of m l r) → step_of result l r ≡ moment_of m l r }
{
    m.map(|moment| match moment {
        Moment::Left => Step::Left,
        Moment::Right => Step::Right,
        Moment::LeftNanoseconds | Moment::RightNanoseconds => Step::Stamp(NANOSECOND),
    })
}

fn numeric(x: Figures, y: Figures) -> Option<Step>
    ensures { (l r : DataType) → Figured x l → Figured y r → step_of result l r ≡ as_type (binary_numeric_coercion (figures_of l) (figures_of r)) }
{
    of_common(binary_numeric_coercion(x, y))
}

fn temporal(x: Figures, y: Figures) -> Option<Step>
    ensures { (l r : DataType) → Figured x l → Figured y r → step_of result l r ≡ temporal_coercion_nonstrict_timezone l r }
{
    if x.kind == kind::TIMESTAMP && y.kind == kind::TIMESTAMP {
        return Some(Step::Stamp(timeunit_coercion(x.figure, y.figure)));
    }
    of_common(temporal_coercion(x.kind, y.kind))
}

fn null(mask: u64, x: Figures, y: Figures) -> Option<Step>
    ensures { (l r : DataType) → Figured x l → Figured y r → step_of result l r ≡ null_coercion mask l r }
{
    if x.kind >= 64 || y.kind >= 64 {
        return None;
    }
    of_side(null_coercion(mask, x.kind, y.kind))
}

fn string_number(rules: Rules, x: Figures, y: Figures) -> Option<Step>
    ensures { (l r : DataType) → Figured x l → Figured y r → step_of result l r ≡ string_number rules.question l r }
{
    match rules.question {
        Question::List | Question::Compare => of_side(string_numeric_coercion(x.kind, y.kind)),
        Question::Union => of_side(string_numeric_union_coercion(x.kind, y.kind)),
    }
}

fn string_time(rules: Rules, x: Figures, y: Figures) -> Option<Step>
    ensures { (l r : DataType) → Figured x l → Figured y r → step_of result l r ≡ string_time rules.question l r }
{
    if rules.is_list_question() {
        return None;
    }
    of_moment(string_temporal_coercion(x.kind, x.figure, y.kind, y.figure))
}

/// What the rules for types without parts say of two types of these figures. Of two kinds one rule
/// at most says a type (`laws::picked_rule`), so the tests find that rule and the others are not
/// asked.
pub fn plain_step(rules: Rules, x: Figures, y: Figures) -> Option<Step>
    ensures { (l r : DataType) → Figured x l → Figured y r → step_of result l r ≡ plain_rules rules l r }
{
    let k = x.kind;
    let j = y.kind;
    let n = is_numeric(k);
    let m = is_numeric(j);
    if n && m {
        return numeric(x, y);
    }
    if k == kind::NULL || j == kind::NULL {
        return null(rules.mask, x, y);
    }
    let s = is_string(k);
    let t = is_string(j);
    if s && t {
        return of_found(string_coercion(k, j));
    }
    let worded = s || t;
    if worded && (n || m) {
        return string_number(rules, x, y);
    }
    let timed = within(kind::DATE32, kind::DURATION, k) || within(kind::DATE32, kind::DURATION, j);
    if worded && timed {
        return string_time(rules, x, y);
    }
    if timed {
        return temporal(x, y);
    }
    of_found(binary_coercion(k, j))
}

fn figures(h: Head) -> Figures
    ensures { result ≡ record { kind = h.kind; figure = h.figure; scale = h.scale } }
{
    Figures {
        kind: h.kind,
        figure: h.figure,
        scale: h.scale,
    }
}

/// The same, from the heads of two records.
pub fn plain_heads(rules: Rules, x: Head, y: Head) -> Option<Step>
    ensures { (l r : DataType) → Reads x l → Reads y r → step_of result l r ≡ plain_rules rules l r }
{
    plain_step(rules, figures(x), figures(y))
}
