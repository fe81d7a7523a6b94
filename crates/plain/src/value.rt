//! Types without parts, zone or order, by value.

ghost use Rattle.std.specs.Prelude.{◌≡◌, ◌<◌, Some};
ghost use Rattle.sheet.specs.Bounds.{Bounded};
ghost use Rattle.coercion.specs.Answers.{coercion};
ghost use Rattle.plain.specs.Value.{is_plain, plain_type_of, figures_in, Says, Joins};

use crate::step::{Step, plain_step};
use coercion::{Figures, Rules};
use sheet::{Head, kind};

/// A type without parts, zone or order: figures, and bytes 4 to 7 of its record, which are the size
/// of a FixedSizeBinary, and 0 elsewhere.
#[derive(Clone, Copy, PartialEq)]
pub struct PlainType {
    pub kind: u8,
    pub figure: u8,
    pub scale: u8,
    pub size: usize,
}

/// The figures of a type, without its size.
impl From<PlainType> for Figures {
    ghost from_gives = { λ x f. f ≡ figures_in x };

    fn from(x: PlainType) -> Figures {
        Figures {
            kind: x.kind,
            figure: x.figure,
            scale: x.scale,
        }
    }
}

/// A type that has no size.
impl From<Figures> for PlainType {
    ghost from_gives = { λ f x. x ≡ record { kind = f.kind; figure = f.figure; scale = f.scale; size = 0 } };

    fn from(f: Figures) -> PlainType {
        PlainType {
            kind: f.kind,
            figure: f.figure,
            scale: f.scale,
            size: 0,
        }
    }
}

/// Whether a head is that of such a type. The lowest flag is the field's: whether it is nullable.
pub fn is_plain(h: Head) -> bool
    ensures { result ≡ is_plain h }
{
    h.kind < kind::LIST && h.flags < 2
}

/// The type of such a head.
pub fn plain_type_of(h: Head) -> PlainType
    requires { Bounded h }
    ensures { (result ≡ plain_type_of h) × (result.size < 4294967296) }
{
    PlainType {
        kind: h.kind,
        figure: h.figure,
        scale: h.scale,
        size: h.bytes_4_7,
    }
}

// The type that a step says of two such types. As neither has a zone, a Timestamp has none.
fn said_by(step: Step, x: PlainType, y: PlainType) -> PlainType
    requires { (x.size < 4294967296) × (y.size < 4294967296) }
    ensures { Says (Some step) x y (Some result) }
{
    match step {
        Step::Lay(f) => PlainType::from(f),
        Step::Stamp(unit) => PlainType::from(Figures::of_unit(kind::TIMESTAMP, unit)),
        Step::Left => x,
        Step::Right => y,
    }
}

/// The common type of two such types, left then right: what a merge writes of them.
pub fn common_type(rules: Rules, x: PlainType, y: PlainType) -> Option<PlainType>
    requires { (x.size < 4294967296) × (y.size < 4294967296) }
    ensures { Joins (coercion rules) x y result }
{
    if x == y {
        return Some(x);
    }
    let step = plain_step(rules, Figures::from(x), Figures::from(y))?;
    Some(said_by(step, x, y))
}
