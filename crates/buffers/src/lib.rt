//! Types in lent buffers: whether two are the same, how one is copied or written, and the rules
//! for types without parts.
//!
//! The functions of this crate and of those above it share their parameters. `work` is the work
//! space, whose first half may be read and whose second half is the destination; `space` has the
//! sizes of a sheet and of the work space; and `Sides` says where two types are read from. A link
//! is the number of a record, and 0 leads nowhere. A kind is byte 0 of a record: any byte is
//! taken, and one that is no kind has no rule.

#![tactic(auto)]

ghost use Rattle.std.specs.Prelude.{◌≡◌, false, ◌+◌, ◌<◌};
ghost use Rattle.buffers.specs.Target.{past};
ghost use Rattle.buffers.specs.Typed.{target_at};

pub mod alike;
pub mod copy;
pub mod field;
pub mod laws;
pub mod lay;
pub mod sides;
pub mod span;
pub mod stamp;
mod write;
mod zone;

use coercion::Figures;
use plain::value::PlainType;

/// The sizes that all functions share: `n` records of the sheet, its header among them; `m` label
/// bytes; and `half`, the bytes of half of the work space, as many as the sheet has.
#[derive(Clone, Copy)]
pub struct Space {
    pub n: usize,
    pub m: usize,
    pub half: usize,
}

/// A place in the destination: the number of the next record, and the offset of the next label
/// among the label bytes.
#[derive(Clone, Copy)]
pub struct Place {
    pub at: usize,
    pub label: usize,
}

/// Why nothing was written.
#[derive(Clone, Copy)]
pub enum Failure {
    /// There is no common type.
    NoType,
    /// There is no room for records or labels; no accepted sheet comes to it.
    Full,
}

/// The place behind what was written. After an `Err` the destination is left free from the place on
/// that the function was given.
pub type Written = Result<Place, Failure>;

/// A place in the destination for a type under a name: its record, and its labels, of which the
/// first `name_len` bytes are the name and stand there already.
#[derive(Clone, Copy)]
pub struct Target {
    pub at: usize,
    pub label: usize,
    pub name_len: usize,
    pub nullable: bool,
}

impl Place {
    /// The target of a field at this place, under a name of `name_len` bytes.
    pub fn target(self, name_len: usize, nullable: bool) -> Target
        ensures { result ≡ target_at self name_len nullable }
    {
        Target {
            at: self.at,
            label: self.label,
            name_len,
            nullable,
        }
    }
}

impl Target {
    /// The place past its record and its labels, the last `zlen` bytes of which are a zone.
    pub(crate) fn past(self, zlen: usize) -> Place
        requires { (self.at < 65536) × (self.label + self.name_len + zlen < 65536) }
        ensures { result ≡ past self zlen }
    {
        Place {
            at: self.at + 1,
            label: self.label + self.name_len + zlen,
        }
    }
}

/// A type without its parts and its zone: figures, and what else its record says. The size is that
/// of a FixedSizeBinary or FixedSizeList, and 0 elsewhere; a Map may be sorted.
#[derive(Clone, Copy)]
pub struct Shape {
    pub kind: u8,
    pub figure: u8,
    pub scale: u8,
    pub size: usize,
    pub sorted: bool,
}

/// The shape of a type that has only figures.
impl From<Figures> for Shape {
    ghost from_gives = { λ f s. s ≡ record { kind = f.kind; figure = f.figure; scale = f.scale; size = 0; sorted = false } };

    fn from(f: Figures) -> Shape {
        Shape::from(PlainType::from(f))
    }
}

/// The shape of a type, which is not sorted.
impl From<PlainType> for Shape {
    ghost from_gives = { λ x s. s ≡ record { kind = x.kind; figure = x.figure; scale = x.scale; size = x.size; sorted = false } };

    fn from(x: PlainType) -> Shape {
        Shape {
            kind: x.kind,
            figure: x.figure,
            scale: x.scale,
            size: x.size,
            sorted: false,
        }
    }
}
