//! What is asked of types, and the types that the plain rules of the source take and give. The rules themselves stand
//! in crates of their own, their definitions in specs/. A kind is the byte of a record, and every function here takes
//! any byte.
#![tactic(auto)]

pub mod laws;

ghost use Rattle.std.specs.Prelude.{◌≡◌};
ghost use Rattle.coercion.specs.Data.{of_kind, of_unit, for_list, is_list_question};

use std::fmt;

/// What is asked of listed types.
#[derive(Clone, Copy)]
pub enum Question {
    /// `type_union_resolution`, of any number of types.
    List,
    /// `type_union_coercion`, of two types.
    Union,
    /// `comparison_coercion`, of two types.
    Compare,
}

/// Writes `list`, `union` or `compare`.
impl fmt::Display for Question {
    fn fmt<W: fmt::Write>(&self, f: &mut fmt::Formatter<W>) -> fmt::Result {
        f.write_str(match self {
            Question::List => "list",
            Question::Union => "union",
            Question::Compare => "compare",
        })
    }
}

/// What decides a common type besides the types themselves. It is handed down to every part of a type.
#[derive(Clone, Copy)]
pub struct Rules {
    /// What is asked.
    pub question: Question,
    /// Bit k is set where Null may become kind k.
    pub mask: u64,
}

impl Rules {
    /// Whether the question is a list's: then names are compared, and strings become no times.
    pub fn is_list_question(self) -> bool
        ensures { result ≡ is_list_question self.question }
    {
        matches!(self.question, Question::List)
    }

    /// The same choices for a list.
    pub fn for_list(self) -> Rules
        ensures { result ≡ for_list self }
    {
        Rules {
            question: Question::List,
            ..self
        }
    }
}

/// What the rules for types without parts look at, as a record stores it.
#[derive(Clone, Copy, PartialEq)]
pub struct Figures {
    /// The kind, 1 to 38 in an accepted sheet.
    pub kind: u8,
    /// A decimal's precision, or a unit from 0, the coarsest, on; 0 for kinds with neither.
    pub figure: u8,
    /// A decimal's scale, the byte of a signed number of 8 bits.
    pub scale: u8,
}

impl Figures {
    /// The figures of a kind that has no precision, unit or scale.
    pub fn of_kind(kind: u8) -> Figures
        ensures { result ≡ of_kind kind }
    {
        Figures::of_unit(kind, 0)
    }

    /// The figures of a kind that has a unit.
    pub fn of_unit(kind: u8, unit: u8) -> Figures
        ensures { result ≡ of_unit kind unit }
    {
        Figures {
            kind,
            figure: unit,
            scale: 0,
        }
    }
}

/// Which of two types is their common type.
#[derive(Clone, Copy)]
pub enum Side {
    Left,
    Right,
}

/// What a string and a time become: one of the two as it is, or a Timestamp in nanoseconds with the zone of one.
#[derive(Clone, Copy)]
pub enum Moment {
    Left,
    Right,
    LeftNanoseconds,
    RightNanoseconds,
}
