//! The merge of two types in lent buffers.

#![tactic(auto)]

pub mod coerce;
mod descent;
pub mod known;
mod lists;
mod structs;
mod wrapped;

ghost use Rattle.std.specs.Prelude.{◌≡◌, not};

use buffers::sides::Sides;
use coercion::Rules;

/// A merge of two types: where they are read from, and the rules.
#[derive(Clone, Copy)]
pub struct Merger<'a> {
    pub sides: Sides<'a>,
    pub rules: Rules,
}

impl<'a> Merger<'a> {
    /// The same with the sides exchanged.
    pub(crate) fn swapped(&self) -> Merger<'a>
        ensures { result ≡ record { sides = record { sheet = self.now.sides.sheet; space = self.now.sides.space; swap = not self.now.sides.swap }; rules = self.now.rules } }
    {
        Merger {
            sides: self.sides.swapped(),
            ..*self
        }
    }
}
