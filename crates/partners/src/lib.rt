//! Which fields of the right feed those of the left: the pairing of two chains by name or by
//! place, and a table of the partners that were found.
//!
//! In each function of this crate `floor` is a record before the left chain, past which alone a
//! link is followed.

#![tactic(auto)]

mod index;
pub mod names;
mod order;
pub mod rows;
mod search;
mod table;

/// Which field of the right gives a field of the left its type, and which joins its nullability.
#[derive(Clone, Copy)]
pub enum Feed {
    /// The field at its place does both.
    Place,
    /// The field at its place gives the type, and the nullability is the left's own.
    Own,
    /// The field of its name does both.
    Name,
    /// The field of its name gives the type, and the one at its place joins the nullability.
    NameThenPlace,
}

/// Two chains of fields, side by side, as far as a walk along them has come.
#[derive(Clone, Copy)]
pub struct Chains {
    /// The next field of the left; 0 for none.
    pub l: usize,
    /// The first field of the right.
    pub r: usize,
    /// The field of the right at the place of `l`; 0 for none.
    pub p: usize,
}

// The buffer of the left chain and that of the right, of n records each.
#[derive(Clone, Copy)]
pub(crate) struct Sources<'a> {
    s: &'a [u8],
    t: &'a [u8],
    n: usize,
}

/// What feeds one row: the record of the right that gives the type, 0 for none; whether the field
/// is nullable; and the record of the right at the place of the next row.
#[derive(Clone, Copy)]
pub struct Row {
    pub partner: usize,
    pub nullable: bool,
    pub next: usize,
}
