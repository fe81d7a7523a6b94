//! The four widths of a decimal and their precision caps.
ghost use Rattle.std.specs.Prelude.{◌≡◌, ◌≤◌};
ghost use Rattle.sheet.specs.Kind.{cap};
ghost use Rattle.sheet.specs.Caps.{cap_of, width_of};

use crate::kind;

/// A decimal's width, by its bits.
#[derive(Clone, Copy)]
pub enum Width {
    /// Decimal32, kind 14.
    W32,
    /// Decimal64, kind 15.
    W64,
    /// Decimal128, kind 16.
    W128,
    /// Decimal256, kind 17.
    W256,
}

impl Width {
    /// The greatest precision of a Decimal32.
    pub const CAP32: usize = 9;

    /// The greatest precision of a Decimal64.
    pub const CAP64: usize = 18;

    /// The greatest precision of a Decimal128.
    pub const CAP128: usize = 38;

    /// The greatest precision of a Decimal256.
    pub const CAP256: usize = 76;

    /// The greatest precision of a width.
    pub fn cap(w: Width) -> usize
        ensures { result ≡ cap_of w }
    {
        match w {
            Width::W32 => Width::CAP32,
            Width::W64 => Width::CAP64,
            Width::W128 => Width::CAP128,
            Width::W256 => Width::CAP256,
        }
    }

    /// The width of a decimal's kind, 14 to 17; W256 for any other byte.
    pub fn of_kind(k: u8) -> Width
        ensures { result ≡ width_of k }
    {
        match k {
            kind::DECIMAL32 => Width::W32,
            kind::DECIMAL64 => Width::W64,
            kind::DECIMAL128 => Width::W128,
            _ => Width::W256,
        }
    }
}

/// The greatest precision of a decimal's kind, 14 to 17; 76 for any other byte.
#[tactic(auto, using(std::proofs::lemmas::Bool::Decides::nat_tests), unfolding(crate::specs::Kind::cap))]
pub fn precision_cap(k: u8) -> usize
    ensures { (result ≡ cap k) × (result ≤ 76) }
{
    Width::cap(Width::of_kind(k))
}
