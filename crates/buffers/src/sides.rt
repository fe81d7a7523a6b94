//! Where two types are read from, the left and the right.

ghost use Rattle.std.specs.Prelude.{◌≡◌, not};
ghost use Rattle.sheet.specs.Head.{head_at};
ghost use Rattle.sheet.specs.Bounds.{Bounded};
ghost use Rattle.buffers.specs.Writes.{side};

use crate::Space;
use sheet::Head;
use sheet::record::head_at;

/// Where two types are read from: one in a sheet, the other in the first half of a work space,
/// which each method is lent. A method that names no side is about the left.
#[derive(Clone, Copy)]
pub struct Sides<'a> {
    /// The bytes of the sheet.
    pub sheet: &'a [u8],
    /// The sizes of the sheet and of the work space.
    pub space: Space,
    /// Whether the left is the one in the work space.
    pub swap: bool,
}

impl<'a> Sides<'a> {
    /// The same with the sides exchanged.
    pub fn swapped(&self) -> Sides<'a>
        ensures { result ≡ record { sheet = self.now.sheet; space = self.now.space; swap = not self.now.swap } }
    {
        Sides {
            swap: !self.swap,
            ..*self
        }
    }

    /// The buffer that the left is read from, and the right's.
    pub fn slices<'w>(&'w self, work: &'w [u8]) -> (&'w [u8], &'w [u8])
        ensures { (result.0.now ≡ side self.now.swap self.now.sheet.now work.now) × (result.1.now ≡ side (not self.now.swap) self.now.sheet.now work.now) }
    {
        if self.swap {
            (work, self.sheet)
        } else {
            (self.sheet, work)
        }
    }

    /// The head of record `l`; zeros past the end of the buffer.
    pub fn head(&self, work: &[u8], l: usize) -> Head
        ensures { (result ≡ head_at (side self.now.swap self.now.sheet.now work.now) l) × Bounded result }
    {
        head_at(self.slices(work).0, l)
    }

    /// The head of record `r` of the right.
    pub fn right_head(&self, work: &[u8], r: usize) -> Head
        ensures { (result ≡ head_at (side (not self.now.swap) self.now.sheet.now work.now) r) × Bounded result }
    {
        head_at(self.slices(work).1, r)
    }

    /// The heads of two records, one of each side.
    pub fn heads(&self, work: &[u8], l: usize, r: usize) -> (Head, Head)
        ensures left { (result.0 ≡ head_at (side self.now.swap self.now.sheet.now work.now) l) × Bounded result.0 }
        ensures right { (result.1 ≡ head_at (side (not self.now.swap) self.now.sheet.now work.now) r) × Bounded result.1 }
    {
        let x = self.head(work, l);
        (x, self.right_head(work, r))
    }

    /// The kind of record `l`.
    pub fn kind(&self, work: &[u8], l: usize) -> u8
        ensures { result ≡ (head_at (side self.now.swap self.now.sheet.now work.now) l).kind }
    {
        self.head(work, l).kind
    }

    /// The kinds of two records, one of each side.
    pub fn kinds(&self, work: &[u8], l: usize, r: usize) -> (u8, u8)
        ensures left { result.0 ≡ (head_at (side self.now.swap self.now.sheet.now work.now) l).kind }
        ensures right { result.1 ≡ (head_at (side (not self.now.swap) self.now.sheet.now work.now) r).kind }
    {
        let k = self.kind(work, l);
        (k, self.right_head(work, r).kind)
    }

    /// The record of the second part of record `l`: a wrapper's value.
    pub fn value(&self, work: &[u8], l: usize) -> usize
        ensures { result ≡ (head_at (side self.now.swap self.now.sheet.now work.now) (head_at (side self.now.swap self.now.sheet.now work.now) l).first).next }
    {
        let first = self.head(work, l).first;
        self.head(work, first).next
    }

    /// The same of record `r` of the right.
    pub fn right_value(&self, work: &[u8], r: usize) -> usize
        ensures { result ≡ (head_at (side (not self.now.swap) self.now.sheet.now work.now) (head_at (side (not self.now.swap) self.now.sheet.now work.now) r).first).next }
    {
        let first = self.right_head(work, r).first;
        self.right_head(work, first).next
    }
}
