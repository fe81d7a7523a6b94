//! Writing the fields of a chain, one by one.

ghost use Rattle.std.specs.Prelude.{◌≡◌, cond, ◌+◌, ◌≤◌, ◌<◌, eqb, Ok, Err};
ghost use Rattle.buffers.specs.declared.Failure.{Failure};
ghost use Rattle.sheet.specs.Bounds.{Bounded};
ghost use Rattle.buffers.specs.Writes.{side};
ghost use Rattle.buffers.specs.Region.{Room, Inside};
ghost use Rattle.buffers.specs.Typed.{NamedAt, NamedTarget, CopiedField};

use crate::sides::Sides;
use crate::{Failure, Place, Space, Target, Written};
use sheet::Head;

/// The link of record `at` to its parts, which stand behind it, where the chain at `link` is not
/// empty; else 0.
pub fn first_link(at: usize, link: usize) -> usize
    requires { at < 65535 }
    ensures { (result ≡ cond (eqb link 0) 0 (at + 1)) × (result < 65536) }
{
    if link == 0 { 0 } else { at + 1 }
}

/// The link to the rows from one place up to another; 0 where there are none.
pub fn next_link(d: Place, e: Place) -> usize
    ensures { (result ≡ cond (eqb d.at e.at) 0 d.at) × (result ≤ d.at) }
{
    if d.at == e.at { 0 } else { d.at }
}

/// The place where the left chain ends, and where that of the right must end too: `NoType` where a
/// field `p` of it is left.
pub fn row_end(p: usize, to: Place) -> Written
    ensures { result ≡ cond (eqb p 0) (Ok to) (Err Failure.NoType) }
{
    if p == 0 { Ok(to) } else { Err(Failure::NoType) }
}

impl Sides<'_> {
    /// Writes the name of a record, whose head is `h`, at a place, and says whether there was
    /// room for it.
    pub fn name_field(&self, work: &mut [u8], h: Head, to: Place) -> bool
        requires { Room work.old self.now.space × (Inside self.now.space to × Bounded h) }
        ensures { NamedAt self.now.space (side self.now.swap self.now.sheet.now work.old) work.old work.new h to result }
    {
        let space = self.space;
        if space.m < to.label + h.name_len {
            return false;
        }
        self.put_label(
            work,
            16 * space.n + h.name,
            h.name_len,
            space.half + 16 * space.n + to.label,
        );
        true
    }

    /// The same, and the target of a field there; `Full` where there is no room for the name.
    pub fn name_target(
        &self,
        work: &mut [u8],
        h: Head,
        nullable: bool,
        to: Place,
    ) -> Result<Target, Failure>
        requires { Room work.old self.now.space × (Inside self.now.space to × Bounded h) }
        ensures { NamedTarget self.now.space (side self.now.swap self.now.sheet.now work.old) work.old work.new h nullable to result }
    {
        if self.name_field(work, h, to) {
            Ok(to.target(h.name_len, nullable))
        } else {
            Err(Failure::Full)
        }
    }

    /// Copies the field at a link, without those behind it. `Full` where it does not fit.
    pub fn copy_field(&self, work: &mut [u8], link: usize, to: Place) -> Written
        requires { Room work.old self.now.space × Inside self.now.space to }
        ensures { CopiedField self.now.space (side self.now.swap self.now.sheet.now work.old) work.old work.new link to result }
    {
        let h = self.head(&*work, link);
        let g = self.name_target(work, h, h.nullable(), to)?;
        self.copy_type(work, link, g)
    }
}
