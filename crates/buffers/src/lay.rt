//! Writing a type at a target.

ghost use Rattle.std.specs.Prelude.{false, ◌+◌, ◌*◌, ◌≤◌, ◌<◌, length};
ghost use Rattle.buffers.specs.Writes.{side};
ghost use Rattle.buffers.specs.Region.{Room, Ready};
ghost use Rattle.buffers.specs.Target.{Laid, LaidPlain, LaidZoned, CopiedType, Tied, shape_for};

use crate::copy::moved_label;
use crate::sides::Sides;
use crate::{Failure, Shape, Space, Target, Written};
use coercion::Figures;
use sheet::Head;
use sheet::record::head_at;
use sheet::write::{put, put_head};

/// Writes the record of a type without a zone, as the last of its chain, with a link to its parts.
pub fn lay(work: &mut [u8], space: Space, g: Target, shape: Shape, first: usize)
    requires { (Room work.old space × Ready space g) × ((g.at < space.n) × ((shape.size < 4294967296) × (first < 65536))) }
    ensures { Laid space work.old work.new g (shape_for shape.kind shape.figure shape.scale shape.size shape.sorted) first }
{
    put_head(
        work,
        space.half + 16 * g.at,
        Head {
            kind: shape.kind,
            flags: u8::from(g.nullable) + 2 * u8::from(shape.sorted),
            figure: shape.figure,
            scale: shape.scale,
            bytes_4_7: shape.size,
            first,
            next: 0,
            name: moved_label(g.label, g.name_len),
            name_len: g.name_len,
            byte_15: 0,
        },
    )
}

/// Writes a type that has neither parts nor a zone. `Full` where there is no record left.
pub fn lay_plain(work: &mut [u8], space: Space, g: Target, f: Figures) -> Written
    requires { Room work.old space × Ready space g }
    ensures { LaidPlain space work.old work.new g (shape_for f.kind f.figure f.scale 0 false) result }
{
    if space.n <= g.at {
        return Err(Failure::Full);
    }
    lay(work, space, g, Shape::from(f), 0);
    Ok(g.past(0))
}

/// Writes a type that has a zone, which may be empty. `Full` where the record or the zone does not
/// fit.
pub(crate) fn lay_zoned(
    work: &mut [u8],
    space: Space,
    g: Target,
    kind: u8,
    figure: u8,
    zone: &[u8],
) -> Written
    requires { (Room work.old space × Ready space g) × (length zone.now ≤ 255) }
    ensures { LaidZoned space work.old work.new g kind figure zone.now result }
{
    let label = g.label + g.name_len;
    let zlen = zone.len();
    if space.n <= g.at || space.m < label + zlen {
        return Err(Failure::Full);
    }
    put(work, space.half + 16 * space.n + label, zone);
    put_head(
        work,
        space.half + 16 * g.at,
        Head {
            kind,
            flags: u8::from(g.nullable) + 4,
            figure,
            scale: 0,
            bytes_4_7: moved_label(label, zlen) + 65536 * zlen,
            first: 0,
            next: 0,
            name: moved_label(g.label, g.name_len),
            name_len: g.name_len,
            byte_15: 0,
        },
    );
    Ok(g.past(zlen))
}

impl Sides<'_> {
    /// Copies the type at a link to a target, under the target's name and nullability. `Full`
    /// where it does not fit.
    pub fn copy_type(&self, work: &mut [u8], link: usize, g: Target) -> Written
        requires { Room work.old self.now.space × Ready self.now.space g }
        ensures { CopiedType self.now.space (side self.now.swap self.now.sheet.now work.old) work.old work.new link g result }
    {
        if self.space.n <= g.at {
            return Err(Failure::Full);
        }
        let h = self.head(&*work, link);
        let d = self.copy_head(work, h, link, g, 0)?;
        if h.first == 0 {
            return Ok(d);
        }
        self.copy_fields(work, h.first, d)
    }
}

/// Ties record `at` of the destination to the next of its chain, by a link.
pub fn tie(work: &mut [u8], space: Space, at: usize, next: usize)
    requires { Room work.old space × ((at < space.n) × (next < 65536)) }
    ensures { Tied space work.old work.new at next }
{
    let h = head_at(&work[space.half..], at);
    put_head(work, space.half + 16 * at, Head { next, ..h })
}
