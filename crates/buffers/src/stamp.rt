//! Writing what a rule for types without parts says.

ghost use Rattle.std.specs.Prelude.{◌≡◌, not, length};
ghost use Prim.Native.Nat.{ℕ, ◌≤◌};
ghost use Rattle.sheet.specs.Bounds.{Filled};
ghost use Rattle.sheet.specs.declared.kind.TheConstants as Kind;
ghost use Rattle.buffers.specs.Writes.{side};
ghost use Rattle.buffers.specs.Region.{Room, Ready};
ghost use Rattle.buffers.specs.Target.{LaidZoned};
ghost use Rattle.plain.specs.Plain.{plain_rules};
ghost use Rattle.buffers.specs.Heads.{place_of, either_zone};
ghost use Rattle.plain.specs.Steps.{step_of};
ghost use Rattle.buffers.specs.Typed.{Merges};

use crate::lay::{lay_plain, lay_zoned};
use crate::sides::Sides;
use crate::zone::{ZonePlace, zone_coercion};
use crate::{Failure, Target, Written};
use coercion::{Figures, Rules};
use plain::step::{Step, plain_heads};
use sheet::label::fill;
use sheet::{Head, kind};

// Where the zone of a record stands in a slice of a length: what lies inside, where the slice ends
// before it does.
fn zone_place(h: Head, n: usize, length: usize) -> ZonePlace
    requires { n ≤ 1024 }
    ensures { result ≡ place_of h n length }
{
    let from = (16 * n + h.zone_at()).min(length);
    ZonePlace {
        present: h.zoned(),
        from,
        upto: (from + h.zone_len()).min(length),
    }
}

impl Sides<'_> {
    // Fills a buffer with the zone of two records, the left's if it has one, else the right's, and
    // says how many bytes it has.
    fn zone_into(&self, work: &[u8], x: Head, y: Head, buf: &mut [u8]) -> usize
        requires { (self.now.space.n ≤ 1024) × (length buf.old ≡ 255) }
        ensures { Filled (either_zone (side self.now.swap self.now.sheet.now work.now) (side (not self.now.swap) self.now.sheet.now work.now) self.now.space.n x y) buf.old buf.new result }
    {
        let n = self.space.n;
        let (a, b) = self.slices(work);
        let p = zone_place(x, n, a.len());
        let q = zone_place(y, n, b.len());
        let z = zone_coercion(self.sheet, work, self.swap, p, q);
        fill(z, 0, z.len(), buf)
    }

    // Writes a Timestamp of a unit with the zone of two records of which one has a zone. All of the
    // zone is read before one byte is written.
    fn stamp_zoned(&self, work: &mut [u8], unit: u8, x: Head, y: Head, g: Target) -> Written
        requires { Room work.old self.now.space × Ready self.now.space g }
        ensures { LaidZoned self.now.space work.old work.new g Kind.TIMESTAMP unit (either_zone (side self.now.swap self.now.sheet.now work.old) (side (not self.now.swap) self.now.sheet.now work.old) self.now.space.n x y) result }
    {
        // The zone is held here, as it may stand in what is then written.
        let mut buf = [0u8; 255];
        let k = self.zone_into(&*work, x, y, &mut buf);
        lay_zoned(work, self.space, g, kind::TIMESTAMP, unit, &buf[..k])
    }

    // Writes a Timestamp of a unit with the zone of two types: the left's if it has one, else the
    // right's.
    fn stamp(&self, work: &mut [u8], unit: u8, l: usize, r: usize, g: Target) -> Written
        requires { Room work.old self.now.space × Ready self.now.space g }
        ensures { (left : ℕ) → Merges (step_of (Some (Step.Stamp unit))) self.now.space left self.now.swap self.now.sheet.now work.old work.new l r g result }
    {
        let (x, y) = self.heads(&*work, l, r);
        if x.zoned() || y.zoned() {
            return self.stamp_zoned(work, unit, x, y, g);
        }
        lay_plain(work, self.space, g, Figures::of_unit(kind::TIMESTAMP, unit))
    }

    // Writes what a step says of the types at two links.
    fn lay_step(&self, work: &mut [u8], step: Step, l: usize, r: usize, g: Target) -> Written
        requires { Room work.old self.now.space × Ready self.now.space g }
        ensures { (left : ℕ) → Merges (step_of (Some step)) self.now.space left self.now.swap self.now.sheet.now work.old work.new l r g result }
    {
        match step {
            Step::Lay(f) => lay_plain(work, self.space, g, f),
            Step::Stamp(unit) => self.stamp(work, unit, l, r, g),
            Step::Left => self.copy_type(work, l, g),
            Step::Right => self.swapped().copy_type(work, r, g),
        }
    }

    /// Writes what the rules for types without parts say of the types at `l` and `r`: `NoType`
    /// where they say nothing, `Full` where there is no room for the record or the zone.
    pub fn plain_rule(
        &self,
        work: &mut [u8],
        rules: Rules,
        l: usize,
        r: usize,
        g: Target,
    ) -> Written
        requires { Room work.old self.now.space × Ready self.now.space g }
        ensures { (left : ℕ) → Merges (plain_rules rules) self.now.space left self.now.swap self.now.sheet.now work.old work.new l r g result }
    {
        let (x, y) = self.heads(&*work, l, r);
        let step = plain_heads(rules, x, y).ok_or(Failure::NoType)?;
        self.lay_step(work, step, l, r, g)
    }
}
