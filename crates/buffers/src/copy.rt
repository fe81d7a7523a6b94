//! Copying a chain of the left to the destination.

ghost use Rattle.std.specs.Prelude.{◌≡◌, false, cond, ◌+◌, ◌*◌, ◌/◌, ◌≤◌, ◌<◌};
ghost use Rattle.sheet.specs.Head.{head_at, zoned_in, zone_len};
ghost use Rattle.sheet.specs.Bounds.{Bounded};
ghost use Rattle.buffers.specs.Writes.{side};
ghost use Rattle.buffers.specs.Region.{Room, Inside, Ready, moved_link, moved_label, target_head, CopiedHead, CopiedBare, CopiedRecord, CopiedChain};

use crate::sides::Sides;
use crate::{Failure, Place, Space, Target, Written};
use sheet::Head;
use sheet::write::put_head;

/// A link `x` of records that were copied from number `link` on, where the first now has number
/// `at`; 0 where it leads to none of those behind the first.
pub(crate) fn moved_link(x: usize, link: usize, at: usize) -> usize
    requires { (x < 65536) × (at < 65536) }
    ensures { (result ≡ moved_link x link at) × (result < 65536) }
{
    if link < x && at + (x - link) < 65536 {
        at + (x - link)
    } else {
        0
    }
}

/// The offset of a label of `len` bytes whose place is `o`: an empty one has offset 0.
pub(crate) fn moved_label(o: usize, len: usize) -> usize
    ensures { (result ≡ moved_label o len) × (result ≤ o) }
{
    if len == 0 { 0 } else { o }
}

/// The length of a record's zone in bytes; 0 where it has none.
pub(crate) fn zone_bytes(h: Head) -> usize
    ensures { (result ≡ cond (zoned_in h) (zone_len h) 0) × (result < 256) }
{
    if h.zoned() { h.zone_len() } else { 0 }
}

/// Bytes 4 to 7 of a record whose zone, if it has one, belongs at the offset `label`.
pub(crate) fn moved_quad(h: Head, label: usize) -> usize
    requires { (label < 65536) × Bounded h }
    ensures { (result ≡ cond (zoned_in h) (moved_label label (zone_len h) + 65536 * zone_len h) h.bytes_4_7) × (result < 4294967296) }
{
    if h.zoned() {
        let len = h.zone_len();
        moved_label(label, len) + 65536 * len
    } else {
        h.bytes_4_7
    }
}

fn target_head(h: Head, link: usize, g: Target, next: usize) -> Head
    requires { ((g.at < 65536) × ((g.label + g.name_len < 65536) × (g.name_len ≤ 255))) × ((next < 65536) × Bounded h) }
    ensures { (result ≡ target_head h link g next) × Bounded result }
{
    Head {
        flags: h.flags / 2 * 2 + u8::from(g.nullable),
        bytes_4_7: moved_quad(h, g.label + g.name_len),
        first: moved_link(h.first, link, g.at),
        next,
        name: moved_label(g.label, g.name_len),
        name_len: g.name_len,
        ..h
    }
}

// Copies the head of record `link`, which has no zone, to a target, as the last of its chain: no
// sheet is read, and it cannot fail.
fn copy_bare(work: &mut [u8], space: Space, h: Head, link: usize, g: Target) -> Written
    requires { (Room work.old space × Ready space g) × ((g.at < space.n) × (Bounded h × (zoned_in h ≡ false))) }
    ensures { CopiedBare space work.old work.new h link g result }
{
    put_head(work, space.half + 16 * g.at, target_head(h, link, g, 0));
    Ok(g.past(0))
}

impl Sides<'_> {
    /// Copies the head `h` and the zone of record `link` to a target, with `next` as its next
    /// link; its parts are to stand behind it. `Full` where the zone does not fit.
    pub fn copy_head(
        &self,
        work: &mut [u8],
        h: Head,
        link: usize,
        g: Target,
        next: usize,
    ) -> Written
        requires { (Room work.old self.now.space × Ready self.now.space g) × ((g.at < self.now.space.n) × ((next < 65536) × Bounded h)) }
        ensures { CopiedHead self.now.space (side self.now.swap self.now.sheet.now work.old) work.old work.new h link g next result }
    {
        let space = self.space;
        let label = g.label + g.name_len;
        let zlen = zone_bytes(h);
        if space.m < label + zlen {
            return Err(Failure::Full);
        }
        self.put_label(
            work,
            16 * space.n + h.zone_at(),
            zlen,
            space.half + 16 * space.n + label,
        );
        put_head(work, space.half + 16 * g.at, target_head(h, link, g, next));
        Ok(g.past(zlen))
    }

    /// `copy_head` for the last record of its chain. Of a record without a zone, as that of a
    /// wrapper, the head alone is written.
    pub fn copy_parent(&self, work: &mut [u8], h: Head, link: usize, g: Target) -> Written
        requires { (Room work.old self.now.space × Ready self.now.space g) × ((g.at < self.now.space.n) × Bounded h) }
        ensures { CopiedHead self.now.space (side self.now.swap self.now.sheet.now work.old) work.old work.new h link g 0 result }
    {
        if h.zoned() {
            return self.copy_head(work, h, link, g, 0);
        }
        copy_bare(work, self.space, h, link, g)
    }

    // Copies record `link`, with its labels, and without its parts.
    fn copy_record(&self, work: &mut [u8], h: Head, link: usize, to: Place) -> Written
        requires room { (Room work.old self.now.space × Inside self.now.space to) × ((to.at < self.now.space.n) × Bounded h) }
        requires read { h ≡ head_at (side self.now.swap self.now.sheet.now work.old) link }
        ensures { CopiedRecord self.now.space (side self.now.swap self.now.sheet.now work.old) work.old work.new link to result }
    {
        let g = self.name_target(work, h, h.nullable(), to)?;
        let next = moved_link(h.next, link, to.at);
        self.copy_head(work, h, link, g, next)
    }

    /// Copies the chain that a link leads to. Where nothing follows a record, its parts are
    /// what is left, so that a chain of last fields costs no recursion.
    pub(crate) fn copy_fields(&self, work: &mut [u8], start: usize, to: Place) -> Written
        requires { Room work.old self.now.space × Inside self.now.space to }
        ensures { CopiedChain self.now.space (side self.now.swap self.now.sheet.now work.old) work.old work.new start to result }
    {
        let mut link = start;
        let mut place = to;
        while link != 0 {
            if self.space.n <= place.at {
                return Err(Failure::Full);
            }
            let h = self.head(&*work, link);
            place = self.copy_record(work, h, link, place)?;
            if h.next == 0 {
                link = h.first;
                continue;
            }
            link = h.next;
            if h.first == 0 {
                continue;
            }
            place = self.copy_fields(work, h.first, place)?;
        }
        Ok(place)
    }
}
