//! Copying records that stand one behind the other: their heads at once, then what differs in
//! each head, and their labels at once.

ghost use Rattle.std.specs.Prelude.{◌≡◌, not, eqb, ◌&&◌, ◌+◌, ◌-◌, ◌≤◌, ◌<◌};
ghost use Rattle.sheet.specs.Head.{zoned_in};
ghost use Rattle.sheet.specs.Bounds.{Bounded};
ghost use Rattle.buffers.specs.Writes.{side};
ghost use Rattle.buffers.specs.Region.{Room, Inside, region};
ghost use Rattle.buffers.specs.Span.{relinked, relabelled, MovedHeads, LabelsBegin, CopiedSpan};

use crate::copy::{moved_label, moved_link, moved_quad, zone_bytes};
use crate::sides::Sides;
use crate::{Failure, Place, Space, Written};
use sheet::Head;
use sheet::record::head_from;
use sheet::write::put_head;

// A head whose links are moved, from number link to number at.
fn relinked(h: Head, link: usize, at: usize) -> Head
    requires { (at < 65536) × Bounded h }
    ensures { (result ≡ relinked h link at) × Bounded result }
{
    Head {
        first: moved_link(h.first, link, at),
        next: moved_link(h.next, link, at),
        ..h
    }
}

// The head of a record whose labels belong at a place.
fn relabelled(h: Head, label: usize) -> Head
    requires { (label + h.name_len < 65536) × Bounded h }
    ensures { (result ≡ relabelled h label) × Bounded result }
{
    Head {
        bytes_4_7: moved_quad(h, label + h.name_len),
        name: moved_label(label, h.name_len),
        ..h
    }
}

// Whether a record has neither a name nor a zone.
fn is_unlabelled(h: Head) -> bool
    ensures { result ≡ (eqb h.name_len 0 && not (zoned_in h)) }
{
    h.name_len == 0 && !h.zoned()
}

// Mends heads that were copied from number link on: their links and the places of their labels
// become those of the records where they stand now. Each of the three cases puts its head itself,
// so that no more is computed than what it changes.
fn move_heads(work: &mut [u8], space: Space, link: usize, count: usize, to: Place) -> Written
    requires { Room work.old space × (Inside space to × (to.at + count ≤ space.n)) }
    ensures { MovedHeads space (region space work.old) to.at work.old work.new link count to result }
{
    let mut at = to.at;
    let mut label = to.label;
    while at < to.at + count {
        let h = head_from(&work[space.half..], 16 * at);
        let g = relinked(h, link, to.at);
        if h.zoned() {
            let own = h.name_len + h.zone_len();
            if space.m < label + own {
                return Err(Failure::Full);
            }
            put_head(work, space.half + 16 * at, relabelled(g, label));
            label += own;
            at += 1;
            continue;
        }
        if h.name_len == 0 {
            put_head(work, space.half + 16 * at, g);
            at += 1;
            continue;
        }
        if space.m < label + h.name_len {
            return Err(Failure::Full);
        }
        put_head(work, space.half + 16 * at, Head { name: label, ..g });
        label += h.name_len;
        at += 1;
    }
    Ok(Place { at, label })
}

impl Sides<'_> {
    // Where the labels of the records from number link up to end begin, where there are any;
    // else 0.
    fn labels_from(&self, work: &[u8], link: usize, end: usize) -> usize
        ensures { LabelsBegin (side self.now.swap self.now.sheet.now work.now) link end result }
    {
        let mut at = link;
        while at < end {
            let h = self.head(work, at);
            if h.name_len != 0 {
                return h.name;
            }
            if zone_bytes(h) != 0 {
                return h.zone_at();
            }
            at += 1;
        }
        0
    }

    // What `copy_span` does where there is room for the records, however many they are and whatever
    // labels they have. It is not inlined, so that the frame in the recursion of `merge` stays
    // small.
    #[inline(never)]
    fn copy_items(&self, work: &mut [u8], link: usize, end: usize, to: Place) -> Written
        requires room { Room work.old self.now.space × Inside self.now.space to }
        requires fits { (link < end) × ((end ≤ self.now.space.n) × (to.at + (end - link) ≤ self.now.space.n)) }
        ensures { CopiedSpan self.now.space (side self.now.swap self.now.sheet.now work.old) work.old work.new link end to result }
    {
        let space = self.space;
        let count = end - link;
        self.put_label(work, 16 * link, 16 * count, space.half + 16 * to.at);
        let d = move_heads(work, space, link, count, to)?;
        if d.label == to.label {
            return Ok(d);
        }
        let from = self.labels_from(&*work, link, end);
        self.put_label(
            work,
            16 * space.n + from,
            d.label - to.label,
            space.half + 16 * space.n + to.label,
        );
        Ok(d)
    }

    /// Copies the records from number `link` up to `end`, which stand one behind the other, with
    /// their labels, to a place. Links among them are moved with the records. `Full` where records
    /// or labels do not fit. Most often it is one record without labels, the index of a Dictionary,
    /// of which a head is put and no more: that case is inlined.
    #[inline(always)]
    pub fn copy_span(&self, work: &mut [u8], link: usize, end: usize, to: Place) -> Written
        requires { Room work.old self.now.space × Inside self.now.space to }
        ensures { CopiedSpan self.now.space (side self.now.swap self.now.sheet.now work.old) work.old work.new link end to result }
    {
        if end <= link {
            return Ok(to);
        }
        let space = self.space;
        let count = end - link;
        if space.n < end || space.n < to.at + count {
            return Err(Failure::Full);
        }
        if count == 1 {
            let h = self.head(&*work, link);
            if is_unlabelled(h) {
                put_head(work, space.half + 16 * to.at, relinked(h, link, to.at));
                return Ok(Place {
                    at: to.at + 1,
                    label: to.label,
                });
            }
        }
        self.copy_items(work, link, end, to)
    }
}
