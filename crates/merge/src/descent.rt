//! The way down the wrappers of a type to the core that meets another type, and the wrappers
//! that give way to Utf8View.

ghost use Rattle.std.specs.Prelude.{◌≡◌, true, not, cond, eqb};
ghost use Rattle.sheet.specs.Head.{head_at};
ghost use Rattle.sheet.specs.declared.kind.TheConstants as Kind;
ghost use Rattle.buffers.specs.Writes.{side};
ghost use Rattle.buffers.specs.Region.{Room, Inside, Ready};
ghost use Rattle.sheet.specs.Kind.{is_wrapper};
ghost use Rattle.merge.specs.Descent.{passes, run_gives_way, Descended, Stops, NamedView, PlacedView, Settled};

use crate::Merger;
use buffers::lay::lay_plain;
use buffers::{Place, Space, Target, Written};
use coercion::Figures;
use sheet::kind;
use sheet::record::head_at;

/// The way down from a wrapper: the record of its first part; that of the core at which the
/// wrappers end that are passed; and that at which the run of Dictionaries about the core begins,
/// which is the core itself where there is none.
#[derive(Clone, Copy)]
pub struct Descent {
    pub first: usize,
    pub core: usize,
    pub run: usize,
}

/// Whether a wrapper of kind `k` that meets a type of kind `j` comes to the rule for one wrapper of
/// its kind.
pub(crate) fn passes(k: u8, j: u8) -> bool
    ensures { result ≡ passes k j }
{
    (k == kind::DICTIONARY && j != kind::DICTIONARY)
        || (k == kind::RUN_END_ENCODED && j < kind::DICTIONARY)
}

// Where the run of Dictionaries begins, after a wrapper of kind k about the value at a record.
fn run_after(k: u8, value: usize, run: usize) -> usize
    ensures { result ≡ cond (eqb k Kind.RUN_END_ENCODED) value run }
{
    if k == kind::RUN_END_ENCODED {
        value
    } else {
        run
    }
}

// Walks down from the wrapper of kind k at record l, towards a type of kind j. A link is followed
// only upward. It is not inlined, nor is `place_view`, so that the frame in the recursion stays
// small.
#[inline(never)]
fn walk_down(s: &[u8], space: Space, k: u8, j: u8, l: usize) -> Descent
    requires { is_wrapper k ≡ true }
    ensures descended { Descended space s.now k j l result }
    ensures stops { Stops space s.now k j l result }
{
    let first = head_at(s, l).first;
    let mut at = head_at(s, first).next;
    let mut run = run_after(k, at, l);
    while at < space.n {
        let h = head_at(s, at);
        if !passes(h.kind, j) {
            return Descent {
                first,
                core: at,
                run,
            };
        }
        let value = head_at(s, h.first).next;
        if value <= at {
            return Descent {
                first,
                core: at,
                run,
            };
        }
        run = run_after(h.kind, value, run);
        at = value;
    }
    Descent {
        first,
        core: at,
        run,
    }
}

// Whether a run of Dictionaries stands about Utf8View, which was written at record i.
fn run_gives_way(work: &[u8], space: Space, descent: Descent, i: usize) -> bool
    requires { Room work.now space }
    ensures { result ≡ run_gives_way space work.now descent i }
{
    descent.run != descent.core && head_at(&work[space.half..], i).kind == kind::UTF8_VIEW
}

impl<'a> Merger<'a> {
    /// The way down from the wrapper of a kind at a link towards a type of the other side.
    pub(crate) fn descend(&self, work: &[u8], kind: u8, l: usize, r: usize) -> Descent
        requires { is_wrapper kind ≡ true }
        ensures descended { Descended self.now.sides.space (side self.now.sides.swap self.now.sides.sheet.now work.now) kind (head_at (side (not self.now.sides.swap) self.now.sides.sheet.now work.now) r).kind l result }
        ensures stops { Stops self.now.sides.space (side self.now.sides.swap self.now.sides.sheet.now work.now) kind (head_at (side (not self.now.sides.swap) self.now.sides.sheet.now work.now) r).kind l result }
    {
        let j = self.sides.right_head(work, r).kind;
        let s = self.sides.slices(work).0;
        walk_down(s, self.sides.space, kind, j, l)
    }

    // Utf8View under the name and nullability of a record.
    fn named_view(&self, work: &mut [u8], link: usize, to: Place) -> Written
        requires { Room work.old self.now.sides.space × Inside self.now.sides.space to }
        ensures { NamedView self.now.sides.space (side self.now.sides.swap self.now.sides.sheet.now work.old) work.old work.new link to result }
    {
        let h = self.sides.head(&*work, link);
        let g = self.sides.name_target(work, h, h.nullable(), to)?;
        lay_plain(work, self.sides.space, g, Figures::of_kind(kind::UTF8_VIEW))
    }

    // The parts of a wrapper, the first of which is record r, with Utf8View in the place of record
    // i.
    #[inline(never)]
    fn place_view(&self, work: &mut [u8], r: usize, i: usize, to: Place) -> Written
        requires { Room work.old self.now.sides.space × Inside self.now.sides.space to }
        ensures { PlacedView self.now.sides.space (side self.now.sides.swap self.now.sides.sheet.now work.old) work.old work.new r i to result }
    {
        let d = self.sides.copy_span(work, r, i, to)?;
        self.named_view(work, i, d)
    }

    /// A wrapper that was written at `g`, its parts from `a` up to `e`, about a core at record `i`.
    /// Dictionaries directly about Utf8View give way to it.
    pub(crate) fn drop_redundant_dictionaries(
        &self,
        work: &mut [u8],
        descent: Descent,
        a: Place,
        g: Target,
        i: usize,
        e: Place,
    ) -> Written
        requires { Room work.old self.now.sides.space × (Inside self.now.sides.space a × Ready self.now.sides.space g) }
        ensures { Settled self.now.sides.space (side self.now.sides.swap self.now.sides.sheet.now work.old) work.old work.new descent a g i e result }
    {
        if !run_gives_way(&*work, self.sides.space, descent, i) {
            return Ok(e);
        }
        if descent.run < descent.first {
            return lay_plain(work, self.sides.space, g, Figures::of_kind(kind::UTF8_VIEW));
        }
        self.place_view(work, descent.first, descent.run, a)
    }
}
