//! The merge of two lists, and the record of a type with parts.

ghost use Rattle.std.specs.Prelude.{◌≡◌, ◌+◌, ◌<◌};
ghost use Rattle.sheet.specs.Bounds.{Bounded};
ghost use Rattle.coercion.specs.Answers.{coercion};
ghost use Rattle.buffers.specs.Region.{Room, Ready};
ghost use Rattle.buffers.specs.Target.{shape_for};
ghost use Rattle.rule_order.specs.Order.{list_rule};
ghost use Rattle.merge.specs.Lists.{list_kind, list_size};
ghost use Rattle.merge.specs.Merge.{Tabled, MergesKnown, Under};
ghost use Rattle.coercion.specs.Data.{is_list_question};

use crate::Merger;
use crate::known::Known;
use buffers::field::first_link;
use buffers::lay::lay;
use buffers::{Failure, Place, Shape, Target, Written};
use coercion::Figures;
use partners::{Chains, Feed};
use sheet::{Head, kind};

// The kind of two lists' common list, as `list_coercion` has it: FixedSizeList for two of one
// size, LargeList where one is, else List.
fn list_kind(x: Head, y: Head) -> u8
    ensures { result ≡ list_kind x y }
{
    if x.kind == kind::FIXED_SIZE_LIST && y.kind == kind::FIXED_SIZE_LIST {
        if x.bytes_4_7 == y.bytes_4_7 {
            kind::FIXED_SIZE_LIST
        } else {
            kind::LIST
        }
    } else if x.kind == kind::LARGE_LIST || y.kind == kind::LARGE_LIST {
        kind::LARGE_LIST
    } else {
        kind::LIST
    }
}

// The size of two lists' common list; 0 where it has none.
fn list_size(x: Head, y: Head) -> usize
    requires { Bounded y }
    ensures { (result ≡ list_size x y) × (result < 4294967296) }
{
    if x.kind == kind::FIXED_SIZE_LIST
        && y.kind == kind::FIXED_SIZE_LIST
        && x.bytes_4_7 == y.bytes_4_7
    {
        y.bytes_4_7
    } else {
        0
    }
}

impl Merger<'_> {
    /// `list_coercion`, of two lists.
    #[cycle(merging)]
    pub(crate) fn list_coercion(
        &self,
        work: &mut [u8],
        table: &mut [u32],
        known: &Known,
        l: usize,
        r: usize,
        g: Target,
    ) -> Written
        requires room { Room work.old self.now.sides.space × Ready self.now.sides.space g }
        requires tabled { Tabled self.now.sides.space self.now.sides.sheet.now work.old table.old }
        ensures merges_known { MergesKnown known.now.differs (is_list_question self.now.rules.question) (list_rule (coercion self.now.rules)) self.now.sides.space (known.now.left + 1) self.now.sides.swap self.now.sides.sheet.now work.old work.new l r g result }
        ensures stays_tabled { Tabled self.now.sides.space self.now.sides.sheet.now work.new table.new }
    {
        let (x, y) = self.sides.heads(&*work, l, r);
        let (a, b) = (x.first, y.first);
        let chains = Chains { l: a, r: b, p: b };
        let shape = Shape {
            size: list_size(x, y),
            ..Shape::from(Figures::of_kind(list_kind(x, y)))
        };
        self.under(work, table, known, Feed::Place, shape, &chains, g)
    }

    /// The record of a type with parts, and its parts after it.
    #[cycle(merging)]
    pub(crate) fn under(
        &self,
        work: &mut [u8],
        table: &mut [u32],
        known: &Known,
        feed: Feed,
        shape: Shape,
        chains: &Chains,
        g: Target,
    ) -> Written
        requires room { (Room work.old self.now.sides.space × Ready self.now.sides.space g) × (shape.size < 4294967296) }
        requires tabled { Tabled self.now.sides.space self.now.sides.sheet.now work.old table.old }
        ensures under { Under known.now.differs (is_list_question self.now.rules.question) (coercion self.now.rules) self.now.sides.space known.now.left self.now.sides.swap self.now.sides.sheet.now work.old work.new feed (shape_for shape.kind shape.figure shape.scale shape.size shape.sorted) chains.now.l chains.now.r chains.now.p g result }
        ensures stays_tabled { Tabled self.now.sides.space self.now.sides.sheet.now work.new table.new }
    {
        let at = g.at;
        let label = g.label + g.name_len;
        if self.sides.space.n <= at {
            return Err(Failure::Full);
        }
        lay(work, self.sides.space, g, shape, first_link(at, chains.l));
        let to = Place { at: at + 1, label };
        self.rows(work, table, known, feed, chains, to)
    }
}
