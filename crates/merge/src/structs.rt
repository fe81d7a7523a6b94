//! The merge of two Structs and of two Maps, and the rows of fields that both come to.

ghost use Rattle.std.specs.Prelude.{◌≡◌, not, ◌+◌, ◌≤◌, ◌&&◌};
ghost use Rattle.coercion.specs.Answers.{coercion, list_struct};
ghost use Rattle.coercion.specs.Nested.{struct_coercion};
ghost use Rattle.sheet.specs.Head.{head_at, sorted_in};
ghost use Rattle.sheet.specs.declared.kind.TheConstants as Kind;
ghost use Rattle.buffers.specs.Writes.{side};
ghost use Rattle.buffers.specs.Region.{Room, Inside, Ready};
ghost use Rattle.rule_order.specs.Order.{map_rule};
ghost use Rattle.partners.specs.Naming.{StructsFed};
ghost use Rattle.merge.specs.Known.{known_names};
ghost use Rattle.merge.specs.Merge.{Tabled, MergesKnown, MergesField, Rowed};
ghost use Rattle.coercion.specs.Data.{is_list_question};

use crate::Merger;
use crate::known::{Known, row_known};
use buffers::field::{next_link, row_end};
use buffers::lay::{lay, tie};
use buffers::{Failure, Place, Shape, Target, Written};
use coercion::Figures;
use partners::names::{same_arity, struct_feed};
use partners::rows::row;
use partners::{Chains, Feed};
use sheet::{Head, kind};

// Whether the entries of two maps are sorted.
fn are_sorted(x: Head, y: Head) -> bool
    ensures { result ≡ (sorted_in x && sorted_in y) }
{
    x.sorted() && y.sorted()
}

impl Merger<'_> {
    // What feeds the fields of two Structs at their links: the fields at their places where names
    // stand in one order, and by_name where they are the same.
    fn struct_feed(
        &self,
        work: &[u8],
        table: &mut [u32],
        differs: Option<usize>,
        by_name: Feed,
        floor: usize,
        l: usize,
        r: usize,
    ) -> Option<Feed>
        requires few { self.now.sides.space.n ≤ 1024 }
        requires tabled { Tabled self.now.sides.space self.now.sides.sheet.now work.now table.old }
        ensures struct_fed { StructsFed (known_names (is_list_question self.now.rules.question) differs) by_name self.now.sides.space (side self.now.sides.swap self.now.sides.sheet.now work.now) (side (not self.now.sides.swap) self.now.sides.sheet.now work.now) floor l r result }
        ensures stays_tabled { Tabled self.now.sides.space self.now.sides.sheet.now work.now table.new }
    {
        let known = self.known_names(differs);
        struct_feed(&self.sides, work, known, by_name, floor, l, r, table)
    }

    /// `struct_coercion`, of two types.
    #[cycle(merging)]
    pub(crate) fn struct_coercion(
        &self,
        work: &mut [u8],
        table: &mut [u32],
        known: &Known,
        l: usize,
        r: usize,
        g: Target,
    ) -> Written
        requires room { Room work.old self.now.sides.space × Ready self.now.sides.space g }
        requires tabled { Tabled self.now.sides.space self.now.sides.sheet.now work.old table.old }
        ensures merges_known { MergesKnown known.now.differs (is_list_question self.now.rules.question) (struct_coercion (coercion self.now.rules)) self.now.sides.space (known.now.left + 1) self.now.sides.swap self.now.sides.sheet.now work.old work.new l r g result }
        ensures stays_tabled { Tabled self.now.sides.space self.now.sides.sheet.now work.new table.new }
    {
        let (x, y) = self.sides.heads(&*work, l, r);
        let (a, b) = (x.first, y.first);
        let chains = Chains { l: a, r: b, p: b };
        if x.kind == kind::STRUCT
            && y.kind == kind::STRUCT
            && same_arity(&self.sides, &*work, l, a, b)
        {
            let feed = self
                .struct_feed(&*work, table, known.differs, Feed::Name, l, a, b)
                .unwrap_or(Feed::Place);
            let shape = Shape::from(Figures::of_kind(kind::STRUCT));
            return self.under(work, table, known, feed, shape, &chains, g);
        }
        Err(Failure::NoType)
    }

    /// Two Structs of a list: types by name, and nullability by place.
    #[cycle(merging)]
    pub(crate) fn list_struct(
        &self,
        work: &mut [u8],
        table: &mut [u32],
        known: &Known,
        l: usize,
        r: usize,
        g: Target,
    ) -> Written
        requires room { Room work.old self.now.sides.space × Ready self.now.sides.space g }
        requires structs { ((head_at (side self.now.sides.swap self.now.sides.sheet.now work.old) l).kind ≡ Kind.STRUCT) × ((head_at (side (not self.now.sides.swap) self.now.sides.sheet.now work.old) r).kind ≡ Kind.STRUCT) }
        requires tabled { Tabled self.now.sides.space self.now.sides.sheet.now work.old table.old }
        ensures merges_known { MergesKnown known.now.differs (is_list_question self.now.rules.question) (list_struct (coercion self.now.rules)) self.now.sides.space (known.now.left + 1) self.now.sides.swap self.now.sides.sheet.now work.old work.new l r g result }
        ensures stays_tabled { Tabled self.now.sides.space self.now.sides.sheet.now work.new table.new }
    {
        let (x, y) = self.sides.heads(&*work, l, r);
        let (a, b) = (x.first, y.first);
        let chains = Chains { l: a, r: b, p: b };
        if !same_arity(&self.sides, &*work, l, a, b) {
            return Err(Failure::NoType);
        }
        let shape = Shape::from(Figures::of_kind(kind::STRUCT));
        match self.struct_feed(&*work, table, known.differs, Feed::NameThenPlace, l, a, b) {
            Some(feed) => self.under(work, table, known, feed, shape, &chains, g),
            None => Err(Failure::NoType),
        }
    }

    /// `map_coercion`, of two maps.
    #[cycle(merging)]
    pub(crate) fn map_coercion(
        &self,
        work: &mut [u8],
        table: &mut [u32],
        known: &Known,
        l: usize,
        r: usize,
        g: Target,
    ) -> Written
        requires room { Room work.old self.now.sides.space × Ready self.now.sides.space g }
        requires tabled { Tabled self.now.sides.space self.now.sides.sheet.now work.old table.old }
        ensures merges_known { MergesKnown known.now.differs (is_list_question self.now.rules.question) (map_rule (coercion self.now.rules)) self.now.sides.space (known.now.left + 1) self.now.sides.swap self.now.sides.sheet.now work.old work.new l r g result }
        ensures stays_tabled { Tabled self.now.sides.space self.now.sides.sheet.now work.new table.new }
    {
        let at = g.at;
        let label = g.label + g.name_len;
        if self.sides.space.n <= at {
            return Err(Failure::Full);
        }
        let (x, y) = self.sides.heads(&*work, l, r);
        let (a, b) = (x.first, y.first);
        if a == 0 || b == 0 {
            return Err(Failure::NoType);
        }
        let shape = Shape {
            sorted: are_sorted(x, y),
            ..Shape::from(Figures::of_kind(kind::MAP))
        };
        lay(work, self.sides.space, g, shape, at + 1);
        self.entry(work, table, known, a, b, Place { at: at + 1, label })
    }

    // The entries of two maps under the left's name and nullability.
    #[cycle(merging)]
    fn entry(
        &self,
        work: &mut [u8],
        table: &mut [u32],
        known: &Known,
        l: usize,
        r: usize,
        to: Place,
    ) -> Written
        requires room { Room work.old self.now.sides.space × Inside self.now.sides.space to }
        requires tabled { Tabled self.now.sides.space self.now.sides.sheet.now work.old table.old }
        ensures merges_field { MergesField known.now.differs (is_list_question self.now.rules.question) (struct_coercion (coercion self.now.rules)) self.now.sides.space (known.now.left + 1) self.now.sides.swap self.now.sides.sheet.now work.old work.new l r to result }
        ensures stays_tabled { Tabled self.now.sides.space self.now.sides.sheet.now work.new table.new }
    {
        let x = self.sides.head(&*work, l);
        let own = row_known(known.differs, l, x.next, r, r);
        let g = self.sides.name_target(work, x, x.nullable(), to)?;
        let known = Known {
            differs: own,
            ..*known
        };
        self.struct_coercion(work, table, &known, l, r, g)
    }

    /// The rows of two chains: each field of the left is coerced with the one that feeds it. Inlined,
    /// so that the end of a chain costs no call.
    #[cycle(merging)]
    #[inline(always)]
    pub(crate) fn rows(
        &self,
        work: &mut [u8],
        table: &mut [u32],
        known: &Known,
        feed: Feed,
        chains: &Chains,
        to: Place,
    ) -> Written
        requires room { Room work.old self.now.sides.space × Inside self.now.sides.space to }
        requires tabled { Tabled self.now.sides.space self.now.sides.sheet.now work.old table.old }
        ensures rowed { Rowed known.now.differs (is_list_question self.now.rules.question) (coercion self.now.rules) self.now.sides.space known.now.left self.now.sides.swap self.now.sides.sheet.now work.old work.new feed chains.now.l chains.now.r chains.now.p to result }
        ensures stays_tabled { Tabled self.now.sides.space self.now.sides.sheet.now work.new table.new }
    {
        let Chains { l, p, .. } = *chains;
        if l == 0 {
            return row_end(p, to);
        }
        self.first_row(work, table, known, feed, chains, to)
    }

    // The first row of two chains, and then the rows behind it.
    #[cycle(merging)]
    fn first_row(
        &self,
        work: &mut [u8],
        table: &mut [u32],
        known: &Known,
        feed: Feed,
        chains: &Chains,
        to: Place,
    ) -> Written
        requires room { Room work.old self.now.sides.space × Inside self.now.sides.space to }
        requires some { ¬ (chains.now.l ≡ 0) }
        requires tabled { Tabled self.now.sides.space self.now.sides.sheet.now work.old table.old }
        ensures rowed { Rowed known.now.differs (is_list_question self.now.rules.question) (coercion self.now.rules) self.now.sides.space known.now.left self.now.sides.swap self.now.sides.sheet.now work.old work.new feed chains.now.l chains.now.r chains.now.p to result }
        ensures stays_tabled { Tabled self.now.sides.space self.now.sides.sheet.now work.new table.new }
    {
        let Chains { l, r, p } = *chains;
        if known.left == 0 {
            return Err(Failure::NoType);
        }
        let x = self.sides.head(&*work, l);
        let names = self.known_names(known.differs);
        let row = row(&self.sides, &*work, names, feed, *chains, &*table);
        let partner = row.partner;
        let own = row_known(known.differs, l, x.next, partner, p);
        if partner == 0 {
            return Err(Failure::NoType);
        }
        let g = self.sides.name_target(work, x, row.nullable, to)?;
        let field = Known {
            differs: own,
            hint: 0,
            ..*known
        };
        let d = self.common(work, table, &field, l, partner, g)?;
        let known = Known {
            left: known.left - 1,
            ..*known
        };
        let chains = Chains {
            l: x.next,
            r,
            p: row.next,
        };
        let e = self.rows(work, table, &known, feed, &chains, d)?;
        tie(work, self.sides.space, to.at, next_link(d, e));
        Ok(e)
    }
}
