//! The merge of two types of which one at least is a Dictionary or run ends.

ghost use Rattle.std.specs.Prelude.{◌≡◌, None, true, ◌+◌};
ghost use Rattle.coercion.specs.Answers.{coercion};
ghost use Rattle.sheet.specs.Head.{head_at};
ghost use Rattle.buffers.specs.Writes.{side};
ghost use Rattle.buffers.specs.Region.{Room, Inside, Ready};
ghost use Rattle.sheet.specs.Kind.{is_wrapper};
ghost use Rattle.rule_order.specs.Order.{wrapper_rule, either_wrapped, both_wrapped, rewrapped};
ghost use Rattle.buffers.specs.Typed.{Merges};
ghost use Rattle.merge.specs.Merge.{Tabled, MergesKnown, MergesHinted, MergesField};
ghost use Rattle.coercion.specs.Data.{is_list_question};

use crate::Merger;
use crate::descent::passes;
use crate::known::{Known, row_known};
use buffers::{Failure, Place, Target, Written};
use partners::{Chains, Feed};
use sheet::kind;
use wrappers::walk::chosen_wrapper;

impl Merger<'_> {
    /// Two types of a list, of which one at least is a wrapper of a kind.
    #[cycle(merging)]
    pub(crate) fn resolve_wrapper(
        &self,
        work: &mut [u8],
        table: &mut [u32],
        known: &Known,
        kind: u8,
        l: usize,
        r: usize,
        g: Target,
    ) -> Written
        requires room { Room work.old self.now.sides.space × Ready self.now.sides.space g }
        requires of_list { is_list_question self.now.rules.question ≡ true }
        requires wrapper { is_wrapper kind ≡ true }
        requires tabled { Tabled self.now.sides.space self.now.sides.sheet.now work.old table.old }
        ensures merges_known { MergesKnown known.now.differs (is_list_question self.now.rules.question) (either_wrapped kind (coercion self.now.rules)) self.now.sides.space (known.now.left + 1) self.now.sides.swap self.now.sides.sheet.now work.old work.new l r g result }
        ensures stays_tabled { Tabled self.now.sides.space self.now.sides.sheet.now work.new table.new }
    {
        let (k, j) = self.sides.kinds(&*work, l, r);
        if k == kind {
            if j == kind {
                return self.both_parts(work, table, known, l, r, g);
            }
            return self.rewrapped(work, table, known.left, kind, l, r, g);
        }
        if j == kind {
            return self
                .swapped()
                .rewrapped(work, table, known.left, kind, r, l, g);
        }
        Err(Failure::NoType)
    }

    // Two wrappers of one kind: their parts are coerced one by one.
    #[cycle(merging)]
    fn both_parts(
        &self,
        work: &mut [u8],
        table: &mut [u32],
        known: &Known,
        l: usize,
        r: usize,
        g: Target,
    ) -> Written
        requires room { Room work.old self.now.sides.space × Ready self.now.sides.space g }
        requires tabled { Tabled self.now.sides.space self.now.sides.sheet.now work.old table.old }
        ensures merges_known { MergesKnown known.now.differs (is_list_question self.now.rules.question) (both_wrapped (coercion self.now.rules)) self.now.sides.space (known.now.left + 1) self.now.sides.swap self.now.sides.sheet.now work.old work.new l r g result }
        ensures stays_tabled { Tabled self.now.sides.space self.now.sides.sheet.now work.new table.new }
    {
        if self.sides.space.n <= g.at {
            return Err(Failure::Full);
        }
        let (x, y) = self.sides.heads(&*work, l, r);
        let d = self.sides.copy_head(work, x, l, g, 0)?;
        let (a, b) = (x.first, y.first);
        let chains = Chains { l: a, r: b, p: b };
        self.rows(work, table, known, Feed::Own, &chains, d)
    }

    // A wrapper whose value is coerced with another type, the value on the left. The wrappers below
    // it that would come here too are passed: their records are copied at once, and their core is
    // coerced.
    #[cycle(merging)]
    fn rewrapped(
        &self,
        work: &mut [u8],
        table: &mut [u32],
        left: usize,
        kind: u8,
        l: usize,
        r: usize,
        g: Target,
    ) -> Written
        requires room { Room work.old self.now.sides.space × Ready self.now.sides.space g }
        requires of_list { is_list_question self.now.rules.question ≡ true }
        requires wrapper { (is_wrapper kind ≡ true) × ((head_at (side self.now.sides.swap self.now.sides.sheet.now work.old) l).kind ≡ kind) }
        requires tabled { Tabled self.now.sides.space self.now.sides.sheet.now work.old table.old }
        ensures merges { Merges (rewrapped kind (coercion self.now.rules)) self.now.sides.space (left + 1) self.now.sides.swap self.now.sides.sheet.now work.old work.new l r g result }
        ensures stays_tabled { Tabled self.now.sides.space self.now.sides.sheet.now work.new table.new }
    {
        if self.sides.space.n <= g.at {
            return Err(Failure::Full);
        }
        let x = self.sides.head(&*work, l);
        let descent = self.descend(&*work, kind, l, r);
        let core = descent.core;
        let a = self.sides.copy_parent(work, x, l, g)?;
        let b = self.sides.copy_span(work, descent.first, core, a)?;
        let e = self.coerce_field(work, table, left, core, r, b)?;
        self.drop_redundant_dictionaries(work, descent, a, g, b.at, e)
    }

    // The value of a wrapper, coerced with a type of the other side under its own name and
    // nullability.
    #[cycle(merging)]
    fn coerce_field(
        &self,
        work: &mut [u8],
        table: &mut [u32],
        left: usize,
        l: usize,
        r: usize,
        to: Place,
    ) -> Written
        requires room { Room work.old self.now.sides.space × Inside self.now.sides.space to }
        requires of_list { is_list_question self.now.rules.question ≡ true }
        requires tabled { Tabled self.now.sides.space self.now.sides.sheet.now work.old table.old }
        ensures merges_field { MergesField None (is_list_question self.now.rules.question) (coercion self.now.rules) self.now.sides.space left self.now.sides.swap self.now.sides.sheet.now work.old work.new l r to result }
        ensures stays_tabled { Tabled self.now.sides.space self.now.sides.sheet.now work.new table.new }
    {
        let x = self.sides.head(&*work, l);
        let g = self.sides.name_target(work, x, x.nullable(), to)?;
        self.coerce_value(work, table, left, l, r, g)
    }

    // The common type of a value and another type, or none. A wrapper that is passed and the other
    // type come to their rule at once, as do two types without parts whose kinds differ.
    #[cycle(merging)]
    fn coerce_value(
        &self,
        work: &mut [u8],
        table: &mut [u32],
        left: usize,
        l: usize,
        r: usize,
        g: Target,
    ) -> Written
        requires room { Room work.old self.now.sides.space × Ready self.now.sides.space g }
        requires of_list { is_list_question self.now.rules.question ≡ true }
        requires tabled { Tabled self.now.sides.space self.now.sides.sheet.now work.old table.old }
        ensures merges { Merges (coercion self.now.rules) self.now.sides.space left self.now.sides.swap self.now.sides.sheet.now work.old work.new l r g result }
        ensures stays_tabled { Tabled self.now.sides.space self.now.sides.sheet.now work.new table.new }
    {
        if left == 0 {
            return Err(Failure::NoType);
        }
        let (k, j) = self.sides.kinds(&*work, l, r);
        if passes(k, j) {
            return self.rewrapped(work, table, left - 1, k, l, r, g);
        }
        if k != j && k < kind::LIST && j < kind::LIST {
            return self.sides.plain_rule(work, self.rules, l, r, g);
        }
        let known = Known {
            left,
            differs: None,
            hint: 0,
        };
        self.common(work, table, &known, l, r, g)
    }

    /// `dictionary_coercion` or `ree_coercion`, whichever is asked, where a wrapper of its kind is
    /// on either side, or on both.
    #[cycle(merging)]
    pub(crate) fn wrapper(
        &self,
        work: &mut [u8],
        table: &mut [u32],
        known: &Known,
        l: usize,
        r: usize,
        g: Target,
    ) -> Written
        requires room { Room work.old self.now.sides.space × Ready self.now.sides.space g }
        requires tabled { Tabled self.now.sides.space self.now.sides.sheet.now work.old table.old }
        ensures merges_hinted { MergesHinted known.now.hint self.now.rules.mask known.now.differs (is_list_question self.now.rules.question) (wrapper_rule self.now.rules (coercion self.now.rules)) self.now.sides.space (known.now.left + 1) self.now.sides.swap self.now.sides.sheet.now work.old work.new l r g result }
        ensures stays_tabled { Tabled self.now.sides.space self.now.sides.sheet.now work.new table.new }
    {
        let (left, hint) = (known.left, known.hint);
        let Some(t) = chosen_wrapper(&self.sides, &*work, self.rules.mask, left, hint, l, r) else {
            return Err(Failure::NoType);
        };
        let kind = t.kind;
        let (k, j) = self.sides.kinds(&*work, l, r);
        let rest = Known {
            differs: None,
            hint: t.hint,
            ..*known
        };
        if k == kind {
            let a = self.sides.value(&*work, l);
            if j == kind {
                let b = self.sides.right_value(&*work, r);
                let own = row_known(known.differs, a, 0, b, b);
                let known = Known {
                    differs: own,
                    ..rest
                };
                return self.common(work, table, &known, a, b, g);
            }
            if self.sides.same_sides(&*work, a, r, true) {
                return self.sides.copy_type(work, l, g);
            }
            return self.common(work, table, &rest, a, r, g);
        }
        // The common type takes the left's names, so the value is asked on its own side.
        if j == kind {
            let b = self.sides.right_value(&*work, r);
            let turned = self.sides.swapped();
            if turned.same_sides(&*work, b, l, true) {
                return turned.copy_type(work, r, g);
            }
            return self.common(work, table, &rest, l, b, g);
        }
        Err(Failure::NoType)
    }
}
