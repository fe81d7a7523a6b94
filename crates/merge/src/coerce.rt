//! The merge of two types, by the rules of the source with `coerce_fn` as the recursion. Each
//! call hands down how many records may be left in both types (`Known::left`), and that number
//! falls.

ghost use Rattle.std.specs.Prelude.{◌≡◌, true, false, cond, ◌+◌, ◌-◌, eqb};
ghost use Rattle.coercion.specs.Answers.{coercion};
ghost use Rattle.buffers.specs.Region.{Room, Ready};
ghost use Rattle.rule_order.specs.Order.{resolved, unwrapped, nested_of};
ghost use Rattle.merge.specs.Merge.{Tabled, MergesKnown, MergesHinted};
ghost use Rattle.coercion.specs.Data.{is_list_question};

use crate::Merger;
use crate::known::Known;
use buffers::{Failure, Target, Written};
use sheet::kind::{self, is_list};

// How many records the type at a link has. It ends where the chain goes on, or with the last
// record.
fn records_from(n: usize, link: usize, next: usize) -> usize
    ensures { result ≡ cond (eqb next 0) n next - link }
{
    let end = if next == 0 { n } else { next };
    end.saturating_sub(link)
}

impl Merger<'_> {
    /// The common type of the type at `l` of the left and that at `r` of the right, written at `g`:
    /// `type_union_resolution_coercion` in a list, else `type_union_coercion` or
    /// `comparison_coercion`. `NoType` where there is none, `Full` where there is no room for the
    /// records or labels of both. For types with more records than `Known::left` the answer is left
    /// free.
    ///
    /// The table of partners is as short as the left type allows, since each of its entries is set
    /// to 0.
    pub fn coerce(&self, work: &mut [u8], known: Known, l: usize, r: usize, g: Target) -> Written
        requires { Room work.old self.now.sides.space × Ready self.now.sides.space g }
        ensures { MergesHinted known.hint self.now.rules.mask known.differs (is_list_question self.now.rules.question) (coercion self.now.rules) self.now.sides.space known.left self.now.sides.swap self.now.sides.sheet.now work.old work.new l r g result }
    {
        let records = records_from(self.sides.space.n, l, self.sides.head(&*work, l).next);
        if records < 9 {
            return self.common(work, &mut [0u32; 16], &known, l, r, g);
        }
        if records < 33 {
            return self.common(work, &mut [0u32; 64], &known, l, r, g);
        }
        self.coerce_many(work, &known, l, r, g)
    }

    // The same, where the left type has many records. It is not inlined, so that the large table is
    // not in the frame of `coerce`.
    #[inline(never)]
    fn coerce_many(&self, work: &mut [u8], known: &Known, l: usize, r: usize, g: Target) -> Written
        requires { Room work.old self.now.sides.space × Ready self.now.sides.space g }
        ensures { MergesHinted known.now.hint self.now.rules.mask known.now.differs (is_list_question self.now.rules.question) (coercion self.now.rules) self.now.sides.space known.now.left self.now.sides.swap self.now.sides.sheet.now work.old work.new l r g result }
    {
        self.common(work, &mut [0u32; 2048], known, l, r, g)
    }

    /// The common type of two types, of which something may be known, or none.
    #[cycle(merging)]
    pub(crate) fn common(
        &self,
        work: &mut [u8],
        table: &mut [u32],
        known: &Known,
        l: usize,
        r: usize,
        g: Target,
    ) -> Written
        requires room { Room work.old self.now.sides.space × Ready self.now.sides.space g }
        requires tabled { Tabled self.now.sides.space self.now.sides.sheet.now work.old table.old }
        ensures merges_hinted { MergesHinted known.now.hint self.now.rules.mask known.now.differs (is_list_question self.now.rules.question) (coercion self.now.rules) self.now.sides.space known.now.left self.now.sides.swap self.now.sides.sheet.now work.old work.new l r g result }
        ensures stays_tabled { Tabled self.now.sides.space self.now.sides.sheet.now work.new table.new }
    {
        if known.left == 0 {
            return Err(Failure::NoType);
        }
        let d = self.first_difference(&*work, known.differs, l, r);
        if d == 0 {
            return self.sides.copy_type(work, l, g);
        }
        let (k, j) = self.sides.kinds(&*work, l, r);
        if k < kind::LIST && j < kind::LIST {
            return self.sides.plain_rule(work, self.rules, l, r, g);
        }
        let known = Known {
            left: known.left - 1,
            differs: Some(d),
            ..*known
        };
        if k < kind::DICTIONARY && j < kind::DICTIONARY {
            return self.nested(work, table, &known, l, r, g);
        }
        if self.rules.is_list_question() {
            return self.type_union_resolution_coercion(work, table, &known, l, r, g);
        }
        self.unwrap(work, table, &known, l, r, g)
    }

    // `type_union_resolution_coercion`, after the test for sameness.
    #[cycle(merging)]
    fn type_union_resolution_coercion(
        &self,
        work: &mut [u8],
        table: &mut [u32],
        known: &Known,
        l: usize,
        r: usize,
        g: Target,
    ) -> Written
        requires room { Room work.old self.now.sides.space × Ready self.now.sides.space g }
        requires of_list { is_list_question self.now.rules.question ≡ true }
        requires tabled { Tabled self.now.sides.space self.now.sides.sheet.now work.old table.old }
        ensures merges_known { MergesKnown known.now.differs (is_list_question self.now.rules.question) (resolved self.now.rules (coercion self.now.rules)) self.now.sides.space (known.now.left + 1) self.now.sides.swap self.now.sides.sheet.now work.old work.new l r g result }
        ensures stays_tabled { Tabled self.now.sides.space self.now.sides.sheet.now work.new table.new }
    {
        let (k, j) = self.sides.kinds(&*work, l, r);
        if k == kind::DICTIONARY || j == kind::DICTIONARY {
            let kind = kind::DICTIONARY;
            return self.resolve_wrapper(work, table, known, kind, l, r, g);
        }
        if k == kind::RUN_END_ENCODED || j == kind::RUN_END_ENCODED {
            let kind = kind::RUN_END_ENCODED;
            return self.resolve_wrapper(work, table, known, kind, l, r, g);
        }
        self.nested(work, table, known, l, r, g)
    }

    // The rules of union and compare, after the test for alikeness. Of the two rules for wrappers
    // one is asked, as the other has no answer that it lacks.
    #[cycle(merging)]
    fn unwrap(
        &self,
        work: &mut [u8],
        table: &mut [u32],
        known: &Known,
        l: usize,
        r: usize,
        g: Target,
    ) -> Written
        requires room { Room work.old self.now.sides.space × Ready self.now.sides.space g }
        requires of_pair { is_list_question self.now.rules.question ≡ false }
        requires tabled { Tabled self.now.sides.space self.now.sides.sheet.now work.old table.old }
        ensures merges_hinted { MergesHinted known.now.hint self.now.rules.mask known.now.differs (is_list_question self.now.rules.question) (unwrapped self.now.rules (coercion self.now.rules)) self.now.sides.space (known.now.left + 1) self.now.sides.swap self.now.sides.sheet.now work.old work.new l r g result }
        ensures stays_tabled { Tabled self.now.sides.space self.now.sides.sheet.now work.new table.new }
    {
        // Each answer has an arm of its own, since the proof goes by cases.
        match self.wrapper(work, table, known, l, r, g) {
            Ok(d) => Ok(d),
            Err(Failure::NoType) => self.nested(work, table, known, l, r, g),
            Err(Failure::Full) => Err(Failure::Full),
        }
    }

    // Two types that are no wrappers: lists, Structs, Maps, and types without parts.
    #[cycle(merging)]
    fn nested(
        &self,
        work: &mut [u8],
        table: &mut [u32],
        known: &Known,
        l: usize,
        r: usize,
        g: Target,
    ) -> Written
        requires room { Room work.old self.now.sides.space × Ready self.now.sides.space g }
        requires tabled { Tabled self.now.sides.space self.now.sides.sheet.now work.old table.old }
        ensures merges_known { MergesKnown known.now.differs (is_list_question self.now.rules.question) (nested_of self.now.rules (coercion self.now.rules)) self.now.sides.space (known.now.left + 1) self.now.sides.swap self.now.sides.sheet.now work.old work.new l r g result }
        ensures stays_tabled { Tabled self.now.sides.space self.now.sides.sheet.now work.new table.new }
    {
        let (k, j) = self.sides.kinds(&*work, l, r);
        if is_list(k) && is_list(j) {
            return self.list_coercion(work, table, known, l, r, g);
        }
        if k == kind::STRUCT && j == kind::STRUCT {
            if self.rules.is_list_question() {
                return self.list_struct(work, table, known, l, r, g);
            }
            return self.struct_coercion(work, table, known, l, r, g);
        }
        if k == kind::MAP && j == kind::MAP {
            return self.map_coercion(work, table, known, l, r, g);
        }
        self.sides.plain_rule(work, self.rules, l, r, g)
    }
}
