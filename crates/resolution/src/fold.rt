//! The fold of a list, and the one pair of a union or a comparison.

ghost use Rattle.std.specs.Prelude.{◌≡◌, Some, true, ◌<◌};
ghost use Rattle.coercion.specs.Answers.{coercion, fold_from, fold_types, type_union_resolution, pair_answer};
ghost use Rattle.coercion.specs.Data.{for_list, is_list_question};
ghost use Rattle.buffers.specs.Region.{Room, region, Inside};
ghost use Rattle.buffers.specs.Typed.{Typed, CopiedField};
ghost use Rattle.resolution.specs.Reached.{Reached, Candidate, Entry, Compared, Steps, Folds, fold_behind};
ghost use Rattle.plain.specs.Value.{Valued};
ghost use Rattle.resolution.specs.Keeps.{CoreAt};

use crate::front::{FRONT, UNNAMED};
use crate::keep::{bottom_of, is_core_alone, keeps};
use crate::resolver::Resolver;
use buffers::alike::{differ_heads, differ_type};
use buffers::sides::Sides;
use buffers::{Failure, Place, Written};
use coercion::Rules;
use merge::Merger;
use merge::known::Known;
use plain::taken::{is_taken, taken_kinds};
use plain::value::{PlainType, common_type, is_plain, plain_type_of};
use sheet::kind;
use sheet::record::head_at;

impl<'a> Resolver<'a> {
    /// The merge of a type of the sheet, on the left, and one of the work space; where `swap` is
    /// set the other way round.
    pub(crate) fn merger(&self, rules: Rules, swap: bool) -> Merger<'a>
        ensures { result ≡ record { sides = record { sheet = self.now.sheet; space = self.now.space; swap = swap }; rules = rules } }
    {
        Merger {
            sides: Sides {
                sheet: self.sheet,
                space: self.space,
                swap,
            },
            rules,
        }
    }

    // Copies the type at a link of the sheet to the front, with its name and nullability. Inlined,
    // so that the loop before it keeps the sheet in registers.
    #[inline(always)]
    fn copy_listed(&self, work: &mut [u8], link: usize) -> Written
        requires { Room work.old self.now.space }
        ensures { CopiedField self.now.space self.now.sheet.now work.old work.new link (record { at = 1; label = 0 }) result }
    {
        let sides = Sides {
            sheet: self.sheet,
            space: self.space,
            swap: false,
        };
        sides.copy_field(work, link, FRONT)
    }

    // The common type, in a list, of the type at a link and the candidate that ends at d, of which
    // it is known where they differ; it takes the candidate's place.
    fn step(&self, work: &mut [u8], known: usize, at: usize, d: Place) -> Written
        requires room { Room work.old self.now.space × Inside self.now.space d }
        requires compared { Compared (Some known) true self.now.space (Candidate self.now.space work.old d) self.now.sheet.now at }
        ensures { Steps (coercion (for_list self.now.rules)) self.now.space (Candidate self.now.space work.old d) self.now.sheet.now work.old work.new at result }
    {
        self.move_candidate_down(work, d);
        let merger = self.merger(self.rules.for_list(), false);
        let left = 2 * self.space.n;
        let known = Known {
            left,
            differs: Some(known),
            hint: 0,
        };
        merger.coerce(work, known, at, 1, UNNAMED)
    }

    // The same of a candidate whose core is at a record. Where the core alone changes, only that is
    // written.
    fn step_list(&self, work: &mut [u8], core: usize, link: usize, d: Place) -> Written
        requires room { Room work.old self.now.space × Inside self.now.space d }
        requires core_at { CoreAt self.now.space (region self.now.space work.old) 1 core }
        ensures { Steps (coercion (for_list self.now.rules)) self.now.space (Candidate self.now.space work.old d) self.now.sheet.now work.old work.new link result }
    {
        let second = &work[self.space.half..];
        if is_core_alone(self.sheet, second, self.space, self.rules, link, core) {
            return self.step_core(work, link, d);
        }
        self.step_whole(work, link, d)
    }

    // The same, whatever the candidate's core is. A type that is the candidate itself leaves it.
    fn step_whole(&self, work: &mut [u8], link: usize, d: Place) -> Written
        requires room { Room work.old self.now.space × Inside self.now.space d }
        ensures { Steps (coercion (for_list self.now.rules)) self.now.space (Candidate self.now.space work.old d) self.now.sheet.now work.old work.new link result }
    {
        let n = self.space.n;
        let second = &work[self.space.half..];
        let known = differ_type(self.sheet, n, link, second, n, 1, true);
        if known == 0 {
            return Ok(d);
        }
        self.step(work, known, link, d)
    }

    // The common type of the types at two links of the sheet, of which something may be known. The
    // second is read from a copy of the sheet's bytes.
    fn merge_pair(
        &self,
        work: &mut [u8],
        rules: Rules,
        known: Option<usize>,
        link: usize,
        other: usize,
    ) -> Written
        requires room { Room work.old self.now.space }
        requires compared { Compared known (is_list_question rules.question) self.now.space (Typed self.now.space self.now.sheet.now other) self.now.sheet.now link }
        ensures { Steps (coercion rules) self.now.space (Typed self.now.space self.now.sheet.now other) self.now.sheet.now work.old work.new link result }
    {
        self.copy_sheet_down(work);
        let merger = self.merger(rules, false);
        let known = Known {
            left: 2 * self.space.n,
            differs: known,
            hint: 0,
        };
        merger.coerce(work, known, link, other, UNNAMED)
    }

    // The candidate that ends at d, folded with the types at a link past floor. Nulls are skipped.
    // For a type with parts the candidate's core is not looked for.
    fn fold_from(&self, work: &mut [u8], floor: usize, link: usize, d: Place) -> Written
        requires { Room work.old self.now.space × Inside self.now.space d }
        ensures { Folds (fold_from (for_list self.now.rules)) self.now.space (Candidate self.now.space work.old d) self.now.sheet.now work.old work.new floor link result }
    {
        let mut last = floor;
        let mut at = link;
        let mut end = d;
        let mut known = None;
        while last < at {
            if self.space.n <= at {
                return Err(Failure::NoType);
            }
            let h = head_at(self.sheet, at);
            if kind::LIST <= h.kind {
                end = self.step_whole(work, at, end)?;
                known = None;
            } else if h.kind != kind::NULL {
                let second = &work[self.space.half..];
                let bottom = bottom_of(second, self.space, known);
                if keeps(self.sheet, second, self.space, self.rules, at, bottom) {
                    known = Some(bottom);
                } else {
                    end = self.step_list(work, bottom.core, at, end)?;
                    known = None;
                }
            }
            last = at;
            at = h.next;
        }
        Ok(end)
    }

    // The type of record `first`, folded with the types at a link past floor, of the first of which
    // something may be known. Nulls are skipped.
    fn fold_first(
        &self,
        work: &mut [u8],
        mut known: Option<usize>,
        first: usize,
        floor: usize,
        link: usize,
    ) -> Written
        requires room { Room work.old self.now.space }
        requires compared { Compared known true self.now.space (Typed self.now.space self.now.sheet.now first) self.now.sheet.now link }
        ensures { Folds (fold_from (for_list self.now.rules)) self.now.space (Entry self.now.space self.now.sheet.now first) self.now.sheet.now work.old work.new floor link result }
    {
        let mut last = floor;
        let mut at = link;
        while last < at {
            if self.space.n <= at {
                return Err(Failure::NoType);
            }
            let h = head_at(self.sheet, at);
            if h.kind != kind::NULL {
                let d = self.merge_pair(work, self.rules.for_list(), known, at, first)?;
                return self.fold_from(work, at, h.next, d);
            }
            known = None;
            last = at;
            at = h.next;
        }
        self.copy_listed(work, first)
    }

    // A type without parts, written as a candidate and folded with the types at a link past floor.
    fn fold_written(&self, work: &mut [u8], x: PlainType, floor: usize, link: usize) -> Written
        requires { Room work.old self.now.space × (x.size < 4294967296) }
        ensures { Folds (fold_from (for_list self.now.rules)) self.now.space (Valued x) self.now.sheet.now work.old work.new floor link result }
    {
        let d = self.lay_front(work, x);
        self.fold_from(work, floor, link, d)
    }

    // A type without parts, folded with the types at a link past floor. The candidate is a value up
    // to the first type with parts, a zone or an order. Nulls are skipped.
    fn fold_plain(&self, work: &mut [u8], first: PlainType, floor: usize, link: usize) -> Written
        requires { Room work.old self.now.space × (first.size < 4294967296) }
        ensures { Folds (fold_from (for_list self.now.rules)) self.now.space (Valued first) self.now.sheet.now work.old work.new floor link result }
    {
        let mut last = floor;
        let mut at = link;
        let mut candidate = first;
        let mut kinds = 0;
        while last < at {
            if self.space.n <= at {
                return Err(Failure::NoType);
            }
            let h = head_at(self.sheet, at);
            if !is_plain(h) {
                return self.fold_written(work, candidate, last, at);
            }
            let x = plain_type_of(h);
            if !is_taken(kinds, x) {
                let Some(next) = common_type(self.rules.for_list(), x, candidate) else {
                    return Err(Failure::NoType);
                };
                kinds = taken_kinds(kinds, x, candidate, next);
                candidate = next;
            }
            last = at;
            at = h.next;
        }
        self.fold_written(work, candidate, last, at)
    }

    // The type of record `first`, which is not Null, folded with the types at a link past floor, of
    // the first of which something may be known.
    fn fold_entry(
        &self,
        work: &mut [u8],
        known: Option<usize>,
        first: usize,
        floor: usize,
        link: usize,
    ) -> Written
        requires room { Room work.old self.now.space }
        requires compared { Compared known true self.now.space (Typed self.now.space self.now.sheet.now first) self.now.sheet.now link }
        ensures { Folds (fold_from (for_list self.now.rules)) self.now.space (Entry self.now.space self.now.sheet.now first) self.now.sheet.now work.old work.new floor link result }
    {
        let h = head_at(self.sheet, first);
        if is_plain(h) {
            return self.fold_plain(work, plain_type_of(h), floor, link);
        }
        self.fold_first(work, known, first, floor, link)
    }

    // The first type at a link past floor that is not Null, folded with those behind it.
    fn fold_types(&self, work: &mut [u8], floor: usize, link: usize) -> Written
        requires { Room work.old self.now.space }
        ensures { Reached (fold_types (for_list self.now.rules)) self.now.space self.now.sheet.now work.old work.new floor link result }
    {
        let mut last = floor;
        let mut at = link;
        while last < at {
            if self.space.n <= at {
                return Err(Failure::NoType);
            }
            let h = head_at(self.sheet, at);
            if h.kind != kind::NULL {
                return self.fold_entry(work, None, at, at, h.next);
            }
            last = at;
            at = h.next;
        }
        Err(Failure::NoType)
    }

    // The type of record `first`, folded with the types at a link past floor, of the first of which
    // something may be known. A first Null gives way to the next type.
    fn fold_behind(
        &self,
        work: &mut [u8],
        known: Option<usize>,
        first: usize,
        floor: usize,
        link: usize,
    ) -> Written
        requires room { Room work.old self.now.space }
        requires compared { Compared known true self.now.space (Typed self.now.space self.now.sheet.now first) self.now.sheet.now link }
        ensures { Folds (fold_behind (for_list self.now.rules)) self.now.space (Entry self.now.space self.now.sheet.now first) self.now.sheet.now work.old work.new floor link result }
    {
        if head_at(self.sheet, first).kind == kind::NULL {
            return self.fold_types(work, floor, link);
        }
        self.fold_entry(work, known, first, floor, link)
    }

    /// `type_union_resolution`, of the types at a link. Types that are the same as the first leave
    /// it as it is: the fold begins at the first that is another.
    pub(crate) fn type_union_resolution(&self, work: &mut [u8], link: usize) -> Written
        requires { Room work.old self.now.space × (0 < link) }
        ensures { Reached (type_union_resolution (for_list self.now.rules)) self.now.space self.now.sheet.now work.old work.new 0 link result }
    {
        let n = self.space.n;
        let first = head_at(self.sheet, link);
        let mut last = link;
        let mut at = first.next;
        while last < at {
            if n <= at {
                return Err(Failure::NoType);
            }
            let h = head_at(self.sheet, at);
            let d = differ_heads(self.sheet, n, at, h, self.sheet, n, first, true);
            if d != 0 {
                if self.is_fitting(link) {
                    return self.fold_behind(work, Some(d), link, last, at);
                }
                return Err(Failure::NoType);
            }
            last = at;
            at = h.next;
        }
        self.copy_listed(work, link)
    }

    /// The common type of the two types at a link, where there are two.
    pub(crate) fn pair(&self, work: &mut [u8], link: usize) -> Written
        requires { Room work.old self.now.space × (0 < link) }
        ensures { Reached (pair_answer self.now.rules) self.now.space self.now.sheet.now work.old work.new 0 link result }
    {
        let x = head_at(self.sheet, link);
        let next = x.next;
        if next == 0 {
            return Err(Failure::NoType);
        }
        let y = head_at(self.sheet, next);
        if y.next != 0 {
            return Err(Failure::NoType);
        }
        if is_plain(x) && is_plain(y) {
            let joint = common_type(self.rules, plain_type_of(x), plain_type_of(y));
            return self.lay_joint(work, joint);
        }
        self.merge_pair(work, self.rules, None, link, next)
    }
}
