//! Walks down the wrappers of two types in lent buffers. Each is handed the number of records that may be left, which
//! falls with each wrapper that comes off. A kind is the byte of a record.
ghost use Rattle.std.specs.Prelude.{◌≡◌, true, not, cond, ◌+◌, ◌<◌, unwrap_or, IfSome};
ghost use Rattle.sheet.specs.declared.kind.TheConstants as Kind;
ghost use Rattle.buffers.specs.Writes.{side};
ghost use Rattle.wrappers.specs.Ways.{wrappers_of, allows, meets, hint_of, wrappers_may};
ghost use Rattle.wrappers.specs.Walks.{Core, Tells, TellsBoth, Learns, Chosen};

use buffers::sides::Sides;
use plain::sides::may_become;
use sheet::kind::{self, is_wrapper, one_is};

// The sources of two types, and the kinds that Null may become.
#[derive(Clone, Copy)]
struct Walk<'a> {
    sides: Sides<'a>,
    work: &'a [u8],
    mask: u64,
}

/// The wrapper whose rule is asked of two types, and what is known of the types that the rule goes on with.
#[derive(Clone, Copy)]
pub struct Choice {
    /// A Dictionary for the rule for Dictionaries, run ends for that for run ends.
    pub kind: u8,
    /// 0 for nothing, and else 1 to 3 by `hint_of` of specs/Ways.antt.
    pub hint: u8,
}

fn kind_for(dictionary: bool) -> u8
    ensures { result ≡ cond dictionary Kind.DICTIONARY Kind.RUN_END_ENCODED }
{
    if dictionary {
        kind::DICTIONARY
    } else {
        kind::RUN_END_ENCODED
    }
}

fn hint_if(same: bool, hint: u8) -> u8
    ensures { result ≡ cond same hint 0 }
{
    if same { hint } else { 0 }
}

// What the kinds of two cores leave to be asked of the wrappers about them.
fn core_hint(mask: u64, k: u8, j: u8) -> u8
    requires { (k < 64) × (j < 64) }
    ensures { (result ≡ hint_of mask k j) × (0 < result) }
{
    if k == kind::NULL {
        if j == kind::NULL || may_become(mask, j) {
            1
        } else {
            3
        }
    } else if j == kind::NULL && !may_become(mask, k) {
        2
    } else {
        1
    }
}

impl<'a> Walk<'a> {
    // The same with the sides exchanged.
    fn swapped(&self) -> Walk<'a>
        ensures { result ≡ record { sides = record { sheet = self.now.sides.sheet; space = self.now.sides.space; swap = not self.now.sides.swap }; work = self.now.work; mask = self.now.mask } }
    {
        Walk {
            sides: self.sides.swapped(),
            ..*self
        }
    }

    // The kind of the value below all wrappers of a type of the left; 0, as no type has it, where no record is left
    // or the byte is no kind.
    fn core_kind(&self, left: usize, l: usize) -> u8
        ensures { Core left (side self.now.sides.swap self.now.sides.sheet.now self.now.work.now) l result }
    {
        if left == 0 {
            return 0;
        }
        let k = self.sides.kind(self.work, l);
        if is_wrapper(k) {
            return self.core_kind(left - 1, self.sides.value(self.work, l));
        }
        if k < 64 { k } else { 0 }
    }

    // Whether Null may become one of the wrappers of a type of the left.
    fn allows(&self, left: usize, l: usize) -> bool
        ensures { Tells (λ x. allows self.now.mask (wrappers_of x.shape x.parts)) left (side self.now.sides.swap self.now.sides.sheet.now self.now.work.now) l result }
    {
        if left == 0 {
            return false;
        }
        let k = self.sides.kind(self.work, l);
        if is_wrapper(k) {
            if may_become(self.mask, k) {
                return true;
            }
            return self.allows(left - 1, self.sides.value(self.work, l));
        }
        false
    }

    // Takes the wrappers off Null, at r, and off a value that Null may not become, at l, until Null stands alone.
    fn meets(&self, left: usize, l: usize, r: usize) -> bool
        ensures { TellsBoth (λ x y. meets self.now.mask (wrappers_of x.shape x.parts) (wrappers_of y.shape y.parts)) (left + 1) self.now.sides.swap self.now.sides.sheet.now self.now.work.now l r result }
    {
        if left == 0 {
            return false;
        }
        let (k, j) = self.sides.kinds(self.work, l, r);
        if !is_wrapper(j) {
            return self.allows(left, l);
        }
        let b = self.sides.right_value(self.work, r);
        if k == j {
            let a = self.sides.value(self.work, l);
            return self.meets(left - 1, a, b);
        }
        if is_wrapper(k) {
            return self.meets(left - 1, l, b);
        }
        false
    }

    // The walk of a value's wrappers and those of Null, if it is needed.
    fn meets_if(&self, left: usize, needed: bool, l: usize, r: usize) -> bool
        ensures { TellsBoth (λ x y. cond needed (meets self.now.mask (wrappers_of x.shape x.parts) (wrappers_of y.shape y.parts)) true) (left + 1) self.now.sides.swap self.now.sides.sheet.now self.now.work.now l r result }
    {
        if needed {
            return self.meets(left, l, r);
        }
        true
    }

    // What the wrappers answer, by the walk that a hint asks for.
    fn wrappers_may(&self, left: usize, hint: u8, l: usize, r: usize) -> bool
        ensures { TellsBoth (wrappers_may hint self.now.mask) (left + 1) self.now.sides.swap self.now.sides.sheet.now self.now.work.now l r result }
    {
        if hint == 2 {
            return self.meets(left, l, r);
        }
        if hint == 3 {
            return self.swapped().meets(left, r, l);
        }
        true
    }

    // What the cores of two types leave to be asked; none where the types can have no common type.
    fn learn(&self, left: usize, hint: u8, l: usize, r: usize) -> Option<u8>
        ensures some { IfSome result (λ h. 0 < h) }
        ensures learns { Learns hint self.now.mask (left + 1) self.now.sides.swap self.now.sides.sheet.now self.now.work.now l r (unwrap_or result 0) }
    {
        if hint != 0 {
            return Some(hint);
        }
        let k = self.core_kind(left, l);
        let j = self.swapped().core_kind(left, r);
        let h = core_hint(self.mask, k, j);
        self.wrappers_may(left, h, l, r).then_some(h)
    }
}

/// The rule for wrappers that is asked of two types, and none where the types can have no common type.
///
/// The left type is at record l and the right at record r. At most left + 1 records are left in both. The hint is
/// what is known of the two (`Choice::hint`), 0 for nothing. Where neither type is a wrapper the rule for run ends is
/// named, which has no answer then.
pub fn chosen_wrapper(
    sides: &Sides,
    work: &[u8],
    mask: u64,
    left: usize,
    hint: u8,
    l: usize,
    r: usize,
) -> Option<Choice>
    ensures { Chosen hint mask (left + 1) sides.now.swap sides.now.sheet.now work.now l r result }
{
    let walk = Walk {
        sides: *sides,
        work,
        mask,
    };
    let (k, j) = sides.kinds(work, l, r);
    match (k, j) {
        (kind::DICTIONARY, kind::RUN_END_ENCODED) => {
            let h = walk.learn(left, hint, l, r)?;
            let a = sides.value(work, l);
            let kind = kind_for(walk.meets_if(left, h == 2, a, r));
            Some(Choice { kind, hint: h })
        }
        (kind::RUN_END_ENCODED, kind::DICTIONARY) => {
            let h = walk.learn(left, hint, l, r)?;
            let b = sides.right_value(work, r);
            let kind = kind_for(walk.swapped().meets_if(left, h == 3, b, l));
            Some(Choice { kind, hint: h })
        }
        _ => Some(Choice {
            kind: kind_for(one_is(kind::DICTIONARY, k, j)),
            hint: hint_if(k == j, hint),
        }),
    }
}
