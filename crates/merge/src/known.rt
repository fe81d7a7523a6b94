//! What is known of two types before they are merged, so that no record is compared twice.

ghost use Rattle.std.specs.Prelude.{◌≡◌, not, ◌<◌};
ghost use Rattle.buffers.specs.Writes.{side};
ghost use Rattle.merge.specs.Known.{row_known, known_names, FirstDifference};
ghost use Rattle.coercion.specs.Data.{is_list_question};

use crate::Merger;

/// What is known of two types.
#[derive(Clone, Copy)]
pub struct Known {
    /// How many records the two have at most together.
    pub left: usize,
    /// The record of the left at which they first differ, 0 where they are the same, if that is
    /// known. Names count in a list.
    pub differs: Option<usize>,
    /// What is known of their wrappers, as `wrappers::walk::Choice` has it; 0 for nothing.
    pub hint: u8,
}

impl Merger<'_> {
    /// The record at which two types first differ, or 0; they are compared only where it is not
    /// known.
    pub(crate) fn first_difference(
        &self,
        work: &[u8],
        differs: Option<usize>,
        l: usize,
        r: usize,
    ) -> usize
        requires { self.now.sides.space.n < 65536 }
        ensures { FirstDifference differs (is_list_question self.now.rules.question) self.now.sides.space (side self.now.sides.swap self.now.sides.sheet.now work.now) l (side (not self.now.sides.swap) self.now.sides.sheet.now work.now) r result }
    {
        if let Some(d) = differs {
            return d;
        }
        let named = self.rules.is_list_question();
        self.sides.differ_sides(work, l, r, named)
    }

    /// What is known of the names of two chains by where they differ: in a list alone names are
    /// compared.
    pub(crate) fn known_names(&self, differs: Option<usize>) -> Option<usize>
        ensures { result ≡ known_names (is_list_question self.now.rules.question) differs }
    {
        if self.rules.is_list_question() {
            differs
        } else {
            None
        }
    }
}

/// What is known of the types of the field at `l` and of record `partner` by where their chains
/// differ; record `p` stands at the place of `l`, and `next` follows `l`. `Some(0)` says that they
/// are the same.
pub(crate) fn row_known(
    differs: Option<usize>,
    l: usize,
    next: usize,
    partner: usize,
    p: usize,
) -> Option<usize>
    ensures { result ≡ row_known differs l next partner p }
{
    let d = differs?;
    if partner != p || d <= l {
        return None;
    }
    if next == 0 || d < next {
        return Some(d);
    }
    Some(0)
}
