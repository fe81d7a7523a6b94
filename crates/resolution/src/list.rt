//! What a list is asked before it is folded: of which categories its types are.

ghost use Rattle.std.specs.Prelude.{◌≡◌};
ghost use Rattle.sheet.specs.Types.{Fields};
ghost use Rattle.coercion.specs.Data.{types_of};
ghost use Rattle.coercion.specs.Answers.{categories_fit};
ghost use Rattle.resolution.specs.Reached.{ListedTypes, seen_bits};

use crate::category::{category_kind, is_mixed, is_supported, with_category};
use crate::resolver::Resolver;
use sheet::record::head_at;

impl Resolver<'_> {
    // The bits of the categories of the types at a link; all bits where a type has no category,
    // since more than one bit means no answer. It is not inlined, so that the loop has registers of
    // its own.
    #[inline(never)]
    fn categories(&self, link: usize) -> u8
        ensures { (ts : Fields) → ListedTypes self.now.space self.now.sheet.now 0 link ts → result ≡ seen_bits 0 (types_of ts) }
    {
        let mut bits = 0;
        let mut last = 0;
        let mut at = link;
        while last < at {
            if self.space.n <= at {
                return bits;
            }
            let kind = category_kind(self.sheet, self.space.n, at);
            if !is_supported(kind) {
                return 255;
            }
            bits = with_category(bits, kind);
            last = at;
            at = head_at(self.sheet, at).next;
        }
        bits
    }

    /// Whether the categories of the types at a link allow an answer.
    pub(crate) fn is_fitting(&self, link: usize) -> bool
        ensures { (ts : Fields) → ListedTypes self.now.space self.now.sheet.now 0 link ts → result ≡ categories_fit (types_of ts) }
    {
        !is_mixed(self.categories(link))
    }
}
