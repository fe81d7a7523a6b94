//! The types that are known to leave a candidate as it is, by kind: in a long list of types
//! without figures few pairs are new.

ghost use Rattle.std.specs.Prelude.{◌≡◌, ◌<◌};
ghost use Rattle.sheet.specs.declared.kind.TheConstants as Kind;
ghost use Rattle.plain.specs.Taken.{is_bare, is_taken, taken_kinds};

use crate::sides::may_become;
use crate::value::PlainType;
use sheet::kind;

// Whether a type is wholly its kind.
fn is_bare(x: PlainType) -> bool
    ensures { result ≡ is_bare x }
{
    x.figure == 0 && x.scale == 0 && x.size == 0
}

/// Whether a type is known to leave the candidate as it is: Null is skipped, and a type that is
/// wholly its kind may be among `kinds`, bit k for kind k.
pub fn is_taken(kinds: u64, x: PlainType) -> bool
    requires { x.kind < Kind.LIST }
    ensures { result ≡ is_taken kinds x }
{
    x.kind == kind::NULL || is_bare(x) && may_become(kinds, x.kind)
}

/// The kinds that are known to leave the next candidate as it is, after type `x` was joined with
/// the candidate `last` to `next`.
pub fn taken_kinds(kinds: u64, x: PlainType, last: PlainType, next: PlainType) -> u64
    requires { x.kind < Kind.LIST }
    ensures { result ≡ taken_kinds kinds x last next }
{
    if last == next {
        if is_bare(x) {
            kinds | (1 << x.kind)
        } else {
            kinds
        }
    } else {
        0
    }
}
