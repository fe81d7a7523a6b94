//! Whether a candidate stays as it is when it meets a new type. Below wrappers that hangs on
//! its core alone.

ghost use Rattle.std.specs.Prelude.{◌≡◌, true, Some, ◌<◌};
ghost use Rattle.coercion.specs.Data.{DataType, for_list};
ghost use Rattle.coercion.specs.Answers.{coercion};
ghost use Rattle.buffers.specs.Typed.{Typed};
ghost use Rattle.plain.specs.Value.{Valued};
ghost use Rattle.resolution.specs.Keeps.{CoreAt, BottomAt, BottomIf, gives_way, stays_zoned, CoreAlone, lays_view};

use buffers::Space;
use coercion::Rules;
use plain::step::{Step, plain_heads};
use plain::times::timeunit_coercion;
use plain::value::{PlainType, common_type, is_plain, plain_type_of};
use sheet::record::head_at;
use sheet::{Head, kind};

/// Where the walk down a type's wrappers ends: at the record of its core. The wrapper is the one
/// directly around that, by its kind, if there is one.
#[derive(Clone, Copy)]
pub(crate) struct Bottom {
    pub core: usize,
    pub wrapper: Option<u8>,
}

// The bottom of the type of record r. A link is followed only upward.
fn bottom_at(s: &[u8], space: Space, r: usize) -> Bottom
    ensures { BottomAt space s.now r result }
{
    let mut core = r;
    let mut wrapper = None;
    while core < space.n {
        let h = head_at(s, core);
        if h.kind < kind::DICTIONARY {
            return Bottom { core, wrapper };
        }
        let value = head_at(s, h.first).next;
        if value <= core {
            return Bottom { core, wrapper };
        }
        wrapper = Some(h.kind);
        core = value;
    }
    Bottom { core, wrapper }
}

/// The bottom of the candidate's type, at record 1 of the second half, which may be known already.
pub(crate) fn bottom_of(second: &[u8], space: Space, known: Option<Bottom>) -> Bottom
    ensures { BottomIf space second.now known → BottomAt space second.now 1 result }
{
    known.unwrap_or_else(|| bottom_at(second, space, 1))
}

// Whether a candidate with this bottom, whose core has the head v, has Utf8View directly in a
// Dictionary, which would give way to it.
fn gives_way(v: Head, bottom: Bottom) -> bool
    ensures { result ≡ gives_way v.kind bottom.wrapper }
{
    v.kind == kind::UTF8_VIEW && bottom.wrapper == Some(kind::DICTIONARY)
}

// Whether the common type of two types without parts, in a list, is a third.
fn is_common(rules: Rules, x: PlainType, y: PlainType, z: PlainType) -> bool
    requires { (x.size < 4294967296) × (y.size < 4294967296) }
    ensures { result ≡ true → (l r t : DataType) → Valued x l → Valued y r → Valued z t → coercion (for_list rules) l r ≡ Some t }
{
    common_type(rules.for_list(), x, y) == Some(z)
}

// Whether a Timestamp with a zone stays as it is to the left of a Timestamp: the zone is the
// left's, and the unit where it is no coarser.
fn stays_zoned(x: Head, y: Head) -> bool
    ensures { result ≡ stays_zoned x y }
{
    x.kind == kind::TIMESTAMP
        && x.zoned()
        && y.kind == kind::TIMESTAMP
        && timeunit_coercion(x.figure, y.figure) == x.figure
}

/// Whether the candidate at record 1 of the second half, with this bottom, is known to stay as it
/// is under the type at a link of the sheet, in a list. Below a wrapper the core goes left, and a
/// Dictionary of Utf8View gives way to Utf8View, as run ends do not. A no says nothing: the merge
/// then decides.
pub(crate) fn keeps(
    sheet: &[u8],
    second: &[u8],
    space: Space,
    rules: Rules,
    link: usize,
    bottom: Bottom,
) -> bool
    ensures { result ≡ true → BottomAt space second.now 1 bottom → (x c : DataType) → Typed space sheet.now link x → Typed space second.now 1 c → coercion (for_list rules) x c ≡ Some c }
{
    let x = head_at(sheet, link);
    let v = head_at(second, bottom.core);
    let wrapped = kind::LIST <= head_at(second, 1).kind;
    if is_plain(x) && is_plain(v) {
        let new = plain_type_of(x);
        let old = plain_type_of(v);
        if wrapped {
            !gives_way(v, bottom) && is_common(rules, old, new, old)
        } else {
            is_common(rules, new, old, old)
        }
    } else {
        wrapped && stays_zoned(v, x)
    }
}

// Whether a step lays Utf8View.
fn lays_view(step: Option<Step>) -> bool
    ensures { result ≡ lays_view step }
{
    matches!(step, Some(Step::Lay(f)) if f.kind == kind::UTF8_VIEW)
}

/// Whether the candidate at record 1 of the second half, whose core is at record `core`, is known
/// to be wrappers around a core without parts, which alone changes under the type at a link of the
/// sheet. Types of Utf8View are left to the merge, as a Dictionary gives way to it. A no says
/// nothing.
pub(crate) fn is_core_alone(
    sheet: &[u8],
    second: &[u8],
    space: Space,
    rules: Rules,
    link: usize,
    core: usize,
) -> bool
    ensures { result ≡ true → CoreAt space second.now 1 core → (x c : DataType) → Typed space sheet.now link x → Typed space second.now 1 c → CoreAlone (for_list rules) x c }
{
    let x = head_at(sheet, link);
    let y = head_at(second, core);
    kind::LIST <= head_at(second, 1).kind
        && x.kind < kind::LIST
        && y.kind < kind::LIST
        && x.kind != kind::UTF8_VIEW
        && y.kind != kind::UTF8_VIEW
        && !lays_view(plain_heads(rules.for_list(), y, x))
}
