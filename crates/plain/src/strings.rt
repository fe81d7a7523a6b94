//! Strings and binary. A kind is the byte of a record, and every function here takes any byte.
ghost use Rattle.std.specs.Prelude.{◌≡◌};
ghost use Rattle.coercion.specs.Strings.{string_coercion, binary_coercion};
ghost use Rattle.plain.specs.Ordered.{ordered_binary};

use sheet::kind::{self, is_string};

/// `string_coercion` of the source, on kinds: the greater kind, as Utf8View comes last and Utf8 first.
#[tactic(auto, using(crate::proofs::TwoStrings::string_max, crate::proofs::TwoStrings::no_strings))]
pub fn string_coercion(k: u8, j: u8) -> Option<u8>
    ensures { result ≡ string_coercion k j }
{
    (is_string(k) && is_string(j)).then_some(k.max(j))
}

// The rules of `binary_coercion` for two kinds in one order: Binary, LargeBinary or BinaryView with a string, a
// binary or a FixedSizeBinary.
#[tactic(auto, unfolding(sheet::specs::Booleans::between))]
fn ordered_binary(k: u8, j: u8) -> Option<u8>
    ensures { result ≡ ordered_binary k j }
{
    match (k, j) {
        (kind::BINARY, kind::UTF8 | kind::BINARY | kind::FIXED_SIZE_BINARY) => Some(kind::BINARY),
        (kind::BINARY, kind::LARGE_UTF8 | kind::UTF8_VIEW)
        | (kind::LARGE_BINARY, kind::UTF8..=kind::LARGE_BINARY) => Some(kind::LARGE_BINARY),
        (kind::BINARY_VIEW, kind::UTF8..=kind::FIXED_SIZE_BINARY) => Some(kind::BINARY_VIEW),
        _ => None,
    }
}

/// `binary_coercion` of the source, on kinds.
#[tactic(auto, using(crate::proofs::Ordering::binaries))]
pub fn binary_coercion(k: u8, j: u8) -> Option<u8>
    ensures { result ≡ binary_coercion k j }
{
    ordered_binary(k, j).or(ordered_binary(j, k))
}
