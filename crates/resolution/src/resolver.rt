//! What all functions of a fold share.

ghost use Rattle.std.specs.Prelude.{◌<◌};

use buffers::Space;
use coercion::Rules;

/// The sheet and its sizes, and the rules. The sheet lists a type.
#[derive(Clone, Copy)]
pub(crate) struct Resolver<'a> {
    pub sheet: &'a [u8],
    pub space: Space,
    pub rules: Rules,
    ghost listed: { 1 < space.n },
}
