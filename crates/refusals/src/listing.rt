//! The listing of a sheet's types.
ghost use Rattle.std.specs.Prelude.{◌≡◌, set};
ghost use Rattle.sheet.specs.Types.{arity};
ghost use Rattle.sheet.specs.Read.{read};
ghost use Rattle.sheet.specs.Refusals.{refusal};
ghost use Rattle.refusals.specs.Listing.{kinds, over, seen_in, listing};

use crate::check;
use sheet::Refusal;
use sheet::reader::{first_listed, look};

/// Puts the kinds of a sheet's listed types at the front of the output, one byte each, as far as it has room, and gives
/// how many types they are. A sheet that is refused leaves the output as it was.
pub fn listed_kinds(sheet: &[u8], output: &mut [u8]) -> Result<usize, Refusal>
    ensures { seen_in result output.new ≡ listing sheet.now output.old }
{
    check(sheet)?;
    Ok(list_kinds(sheet, output))
}

// The kinds of an accepted sheet's types, and how many they are.
fn list_kinds(sheet: &[u8], output: &mut [u8]) -> usize
    requires { refusal sheet.now ≡ 0 }
    ensures { (result ≡ arity (read sheet.now)) × (output.new ≡ over (kinds (read sheet.now)) output.old) }
{
    let mut at = first_listed(sheet);
    let mut i = 0;
    while at != 0 {
        let e = look(sheet, at);
        put(output, i, e.kind);
        at = e.next;
        i += 1;
    }
    i
}

// Stores a byte where there is room.
fn put(output: &mut [u8], i: usize, b: u8)
    ensures { output.new ≡ set output.old i b }
{
    if i < output.len() {
        output[i] = b;
    }
}
