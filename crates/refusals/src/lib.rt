//! The check of a sheet, which gives refusals 1 to 5 (docs/FORMAT.md).
#![tactic(auto)]

/// The header of a sheet and the kinds of its records: refusals 1 and 2.
pub mod header;
/// The listing of a sheet's types.
pub mod listing;
mod name_numbers;
mod name_order;
mod pass;
mod records;
/// Whether two fields of one Struct have one name: a part of refusal 5.
pub mod repeated_names;
mod walk;

ghost use Rattle.std.specs.Prelude.{◌≡◌};
ghost use Rattle.sheet.specs.Refusals.{refusal, meaning, verdict};
ghost use Rattle.refusals.specs.Found.{WalkFound, number_met};

use header::Framed;
use records::Records;
use repeated_names::names_repeat;
use sheet::{Refusal, Sizes};

// What a walk has found so far: the next record, the next label, and whether a figure or a label is wrong.
#[derive(Clone, Copy)]
struct Progress {
    due: usize,
    at: usize,
    figure: bool,
    label: bool,
}

/// Checks a sheet of any bytes: the refusal with the lowest number that applies, or the header's n and m.
pub fn check(s: &[u8]) -> Result<Sizes, Refusal>
    ensures { meaning result ≡ verdict s.now }
{
    let Some(framed) = Framed::of(s) else {
        return Err(Refusal::Torn);
    };
    check_framed(framed)?;
    Ok(Sizes {
        n: framed.n,
        m: framed.m,
    })
}

/// Checks a sheet that is known not to be torn: refusals 2 to 5.
pub fn check_framed(framed: Framed<'_>) -> Result<(), Refusal>
    ensures { number_met result ≡ refusal framed.entry.sheet.now }
{
    let Framed { sheet, n, .. } = framed;
    let records = Records { sheet, n };
    if records.odd_kind() {
        return Err(Refusal::Kind);
    }
    let link = usize::from(1 < n);
    let Some((p, _)) = records.walk_all(link) else {
        return Err(Refusal::Chain);
    };
    check_found(framed, link, p)
}

// The answer once the walk over a whole sheet came to its end.
fn check_found(framed: Framed<'_>, link: usize, p: Progress) -> Result<(), Refusal>
    requires { WalkFound framed.sheet.now framed.n framed.m link p }
    ensures { number_met result ≡ refusal framed.entry.sheet.now }
{
    let Framed { sheet, n, m } = framed;
    if p.due != n {
        return Err(Refusal::Chain);
    }
    if p.figure {
        return Err(Refusal::Figure);
    }
    if p.label || p.at != m {
        return Err(Refusal::Label);
    }
    // The header, a Struct and two fields of one name are four records.
    if 4 <= n && names_repeat(sheet, n) {
        return Err(Refusal::Label);
    }
    Ok(())
}
