//! The records of a sheet, as many as its header says, and their names.
ghost use Rattle.std.specs.Prelude.{◌≡◌, ◌*◌, ◌<◌, ◌≤◌, length};
ghost use Rattle.sheet.specs.Holds.{Plain};
ghost use Rattle.sheet.specs.Names.{same_bytes};
ghost use Rattle.sheet.specs.declared.limits.TheConstants.{RECORD_BYTES};
ghost use Rattle.refusals.specs.RepeatedNames.{record_name};

use sheet::label::{label_at, same_name};
use sheet::limits::RECORD_BYTES;
use sheet::record::head_at;

// A sheet of n records.
#[derive(Clone, Copy)]
pub(crate) struct Records<'a> {
    pub(crate) sheet: &'a [u8],
    pub(crate) n: usize,
    ghost bytes: { Plain sheet.now },
    ghost few: { n < 65536 },
    ghost inside: { RECORD_BYTES * n ≤ length sheet.now },
}

impl<'a> Records<'a> {
    // The name of record r, as a part of the sheet.
    pub(crate) fn record_name(self, r: u16) -> &'a [u8]
        ensures { result.now ≡ record_name self.entry.sheet.now self.entry.n r }
    {
        let h = head_at(self.sheet, usize::from(r));
        label_at(self.sheet, self.n, h.name, h.name_len)
    }

    // Whether two records have one name.
    pub(crate) fn have_one_name(self, a: u16, b: u16) -> bool
        ensures { result ≡ same_bytes (record_name self.entry.sheet.now self.entry.n a) (record_name self.entry.sheet.now self.entry.n b) }
    {
        let g = head_at(self.sheet, usize::from(a));
        let h = head_at(self.sheet, usize::from(b));
        same_name(self.sheet, self.n, g, self.sheet, self.n, h)
    }
}
