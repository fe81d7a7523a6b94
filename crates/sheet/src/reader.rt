//! A thin reader of a sheet: it borrows the bytes and stands at a record. It reads any bytes, accepted or not.
//!
//! Record 0 is the header and no type: a link to it ends a chain, and it reads as zeros.
ghost use Rattle.std.specs.Prelude.{◌≡◌, ◌<◌, get_or};
ghost use Rattle.sheet.specs.Bounds.{Bounded};
ghost use Rattle.sheet.specs.Read.{records_of, start};
ghost use Rattle.sheet.specs.Reader.{type_at, listed_at, kind_at, first_at, next_at, name_at, entry_at};

use crate::Head;
use crate::label::label_at;
use crate::record::head_at;

/// A sheet and the record at which it is read.
#[derive(Clone, Copy)]
pub struct Reader<'a> {
    /// The bytes of the sheet.
    pub sheet: &'a [u8],
    /// The number of the record, 0 where a chain has ended.
    pub at: usize,
}

/// What a record says, besides its figures and its name.
#[derive(Clone, Copy)]
pub struct Entry {
    /// The kind of its type, 0 where there is no record.
    pub kind: u8,
    /// The record of its first part, 0 for none.
    pub first: usize,
    /// The next record of its chain, 0 at its end.
    pub next: usize,
}

impl<'a> Reader<'a> {
    /// A reader at the first listed type, or at record 0 where there is none.
    pub fn new(sheet: &'a [u8]) -> Reader<'a>
        ensures { (result.sheet ≡ sheet.entry) × (result.at ≡ listed_at sheet.now) }
    {
        Reader {
            sheet,
            at: first_listed(sheet),
        }
    }

    /// The same where the header is known to say n records.
    pub fn listed(sheet: &'a [u8], n: usize) -> Reader<'a>
        ensures { (result.sheet ≡ sheet.entry) × (result.at ≡ start n) }
    {
        Reader {
            sheet,
            at: usize::from(1 < n),
        }
    }

    /// The sixteen bytes of the record, zeros where the chain has ended.
    pub fn head(self) -> Head
        ensures { (result ≡ type_at self.entry.sheet.now self.entry.at) × Bounded result }
    {
        type_at(self.sheet, self.at)
    }

    /// The kind of the type, 0 where the chain has ended.
    pub fn kind(self) -> u8
        ensures { result ≡ kind_at self.entry.sheet.now self.entry.at }
    {
        kind_at(self.sheet, self.at)
    }

    /// The reader at the first part, or at record 0 where there is none.
    pub fn first_part(self) -> Reader<'a>
        ensures { (result.sheet ≡ self.entry.sheet) × (result.at ≡ first_at self.entry.sheet.now self.entry.at) }
    {
        Reader {
            at: first_at(self.sheet, self.at),
            ..self
        }
    }

    /// The reader at the next record of the chain, or at record 0 at its end.
    pub fn next(self) -> Reader<'a>
        ensures { (result.sheet ≡ self.entry.sheet) × (result.at ≡ next_at self.entry.sheet.now self.entry.at) }
    {
        Reader {
            at: next_at(self.sheet, self.at),
            ..self
        }
    }

    /// The name, as a part of the sheet; no bytes where there is none.
    pub fn name(self) -> &'a [u8]
        ensures { result.now ≡ name_at self.entry.sheet.now self.entry.at }
    {
        name_at(self.sheet, self.at)
    }
}

/// What a reader at record `at` says, for a caller that has no reader.
pub fn look(sheet: &[u8], at: usize) -> Entry
    ensures { result ≡ entry_at sheet.now at }
{
    let r = Reader { sheet, at };
    Entry {
        kind: r.kind(),
        first: r.first_part().at,
        next: r.next().at,
    }
}

// A byte, 0 past the end.
fn byte_at(s: &[u8], i: usize) -> usize
    ensures { (result ≡ get_or s.now i 0) × (result < 256) }
{
    s.get(i).map_or(0, |&b| usize::from(b))
}

/// The header's number of records, the header included. A byte that is missing counts as 0.
pub fn records_of(s: &[u8]) -> usize
    ensures { (result ≡ records_of s.now) × (result < 65536) }
{
    byte_at(s, 0) + 256 * byte_at(s, 1)
}

// The head of the type at a record.
#[tactic(auto, unfolding(crate::specs::Reader::type_at))]
fn type_at(s: &[u8], at: usize) -> Head
    ensures { (result ≡ type_at s.now at) × Bounded result }
{
    if at != 0 {
        head_at(s, at)
    } else {
        Head::default()
    }
}

/// The record of the first listed type, 0 where the list is empty.
pub fn first_listed(s: &[u8]) -> usize
    ensures { result ≡ listed_at s.now }
{
    usize::from(1 < records_of(s))
}

/// The kind of the type at a record, 0 where the chain has ended.
pub fn kind_at(s: &[u8], at: usize) -> u8
    ensures { result ≡ kind_at s.now at }
{
    type_at(s, at).kind
}

/// The record of the first part of a record, 0 for none.
pub fn first_at(s: &[u8], at: usize) -> usize
    ensures { result ≡ first_at s.now at }
{
    type_at(s, at).first
}

/// The next record of the chain, 0 at its end.
pub fn next_at(s: &[u8], at: usize) -> usize
    ensures { result ≡ next_at s.now at }
{
    type_at(s, at).next
}

/// The name of a record, as a part of the sheet; no bytes where there is none.
pub fn name_at(s: &[u8], at: usize) -> &[u8]
    ensures { result.now ≡ name_at s.now at }
{
    let h = type_at(s, at);
    label_at(s, records_of(s), h.name, h.name_len)
}
