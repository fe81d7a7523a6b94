//! A sheet's records, figures and labels, and how they are read. The format stands in docs/FORMAT.md.
#![tactic(auto)]

ghost use Rattle.std.specs.Prelude.{◌≡◌, ◌<◌};
ghost use Rattle.sheet.specs.Head.{nullable_in, sorted_in, zoned_in, zone_at, zone_len};
ghost use Rattle.sheet.specs.Refusals.{number_of};

/// The four widths of a decimal and their precision caps.
pub mod caps;
/// The tests of one record: its figures, its number of parts and the places of its labels.
pub mod figure;
/// The kinds of a record, and what belongs together among them.
pub mod kind;
/// Labels as parts of a sheet, and whether two are the same bytes.
pub mod label;
/// What is proved of the definitions of the format.
pub mod laws;
/// The limits of a sheet.
pub mod limits;
/// A thin reader, which stands at a record.
pub mod reader;
/// The heads of records.
pub mod record;
/// Writing into a buffer: bytes, the head of a record, the header of a sheet.
pub mod write;

/// The sixteen bytes of a record, field by field. A kind is any byte here: what is read need not be accepted.
///
/// Links and places are wide enough to be used as an index; that a head which was read fits its bytes says `Bounded`.
#[derive(Clone, Copy, Default)]
pub struct Head {
    /// Byte 0, from 1 to 38 in an accepted sheet.
    pub kind: u8,
    /// Byte 1: bit 0 nullable, bit 1 sorted, bit 2 zone present.
    pub flags: u8,
    /// Byte 2: a decimal's precision, or a unit.
    pub figure: u8,
    /// Byte 3: a decimal's scale, as the byte that is stored.
    pub scale: u8,
    /// Bytes 4 to 7 as one number: the size, or for a zone its offset + 65,536 · its length.
    pub bytes_4_7: usize,
    /// Bytes 8 and 9: the record of the first part, 0 for none.
    pub first: usize,
    /// Bytes 10 and 11: the next record of the chain, 0 at its end.
    pub next: usize,
    /// Bytes 12 and 13: the offset of the name among the labels.
    pub name: usize,
    /// Byte 14: the length of the name.
    pub name_len: usize,
    /// Byte 15, which is zero in an accepted sheet.
    pub byte_15: u8,
}

impl Head {
    /// Bit 0 of byte 1: whether the record may be null as a part of another.
    pub fn nullable(&self) -> bool
        ensures { result ≡ nullable_in self.now }
    {
        self.flags % 2 == 1
    }

    /// Bit 1 of byte 1: whether a Map is sorted.
    pub fn sorted(&self) -> bool
        ensures { result ≡ sorted_in self.now }
    {
        self.flags / 2 % 2 == 1
    }

    /// Bit 2 of byte 1: whether a Timestamp has a zone, which may have no bytes.
    pub fn zoned(&self) -> bool
        ensures { result ≡ zoned_in self.now }
    {
        self.flags / 4 % 2 == 1
    }

    /// Bytes 4 and 5: the offset of a zone among the labels.
    pub fn zone_at(&self) -> usize
        ensures { (result ≡ zone_at self.now) × (result < 65536) }
    {
        self.bytes_4_7 % 65536
    }

    /// Byte 6: the length of a zone.
    pub fn zone_len(&self) -> usize
        ensures { (result ≡ zone_len self.now) × (result < 256) }
    {
        self.bytes_4_7 / 65536 % 256
    }
}

/// Why a sheet is refused, by the words of docs/FORMAT.md.
#[derive(Clone, Copy)]
pub enum Refusal {
    /// 1: the length, n, m or the header's other bytes are wrong.
    Torn,
    /// 2: a record has a kind that is not one of 1 to 38.
    Kind,
    /// 3: a link or a number of parts is wrong.
    Chain,
    /// 4: a figure, a flag, or an unused bit or byte is wrong.
    Figure,
    /// 5: a label is wrong, or two fields of a Struct have one name.
    Label,
}

impl From<Refusal> for u8 {
    ghost from_gives = { λ r n. n ≡ number_of r };

    /// The refusal number.
    fn from(r: Refusal) -> u8 {
        match r {
            Refusal::Torn => 1,
            Refusal::Kind => 2,
            Refusal::Chain => 3,
            Refusal::Figure => 4,
            Refusal::Label => 5,
        }
    }
}

/// The sizes that a header says.
#[derive(Clone, Copy)]
pub struct Sizes {
    /// How many records the sheet has, its header included.
    pub n: usize,
    /// How many label bytes it has.
    pub m: usize,
}
