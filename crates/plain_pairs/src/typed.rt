//! Types without parts, as the file has them and as sheets do.
ghost use Rattle.std.specs.Prelude.{◌≡◌, ◌≤◌, length, IfSome, [], ◌∷◌};
ghost use Rattle.sheet.specs.Bounds.{Bounded};
ghost use Rattle.sheet.specs.Reader.{type_at, listed_at};

use sheet::Head;
use sheet::kind::TIMESTAMP;
use sheet::label::{label_at, same};
use sheet::reader::Reader;
use sheet::write::{put, put_head, write_header};
use std::fmt;

/// Room for the sheet of a pair: its header, two records and two zones.
pub const ROOM: usize = 60;

/// A type without parts. `zone` is the number of a Timestamp's zone, 0 for none, or the size of a FixedSizeBinary, as
/// the file has it: the kind says which.
#[derive(Clone, Copy, Default, PartialEq)]
pub struct Plain {
    pub kind: u8,
    pub figure: u8,
    pub scale: u8,
    pub zone: u8,
}

// The zones of the file, by their numbers.
fn zone_of(number: u8) -> Option<&'static [u8]>
    ensures { IfSome result (λ zone. length zone.now ≤ 6) }
{
    match number {
        1 => Some(b""),
        2 => Some(b"UTC"),
        3 => Some(b"+02:00"),
        _ => None,
    }
}

// The number of a zone, 255 for one that the file does not have.
fn number_of(zone: &[u8]) -> u8 {
    for number in 1..4u8 {
        if zone_of(number).is_some_and(|known| same(known, zone)) {
            return number;
        }
    }
    255
}

impl Plain {
    // The zone of a Timestamp; None for another type.
    fn zone(self) -> Option<&'static [u8]>
        ensures { IfSome result (λ zone. length zone.now ≤ 6) }
    {
        if self.kind == TIMESTAMP {
            zone_of(self.zone)
        } else {
            None
        }
    }

    // The head of the type, before record `next` of its chain, where a label would begin at `label`.
    fn head(self, next: usize, label: usize) -> Head
        requires { (next ≤ 2) × (label ≤ 6) }
        ensures { Bounded result }
    {
        let (flags, bytes_4_7) = match self.zone() {
            None => (0, usize::from(self.zone)),
            Some([]) => (4, 0),
            Some(zone) => (4, label + 65536 * zone.len()),
        };
        Head {
            kind: self.kind,
            flags,
            figure: self.figure,
            scale: self.scale,
            bytes_4_7,
            next,
            ..Head::default()
        }
    }

    /// The type of a one-type sheet. A zone that the file does not have is 255, and so is a size over 255.
    pub fn read(sheet: &[u8]) -> Plain
        ensures { (result.kind ≡ (type_at sheet.now (listed_at sheet.now)).kind) × ((result.figure ≡ (type_at sheet.now (listed_at sheet.now)).figure) × (result.scale ≡ (type_at sheet.now (listed_at sheet.now)).scale)) }
    {
        let head = Reader::new(sheet).head();
        let zone = if head.zoned() {
            number_of(label_at(sheet, 2, head.zone_at(), head.zone_len()))
        } else {
            u8::try_from(head.bytes_4_7).unwrap_or(255)
        };
        Plain {
            kind: head.kind,
            figure: head.figure,
            scale: head.scale,
            zone,
        }
    }
}

/// The sheet that lists two types, and its length.
pub fn spelled(left: Plain, right: Plain) -> ([u8; ROOM], usize)
    ensures { result.1 ≤ 60 }
{
    let first = left.zone().unwrap_or(b"");
    let second = right.zone().unwrap_or(b"");
    let behind = 48 + first.len();
    let length = behind + second.len();
    let mut sheet = [0; ROOM];
    write_header(3, length - 48, &mut sheet);
    put_head(&mut sheet, 16, left.head(2, 0));
    put_head(&mut sheet, 32, right.head(0, first.len()));
    put(&mut sheet, 48, first);
    put(&mut sheet, behind, second);
    (sheet, length)
}

impl From<[u8; 4]> for Plain {
    ghost from_gives = { λ b p. b ≡ p.kind ∷ p.figure ∷ p.scale ∷ p.zone ∷ [] };

    fn from([kind, figure, scale, zone]: [u8; 4]) -> Plain {
        Plain {
            kind,
            figure,
            scale,
            zone,
        }
    }
}

impl fmt::Display for Plain {
    fn fmt<W: fmt::Write>(&self, f: &mut fmt::Formatter<W>) -> fmt::Result {
        write!(
            f,
            "{} {} {} {}",
            self.kind, self.figure, self.scale, self.zone
        )
    }
}
