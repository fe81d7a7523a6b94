//! Writing into a buffer: bytes, the head of a record, the header of a sheet.
ghost use Rattle.std.specs.Prelude.{◌≡◌, ◌+◌, ◌<◌, ◌≤◌, ◌++◌, length, drop};
ghost use Rattle.sheet.specs.Head.{bytes_of};
ghost use Rattle.sheet.specs.Encode.{header};
ghost use Rattle.sheet.specs.Bounds.{Bounded};
ghost use Rattle.sheet.specs.Writes.{Put};

use crate::Head;
use crate::limits::RECORD_BYTES;

/// Puts bytes into a buffer, from `at` on.
pub fn put(buffer: &mut [u8], at: usize, bytes: &[u8])
    requires { at + length bytes.now ≤ length buffer.old }
    ensures { Put buffer.old buffer.new at bytes.now }
{
    buffer[at..at + bytes.len()].copy_from_slice(bytes);
}

/// Puts the sixteen bytes of a head into a buffer, from `at` on.
pub fn put_head(buffer: &mut [u8], at: usize, h: Head)
    requires { (at + RECORD_BYTES ≤ length buffer.old) × Bounded h }
    ensures { Put buffer.old buffer.new at (bytes_of h) }
{
    let quad = (h.bytes_4_7 as u32).to_le_bytes();
    let first = (h.first as u16).to_le_bytes();
    let next = (h.next as u16).to_le_bytes();
    let name = (h.name as u16).to_le_bytes();
    let bytes = [
        h.kind,
        h.flags,
        h.figure,
        h.scale,
        quad[0],
        quad[1],
        quad[2],
        quad[3],
        first[0],
        first[1],
        next[0],
        next[1],
        name[0],
        name[1],
        h.name_len as u8,
        h.byte_15,
    ];
    put(buffer, at, &bytes)
}

/// Writes the header of a sheet of n records and m label bytes to the front of a buffer.
pub fn write_header(n: usize, m: usize, buffer: &mut [u8])
    requires { (n < 65536) × ((m < 65536) × (RECORD_BYTES ≤ length buffer.old)) }
    ensures { buffer.new ≡ header n m ++ drop RECORD_BYTES buffer.old }
{
    buffer[..2].copy_from_slice(&(n as u16).to_le_bytes());
    buffer[2..4].copy_from_slice(&(m as u16).to_le_bytes());
    buffer[4..RECORD_BYTES].fill(0);
}
