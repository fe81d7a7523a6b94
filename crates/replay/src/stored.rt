//! The stored calls, as oracle/vectors/README.md has their form.
ghost use Rattle.std.specs.Prelude.{◌≡◌, ◌+◌, ◌≤◌, take, drop};
ghost use Rattle.replay.specs.Stored.{question_in, length_in, expected_in, number_at, entry_in};

pub use coercion::Question;
use std::{fmt, io};

// The number that stands for a type that is expected.
const TYPE: u8 = 32;

/// A file that cannot be read, is not in that form, or has a vector that does not fit the room for it.
#[derive(Clone, Copy)]
pub struct Broken;

impl From<io::Error> for Broken {
    fn from(_e: io::Error) -> Broken {
        Broken
    }
}

// The question of a vector, by its number.
fn question_of(n: u8) -> Result<Question, Broken>
    ensures { result ≡ question_in n }
{
    match n {
        1 => Ok(Question::List),
        2 => Ok(Question::Union),
        3 => Ok(Question::Compare),
        _ => Err(Broken),
    }
}

/// What a call answers: none; a type, by the byte length of its one-type sheet; or a refusal, by its number.
#[derive(Clone, Copy, PartialEq)]
pub struct Reply(pub Result<Option<usize>, u8>);

impl Reply {
    /// The byte length of a type's sheet, 0 where there is no type, as the file has it in each vector.
    pub fn length(&self) -> usize
        ensures { result ≡ length_in self.now.0 }
    {
        match self.0 {
            Ok(Some(length)) => length,
            _ => 0,
        }
    }
}

// By the numbers of the file.
impl fmt::Display for Reply {
    fn fmt<W: fmt::Write>(&self, f: &mut fmt::Formatter<W>) -> fmt::Result {
        match self.0 {
            Ok(None) => write!(f, "0"),
            Ok(Some(length)) => write!(f, "{TYPE} of length {length}"),
            Err(refusal) => write!(f, "{refusal}"),
        }
    }
}

/// A stored call without its bytes: its question, the answer that is expected, the lengths of what is lent and
/// stored, and the mask. The length of the stored answer stands beside what is expected, as the file has it for each
/// call: a call that expects no type is wrong where it is not 0.
#[derive(Clone, Copy)]
pub struct Vector {
    pub question: Question,
    pub expected: Reply,
    pub output: usize,
    pub work: usize,
    pub sheet: usize,
    pub answer: usize,
    pub mask: u64,
}

// The N bytes from `at`.
fn bytes<const N: usize>(head: &[u8; 32], at: usize) -> [u8; N]
    requires { at + N ≤ 32 }
    ensures { result ≡ take N (drop at head.now) }
{
    let mut b = [0; N];
    b.copy_from_slice(&head[at..at + N]);
    b
}

// The number in the four bytes from `at`.
fn number_at(head: &[u8; 32], at: usize) -> usize
    requires { at + 4 ≤ 32 }
    ensures { result ≡ number_at head.now at }
{
    u32::from_le_bytes(bytes(head, at)) as usize
}

// The answer that a number stands for, with the length of the stored answer where it is a type.
fn expected_of(number: u8, length: usize) -> Reply
    ensures { result ≡ expected_in number length }
{
    match number {
        TYPE => Reply(Ok(Some(length))),
        0 => Reply(Ok(None)),
        _ => Reply(Err(number)),
    }
}

/// The stored call that a head describes of which `got` bytes were read, none at the end of the file.
pub fn entry_of(head: &[u8; 32], got: usize) -> Result<Option<Vector>, Broken>
    ensures { result ≡ entry_in head.now got }
{
    if got == 0 {
        return Ok(None);
    }
    if got < 32 {
        return Err(Broken);
    }
    Ok(Some(Vector {
        question: question_of(head[0])?,
        expected: expected_of(head[1], number_at(head, 24)),
        output: number_at(head, 4),
        work: number_at(head, 8),
        sheet: number_at(head, 12),
        answer: number_at(head, 24),
        mask: u64::from_le_bytes(bytes(head, 16)),
    }))
}
