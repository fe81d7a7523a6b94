//! The kinds of a record, and what belongs together among them. A kind is byte 0 of a record, and every function here
//! takes any byte.
#![tactic(auto, using(std::proofs::lemmas::Bool::Decides::nat_tests), unfolding(crate::specs::Booleans::between, crate::specs::Kind::is_kind, crate::specs::Kind::is_decimal))]

ghost use Rattle.std.specs.Prelude.{◌≡◌};
ghost use Rattle.sheet.specs.Booleans.{between};
ghost use Rattle.sheet.specs.Kind.{is_kind, is_decimal, is_numeric, is_integer, is_string, is_date, is_time, is_list, is_wrapper, one_is};

pub const NULL: u8 = 1;

pub const BOOLEAN: u8 = 2;

pub const INT8: u8 = 3;

pub const INT16: u8 = 4;

pub const INT32: u8 = 5;

pub const INT64: u8 = 6;

pub const UINT8: u8 = 7;

pub const UINT16: u8 = 8;

pub const UINT32: u8 = 9;

pub const UINT64: u8 = 10;

pub const FLOAT16: u8 = 11;

pub const FLOAT32: u8 = 12;

pub const FLOAT64: u8 = 13;

pub const DECIMAL32: u8 = 14;

pub const DECIMAL64: u8 = 15;

pub const DECIMAL128: u8 = 16;

pub const DECIMAL256: u8 = 17;

pub const DATE32: u8 = 18;

pub const DATE64: u8 = 19;

pub const TIME32: u8 = 20;

pub const TIME64: u8 = 21;

pub const TIMESTAMP: u8 = 22;

pub const INTERVAL: u8 = 23;

pub const DURATION: u8 = 24;

pub const UTF8: u8 = 25;

pub const LARGE_UTF8: u8 = 26;

pub const UTF8_VIEW: u8 = 27;

pub const BINARY: u8 = 28;

pub const LARGE_BINARY: u8 = 29;

pub const BINARY_VIEW: u8 = 30;

pub const FIXED_SIZE_BINARY: u8 = 31;

pub const LIST: u8 = 32;

pub const LARGE_LIST: u8 = 33;

pub const FIXED_SIZE_LIST: u8 = 34;

pub const STRUCT: u8 = 35;

pub const MAP: u8 = 36;

pub const DICTIONARY: u8 = 37;

pub const RUN_END_ENCODED: u8 = 38;

/// Whether k is one of lo to hi, both included.
pub fn within(lo: u8, hi: u8, k: u8) -> bool
    ensures { result ≡ between lo hi k }
{
    (lo..=hi).contains(&k)
}

/// Whether one of the kinds k and j is x.
pub fn one_is(x: u8, k: u8, j: u8) -> bool
    ensures { result ≡ one_is x k j }
{
    k == x || j == x
}

/// Whether a byte is a kind, 1 to 38.
pub fn is_kind(k: u8) -> bool
    ensures { result ≡ is_kind k }
{
    within(NULL, RUN_END_ENCODED, k)
}

/// Decimal32 to Decimal256.
pub fn is_decimal(k: u8) -> bool
    ensures { result ≡ is_decimal k }
{
    within(DECIMAL32, DECIMAL256, k)
}

/// An integer, a float or a decimal: `is_numeric` of the source.
pub fn is_numeric(k: u8) -> bool
    ensures { result ≡ is_numeric k }
{
    within(INT8, DECIMAL256, k)
}

/// Int8 to Int64 and UInt8 to UInt64.
pub fn is_integer(k: u8) -> bool
    ensures { result ≡ is_integer k }
{
    within(INT8, UINT64, k)
}

/// Utf8, LargeUtf8 or Utf8View.
pub fn is_string(k: u8) -> bool
    ensures { result ≡ is_string k }
{
    within(UTF8, UTF8_VIEW, k)
}

/// Date32 or Date64.
pub fn is_date(k: u8) -> bool
    ensures { result ≡ is_date k }
{
    within(DATE32, DATE64, k)
}

/// Time32 or Time64; a Timestamp is none.
pub fn is_time(k: u8) -> bool
    ensures { result ≡ is_time k }
{
    within(TIME32, TIME64, k)
}

/// List, LargeList or FixedSizeList.
pub fn is_list(k: u8) -> bool
    ensures { result ≡ is_list k }
{
    within(LIST, FIXED_SIZE_LIST, k)
}

/// A Dictionary or run ends.
pub fn is_wrapper(k: u8) -> bool
    ensures { result ≡ is_wrapper k }
{
    k == DICTIONARY || k == RUN_END_ENCODED
}
