//! Units and times. A kind is the byte of a record, and every function here takes any byte.
ghost use Rattle.std.specs.Prelude.{◌≡◌};
ghost use Rattle.coercion.specs.Times.{timeunit_coercion, temporal_coercion, is_time_with_valid_unit};
ghost use Rattle.plain.specs.Ordered.{ordered_temporal};

use coercion::Figures;
use sheet::kind::{self, within};

/// `timeunit_coercion` of the source: the finer unit, which has the greater number.
pub fn timeunit_coercion(u: u8, v: u8) -> u8
    ensures { result ≡ timeunit_coercion u v }
{
    u.max(v)
}

/// The finest unit of a time or a Timestamp.
pub const NANOSECOND: u8 = 3;

/// The unit of an Interval that counts months, days and nanoseconds.
pub const MONTH_DAY_NANO: u8 = 2;

// The rules of `temporal_coercion` for two kinds in one order: two spans; a date with an integer, Date64 with Date32,
// and a date with a time or a Timestamp.
#[tactic(auto, unfolding(sheet::specs::Booleans::between))]
fn ordered_temporal(k: u8, j: u8) -> Option<Figures>
    ensures { result ≡ ordered_temporal k j }
{
    match (k, j) {
        (kind::INTERVAL | kind::DURATION, kind::INTERVAL | kind::DURATION) => {
            Some(Figures::of_unit(kind::INTERVAL, MONTH_DAY_NANO))
        }
        (kind::DATE32, kind::INT8..=kind::UINT64) => Some(Figures::of_kind(kind::DATE32)),
        (kind::DATE64, kind::INT8..=kind::UINT64 | kind::DATE32) => {
            Some(Figures::of_kind(kind::DATE64))
        }
        (kind::DATE32 | kind::DATE64, kind::TIME32..=kind::TIMESTAMP) => {
            Some(Figures::of_unit(kind::TIMESTAMP, NANOSECOND))
        }
        _ => None,
    }
}

/// `temporal_coercion` of the source, on kinds. Two Timestamps are not among them.
#[tactic(auto, using(crate::proofs::Ordering::times))]
pub fn temporal_coercion(k: u8, j: u8) -> Option<Figures>
    ensures { result ≡ temporal_coercion k j }
{
    ordered_temporal(k, j).or(ordered_temporal(j, k))
}

/// `is_time_with_valid_unit` of the source: seconds or milliseconds of Time32, microseconds or nanoseconds of Time64.
#[tactic(auto, unfolding(coercion::specs::Times::is_time_with_valid_unit))]
pub fn is_time_with_valid_unit(k: u8, unit: u8) -> bool
    ensures { result ≡ is_time_with_valid_unit k unit }
{
    k == kind::TIME32 && unit <= 1 || k == kind::TIME64 && within(2, NANOSECOND, unit)
}
