//! The zone of two Timestamps: the left's if it has one, else the right's.
ghost use Rattle.std.specs.Prelude.{◌≡◌, not, ◌≤◌, length};
ghost use Rattle.buffers.specs.Zones.{side, choice};

/// Where a zone stands in a slice. A present zone may be empty, and an absent one has an empty place.
#[derive(Clone, Copy)]
pub(crate) struct ZonePlace {
    /// Whether the Timestamp has a zone; read of the left alone.
    pub present: bool,
    /// Where the zone begins.
    pub from: usize,
    /// The first byte behind it.
    pub upto: usize,
}

/// The left's zone if it has one, else the right's, as a part of the slice that it stands in. The left stands in the
/// candidate where swap is set, and else in the sheet; the right stands in the other.
pub(crate) fn zone_coercion<'a>(
    sheet: &'a [u8],
    candidate: &'a [u8],
    swap: bool,
    l: ZonePlace,
    r: ZonePlace,
) -> &'a [u8]
    requires left_in_bounds { (l.from ≤ l.upto) × (l.upto ≤ length (side swap sheet.now candidate.now)) }
    requires right_in_bounds { (r.from ≤ r.upto) × (r.upto ≤ length (side (not swap) sheet.now candidate.now)) }
    ensures { result.now ≡ choice sheet.now candidate.now swap l r }
{
    let (zone, in_candidate) = if l.present { (l, swap) } else { (r, !swap) };
    if in_candidate {
        &candidate[zone.from..zone.upto]
    } else {
        &sheet[zone.from..zone.upto]
    }
}
