//! Whether names are equal, found by putting the records that have them in order.
ghost use Rattle.std.specs.Prelude.{◌≡◌, ℕ, ◌+◌, ◌<◌, true, false, length};
ghost use Rattle.std.specs.Bool.{MatchBool};
ghost use Rattle.sheet.specs.Names.{same_bytes};
ghost use Rattle.refusals.specs.RepeatedNames.{name_at, HasEqual};

use crate::records::Records;

impl Records<'_> {
    // Whether two neighbours have one name.
    fn neighbours_agree(self, recs: &[u16]) -> bool
        ensures { MatchBool result ((k : ℕ) × (k + 1 < length recs.now) × (same_bytes (name_at self.entry.sheet.now self.entry.n recs.now k) (name_at self.entry.sheet.now self.entry.n recs.now (k + 1)) ≡ true)) ((k : ℕ) → k + 1 < length recs.now → same_bytes (name_at self.entry.sheet.now self.entry.n recs.now k) (name_at self.entry.sheet.now self.entry.n recs.now (k + 1)) ≡ false) }
    {
        recs.windows(2).any(|w| self.have_one_name(w[0], w[1]))
    }

    // Whether two of several records have one name, found in bounded time whatever the names are.
    pub(crate) fn by_order(self, recs: &mut [u16]) -> bool
        ensures { HasEqual (name_at self.entry.sheet.now self.entry.n recs.old) (length recs.old) result }
    {
        recs.sort_unstable_by(|a, b| self.record_name(*a).cmp(self.record_name(*b)));
        self.neighbours_agree(recs)
    }
}
