//! What is read in the first half of the work space: a candidate that is moved from the second,
//! or the sheet's own bytes.

ghost use Rattle.buffers.specs.Region.{Room, Inside};
ghost use Rattle.resolution.specs.Reached.{Shifted, Mirrored};

use crate::resolver::Resolver;
use buffers::Place;

impl Resolver<'_> {
    /// Moves the candidate that ends at `d`.
    pub(crate) fn move_candidate_down(&self, work: &mut [u8], d: Place)
        requires { Room work.old self.now.space × Inside self.now.space d }
        ensures { Shifted self.now.space work.old work.new d }
    {
        let half = self.space.half;
        let labels = 16 * self.space.n;
        work.copy_within(half..half + 16 * d.at, 0);
        work.copy_within(half + labels..half + labels + d.label, labels);
    }

    /// Lays the sheet's bytes in the first half, so that its types can be read from there too.
    pub(crate) fn copy_sheet_down(&self, work: &mut [u8])
        requires { Room work.old self.now.space }
        ensures { Mirrored self.now.space self.now.sheet.now work.old work.new }
    {
        let n = self.sheet.len().min(self.space.half);
        work[..n].copy_from_slice(&self.sheet[..n]);
    }
}
