//! Writing labels into the work space.

ghost use Rattle.std.specs.Prelude.{◌+◌, ◌≤◌, ◌<◌, length, take, drop};
ghost use Rattle.buffers.specs.Writes.{side, Put};

use crate::sides::Sides;
use sheet::label::label_at;
use sheet::write::put;

// Puts a label of the work space at another place of it: what lies inside, where the work space
// ends before it does.
fn put_own(work: &mut [u8], from: usize, len: usize, at: usize)
    requires { (from + len < 4294967296) × (at + len ≤ length work.old) }
    ensures { Put work.old work.new at (take len (drop from work.old)) }
{
    let end = (from + len).min(work.len());
    if from < end {
        work.copy_within(from..end, at);
    }
}

impl Sides<'_> {
    /// Puts `len` bytes of the left, from `from` on, into the work space, from `at` on: those that
    /// the left has.
    pub(crate) fn put_label(&self, work: &mut [u8], from: usize, len: usize, at: usize)
        requires { ((from < 1048576) × (len < 65536)) × (at + len ≤ length work.old) }
        ensures { Put work.old work.new at (take len (drop from (side self.now.swap self.now.sheet.now work.old))) }
    {
        if len == 0 {
            return;
        }
        // In the work space the two places may overlap, so its bytes are moved within it.
        if self.swap {
            return put_own(work, from, len, at);
        }
        put(work, at, label_at(self.sheet, from / 16, from % 16, len))
    }
}
