//! Writing the one-type sheet of an answer.
ghost use Rattle.std.specs.Prelude.{◌≡◌, ◌+◌, ◌*◌, ◌≤◌, length};
ghost use Rattle.buffers.specs.Region.{Room, Inside};
ghost use Rattle.answers.specs.Code.{Emits};

use buffers::{Place, Space};
use sheet::label::copy;
use sheet::limits::RECORD_BYTES;
use sheet::write::write_header;

// Writes the one-type sheet of the type that ends at d in the second half of the work space to the front of an
// output, and says how long it is.
pub(crate) fn write_type(work: &[u8], space: Space, d: Place, output: &mut [u8]) -> usize
    requires { Room work.now space × (Inside space d × (space.half ≤ length output.old)) }
    ensures { (result ≡ RECORD_BYTES * d.at + d.label) × Emits space d work.now output.old output.new }
{
    let records = space.half + RECORD_BYTES;
    let labels = space.half + RECORD_BYTES * space.n;
    let end = RECORD_BYTES * d.at;
    write_header(d.at, d.label, output);
    copy(
        &work[records..space.half + end],
        &mut output[RECORD_BYTES..],
    );
    copy(&work[labels..labels + d.label], &mut output[end..]);
    end + d.label
}
