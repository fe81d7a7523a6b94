//! A candidate that is wrappers around a type without parts.

ghost use Rattle.coercion.specs.Answers.{coercion};
ghost use Rattle.coercion.specs.Data.{for_list};
ghost use Rattle.buffers.specs.Region.{Room, Inside};
ghost use Rattle.resolution.specs.Reached.{Candidate, Cored, Steps};

use crate::resolver::Resolver;
use buffers::{Failure, Place, Target, Written};
use merge::known::Known;
use sheet::figure::label_bytes;
use sheet::record::head_at;

impl Resolver<'_> {
    /// The common type of the type at a link and such a candidate that ends at `d`, where only the
    /// core changes. The core's record is the last, and so are its labels: it is written anew, and
    /// the wrappers stay.
    pub(crate) fn step_core(&self, work: &mut [u8], link: usize, d: Place) -> Written
        requires room { Room work.old self.now.space × Inside self.now.space d }
        requires cored { Cored (for_list self.now.rules) self.now.space self.now.sheet.now work.old link d }
        ensures { Steps (coercion (for_list self.now.rules)) self.now.space (Candidate self.now.space work.old d) self.now.sheet.now work.old work.new link result }
    {
        if d.at < 2 {
            return Err(Failure::NoType);
        }
        let at = d.at - 1;
        let h = head_at(&work[self.space.half..], at);
        let own = label_bytes(h);
        if d.label < own {
            return Err(Failure::NoType);
        }
        let g = Target {
            at,
            label: d.label - own,
            name_len: h.name_len,
            nullable: h.nullable(),
        };
        self.move_candidate_down(work, d);
        let merger = self.merger(self.rules.for_list(), true);
        let known = Known {
            left: 2 * self.space.n,
            differs: None,
            hint: 0,
        };
        merger.coerce(work, known, at, link, g)
    }
}
