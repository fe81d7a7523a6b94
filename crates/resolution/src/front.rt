//! A type without parts that is written where a candidate stands.

ghost use Rattle.std.specs.Prelude.{◌<◌};
ghost use Rattle.buffers.specs.Region.{Room};
ghost use Rattle.plain.specs.Value.{Holdable};
ghost use Rattle.resolution.specs.Reached.{Fronted, JointLaid};

use crate::resolver::Resolver;
use buffers::lay::lay;
use buffers::{Failure, Place, Shape, Target, Written};
use plain::value::PlainType;

/// Where an answer is written: record 1, and the first label.
pub(crate) const FRONT: Place = Place { at: 1, label: 0 };

/// The same place, for a type without a name.
pub(crate) const UNNAMED: Target = Target {
    at: 1,
    label: 0,
    name_len: 0,
    nullable: false,
};

impl Resolver<'_> {
    /// Writes such a type, and says where it ends.
    pub(crate) fn lay_front(&self, work: &mut [u8], x: PlainType) -> Place
        requires { Room work.old self.now.space × (x.size < 4294967296) }
        ensures { Fronted self.now.space work.old work.new x result }
    {
        lay(work, self.space, UNNAMED, Shape::from(x), 0);
        Place { at: 2, label: 0 }
    }

    /// Writes a common type there, if there is one.
    pub(crate) fn lay_joint(&self, work: &mut [u8], joint: Option<PlainType>) -> Written
        requires { Room work.old self.now.space × Holdable joint }
        ensures { JointLaid self.now.space work.old work.new joint result }
    {
        let x = joint.ok_or(Failure::NoType)?;
        Ok(self.lay_front(work, x))
    }
}
