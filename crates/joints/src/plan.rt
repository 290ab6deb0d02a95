// A joint plan: how many bodies there are, and the joints between them. Its facts are ghost fields and not a model, which would
// hide them from the law of criteria.
ghost use Rattle.std.specs.Prelude.{◌≡◌, ◌≤◌, true, vec_capacity};
ghost use Rattle.joints.specs.Held.{held};
ghost use Rattle.joints.specs.Plans.{sound};

use crate::joint::Joint;

#[derive(Drop)]
pub struct JointPlan {
    pub(crate) bodies: u32,
    pub(crate) joints: Vec<Joint>,
    ghost ok: { sound (held bodies joints) ≡ true },
    ghost room: { 31 ≤ vec_capacity joints },
}
