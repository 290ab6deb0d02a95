// A plan's parts and its sheet.
ghost use Rattle.std.specs.Prelude.{◌≡◌, ◌<◌, ◌≤◌, map, length};
ghost use Rattle.base.specs.Outcomes.{accepted};
ghost use Rattle.base.specs.Places.{overwritten, written};
ghost use Rattle.base.specs.Refusals.{outcome};
ghost use Rattle.joints.specs.Admission.{admission};
ghost use Rattle.joints.specs.Held.{joint_of};
ghost use Rattle.joints.specs.Plans.{sheet};
ghost use Rattle.joints.specs.Views.{plan_of};

use crate::joint::Joint;
use crate::plan::JointPlan;
use base::Refusal;

impl JointPlan {
    pub fn bodies(&self) -> u32
        ensures counts_the_bodies { result ≡ (plan_of self.now).bodies }
    {
        self.bodies
    }

    pub fn joints(&self) -> &[Joint]
        ensures shows_the_joints { map joint_of result.now ≡ (plan_of self.now).joints }
    {
        self.joints.as_slice()
    }

    // How many joints there are.
    pub(crate) fn joint_count(&self) -> usize
        ensures value { result ≡ length (plan_of self.now).joints }
        ensures few { result ≤ 31 }
    {
        self.joints.len()
    }

    // How many words its sheet has.
    pub fn words(&self) -> usize
        ensures counts_the_words { result ≡ length (sheet (plan_of self.now)) }
    {
        self.bodies as usize + self.joint_count() + 2
    }

    // Writes its sheet in front and answers how many words it has.
    pub fn write(&self, places: &mut [u64]) -> Result<usize, Refusal>
        ensures answers_the_length { outcome (λ n. n) result ≡ written (sheet (plan_of self.now)) places.old }
        ensures fills_the_front { places.new ≡ overwritten (sheet (plan_of self.now)) places.old }
        ensures is_admitted_as_the_plan { admission (sheet (plan_of self.now)) ≡ accepted (plan_of self.now) }
    {
        let len = self.words();
        if places.len() < len {
            return Err(Refusal::TooFewPlaces);
        }
        let bodies = self.bodies as usize;
        places[0] = u64::from(self.bodies);
        places[1..=bodies].fill(0);
        places[bodies + 1] = self.joints.len() as u64;
        // not through `iter_mut`: std says nothing of what is written so
        for (k, joint) in self.joints.iter().enumerate() {
            places[bodies + 2 + k] = (*joint).into();
        }
        Ok(len)
    }
}
