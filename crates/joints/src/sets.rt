// Sets of joints as a criterion: yes for a set that has a closed part.
ghost use Rattle.std.specs.Prelude.{◌≡◌, ℕ, ◌<◌, true, ◌↔◌};
ghost use Rattle.itemset.specs.Sets.{◌∈◌};
ghost use Rattle.joints.specs.Closed.{HasClosedPart, Stays, joint_sets, touches, touching};
ghost use Rattle.joints.specs.Held.{joint_of};
ghost use Rattle.joints.specs.Views.{plan_of};
ghost use Rattle.joints.specs.Lawful.{sets_lawful};

use crate::joint::Joint;
use crate::plan::JointPlan;
use criterion::{Criterion, Group, GroupedCriterion};
use itemset::WordSet;

// The joints of a plan are the items.
#[derive(Drop)]
pub struct JointSets {
    plan: JointPlan,
}

impl Joint {
    // Its two bodies.
    fn ends(&self) -> u32
        requires { (self.now.first < 32) × (self.now.second < 32) }
        ensures { (b : ℕ) → b ∈ result ↔ (touches (joint_of self.now) b ≡ true) }
    {
        (1 << self.first) | (1 << self.second)
    }
}

impl JointPlan {
    // The bodies that exactly one joint of the set touches.
    fn loose_bodies(&self, set: u32) -> u32
        ensures { (b : ℕ) → b ∈ result ↔ (touching (plan_of self.now) set b ≡ 1) }
    {
        let mut once = 0;
        let mut more = 0;
        for (k, joint) in self.joints.iter().enumerate() {
            if set.holds(k as u32) {
                let ends = joint.ends();
                more |= once & ends;
                once |= ends;
            }
        }
        once & !more
    }

    // The joints of the set that touch no loose body.
    fn strip(&self, set: u32) -> u32
        ensures { (i : ℕ) → i ∈ result ↔ Stays (plan_of self.now) set i }
    {
        let loose = self.loose_bodies(set);
        let mut rest = 0;
        for (k, joint) in self.joints.iter().enumerate() {
            if set.holds(k as u32) && joint.ends() & loose == 0 {
                rest |= 1 << k;
            }
        }
        rest
    }
}

impl JointSets {
    pub fn new(plan: JointPlan) -> JointSets
        ensures holds_the_plan { result.plan ≡ plan }
    {
        JointSets { plan }
    }

    // The plan again.
    pub fn into_plan(self) -> JointPlan
        ensures gives_it_back { result ≡ self.plan }
    {
        self.plan
    }
}

impl Criterion for JointSets {
    const LIMIT: u32 = 31;

    ghost LIMIT = { 31 };

    ghost meaning = { λ j. joint_sets (plan_of j.plan) };

    ghost lawful = { λ c. sets_lawful (plan_of c.plan) c.plan.ok };

    fn count(&self) -> u32 {
        self.plan.joint_count() as u32
    }

    fn check(&mut self, set: u32) -> bool
        ensures answers_the_verdict { (joint_sets (plan_of self.old.plan)).order ≡ true → result ≡ (joint_sets (plan_of self.old.plan)).verdict set }
        ensures keeps_the_meaning { joint_sets (plan_of self.new.plan) ≡ joint_sets (plan_of self.old.plan) }
        ensures yes_exactly_with_a_closed_part { (result ≡ true) ↔ HasClosedPart (plan_of self.old.plan) set }
    {
        let mut rest = set;
        // until nothing changes: there is no list to go over
        loop {
            let next = self.plan.strip(rest);
            if next == rest {
                return rest != 0;
            }
            rest = next;
        }
    }
}

impl GroupedCriterion for JointSets {
    fn group(&self, item: u32) -> Group {
        let joint = self.plan.joints.get(item as usize);
        joint.map_or(Group::Third, |joint| joint.class)
    }
}
