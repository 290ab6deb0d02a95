// Admitting a joint sheet.
ghost use Rattle.std.specs.Prelude.{◌≡◌, ◌<◌, true, [], ◌∷◌, ◌++◌, IfOk, vec_len, OnOk};
ghost use Rattle.base.specs.Outcomes.{standing};
ghost use Rattle.base.specs.Refusals.{outcome};
ghost use Rattle.joints.specs.Admission.{admission};
ghost use Rattle.joints.specs.Held.{joint_of};
ghost use Rattle.joints.specs.Plans.{empty, links as joins, sheet, sound};
ghost use Rattle.joints.specs.Views.{draft_of, plan_of};

use crate::draft::Draft;
use crate::joint::Joint;
use crate::packing::{ClearWord, LinkWord};
use crate::plan::JointPlan;
use base::{AtMost, Reader, Refusal};
use std::alloc::{AllocError, Global};

// Goes through the words of a sheet, and says where its parts stand.
fn read(words: &[u64]) -> Result<Draft<'_>, Refusal>
    ensures { outcome draft_of result ≡ admission words.now }
{
    let mut reader = Reader::new(words);
    let bodies = reader.word(&AtMost(32))?;
    reader.words(&ClearWord, bodies as usize)?;
    let count = reader.word(&AtMost(31))?;
    let bodies = bodies as u32;
    let joints = reader.words(&LinkWord { bodies }, count as usize)?;
    reader.end()?;
    Ok(Draft { bodies, joints })
}

impl JointPlan {
    // No bodies, and room for the largest plan.
    pub fn new(heap: Global) -> Result<JointPlan, AllocError>
        ensures holds_no_bodies { IfOk result (λ p. plan_of p ≡ empty) }
    {
        let joints = Vec::with_capacity(heap, 31)?;
        Ok(JointPlan { bodies: 0, joints })
    }

    // One joint more.
    fn push(&mut self, joint: Joint)
        requires few { vec_len self.old.joints < 31 }
        requires links { joins self.old.bodies (joint_of joint) ≡ true }
        ensures { plan_of self.new ≡ record { bodies = self.old.bodies; joints = (plan_of self.old).joints ++ joint_of joint ∷ [] } }
    {
        self.joints.push_reserved(joint);
    }

    // Takes over what was read.
    fn replace(&mut self, draft: &Draft<'_>)
        requires { sound (draft_of draft.now) ≡ true }
        ensures { plan_of self.new ≡ draft_of draft.now }
    {
        self.joints.clear();
        self.bodies = draft.bodies;
        for word in draft.joints {
            let Ok(joint) = Joint::try_from(*word) else {
                unreachable!();
            };
            self.push(joint);
        }
    }

    // Takes over the plan of a sheet. On a refusal the plan stays as it was.
    pub fn admit(&mut self, words: &[u64]) -> Result<(), Refusal>
        ensures answers_the_admission { outcome (λ _. plan_of self.new) result ≡ admission words.now }
        ensures stays_when_refused { plan_of self.new ≡ standing (admission words.now) (plan_of self.old) }
        ensures has_the_words_as_its_sheet { OnOk result (sheet (plan_of self.new) ≡ words.now) }
    {
        let draft = read(words)?;
        self.replace(&draft);
        Ok(())
    }
}
