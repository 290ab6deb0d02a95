// Joints in the words of a sheet.
ghost use Rattle.std.specs.Prelude.{◌≡◌, ◌<◌};
ghost use Rattle.joints.specs.Admission.{clear, fine};
ghost use Rattle.joints.specs.Held.{joint_of};
ghost use Rattle.joints.specs.Plans.{links as joins, word as word_of};
ghost use Rattle.joints.specs.Views.{Unpacks};

use crate::joint::Joint;
use base::{Refusal, WordRule};
use criterion::Group;

impl Joint {
    // Two different bodies of so many.
    fn links(&self, bodies: u32) -> bool
        ensures { result ≡ joins bodies (joint_of self.now) }
    {
        u32::from(self.first) < bodies
            && u32::from(self.second) < bodies
            && self.first != self.second
    }
}

// The joint of a word: three bytes, of which the last is a class. Any other word comes back.
impl TryFrom<u64> for Joint {
    type Error = u64;

    ghost try_from_gives = { Unpacks };

    fn try_from(word: u64) -> Result<Joint, u64> {
        let [first, second, class, 0, 0, 0, 0, 0] = word.to_le_bytes() else {
            return Err(word);
        };
        let Ok(class) = Group::try_from(class) else {
            return Err(word);
        };
        Ok(Joint {
            first,
            second,
            class,
        })
    }
}

// The word of a joint.
impl From<Joint> for u64 {
    ghost from_gives = { λ joint word. word ≡ word_of (joint_of joint) };

    fn from(joint: Joint) -> u64 {
        u64::from_le_bytes([joint.first, joint.second, joint.class.into(), 0, 0, 0, 0, 0])
    }
}

// The word of a body.
#[derive(Drop)]
pub(crate) struct ClearWord;

impl WordRule for ClearWord {
    ghost test = { λ _. clear };

    ghost code = { 6 };

    fn passes(&self, word: u64) -> bool {
        word == 0
    }

    fn refusal(index: usize) -> Refusal {
        Refusal::BodyWord(index)
    }
}

// The word of a joint between so many bodies.
#[derive(Drop)]
pub(crate) struct LinkWord {
    pub(crate) bodies: u32,
}

impl WordRule for LinkWord {
    ghost test = { λ rule. fine rule.bodies };

    ghost code = { 7 };

    fn passes(&self, word: u64) -> bool {
        Joint::try_from(word).is_ok_and(|joint| joint.links(self.bodies))
    }

    fn refusal(index: usize) -> Refusal {
        Refusal::JointWord(index)
    }
}
