// The response to an input.
ghost use Rattle.std.specs.Prelude.{◌≡◌, ◌/◌, ◌≤◌, [], length, IfOk, vec_capacity};
ghost use Rattle.base.specs.Places.{overwritten, written};
ghost use Rattle.base.specs.Refusals.{outcome};
ghost use Rattle.joints.specs.Admission.{admission};
ghost use Rattle.joints.specs.Plans.{empty};
ghost use Rattle.joints.specs.Views.{plan_of};
ghost use Rattle.console.specs.Reports.{printed};
ghost use Rattle.console.specs.Response.{answered, reply as reply_to, response};

use crate::console::Console;
use crate::found::Found;
use crate::input::read_words;
use crate::kind::Kind;
use crate::line::Line;
use crate::report::{append, append_sets, list};
use crate::room::RunRoom;
use base::Refusal;
use joints::{JointPlan, JointSets};
use std::alloc::{AllocError, Global};

// What is found for a joint sheet.
fn answer_joints(mut plan: JointPlan, room: RunRoom, sheet: &[u64]) -> Result<Found, Refusal>
    ensures { printed result ≡ answered (admission sheet.now) }
{
    plan.admit(sheet)?;
    list(JointSets::new(plan), room)
}

// What is found for the bytes of an input.
fn reply(
    plan: JointPlan,
    room: RunRoom,
    mut words: Vec<u64>,
    bytes: &[u8],
) -> Result<Found, Refusal>
    requires { length bytes.now / 8 ≤ vec_capacity words }
    ensures { printed result ≡ reply_to bytes.now }
{
    read_words(bytes, &mut words)?;
    let (kind, sheet) = words.split_first().ok_or(Refusal::UnknownKind)?;
    match Kind::try_from(*kind)? {
        Kind::Joints => answer_joints(plan, room, sheet),
    }
}

impl RunRoom {
    fn new(heap: Global) -> Result<RunRoom, AllocError> {
        let places = vec![in heap; 0; 4096]?;
        let calls = Vec::with_capacity(heap, 2)?;
        let answers = Vec::with_capacity(heap, 2)?;
        Ok(RunRoom {
            places,
            calls,
            answers,
        })
    }
}

impl Console {
    // Reserves what the largest input and its response need.
    pub fn new(heap: Global) -> Result<Console, AllocError>
        ensures holds_nothing { IfOk result (λ c. (c.words.items ≡ []) × (c.text.items ≡ []) × (plan_of c.plan ≡ empty)) }
    {
        let words = Vec::with_capacity(heap, 3082)?;
        let plan = JointPlan::new(heap)?;
        let run = RunRoom::new(heap)?;
        let text = Vec::with_capacity(heap, 524544)?;
        Ok(Console {
            words,
            plan,
            run,
            text,
        })
    }

    // The text of the response to the bytes.
    fn answer(self, bytes: &[u8]) -> Vec<u8>
        requires { length bytes.now ≤ 24656 }
        ensures { result.items ≡ reply_to bytes.now }
    {
        let Console {
            words,
            plan,
            run,
            mut text,
        } = self;
        text.clear();
        match reply(plan, run, words, bytes) {
            Ok(found) => append_sets(&mut text, &found),
            Err(refusal) => append(&mut text, &Line::refused(refusal)),
        }
        text
    }

    // Writes the response to an input in front of the buffer and answers how long it is.
    pub fn respond(self, input: &[u8], out: &mut [u8]) -> Result<usize, Refusal>
        ensures answers_the_length { outcome (λ n. n) result ≡ written (response input.now) out.old }
        ensures fills_the_front { out.new ≡ overwritten (response input.now) out.old }
        ensures within_the_buffer { IfOk result (λ n. n ≤ length out.old) }
    {
        let len = input.len().min(24656);
        let text = self.answer(&input[..len]);
        base::write(text.as_slice(), out)
    }
}
