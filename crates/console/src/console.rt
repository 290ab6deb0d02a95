// The memory that one response needs.
ghost use Rattle.std.specs.Prelude.{◌≤◌, vec_capacity};

use crate::room::RunRoom;
use joints::JointPlan;

#[derive(Drop)]
pub struct Console {
    pub(crate) words: Vec<u64>,
    pub(crate) plan: JointPlan,
    pub(crate) run: RunRoom,
    pub(crate) text: Vec<u8>,
    ghost words_room: { 3082 ≤ vec_capacity words },
    ghost text_room: { 524544 ≤ vec_capacity text },
}
