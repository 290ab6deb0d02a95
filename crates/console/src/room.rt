// The memory that one run of calls needs: 4,096 places, two calls and their answers.
ghost use Rattle.std.specs.Prelude.{◌≡◌, ◌≤◌, [], vec_len, vec_capacity};

use inquiry::{Answer, Call};

#[derive(Drop)]
pub(crate) struct RunRoom {
    pub(crate) places: Vec<u32>,
    pub(crate) calls: Vec<Call>,
    pub(crate) answers: Vec<Answer>,
    ghost long: { vec_len places ≡ 4096 },
    ghost idle: { (calls.items ≡ []) × (2 ≤ vec_capacity calls) × (answers.items ≡ []) × (2 ≤ vec_capacity answers) },
}
