// The joints of a sheet as a criterion, and as one that counts its checks.
use crate::Counting;
use joints::{JointPlan, JointSets};
use std::alloc::Global;
use std::test::Fail;

pub fn admitted(heap: Global, words: &[u64]) -> Result<JointSets, Fail> {
    let mut plan = JointPlan::new(heap)?;
    plan.admit(words)?;
    Ok(JointSets::new(plan))
}

pub fn counted(heap: Global, words: &[u64]) -> Result<Counting<JointSets>, Fail> {
    Ok(Counting::new(admitted(heap, words)?))
}

// The sheet of so many bodies and joints, up to the first word of a joint.
pub fn begun(heap: Global, bodies: u64, joints: u64) -> Result<Vec<u64>, Fail> {
    let mut words = Vec::new(heap);
    words.push(bodies)?;
    for _ in 0..bodies {
        words.push(0)?;
    }
    words.push(joints)?;
    Ok(words)
}
