// One call after another.
ghost use Rattle.std.specs.Prelude.{◌≡◌, ◌-◌, ◌<◌, true, vec_len, vec_capacity, MatchResult};
ghost use Rattle.inquiry.specs.Runs.{Answered, Made, after};

use crate::calls::{Answer, Call};
use crate::inquiry::Inquiry;
use criterion::{Criterion, GroupedCriterion};

// Makes one call. (The law over runs is told by the cases of `Call`.)
fn perform<C: GroupedCriterion>(inquiry: &mut Inquiry<C>, call: Call) -> Answer
    requires { inquiry.old.scope.items ≡ (C.Criterion.meaning inquiry.old.criterion).count }
    ensures answer { let m = C.Criterion.meaning inquiry.old.criterion in m.order ≡ true → Answered m inquiry.old.scope.set call result }
    ensures scope { inquiry.new.scope.set ≡ after inquiry.old.scope.items inquiry.old.scope.set call }
    ensures items { inquiry.new.scope.items ≡ inquiry.old.scope.items }
    ensures same { C.Criterion.meaning inquiry.new.criterion ≡ C.Criterion.meaning inquiry.old.criterion }
{
    match call {
        Call::Retire(item) => Answer::Counted(inquiry.retire(item)),
        Call::Restore(item) => Answer::Counted(inquiry.restore(item)),
        Call::Verdict => Answer::Judged(inquiry.verdict()),
        Call::Core => Answer::Chosen(inquiry.core()),
        Call::CoreByGroups => Answer::Chosen(inquiry.core_by_groups()),
        Call::Common => Answer::Chosen(inquiry.common()),
        Call::List(mut places) => {
            let result = inquiry.list(&mut places);
            Answer::Listed(result, places)
        }
        Call::Without(item, mut places) => {
            let result = inquiry.without(item, &mut places);
            Answer::Listed(result, places)
        }
    }
}

// Opens an inquiry on the criterion, makes the calls in order and closes it. The answers go behind those that are there;
// where the room reserved for them is too small, everything is handed back and no call is made.
pub fn replay<C: GroupedCriterion>(
    criterion: C,
    calls: Vec<Call>,
    mut answers: Vec<Answer>,
) -> Result<(C, Vec<Answer>), (C, Vec<Call>, Vec<Answer>)>
    ensures answers_every_call { MatchResult result (λ made. Made (C.Criterion.meaning criterion) (C.Criterion.meaning made.0) (vec_capacity answers - vec_len answers) calls.items answers.items made.1.items) (λ back. (vec_capacity answers - vec_len answers < vec_len calls) × (back.0 ≡ criterion) × (back.1 ≡ calls) × (back.2 ≡ answers)) }
{
    if answers.capacity() - answers.len() < calls.len() {
        return Err((criterion, calls, answers));
    }
    let mut inquiry = Inquiry::open(criterion);
    for call in calls {
        answers.push_reserved(perform(&mut inquiry, call));
    }
    Ok((inquiry.close(), answers))
}
