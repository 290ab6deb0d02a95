// Searches that are made with `check` alone. The criterion stays while the scope shrinks, so they are two parameters.
ghost use Rattle.std.specs.Prelude.{◌≡◌, ℕ, true, ◌↔◌, IfOk};
ghost use Rattle.itemset.specs.Sets.{◌∈◌, ◌⊆◌};
ghost use Rattle.criterion.specs.Cores.{Core};
ghost use Rattle.criterion.specs.Groups.{rank};
ghost use Rattle.cores.specs.Answers.{Chooses, GroupedCore, InEvery};
ghost use Rattle.cores.specs.Rows.{Pruned};

use crate::scope::Scope;
use base::Refusal;
use criterion::{Criterion, Group, GroupedCriterion};
use itemset::Items;

// Takes each of the loose items in turn out of a scope that gets yes, and puts it back where the rest gets no.
fn shrink<C: Criterion>(criterion: &mut C, scope: Scope, loose: u32) -> Scope
    ensures answer { let m = C.Criterion.meaning criterion.old in m.order ≡ true → m.verdict scope.set ≡ true → Pruned m.verdict scope.set loose result.set }
    ensures inside { result.set ⊆ scope.set }
    ensures same { C.Criterion.meaning criterion.new ≡ C.Criterion.meaning criterion.old }
{
    let mut left = scope;
    for item in Items(loose) {
        let fewer = left.lacking(item);
        if criterion.check(fewer.set) {
            left = fewer;
        }
    }
    left
}

// A core of the scope. (Three searches begin with this test: a function for it would have a contract longer than the test.)
pub fn core_of<C: Criterion>(criterion: &mut C, scope: Scope) -> Result<u32, Refusal>
    ensures answers_a_core { let m = C.Criterion.meaning criterion.old in m.order ≡ true → Chooses m scope.set (Core m.verdict scope.set) result }
    ensures stays_within_the_scope { IfOk result (λ w. w ⊆ scope.set) }
    ensures keeps_the_meaning { C.Criterion.meaning criterion.new ≡ C.Criterion.meaning criterion.old }
{
    if !criterion.check(scope.set) {
        return Err(Refusal::GetsNo);
    }
    Ok(shrink(criterion, scope, scope.set).set)
}

// The items that lie in every core of the scope.
pub fn common_of<C: Criterion>(criterion: &mut C, scope: Scope) -> Result<u32, Refusal>
    ensures answers_the_common_items { let m = C.Criterion.meaning criterion.old in m.order ≡ true → Chooses m scope.set (InEvery m scope.set) result }
    ensures keeps_the_meaning { C.Criterion.meaning criterion.new ≡ C.Criterion.meaning criterion.old }
{
    if !criterion.check(scope.set) {
        return Err(Refusal::GetsNo);
    }
    let mut common = 0;
    for item in Items(scope.set) {
        if !criterion.check(scope.lacking(item).set) {
            common |= 1 << item;
        }
    }
    Ok(common)
}

// The items of a scope that are of this group. (Here and above no `fold`: in a closure an item has no bound for the shift.)
fn in_group<C: GroupedCriterion>(criterion: &C, scope: Scope, group: Group) -> u32
    ensures { (i : ℕ) → i ∈ result ↔ ((i ∈ scope.set) × ((C.Criterion.meaning criterion.now).group i ≡ rank group)) }
{
    let mut chosen = 0;
    for item in Items(scope.set) {
        if criterion.group(item) == group {
            chosen |= 1 << item;
        }
    }
    chosen
}

// A core that is least in its items of the first group, and then in those of the second.
pub fn core_by_groups_of<C: GroupedCriterion>(
    criterion: &mut C,
    scope: Scope,
) -> Result<u32, Refusal>
    ensures answers_a_core_by_groups { let m = C.Criterion.meaning criterion.old in m.order ≡ true → Chooses m scope.set (GroupedCore m scope.set) result }
    ensures keeps_the_meaning { C.Criterion.meaning criterion.new ≡ C.Criterion.meaning criterion.old }
{
    if !criterion.check(scope.set) {
        return Err(Refusal::GetsNo);
    }
    let mut left = scope;
    for group in [Group::First, Group::Second, Group::Third] {
        let loose = in_group(criterion, left, group);
        left = shrink(criterion, left, loose);
    }
    Ok(left.set)
}
