// An inquiry: a criterion, and the scope that it is asked about.
ghost use Rattle.std.specs.Prelude.{◌≡◌, true, length};
ghost use Rattle.base.specs.Refusals.{outcome};
ghost use Rattle.itemset.specs.Sets.{full};
ghost use Rattle.criterion.specs.Cores.{Core};
ghost use Rattle.cores.specs.Answers.{Chooses, GroupedCore, InEvery, Lists, ListsWithout};
ghost use Rattle.cores.specs.Scopes.{restored, restoring, retired, retiring};

use crate::guard::Narrowed;
use base::Refusal;
use cores::{Scope, common_of, core_by_groups_of, core_of, list_of};
use criterion::{Criterion, GroupedCriterion};

#[derive(Drop)]
pub struct Inquiry<C> {
    pub(crate) criterion: C,
    pub(crate) scope: Scope,
}

// Lists the cores of the scope less one item. The guard puts the scope back on every way out.
fn list_without<C: Criterion>(
    criterion: &mut C,
    scope: &mut Scope,
    item: u32,
    places: &mut [u32],
) -> Result<u32, Refusal>
    ensures answer { let m = C.Criterion.meaning criterion.old in m.order ≡ true → ListsWithout scope.old.items m scope.old.set item (length places.old) places.new result }
    ensures scope { scope.new ≡ scope.old }
    ensures same { C.Criterion.meaning criterion.new ≡ C.Criterion.meaning criterion.old }
{
    let whole = *scope;
    let guard = Narrowed { scope, whole };
    // no `?`: the places become 0 first
    if let Err(refusal) = guard.scope.retire(item) {
        places.fill(0);
        return Err(refusal);
    }
    list_of(criterion, *guard.scope, places)
}

impl<C: Criterion> Inquiry<C> {
    // Takes the criterion, and puts every item in the scope.
    pub fn open(criterion: C) -> Self
        ensures holds_the_criterion { result.criterion ≡ criterion }
        ensures counts_its_items { result.scope.items ≡ (C.Criterion.meaning criterion).count }
        ensures has_every_item_in_scope { result.scope.set ≡ full (C.Criterion.meaning criterion).count }
    {
        let scope = Scope::of(&criterion);
        Inquiry { criterion, scope }
    }

    // Gives the criterion back.
    pub fn close(self) -> C
        ensures gives_it_back { result ≡ self.criterion }
    {
        self.criterion
    }

    // Takes an item out of the scope, and answers how many it then has.
    pub fn retire(&mut self, item: u32) -> Result<u32, Refusal>
        ensures answers_the_size { outcome (λ n. n) result ≡ retiring self.old.scope.items self.old.scope.set item }
        ensures takes_it_out { self.new.scope.set ≡ retired self.old.scope.set item }
        ensures keeps_the_items { self.new.scope.items ≡ self.old.scope.items }
        ensures keeps_the_criterion { self.new.criterion ≡ self.old.criterion }
    {
        self.scope.retire(item)
    }

    // Puts an item back into the scope, and answers how many it then has.
    pub fn restore(&mut self, item: u32) -> Result<u32, Refusal>
        ensures answers_the_size { outcome (λ n. n) result ≡ restoring self.old.scope.items self.old.scope.set item }
        ensures puts_it_in { self.new.scope.set ≡ restored self.old.scope.items self.old.scope.set item }
        ensures keeps_the_items { self.new.scope.items ≡ self.old.scope.items }
        ensures keeps_the_criterion { self.new.criterion ≡ self.old.criterion }
    {
        self.scope.restore(item)
    }

    // The verdict of the scope.
    pub fn verdict(&mut self) -> bool
        ensures answers_the_verdict { let m = C.Criterion.meaning self.old.criterion in m.order ≡ true → result ≡ m.verdict self.old.scope.set }
        ensures keeps_the_scope { self.new.scope ≡ self.old.scope }
        ensures keeps_the_meaning { C.Criterion.meaning self.new.criterion ≡ C.Criterion.meaning self.old.criterion }
    {
        self.criterion.check(self.scope.set)
    }

    // A core of the scope.
    pub fn core(&mut self) -> Result<u32, Refusal>
        ensures answers_a_core { let m = C.Criterion.meaning self.old.criterion in m.order ≡ true → Chooses m self.old.scope.set (Core m.verdict self.old.scope.set) result }
        ensures keeps_the_scope { self.new.scope ≡ self.old.scope }
        ensures keeps_the_meaning { C.Criterion.meaning self.new.criterion ≡ C.Criterion.meaning self.old.criterion }
    {
        core_of(&mut self.criterion, self.scope)
    }

    // The items that lie in every core of the scope.
    pub fn common(&mut self) -> Result<u32, Refusal>
        ensures answers_the_common_items { let m = C.Criterion.meaning self.old.criterion in m.order ≡ true → Chooses m self.old.scope.set (InEvery m self.old.scope.set) result }
        ensures keeps_the_scope { self.new.scope ≡ self.old.scope }
        ensures keeps_the_meaning { C.Criterion.meaning self.new.criterion ≡ C.Criterion.meaning self.old.criterion }
    {
        common_of(&mut self.criterion, self.scope)
    }

    // Writes the cores of the scope into the places, in rising order, and answers their count.
    pub fn list(&mut self, places: &mut [u32]) -> Result<u32, Refusal>
        ensures lists_every_core { let m = C.Criterion.meaning self.old.criterion in m.order ≡ true → Lists m self.old.scope.set (length places.old) places.new result }
        ensures keeps_the_scope { self.new.scope ≡ self.old.scope }
        ensures keeps_the_meaning { C.Criterion.meaning self.new.criterion ≡ C.Criterion.meaning self.old.criterion }
    {
        list_of(&mut self.criterion, self.scope, places)
    }

    // The same for the scope less one item. The scope stands as before.
    pub fn without(&mut self, item: u32, places: &mut [u32]) -> Result<u32, Refusal>
        ensures lists_every_core_without_it { let m = C.Criterion.meaning self.old.criterion in m.order ≡ true → ListsWithout self.old.scope.items m self.old.scope.set item (length places.old) places.new result }
        ensures keeps_the_scope { self.new.scope ≡ self.old.scope }
        ensures keeps_the_meaning { C.Criterion.meaning self.new.criterion ≡ C.Criterion.meaning self.old.criterion }
    {
        list_without(&mut self.criterion, &mut self.scope, item, places)
    }
}

impl<C: GroupedCriterion> Inquiry<C> {
    // A core that is least in its items of the first group, and then in those of the second.
    pub fn core_by_groups(&mut self) -> Result<u32, Refusal>
        ensures answers_a_core_by_groups { let m = C.Criterion.meaning self.old.criterion in m.order ≡ true → Chooses m self.old.scope.set (GroupedCore m self.old.scope.set) result }
        ensures keeps_the_scope { self.new.scope ≡ self.old.scope }
        ensures keeps_the_meaning { C.Criterion.meaning self.new.criterion ≡ C.Criterion.meaning self.old.criterion }
    {
        core_by_groups_of(&mut self.criterion, self.scope)
    }
}
