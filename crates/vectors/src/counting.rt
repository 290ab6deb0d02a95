// A criterion that counts how often it is asked.
ghost use Rattle.std.specs.Prelude.{◌≡◌, ◌+◌, ◌^◌, ◌<◌, true};
ghost use Rattle.std.proofs.Common.{rules};

use criterion::{Criterion, Group, GroupedCriterion};

#[derive(Drop)]
pub struct Counting<C> {
    below: C,
    checks: u64,
}

impl<C> Counting<C> {
    pub fn new(below: C) -> Counting<C>
        ensures holds_it { result.below ≡ below }
        ensures counted_nothing { result.checks ≡ 0 }
    {
        Counting { below, checks: 0 }
    }

    pub fn checks(&self) -> u64
        ensures tells_the_count { result ≡ self.now.checks }
    {
        self.checks
    }
}

impl<C: Criterion> Criterion for Counting<C> {
    const LIMIT: u32 = C::LIMIT;

    ghost LIMIT = { C.LIMIT };

    ghost meaning = { λ c. C.Criterion.meaning c.below };

    ghost lawful = { Prim.search rules };

    // passed down by hand: a trait cannot do it for a field that it does not know
    fn count(&self) -> u32 {
        self.below.count()
    }

    fn check(&mut self, set: u32) -> bool
        ensures answers_the_verdict { (C.Criterion.meaning self.old.below).order ≡ true → result ≡ (C.Criterion.meaning self.old.below).verdict set }
        ensures keeps_the_meaning { C.Criterion.meaning self.new.below ≡ C.Criterion.meaning self.old.below }
        ensures counts_the_check { self.old.checks + 1 < 2 ^ 64 → self.new.checks ≡ self.old.checks + 1 }
    {
        self.checks = self.checks.saturating_add(1);
        self.below.check(set)
    }
}

impl<C: GroupedCriterion> GroupedCriterion for Counting<C> {
    fn group(&self, item: u32) -> Group {
        self.below.group(item)
    }
}
