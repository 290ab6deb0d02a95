// A criterion as one that tells groups: the third throughout.
ghost use Rattle.std.specs.Prelude.{◌≡◌};
ghost use Rattle.criterion.specs.Over.{ungrouped};
ghost use Rattle.std.proofs.Common.{rules};

use crate::criterion::{Criterion, GroupedCriterion};
use crate::group::Group;

#[derive(Drop)]
pub struct Ungrouped<C> {
    below: C,
}

impl<C> Ungrouped<C> {
    pub fn new(below: C) -> Ungrouped<C>
        ensures holds_it { result.below ≡ below }
    {
        Ungrouped { below }
    }

    // The criterion below.
    pub fn into_inner(self) -> C
        ensures gives_it_back { result ≡ self.below }
    {
        self.below
    }
}

impl<C: Criterion> Criterion for Ungrouped<C> {
    const LIMIT: u32 = C::LIMIT;

    ghost LIMIT = { C.LIMIT };

    ghost meaning = { λ u. ungrouped (C.Criterion.meaning u.below) };

    ghost lawful = { Prim.search rules };

    // passed down by hand: a trait cannot do it for a field that it does not know
    fn count(&self) -> u32 {
        self.below.count()
    }

    fn check(&mut self, set: u32) -> bool {
        self.below.check(set)
    }
}

impl<C: Criterion> GroupedCriterion for Ungrouped<C> {
    fn group(&self, _item: u32) -> Group {
        Group::Third
    }
}
