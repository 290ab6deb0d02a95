// Criteria over sets of items, their cores, and criteria made from criteria.
#![tactic(auto)]

ghost use Rattle.criterion.specs.Examples.{Computed};
ghost use Rattle.criterion.specs.Laws.{Branches, Counted, Found, Hitting, Needed, Shrunk, Unique};

mod criterion;
mod group;
mod held;
mod memory;
mod remembered;
mod ungrouped;

pub use criterion::{Criterion, GroupedCriterion};
pub use group::Group;
pub use held::Memory;
pub use remembered::Remembered;
pub use ungrouped::Ungrouped;

// The laws of cores, for every verdict, and cores that compute.
pub fn core_laws()
    ensures every_yes_set_contains_a_core { Found }
    ensures only_one_list_of_cores { Unique }
    ensures no_longer_list_of_cores { Counted }
    ensures no_exactly_when_every_core_is_hit { Hitting }
    ensures needed_exactly_when_in_every_core { Needed }
    ensures yes_set_that_loses_nothing_is_a_core { Shrunk }
    ensures other_cores_miss_an_item { Branches }
    ensures examples_compute { Computed }
{}
