// Sets of small numbers in the bits of a word: what holds of them, and the few operations that the code above needs.
#![tactic(auto)]

ghost use Rattle.itemset.specs.Laws.{AndNot, Below, EveryRight, InAnd, InCollect, InFull, InLess, InLow, InOne, InOr, LowestIs, OnesAre, RisingLe, RisingSame, SameMembers, SomeRight, SubsetLe, TestsRight};

mod items;
mod word;

pub use items::Items;
pub use word::WordSet;

// The laws of sets as numbers, at every width.
pub fn set_laws()
    ensures same_members { SameMembers }
    ensures tests_right { TestsRight }
    ensures in_and { InAnd }
    ensures in_or { InOr }
    ensures in_less { InLess }
    ensures in_one { InOne }
    ensures in_full { InFull }
    ensures in_low { InLow }
    ensures in_collect { InCollect }
    ensures bits_bound_members { Below }
    ensures subset_is_no_greater { SubsetLe }
    ensures and_not_is_less { AndNot }
    ensures trailing_zeros_is_lowest { LowestIs }
    ensures ones_count_members { OnesAre }
{}

// The tests over the numbers below n are what they are called.
pub fn counting_laws()
    ensures some_right { SomeRight }
    ensures every_right { EveryRight }
{}

// The laws of rising lists.
pub fn rising_laws()
    ensures part_is_no_longer { RisingLe }
    ensures same_members_same_list { RisingSame }
{}
