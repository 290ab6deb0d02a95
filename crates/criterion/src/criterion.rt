// Criteria: what judges sets of items.
ghost use Rattle.std.specs.Prelude.{◌≡◌, ℕ, ◌≤◌, true};
ghost use Rattle.criterion.specs.Groups.{rank};
ghost use Rattle.criterion.specs.Meaning.{Lawful, Meaning};

use crate::group::Group;

// Judges sets of the items 0 to n - 1; a set is a word in which bit i stands for item i.
pub trait Criterion {
    // the most items that a criterion of this kind can have, never above 31
    const LIMIT: u32;

    // the constant, for clauses
    ghost LIMIT: { ℕ };

    ghost meaning: { Self → Meaning };

    // The value of LIMIT, for generic code.
    fn most() -> u32
        ensures is_the_limit { result ≡ LIMIT }
    {
        Self::LIMIT
    }

    // How many items there are.
    fn count(&self) -> u32
        ensures counts_the_items { result ≡ (meaning self.now).count }
        ensures within_the_limit { (result ≤ LIMIT) × (LIMIT ≤ 31) };

    // Whether the set gets yes. Nothing of the meaning changes; out of order the answer is free. (That it is kept relates before
    // and after, so no type can say it: every search says it again.)
    fn check(&mut self, set: u32) -> bool
        ensures answers_the_verdict { (meaning self.old).order ≡ true → result ≡ (meaning self.old).verdict set }
        ensures keeps_the_meaning { meaning self.new ≡ meaning self.old };

    ghost lawful: { (c : Self) → Lawful (meaning c) };
}

// A criterion that also tells the group of an item.
pub trait GroupedCriterion: Criterion {
    // The third for an item number from n upward.
    fn group(&self, item: u32) -> Group
        ensures tells_the_group { rank result ≡ (Self.meaning self.now).group item };
}
