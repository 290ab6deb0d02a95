// A memory of verdicts over any criterion.
ghost use Rattle.std.specs.Prelude.{◌≡◌, ◌%◌, ◌^◌, ◌≤◌, Bool, true, [], length, Some, None};
ghost use Rattle.criterion.specs.Held.{remembering, row};
ghost use Rattle.criterion.specs.Recall.{grown, learned, recall as recalled};
ghost use Rattle.std.proofs.Common.{rules};

use crate::criterion::{Criterion, GroupedCriterion};
use crate::group::Group;
use crate::held::Memory;
use crate::remembered::Remembered;
use arrayvec::ArrayVec;
use itemset::WordSet;

impl<C> Memory<C> {
    // A memory that remembers nothing.
    pub fn new(below: C) -> Memory<C>
        ensures holds_it { result.below ≡ below }
        ensures remembers_nothing { row result ≡ [] }
    {
        Memory {
            below,
            entries: ArrayVec::new(),
        }
    }

    // The criterion below.
    pub fn into_inner(self) -> C
        ensures gives_it_back { result ≡ self.below }
    {
        self.below
    }

    // The remembered verdicts, the oldest first.
    pub fn remembered(&self) -> &[Remembered]
        ensures shows_the_row { result.now ≡ row self.now }
        ensures fits { length result.now ≤ 64 }
    {
        self.entries.as_slice()
    }

    // What the remembered verdicts say of a set, a yes before a no.
    fn recall(&self, set: u32) -> Option<bool>
        ensures { result ≡ recalled (row self.now) set }
    {
        if self.entries.iter().any(|entry| entry.is_yes_for(set)) {
            return Some(true);
        }
        if self.entries.iter().any(|entry| entry.is_no_for(set)) {
            return Some(false);
        }
        None
    }
}

impl<C: Criterion> Memory<C> {
    // Remembers a verdict while fewer than 64 are held.
    #[tactic(auto, using(std::proofs::lemmas::Nat::and_mask))]
    fn learn(&mut self, set: u32, verdict: bool)
        ensures below { self.new.below ≡ self.old.below }
        ensures row { row self.new ≡ grown None (row self.old) (record { set = set % 2 ^ (C.Criterion.meaning self.old.below).count; verdict = verdict }) }
    {
        if !self.entries.is_full() {
            let set = set & u32::first(self.below.count());
            self.entries.push(Remembered { set, verdict });
        }
    }
}

impl<C: Criterion> Criterion for Memory<C> {
    const LIMIT: u32 = C::LIMIT;

    ghost LIMIT = { C.LIMIT };

    ghost meaning = { remembering C.Criterion.meaning };

    ghost lawful = { Prim.search rules };

    // passed down by hand: a trait cannot do it for a field that it does not know
    fn count(&self) -> u32 {
        self.below.count()
    }

    fn check(&mut self, set: u32) -> bool
        ensures answers_the_verdict { (remembering C.Criterion.meaning self.old).order ≡ true → result ≡ (remembering C.Criterion.meaning self.old).verdict set }
        ensures keeps_the_meaning { remembering C.Criterion.meaning self.new ≡ remembering C.Criterion.meaning self.old }
        ensures recalls { (b : Bool) → recalled (row self.old) set ≡ Some b → (result ≡ b) × (self.new ≡ self.old) }
        ensures learns { row self.new ≡ learned (row self.old) (C.Criterion.meaning self.old.below).count set result }
    {
        if let Some(known) = self.recall(set) {
            return known;
        }
        let verdict = self.below.check(set);
        self.learn(set, verdict);
        verdict
    }
}

impl<C: GroupedCriterion> GroupedCriterion for Memory<C> {
    fn group(&self, item: u32) -> Group {
        self.below.group(item)
    }
}
