// The items of a set, one after another.
ghost use Rattle.std.specs.Iterator.{at_most};
ghost use Rattle.itemset.specs.Sets.{Takes};

use crate::word::WordSet;

// Those that are still to come, the lowest first.
#[derive(Drop)]
pub struct Items<S>(pub S);

impl<S: WordSet + Copy + Drop> Iterator for Items<S> {
    type Item = u32;

    ghost next_gives = { λ s r t. Takes (S.WordSet.number s.0) r (S.WordSet.number t.0) };

    ghost remaining = { λ s. at_most (S.WordSet.number s.0) };

    #[tactic(auto, using(crate::proofs::Members::less_falls))]
    fn next(&mut self) -> Option<u32> {
        let item = self.0.lowest()?;
        self.0 = self.0.without(item);
        Some(item)
    }
}
