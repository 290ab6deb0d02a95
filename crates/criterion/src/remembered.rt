// A set and the verdict that it got.
ghost use Rattle.std.specs.Prelude.{◌≡◌};
ghost use Rattle.criterion.specs.Recall.{says_no, says_yes};

use itemset::WordSet;

#[derive(Clone, Copy, Debug, Default, PartialEq, Eq)]
pub struct Remembered {
    pub set: u32,
    pub verdict: bool,
}

impl Remembered {
    // A yes for a set that contains this one.
    pub(crate) fn is_yes_for(&self, set: u32) -> bool
        ensures { result ≡ says_yes set self.now }
    {
        self.verdict && self.set.within(set)
    }

    // A no for a set within this one.
    pub(crate) fn is_no_for(&self, set: u32) -> bool
        ensures { result ≡ says_no set self.now }
    {
        !self.verdict && set.within(self.set)
    }
}
