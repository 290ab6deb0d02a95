// The bits of a word as a set.
ghost use Rattle.std.specs.Prelude.{◌≡◌, ℕ, ◌^◌, min, length, MatchOption};
ghost use Rattle.itemset.specs.Sets.{Lowest, full, has, less, members, within as lies_within};

// A word whose bit i says whether i lies in its set.
pub trait WordSet {
    // how many bits it has
    ghost width: { ℕ };

    // the set that it stands for
    ghost number: { Self → ℕ };

    fn holds(self, item: u32) -> bool
        ensures { result ≡ has item (number self) };

    fn within(self, other: Self) -> bool
        ensures { result ≡ lies_within (number self) (number other) };

    fn without(self, item: u32) -> Self
        ensures { number result ≡ less (number self) (2 ^ item) };

    // None of the empty set.
    fn lowest(self) -> Option<u32>
        ensures { MatchOption result (number self ≡ 0) (λ i. Lowest (number self) i) };

    fn size(self) -> u32
        ensures { result ≡ length (members width (number self)) };

    // The numbers below n, as far as the word has bits.
    fn first(n: u32) -> Self
        ensures { number result ≡ full (min n width) };
}

impl WordSet for u64 {
    ghost width = { 64 };

    ghost number = { λ s. s };

    fn holds(self, item: u32) -> bool {
        item < 64 && (self >> item) & 1 == 1
    }

    fn within(self, other: u64) -> bool {
        self & other == self
    }

    fn without(self, item: u32) -> u64 {
        if item >= 64 {
            return self;
        }
        self & !(1 << item)
    }

    fn lowest(self) -> Option<u32> {
        if self == 0 {
            return None;
        }
        Some(self.trailing_zeros())
    }

    fn size(self) -> u32 {
        self.count_ones()
    }

    fn first(n: u32) -> u64 {
        if n >= 64 {
            return u64::MAX;
        }
        (1 << n) - 1
    }
}

// Each method is the one of the wider word: a set is the same number at every width. (One `impl` for every unsigned type cannot
// be proved: the values of a type parameter have no range in a proof, and `size` needs one.)
impl WordSet for u32 {
    ghost width = { 32 };

    ghost number = { λ s. s };

    fn holds(self, item: u32) -> bool {
        u64::from(self).holds(item)
    }

    fn within(self, other: u32) -> bool {
        u64::from(self).within(other.into())
    }

    fn without(self, item: u32) -> u32 {
        u64::from(self).without(item) as u32
    }

    fn lowest(self) -> Option<u32> {
        u64::from(self).lowest()
    }

    fn size(self) -> u32 {
        u64::from(self).size()
    }

    fn first(n: u32) -> u32 {
        u64::first(n.min(32)) as u32
    }
}
