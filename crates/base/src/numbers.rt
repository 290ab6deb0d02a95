// The number of a refusal, the index that it carries, and its text.
ghost use Rattle.std.specs.Prelude.{◌≡◌, Some};
ghost use Rattle.base.specs.Refusals.{index as index_of, message, number as number_of};

use crate::refusal::Refusal;
use std::error::Error;
use std::fmt;

impl Refusal {
    // A number, since that is what is printed.
    pub fn number(&self) -> u32
        ensures numbers_the_case { result ≡ number_of self.now }
    {
        match self {
            Refusal::MissingWord(_) => 1,
            Refusal::CountTooLarge(_) => 3,
            Refusal::WordsLeftOver(_) => 5,
            Refusal::BodyWord(_) => 6,
            Refusal::JointWord(_) => 7,
            Refusal::TooFewPlaces => 8,
            Refusal::NoSuchItem => 9,
            Refusal::AlreadyOut => 10,
            Refusal::AlreadyIn => 11,
            Refusal::GetsNo => 12,
            Refusal::TooManyCores => 13,
            Refusal::OddLength => 14,
            Refusal::UnknownKind => 15,
        }
    }

    // The index of the word that it is about; 0 where it is about none, since an index is printed with every refusal.
    pub fn index(&self) -> usize
        ensures carries_the_index { result ≡ index_of self.now }
    {
        match self {
            Refusal::MissingWord(index)
            | Refusal::CountTooLarge(index)
            | Refusal::WordsLeftOver(index)
            | Refusal::BodyWord(index)
            | Refusal::JointWord(index) => *index,
            _ => 0,
        }
    }
}

// `refused`, the number and the index, with a blank between.
impl fmt::Display for Refusal {
    ghost output = { λ r. Some (message r) };

    fn fmt<W: fmt::Write>(&self, f: &mut fmt::Formatter<W>) -> fmt::Result {
        write!(f, "refused {} {}", self.number(), self.index())
    }
}

impl Error for Refusal {}
