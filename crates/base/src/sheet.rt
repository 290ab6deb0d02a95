// Reads the words of a sheet from the front.
ghost use Rattle.std.specs.Prelude.{◌≡◌, ℕ, Bool, true, length, IfOk, IfErr, nat_le};
ghost use Rattle.base.specs.Readers.{text, told};
ghost use Rattle.base.specs.Refusals.{index as index_of, number as number_of, outcome};
ghost use Rattle.base.specs.Sheets.{all_of, got, many, passing, whole};

use crate::reader::Reader;
use crate::refusal::Refusal;

// A test that a word of a sheet has to pass, and the refusal where it does not. (A closure would need both beside it in every
// contract.)
pub trait WordRule {
    ghost test: { Self → ℕ → Bool };

    // the number of the refusal
    ghost code: { ℕ };

    fn passes(&self, word: u64) -> bool
        ensures tests_the_word { result ≡ test self.now word };

    fn refusal(index: usize) -> Refusal
        ensures has_its_number { (number_of result ≡ code) × (index_of result ≡ index) };
}

// A count of at most so many.
#[derive(Drop)]
pub struct AtMost(pub u64);

impl WordRule for AtMost {
    ghost test = { λ most n. nat_le n most.0 };

    ghost code = { 3 };

    fn passes(&self, word: u64) -> bool {
        word <= self.0
    }

    fn refusal(index: usize) -> Refusal {
        Refusal::CountTooLarge(index)
    }
}

impl<'a> Reader<'a> {
    pub fn new(words: &'a [u64]) -> Reader<'a>
        ensures at_the_front { (text result ≡ words.now) × (result.at ≡ 0) }
    {
        Reader { words, at: 0 }
    }

    // The next word.
    pub fn word<R: WordRule>(&mut self, rule: &R) -> Result<u64, Refusal>
        ensures same_words { text self.new ≡ text self.old }
        ensures keeps_the_rule { IfOk result (λ w. R.WordRule.test rule.now w ≡ true) }
        ensures stays_before_a_refused_word { IfErr result (λ f. self.new.at ≡ index_of f) }
        ensures reads_a_word { told (λ w. w) result self.new.at ≡ passing (R.WordRule.test rule.now) R.WordRule.code (text self.old) self.old.at }
    {
        let index = self.at;
        let word = *self.words.get(index).ok_or(Refusal::MissingWord(index))?;
        if !rule.passes(word) {
            return Err(R::refusal(index));
        }
        self.at += 1;
        Ok(word)
    }

    // The next n words, all under one rule. The loop repeats; no place is indexed by its counter.
    pub fn words<R: WordRule>(&mut self, rule: &R, n: usize) -> Result<&'a [u64], Refusal>
        ensures same_words { text self.new ≡ text self.old }
        ensures keeps_the_rule { IfOk result (λ s. (all_of (R.WordRule.test rule.now) s.now ≡ true) × (length s.now ≡ n)) }
        ensures stays_before_a_refused_word { IfErr result (λ f. self.new.at ≡ index_of f) }
        ensures reads_so_many { told (λ s. s.now) result self.new.at ≡ many (passing (R.WordRule.test rule.now) R.WordRule.code (text self.old)) n self.old.at }
    {
        let start = self.at;
        for _done in 0..n {
            self.word(rule)?;
        }
        Ok(&self.words[start..self.at])
    }

    // The end of the sheet.
    pub fn end(&self) -> Result<(), Refusal>
        ensures wants_no_more { outcome (λ u. u) result ≡ whole (text self.now) (got tt self.now.at) }
    {
        if self.at < self.words.len() {
            return Err(Refusal::WordsLeftOver(self.at));
        }
        Ok(())
    }
}
