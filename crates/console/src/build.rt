// Builds a line.
ghost use Rattle.std.specs.Prelude.{◌≡◌, ◌+◌, ◌<◌, ◌≤◌, [], ◌∷◌, ◌++◌, length};
ghost use Rattle.itemset.specs.Sets.{members};
ghost use Rattle.console.specs.Text.{blank_decimal, number_line, spaced};
ghost use Rattle.console.specs.Views.{text_of};

use crate::line::Line;
use arrayvec::ArrayString;
use itemset::Items;
use itoa::Buffer;

impl Line {
    // A line that begins with a word.
    pub(crate) fn begun(word: &str) -> Line
        requires { length word.now ≤ 7 }
        ensures { text_of result ≡ word.now }
    {
        let mut text = ArrayString::new();
        text.push_str(word);
        Line { text }
    }

    // Adds a number after a blank. (Not by `write!`: std does not say when it succeeds, and a line cannot fail. Inlined, since the
    // digits of an item then need no loop.)
    #[inline(always)]
    pub(crate) fn push_number(&mut self, number: usize)
        requires { length (text_of self.old) + length (blank_decimal number) ≤ 128 }
        ensures { text_of self.new ≡ text_of self.old ++ blank_decimal number }
    {
        self.text.push_str(" ");
        self.text.push_str(Buffer::new().format(number));
    }

    // Adds the items of a set, each after a blank.
    fn push_items(&mut self, set: u32)
        requires { length (text_of self.old) + length (spaced (members 32 set)) ≤ 128 }
        ensures { text_of self.new ≡ text_of self.old ++ spaced (members 32 set) }
    {
        for item in Items(set) {
            self.push_number(item as usize);
        }
    }

    // Ends the line.
    pub(crate) fn end(&mut self)
        requires { length (text_of self.old) < 128 }
        ensures { text_of self.new ≡ text_of self.old ++ 10 ∷ [] }
    {
        self.text.push_str("\n");
    }

    // A word and the items of a set.
    #[tactic(auto, using(crate::proofs::Texts::room))]
    pub(crate) fn of_set(word: &str, set: u32) -> Line
        requires { length word.now ≤ 7 }
        ensures { text_of result ≡ number_line word.now (members 32 set) }
    {
        let mut line = Line::begun(word);
        line.push_items(set);
        line.end();
        line
    }
}
