// The lines of the console.
ghost use Rattle.std.specs.Prelude.{◌≡◌, ◌≤◌, length};
ghost use Rattle.base.specs.Places.{overwritten, written};
ghost use Rattle.base.specs.Refusals.{index as index_of, number as number_of, outcome};
ghost use Rattle.itemset.specs.Sets.{members};
ghost use Rattle.console.specs.Text.{common_line, core_line, items_line, refused_line};
ghost use Rattle.console.specs.Views.{text_of};

use crate::line::Line;
use base::Refusal;

impl Line {
    // How many items there are.
    #[tactic(auto, using(crate::proofs::Texts::room))]
    pub fn items(count: u32) -> Line
        ensures is_the_items_line { text_of result ≡ items_line count }
    {
        let mut line = Line::begun("items");
        line.push_number(count as usize);
        line.end();
        line
    }

    // The items that lie in every core.
    pub fn common(set: u32) -> Line
        ensures is_the_common_line { text_of result ≡ common_line (members 32 set) }
    {
        Line::of_set("common", set)
    }

    // The items of a core.
    pub fn core(set: u32) -> Line
        ensures is_the_core_line { text_of result ≡ core_line set }
    {
        Line::of_set("core", set)
    }

    // A refusal's number and index.
    #[tactic(auto, using(crate::proofs::Texts::room))]
    pub fn refused(refusal: Refusal) -> Line
        ensures is_the_refused_line { text_of result ≡ refused_line (number_of refusal) (index_of refusal) }
    {
        let mut line = Line::begun("refused");
        line.push_number(refusal.number() as usize);
        line.push_number(refusal.index());
        line.end();
        line
    }

    pub fn as_slice(&self) -> &[u8]
        ensures shows_the_bytes { result.now ≡ text_of self.now }
        ensures fits { length result.now ≤ 128 }
    {
        self.text.as_str().as_bytes()
    }

    // Writes the line in front and answers how long it is.
    pub fn write(&self, places: &mut [u8]) -> Result<usize, Refusal>
        ensures answers_the_length { outcome (λ n. n) result ≡ written (text_of self.now) places.old }
        ensures fills_the_front { places.new ≡ overwritten (text_of self.now) places.old }
    {
        base::write(self.as_slice(), places)
    }
}
