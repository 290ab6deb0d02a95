// Making a row of sets, and reading it.
ghost use Rattle.std.specs.Prelude.{◌≡◌, ◌^◌, ◌<◌, ◌≢◌, [], length, All};
ghost use Rattle.cores.specs.Founds.{Inserts, SameBuffer, known, room};

use crate::found::Found;
use base::Refusal;

impl<'a> Found<'a> {
    // No set, and 0 in every place.
    pub(crate) fn new(places: &'a mut [u32]) -> Found<'a>
        ensures buffer { result.places.ghost_name ≡ places.entry.ghost_name }
        ensures room { room result ≡ length places.old }
        ensures empty { known result ≡ [] }
    {
        places.fill(0);
        Found { places, count: 0 }
    }

    // The sets of the row.
    pub(crate) fn known(&self) -> &[u32]
        ensures { result.now ≡ known self.now }
    {
        &self.places[..self.count]
    }

    // Puts a set that is not known into its place in the row, if there is room.
    pub(crate) fn insert(&mut self, set: u32) -> Result<(), Refusal>
        requires below { set < 2 ^ 31 }
        requires new { All (λ K. K ≢ set) (known self.old) }
        ensures buffer { SameBuffer self.old self.new }
        ensures row { Inserts set self.old self.new result }
    {
        if self.count == self.places.len() {
            return Err(Refusal::TooManyCores);
        }
        let at = self.known().partition_point(|other| *other < set);
        // One borrow for both writes: what stands between them is no row.
        let places = &mut *self.places;
        places.copy_within(at..self.count, at + 1);
        places[at] = set;
        self.count += 1;
        Ok(())
    }
}
