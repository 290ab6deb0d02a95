// Taking items out of a scope and putting them back.
ghost use Rattle.std.specs.Prelude.{◌≡◌, ◌^◌, ◌<◌, ◌≤◌};
ghost use Rattle.base.specs.Refusals.{outcome};
ghost use Rattle.itemset.specs.Sets.{full as full_set, less};
ghost use Rattle.cores.specs.Scopes.{restored, restoring, retired, retiring};

use crate::scope::Scope;
use base::Refusal;
use criterion::Criterion;
use itemset::WordSet;

impl Scope {
    // Every item of a criterion.
    pub fn of<C: Criterion>(criterion: &C) -> Scope
        ensures counts_its_items { result.items ≡ (C.Criterion.meaning criterion.now).count }
        ensures has_every_item { result.set ≡ full_set (C.Criterion.meaning criterion.now).count }
    {
        let items = criterion.count();
        Scope::full(items)
    }

    // So many items, and every one in.
    pub(crate) fn full(items: u32) -> Scope
        requires { items ≤ 31 }
        ensures items { result.items ≡ items }
        ensures set { result.set ≡ full_set items }
    {
        Scope {
            items,
            set: u32::first(items),
        }
    }

    // The scope without one of its items.
    pub(crate) fn lacking(self, item: u32) -> Scope
        ensures items { result.items ≡ self.items }
        ensures set { result.set ≡ less self.set (2 ^ item) }
    {
        Scope {
            items: self.items,
            set: self.set.without(item),
        }
    }

    // Takes an item out, and answers how many are then in.
    pub fn retire(&mut self, item: u32) -> Result<u32, Refusal>
        ensures answers_the_size { outcome (λ n. n) result ≡ retiring self.old.items self.old.set item }
        ensures takes_it_out { self.new.set ≡ retired self.old.set item }
        ensures keeps_the_items { self.new.items ≡ self.old.items }
    {
        if item >= self.items {
            return Err(Refusal::NoSuchItem);
        }
        if !self.set.holds(item) {
            return Err(Refusal::AlreadyOut);
        }
        self.set = self.set.without(item);
        Ok(self.set.size())
    }

    // Puts an item back, and answers how many are then in. (One function with a flag for both would turn on it at every step.)
    pub fn restore(&mut self, item: u32) -> Result<u32, Refusal>
        ensures answers_the_size { outcome (λ n. n) result ≡ restoring self.old.items self.old.set item }
        ensures puts_it_in { self.new.set ≡ restored self.old.items self.old.set item }
        ensures keeps_the_items { self.new.items ≡ self.old.items }
    {
        if item >= self.items {
            return Err(Refusal::NoSuchItem);
        }
        if self.set.holds(item) {
            return Err(Refusal::AlreadyIn);
        }
        self.set |= 1 << item;
        Ok(self.set.size())
    }
}
