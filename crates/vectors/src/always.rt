// A criterion of 31 items that says yes to every set: its only core is the empty set.
ghost use Rattle.std.specs.Prelude.{true};
ghost use Rattle.std.proofs.Common.{rules};

use criterion::Criterion;

#[derive(Drop)]
pub struct Always;

impl Criterion for Always {
    const LIMIT: u32 = 31;

    ghost LIMIT = { 31 };

    ghost meaning = { λ _. record { count = 31; verdict = λ _. true; group = λ _. 2; order = true } };

    ghost lawful = { Prim.search rules };

    fn count(&self) -> u32 {
        31
    }

    fn check(&mut self, _set: u32) -> bool {
        true
    }
}
