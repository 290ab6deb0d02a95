// What the calls of an inquiry have to answer on a small scene, found by trying every set.
ghost use Rattle.std.specs.Prelude.{◌≤◌};

use base::Refusal;
use criterion::{Criterion, Group, GroupedCriterion};
use inquiry::{Answer, Call};
use joints::JointSets;
use std::alloc::{AllocError, Global};
use std::iter;

// Numbers that look random: each is made from the one before.
pub fn next(seed: u64) -> u64 {
    let a = seed ^ (seed << 13);
    let b = a ^ (a >> 7);
    b ^ (b << 17)
}

// The call that a number stands for: one of eight, an item that is there or not, a buffer of some length full of ones.
pub fn call(heap: Global, number: u64) -> Result<Call, AllocError> {
    let item = [0, 1, 2, 3, 4, 5, 31, 32, u32::MAX, 0][(number / 8 % 10) as usize];
    let len = [0, 1, 2, 3, 4, 5, 6, 20][(number / 128 % 8) as usize];
    // a call, not a kind: the number is random
    match number % 8 {
        0 => Ok(Call::Retire(item)),
        1 => Ok(Call::Restore(item)),
        2 => Ok(Call::Verdict),
        3 => Ok(Call::Core),
        4 => Ok(Call::CoreByGroups),
        5 => Ok(Call::Common),
        6 => Ok(Call::List(vec![in heap; u32::MAX; len]?)),
        _ => Ok(Call::Without(item, vec![in heap; u32::MAX; len]?)),
    }
}

// The verdicts of all sets of at most six items, and the scope that the calls so far make.
#[derive(Drop)]
pub struct Model {
    items: u32,
    // full from the start, a place for every set
    yes: [bool; 64],
    first: u32,
    second: u32,
    scope: u32,
}

impl Model {
    pub fn of(sets: &mut JointSets) -> Model {
        let items = sets.count();
        let mut yes = [false; 64];
        // a `for`: the check changes the criterion, and in a closure a set has no bound
        for set in 0..64u32 {
            yes[set as usize] = sets.check(set);
        }
        let first = in_group(sets, Group::First);
        let second = in_group(sets, Group::Second);
        Model {
            items,
            yes,
            first,
            second,
            scope: (1 << (items % 32)) - 1,
        }
    }

    fn gets_yes(&self, set: u32) -> bool {
        self.yes[(set & 63) as usize]
    }

    fn is_core(&self, scope: u32, set: u32) -> bool {
        set & scope == set
            && self.gets_yes(set)
            && !(0..set).any(|part| part & set == part && self.gets_yes(part))
    }

    // No core has its items of the first group properly inside the set's, nor, with the same ones, those of the second.
    fn is_least_by_groups(&self, set: u32) -> bool {
        let first = set & self.first;
        let second = set & self.second;
        let is_less = |other: u32| {
            let others = other & self.first;
            let seconds = other & self.second;
            let fewer = others & first == others && others != first;
            fewer || others == first && seconds & second == seconds && seconds != second
        };
        !(0..64).any(|other| self.is_core(self.scope, other) && is_less(other))
    }

    fn common(&self) -> u32 {
        (0..64)
            .filter(|set| self.is_core(self.scope, *set))
            .fold(self.scope, |common, set| common & set)
    }

    fn core_count(&self, scope: u32) -> usize
        ensures { result ≤ 64 }
    {
        (0..64u32).filter(|set| self.is_core(scope, *set)).count()
    }

    // Whether the places hold the scope's cores in rising order, and then zeros.
    fn holds_cores(&self, scope: u32, places: &[u32]) -> bool {
        let cores = (0..64).filter(|set| self.is_core(scope, *set));
        let wanted = cores.chain(iter::repeat(0));
        places
            .iter()
            .zip(wanted)
            .all(|(place, core)| *place == core)
    }

    // Whether a list of the scope's cores is right.
    fn listed(&self, scope: u32, res: &Result<u32, Refusal>, places: &[u32]) -> bool {
        let count = self.core_count(scope);
        if count == 0 {
            return *res == Err(Refusal::GetsNo) && are_zeros(places);
        }
        if count > places.len() {
            return *res == Err(Refusal::TooManyCores) && are_zeros(places);
        }
        *res == Ok(count as u32) && self.holds_cores(scope, places)
    }

    // Whether the item can be taken out, where `inside` is true, or put in.
    fn allows(&self, item: u32, inside: bool) -> Result<(), Refusal> {
        if item >= self.items {
            return Err(Refusal::NoSuchItem);
        }
        match ((self.scope >> (item % 32)) & 1 == 1, inside) {
            (true, false) => Err(Refusal::AlreadyIn),
            (false, true) => Err(Refusal::AlreadyOut),
            _ => Ok(()),
        }
    }

    // Changes the scope as the call does, where it is not refused.
    fn moved(&mut self, item: u32, inside: bool) -> Result<u32, Refusal> {
        self.allows(item, inside)?;
        self.scope ^= 1 << (item % 32);
        Ok(self.scope.count_ones())
    }

    // Whether the call was answered as it has to be. The scope goes on.
    pub fn agrees(&mut self, call: &Call, answer: &Answer) -> bool {
        let yes = self.gets_yes(self.scope);
        match (call, answer) {
            (Call::Retire(item), Answer::Counted(result)) => *result == self.moved(*item, true),
            (Call::Restore(item), Answer::Counted(result)) => *result == self.moved(*item, false),
            (Call::Verdict, Answer::Judged(verdict)) => *verdict == yes,
            (Call::Core, Answer::Chosen(Ok(core))) => yes && self.is_core(self.scope, *core),
            (Call::CoreByGroups, Answer::Chosen(Ok(core))) => {
                yes && self.is_core(self.scope, *core) && self.is_least_by_groups(*core)
            }
            (Call::Common, Answer::Chosen(Ok(common))) => yes && *common == self.common(),
            (_, Answer::Chosen(Err(refusal))) => !yes && *refusal == Refusal::GetsNo,
            (Call::List(_), Answer::Listed(result, places)) => {
                self.listed(self.scope, result, places.as_slice())
            }
            (Call::Without(item, _), Answer::Listed(result, places)) => match self.allows(
                *item, true,
            ) {
                Err(refusal) => *result == Err(refusal) && are_zeros(places.as_slice()),
                Ok(()) => self.listed(self.scope & !(1 << (*item % 32)), result, places.as_slice()),
            },
            _ => false,
        }
    }
}

// The first six items that are of a group.
fn in_group(sets: &JointSets, group: Group) -> u32 {
    let mut set = 0;
    // a `for`: in a closure an item has no bound for the shift
    for item in 0..6u32 {
        if sets.group(item) == group {
            set |= 1 << item;
        }
    }
    set
}

fn are_zeros(places: &[u32]) -> bool {
    places.iter().all(|place| *place == 0)
}
