// Runs of calls in many orders, over piles of memories.
use crate::always::Always;
use crate::model::{Model, call, next};
use crate::scenes::{admitted, begun};
use base::Refusal;
use criterion::{Criterion, GroupedCriterion, Memory, Ungrouped};
use inquiry::{Inquiry, replay};
use joints::JointSets;
use std::alloc::Global;
use std::process::Abort;
use std::test::Fail;

// A scene of four bodies and at most six joints.
fn scene(heap: Global, seed: u64) -> Result<JointSets, Fail> {
    let mut words = begun(heap, 4, seed % 7)?;
    let mut number = seed;
    for _ in 0..seed % 7 {
        number = next(number);
        let first = number % 4;
        let second = (first + 1 + number / 4 % 3) % 4;
        words.push(first + 256 * second + 65536 * (number / 16 % 3))?;
    }
    admitted(heap, words.as_slice())
}

// Makes twenty calls and holds each answer to the model's.
fn run<C: GroupedCriterion + Drop>(
    rt: &impl Abort,
    heap: Global,
    criterion: C,
    mut model: Model,
    seed: u64,
) -> Result<C, Fail> {
    let mut calls = Vec::new(heap);
    let mut number = seed;
    for _ in 0..20 {
        number = next(number);
        calls.push(call(heap, number)?)?;
    }
    let Ok((criterion, answers)) = replay(criterion, calls, Vec::with_capacity(heap, 20)?) else {
        return Err(Fail::new("there is room"));
    };
    assert_eq!(rt; answers.len(), 20);
    let mut number = seed;
    for answer in answers.iter() {
        number = next(number);
        assert!(rt; model.agrees(&call(heap, number)?, answer));
    }
    Ok(criterion)
}

// Three runs, one after another, over the same pile of memories.
#[test]
fn runs_over_memories(rt: HostRuntime) -> Result<(), Fail> {
    let heap = rt.alloc();
    for seed in 1..400u64 {
        let mut pile = Memory::new(Memory::new(scene(heap, seed)?));
        for turn in 0..3 {
            let model = Model::of(&mut scene(heap, seed)?);
            pile = run(&rt, heap, pile, model, seed * 4 + turn)?;
        }
    }
    Ok(())
}

// Every item is retired and restored again; then the list is what it was.
#[test]
fn emptied_and_refilled(rt: HostRuntime) -> Result<(), Fail> {
    let mut inquiry = Inquiry::open(Memory::new(scene(rt.alloc(), 6)?));
    let mut before = [u32::MAX; 16];
    let listed = inquiry.list(&mut before);
    for item in 0..6 {
        assert_eq!(rt; inquiry.retire(item), Ok(5 - item));
    }
    assert_eq!(rt; inquiry.core(), Err(Refusal::GetsNo));
    for item in 0..6 {
        assert_eq!(rt; inquiry.restore(item), Ok(item + 1));
    }
    let mut after = [0; 16];
    assert_eq!(rt; inquiry.list(&mut after), listed);
    assert!(rt; before == after);
    Ok(())
}

// A criterion without groups that says yes to the empty set: one core, the empty set, with any scope.
#[test]
fn empty_core(rt: HostRuntime) {
    let mut inquiry = Inquiry::open(Ungrouped::new(Always));
    for item in 0..31 {
        let mut places = [u32::MAX; 2];
        assert_eq!(rt; inquiry.list(&mut places), Ok(1));
        assert!(rt; places == [0, 0]);
        assert_eq!(rt; inquiry.list(&mut places[0..0]), Err(Refusal::TooManyCores));
        assert_eq!(rt; inquiry.core_by_groups(), Ok(0));
        assert_eq!(rt; inquiry.common(), Ok(0));
        assert_eq!(rt; inquiry.retire(item), Ok(30 - item));
    }
    assert!(rt; inquiry.verdict());
}

// Item numbers that no scope has.
#[test]
fn no_such_items(rt: HostRuntime) -> Result<(), Fail> {
    let mut inquiry = Inquiry::open(scene(rt.alloc(), 6)?);
    for item in [6, 31, 32, 33, 64, u32::MAX] {
        let mut places = [u32::MAX; 3];
        assert_eq!(rt; inquiry.retire(item), Err(Refusal::NoSuchItem));
        assert_eq!(rt; inquiry.restore(item), Err(Refusal::NoSuchItem));
        assert_eq!(rt;
            inquiry.without(item, &mut places),
            Err(Refusal::NoSuchItem)
        );
        assert!(rt; places == [0; 3]);
    }
    Ok(())
}
