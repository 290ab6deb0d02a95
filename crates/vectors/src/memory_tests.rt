// Memories and criteria without groups.
use crate::scenes::{begun, counted};
use criterion::{Criterion, GroupedCriterion, Memory, Remembered, Ungrouped};
use joints::JointSets;
use std::alloc::Global;
use std::test::Fail;

#[test]
fn three_piled(rt: HostRuntime) -> Result<(), Fail> {
    let below = counted(rt.alloc(), &[3, 0, 0, 0, 4, 256, 66049, 2, 256])?;
    let mut pile = Memory::new(Memory::new(Memory::new(below)));
    assert_eq!(rt; pile.count(), 4);
    assert_eq!(rt; u8::from(pile.group(1)), 1);
    assert_eq!(rt; u8::from(pile.group(4)), 2);
    assert_eq!(rt; Memory::<Memory<JointSets>>::LIMIT, 31);
    assert_eq!(rt; Ungrouped::<JointSets>::LIMIT, 31);
    for (set, verdict, asked) in [
        (0xff07, true, 1),
        (7, true, 1),
        (15, true, 1),
        (3, false, 2),
        (1, false, 2),
        (0xf0, false, 3),
        (0, false, 3),
        (11, true, 4),
        (9, true, 5),
        (6, false, 6),
        (5, false, 7),
    ] {
        assert_eq!(rt; pile.check(set), verdict);
        assert_eq!(rt; pile.remembered().len(), asked);
    }
    assert!(rt; pile.remembered().len() == 7);
    let first = Remembered {
        set: 7,
        verdict: true,
    };
    assert_eq!(rt; pile.remembered()[0], first);
    let second = Remembered {
        set: 3,
        verdict: false,
    };
    assert_eq!(rt; pile.remembered()[1], second);
    assert_eq!(rt; pile.into_inner().into_inner().into_inner().checks(), 7);
    Ok(())
}

#[test]
fn full_memory(rt: HostRuntime) -> Result<(), Fail> {
    let heap = rt.alloc();
    let mut words = begun(heap, 32, 31)?;
    for k in 0..31u64 {
        words.push(k + 256 * (k + 1))?;
    }
    let mut memory = Memory::new(counted(heap, words.as_slice())?);
    for _ in 0..2 {
        for k in 0..23u32 {
            for step in [1, 3, 7] {
                assert!(rt; !memory.check((1 << k) | (1 << (k + step))));
            }
        }
    }
    assert_eq!(rt; memory.remembered().len(), 64);
    assert_eq!(rt; memory.into_inner().checks(), 74);
    Ok(())
}

#[test]
fn no_groups(rt: HostRuntime) -> Result<(), Fail> {
    let mut sets = Ungrouped::new(counted(rt.alloc(), &[2, 0, 0, 2, 256, 65792])?);
    for item in [0, 1, 2, u32::MAX] {
        assert_eq!(rt; u8::from(sets.group(item)), 2);
    }
    assert_eq!(rt; sets.count(), 2);
    assert!(rt; sets.check(3));
    assert!(rt; !sets.check(2));
    let below = sets.into_inner();
    assert_eq!(rt; u8::from(below.group(1)), 1);
    assert_eq!(rt; below.checks(), 2);
    Ok(())
}
