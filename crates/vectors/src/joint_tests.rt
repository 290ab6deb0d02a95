// Joint sheets and joint sets.
use crate::scenes::{admitted, begun};
use base::Refusal;
use criterion::{Criterion, Group, GroupedCriterion};
use joints::{Joint, JointPlan, JointSets};
use std::alloc::Global;
use std::test::Fail;

const TRIANGLE: [u64; 9] = [3, 0, 0, 0, 4, 256, 513, 2, 256];

#[test]
fn triangle(rt: HostRuntime) -> Result<(), Fail> {
    let mut sets = admitted(rt.alloc(), &TRIANGLE)?;
    assert_eq!(rt; sets.count(), 4);
    assert_eq!(rt; JointSets::LIMIT, 31);
    for (set, verdict) in [
        (7, true),
        (9, true),
        (14, true),
        (6, false),
        (5, false),
        (3, false),
        (0, false),
        (15, true),
        (0xffff_fff0, false),
        (0x8000_0009, true),
        (0xffff_fff3, false),
    ] {
        assert_eq!(rt; sets.check(set), verdict);
    }
    Ok(())
}

#[test]
fn groups(rt: HostRuntime) -> Result<(), Fail> {
    let sets = admitted(rt.alloc(), &[2, 0, 0, 3, 256, 65792, 131328])?;
    for (item, group) in [
        (0, 0),
        (1, 1),
        (2, 2),
        (3, 2),
        (31, 2),
        (32, 2),
        (u32::MAX, 2),
    ] {
        assert_eq!(rt; u8::from(sets.group(item)), group);
    }
    Ok(())
}

#[test]
fn small_and_large(rt: HostRuntime) -> Result<(), Fail> {
    let heap = rt.alloc();
    let mut none = JointSets::new(JointPlan::new(heap)?);
    assert_eq!(rt; none.count(), 0);
    assert!(rt; !none.check(u32::MAX));
    let mut words = begun(heap, 31, 31)?;
    for k in 0..31u64 {
        words.push(k + 256 * ((k + 1) % 31))?;
    }
    let mut ring = admitted(heap, words.as_slice())?;
    assert_eq!(rt; ring.count(), 31);
    assert!(rt; ring.check(0x7fff_ffff));
    assert!(rt; ring.check(u32::MAX));
    for k in 0..31u32 {
        assert!(rt; !ring.check(0x7fff_ffff ^ (1 << k)));
    }
    Ok(())
}

#[test]
fn refusals(rt: HostRuntime) -> Result<(), Fail> {
    let table: [(&[u64], Refusal); 24] = [
        (&[], Refusal::MissingWord(0)),
        (&[33], Refusal::CountTooLarge(0)),
        (&[u64::MAX], Refusal::CountTooLarge(0)),
        (&[2], Refusal::MissingWord(1)),
        (&[2, 0], Refusal::MissingWord(2)),
        (&[2, 1], Refusal::BodyWord(1)),
        (&[2, 0, u64::MAX], Refusal::BodyWord(2)),
        (&[2, 0, 0], Refusal::MissingWord(3)),
        (&[2, 0, 0, 32], Refusal::CountTooLarge(3)),
        (&[2, 0, 0, u64::MAX], Refusal::CountTooLarge(3)),
        (&[2, 0, 0, 1], Refusal::MissingWord(4)),
        (&[2, 0, 0, 1, 0], Refusal::JointWord(4)),
        (&[2, 0, 0, 1, 257], Refusal::JointWord(4)),
        (&[2, 0, 0, 1, 512], Refusal::JointWord(4)),
        (&[2, 0, 0, 1, 2], Refusal::JointWord(4)),
        (&[2, 0, 0, 1, 196864], Refusal::JointWord(4)),
        (&[2, 0, 0, 1, 16777472], Refusal::JointWord(4)),
        (&[2, 0, 0, 1, u64::MAX], Refusal::JointWord(4)),
        (&[2, 0, 0, 2, 256, 3], Refusal::JointWord(5)),
        (&[2, 0, 0, 2, 256], Refusal::MissingWord(5)),
        (&[2, 0, 0, 1, 256, 9, 9], Refusal::WordsLeftOver(5)),
        (&[0, 1], Refusal::MissingWord(2)),
        (&[0, 1, 256], Refusal::JointWord(2)),
        (&[0, 0, 0], Refusal::WordsLeftOver(2)),
    ];
    let mut plan = JointPlan::new(rt.alloc())?;
    plan.admit(&TRIANGLE)?;
    for (words, refusal) in table {
        assert_eq!(rt; plan.admit(words), Err(refusal));
        assert_eq!(rt; plan.bodies(), 3);
        assert_eq!(rt; plan.joints().len(), 4);
    }
    let mut places = [7; 9];
    assert_eq!(rt; plan.write(&mut places), Ok(9));
    assert!(rt; places == TRIANGLE);
    Ok(())
}

#[test]
fn writing(rt: HostRuntime) -> Result<(), Fail> {
    let mut plan = JointPlan::new(rt.alloc())?;
    let mut places = [7; 12];
    assert_eq!(rt; plan.write(&mut places[0..1]), Err(Refusal::TooFewPlaces));
    assert_eq!(rt; places[0], 7);
    assert_eq!(rt; plan.write(&mut places), Ok(2));
    assert!(rt; places == [0, 0, 7, 7, 7, 7, 7, 7, 7, 7, 7, 7]);
    plan.admit(&TRIANGLE)?;
    assert_eq!(rt; plan.words(), 9);
    assert_eq!(rt; plan.write(&mut places[0..8]), Err(Refusal::TooFewPlaces));
    assert_eq!(rt; plan.write(&mut places), Ok(9));
    assert!(rt; places == [3, 0, 0, 0, 4, 256, 513, 2, 256, 7, 7, 7]);
    Ok(())
}

#[test]
fn words_of_joints(rt: HostRuntime) {
    for (word, first, second, class) in [
        (0u64, 0u8, 0u8, Group::First),
        (0x00_0100, 0, 1, Group::First),
        (0x01_1f03, 3, 31, Group::Second),
        (0x02_ffff, 255, 255, Group::Third),
    ] {
        let joint = Joint {
            first,
            second,
            class,
        };
        assert_eq!(rt; Joint::try_from(word), Ok(joint));
        assert_eq!(rt; u64::from(joint), word);
    }
    for word in [0x03_0100, 0x0100_0100, u64::MAX] {
        assert_eq!(rt; Joint::try_from(word), Err(word));
    }
}

#[test]
fn numbers_of_groups(rt: HostRuntime) {
    for (number, group) in [(0u8, Group::First), (1, Group::Second), (2, Group::Third)] {
        assert_eq!(rt; Group::try_from(number), Ok(group));
        assert_eq!(rt; u8::from(group), number);
    }
    for number in [3, 255] {
        assert_eq!(rt; Group::try_from(number), Err(number));
    }
}
