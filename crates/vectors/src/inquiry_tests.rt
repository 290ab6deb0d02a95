// Inquiries: single calls, runs of calls, and how many checks a list asks.
use crate::scenes::{begun, counted};
use base::Refusal;
use inquiry::{Call, Inquiry, replay};
use std::alloc::Global;
use std::test::Fail;

#[test]
fn triangle(rt: HostRuntime) -> Result<(), Fail> {
    let mut inquiry = Inquiry::open(counted(rt.alloc(), &[3, 0, 0, 0, 4, 256, 513, 2, 256])?);
    let mut places = [u32::MAX; 4];
    assert_eq!(rt; inquiry.list(&mut places), Ok(3));
    assert!(rt; places == [7, 9, 14, 0]);
    assert_eq!(rt; inquiry.list(&mut places[0..2]), Err(Refusal::TooManyCores));
    assert_eq!(rt; inquiry.without(0, &mut places), Ok(1));
    assert!(rt; places == [14, 0, 0, 0]);
    Ok(())
}

// Two places are too few for the three cores, three suffice, and what more there is becomes 0.
#[test]
fn buffers(rt: HostRuntime) -> Result<(), Fail> {
    let heap = rt.alloc();
    let mut inquiry = Inquiry::open(counted(heap, &[3, 0, 0, 0, 4, 256, 513, 2, 256])?);
    for len in 0..6usize {
        let mut places = vec![in heap; u32::MAX; len]?;
        let listed = inquiry.list(&mut places);
        let wanted = [7, 9, 14, 0, 0, 0];
        if len < 3 {
            assert_eq!(rt; listed, Err(Refusal::TooManyCores));
            assert!(rt; places.iter().all(|place| *place == 0));
        } else {
            assert_eq!(rt; listed, Ok(3));
            assert_eq!(rt; places.as_slice(), &wanted[..len]);
        }
    }
    Ok(())
}

// Joints 0 and 1, 2 and 3 close a ring each: least in group 0 is the ring of classes 1 and 2.
#[test]
fn groups(rt: HostRuntime) -> Result<(), Fail> {
    let words = [4, 0, 0, 0, 0, 4, 256, 65792, 65792 + 514, 131072 + 770];
    let mut inquiry = Inquiry::open(counted(rt.alloc(), &words)?);
    assert_eq!(rt; inquiry.core_by_groups(), Ok(12));
    Ok(())
}

#[test]
fn scope(rt: HostRuntime) -> Result<(), Fail> {
    let mut inquiry = Inquiry::open(counted(rt.alloc(), &[3, 0, 0, 0, 4, 256, 513, 2, 256])?);
    assert_eq!(rt; inquiry.retire(u32::MAX), Err(Refusal::NoSuchItem));
    assert_eq!(rt; inquiry.retire(0), Ok(3));
    assert_eq!(rt; inquiry.retire(0), Err(Refusal::AlreadyOut));
    assert!(rt; inquiry.verdict());
    assert_eq!(rt; inquiry.core(), Ok(14));
    assert_eq!(rt; inquiry.common(), Ok(14));
    assert_eq!(rt; inquiry.restore(0), Ok(4));
    assert_eq!(rt; inquiry.restore(0), Err(Refusal::AlreadyIn));
    Ok(())
}

#[test]
fn no_room(rt: HostRuntime) -> Result<(), Fail> {
    let heap = rt.alloc();
    let below = counted(heap, &[3, 0, 0, 0, 4, 256, 513, 2, 256])?;
    let mut calls = Vec::new(heap);
    calls.push(Call::Verdict)?;
    match replay(below, calls, Vec::new(heap)) {
        Ok(_) => Err(Fail::new("there is no room")),
        Err((below, calls, answers)) => {
            assert_eq!(rt; calls.len(), 1);
            assert_eq!(rt; answers.len(), 0);
            assert_eq!(rt; below.checks(), 0);
            Ok(())
        }
    }
}

// The cores of a plan and the checks that its list asks.
fn asked(heap: Global, words: &[u64]) -> Result<(u32, u64), Fail> {
    let mut places = vec![in heap; 0; 4096]?;
    let mut inquiry = Inquiry::open(counted(heap, words)?);
    let count = inquiry.list(&mut places).unwrap_or(0);
    Ok((count, inquiry.close().checks()))
}

#[test]
fn checks_of_a_grid(rt: HostRuntime) -> Result<(), Fail> {
    let heap = rt.alloc();
    let mut words = begun(heap, 16, 24)?;
    for body in 0..16u64 {
        if body % 4 < 3 {
            words.push(body + 256 * (body + 1))?;
        }
        if body < 12 {
            words.push(body + 256 * (body + 4))?;
        }
    }
    let (cores, checks) = asked(heap, words.as_slice())?;
    assert_eq!(rt; cores, 213);
    assert!(rt; checks <= 106000);
    Ok(())
}

#[test]
fn checks_of_a_complete_graph(rt: HostRuntime) -> Result<(), Fail> {
    let heap = rt.alloc();
    let mut words = begun(heap, 7, 21)?;
    for first in 0..7u64 {
        for second in first + 1..7 {
            words.push(first + 256 * second)?;
        }
    }
    let (cores, checks) = asked(heap, words.as_slice())?;
    assert_eq!(rt; cores, 1172);
    assert!(rt; checks <= 27000);
    Ok(())
}

#[test]
fn checks_of_a_chain(rt: HostRuntime) -> Result<(), Fail> {
    let heap = rt.alloc();
    let mut words = begun(heap, 32, 31)?;
    for k in 0..31u64 {
        words.push(k + 256 * (k + 1))?;
    }
    let (cores, checks) = asked(heap, words.as_slice())?;
    assert_eq!(rt; cores, 0);
    assert_eq!(rt; checks, 1);
    Ok(())
}
