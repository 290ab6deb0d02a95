// Words as sets.
use itemset::{Items, WordSet};

#[test]
fn items(rt: HostRuntime) {
    for (set, item, holds, without) in [
        (0b1010u32, 1u32, true, 0b1000u32),
        (0b1010, 0, false, 0b1010),
        (u32::MAX, 31, true, 0x7fff_ffff),
        (u32::MAX, 32, false, u32::MAX),
        (u32::MAX, u32::MAX, false, u32::MAX),
    ] {
        assert_eq!(rt; set.holds(item), holds);
        assert_eq!(rt; set.without(item), without);
    }
    for (set, lowest, size) in [
        (0u32, None, 0u32),
        (0b1010, Some(1), 2),
        (0x8000_0000, Some(31), 1),
        (u32::MAX, Some(0), 32),
    ] {
        assert_eq!(rt; set.lowest(), lowest);
        assert_eq!(rt; set.size(), size);
    }
    assert!(rt; 0b1010u32.within(0b1110));
    assert!(rt; !0b1010u32.within(0b0110));
    assert_eq!(rt; u32::first(0), 0);
    assert_eq!(rt; u32::first(31), 0x7fff_ffff);
    assert_eq!(rt; u32::first(33), u32::MAX);
}

#[test]
fn states(rt: HostRuntime) {
    for (set, item, holds, without) in [
        (0b1010u64, 1u32, true, 0b1000u64),
        (u64::MAX, 63, true, 0x7fff_ffff_ffff_ffff),
        (u64::MAX, 64, false, u64::MAX),
    ] {
        assert_eq!(rt; set.holds(item), holds);
        assert_eq!(rt; set.without(item), without);
    }
    for (set, lowest, size) in [
        (0u64, None, 0u32),
        (0x8000_0000_0000_0000, Some(63), 1),
        (u64::MAX, Some(0), 64),
    ] {
        assert_eq!(rt; set.lowest(), lowest);
        assert_eq!(rt; set.size(), size);
    }
    assert!(rt; 0x1_0000_0000u64.within(0x1_0000_0001));
    assert_eq!(rt; u64::first(63), 0x7fff_ffff_ffff_ffff);
    assert_eq!(rt; u64::first(64), u64::MAX);
}

#[test]
fn one_after_another(rt: HostRuntime) {
    let mut items = Items(0x8000_0005u32);
    for item in [Some(0), Some(2), Some(31), None, None] {
        assert_eq!(rt; items.next(), item);
    }
    let mut states = Items(0x8000_0000_0000_0000u64);
    for state in [Some(63), None] {
        assert_eq!(rt; states.next(), state);
    }
}
