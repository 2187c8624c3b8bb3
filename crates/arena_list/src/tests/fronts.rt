//! Keys that begin alike, and others that do not.

use super::{Rig, come_and_go, is_at, plain_newest, same_walk, shows, step};
use crate::{Found, Marks};
use rand_core::SeedableRng;
use rand_pcg::Pcg32;
use std::collections::BTreeMap;

/// How many keys the tests of fronts have.
const FRONTED: usize = 20;

/// Keys that begin alike, and then others that leave this front: near its end, in its middle and at its beginning.
fn fronted_keys() -> [&'static [u8]; FRONTED] {
    [
        b"table/0001/00000000",
        b"table/0001/00000001",
        b"table/0001/00000000\0",
        b"table/0001/0000000000",
        b"table/0001/",
        b"table/0001/\0",
        b"table/0001/\0\0\0\0\0\0\0\0\0",
        b"table/0001/\xFF\xFF\xFF\xFF\xFF\xFF\xFF\xFF",
        b"table/0001/\xFF\xFF\xFF\xFF\xFF\xFF\xFF\xFF\xFF",
        b"table/0001",
        b"table/0002/00000000",
        b"table/0000/00000000",
        b"table/\0",
        b"table/\xFF",
        b"table",
        b"tab\xFF",
        b"zebra",
        b"a",
        b"",
        b"\xFF\xFF\xFF\xFF\xFF\xFF\xFF\xFF\xFF",
    ]
}

#[test]
fn keys_may_leave_the_front_that_they_had_in_common(rt: HostRuntime) {
    let mut rig = Rig::new(&rt, rt.alloc());
    let keys = fronted_keys();
    for _ in 0..2 {
        come_and_go(&rt, &mut rig, &keys);
    }
}

#[test]
fn what_is_sought_may_stand_before_or_after_the_front(rt: HostRuntime) {
    let mut rig = Rig::new(&rt, rt.alloc());
    let (first, last): (&[u8], &[u8]) = (
        b"front\0\0\0\0\0\0\0\0",
        b"front\xFF\xFF\xFF\xFF\xFF\xFF\xFF\xFF",
    );
    rig.put(&rt, first, 1, None);
    rig.put(&rt, last, 2, None);
    let before: [&[u8]; 6] = [b"", b"f", b"front", b"fron\xFF", b"fron", b"\0\0\0\0\0\0"];
    for key in before {
        let early = key != b"fron\xFF".as_slice();
        is_at(
            &rt,
            rig.list.before(key, 3),
            if early { None } else { Some((last, 2)) },
        );
        is_at(
            &rt,
            rig.list.from(key, 3),
            if early { Some((first, 1)) } else { None },
        );
        assert_eq!(&rt; rig.list.newest(key, 3), Found::Nothing);
        assert!(&rt; !rig.list.remove(key, 1));
    }
    let after: [&[u8]; 4] = [b"frontier\0\0\0", b"fronu", b"g", b"\xFF\xFF\xFF\xFF\xFF"];
    for key in after {
        let late = key != b"frontier\0\0\0".as_slice();
        is_at(
            &rt,
            rig.list.before(key, 3),
            Some(if late { (last, 2) } else { (first, 1) }),
        );
        is_at(
            &rt,
            rig.list.from(key, 3),
            if late { None } else { Some((last, 2)) },
        );
        assert_eq!(&rt; rig.list.newest(key, 3), Found::Nothing);
    }
    assert_eq!(&rt; rig.list.newest(first, 3), Found::Gone { seq: 1 });
    assert_eq!(&rt; rig.list.newest(last, 3), Found::Gone { seq: 2 });
}

#[test]
fn versions_are_kept_for_marks_after_a_key_left_the_front(rt: HostRuntime) {
    let alloc = rt.alloc();
    let mut rig = Rig::new(&rt, alloc);
    let (one, other): (&[u8], &[u8]) = (b"front/of/keys/1", b"front/of/keys/12345678");
    for seq in 1..4 {
        rig.put(&rt, one, seq, None);
        rig.put(&rt, other, seq, None);
    }
    rig.put(&rt, b"front", 4, None);
    let mut marks = Marks::new(alloc);
    assert!(&rt; marks.insert(3).is_ok());
    assert_eq!(&rt; rig.list.keep_for(&marks), 5);
    shows(&rt, rig.list.walk(), &[(one, 2), (other, 2)]);
}

#[test]
fn a_long_list_answers_as_a_map_does_while_keys_leave_the_front(rt: HostRuntime) {
    let alloc = rt.alloc();
    let mut rig = Rig::new(&rt, alloc);
    let mut plain = BTreeMap::new(alloc);
    let mut dice = Pcg32::seed_from_u64(13);
    let keys = fronted_keys();
    for count in [4, 9, 12, 16, FRONTED] {
        for _ in 0..3_000u64 {
            step(&rt, &mut rig, &mut plain, &mut dice, &keys[..count], 400);
        }
        same_walk(&rt, &rig.list, &plain);
        for key in keys {
            assert_eq!(&rt; rig.list.newest(key, 300), plain_newest(&plain, key, 300));
        }
    }
}
