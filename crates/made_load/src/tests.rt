ghost use Rattle.std.specs.Prelude.{◌≤◌};

use crate::{Load, LoadEnd, LoadLines, load_key, load_number, load_script, put_load_end};
use session_replies::{Act, Line};
use std::alloc::Global;
use std::process::Abort;
use std::test::Fail;
use wal_base::{Buf, Entry, NoMemory};

#[test]
fn numbers_and_keys_are_those_of_the_rules(rt: HostRuntime) -> Result<(), Fail> {
    assert_eq!(rt; load_number(7, 0), 0x6a3d_ad3d_1816_7a3b);
    assert_eq!(rt; load_number(7, 19_999), 0x8288_50fe_9705_34cc);
    assert!(rt; load_key(rt.alloc(), 12_345)?.as_slice() == b"k0345".as_slice());
    Ok(())
}

/// What the line of a batch is to say.
#[derive(Clone, Copy)]
struct Wanted {
    sync: bool,
    key: &'static [u8],
    value: &'static [u8],
    deleted: &'static [u8],
}

/// The eighth batch of seed 0.
const EIGHTH: Wanted = Wanted {
    sync: false,
    key: b"k0007",
    value: b"8c266078c3d489298c266078c3d489298c266078c3d489298c266078c3d48929",
    deleted: b"k0003",
};

/// The sixteenth batch of seed 0.
const SIXTEENTH: Wanted = Wanted {
    sync: true,
    key: b"k0015",
    value: b"2c523c707f1093a12c523c707f1093a12c523c707f1093a12c523c707f1093a1",
    deleted: b"k0011",
};

/// Asserts that session 3 is to commit a batch that sets one key and deletes another.
fn check_line(rt: &impl Abort, alloc: Global, line: Option<Line>, wanted: Wanted) {
    let Some(
        Line {
            session: 3,
            act: Act::Commit { sync, batch },
        },
    ) = line
    else {
        panic!(rt; "a commit of session 3");
    };
    let batch = batch.write(alloc).expect(rt, "memory");
    let [Entry::Set { key, value }, Entry::Delete { key: deleted }] = batch.entries().as_slice()
    else {
        panic!(rt; "a key that is set, and one that is deleted");
    };
    assert_eq!(rt; sync, wanted.sync);
    assert_eq!(rt; key.as_slice(), wanted.key);
    assert_eq!(rt; value.as_slice(), wanted.value);
    assert_eq!(rt; deleted.as_slice(), wanted.deleted);
}

/// The last line of the load of so many batches and seed 0.
fn last_line(alloc: Global, batches: u32) -> Result<Option<Line>, NoMemory>
    requires { 1 ≤ batches }
{
    let mut rounds = load_script(alloc, 0, batches)?.rounds.into_vec();
    Ok(rounds.pop().and_then(|round| round.lines.into_vec().pop()))
}

#[test]
fn the_eighth_batch_deletes_and_the_sixteenth_is_synced(rt: HostRuntime) -> Result<(), Fail> {
    let alloc = rt.alloc();
    check_line(&rt, alloc, last_line(alloc, 8)?, EIGHTH);
    check_line(&rt, alloc, last_line(alloc, 16)?, SIXTEENTH);
    Ok(())
}

#[test]
fn a_session_makes_its_own_lines_of_a_round(rt: HostRuntime) -> Result<(), Fail> {
    let alloc = rt.alloc();
    let Some(round) = Load::new(0, 16).next_round() else {
        panic!(rt; "a load of 16 batches has a round");
    };
    let lines = round.lines_of(3);
    assert!(rt; lines.len() == 4 && !lines.is_empty());
    let mut own = lines.make(alloc)?.into_vec();
    check_line(&rt, alloc, own.pop(), SIXTEENTH);
    assert!(rt; own.pop().is_some());
    check_line(&rt, alloc, own.pop(), EIGHTH);
    assert_eq!(rt; own.len(), 1);
    Ok(())
}

/// Whether one of the lines of a session waits for a sync, in the first round of a load.
fn asks_for_sync(batches: u32, session: usize) -> bool {
    let mut load = Load::new(7, batches);
    match load.next_round() {
        Some(round) => round.lines_of(session).ask_for_sync(),
        None => false,
    }
}

#[test]
fn only_the_last_session_asks_for_syncs(rt: HostRuntime) {
    assert!(rt; !LoadLines::none().ask_for_sync());
    assert!(rt; !asks_for_sync(15, 3));
    for batches in [16, 1_000] {
        assert!(rt; asks_for_sync(batches, 3));
        for session in 0..3usize {
            assert!(rt; !asks_for_sync(batches, session));
        }
    }
}

/// Makes the lines of a session, once more where it was refused memory. An allocation is refused only where that is asked
/// for: `rt try --test --fail-alloc N`.
#[test]
fn lines_that_were_refused_memory_are_made_later(rt: HostRuntime) -> Result<(), Fail> {
    let mut load = Load::new(7, 8);
    let lines = match load.next_round() {
        Some(round) => round.lines_of(3),
        None => LoadLines::none(),
    };
    let made = match lines.make(rt.alloc()) {
        Ok(made) => made,
        Err(NoMemory) => lines.make(rt.alloc())?,
    };
    assert_eq!(rt; made.len(), 2);
    assert!(rt; load.next_round().is_none());
    Ok(())
}

#[test]
fn the_end_of_a_load_has_its_line(rt: HostRuntime) -> Result<(), Fail> {
    let end = LoadEnd {
        batches: 1,
        visible: 11,
        live: 1,
        acked: 1,
        segments: 1,
        last: load_number(7, 0),
    };
    let mut out = Buf::new(rt.alloc())?;
    put_load_end(&mut out, &end)?;
    let expected = b"load batches 1 visible 11 live 1 acked 1 segments 1 last 6a3dad3d18167a3b\n";
    assert!(rt; out.as_slice() == expected.as_slice());
    Ok(())
}
