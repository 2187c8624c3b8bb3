use super::{Rig, append_sync, check_command, check_crash, log_at, record_of, segment_of};
use crate::Status;
use disk_face::{SegName, Side};
use std::alloc::Global;
use std::process::Abort;
use std::test::Fail;
use wal_base::{Buf, NoMemory};

/// The bytes of a table with this next number, whose batches have these numbers and set these keys to these digits.
fn table_of(alloc: Global, log: u32, next: u64, batches: &[(u8, u8, u8)]) -> Result<Buf, NoMemory> {
    let mut head = [0u8; 16];
    head[..8].copy_from_slice(&next.to_le_bytes());
    head[8..].copy_from_slice(&(batches.len() as u64).to_le_bytes());
    let mut table = Buf::new(alloc)?;
    append_sync(&mut table, log, 0, &head)?;
    for (number, key, digit) in batches {
        append_sync(&mut table, log, 0, &record_of(*number, *key, *digit))?;
    }
    Ok(table)
}

/// The table 2 holds `a` and `b` and covers a WAL whose segment is bad, and the table 3 has lost its last byte. A
/// segment of WAL 3 holds one batch.
fn rig_above(rt: &impl Abort, alloc: Global, batch: (u8, u8)) -> Result<Rig, NoMemory> {
    let mut rig = Rig::new(alloc)?;
    let used = table_of(alloc, 2, 14, &[(12, b'a', b'1'), (13, b'b', b'2')])?;
    rig.put_table(rt, 2, used.as_slice());
    let torn = table_of(alloc, 3, 14, &[(13, b'a', b'9')])?;
    let (_, front) = torn.as_slice().split_last().expect(rt, "a byte");
    rig.put_table(rt, 3, front);
    let covered = segment_of(alloc, 1, &[(17, b'8')])?;
    rig.put(
        rt,
        Side::Primary,
        SegName { wal: 1, index: 0 },
        covered.as_slice(),
    );
    let later = segment_of(alloc, 3, &[batch])?;
    rig.put(
        rt,
        Side::Primary,
        SegName { wal: 3, index: 0 },
        later.as_slice(),
    );
    Ok(rig)
}

#[test]
fn a_store_begins_with_its_table(rt: HostRuntime) -> Result<(), Fail> {
    let alloc = rt.alloc();
    let rig = rig_above(&rt, alloc, (14, b'3'))?;
    let store = "a = 3\nb = 2\nend batches 3 next 15\n";
    check_command(&rt, alloc, rig, &["recover"], b"", Status::Done, store)?;
    let rig = rig_above(&rt, alloc, (14, b'3'))?;
    let text =
        "table 000002.tab keys 2 next 14\nsegment 000003.log primary bytes 28 records 1 ends 28 clean\nbatch 14 1\nset a 3\nend batches 3 next 15\n";
    check_command(&rt, alloc, rig, &["dump"], b"", Status::Done, text)?;
    Ok(())
}

#[test]
fn segments_go_on_from_the_next_of_the_table(rt: HostRuntime) -> Result<(), Fail> {
    let alloc = rt.alloc();
    let gap = "refused gap 000003.log expected 14 found 15\n";
    let conflict = "refused conflict 000003.log 13\n";
    for (batch, text) in [((15, b'3'), gap), ((13, b'3'), conflict)] {
        for words in ["recover", "replay"] {
            let rig = rig_above(&rt, alloc, batch)?;
            check_command(&rt, alloc, rig, &[words], b"", Status::Refused, text)?;
        }
    }
    let rig = rig_above(&rt, alloc, (15, b'3'))?;
    let text =
        "table 000002.tab keys 2 next 14\nsegment 000003.log primary bytes 28 records 1 ends 28 clean\nbatch 15 1\nset a 3\nend batches 3 next 16\n";
    check_command(&rt, alloc, rig, &["dump"], b"", Status::Done, text)?;
    Ok(())
}

#[test]
fn a_run_goes_on_behind_a_table(rt: HostRuntime) -> Result<(), Fail> {
    let alloc = rt.alloc();
    let rig = rig_above(&rt, alloc, (14, b'3'))?;
    let script = b"get 0 b\ncommit 0 sync set b 7\nget 0 b\n";
    let text =
        "s0 get b = 2 @15\ns0 commit 15 1 synced\ns0 get b = 7 @16\nend visible 16 batches 1 acked 1 segments 1 closed\n";
    let disk = check_command(&rt, alloc, rig, &["replay"], script, Status::Done, text)?;
    assert_eq!(rt; log_at(&disk, 4).map(|log| log.len()), Some(36));
    check_crash(&rt, alloc, disk, "a = 3\nb = 7\nend batches 4 next 16\n")
}

/// A table that holds no key has used numbers all the same, and takes the number of a WAL.
#[test]
fn a_table_without_keys_keeps_its_numbers(rt: HostRuntime) -> Result<(), Fail> {
    let alloc = rt.alloc();
    let mut rig = Rig::new(alloc)?;
    let table = table_of(alloc, 5, 13, &[])?;
    rig.put_table(&rt, 5, table.as_slice());
    let store = "end batches 0 next 13\n";
    let disk = check_command(&rt, alloc, rig, &["recover"], b"", Status::Done, store)?;
    let rig = Rig::after_crash(&rt, alloc, disk);
    let script = b"commit 0 sync set b 1\n";
    let text = "s0 commit 13 1 synced\nend visible 14 batches 1 acked 1 segments 1 closed\n";
    let disk = check_command(&rt, alloc, rig, &["replay"], script, Status::Done, text)?;
    assert_eq!(rt; log_at(&disk, 6).map(|log| log.len()), Some(36));
    check_crash(&rt, alloc, disk, "b = 1\nend batches 1 next 14\n")
}

#[test]
fn the_last_number_of_a_table_leaves_no_wal(rt: HostRuntime) -> Result<(), Fail> {
    let alloc = rt.alloc();
    for words in [["replay"].as_slice(), ["load", "1", "1"].as_slice()] {
        let mut rig = Rig::new(alloc)?;
        rig.put_table(&rt, 999_999_999_999, b"");
        let text = "limit wal\n";
        check_command(&rt, alloc, rig, words, b"", Status::Limit, text)?;
    }
    Ok(())
}

#[test]
fn tables_that_can_not_be_listed_are_a_fault(rt: HostRuntime) -> Result<(), Fail> {
    let alloc = rt.alloc();
    for words in ["recover", "dump", "replay"] {
        let mut rig = Rig::new(alloc)?;
        rig.fail_table_call(&rt, 0);
        let text = "disk fault primary\n";
        check_command(&rt, alloc, rig, &[words], b"", Status::Disk, text)?;
    }
    Ok(())
}
