ghost use Rattle.std.specs.Prelude.{◌≡◌, None, IsTrue};
ghost use Rattle.disk_face.specs.View.{segment, files, NothingInFlight};

use crate::{Change, Fresh, Late, batch_of, numbered_set};
use disk_face::{CallLog, Disk, DiskErr, DiskOp, Progress, SegName, Side, TableDisk};
use std::alloc::Global;
use wal_base::{Entry, NoMemory};

#[test]
fn a_batch_has_its_changes_in_order(rt: HostRuntime) -> Result<(), NoMemory> {
    let changes = [
        Change::Note(b"n"),
        Change::Set(b"a", b"1"),
        Change::Delete(b"b"),
        Change::RangeDelete(b"c", b"d"),
    ];
    let batch = batch_of(rt.alloc(), &changes)?;
    assert_eq!(rt; batch.count(), 3);
    let [
        Entry::Note { bytes },
        Entry::Set { key: set, value },
        Entry::Delete { key: deleted },
        Entry::RangeDelete { start, end },
    ] = batch.entries().as_slice()
    else {
        panic!(rt; "four entries");
    };
    assert_eq!(rt;
        (bytes.as_slice(), set.as_slice()),
        (b"n".as_slice(), b"a".as_slice())
    );
    assert_eq!(rt;
        (value.as_slice(), deleted.as_slice()),
        (b"1".as_slice(), b"b".as_slice())
    );
    assert_eq!(rt;
        (start.as_slice(), end.as_slice()),
        (b"c".as_slice(), b"d".as_slice())
    );
    Ok(())
}

#[test]
fn a_set_has_its_number(rt: HostRuntime) -> Result<(), NoMemory> {
    let batch = numbered_set(rt.alloc(), 10, b"a", b"1")?;
    assert_eq!(rt; (batch.first(), batch.end()), (10, 11));
    let bytes = [
        0x0a, 0, 0, 0, 0, 0, 0, 0, 0x01, 0, 0, 0, 0x01, 0x01, 0x61, 0x01, 0x31,
    ];
    assert_eq!(rt; batch.bytes(), bytes.as_slice());
    Ok(())
}

#[test]
fn what_makes_no_batch_is_refused(rt: HostRuntime) {
    assert!(rt; batch_of(rt.alloc(), &[]).is_err());
}

/// Starts a creation, and polls it twice, or once where it ends.
fn create<D: Disk>(disk: &mut D, side: Side, name: SegName) -> Result<[Progress; 2], NoMemory>
    requires idle { NothingInFlight (D.view disk.old) }
    requires absent { IsTrue D.tells → files (D.view disk.old) (segment side name) ≡ None }
{
    let id = disk.start(DiskOp::Create { side, name })?;
    let first = disk.poll(id);
    let second = match first {
        Progress::Pending => disk.poll(id),
        other => other,
    };
    Ok([first, second])
}

/// What the polls of the first operation on a disk answer, of which one is held back, and where the operation of that
/// number is to fail.
fn created(alloc: Global, failing: u64) -> Result<[Progress; 2], NoMemory> {
    let mut fresh = Fresh::new(alloc)?;
    fresh.fail_op(failing)?;
    let mut disk = Late {
        inner: fresh.into_disk(),
        op: 0,
        polls: 1,
        log: CallLog::new(),
    };
    create(&mut disk, Side::Primary, SegName { wal: 1, index: 0 })
}

#[test]
fn a_late_operation_is_pending_and_then_ends(rt: HostRuntime) -> Result<(), NoMemory> {
    let ended = created(rt.alloc(), 1)?;
    assert!(rt; ended == [Progress::Pending, Progress::Done]);
    let failed = created(rt.alloc(), 0)?;
    assert!(rt; failed == [Progress::Pending, Progress::Failed]);
    Ok(())
}

/// Puts a table, reads its first byte, and removes it. Answers how many tables are listed before and after that.
fn turned_over<D: TableDisk>(disk: &mut D) -> Result<(usize, u8, usize), DiskErr> {
    disk.put_table(1, b"t")?;
    let before = disk.tables()?.len();
    let mut byte = [0u8; 1];
    disk.read_table(1, 0, &mut byte)?;
    disk.drop_table(1)?;
    Ok((before, byte[0], disk.tables()?.len()))
}

#[test]
fn tables_stand_on_the_disk_within(rt: HostRuntime) -> Result<(), NoMemory> {
    let mut disk = Late {
        inner: Fresh::new(rt.alloc())?.into_disk(),
        op: 0,
        polls: 1,
        log: CallLog::new(),
    };
    assert!(rt; turned_over(&mut disk) == Ok((1, b't', 0)));
    Ok(())
}
