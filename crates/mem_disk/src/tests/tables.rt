//! Tables and removals.

use super::{NAME, picks_of};
use crate::MemDisk;
use disk_face::{Disk, DiskErr, Listed, Side, TableDisk, TableListed};

/// Whether just these tables are listed.
fn has_tables(disk: &mut MemDisk, wanted: &[TableListed]) -> bool {
    match disk.tables() {
        Ok(tables) => tables.as_slice() == wanted,
        Err(_) => false,
    }
}

#[test]
fn a_table_is_listed_and_read_as_it_was_put_last(rt: HostRuntime) -> Result<(), DiskErr> {
    let mut disk = MemDisk::new(rt.alloc())?;
    disk.put_file(Side::Primary, NAME, b"a segment")?;
    disk.put_table(9, b"nine")?;
    disk.put_table(7, b"the first")?;
    disk.put_table(7, b"abc")?;
    let seven = TableListed { upto: 7, len: 3 };
    let nine = TableListed { upto: 9, len: 4 };
    assert!(rt; has_tables(&mut disk, &[seven, nine]));
    let mut buf = *b"....";
    let read = disk.read_table(7, 1, &mut buf)?;
    assert!(rt; read == 2 && buf == *b"bc..");
    let listed = disk.list(Side::Primary)?;
    let wanted = [Listed { name: NAME, len: 9 }];
    assert!(rt; listed.as_slice() == wanted.as_slice());
    Ok(())
}

#[test]
fn a_file_that_is_dropped_is_gone(rt: HostRuntime) -> Result<(), DiskErr> {
    let mut disk = MemDisk::new(rt.alloc())?;
    disk.put_file(Side::Secondary, NAME, b"a segment")?;
    disk.drop_segment(Side::Secondary, NAME)?;
    assert!(rt; disk.content(Side::Secondary, NAME) == None);
    disk.put_table(7, b"abc")?;
    disk.drop_table(7)?;
    assert!(rt; has_tables(&mut disk, &[]));
    Ok(())
}

#[test]
fn calls_on_tables_fail_at_their_numbers(rt: HostRuntime) -> Result<(), DiskErr> {
    let mut disk = MemDisk::new(rt.alloc())?;
    disk.put_table(7, b"abc")?;
    disk.fail_table_call(0)?;
    disk.fail_table_call(2)?;
    let failed = disk.read_table(7, 0, &mut []);
    assert!(rt; failed == Err(DiskErr::Failed) && disk.read_table(7, 0, &mut []) == Ok(0));
    assert!(rt; !has_tables(&mut disk, &[TableListed { upto: 7, len: 3 }]));
    assert!(rt; has_tables(&mut disk, &[TableListed { upto: 7, len: 3 }]));
    Ok(())
}

#[test]
fn a_put_that_fails_leaves_half_of_the_table(rt: HostRuntime) -> Result<(), DiskErr> {
    let mut disk = MemDisk::new(rt.alloc())?;
    disk.put_table(7, b"old")?;
    disk.fail_table_call(0)?;
    assert!(rt; disk.put_table(7, b"abcde") == Err(DiskErr::Failed));
    let half = TableListed { upto: 7, len: 2 };
    assert!(rt; has_tables(&mut disk, &[half]));
    // After a crash it stands as it reads.
    let mut disk = disk.crash(&picks_of(rt.alloc(), &[])?)?;
    let mut buf = *b"....";
    let read = disk.read_table(7, 0, &mut buf)?;
    assert!(rt; read == 2 && buf == *b"ab..");
    Ok(())
}

#[test]
fn a_table_whose_removal_fails_is_kept(rt: HostRuntime) -> Result<(), DiskErr> {
    let mut disk = MemDisk::new(rt.alloc())?;
    disk.place_table(7, b"abc")?;
    disk.fail_table_call(0)?;
    assert!(rt; disk.drop_table(7) == Err(DiskErr::Failed));
    let mut disk = disk.crash(&picks_of(rt.alloc(), &[])?)?;
    assert!(rt; has_tables(&mut disk, &[TableListed { upto: 7, len: 3 }]));
    Ok(())
}

/// Whether the table 7 stands there once, and no other one, and is read as these bytes.
fn has_seven(disk: &mut MemDisk, bytes: &[u8]) -> bool {
    let mut buf = *b"........";
    let read = match disk.read_table(7, 0, &mut buf) {
        Ok(read) => read,
        Err(_) => return false,
    };
    let len = read as u64;
    buf.get(..read) == Some(bytes) && has_tables(disk, &[TableListed { upto: 7, len }])
}

#[test]
fn a_table_is_placed_over_a_longer_and_a_shorter_one(rt: HostRuntime) -> Result<(), DiskErr> {
    let mut disk = MemDisk::new(rt.alloc())?;
    disk.place_table(7, b"longer")?;
    disk.place_table(7, b"abc")?;
    assert!(rt; has_seven(&mut disk, b"abc"));
    disk.place_table(7, b"as long")?;
    assert!(rt; has_seven(&mut disk, b"as long"));
    Ok(())
}

#[test]
fn a_table_is_placed_over_half_of_one(rt: HostRuntime) -> Result<(), DiskErr> {
    let mut disk = MemDisk::new(rt.alloc())?;
    disk.fail_table_call(0)?;
    assert!(rt; disk.put_table(7, b"abcdef") == Err(DiskErr::Failed));
    disk.place_table(7, b"placed")?;
    assert!(rt; has_seven(&mut disk, b"placed"));
    Ok(())
}

#[test]
fn a_table_is_placed_over_one_whose_removal_failed(rt: HostRuntime) -> Result<(), DiskErr> {
    let mut disk = MemDisk::new(rt.alloc())?;
    disk.place_table(7, b"abc")?;
    disk.fail_table_call(0)?;
    assert!(rt; disk.drop_table(7) == Err(DiskErr::Failed));
    disk.place_table(7, b"placed")?;
    assert!(rt; has_seven(&mut disk, b"placed"));
    Ok(())
}

#[test]
fn a_segment_whose_removal_fails_takes_no_tail(rt: HostRuntime) -> Result<(), DiskErr> {
    let pick = picks_of(rt.alloc(), &[(NAME, Some(b"tail".as_slice()))])?;
    let mut disk = MemDisk::new(rt.alloc())?;
    disk.put_file(Side::Primary, NAME, b"ab")?;
    disk.fail_table_call(0)?;
    assert!(rt; disk.drop_segment(Side::Primary, NAME) == Err(DiskErr::Failed));
    let disk = disk.crash(&pick)?;
    assert!(rt; disk.content(Side::Primary, NAME) == Some(b"ab".as_slice()));
    // Now no removal was called for.
    let disk = disk.crash(&pick)?;
    assert!(rt; disk.content(Side::Primary, NAME) == Some(b"abtail".as_slice()));
    Ok(())
}
