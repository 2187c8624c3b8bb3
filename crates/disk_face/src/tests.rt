ghost use Rattle.std.specs.Prelude.{◌≡◌, None, IsSome, IsTrue};
ghost use Rattle.disk_face.specs.View.{segment, table, files, NothingInFlight, IsFree};
ghost use Rattle.disk_face.specs.Listing.{IsTableNumber};

use crate::{
    BySide, CallLog, Disk, DiskErr, DiskOp, NoDisk, OpId, Progress, ScriptDisk, SegName, Side,
    StallDisk, TableDisk, TableName,
};
use std::mem::size_of;
use wal_base::{Buf, NoMemory};

fn listed_on<D: Disk>(disk: &mut D, side: Side) -> Result<usize, DiskErr> {
    Ok(disk.list(side)?.len())
}

fn read_two<D: Disk>(disk: &mut D, side: Side, name: SegName) -> (Result<usize, DiskErr>, [u8; 2]) {
    let mut buf = *b"..";
    (disk.read(side, name, 0, &mut buf), buf)
}

/// Starts the creation of a segment on a stalled side, and polls it once.
fn create_stalled<D: StallDisk>(
    disk: &mut D,
    side: Side,
    name: SegName,
) -> Result<Progress, DiskErr>
    requires idle { NothingInFlight (D.view disk.old) }
    requires absent { IsTrue D.tells → files (D.view disk.old) (segment side name) ≡ None }
{
    disk.stall(side, 3);
    let id = disk.start(DiskOp::Create { side, name })?;
    Ok(disk.poll(id))
}

fn tables_on<D: TableDisk>(disk: &mut D) -> Result<usize, DiskErr> {
    Ok(disk.tables()?.len())
}

fn read_table_two<D: TableDisk>(disk: &mut D, upto: u64) -> (Result<usize, DiskErr>, [u8; 2])
    requires { IsTableNumber upto }
{
    let mut buf = *b"..";
    (disk.read_table(upto, 0, &mut buf), buf)
}

fn put_table<D: TableDisk>(disk: &mut D, upto: u64) -> Result<(), DiskErr>
    requires { IsTableNumber upto }
{
    disk.put_table(upto, b"ab")
}

fn drop_segment<D: TableDisk>(disk: &mut D, side: Side, name: SegName) -> Result<(), DiskErr>
    requires free { IsFree (D.view disk.old) (segment side name) }
    requires there { IsTrue D.tells → IsSome (files (D.view disk.old) (segment side name)) }
{
    disk.drop_segment(side, name)
}

fn drop_table<D: TableDisk>(disk: &mut D, upto: u64) -> Result<(), DiskErr>
    requires number { IsTableNumber upto }
    requires there { IsTrue D.tells → IsSome (files (D.view disk.old) (table upto)) }
{
    disk.drop_table(upto)
}

#[test]
fn a_disk_without_files_keeps_nothing(rt: HostRuntime) {
    let name = SegName { wal: 1, index: 0 };
    let mut disk = NoDisk::new(rt.alloc());
    for side in [Side::Primary, Side::Secondary] {
        assert_eq!(rt; listed_on(&mut disk, side), Ok(0));
        assert_eq!(rt; read_two(&mut disk, side, name), (Ok(0), *b".."));
        assert_eq!(rt;
            create_stalled(&mut disk, side, name),
            Err(DiskErr::NoMemory)
        );
        assert_eq!(rt; drop_segment(&mut disk, side, name), Err(DiskErr::NoMemory));
        assert_eq!(rt; disk.poll(OpId { side, number: 0 }), Progress::Failed);
    }
    assert_eq!(rt; tables_on(&mut disk), Ok(0));
    assert_eq!(rt; read_table_two(&mut disk, 999_999_999_999), (Ok(0), *b".."));
    assert_eq!(rt; put_table(&mut disk, 0), Err(DiskErr::NoMemory));
    assert_eq!(rt; drop_table(&mut disk, 0), Err(DiskErr::NoMemory));
}

#[test]
fn a_script_passes_calls_on_to_the_disk_within(rt: HostRuntime) {
    let name = SegName { wal: 1, index: 0 };
    let mut disk = ScriptDisk::new(NoDisk::new(rt.alloc()));
    for side in [Side::Primary, Side::Secondary] {
        assert_eq!(rt; listed_on(&mut disk, side), Ok(0));
        assert_eq!(rt; read_two(&mut disk, side, name), (Ok(0), *b".."));
        assert_eq!(rt; drop_segment(&mut disk, side, name), Err(DiskErr::NoMemory));
    }
    assert_eq!(rt;
        create_stalled(&mut disk, Side::Primary, name),
        Err(DiskErr::NoMemory)
    );
    assert_eq!(rt; tables_on(&mut disk), Ok(0));
    assert_eq!(rt; read_table_two(&mut disk, 0), (Ok(0), *b".."));
    assert_eq!(rt; put_table(&mut disk, 1), Err(DiskErr::NoMemory));
    assert_eq!(rt; drop_table(&mut disk, 1), Err(DiskErr::NoMemory));
    assert_eq!(rt; tables_on(&mut disk.into_inner()), Ok(0));
}

#[test]
fn a_log_has_no_bytes(rt: HostRuntime) {
    assert_eq!(rt; size_of::<CallLog>(), 0);
}

#[test]
fn errors_say_what_failed(rt: HostRuntime) -> Result<(), DiskErr> {
    let Ok(text) = format!(in rt.alloc(); "{}, {}", DiskErr::Failed, DiskErr::NoMemory) else {
        return Err(DiskErr::NoMemory);
    };
    assert_eq!(rt; text.as_str(), "the disk failed, out of memory");
    Ok(())
}

#[test]
fn a_name_has_one_spelling(rt: HostRuntime) {
    let spellings = [
        ("000000.log", 0, 0),
        ("000001.log", 1, 0),
        ("000001-001.log", 1, 1),
        ("000012-010.log", 12, 10),
        ("1234567.log", 1_234_567, 0),
        ("1234567-999.log", 1_234_567, 999),
        ("999999999999-999.log", 999_999_999_999, 999),
    ];
    for (text, wal, index) in spellings {
        let name = SegName { wal, index };
        assert_eq!(rt; SegName::parse(text.as_bytes()), Some(name), "at {text}");
    }
    let others = [
        "",
        ".log",
        "000001",
        "1.log",
        "0000001.log",
        "1000000000000.log",
        "000001.LOG",
        "000001.log.log",
        "000001.log ",
        "00000a.log",
        "-00001.log",
        "+00001.log",
        "000001-.log",
        "000001-1.log",
        "000001-000.log",
        "000001-0001.log",
        "000001-1000.log",
        "000001-+01.log",
        "000001-001-001.log",
        "notes.txt",
    ];
    for text in others {
        assert_eq!(rt; SegName::parse(text.as_bytes()), None, "at {text}");
    }
}

#[test]
fn a_table_has_one_spelling(rt: HostRuntime) {
    let spellings = [
        ("000000.tab", 0),
        ("000012.tab", 12),
        ("1234567.tab", 1_234_567),
        ("999999999999.tab", 999_999_999_999),
    ];
    for (text, upto) in spellings {
        let name = TableName { upto };
        assert_eq!(rt; TableName::parse(text.as_bytes()), Some(name), "at {text}");
    }
    let others = [
        "",
        ".tab",
        "000001",
        "1.tab",
        "0000001.tab",
        "1000000000000.tab",
        "18446744073709551616.tab",
        "000001.TAB",
        "000001.tab.tab",
        "000001.tab ",
        "000001.tab.tmp",
        "00000a.tab",
        "-00001.tab",
        "+00001.tab",
        "000001-001.tab",
        "000001.log",
    ];
    for text in others {
        assert_eq!(rt; TableName::parse(text.as_bytes()), None, "at {text}");
    }
    assert_eq!(rt; SegName::parse(b"000001.tab"), None);
}

#[test]
fn names_are_put_after_one_another(rt: HostRuntime) -> Result<(), NoMemory> {
    let mut text = Buf::new(rt.alloc())?;
    for (wal, index) in [(1, 0), (1, 1), (1_234_567, 12), (999_999_999_999, 999)] {
        SegName { wal, index }.put(&mut text)?;
    }
    TableName { upto: 12 }.put(&mut text)?;
    assert_eq!(rt;
        text.as_slice(),
        b"000001.log000001-001.log1234567-012.log999999999999-999.log000012.tab".as_slice()
    );
    Ok(())
}

#[test]
fn a_log_number_has_32_bits(rt: HostRuntime) {
    let name = SegName {
        wal: 4_294_967_298,
        index: 7,
    };
    assert_eq!(rt; name.log(), 2);
}

#[test]
fn each_side_has_its_number(rt: HostRuntime) {
    let mut counts = BySide {
        primary: 0,
        secondary: 1,
    };
    counts.add(Side::Primary, 2);
    counts.raise(Side::Secondary);
    assert!(rt; counts.take_one(Side::Primary));
    let expected = BySide {
        primary: 1,
        secondary: 2,
    };
    assert_eq!(rt; counts, expected);
    assert!(rt; counts.take_one(Side::Primary));
    assert!(rt; !counts.take_one(Side::Primary));
}
