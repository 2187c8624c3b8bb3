//! A disk that holds polls of one operation back.

use disk_face::{
    CallLog, Disk, DiskErr, DiskOp, FilePlace, Names, OpId, Progress, SegName, Side, TableDisk,
    TableNames,
};
use wal_base::NoMemory;

/// A disk that answers so many polls of one operation on the primary side pending.
#[derive(Drop)]
pub struct Late<D: Disk> {
    pub inner: D,
    pub op: u64,
    pub polls: u64,
    pub log: CallLog,
}

impl<D: Disk> Disk for Late<D> {
    ghost use Rattle.disk_face.specs.Script.{stalled};

    ghost tells = { D.tells };

    ghost view = { λ d. stalled (D.view d.inner) d.polls 0 d.log.calls };

    fn list(&mut self, side: Side) -> Result<Names, DiskErr> {
        let answer = self.inner.list(side);
        self.log.note_listing(side, &answer);
        answer
    }

    fn read(
        &mut self,
        side: Side,
        name: SegName,
        at: u64,
        buf: &mut [u8],
    ) -> Result<usize, DiskErr> {
        self.log.note_read(side, name, buf.len());
        self.inner.read(side, name, at, buf)
    }

    fn start(&mut self, op: DiskOp<'_>) -> Result<OpId, NoMemory> {
        let id = self.inner.start(op)?;
        self.log.note_start(id, op);
        Ok(id)
    }

    fn poll(&mut self, id: OpId) -> Progress {
        let held = self.polls > 0 && id.number == self.op;
        match id.side {
            Side::Primary if held => {
                self.polls -= 1;
                self.log.note_poll(id, Progress::Pending);
                Progress::Pending
            }
            Side::Primary | Side::Secondary => {
                let answer = self.inner.poll(id);
                self.log.note_poll(id, answer);
                answer
            }
        }
    }

    ghost finite = { λ d k told le. D.finite d.inner k told le };

    ghost sound = { λ d p f told is. D.sound d.inner p f told is };
}

impl<D: TableDisk> TableDisk for Late<D> {
    fn tables(&mut self) -> Result<TableNames, DiskErr> {
        let answer = self.inner.tables();
        self.log.note_tables(&answer);
        answer
    }

    fn read_table(&mut self, upto: u64, at: u64, buf: &mut [u8]) -> Result<usize, DiskErr> {
        self.log.note_table_read(upto, buf.len());
        self.inner.read_table(upto, at, buf)
    }

    fn put_table(&mut self, upto: u64, bytes: &[u8]) -> Result<(), DiskErr> {
        let answer = self.inner.put_table(upto, bytes);
        self.log.note_put(upto, bytes, &answer);
        answer
    }

    fn drop_segment(&mut self, side: Side, name: SegName) -> Result<(), DiskErr> {
        let answer = self.inner.drop_segment(side, name);
        self.log
            .note_removal(FilePlace::Segment { side, name }, &answer);
        answer
    }

    fn drop_table(&mut self, upto: u64) -> Result<(), DiskErr> {
        let answer = self.inner.drop_table(upto);
        self.log.note_removal(FilePlace::Table { upto }, &answer);
        answer
    }
}
