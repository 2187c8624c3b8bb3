//! The operations of a disk in memory. Each stands at its number, which is its place in the list of all.

ghost use Rattle.std.specs.Prelude.{length, ◌≡◌, ◌+◌, ◌<◌, ◌≤◌, true, IsSome, Some, None, vec_len, vec_capacity};
ghost use Rattle.disk_face.specs.declared.OpId.{OpId};
ghost use Rattle.disk_face.specs.View.{segment};
ghost use Rattle.disk_face.specs.Calls.{flight_of, place_of, side_of};
ghost use Rattle.mem_disk.specs.Mem.{flight_in, flight_kept, id_of, FlightsStayBut, act_in_memory};

use crate::parts::{MemAct, MemOp};
use disk_face::{DiskOp, OpId, Side};

/// The operation as it is kept.
pub fn op_of(op: DiskOp<'_>) -> MemOp
    ensures place { segment result.side result.name ≡ place_of op.entry }
    ensures side { result.side ≡ side_of op.entry }
    ensures act { act_in_memory result.act ≡ (flight_of op.entry).act }
    ensures live { result.live ≡ true }
{
    match op {
        DiskOp::Create { side, name } => MemOp {
            side,
            name,
            act: MemAct::Create,
            live: true,
        },
        DiskOp::Write { side, name, .. } => MemOp {
            side,
            name,
            act: MemAct::Write,
            live: true,
        },
        DiskOp::Sync { side, name } => MemOp {
            side,
            name,
            act: MemAct::Sync,
            live: true,
        },
    }
}

/// Ends an operation that is in flight.
pub fn end_op(ops: &mut Vec<MemOp>, id: OpId) -> MemOp
    requires { IsSome (flight_in ops.old.items id) }
    ensures flight { flight_in ops.old.items id ≡ Some (flight_kept result) }
    ensures gone { flight_in ops.new.items id ≡ None }
    ensures others { FlightsStayBut id ops.old.items ops.new.items }
    ensures length { length ops.new.items ≡ length ops.old.items }
{
    let number = id.number as usize;
    let op = ops[number];
    ops[number].live = false;
    op
}

/// Puts an operation in flight, where there is room for it.
pub fn begin_op(ops: &mut Vec<MemOp>, op: MemOp) -> u64
    requires room { vec_len ops.old < vec_capacity ops.old }
    requires live { op.live ≡ true }
    ensures absent { flight_in ops.old.items (id_of op result) ≡ None }
    ensures here { flight_in ops.new.items (id_of op result) ≡ Some (flight_kept op) }
    ensures others { FlightsStayBut (id_of op result) ops.old.items ops.new.items }
    ensures number { result ≡ length ops.old.items }
    ensures length { length ops.new.items ≡ length ops.old.items + 1 }
{
    let number = ops.len() as u64;
    ops.push_reserved(op);
    number
}
