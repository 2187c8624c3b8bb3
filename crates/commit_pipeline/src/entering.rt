//! A batch goes into the ring, and its record into a node.
ghost use Rattle.std.specs.Prelude.{◌≡◌, ◌+◌, ◌<◌, ◌≤◌, None, Some};
ghost use Rattle.batch_repr.specs.declared.limits.TheConstants.{NUMBER_MAX, BATCHES_MAX};
ghost use Rattle.batch_repr.specs.Batches.{end_of};
ghost use Rattle.commit_queue.specs.Calls.{AwaitsBatch, HasFreeSlot};
ghost use Rattle.commit_queue.specs.Tables.{IsOfTable};
ghost use Rattle.commit_queue.specs.Shown.{session_shown, shown_by};
ghost use Rattle.commit_queue.specs.Seats.{producer_table, producer_view};
ghost use Rattle.commit_queue.specs.Seats.{session_table};
ghost use Rattle.commit_pipeline.specs.Numbering.{Appends, HoldsNumbered};

use batch_repr::Numbered;
use commit_queue::{PipeTable, ProducerSeat, SessionSeat};
use record_queue::RecordNode;
use std::sync::Wait;

/// Puts the batch behind all others in the ring, fills the node with it, and hands it to the session's
/// seat. Answers its place.
pub(crate) fn enter<R: Wait>(
    rt: &R,
    table: &PipeTable,
    producer: &mut ProducerSeat,
    seat: &mut SessionSeat,
    batch: Numbered,
    node: &mut RecordNode,
    sync: bool,
) -> u64
    requires table { IsOfTable table.now (producer_table producer.old) }
    requires seat { IsOfTable table.now (session_table seat.old) }
    requires idle { (session_shown seat.old).held ≡ None }
    requires base { (session_shown seat.old).base ≡ (producer_view producer.old).base }
    requires free { HasFreeSlot (producer_view producer.old) }
    requires awaits { AwaitsBatch (producer_view producer.old) batch.first (producer_view producer.old).head }
    requires few { (producer_view producer.old).head < BATCHES_MAX }
    requires within { end_of batch ≤ NUMBER_MAX }
    requires node { node.old ≡ None }
    ensures same_producer { producer_table producer.new ≡ producer_table producer.old }
    ensures same { session_table seat.new ≡ session_table seat.old }
    ensures index { result ≡ (producer_view producer.old).head }
    ensures awaits { AwaitsBatch (producer_view producer.new) (end_of batch) (result + 1) }
    ensures appends { Appends batch (shown_by (producer_view producer.old)) (shown_by (producer_view producer.new)) }
    ensures numbered { HoldsNumbered batch result (session_shown seat.old) (session_shown seat.new) }
    ensures node { node.new ≡ Some record { rec = batch; sync = sync } }
{
    table.place(producer, &batch);
    node.fill(batch, sync);
    let index = table.admit(producer);
    let note = table.hand_over(rt, producer);
    table.adopt(seat, note);
    index
}
