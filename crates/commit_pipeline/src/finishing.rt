//! The end of a pipeline.
ghost use Rattle.std.specs.Prelude.{◌≡◌, ◌+◌, length, vec_len};
ghost use Rattle.record_flow.specs.Passes.{taken_numbers};
ghost use Rattle.commit_queue.specs.Tables.{table_id_of};
ghost use Rattle.commit_queue.specs.Shown.{shown_by};
ghost use Rattle.commit_queue.specs.Seats.{producer_table, producer_view};
ghost use Rattle.commit_pipeline.specs.Ending.{EndsPipeline, TakesAllBack, owned, all_deaths};
ghost use Rattle.commit_pipeline.specs.Ties.{IsSpare};

use crate::commit_side::CommitSide;
use crate::desk::Desk;
use crate::flush_side::FlushSide;
use crate::gate::Gate;
use crate::log_side::LogSide;
use crate::name::PipeName;
use crate::pipeline::Pipeline;
use crate::session::{Session, Sessions};
use commit_queue::{PipeTable, ProducerSeat};
use disk_face::Disk;
use failover_writer::Journal;
use record_flow::FlushPass;
use std::sync::Wait;
use std::sync::ledger::{Ledger, Share};

/// What is left of a pipeline.
#[derive(Drop)]
pub struct Finished<D: Disk> {
    /// The journal as it stands: it is not closed yet.
    pub journal: Journal<D>,
    /// The number after all batches.
    pub visible: u64,
    /// How many batches were committed.
    pub batches: u64,
    /// The pass with which their records were taken out of the queue. Contracts see which.
    pub popped: FlushPass,
}

impl<'a, D: Disk, G: Gate, N: PipeName, M: Ledger> Pipeline<'a, D, G, N, M> {
    /// Ends the pipeline with all its sessions, and tells what it came to: what is still on its way is moved
    /// into the journal. It takes no memory.
    pub fn finish<R: Wait>(self, rt: &R, sessions: Sessions<N, M>) -> Finished<D>
        requires all { (vec_len sessions ≡ N.parts) × (vec_len sessions + vec_len sessions ≡ M.parts) }
        ensures { EndsPipeline D.tells D.view N.opening sessions.items result.journal result.visible
            result.batches (taken_numbers result.popped) }
    {
        let CommitSide {
            next,
            placed,
            mut producer,
            sends,
            mut batches,
            mut own,
        } = self.commits.into_inner().into_inner();
        let LogSide {
            flow,
            lock,
            died: _died,
            left: _left,
            bells: _bells,
        } = self.log;
        let mut log = lock.into_inner().into_inner();
        log.take_last(rt, &flow, sends);
        let FlushSide {
            journal,
            flush,
            pops,
            mut answers,
            mut dead,
            name: _,
        } = log;
        gather(&self.table, &mut producer, &mut own, &mut dead, sessions);
        batches.audit(&mut own);
        answers.audit(&mut dead);
        self.table.retire(&mut producer, flush);
        Finished {
            journal,
            visible: next,
            batches: placed,
            popped: pops,
        }
    }
}

/// The producer's seat takes in those of all sessions, and their shares are put together.
fn gather<N: PipeName, M: Ledger>(
    table: &PipeTable,
    producer: &mut ProducerSeat,
    own: &mut Share<N>,
    dead: &mut Share<M>,
    mut sessions: Sessions<N, M>,
)
    requires table { table_id_of table.now ≡ N.table }
    requires producer { producer_table producer.old ≡ N.table }
    requires spare_own { IsSpare own.old.parts own.old.amount }
    requires spare_dead { IsSpare dead.old.parts dead.old.amount }
    ensures same { producer_table producer.new ≡ N.table }
    ensures back { TakesAllBack (shown_by (producer_view producer.old)) sessions.items (shown_by (producer_view producer.new)) }
    ensures own { (own.new.parts ≡ vec_len sessions) × (own.new.amount ≡ length (owned sessions.items)) }
    ensures dead { (dead.new.parts ≡ vec_len sessions + vec_len sessions) × (dead.new.amount ≡ all_deaths sessions.items) }
{
    while let Some(session) = sessions.pop() {
        let Session { number: _, desk } = session;
        let Desk {
            seat,
            own: batches,
            dead: answers,
            told: meetings,
        } = desk;
        table.retire(producer, seat);
        own.merge(batches);
        dead.merge(answers.into_share());
        dead.merge(meetings.into_share());
    }
}
