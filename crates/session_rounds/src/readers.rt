//! The sessions of a pipeline after their last round: they only read, until the pipeline ends.

ghost use Rattle.std.specs.Prelude.{◌≡◌, ◌+◌, ◌≤◌, length, IfOk};
ghost use Rattle.commit_pipeline.specs.Ending.{StillKeeps};
ghost use Rattle.session_rounds.specs.Players.{FirstReads, EndsPlayers};

use commit_pipeline::{Finished, Gate, PipeName, Pipeline, Reply, Sessions};
use disk_face::Disk;
use failover_writer::Journal;
use std::marker::Model;
use std::snapshot::Snapshot;
use std::sync::Wait;
use std::sync::ledger::Ledger;
use std::thread::Threads;
use wal_base::NoMemory;

/// Sessions that have met for the last time. Contracts see them as they were then, and as they are.
#[derive(Drop)]
pub struct Readers<'a, D: Disk, G: Gate, N: PipeName, M: Ledger> {
    pipe: Pipeline<'a, D, G, N, M>,
    sessions: Sessions<N, M>,
    met: Snapshot<Sessions<N, M>>,
}

impl<'a, D: Disk, G: Gate, N: PipeName, M: Ledger> Model for Readers<'a, D, G, N, M> {
    ghost use Rattle.std.specs.Prelude.{◌≡◌, ◌+◌, length};
    ghost use Rattle.commit_pipeline.specs.Meeting.{StayOn};
    ghost use Rattle.session_rounds.specs.Players.{ReadersView};

    ghost Value = { ReadersView };

    ghost view = { λ r. record { met = r.met.value.items; now = r.sessions.items } };

    // They are all that there are, and have only read since.
    ghost invariant = { λ r.
        StayOn r.met.value.items r.sessions.items
        × (length r.sessions.items ≡ N.parts) × (length r.sessions.items + length r.sessions.items ≡ M.parts) };
}

impl<'a, D: Disk, G: Gate, N: PipeName, M: Ledger> Readers<'a, D, G, N, M> {
    /// All sessions of a pipeline, which have just met.
    #[tactic(auto, using(crate::proofs::FirstReads::met_still))]
    pub fn new(pipe: Pipeline<'a, D, G, N, M>, sessions: Sessions<N, M>) -> Readers<'a, D, G, N, M>
        requires all { (length sessions.items ≡ N.parts) × (length sessions.items + length sessions.items ≡ M.parts) }
        ensures { (result.met ≡ sessions.items) × (result.now ≡ sessions.items) }
    {
        let met = Snapshot::of(&sessions);
        Readers {
            pipe,
            sessions,
            met,
        }
    }

    /// The first session reads a key.
    pub fn get<R: Wait>(&mut self, rt: &R, key: &[u8]) -> Result<Reply, NoMemory>
        requires some { 1 ≤ length self.old.now }
        ensures { IfOk result (λ reply. FirstReads N.opening key.now reply self.old self.new) }
    {
        self.pipe.get(rt, &mut self.sessions[0], key)
    }

    /// Ends the pipeline with all its sessions, and tells what it came to: what is still on its way is moved into the journal,
    /// which is not closed yet. It takes no memory.
    pub fn finish<R: Wait>(self, rt: &R) -> Finished<D>
        ensures { EndsPlayers D.tells D.view N.opening self.entry result.journal result.visible result.batches }
    {
        let Readers {
            pipe,
            sessions,
            met: _,
        } = self;
        pipe.finish(rt, sessions)
    }

    /// Gives the pipeline up, and its journal back as it stands.
    pub fn into_journal(self) -> Journal<D>
        ensures { StillKeeps D.tells D.view N.opening result }
    {
        let Readers {
            pipe,
            sessions: _sessions,
            met: _,
        } = self;
        pipe.into_journal()
    }
}

impl<
    'a,
    D: Disk + Send,
    G: Gate + Sync,
    N: PipeName + Send + Sync,
    M: Ledger + Send + Sync,
> Readers<'a, D, G, N, M> {
    /// The sessions settle the shards beside one another, so that no read has to. Nothing of it is seen.
    pub fn settle<R: Threads + Sync>(&mut self, rt: &R)
        ensures { self.new ≡ self.old }
    {
        self.pipe.settle(rt, self.sessions.as_mut_slice());
    }
}
