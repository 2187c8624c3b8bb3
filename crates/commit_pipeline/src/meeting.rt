//! All sessions learn what any of them has seen.
ghost use Rattle.std.specs.Prelude.{OnOk, OnErr};
ghost use Rattle.commit_pipeline.specs.Meeting.{HaveMet, ShareSeen, StayOn, MeetsEach, StaysOnBeside};

use crate::gate::Gate;
use crate::name::PipeName;
use crate::pipeline::Pipeline;
use crate::session::{Session, Sessions};
use disk_face::Disk;
use std::sync::Wait;
use std::sync::ledger::Ledger;
use wal_base::NoMemory;

impl<'a, D: Disk, G: Gate, N: PipeName, M: Ledger> Pipeline<'a, D, G, N, M> {
    /// Each session has then seen all that any of them had seen, and knows of a death where any of
    /// them knew. On `Err` none has seen less than before.
    pub fn meet<R: Wait>(&self, rt: &R, sessions: &mut Sessions<N, M>) -> Result<(), NoMemory>
        ensures met { OnOk result (HaveMet sessions.old.items sessions.new.items) }
        ensures err { OnErr result (StayOn sessions.old.items sessions.new.items) }
    {
        self.share_seen(sessions)?;
        let mut log = self.log.lock.lock(rt);
        log.tell_deaths(sessions.as_mut_slice());
        self.log.release(rt, &self.table, log);
        Ok(())
    }

    /// The first session meets the others, twice: so each has seen what any of them had seen.
    fn share_seen(&self, sessions: &mut Sessions<N, M>) -> Result<(), NoMemory>
        ensures met { OnOk result (ShareSeen sessions.old.items sessions.new.items) }
        ensures err { OnErr result (StayOn sessions.old.items sessions.new.items) }
    {
        if let Some((first, others)) = sessions.split_first_mut() {
            self.meet_each(first, others)?;
            self.meet_each(first, others)?;
        }
        Ok(())
    }

    /// The one session meets the others, one after another.
    fn meet_each(
        &self,
        one: &mut Session<N, M>,
        others: &mut [Session<N, M>],
    ) -> Result<(), NoMemory>
        ensures met { OnOk result (MeetsEach one.old others.old one.new others.new) }
        ensures err { OnErr result (StaysOnBeside one.old others.old one.new others.new) }
    {
        for other in others.iter_mut() {
            self.table.meet(&mut one.desk.seat, &mut other.desk.seat)?;
        }
        Ok(())
    }
}
