//! How work is taken, and given back when it is done.
ghost use Rattle.std.specs.Prelude.{◌≡◌, None, Some};
ghost use Rattle.lent_work.specs.Ends.{work_of, IsWorkerOf};

use crate::desk::Desk;
use crate::ends::Worker;
use crate::rule::{Doing, GiveBack, Parcel, Take};
use commit_queue::Waiter;
use std::sync::Wait;
use std::sync::atomic::Ordering::SeqCst;

impl<T: Drop, P: Doing<T>> Desk<T, P> {
    /// Waits for work, and takes it. `None` where the desk was closed, and no more comes.
    pub fn await_work<R: Wait>(&self, rt: &R, worker: &mut Worker<T>) -> Option<T>
        requires desk { IsWorkerOf self.now worker.old }
        requires free { work_of worker.old ≡ None }
        ensures desk { IsWorkerOf self.now worker.new }
        ensures work { work_of worker.new ≡ result }
    {
        let mut waiter = Waiter::on(&self.changed);
        for _ in rt.forever() {
            if self.asked.load(SeqCst) {
                if let Some(work) = self.take(rt, worker) {
                    return Some(work);
                }
            }
            if self.closed.load(SeqCst) {
                return None;
            }
            waiter.wait(rt);
        }
        unreachable!()
    }

    /// Takes the work that lies on the desk, if it is to be done.
    fn take<R: Wait>(&self, rt: &R, worker: &mut Worker<T>) -> Option<T>
        requires desk { IsWorkerOf self.now worker.old }
        requires free { work_of worker.old ≡ None }
        ensures desk { IsWorkerOf self.now worker.new }
        ensures work { work_of worker.new ≡ result }
    {
        let parcel = self.parcels.pop_as::<Take<P>, R>(rt, &mut worker.pass)?;
        // Nothing is lent before this thread gives the work back.
        self.asked.store(false, SeqCst);
        match parcel {
            Parcel::Asked(work) => Some(work),
            // It was done before, and waits for who lent it.
            Parcel::Done(work) => {
                self.give_back(rt, worker, work);
                None
            }
        }
    }

    /// Gives work back that is done.
    pub fn give_back<R: Wait>(&self, rt: &R, worker: &mut Worker<T>, work: T)
        requires desk { IsWorkerOf self.now worker.old }
        requires done { (t : T) × (work_of worker.old ≡ Some t) × P.is_done t work }
        ensures desk { IsWorkerOf self.now worker.new }
        ensures none { work_of worker.new ≡ None }
    {
        let Ok(()) = self
            .parcels
            .push_as::<GiveBack, R>(rt, &mut worker.pass, Parcel::Done(work))
        else {
            unreachable!();
        };
        self.done.store(true, SeqCst);
        self.changed.notify_all();
    }
}
