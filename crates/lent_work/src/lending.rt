//! How work is lent, and how it comes back.
ghost use Rattle.std.specs.Prelude.{◌≡◌, None, Some, IfOk, IfSome, IfNone, IsSome};
ghost use Rattle.lent_work.specs.Ends.{lent, work_of, IsLenderOf, IsWorkerOf, ComesBack};

use crate::desk::Desk;
use crate::ends::{Back, Lender, Worker};
use crate::rule::{Doing, Ends, Lend, Parcel, TakeBack};
use commit_queue::Waiter;
use crossbeam_queue::RuledArrayQueue;
use crossbeam_utils::sync::EventCount;
use std::alloc::{AllocError, Global};
use std::sync::Wait;
use std::sync::atomic::AtomicBool;
use std::sync::atomic::Ordering::SeqCst;

impl<T: Drop, P: Doing<T>> Desk<T, P> {
    /// An empty desk and its two ends.
    pub fn new(alloc: Global) -> Result<(Desk<T, P>, Lender<T>, Worker<T>), AllocError>
        ensures lender { IfOk result (λ made. IsLenderOf made.0 made.1 × (lent made.1 ≡ None)) }
        ensures worker { IfOk result (λ made. IsWorkerOf made.0 made.2 × (work_of made.2 ≡ None)) }
    {
        let (parcels, mut lends) = RuledArrayQueue::ruled(alloc, 1)?;
        let works = parcels.another::<Ends>(&mut lends);
        let desk = Desk {
            parcels,
            asked: AtomicBool::new(false),
            done: AtomicBool::new(false),
            closed: AtomicBool::new(false),
            changed: EventCount::new(),
        };
        Ok((desk, Lender { pass: lends }, Worker { pass: works }))
    }

    /// Lends work: it lies on the desk until it is begun or taken back.
    pub fn lend<R: Wait>(&self, rt: &R, lender: &mut Lender<T>, work: T)
        requires desk { IsLenderOf self.now lender.old }
        requires free { lent lender.old ≡ None }
        ensures desk { IsLenderOf self.now lender.new }
        ensures lent { lent lender.new ≡ Some work }
    {
        let Ok(()) = self
            .parcels
            .push_as::<Lend, R>(rt, &mut lender.pass, Parcel::Asked(work))
        else {
            unreachable!();
        };
        self.asked.store(true, SeqCst);
        self.changed.notify_all();
    }

    /// Waits for the work that is lent to come back done, or takes it as it was where it is found so.
    pub fn await_back<R: Wait>(&self, rt: &R, lender: &mut Lender<T>) -> Back<T>
        requires desk { IsLenderOf self.now lender.old }
        requires lent { IsSome (lent lender.old) }
        ensures desk { IsLenderOf self.now lender.new }
        ensures none { lent lender.new ≡ None }
        ensures back { (t : T) → lent lender.old ≡ Some t → ComesBack P.is_done t result }
    {
        let mut waiter = Waiter::on(&self.changed);
        for _ in rt.forever() {
            if self.done.load(SeqCst) {
                if let Some(back) = self.take_back(rt, lender) {
                    return back;
                }
            }
            waiter.wait(rt);
        }
        unreachable!()
    }

    /// Takes the work that is lent back, if it lies on the desk.
    pub fn take_back<R: Wait>(&self, rt: &R, lender: &mut Lender<T>) -> Option<Back<T>>
        requires desk { IsLenderOf self.now lender.old }
        requires lent { IsSome (lent lender.old) }
        ensures desk { IsLenderOf self.now lender.new }
        ensures none { IfSome result (λ back. lent lender.new ≡ None) }
        ensures back { (t : T) → lent lender.old ≡ Some t → IfSome result (ComesBack P.is_done t) }
        ensures same { IfNone result (lent lender.new ≡ lent lender.old) }
    {
        let parcel = self.parcels.pop_as::<TakeBack<P>, R>(rt, &mut lender.pass)?;
        // The desk is empty now, and the thread behind it has nothing.
        self.asked.store(false, SeqCst);
        self.done.store(false, SeqCst);
        match parcel {
            Parcel::Asked(work) => Some(Back::AsItWas(work)),
            Parcel::Done(work) => Some(Back::Done(work)),
        }
    }

    /// No more work comes: who waits for some goes home.
    pub fn close(&self) {
        self.closed.store(true, SeqCst);
        self.changed.notify_all();
    }
}
