//! The same hand-over over a queue.
ghost use Rattle.std.specs.Prelude.{◌<◌};

use crate::batches::{TRIES, one_entry, turns_for};
use batch_repr::{NUMBER_FIRST, NUMBER_MAX, Numbered, Unnumbered};
use crossbeam_queue::ArrayQueue;
use std::alloc::Global;
use std::sync::{Mutex, Wait};
use std::thread;
use std::thread::Threads;
use wal_base::NoMemory;

/// How many batches the queue takes.
const CAPACITY: usize = 64;

/// What a try to push a batch came to.
#[derive(Drop)]
enum Pushing {
    /// It is in the queue.
    Pushed,
    /// The queue is full.
    Full { batch: Option<Unnumbered> },
    /// All batches of the run are pushed.
    Over,
}

/// What is behind the lock.
#[derive(Drop)]
struct Numbers {
    next: u64,
    pushed: u64,
    /// How many batches the run pushes.
    limit: u64,
}

impl Numbers {
    /// Numbers the batch and pushes it, if the queue has room.
    fn push_next<R: Wait>(
        &mut self,
        rt: &R,
        queue: &ArrayQueue<Numbered>,
        batch: Unnumbered,
    ) -> Pushing {
        if self.pushed >= self.limit {
            return Pushing::Over;
        }
        if self.next > NUMBER_MAX || u64::from(batch.count()) > NUMBER_MAX - self.next {
            return Pushing::Over;
        }
        if queue.is_full() {
            return Pushing::Full { batch: Some(batch) };
        }
        let numbered = batch.number(self.next);
        let end = numbered.end();
        if queue.push(rt, numbered).is_err() {
            return Pushing::Full { batch: None };
        }
        self.next = end;
        self.pushed += 1;
        Pushing::Pushed
    }
}

/// A thread of a run.
#[derive(Drop)]
struct Popper {
    alloc: Global,
    /// A batch that was made and found the queue full.
    ready: Option<Unnumbered>,
    /// How many batches it took out.
    taken: u64,
    /// It ran out of memory and stopped.
    starved: bool,
}

impl Popper {
    /// Takes so many turns, or as many as there are batches to push.
    fn play<R: Wait>(
        &mut self,
        rt: &R,
        queue: &ArrayQueue<Numbered>,
        lock: &Mutex<Numbers>,
        turns: u64,
    ) {
        for _ in 0..turns {
            match self.turn(rt, queue, lock) {
                Ok(true) => {}
                Ok(false) => return,
                Err(NoMemory) => {
                    self.starved = true;
                    return;
                }
            }
        }
    }

    /// Pushes a batch if there is room, and pops. Answers whether the run goes on.
    fn turn<R: Wait>(
        &mut self,
        rt: &R,
        queue: &ArrayQueue<Numbered>,
        lock: &Mutex<Numbers>,
    ) -> Result<bool, NoMemory> {
        let batch = match self.ready.take() {
            Some(batch) => batch,
            None => one_entry(self.alloc, b'k')?,
        };
        let pushing = lock.lock(rt).push_next(rt, queue, batch);
        let mut full = false;
        match pushing {
            Pushing::Pushed => {}
            Pushing::Full { batch } => {
                self.ready = batch;
                full = true;
            }
            Pushing::Over => return Ok(false),
        }
        if !self.pop(rt, queue, TRIES) && full {
            thread::yield_now();
        }
        Ok(true)
    }

    /// Pops so many batches at most. Answers whether it popped one.
    fn pop<R: Wait>(&mut self, rt: &R, queue: &ArrayQueue<Numbered>, tries: u32) -> bool {
        let mut any = false;
        for _ in 0..tries {
            if queue.pop(rt).is_none() {
                return any;
            }
            self.taken = self.taken.saturating_add(1);
            any = true;
        }
        any
    }
}

/// So many threads push so many batches in all and pop them. Answers how many were popped.
pub(crate) fn run<R: Threads + Wait + Sync>(
    rt: &R,
    alloc: Global,
    threads: u32,
    batches: u64,
) -> Result<u64, NoMemory>
    requires { 0 < threads }
{
    let queue: ArrayQueue<Numbered> = ArrayQueue::new(alloc, CAPACITY)?;
    let lock = Mutex::new(Numbers {
        next: NUMBER_FIRST,
        pushed: 0,
        limit: batches,
    });
    let mut poppers = Vec::with_capacity(alloc, threads as usize)?;
    for _ in 0..threads {
        poppers.push(Popper {
            alloc,
            ready: None,
            taken: 0,
            starved: false,
        })?;
    }
    let turns = turns_for(batches);
    thread::for_each_mut(
        rt,
        poppers.as_mut_slice(),
        threads as usize,
        &|_, popper: &mut Popper| popper.play(rt, &queue, &lock, turns),
    );
    let mut taken: u64 = 0;
    for popper in &poppers {
        if popper.starved {
            return Err(NoMemory);
        }
        taken = taken.saturating_add(popper.taken);
    }
    for _ in 0..CAPACITY {
        if queue.pop(rt).is_some() {
            taken = taken.saturating_add(1);
        }
    }
    Ok(taken)
}
