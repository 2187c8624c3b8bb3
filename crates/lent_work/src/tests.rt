//! That work goes to another thread and comes back done, that it comes back as it was where nobody has begun it, and that who
//! waits at a closed desk goes home.
ghost use Rattle.std.specs.Prelude.{◌≡◌, ◌+◌, ◌++◌, ◌∷◌, [], None};
ghost use Rattle.std.specs.Arc.{arc_value};
ghost use Rattle.lent_work.specs.Ends.{lent, work_of, IsLenderOf, IsWorkerOf};

use crate::{Back, Desk, Doing, Lender, Worker};
use std::alloc::{AllocError, Global};
use std::process::Abort;
use std::sync::{Arc, Wait};
use std::thread;
use std::thread::Threads;

/// How often work is lent to another thread.
const TIMES: u32 = 20;

/// One is added to a number.
struct OneMore;

impl Doing<u32> for OneMore {
    ghost is_done = { λ n m. m ≡ n + 1 };
}

/// A seven is added to a list.
struct SevenMore;

impl Doing<Vec<u32>> for SevenMore {
    ghost is_done = { λ list longer. longer.items ≡ list.items ++ 7 ∷ [] };
}

/// Adds one to what comes, until no more does.
fn add_ones<R: Abort + Wait>(rt: &R, desk: &Desk<u32, OneMore>, mut worker: Worker<u32>)
    requires { IsWorkerOf desk.now worker × (work_of worker ≡ None) }
{
    for _ in rt.forever() {
        let Some(work) = desk.await_work(rt, &mut worker) else {
            break;
        };
        if work > TIMES {
            panic!(rt; "a small number");
        }
        desk.give_back(rt, &mut worker, work + 1);
    }
}

/// Lends the numbers, one after another, and closes the desk. Answers what came back done, in all.
fn lend_numbers<R: Abort + Wait>(rt: &R, desk: &Desk<u32, OneMore>, mut lender: Lender<u32>) -> u32
    requires { IsLenderOf desk.now lender × (lent lender ≡ None) }
{
    let mut sum: u32 = 0;
    for n in 0..TIMES {
        desk.lend(rt, &mut lender, n);
        match desk.await_back(rt, &mut lender) {
            Back::AsItWas(_) => panic!(rt; "it comes back once it is done"),
            Back::Done(work) => {
                assert_eq!(rt; work, n + 1);
                sum = sum.saturating_add(work);
            }
        }
    }
    desk.close();
    sum
}

/// One thread lends, and another works.
fn between_threads<R: Threads + Abort + Wait + Sync>(rt: &R, alloc: Global) {
    let (desk, lender, worker) = Desk::<u32, OneMore>::new(alloc).expect(rt, "memory");
    let shared = &desk;
    let (sum, ()) = thread::join(
        rt,
        move ||
            requires { IsLenderOf shared.now lender × (lent lender ≡ None) }
        { lend_numbers(rt, shared, lender) },
        move ||
            requires { IsWorkerOf shared.now worker × (work_of worker ≡ None) }
        { add_ones(rt, shared, worker) },
    );
    assert_eq!(rt; sum, 210);
}

#[test]
fn work_that_is_lent_again_and_again_comes_back_done_each_time(rt: HostRuntime) {
    between_threads(&rt, rt.alloc());
}

/// Waits in vain at a desk that both threads own.
fn wait_in_vain<R: Threads + Wait + Copy + Send + 'static>(
    rt: R,
    alloc: Global,
) -> Result<bool, AllocError> {
    let (desk, _lender, mut worker) = Desk::<u32, OneMore>::new(alloc)?;
    let desk = Arc::new(alloc, desk)?;
    let theirs = Arc::try_clone(&desk)?;
    let other = thread::spawn(
        &rt,
        move ||
            requires { IsWorkerOf (arc_value theirs) worker × (work_of worker ≡ None) }
        { theirs.await_work(&rt, &mut worker).is_none() },
    )?;
    desk.close();
    Ok(other.join(&rt))
}

#[test]
fn who_waits_at_a_desk_that_is_closed_is_told_that_no_work_comes(rt: HostRuntime) {
    let none = wait_in_vain(rt, rt.alloc()).expect(&rt, "memory");
    assert!(rt; none);
}

#[test]
fn work_comes_back_as_it_was_before_it_is_begun_and_not_while_it_is_done(rt: HostRuntime) {
    let (desk, mut lender, mut worker) = Desk::<Vec<u32>, SevenMore>::new(rt.alloc()).expect(
        &rt, "memory",
    );
    let list = vec![in rt.alloc(); 5, 6].expect(&rt, "memory");
    desk.lend(&rt, &mut lender, list);
    let Some(Back::AsItWas(list)) = desk.take_back(&rt, &mut lender) else {
        panic!(rt; "nobody has begun it");
    };
    assert_eq!(rt; list.as_slice(), [5, 6].as_slice());
    desk.lend(&rt, &mut lender, list);
    let Some(mut list) = desk.await_work(&rt, &mut worker) else {
        panic!(rt; "it is there");
    };
    list.push(7).expect(&rt, "memory");
    assert!(rt; desk.take_back(&rt, &mut lender).is_none());
    desk.give_back(&rt, &mut worker, list);
    let Some(Back::Done(list)) = desk.take_back(&rt, &mut lender) else {
        panic!(rt; "it is done");
    };
    assert_eq!(rt; list.as_slice(), [5, 6, 7].as_slice());
}

/// An allocation is refused only where that is asked for, and then once: `rt try --test --fail-alloc N`.
#[test]
fn a_desk_that_lacks_memory_is_not_made(rt: HostRuntime) {
    let lacked = Desk::<u32, OneMore>::new(rt.alloc()).is_err();
    let made = Desk::<u32, OneMore>::new(rt.alloc()).is_ok();
    assert!(rt; made || !lacked);
}
