//! The ring as it fills and is freed, once and through a whole run.

use crate::{Core, CoreEvent};
use std::process::Abort;
use std::test::Fail;

/// All of these are possible.
fn does(rt: &impl Abort, core: &mut Core, events: &[CoreEvent]) -> Result<(), Fail> {
    for event in events {
        assert!(rt; core.step(event)?);
    }
    Ok(())
}

/// The producer reads the slot, places a batch of one number there, admits and marks it.
fn place(rt: &impl Abort, core: &mut Core, at: u32) -> Result<(), Fail> {
    let events = [
        CoreEvent::LoadSlot { seat: 0, at },
        CoreEvent::Place {
            count: 1,
            shards: 0,
        },
        CoreEvent::Admit,
        CoreEvent::Mark { seat: 0 },
    ];
    does(rt, core, &events)
}

/// The seat takes the batch in the slot from the front.
fn take(rt: &impl Abort, core: &mut Core, seat: u64, at: u32) -> Result<(), Fail> {
    let events = [
        CoreEvent::LoadEnds { seat },
        CoreEvent::LoadSlot { seat, at },
        CoreEvent::Claim { seat },
    ];
    does(rt, core, &events)
}

fn publish(rt: &impl Abort, core: &mut Core, seat: u64) -> Result<(), Fail> {
    does(
        rt,
        core,
        &[
            CoreEvent::EmptySlot { seat },
            CoreEvent::RaiseVisible { seat },
        ],
    )
}

const SESSION: CoreEvent = CoreEvent::Split {
    from: 0,
    note: false,
};

const OVER: CoreEvent = CoreEvent::Place {
    count: 1,
    shards: 0,
};

const HEAD: CoreEvent = CoreEvent::LoadSlot { seat: 0, at: 0 };

/// No batch is placed, though the slot of head was read.
fn is_full(rt: &impl Abort, core: &mut Core) -> Result<(), Fail> {
    does(rt, core, &[HEAD])?;
    assert!(rt; !core.step(&OVER)?);
    Ok(())
}

/// Batches are placed in all slots.
fn fill(rt: &impl Abort, core: &mut Core) -> Result<(), Fail> {
    for at in 0u32..64 {
        place(rt, core, at)?;
    }
    Ok(())
}

/// A ring that is filled and freed, while session 1 still has to publish the first batch.
fn free(rt: &impl Abort, core: &mut Core) -> Result<(), Fail> {
    is_full(rt, core)?;
    take(rt, core, 1, 0)?;
    is_full(rt, core)?;
    for at in 1u32..64 {
        take(rt, core, 0, at)?;
        publish(rt, core, 0)?;
    }
    // Tail is head, and the slot of both holds an odd word.
    does(rt, core, &[CoreEvent::LoadEnds { seat: 0 }, HEAD])?;
    assert!(rt; !core.step(&CoreEvent::Claim { seat: 0 })?);
    publish(rt, core, 1)
}

#[test]
fn the_ring_is_filled_and_freed_in_order(rt: HostRuntime) -> Result<(), Fail> {
    let mut core = Core::new(rt.alloc(), 10)?;
    does(&rt, &mut core, &[SESSION])?;
    fill(&rt, &mut core)?;
    free(&rt, &mut core)?;
    assert_eq!(rt; core.kept.published, 64);
    fill(&rt, &mut core)?;
    assert_eq!(rt; core.kept.head, 128);
    Ok(())
}

#[test]
fn a_run_has_so_many_batches(rt: HostRuntime) -> Result<(), Fail> {
    let mut core = Core::new(rt.alloc(), 10)?;
    for batch in 0u32..1_048_576 {
        place(&rt, &mut core, batch % 64)?;
        take(&rt, &mut core, 0, batch % 64)?;
        publish(&rt, &mut core, 0)?;
    }
    is_full(&rt, &mut core)?;
    assert_eq!(rt; core.kept.published, 1_048_576);
    Ok(())
}
