//! For each condition of each event a machine that fails it, in stories of which each is one machine's. That nothing has
//! changed after an event that was answered false is a clause, so the story goes on from there.

use crate::{Core, CoreEvent};
use std::alloc::Global;
use std::process::Abort;
use std::test::Fail;

/// An event, and whether it is possible where it stands in its story.
type Told = (bool, CoreEvent);

const READ: CoreEvent = CoreEvent::LoadSlot { seat: 0, at: 0 };

const READ_NEXT: CoreEvent = CoreEvent::LoadSlot { seat: 0, at: 1 };

const PLACE: CoreEvent = CoreEvent::Place {
    count: 1,
    shards: 0,
};

const PLACE_NONE: CoreEvent = CoreEvent::Place {
    count: 0,
    shards: 0,
};

const PLACE_TWO: CoreEvent = CoreEvent::Place {
    count: 2,
    shards: 0,
};
/// With entries in the first shard.
const PLACE_FIRST: CoreEvent = CoreEvent::Place {
    count: 1,
    shards: 1,
};
/// With entries in the first shard and the last.
const PLACE_BOTH: CoreEvent = CoreEvent::Place {
    count: 1,
    shards: 129,
};

const ADMIT: CoreEvent = CoreEvent::Admit;

const SESSION: CoreEvent = CoreEvent::Split {
    from: 0,
    note: false,
};

const NOTE: CoreEvent = CoreEvent::Split {
    from: 0,
    note: true,
};

const MARK: CoreEvent = CoreEvent::Mark { seat: 0 };

const ENDS: CoreEvent = CoreEvent::LoadEnds { seat: 0 };

const CLAIM: CoreEvent = CoreEvent::Claim { seat: 0 };

const EMPTY: CoreEvent = CoreEvent::EmptySlot { seat: 0 };

const RAISE: CoreEvent = CoreEvent::RaiseVisible { seat: 0 };

const TAKE: CoreEvent = CoreEvent::TakeShard { seat: 0, shard: 0 };

const TAKE_LAST: CoreEvent = CoreEvent::TakeShard { seat: 0, shard: 7 };

const GIVE: CoreEvent = CoreEvent::GiveShard {
    seat: 0,
    apply: false,
};

const APPLY: CoreEvent = CoreEvent::GiveShard {
    seat: 0,
    apply: true,
};

const OTHER_ENDS: CoreEvent = CoreEvent::LoadEnds { seat: 1 };

const OTHER_READ: CoreEvent = CoreEvent::LoadSlot { seat: 1, at: 0 };

const OTHER_READ_NEXT: CoreEvent = CoreEvent::LoadSlot { seat: 1, at: 1 };

const OTHER_CLAIM: CoreEvent = CoreEvent::Claim { seat: 1 };

const OTHER_EMPTY: CoreEvent = CoreEvent::EmptySlot { seat: 1 };

const OTHER_RAISE: CoreEvent = CoreEvent::RaiseVisible { seat: 1 };

const OTHER_TAKE: CoreEvent = CoreEvent::TakeShard { seat: 1, shard: 0 };

const OTHER_GIVE: CoreEvent = CoreEvent::GiveShard {
    seat: 1,
    apply: false,
};

/// The machine that begins at that number goes through the story.
fn goes(rt: &impl Abort, alloc: Global, start: u64, story: &[Told]) -> Result<(), Fail> {
    assert!(rt; start < 72_057_594_037_927_936);
    let mut core = Core::new(alloc, start)?;
    for (at, (possible, event)) in story.iter().enumerate() {
        assert_eq!(rt; core.step(event)?, *possible, "event {at}");
    }
    Ok(())
}

/// Batches are placed, each where the producer found head empty, and acked.
const PLACING: &[Told] = &[
    (false, CoreEvent::LoadSlot { seat: 0, at: 64 }),
    (
        false,
        CoreEvent::LoadSlot {
            seat: 0,
            at: u32::MAX,
        },
    ),
    (false, PLACE),
    (false, ADMIT),
    (false, CoreEvent::RaiseAcked { to: 1 }),
    // A slot that is not head's, or that another seat has read.
    (true, CoreEvent::LoadSlot { seat: 0, at: 63 }),
    (false, PLACE),
    (true, SESSION),
    (true, OTHER_READ),
    (false, PLACE),
    // What was read is forgotten at a load of the ends, at another read, and once a seat is taken in.
    (true, READ),
    (true, ENDS),
    (false, PLACE),
    (true, READ),
    (true, READ_NEXT),
    (false, PLACE),
    (true, READ),
    (true, CoreEvent::Join { into: 0, note: 1 }),
    (false, PLACE),
    // A batch has a number.
    (true, READ),
    (false, PLACE_NONE),
    (true, PLACE),
    (false, PLACE),
    (true, READ),
    (false, PLACE),
    (true, READ_NEXT),
    (false, PLACE),
    (false, CoreEvent::RaiseAcked { to: 1 }),
    (true, ADMIT),
    (false, ADMIT),
    (false, CoreEvent::RaiseAcked { to: 2 }),
    (true, CoreEvent::RaiseAcked { to: 1 }),
    // The producer holds the batch until it is marked.
    (true, READ_NEXT),
    (false, PLACE),
    (true, MARK),
    (true, READ),
    (false, PLACE),
    (true, READ_NEXT),
    (true, PLACE),
];

#[test]
fn the_producer_places_where_it_found_head_empty(rt: HostRuntime) -> Result<(), Fail> {
    goes(&rt, rt.alloc(), 10, PLACING)
}

/// Of two numbers that are left the last one is no end.
const ENDING: &[Told] = &[
    (true, READ),
    (false, PLACE_TWO),
    (true, PLACE),
    (true, ADMIT),
    (true, MARK),
    (true, READ_NEXT),
    (false, PLACE),
];

#[test]
fn a_batch_ends_in_bounds(rt: HostRuntime) -> Result<(), Fail> {
    goes(&rt, rt.alloc(), 72_057_594_037_927_934, ENDING)
}

/// Seats 1, 2 and 6 are sessions, the others notes.
const SEATING: &[Told] = &[
    (false, CoreEvent::Join { into: 0, note: 0 }),
    (true, SESSION),
    (
        false,
        CoreEvent::Split {
            from: 1,
            note: false,
        },
    ),
    (false, CoreEvent::Join { into: 1, note: 0 }),
    (false, CoreEvent::Join { into: 1, note: 1 }),
    (true, SESSION),
    (false, CoreEvent::Join { into: 1, note: 2 }),
    (true, NOTE),
    (true, NOTE),
    (false, CoreEvent::Join { into: 0, note: 3 }),
    (false, CoreEvent::Join { into: 3, note: 4 }),
    (false, CoreEvent::Join { into: 1, note: 5 }),
    // The producer's batch goes to the next note, and from that to seat 1.
    (true, READ),
    (true, PLACE),
    (false, SESSION),
    (true, ADMIT),
    (false, SESSION),
    (true, NOTE),
    (true, SESSION),
    (true, CoreEvent::Join { into: 1, note: 5 }),
    (false, CoreEvent::Join { into: 1, note: 5 }),
    (false, CoreEvent::Join { into: 0, note: 1 }),
    // Neither of two that both hold a batch takes in the other.
    (true, READ_NEXT),
    (true, PLACE),
    (true, ADMIT),
    (true, NOTE),
    (false, CoreEvent::Join { into: 1, note: 7 }),
    (true, CoreEvent::Join { into: 2, note: 7 }),
    (true, CoreEvent::TakeShard { seat: 6, shard: 0 }),
    (false, CoreEvent::Join { into: 0, note: 6 }),
    (
        true,
        CoreEvent::GiveShard {
            seat: 6,
            apply: false,
        },
    ),
    (true, CoreEvent::Join { into: 0, note: 6 }),
    (false, CoreEvent::Join { into: 0, note: 6 }),
    // A seat that publishes is not taken in.
    (true, CoreEvent::Mark { seat: 1 }),
    (true, OTHER_ENDS),
    (true, OTHER_READ),
    (true, OTHER_CLAIM),
    (false, CoreEvent::Join { into: 0, note: 1 }),
    (true, OTHER_EMPTY),
    (false, CoreEvent::Join { into: 0, note: 1 }),
    (true, OTHER_RAISE),
    (true, CoreEvent::Join { into: 0, note: 1 }),
];

#[test]
fn seats_are_made_and_taken_in_by_their_kinds(rt: HostRuntime) -> Result<(), Fail> {
    goes(&rt, rt.alloc(), 10, SEATING)
}

/// A batch is marked where it is admitted and applied, by the seat that holds it.
const MARKING: &[Told] = &[
    (false, MARK),
    (true, READ),
    (true, PLACE_FIRST),
    (false, MARK),
    (true, ADMIT),
    (false, MARK),
    (true, TAKE),
    (true, GIVE),
    (false, MARK),
    (true, TAKE),
    (true, APPLY),
    (true, MARK),
    (false, MARK),
    (true, READ_NEXT),
    (true, PLACE_BOTH),
    (true, ADMIT),
    (true, TAKE),
    (true, APPLY),
    (false, MARK),
    (true, TAKE_LAST),
    (true, APPLY),
    (true, MARK),
    // A batch that was handed to a note.
    (true, CoreEvent::LoadSlot { seat: 0, at: 2 }),
    (true, PLACE),
    (true, ADMIT),
    (true, NOTE),
    (false, MARK),
    (false, CoreEvent::Mark { seat: 1 }),
];

#[test]
fn a_batch_is_marked_once_it_is_admitted_and_applied(rt: HostRuntime) -> Result<(), Fail> {
    goes(&rt, rt.alloc(), 10, MARKING)
}

/// Two batches are taken from the front, the second by seat 1.
const TAKING: &[Told] = &[
    (true, SESSION),
    (false, CLAIM),
    (false, EMPTY),
    (false, RAISE),
    (true, ENDS),
    (true, READ),
    (false, CLAIM),
    (true, READ),
    (true, PLACE),
    (true, ADMIT),
    (true, ENDS),
    (true, READ),
    (false, CLAIM),
    (true, MARK),
    (true, OTHER_READ),
    (false, OTHER_CLAIM),
    (true, OTHER_ENDS),
    (false, OTHER_CLAIM),
    (true, READ_NEXT),
    (true, PLACE),
    (true, ADMIT),
    (true, MARK),
    (true, ENDS),
    (true, READ_NEXT),
    (false, CLAIM),
    (true, OTHER_ENDS),
    (true, OTHER_READ),
    (true, ENDS),
    (true, READ),
    (false, EMPTY),
    (false, RAISE),
    (true, CLAIM),
    (false, CLAIM),
    (false, RAISE),
    // Seat 1 loses what it had seen at the front.
    (true, OTHER_CLAIM),
    (false, OTHER_CLAIM),
    (false, OTHER_EMPTY),
    // Who takes a batch takes no other until it is published.
    (true, ENDS),
    (true, READ_NEXT),
    (false, CLAIM),
    (true, EMPTY),
    (false, EMPTY),
    (false, CLAIM),
    (true, RAISE),
    (false, EMPTY),
    (false, RAISE),
    (true, CoreEvent::LoadVisible { seat: 1 }),
    (true, CoreEvent::LoadAcked { seat: 1 }),
    // What was loaded is forgotten once a note is taken in.
    (true, NOTE),
    (true, OTHER_ENDS),
    (true, OTHER_READ_NEXT),
    (true, CoreEvent::Join { into: 1, note: 2 }),
    (false, OTHER_CLAIM),
    (true, OTHER_ENDS),
    (true, OTHER_READ_NEXT),
    (true, OTHER_CLAIM),
];

#[test]
fn a_batch_is_taken_by_its_ends_and_its_odd_word(rt: HostRuntime) -> Result<(), Fail> {
    goes(&rt, rt.alloc(), 10, TAKING)
}

/// Turns on the first shard and the last, and batches that are applied.
const TURNING: &[Told] = &[
    (true, SESSION),
    (false, CoreEvent::TakeShard { seat: 0, shard: 8 }),
    (false, GIVE),
    (true, TAKE_LAST),
    (false, TAKE_LAST),
    (false, TAKE),
    (false, APPLY),
    (true, GIVE),
    (false, GIVE),
    // Who finds a shard taken has no turn.
    (true, TAKE),
    (true, OTHER_TAKE),
    (false, OTHER_GIVE),
    (true, GIVE),
    (true, OTHER_TAKE),
    (true, OTHER_GIVE),
    // A batch with no entries there.
    (true, READ),
    (true, PLACE),
    (true, ADMIT),
    (true, TAKE),
    (false, APPLY),
    (true, GIVE),
    (true, MARK),
    // A batch is applied once, also before it is admitted, and by the seat that holds it.
    (true, READ_NEXT),
    (true, PLACE_FIRST),
    (true, TAKE),
    (true, APPLY),
    (true, TAKE),
    (false, APPLY),
    (true, GIVE),
    (true, ADMIT),
    (true, MARK),
    (true, CoreEvent::LoadSlot { seat: 0, at: 2 }),
    (true, PLACE_FIRST),
    (true, ADMIT),
    (true, NOTE),
    (true, TAKE),
    (false, APPLY),
];

#[test]
fn a_seat_has_one_turn_and_applies_what_it_holds(rt: HostRuntime) -> Result<(), Fail> {
    goes(&rt, rt.alloc(), 10, TURNING)
}

/// Seat 2 is a note, seat 3 is spent, and there are four.
const SEATS: [CoreEvent; 4] = [SESSION, NOTE, NOTE, CoreEvent::Join { into: 1, note: 3 }];

/// No event of the seat is possible.
fn is_idle(rt: &impl Abort, core: &mut Core, seat: u64) -> Result<(), Fail> {
    let events = [
        CoreEvent::LoadSlot { seat, at: 0 },
        CoreEvent::LoadEnds { seat },
        CoreEvent::LoadVisible { seat },
        CoreEvent::LoadAcked { seat },
        CoreEvent::Split {
            from: seat,
            note: true,
        },
        CoreEvent::Split {
            from: seat,
            note: false,
        },
        CoreEvent::Join {
            into: seat,
            note: 2,
        },
        CoreEvent::Mark { seat },
        CoreEvent::Claim { seat },
        CoreEvent::EmptySlot { seat },
        CoreEvent::RaiseVisible { seat },
        CoreEvent::TakeShard { seat, shard: 0 },
        CoreEvent::GiveShard { seat, apply: false },
    ];
    for event in &events {
        assert!(rt; !core.step(event)?);
    }
    Ok(())
}

#[test]
fn a_seat_that_is_a_note_or_spent_or_not_made_does_nothing(rt: HostRuntime) -> Result<(), Fail> {
    let mut core = Core::new(rt.alloc(), 10)?;
    for event in &SEATS {
        assert!(rt; core.step(event)?);
    }
    for seat in [2u64, 3, 4, u64::MAX] {
        is_idle(&rt, &mut core, seat)?;
    }
    Ok(())
}
