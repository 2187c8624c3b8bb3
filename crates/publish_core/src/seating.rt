//! Seats are made, and taken in by others.
ghost use Rattle.std.specs.Prelude.{◌≡◌, ◌≢◌, ◌==◌, ◌↔◌, ◌<◌, ◌++◌, ℕ, cond, IsTrue, Some, None, IfOk, OnOk, OnErr, length};
ghost use Rattle.publish_core.specs.declared.seat.Kind.TheVariants.{Note, Worker};
ghost use Rattle.publish_core.specs.declared.seat.Claim.TheVariants.{Free};
ghost use Rattle.publish_core.specs.declared.seat.Stage.TheVariants.{Held};
ghost use Rattle.publish_core.specs.Machine.{Among, Possible, split, join, after, after_tell, after_hand, after_join, handed, joined, nobody, renamed, shown_seat};
ghost use Rattle.publish_core.specs.Parts.{shape_count, has_part};
ghost use Rattle.publish_core.specs.Seated.{renamed_owner, passed, passed_held, HandsOn, list_or};

use crate::machine::Core;
use crate::seat::{Claim, Counts, Kind, Pair, Stage};
use crate::state::{KeptSeat, KeptState};
use std::alloc::Global;
use std::mem;
use wal_base::NoMemory;

/// The stage of a batch, once the seat `note` is the seat `into`.
fn renamed_stage(stage: Stage, note: u64, into: u64) -> Stage
    ensures { result ≡ renamed note into stage }
{
    match stage {
        Stage::Held(seat) => Stage::Held(renamed_seat(seat, note, into)),
        other => other,
    }
}

fn renamed_seat(seat: u64, note: u64, into: u64) -> u64
    ensures { result ≡ renamed_owner note into seat }
{
    if seat == note { into } else { seat }
}

/// One list after another; none where the first is empty, so that the second serves.
fn one_after<T: Copy + Drop>(
    alloc: Global,
    first: &Vec<T>,
    second: &Vec<T>,
) -> Result<Option<Vec<T>>, NoMemory>
    ensures { IfOk result
        (λ list. list_or second.now.items list ≡ first.now.items ++ second.now.items) }
{
    if first.is_empty() {
        return Ok(None);
    }
    let mut list = Vec::from_slice(alloc, first)?;
    list.extend_from_slice(second)?;
    Ok(Some(list))
}

fn replace_list<T: Drop>(list: &mut Vec<T>, other: Option<Vec<T>>)
    ensures { list.new.items ≡ list_or list.old.items other }
{
    if let Some(other) = other {
        *list = other;
    }
}

impl KeptSeat {
    ghost use Rattle.publish_core.specs.Kept.{seat_of};

    /// A seat that is no more.
    fn spent(alloc: Global) -> KeptSeat
        ensures { seat_of result ≡ nobody }
    {
        KeptSeat {
            kind: Kind::Spent,
            held: None,
            seen: 0,
            published: 0,
            acked: 0,
            loaded: None,
            reading: None,
            claim: Claim::Free,
            turn: None,
            knows: Vec::new(alloc),
            own: Vec::new(alloc),
            counts: Counts::none(),
        }
    }

    /// A new seat that has seen what this one has seen.
    fn telling(&self, kind: Kind, held: Option<u64>) -> Result<KeptSeat, NoMemory>
        ensures { IfOk result (λ d. seat_of d ≡ shown_seat (seat_of self.now) kind held) }
    {
        let alloc = *self.knows.allocator();
        Ok(KeptSeat {
            kind,
            held,
            seen: self.seen,
            published: self.published,
            acked: self.acked,
            loaded: None,
            reading: None,
            claim: Claim::Free,
            turn: None,
            knows: Vec::from_slice(alloc, &self.knows)?,
            own: Vec::new(alloc),
            counts: Counts::none(),
        })
    }

    fn is_session(&self) -> bool
        ensures { IsTrue result ↔ (self.now.kind ≡ Worker) }
    {
        match self.kind {
            Kind::Worker => true,
            Kind::Producer | Kind::Note | Kind::Spent => false,
        }
    }

    fn is_note(&self) -> bool
        ensures { IsTrue result ↔ (self.now.kind ≡ Note) }
    {
        match self.kind {
            Kind::Note => true,
            Kind::Producer | Kind::Worker | Kind::Spent => false,
        }
    }

    /// Whether it holds no batch, has no turn and claims nothing.
    fn is_quiet(&self) -> bool
        ensures { IsTrue result ↔
            ((self.now.held ≡ None) × (self.now.turn ≡ None) × (self.now.claim ≡ Free)) }
    {
        self.held.is_none() && self.turn.is_none() && self.claim.is_free()
    }

    /// It takes in what the other seat holds and has seen, with its lists as they are then.
    fn absorb(&mut self, other: &KeptSeat, knows: Option<Vec<Pair>>, own: Option<Vec<u64>>)
        requires knows { list_or self.old.knows.items knows ≡
            other.now.knows.items ++ self.old.knows.items }
        requires own { list_or self.old.own.items own ≡ other.now.own.items ++ self.old.own.items }
        ensures { seat_of self.new ≡ joined (seat_of self.old) (seat_of other.now) }
    {
        self.held = self.held.or(other.held);
        self.seen = self.seen.max(other.seen);
        self.published = self.published.max(other.published);
        self.acked = self.acked.max(other.acked);
        self.loaded = None;
        self.reading = None;
        replace_list(&mut self.knows, knows);
        replace_list(&mut self.own, own);
    }
}

impl KeptState {
    ghost use Rattle.publish_core.specs.Kept.{kept_state};

    /// A new seat has seen what `from` has seen.
    fn tell(&mut self, from: u64, kind: Kind) -> Result<(), NoMemory>
        requires { from < length self.old.seats.items }
        ensures ok { OnOk result
            (kept_state self.new ≡ after_tell shape_count has_part (kept_state self.old) from kind) }
        ensures err { OnErr result (kept_state self.new ≡ kept_state self.old) }
    {
        let seat = self.seats[from as usize].telling(kind, None)?;
        self.seats.push(seat)?;
        Ok(())
    }

    /// A new note gets the producer's batch.
    fn hand(&mut self, batch: u64) -> Result<(), NoMemory>
        requires made { 0 < length self.old.seats.items }
        requires placed { batch < length self.old.batches.items }
        ensures ok { OnOk result
            (kept_state self.new ≡ after_hand shape_count has_part (kept_state self.old) batch) }
        ensures err { OnErr result (kept_state self.new ≡ kept_state self.old) }
    {
        let note = self.seats.len() as u64;
        let seat = self.seats[0].telling(Kind::Note, Some(batch))?;
        self.seats.push(seat)?;
        self.seats[0].held = None;
        self.stages[batch as usize] = Stage::Held(note);
        self.owners[batch as usize] = note;
        Ok(())
    }

    /// The batch that goes to a new seat: the producer's, where it is admitted and the seat is a note.
    fn to_hand(&self, from: u64, note: bool) -> Option<u64>
        requires { 0 < length self.now.seats.items }
        ensures { result ≡
            cond (from == 0) (handed self.now.head ((kept_state self.now).seats 0).held note) None }
    {
        if from != 0 || !note {
            return None;
        }
        match self.held_by(0) {
            Some(batch) if batch < self.head => Some(batch),
            _ => None,
        }
    }

    /// Whether a seat may be made that has seen what `from` has seen.
    fn can_split(&self, from: u64, note: bool) -> bool
        ensures possible { IsTrue result ↔
            Possible shape_count has_part (kept_state self.now) (split from note) }
        ensures made { IsTrue result → from < length self.now.seats.items }
    {
        self.acts(from) && (note || (from == 0 && self.held_by(0).is_none()))
    }

    fn split_off(&mut self, from: u64, note: bool) -> Result<(), NoMemory>
        requires made { from < length self.old.seats.items }
        requires placed { (i : ℕ) → ((kept_state self.old).seats 0).held ≡ Some i
            → i < length self.old.batches.items }
        ensures ok { OnOk result
            (kept_state self.new ≡ after shape_count has_part (kept_state self.old) (split from note)) }
        ensures err { OnErr result (kept_state self.new ≡ kept_state self.old) }
    {
        match self.to_hand(from, note) {
            Some(batch) => self.hand(batch),
            None => self.tell(from, if note { Kind::Note } else { Kind::Worker }),
        }
    }

    /// Whether the seat was made and is a session's.
    fn is_session(&self, seat: u64) -> bool
        ensures kind { IsTrue result ↔ (((kept_state self.now).seats seat).kind ≡ Worker) }
        ensures made { IsTrue result → seat < length self.now.seats.items }
    {
        seat < self.seats.len() as u64 && self.seats[seat as usize].is_session()
    }

    /// Whether the seat was made and is a note.
    fn is_note(&self, seat: u64) -> bool
        ensures kind { IsTrue result ↔ (((kept_state self.now).seats seat).kind ≡ Note) }
        ensures made { IsTrue result → seat < length self.now.seats.items }
    {
        seat < self.seats.len() as u64 && self.seats[seat as usize].is_note()
    }

    fn is_quiet(&self, seat: u64) -> bool
        requires { seat < length self.now.seats.items }
        ensures { IsTrue result ↔ ((((kept_state self.now).seats seat).held ≡ None)
            × (((kept_state self.now).seats seat).turn ≡ None)
            × (((kept_state self.now).seats seat).claim ≡ Free)) }
    {
        self.seats[seat as usize].is_quiet()
    }

    /// Whether the seat `into` may take in the seat `note`.
    fn can_join(&self, into: u64, note: u64) -> bool
        ensures possible { IsTrue result ↔
            Possible shape_count has_part (kept_state self.now) (join into note) }
        ensures made { IsTrue result →
            (into < length self.now.seats.items) × (note < length self.now.seats.items) }
    {
        if into == 0 {
            self.is_session(note) && self.is_quiet(note)
        } else {
            self.is_session(into)
                && self.is_note(note)
                && (self.held_by(into).is_none() || self.held_by(note).is_none())
        }
    }

    /// The batch goes over from the seat `note` to the seat `into`, if it was that seat's.
    fn pass(&mut self, batch: u64, note: u64, into: u64)
        requires { note ≢ 0 }
        ensures seats { self.new.seats.items ≡ self.old.seats.items }
        ensures passed { kept_state self.new ≡ passed (kept_state self.old) batch note into }
    {
        if batch < self.stages.len() as u64 {
            let at = batch as usize;
            self.stages[at] = renamed_stage(self.stages[at], note, into);
            self.owners[at] = renamed_seat(self.owners[at], note, into);
        }
    }

    fn pass_held(&mut self, held: Option<u64>, note: u64, into: u64)
        requires { note ≢ 0 }
        ensures seats { self.new.seats.items ≡ self.old.seats.items }
        ensures passed { kept_state self.new ≡ passed_held (kept_state self.old) held note into }
    {
        if let Some(batch) = held {
            self.pass(batch, note, into);
        }
    }

    /// The batches go over.
    fn pass_all(&mut self, batches: &Vec<u64>, note: u64, into: u64)
        requires { note ≢ 0 }
        ensures seats { self.new.seats.items ≡ self.old.seats.items }
        ensures passed { HandsOn note into batches.now.items
            (kept_state self.old) (kept_state self.new) }
    {
        for batch in batches {
            self.pass(*batch, note, into);
        }
    }

    /// The seat takes in all of `note`. Only batches that `note` owns or holds can be its own.
    fn take_in(&mut self, into: u64, note: u64) -> Result<(), NoMemory>
        requires made { (into < length self.old.seats.items)
            × (note < length self.old.seats.items) }
        requires apart { note ≢ into }
        requires away { note ≢ 0 }
        requires held { (i : ℕ) → (kept_state self.old).stage i ≡ Held note
            → (((kept_state self.old).seats note).held ≡ Some i → ⊥) → ⊥ }
        requires owned { (i : ℕ) → (kept_state self.old).owner i ≡ note
            → (Among i ((kept_state self.old).seats note).own → ⊥)
            → (((kept_state self.old).seats note).held ≡ Some i → ⊥) → ⊥ }
        ensures ok { OnOk result
            (kept_state self.new ≡ after_join shape_count has_part (kept_state self.old) into note) }
        ensures err { OnErr result (kept_state self.new ≡ kept_state self.old) }
    {
        let taker = &self.seats[into as usize];
        let given = &self.seats[note as usize];
        let alloc = *given.knows.allocator();
        let knows = one_after(alloc, &given.knows, &taker.knows)?;
        let own = one_after(alloc, &given.own, &taker.own)?;
        let given = mem::replace(&mut self.seats[note as usize], KeptSeat::spent(alloc));
        self.pass_all(&given.own, note, into);
        self.pass_held(given.held, note, into);
        self.seats[into as usize].absorb(&given, knows, own);
        Ok(())
    }
}

impl Core {
    ghost use Rattle.publish_core.specs.Answers.{state_of, Answers};

    /// Makes a seat that has seen what `from` has seen.
    pub(crate) fn split(&mut self, from: u64, note: bool) -> Result<bool, NoMemory>
        ensures ok { IfOk result
            (λ done. Answers (state_of self.old) (split from note) done (state_of self.new)) }
        ensures err { OnErr result (state_of self.new ≡ state_of self.old) }
    {
        if !self.kept.can_split(from, note) {
            return Ok(false);
        }
        self.kept.split_off(from, note)?;
        Ok(true)
    }

    /// The seat `into` takes in the seat `note`.
    pub(crate) fn join(&mut self, into: u64, note: u64) -> Result<bool, NoMemory>
        ensures ok { IfOk result
            (λ done. Answers (state_of self.old) (join into note) done (state_of self.new)) }
        ensures err { OnErr result (state_of self.new ≡ state_of self.old) }
    {
        if !self.kept.can_join(into, note) {
            return Ok(false);
        }
        self.kept.take_in(into, note)?;
        Ok(true)
    }
}
