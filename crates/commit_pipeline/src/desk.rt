//! What a session commits with, while a call is under way.
ghost use Rattle.std.specs.Prelude.{◌≡◌, ◌↔◌, ◌+◌, ◌<◌, ◌≤◌, false};
ghost use Rattle.commit_pipeline.specs.Desks.{Raises, known};

use crate::name::PipeName;
use commit_queue::SessionSeat;
use std::marker::Model;
use std::sync::ledger::{Book, Ledger, Share};

/// How often a session was told of a death of the journal: a share of the ledger that counts it. Whether
/// it was told at all is known at run time too.
#[derive(Drop)]
pub(crate) struct DeathCount<M: Ledger> {
    share: Share<M>,
    any: bool,
}

impl<M: Ledger> Model for DeathCount<M> {
    ghost use Rattle.std.specs.Prelude.{◌≡◌, ◌↔◌, false};
    ghost use Rattle.std.specs.declared.sync.ledger.Share.{Share};

    ghost Value = { Share M };

    ghost view = { λ c. c.share };

    ghost invariant = { λ c. (c.any ≡ false) ↔ (c.share.amount ≡ 0) };
}

impl<M: Ledger> DeathCount<M> {
    /// It was not told yet.
    pub(crate) fn none(share: Share<M>) -> DeathCount<M>
        requires { share.amount ≡ 0 }
        ensures { result ≡ share }
    {
        DeathCount { share, any: false }
    }

    /// Whether it was told.
    pub(crate) fn is_any(&self) -> bool
        ensures { (result ≡ false) ↔ (self.now.amount ≡ 0) }
    {
        self.any
    }

    /// It was told once more.
    pub(crate) fn count(&mut self, book: &mut Book<M>)
        requires { 0 < self.old.parts }
        ensures total { book.new.total ≡ book.old.total + 1 }
        ensures raised { Raises self.old 1 self.new }
    {
        book.add(&mut self.share, 1);
        self.any = true;
    }

    /// It is not above what the book counts.
    pub(crate) fn audit(&mut self, book: &mut Book<M>)
        ensures total { book.new.total ≡ book.old.total }
        ensures same { Raises self.old 0 self.new }
        ensures bound { self.old.amount ≤ book.old.total }
    {
        book.audit(&mut self.share);
    }

    /// The share alone.
    pub(crate) fn into_share(self) -> Share<M>
        ensures parts { result.parts ≡ self.parts }
        ensures amount { result.amount ≡ self.amount }
    {
        let DeathCount { share, any: _ } = self;
        share
    }
}

/// A session's seat, and its shares of the two ledgers: one of the batches, and two of what told of
/// a death. Within a commit the seat may hold a batch, and the share be ahead of the seat's own
/// batches.
#[derive(Drop)]
pub(crate) struct Desk<N: PipeName, M: Ledger> {
    pub(crate) seat: SessionSeat,
    /// How many batches are the session's own.
    pub(crate) own: Share<N>,
    /// How many of its commits were answered `Dead` or `Unsynced`.
    pub(crate) dead: DeathCount<M>,
    /// How many meetings told it of a death.
    pub(crate) told: DeathCount<M>,
}

impl<N: PipeName, M: Ledger> Desk<N, M> {
    /// Whether the session knows of a death.
    pub(crate) fn knows_death(&self) -> bool
        ensures { (result ≡ false) ↔ (known self.now ≡ 0) }
    {
        self.dead.is_any() || self.told.is_any()
    }
}
