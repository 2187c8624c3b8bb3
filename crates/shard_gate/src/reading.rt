//! A key is read in its shard.

ghost use Rattle.std.specs.Prelude.{◌≡◌, ◌≤◌, None, IfOk, IfErr};
ghost use Rattle.memtable_shards.specs.Newest.{value_found};
ghost use Rattle.memtable_shards.specs.Versions.{shard_of};
ghost use Rattle.commit_queue.specs.Seats.{session_table, session_view};
ghost use Rattle.shard_gate.specs.Gates.{gate_table, visible_seen, ReadsNewest, LeavesRead};

use crate::gate::ShardGate;
use commit_queue::SessionSeat;
use memtable_shards::{Found, shard_index};
use std::alloc::Global;
use thiserror::Error;
use wal_base::{Blob, NoMemory};

/// Why a key was not read.
#[derive(Clone, Copy, Debug, PartialEq, Eq, Error)]
pub enum ReadBusy {
    /// The key's shard is with another seat.
    #[error("the shard is taken")]
    Busy,
    /// Out of memory.
    #[error("out of memory")]
    NoMemory,
}

impl<'t> ShardGate<'t> {
    /// Settles the key's shard, and copies the value of its newest version below this number.
    /// `Busy` exactly where the shard's word was 1 at this call's step.
    pub fn try_newest(
        &self,
        s: &mut SessionSeat,
        key: &[u8],
        below: u64,
    ) -> Result<Option<Blob>, ReadBusy>
        requires table { session_table s.old ≡ gate_table self.now }
        requires no_turn { (session_view s.old).seat.turn ≡ None }
        requires seen { below ≤ visible_seen (session_view s.old) }
        ensures same { session_table s.new ≡ session_table s.old }
        ensures read { IfOk result (λ value. ReadsNewest (session_view s.old) key.now below value (session_view s.new)) }
        ensures err { IfErr result (λ fault. LeavesRead fault (session_view s.old) (shard_of key.now) (session_view s.new)) }
    {
        let Some(mut taken) = self.table.take_shard(s, shard_index(key)) else {
            return Err(ReadBusy::Busy);
        };
        let value = match taken.settle() {
            Ok(()) => value_of(self.alloc, taken.newest(key, below)),
            Err(NoMemory) => Err(NoMemory),
        };
        self.table.give_shard(s, taken, false);
        value.map_err(|_| ReadBusy::NoMemory)
    }
}

/// A copy of the value that is found.
fn value_of(alloc: Global, found: Found<'_>) -> Result<Option<Blob>, NoMemory>
    ensures { IfOk result (λ value. value ≡ value_found found.entry) }
{
    match found {
        Found::Nothing | Found::Gone { .. } => Ok(None),
        Found::Value { bytes, .. } => Ok(Some(Blob::copy_of(alloc, bytes)?)),
    }
}
