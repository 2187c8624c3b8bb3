//! The table that all seats share: words that change in single steps (`layout`), and a slot for each shard.
ghost use Rattle.std.specs.Prelude.{◌≡◌};
ghost use Rattle.memtable_shards.specs.declared.sharding.TheConstants.{SHARDS};
ghost use Rattle.commit_queue.specs.declared.layout.TheConstants.{WORDS};

use crate::view::View;
use atomic_table::{Seat, Table, TableRule};
use crossbeam_utils::CachePadded;
use crossbeam_utils::sync::EventCount;
use memtable_shards::{SHARDS, Shard};
use std::alloc::Global;
use std::snapshot::Snapshot;
use wal_base::ListOf;

/// Shards, each at the place of its number.
pub type Shards = ListOf<Shard>;

/// What a table is made of: its first number, and the shards as they were then.
#[derive(Drop)]
pub(crate) struct TableOpening {
    pub(crate) base: u64,
    pub(crate) shards: Snapshot<Shards>,
}

/// The rule of the table.
pub(crate) struct RingRule;

impl TableRule<Option<Shard>, View, TableOpening> for RingRule {
    ghost use Rattle.commit_queue.specs.declared.pipe_table.TableOpening.{TableOpening};
    ghost use Rattle.commit_queue.specs.Rule.{Linked};
    ghost use Rattle.commit_queue.specs.Views.{first_view};

    ghost holds = { Linked };

    ghost first = { λ (opening : TableOpening). first_view opening.base opening.shards.value };
}

pub(crate) type AtomicTable = Table<Option<Shard>, View, TableOpening, RingRule, Global>;

pub(crate) type TableSeat = Seat<Option<Shard>, View>;

/// The table of a commit ring. Each call on it takes a seat of it, and none but `hand_over`
/// and `publish_until` waits.
#[derive(Drop)]
pub struct PipeTable {
    pub(crate) table: AtomicTable,
    /// Tells those who wait that batches were published.
    pub(crate) published: CachePadded<EventCount>,
    /// Tells one of those who wait for a shard that it was given back.
    pub(crate) returned: [CachePadded<EventCount>; SHARDS],
    ghost words: { table.shared.table_id.words ≡ WORDS },
    ghost slots: { table.shared.table_id.slots ≡ SHARDS },
}
