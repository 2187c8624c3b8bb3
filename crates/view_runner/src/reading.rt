//! What is read at a hold.

ghost use Rattle.std.specs.Prelude.{◌≡◌, ◌++◌, ◌≤◌, ◌+◌, ℕ, List, OnOk, IfOk, length};
ghost use Rattle.batch_repr.specs.Versions.{answer_at};
ghost use Rattle.snapshot_view.specs.Scans.{KeyValue, pair_shown};
ghost use Rattle.snapshot_view.specs.Views.{HoldsAt, HoldStands, IsScanOf};
ghost use Rattle.view_runner.specs.Texts.{got_line, pair_line, scan_lines};

use crate::texts::{put_no_value, put_pair, put_scan_end, put_value};
use snapshot_view::{Pair, SnapId, View};
use wal_base::{Buf, NoMemory};

/// Adds the value of a key at a hold, or that it has none.
pub(crate) fn put_get(out: &mut Buf, view: &View, id: SnapId, key: &[u8]) -> Result<(), NoMemory>
    requires { HoldStands view.now.holds id.number }
    ensures { OnOk result ((at : ℕ) → HoldsAt view.now.holds id.number at
        → out.new ≡ out.old ++ got_line key.now (answer_at view.now.batches at key.now) at) }
{
    let at = view.number_of(id);
    match view.get(id, key) {
        Some(value) => put_value(out, key, value, at),
        None => put_no_value(out, key, at),
    }
}

/// Adds the line of a key with its value, and counts it. There are no more lines than bytes.
fn count_pair(out: &mut Buf, count: u64, pair: Pair<'_>) -> Result<u64, NoMemory>
    requires { count ≤ length out.old }
    ensures count { IfOk result (λ more. more ≡ count + 1) }
    ensures few { IfOk result (λ more. more ≤ length out.new) }
    ensures text { OnOk result (out.new ≡ out.old ++ pair_line (pair_shown pair.entry)) }
{
    let _before = out.as_slice().len();
    put_pair(out, pair)?;
    let _after = out.as_slice().len();
    Ok(count + 1)
}

/// Adds a line for each key from `from` on that has a value at a hold, and one that ends them. Each is written as it comes.
pub(crate) fn put_scan(out: &mut Buf, view: &View, id: SnapId, from: &[u8]) -> Result<(), NoMemory>
    requires { HoldStands view.now.holds id.number }
    ensures { OnOk result ((at : ℕ) → HoldsAt view.now.holds id.number at
        → (pairs : List KeyValue) × IsScanOf view.now.batches from.now at pairs
        × (out.new ≡ out.old ++ scan_lines pairs at)) }
{
    let at = view.number_of(id);
    let mut count = 0;
    for pair in view.scan(id, from) {
        count = count_pair(out, count, pair)?;
    }
    put_scan_end(out, count, at)
}
