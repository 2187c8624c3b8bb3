//! The store that batches leave: the keys that have a value, and a line for each of them.

ghost use Rattle.std.specs.Prelude.{◌≡◌, ◌≤◌, ℕ, List, [], ◌∷◌, ◌++◌, None, true, fold, take, length, OnOk, OnErr, IfOk, IfSome, IfNone, IsSome, IsTrue};
ghost use Rattle.std.specs.List.{flat_map};
ghost use Rattle.std.specs.Ordering.{nat_cmp};
ghost use Rattle.std.specs.Cmp.Lexicographic.{slice_cmp};
ghost use Rattle.std.specs.Ordering.{is_lt};
ghost use Rattle.batch_repr.specs.Batches.{count_of, is_within, entries_in};
ghost use Rattle.text_lines.specs.Holding.{held, changed, let_go, count_held, held_keys, HoldsFew};
ghost use Rattle.text_lines.specs.Store.{held_line, IsStoreOf, IsStoreText};

use crate::pieces::whole_or_none;
use crate::{Piece, put_pieces};
use batch_repr::Batch;
use std::alloc::Global;
use std::collections::BTreeMap;
use wal_base::{Buf, Entry, NoMemory};

/// The keys that have a value after some batches, in order of bytes, each with it.
pub type LiveKeys<'b> = BTreeMap<&'b [u8], &'b [u8]>;

/// Adds a line for each key that has a value after the batches, in order of bytes. On out of memory the
/// text is as it was.
pub fn put_store(alloc: Global, out: &mut Buf, batches: &[Batch]) -> Result<(), NoMemory>
    ensures ok { OnOk result ((lines : List ℕ) × IsStoreText batches.now lines × (out.new ≡ out.old ++ lines)) }
    ensures err { OnErr result (out.new ≡ out.old) }
{
    let live = live_keys(alloc, batches)?;
    let len = out.as_slice().len();
    let added = add_holding(out, &live);
    whole_or_none(out, len, added)
}

/// The keys that have a value after the batches, in order of bytes, each with it: no more of them than the batches
/// use numbers. Both are borrowed from the batches, and not copied.
pub fn live_keys<'b>(alloc: Global, batches: &'b [Batch]) -> Result<LiveKeys<'b>, NoMemory>
    ensures store { IfOk result (λ live. IsStoreOf batches.now (held_keys live)) }
    ensures few { IfOk result (λ live. length (held_keys live) ≤ count_of (entries_in batches.now)) }
{
    let live = hold(alloc, batches)?;
    // A map says that its keys ascend where it says how many they are.
    let _count = live.len();
    Ok(live)
}

/// Holds each key that has a value after the batches, with it.
fn hold<'b>(alloc: Global, batches: &'b [Batch]) -> Result<LiveKeys<'b>, NoMemory>
    ensures same { IfOk result (λ holding. (key : List ℕ) → held holding key ≡ fold (changed key) None (entries_in batches.now)) }
    ensures few { IfOk result (λ holding. count_held holding ≤ count_of (entries_in batches.now)) }
{
    let mut holding = BTreeMap::new(alloc);
    for batch in batches {
        change_by_all(&mut holding, batch.entries.as_slice())?;
    }
    Ok(holding)
}

/// Changes what is held as the entries say, in their order.
fn change_by_all<'b>(holding: &mut LiveKeys<'b>, entries: &'b [Entry]) -> Result<(), NoMemory>
    ensures same { OnOk result ((key : List ℕ) → held holding.new key ≡ fold (changed key) (held holding.old key) entries.now) }
    ensures few { OnOk result (HoldsFew holding.old holding.new entries.now) }
{
    for entry in entries {
        change_by(holding, entry)?;
    }
    Ok(())
}

/// Changes what is held as the entry says.
fn change_by<'b>(holding: &mut LiveKeys<'b>, entry: &'b Entry) -> Result<(), NoMemory>
    ensures same { OnOk result ((key : List ℕ) → held holding.new key ≡ changed key (held holding.old key) entry.now) }
    ensures few { OnOk result (HoldsFew holding.old holding.new (entry.now ∷ [])) }
{
    match entry {
        Entry::Set { key, value } => {
            holding.insert(key.as_slice(), value.as_slice())?;
        }
        Entry::Delete { key } => {
            holding.remove(&key.as_slice());
        }
        Entry::Note { .. } => {}
        Entry::RangeDelete { start, end } => {
            let_go_of(holding, start.as_slice(), end.as_slice());
        }
    }
    Ok(())
}

/// A key that is held within a range.
fn first_within<'b>(holding: &LiveKeys<'b>, start: &'b [u8], end: &'b [u8]) -> Option<&'b [u8]>
    requires { IsTrue (is_lt (slice_cmp nat_cmp start.now end.now)) }
    ensures within { IfSome result (λ key. is_within start.now end.now key.now ≡ true) }
    ensures held { IfSome result (λ key. IsSome (held holding.now key.now)) }
    ensures none { IfNone result ((key : List ℕ) → is_within start.now end.now key ≡ true → held holding.now key ≡ None) }
{
    match holding.range(start..end).next() {
        Some((key, _)) => Some(*key),
        None => None,
    }
}

/// Lets each key within a range go. Each turn takes one out that was put in before, so all range deletes together take no
/// more turns than there are entries.
fn let_go_of<'b>(holding: &mut LiveKeys<'b>, start: &'b [u8], end: &'b [u8])
    ensures same { (key : List ℕ) → held holding.new key ≡ let_go start.now end.now key (held holding.old key) }
    ensures few { count_held holding.new ≤ count_held holding.old }
{
    if !start.cmp(&end).is_lt() {
        return;
    }
    while let Some(key) = first_within(holding, start, end) {
        holding.remove(&key);
    }
}

/// Adds a line for each key that is held. After an `Err` a part of them may stand there.
fn add_holding<'b>(out: &mut Buf, holding: &LiveKeys<'b>) -> Result<(), NoMemory>
    ensures lines { OnOk result (out.new ≡ out.old ++ flat_map held_line (held_keys holding.now)) }
    ensures err { OnErr result (take (length out.old) out.new ≡ out.old) }
{
    for (key, value) in holding {
        put_held(out, key, value)?;
    }
    Ok(())
}

/// Adds the line of a key with its value. On out of memory the text is as it was.
fn put_held<'p>(out: &mut Buf, key: &'p [u8], value: &'p [u8]) -> Result<(), NoMemory>
    ensures ok { OnOk result (out.new ≡ out.old ++ held_line (record { key = key.now; value = value.now })) }
    ensures err { OnErr result (out.new ≡ out.old) }
{
    let line = [
        Piece::Printed(key),
        Piece::Text(b" = "),
        Piece::Printed(value),
        Piece::Text(b"\n"),
    ];
    put_pieces(out, &line)
}
