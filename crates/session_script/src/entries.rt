//! The entries of a batch, as a line spells them.

ghost use Rattle.std.specs.Prelude.{IfOk, IsErrOf};
ghost use Rattle.wal_base.specs.declared.entry.Entry.{Entry};
ghost use Rattle.session_script.specs.Words.{parts_of, SpellEntries};
ghost use Rattle.session_script.specs.Next.{TakesEntry, HasNoEntry};
ghost use Rattle.session_script.specs.Spelled.{AsksForBatch, AsksForNoBatch, SpellNoEntries};

use crate::fault::LineFault;
use crate::words::next_word;
use batch_repr::Unwritten;
use line_words::Pieces;
use std::alloc::Global;
use wal_base::{Entries, Entry};

/// Takes the words of an entry off. It is bad exactly where no entry comes next.
fn next_entry(words: &mut Pieces<'_>) -> Result<Entry, LineFault>
    ensures entry { IfOk result (λ entry. TakesEntry words.old entry words.new) }
    ensures bad { IsErrOf result LineFault.Bad → HasNoEntry words.old }
{
    match words.next().ok_or(LineFault::Bad)? {
        b"set" => {
            let key = next_word(words)?;
            let value = next_word(words)?;
            Ok(Entry::Set { key, value })
        }
        b"del" => {
            let key = next_word(words)?;
            Ok(Entry::Delete { key })
        }
        b"note" => {
            let bytes = next_word(words)?;
            Ok(Entry::Note { bytes })
        }
        b"rdel" => {
            let start = next_word(words)?;
            let end = next_word(words)?;
            Ok(Entry::RangeDelete { start, end })
        }
        _ => Err(LineFault::Bad),
    }
}

/// The entries that the words spell, with a semicolon between two of them.
fn entries_of(alloc: Global, words: &mut Pieces<'_>) -> Result<Entries, LineFault>
    ensures ok { IfOk result (λ entries. SpellEntries entries (parts_of words.old)) }
    ensures bad { IsErrOf result LineFault.Bad → SpellNoEntries words.old }
{
    let mut entries = Entries::with_capacity(alloc, 1)?;
    loop {
        let entry = next_entry(words)?;
        entries.push(entry).map_err(|_| LineFault::NoMemory)?;
        let Some(word) = words.next() else {
            return Ok(entries);
        };
        if word != b";".as_slice() {
            return Err(LineFault::Bad);
        }
    }
}

/// The batch whose entries the words spell.
pub(crate) fn batch_of(alloc: Global, words: &mut Pieces<'_>) -> Result<Unwritten, LineFault>
    ensures ok { IfOk result (AsksForBatch words.old) }
    ensures bad { IsErrOf result LineFault.Bad → AsksForNoBatch words.old }
{
    let entries = entries_of(alloc, words)?;
    Unwritten::of(entries).ok_or(LineFault::Bad)
}
