//! Lines of a load that are still to be made, and how they are made.

ghost use Rattle.std.specs.Prelude.{◌≡◌, ◌↔◌, ◌<◌, ◌%◌, ◌==◌, [], ◌++◌, length, IsTrue, IfOk, OnOk};
ghost use Rattle.wal_base.specs.declared.entry.Entry.TheVariants.{Set};
ghost use Rattle.made_load.specs.Load.{key_and_value};
ghost use Rattle.made_load.specs.EveryNth.{key_at, value_at, entries_at, line_at};
ghost use Rattle.made_load.specs.EveryNth.{lines_of_each, texts_of};

use crate::digits::put_digits;
use crate::every_nth::EveryNth;
use crate::load::{KEY_LEN, LOAD_SESSIONS, key_bytes, load_number};
use batch_repr::Unwritten;
use session_replies::{Act, Line, Lines};
use std::alloc::Global;
use std::marker::Model;
use wal_base::{Blob, Entries, Entry, NoMemory};

/// How many bytes a key and a value have together.
const TEXT_LEN: usize = 69;

/// Lines of a load that are still to be made. Contracts see the lines.
#[derive(Debug, Drop)]
pub struct LoadLines {
    batches: EveryNth,
}

impl Model for LoadLines {
    ghost use Rattle.std.specs.Prelude.{List};
    ghost use Rattle.session_replies.specs.declared.script.Line.{Line};
    ghost use Rattle.made_load.specs.EveryNth.{lines_of_each};

    ghost Value = { List Line };

    ghost view = { λ a. lines_of_each a.batches };
}

impl LoadLines {
    /// No line.
    pub fn none() -> LoadLines
        ensures { result ≡ [] }
    {
        LoadLines::of(EveryNth::none())
    }

    /// The lines that commit these batches.
    pub(crate) fn of(batches: EveryNth) -> LoadLines
        ensures { result ≡ lines_of_each batches }
    {
        LoadLines { batches }
    }

    /// How many they are.
    pub fn len(&self) -> usize
        ensures { result ≡ length self.now }
    {
        self.batches.count as usize
    }

    /// Whether there is none.
    pub fn is_empty(&self) -> bool
        ensures { IsTrue result ↔ (self.now ≡ []) }
    {
        self.batches.count == 0
    }

    /// Whether one of them waits for a sync.
    pub fn ask_for_sync(&self) -> bool {
        for place in 0..self.batches.count {
            if is_synced(self.batches.number(place)) {
                return true;
            }
        }
        false
    }

    /// Makes them. On out of memory they can be made later.
    pub fn make(&self, alloc: Global) -> Result<Lines, NoMemory>
        ensures { IfOk result (λ lines. lines ≡ self.now) }
    {
        let texts = LoadTexts {
            batches: self.batches,
            texts: load_texts(alloc, &self.batches)?,
        };
        texts.lines(alloc)
    }
}

/// Whether a batch waits for a sync.
fn is_synced(index: u32) -> bool
    ensures { result ≡ (index % 16 == 15) }
{
    index % 16 == 15
}

/// Adds the key that a batch sets, and then the value.
fn put_text(text: &mut Vec<u8>, seed: u64, index: u32) -> Result<(), NoMemory>
    ensures { OnOk result (text.new.items ≡ text.old.items ++ key_and_value seed index) }
{
    let mut word = [0; 16];
    put_digits(&mut word, 16, load_number(seed, index));
    text.extend_from_slice(&key_bytes(index))?;
    for _ in 0..4u32 {
        text.extend_from_slice(&word)?;
    }
    Ok(())
}

/// The keys and values of batches, one after the other.
fn load_texts(alloc: Global, batches: &EveryNth) -> Result<Blob, NoMemory>
    ensures { IfOk result (λ text. text ≡ texts_of batches.now) }
{
    let mut text = Vec::with_capacity(alloc, TEXT_LEN * batches.count as usize)?;
    for place in 0..batches.count {
        put_text(&mut text, batches.seed, batches.number(place))?;
    }
    Blob::of_vec(alloc, text)
}

/// Batches whose keys and values are parts of one text. A block of memory for each would take longer to make and to free.
#[derive(Drop)]
struct LoadTexts {
    batches: EveryNth,
    texts: Blob,
    ghost are: { texts ≡ texts_of batches },
}

impl LoadTexts {
    /// The key that the batch at a place sets.
    fn key(&self, place: u32) -> Result<Blob, NoMemory>
        requires { place < self.now.batches.count }
        ensures { IfOk result (λ key. key ≡ key_at self.now.batches place) }
    {
        let start = TEXT_LEN * place as usize;
        self.texts.part(start, start + KEY_LEN)
    }

    /// What it sets its key to.
    fn value(&self, place: u32) -> Result<Blob, NoMemory>
        requires { place < self.now.batches.count }
        ensures { IfOk result (λ value. value ≡ value_at self.now.batches place) }
    {
        let start = TEXT_LEN * place as usize;
        self.texts.part(start + KEY_LEN, start + TEXT_LEN)
    }

    /// The entry that sets its key.
    fn set(&self, place: u32) -> Result<Entry, NoMemory>
        requires { place < self.now.batches.count }
        ensures { let all = self.now.batches in
            IfOk result (λ set. set ≡ Set (key_at all place) (value_at all place)) }
    {
        Ok(Entry::Set {
            key: self.key(place)?,
            value: self.value(place)?,
        })
    }

    /// Its entries.
    fn entries(&self, alloc: Global, place: u32) -> Result<Entries, NoMemory>
        requires { place < self.now.batches.count }
        ensures { IfOk result (λ entries. entries ≡ entries_at self.now.batches place) }
    {
        let deletes = self.batches.number(place) % 8 == 7;
        let mut entries = Entries::with_capacity(alloc, 1 + usize::from(deletes))?;
        let set = self.set(place)?;
        entries.push(set).map_err(|_| NoMemory)?;
        if deletes {
            let key = self.key(place - self.batches.back)?;
            entries.push(Entry::Delete { key }).map_err(|_| NoMemory)?;
        }
        Ok(entries)
    }

    /// The line that commits it.
    fn line(&self, alloc: Global, place: u32) -> Result<Line, NoMemory>
        requires { place < self.now.batches.count }
        ensures { IfOk result (λ line. line ≡ line_at self.now.batches place) }
    {
        let index = self.batches.number(place);
        let entries = self.entries(alloc, place)?;
        Ok(Line {
            session: index % LOAD_SESSIONS,
            act: Act::Commit {
                sync: is_synced(index),
                batch: Unwritten::of(entries).unwrap(),
            },
        })
    }

    /// The lines that commit them all.
    fn lines(&self, alloc: Global) -> Result<Lines, NoMemory>
        ensures { IfOk result (λ lines. lines ≡ lines_of_each self.now.batches) }
    {
        let mut lines = Lines::with_capacity(alloc, self.batches.count as usize)?;
        for place in 0..self.batches.count {
            let line = self.line(alloc, place)?;
            lines.push(line).map_err(|_| NoMemory)?;
        }
        Ok(lines)
    }
}
