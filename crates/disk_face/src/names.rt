//! The names of segments and of tables: one spelling each, read and written.

ghost use Rattle.std.specs.Prelude.{◌≡◌, ◌+◌, ◌≤◌, ◌<◌, ◌++◌, length, IfSome, IfNone, OnOk, OnErr, Some};
ghost use Rattle.std.specs.Option.{MatchOption};
ghost use Rattle.arrayvec.specs.ArrayVec.{array_vec_len};
ghost use Rattle.disk_face.specs.declared.SegName.{SegName};
ghost use Rattle.disk_face.specs.declared.TableName.{TableName};
ghost use Rattle.disk_face.specs.Image.{log_number};
ghost use Rattle.disk_face.specs.Listing.{IsSegmentName};
ghost use Rattle.disk_face.specs.Names.{filled, seg_text, NamesNone, FindsNamed, OfEachStem, CutsStem};
ghost use Rattle.disk_face.specs.Names.{table_name_text, NamesTable, NamesNoTable, FindsTable};

use crate::{SegName, TableName};
use arrayvec::ArrayVec;
use wal_base::{Buf, NoMemory};

/// The greatest number of a WAL: its twelve digits are all 9.
pub const WAL_MAX: u64 = 999_999_999_999;

/// The greatest index of a segment: its three digits are all 9.
pub const INDEX_MAX: u32 = 999;

/// Room for two numbers of 20 digits, a dash and an end of four.
const TEXT_ROOM: usize = 45;

impl SegName {
    /// The log number of its chunks: the lowest 32 bits of the number of its WAL.
    pub fn log(&self) -> u32
        ensures { result ≡ log_number self.now.wal }
    {
        (self.wal % (1 << 32)) as u32
    }

    /// Reads the one spelling of a name. `None` exactly where the text is the spelling of no name.
    pub fn parse(text: &[u8]) -> Option<SegName>
        ensures some { IfSome result (λ name. (seg_text name ≡ text.now) × IsSegmentName name) }
        ensures none { IfNone result (NamesNone text.now) }
    {
        let name = candidate(text)?;
        if name.wal > WAL_MAX || name.index > INDEX_MAX {
            return None;
        }
        let spelling = spell(name);
        if spelling.as_slice() == text {
            Some(name)
        } else {
            None
        }
    }

    /// Adds the spelling of the name. After an error nothing was added.
    pub fn put(&self, out: &mut Buf) -> Result<(), NoMemory>
        ensures ok { OnOk result (out.new ≡ out.old ++ seg_text self.now) }
        ensures err { OnErr result (out.new ≡ out.old) }
    {
        let spelling = spell(*self);
        out.append(spelling.as_slice())
    }
}

impl TableName {
    /// Reads the one spelling of a name. `None` exactly where the text is the spelling of no name.
    pub fn parse(text: &[u8]) -> Option<TableName>
        ensures some { IfSome result (NamesTable text.now) }
        ensures none { IfNone result (NamesNoTable text.now) }
    {
        let name = table_candidate(text)?;
        if name.upto > WAL_MAX || spell_table(name).as_slice() != text {
            return None;
        }
        Some(name)
    }

    /// Adds the spelling of the name. After an error nothing was added.
    pub fn put(&self, out: &mut Buf) -> Result<(), NoMemory>
        ensures ok { OnOk result (out.new ≡ out.old ++ table_name_text self.now.upto) }
        ensures err { OnErr result (out.new ≡ out.old) }
    {
        let spelling = spell_table(*self);
        out.append(spelling.as_slice())
    }
}

/// The only name of a segment of which the text may be the spelling.
fn candidate(text: &[u8]) -> Option<SegName>
    ensures { FindsNamed text.now result }
{
    let (wal, index) = split(stem(text, b".log")?);
    let wal = wal.parse::<u64>().ok()?;
    let index = index.parse::<u32>().ok()?;
    Some(SegName { wal, index })
}

/// The only name of a table of which the text may be the spelling.
fn table_candidate(text: &[u8]) -> Option<TableName>
    ensures { FindsTable text.now result }
{
    let upto = stem(text, b".tab")?.parse::<u64>().ok()?;
    Some(TableName { upto })
}

/// What stands before that end, if it is text.
fn stem<'t>(text: &'t [u8], end: &[u8]) -> Option<&'t str>
    ensures { OfEachStem end.now text.now (λ bytes. MatchOption result ⊥ (λ s. s.now ≡ bytes)) }
{
    let stem = text.strip_suffix(end)?;
    std::str::from_utf8(stem).ok()
}

/// The number of the WAL and the index, which is 0 where no dash is.
fn split(stem: &str) -> (&str, &str)
    ensures { CutsStem stem.now result.0.now result.1.now }
{
    match stem.split_once('-') {
        Some(parts) => parts,
        None => (stem, "0"),
    }
}

fn spell(name: SegName) -> ArrayVec<u8, TEXT_ROOM>
    ensures { result.items ≡ seg_text name }
{
    let mut text = ArrayVec::new();
    push_filled(&mut text, 6, name.wal);
    if name.index != 0 {
        text.push(b'-');
        push_filled(&mut text, 3, u64::from(name.index));
    }
    push_all(&mut text, b".log");
    text
}

fn spell_table(name: TableName) -> ArrayVec<u8, TEXT_ROOM>
    ensures { result.items ≡ table_name_text name.upto }
{
    let mut text = ArrayVec::new();
    push_filled(&mut text, 6, name.upto);
    push_all(&mut text, b".tab");
    text
}

/// Adds the digits of a number, with zeros in front up to a width.
fn push_filled(text: &mut ArrayVec<u8, TEXT_ROOM>, width: usize, number: u64)
    requires width { width ≤ 20 }
    requires room { array_vec_len text.old + 20 ≤ 45 }
    ensures items { text.new.items ≡ text.old.items ++ filled width number }
    ensures len { array_vec_len text.new ≤ array_vec_len text.old + 20 }
{
    let mut buffer = itoa::Buffer::new();
    let digits = buffer.format(number).as_bytes();
    for _zero in 0..width.saturating_sub(digits.len()) {
        text.push(b'0');
    }
    push_all(text, digits);
}

fn push_all(text: &mut ArrayVec<u8, TEXT_ROOM>, bytes: &[u8])
    requires { array_vec_len text.old + length bytes.now ≤ 45 }
    ensures items { text.new.items ≡ text.old.items ++ bytes.now }
    ensures len { array_vec_len text.new ≡ array_vec_len text.old + length bytes.now }
{
    let fits = text.try_extend_from_slice(bytes).is_ok();
    prove!(fits);
}
