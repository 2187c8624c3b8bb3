//! What a line asks for.

ghost use Rattle.std.specs.Prelude.{◌≡◌, ◌∷◌, codes, IfOk, IsErrOf};
ghost use Rattle.line_words.specs.Words.{words_of};
ghost use Rattle.view_script.specs.Asking.{WordsAsk, WordsAskNothing, LineAsks, AsksNothing};

use crate::fault::LineFault;
use crate::view_line::ViewLine;
use crate::words::{has_two_words_at_most, last_number, last_word, next_number};
use line_words::{Pieces, is_end};
use wal_base::Blob;

/// What a line asks for whose first word is `hold`.
fn hold_of(words: &mut Pieces<'_>) -> Result<ViewLine, LineFault>
    ensures asks { IfOk result (WordsAsk (codes "hold" ∷ words.old)) }
    ensures bad { IsErrOf result LineFault.Bad → WordsAskNothing (codes "hold" ∷ words.old) }
{
    let at = last_number(words)?;
    Ok(ViewLine::Hold { at })
}

/// What a line asks for whose first word is `get`.
fn get_of(words: &mut Pieces<'_>) -> Result<ViewLine, LineFault>
    ensures asks { IfOk result (WordsAsk (codes "get" ∷ words.old)) }
    ensures bad { IsErrOf result LineFault.Bad → WordsAskNothing (codes "get" ∷ words.old) }
{
    let hold = next_number(words)?;
    let key = last_word(words)?;
    Ok(ViewLine::Get { hold, key })
}

/// What a line asks for whose first word is `scan`.
fn scan_of(line: &Blob, words: &mut Pieces<'_>) -> Result<ViewLine, LineFault>
    requires { words_of line.now ≡ codes "scan" ∷ words.old }
    ensures asks { IfOk result (LineAsks line.now) }
    ensures bad { IsErrOf result LineFault.Bad → AsksNothing line.now }
{
    if has_two_words_at_most(line) {
        let hold = last_number(words)?;
        let from = line.part(0, 0)?;
        return Ok(ViewLine::Scan { hold, from });
    }
    let hold = next_number(words)?;
    let from = last_word(words)?;
    Ok(ViewLine::Scan { hold, from })
}

/// What a line asks for whose first word is `release`.
fn release_of(words: &mut Pieces<'_>) -> Result<ViewLine, LineFault>
    ensures asks { IfOk result (WordsAsk (codes "release" ∷ words.old)) }
    ensures bad { IsErrOf result LineFault.Bad → WordsAskNothing (codes "release" ∷ words.old) }
{
    let hold = last_number(words)?;
    Ok(ViewLine::Release { hold })
}

/// What a line asks for whose first word is `purge`.
fn purge_of(words: &mut Pieces<'_>) -> Result<ViewLine, LineFault>
    ensures asks { IfOk result (WordsAsk (codes "purge" ∷ words.old)) }
    ensures bad { IsErrOf result LineFault.Bad → WordsAskNothing (codes "purge" ∷ words.old) }
{
    if is_end(words) {
        Ok(ViewLine::Purge)
    } else {
        Err(LineFault::Bad)
    }
}

/// What a line asks for. It is bad exactly where it asks for nothing.
pub(crate) fn asked_by(line: &Blob) -> Result<ViewLine, LineFault>
    ensures asks { IfOk result (LineAsks line.now) }
    ensures bad { IsErrOf result LineFault.Bad → AsksNothing line.now }
{
    let mut words = Pieces::words(line);
    let verb = words.next().ok_or(LineFault::Bad)?;
    if verb == b"hold".as_slice() {
        return hold_of(&mut words);
    }
    if verb == b"get".as_slice() {
        return get_of(&mut words);
    }
    if verb == b"scan".as_slice() {
        return scan_of(line, &mut words);
    }
    if verb == b"release".as_slice() {
        return release_of(&mut words);
    }
    if verb == b"purge".as_slice() {
        return purge_of(&mut words);
    }
    Err(LineFault::Bad)
}
