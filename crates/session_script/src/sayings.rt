//! What a line says.

ghost use Rattle.std.specs.Prelude.{◌≡◌, ◌∷◌, Option, codes, IfOk, IfSome, IfNone, IsErrOf};
ghost use Rattle.disk_face.specs.declared.Side.{Side};
ghost use Rattle.batch_repr.specs.declared.limits.TheConstants.{KEY_MAX};
ghost use Rattle.session_script.specs.declared.saying.Saying.{Saying};
ghost use Rattle.line_words.specs.Words.{words_of};
ghost use Rattle.session_script.specs.Lines.{side_letter, sync_word, WordsSay, WordsSayNone, LineSays, IsNoLine};
ghost use Rattle.session_script.specs.Next.{TakesSession, HasNoSession, HasNoSync, HasNoSide, EndsWithKey, EndsWithNoKey};

use crate::entries::batch_of;
use crate::fault::LineFault;
use crate::saying::{POLLS_MAX, Saying};
use crate::words::{next_number, next_word};
use batch_repr::{KEY_MAX, SESSIONS_MAX};
use disk_face::Side;
use line_words::{Pieces, is_end};
use session_replies::{Act, Line, StallLine};
use std::alloc::Global;
use wal_base::Blob;

/// Takes the number of a session off. `None` exactly where none comes next.
fn next_session(words: &mut Pieces<'_>) -> Option<u32>
    ensures some { IfSome result (λ session. TakesSession words.old session words.new) }
    ensures none { IfNone result (HasNoSession words.old) }
{
    next_number(words, 0, SESSIONS_MAX - 1)
}

/// Takes the word for whether a commit waits for a sync off. `None` exactly where none comes next.
fn next_sync(words: &mut Pieces<'_>) -> Option<bool>
    ensures some { IfSome result (λ sync. words.old ≡ sync_word sync ∷ words.new) }
    ensures none { IfNone result (HasNoSync words.old) }
{
    let word = words.next()?;
    if word == b"sync".as_slice() {
        Some(true)
    } else if word == b"nosync".as_slice() {
        Some(false)
    } else {
        None
    }
}

/// Takes the letter of a side off. `None` exactly where none comes next.
fn next_side(words: &mut Pieces<'_>) -> Option<Side>
    ensures some { IfSome result (λ side. words.old ≡ side_letter side ∷ words.new) }
    ensures none { IfNone result (HasNoSide words.old) }
{
    match words.next()? {
        b"p" => Some(Side::Primary),
        b"s" => Some(Side::Secondary),
        _ => None,
    }
}

/// The last word, if it is a key within its limit. It is bad exactly where it is none.
fn last_key(words: &mut Pieces<'_>) -> Result<Blob, LineFault>
    ensures key { IfOk result (EndsWithKey words.old) }
    ensures bad { IsErrOf result LineFault.Bad → EndsWithNoKey words.old }
{
    let key = next_word(words)?;
    if key.as_slice().len() <= KEY_MAX && is_end(words) {
        Ok(key)
    } else {
        Err(LineFault::Bad)
    }
}

/// What a line says whose first word is `commit`.
fn commit_of(alloc: Global, words: &mut Pieces<'_>) -> Result<Saying, LineFault>
    ensures says { IfOk result (WordsSay (codes "commit" ∷ words.old)) }
    ensures bad { IsErrOf result LineFault.Bad → WordsSayNone (codes "commit" ∷ words.old) }
{
    let session = next_session(words).ok_or(LineFault::Bad)?;
    let sync = next_sync(words).ok_or(LineFault::Bad)?;
    let batch = batch_of(alloc, words)?;
    Ok(Saying::Does {
        line: Line {
            session,
            act: Act::Commit { sync, batch },
        },
    })
}

/// What a line says whose first word is `get`.
fn get_of(words: &mut Pieces<'_>) -> Result<Saying, LineFault>
    ensures says { IfOk result (WordsSay (codes "get" ∷ words.old)) }
    ensures bad { IsErrOf result LineFault.Bad → WordsSayNone (codes "get" ∷ words.old) }
{
    let session = next_session(words).ok_or(LineFault::Bad)?;
    let key = last_key(words)?;
    Ok(Saying::Does {
        line: Line {
            session,
            act: Act::Get { key },
        },
    })
}

/// What a line says whose first word is `stall`.
fn stall_of(words: &mut Pieces<'_>) -> Option<Saying>
    ensures says { IfSome result (WordsSay (codes "stall" ∷ words.old)) }
    ensures bad { IfNone result (WordsSayNone (codes "stall" ∷ words.old)) }
{
    let side = next_side(words)?;
    let polls = next_number(words, 1, POLLS_MAX)?;
    if !is_end(words) {
        return None;
    }
    Some(Saying::Stalls {
        line: StallLine { side, polls },
    })
}

/// What the words of a line say.
fn saying_of(alloc: Global, line: &Blob) -> Result<Saying, LineFault>
    ensures says { IfOk result (WordsSay (words_of line.now)) }
    ensures bad { IsErrOf result LineFault.Bad → WordsSayNone (words_of line.now) }
{
    let mut words = Pieces::words(line);
    let verb = words.next().ok_or(LineFault::Bad)?;
    if verb == b"commit".as_slice() {
        return commit_of(alloc, &mut words);
    }
    if verb == b"get".as_slice() {
        return get_of(&mut words);
    }
    if verb == b"stall".as_slice() {
        return stall_of(&mut words).ok_or(LineFault::Bad);
    }
    if verb == b"round".as_slice() && is_end(&mut words) {
        return Ok(Saying::EndsRound);
    }
    if verb == b"halt".as_slice() && is_end(&mut words) {
        return Ok(Saying::Halts);
    }
    Err(LineFault::Bad)
}

/// What a line says: nothing, or what its words say.
pub(crate) fn said_by(alloc: Global, line: &Blob) -> Result<Option<Saying>, LineFault>
    ensures says { IfOk result (LineSays line.now) }
    ensures bad { IsErrOf result LineFault.Bad → IsNoLine line.now }
{
    let bytes = line.as_slice();
    if bytes.is_empty() || bytes[0] == b'#' {
        return Ok(None);
    }
    Ok(Some(saying_of(alloc, line)?))
}
