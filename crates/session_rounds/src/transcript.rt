//! What is said to lines, as it is told.

ghost use Rattle.std.specs.Prelude.{◌≡◌, IfOk, OnOk};
ghost use Rattle.session_rounds.specs.Transcripts.{blank_of, with_told, IsEmptyTranscript, IsSilentTranscript, NotesReply};

use session_replies::{Said, put_reply};
use std::alloc::Global;
use wal_base::{Buf, NoMemory};

/// So many bytes are made room for at first for the reply to a line.
const LINE_ROOM: usize = 32;

/// The replies to lines so far.
#[derive(Debug, Drop)]
pub struct Transcript {
    /// Their lines, one after another, where they are kept.
    pub text: Option<Buf>,
    /// Whether one of them tells of a limit.
    pub limited: bool,
}

impl Transcript {
    /// Holds no reply.
    pub fn new(alloc: Global) -> Result<Transcript, NoMemory>
        ensures { IfOk result IsEmptyTranscript }
    {
        Ok(Transcript {
            text: Some(Buf::new(alloc)?),
            limited: false,
        })
    }

    /// Holds no reply, and keeps no line.
    pub fn silent() -> Transcript
        ensures { IsSilentTranscript result }
    {
        Transcript {
            text: None,
            limited: false,
        }
    }

    /// Holds no reply, and keeps lines just where this one does. Room for so many of them is made now, and none for no line.
    pub(crate) fn blank(&self, alloc: Global, lines: usize) -> Result<Transcript, NoMemory>
        ensures { IfOk result (λ blank. blank ≡ blank_of self.now) }
    {
        let text = match self.text {
            Some(_) => Some(Buf::with_capacity(alloc, lines.saturating_mul(LINE_ROOM))?),
            None => None,
        };
        Ok(Transcript {
            text,
            limited: false,
        })
    }

    /// Adds the reply to a line of this session.
    pub(crate) fn note(&mut self, session: u32, said: Said) -> Result<(), NoMemory>
        ensures { OnOk result (NotesReply session said self.old self.new) }
    {
        if let Some(text) = &mut self.text {
            put_reply(text, session, &said)?;
        }
        if let Said::Limit = said {
            self.limited = true;
        }
        Ok(())
    }

    /// Adds the replies of another one after these.
    pub(crate) fn join(&mut self, more: Transcript) -> Result<(), NoMemory>
        ensures { OnOk result (self.new ≡ with_told self.old more) }
    {
        if let (Some(text), Some(more)) = (&mut self.text, &more.text) {
            text.append(more.as_slice())?;
        }
        self.limited |= more.limited;
        Ok(())
    }
}
