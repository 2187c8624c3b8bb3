//! A text, written whole.

ghost use Rattle.std.specs.Prelude.{IsErrOf, OnOk};
ghost use Rattle.wal_base.specs.Faults.{HasCause};
ghost use Rattle.wal_top.specs.Run.{Wrote, WrotePart};

use wal_base::{PutErr, Sink};

/// Writes all of a text, or a front of it at an `Err`.
pub(crate) fn write_all<K: Sink>(out: &mut K, text: &[u8]) -> Result<(), PutErr>
    ensures whole { OnOk result (Wrote (K.written out.old) (K.written out.new) text.now) }
    ensures part { WrotePart (K.written out.old) (K.written out.new) text.now }
    ensures fault { HasCause (IsErrOf result PutErr.Failed) (K.faults out.old) (K.faults out.new) }
    ensures shortage { HasCause (IsErrOf result PutErr.NoMemory)
        (K.shortages out.old) (K.shortages out.new) }
{
    let mut rest = text;
    while !rest.is_empty() {
        let count = out.put(rest)?;
        rest = &rest[count..];
    }
    Ok(())
}
