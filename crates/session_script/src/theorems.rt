//! Laws of scripts that no single call says.

ghost use Rattle.session_script.specs.Theorems.{BytesAreOneScript, ScriptsHaveNoBadLine, OneLineIsFirstBad};
ghost use Rattle.session_script.specs.Theorems.{ScriptsNameTheirSessions, ScriptsTakeFewNumbers};

/// Bytes are one script at most.
pub fn bytes_are_one_script()
    ensures { BytesAreOneScript }
{}

/// Bytes that are a script have no bad line, and others have one first bad line at most.
pub fn bytes_have_one_first_bad_line()
    ensures none { ScriptsHaveNoBadLine }
    ensures one { OneLineIsFirstBad }
{}

/// Each line of a script is of a session that the script counts, and the script takes no more numbers than it has
/// bytes, and one.
pub fn a_script_counts_its_sessions_and_few_numbers()
    ensures sessions { ScriptsNameTheirSessions }
    ensures numbers { ScriptsTakeFewNumbers }
{}
