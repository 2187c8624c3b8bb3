//! Laws of the commands that no single call says.

ghost use Rattle.command_line.specs.Commands.{WordsAreOneCommand};

/// Words are one command at most.
pub fn words_are_one_command()
    ensures { WordsAreOneCommand }
{}
