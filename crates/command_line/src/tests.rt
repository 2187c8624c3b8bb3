use crate::{Command, WordsFault, read_command};
use std::alloc::{AllocError, Global};
use std::process::Abort;

fn words_of(alloc: Global, words: &[&str]) -> Result<Vec<String>, AllocError> {
    let mut owned = Vec::new(alloc);
    for word in words {
        owned.push(String::from_str(alloc, word)?)?;
    }
    Ok(owned)
}

/// What the words are read as.
fn read(alloc: Global, words: &[&str]) -> Result<Command, WordsFault> {
    let Ok(words) = words_of(alloc, words) else {
        return Err(WordsFault::NoMemory);
    };
    read_command(alloc, words.as_slice())
}

/// Asserts that the words are this command.
fn check(rt: &impl Abort, alloc: Global, words: &[&str], command: Command) {
    assert_eq!(rt; read(alloc, words), Ok(command));
}

/// Asserts that the words are a replay with this threshold.
fn check_replay(rt: &impl Abort, alloc: Global, words: &[&str], threshold: u32) {
    check(rt, alloc, words, Command::Replay { threshold });
}

/// Asserts that the words are a load of so many batches from this seed.
fn check_load(rt: &impl Abort, alloc: Global, words: &[&str], seed: u64, batches: u32) {
    check(rt, alloc, words, Command::Load { seed, batches });
}

#[test]
fn words_are_the_commands_of_the_table(rt: HostRuntime) {
    let alloc = rt.alloc();
    check_replay(&rt, alloc, &["replay"], 3);
    check_replay(&rt, alloc, &["replay", "--threshold", "1000"], 1_000);
    check_replay(
        &rt,
        alloc,
        &["replay", "--threshold=00000000000000000012"],
        12,
    );
    check(&rt, alloc, &["recover"], Command::Recover);
    check(&rt, alloc, &["dump"], Command::Dump);
    check(&rt, alloc, &["flush"], Command::Flush);
    check(&rt, alloc, &["view"], Command::View);
    check(&rt, alloc, &["ship"], Command::Ship);
    check_load(&rt, alloc, &["load", "7", "1"], 7, 1);
    check_load(&rt, alloc, &["load", "0", "2000000"], 0, 2_000_000);
    check_load(
        &rt,
        alloc,
        &["load", "18446744073709551615", "3"],
        u64::MAX,
        3,
    );
}

/// Words that are no command: none, or one too many, or too few; `clap`'s own words; a second threshold, a sign, and the
/// end of the options.
const NO_COMMANDS: &[&[&str]] = &[
    &[],
    &["rep"],
    &["recover", "--threshold", "3"],
    &["flush", "1"],
    &["view", "hold"],
    &["ship", "x"],
    &["replay", "3"],
    &["load", "7"],
    &["load", "7", "1", "1"],
    &["--help"],
    &["help", "replay"],
    &["replay", "-h"],
    &["-V"],
    &["replay", "--threshold"],
    &["replay", "--thresh", "3"],
    &["replay", "--threshold=3", "--threshold", "3"],
    &["replay", "--threshold", "-3"],
    &["load", "+7", "1"],
    &["--", "replay"],
    &["load", "7", "1", "--"],
];

/// Words with a number past its limit, or with too many digits.
const NUMBERS_PAST: &[&[&str]] = &[
    &["replay", "--threshold=0"],
    &["replay", "--threshold", "1001"],
    &["replay", "--threshold=000000000000000000003"],
    &["load", "7", "0"],
    &["load", "7", "2000001"],
    &["load", "18446744073709551616", "1"],
];

/// Asserts that each of these words are no command.
fn check_none(rt: &impl Abort, alloc: Global, rows: &[&[&str]]) {
    for words in rows {
        assert_eq!(rt; read(alloc, words), Err(WordsFault::Usage));
    }
}

#[test]
fn other_words_are_no_command(rt: HostRuntime) {
    check_none(&rt, rt.alloc(), NO_COMMANDS);
}

#[test]
fn numbers_past_a_limit_are_no_command(rt: HostRuntime) {
    check_none(&rt, rt.alloc(), NUMBERS_PAST);
}

/// Reads a command twice. An allocation is refused only where that is asked for, and then once:
/// `rt try --test --fail-alloc N`.
#[test]
fn a_parse_that_lacks_memory_says_so(rt: HostRuntime) {
    let words: [&str; 3] = ["replay", "--threshold", "7"];
    let wanted = Ok(Command::Replay { threshold: 7 });
    let first = read(rt.alloc(), &words);
    let second = read(rt.alloc(), &words);
    let lacks = Err(WordsFault::NoMemory);
    assert!(rt; first == wanted || first == lacks);
    assert!(rt; second == wanted || second == lacks);
    assert!(rt; first == wanted || second == wanted);
}
