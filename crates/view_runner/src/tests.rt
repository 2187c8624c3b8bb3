ghost use Rattle.std.specs.Prelude.{◌≡◌};

use crate::view_text;
use batch_repr::{Batch, Batches, SharedEntries};
use std::alloc::Global;
use std::marker::Model;
use std::process::Abort;
use test_rigs::{Change, batch_of};
use view_script::{ViewLines, read_view};

/// Batches in a row from 10 on, and the number after them.
#[derive(Drop)]
struct Row {
    alloc: Global,
    batches: Batches,
    next: u64,
}

impl Model for Row {
    ghost use Rattle.std.specs.Prelude.{List};
    ghost use Rattle.batch_repr.specs.declared.batch.Batch.{Batch};
    ghost use Rattle.view_runner.specs.Rows.{IsTestRow};

    ghost Value = { List Batch };

    ghost view = { λ a. a.batches };

    ghost invariant = { λ a. IsTestRow a.batches a.next };
}

impl Row {
    fn new(alloc: Global) -> Row {
        Row {
            alloc,
            batches: Batches::new(alloc),
            next: 10,
        }
    }

    /// Adds a batch of these changes.
    fn add(&mut self, rt: &impl Abort, changes: &[Change<'_>]) {
        let made = batch_of(self.alloc, changes).expect(rt, "memory");
        let (_, entries) = made.into_parts();
        let entries = SharedEntries::of(self.alloc, entries.into_vec()).expect(rt, "memory");
        let first = self.next;
        let batch = Batch { first, entries };
        let count = batch.count();
        assert!(rt; first < 1_000_000);
        assert!(rt; 0 < count);
        assert!(rt; count < 1_000_000);
        self.batches.push(batch).expect(rt, "memory");
        self.next = first + count;
    }

    /// Lines over a view of them from 10 on have this text.
    fn says(&self, rt: &impl Abort, lines: &[u8], text: &[u8]) {
        let lines = lines_of(rt, self.alloc, lines);
        let said = view_text(self.alloc, &self.batches, 10, &lines).expect(rt, "memory");
        assert_eq!(rt; said.as_slice(), text);
    }

    /// The text is the same where the first try was refused memory.
    fn says_later(&self, rt: &impl Abort, lines: &[u8], text: &[u8]) {
        let lines = lines_of(rt, self.alloc, lines);
        let said = match view_text(self.alloc, &self.batches, 10, &lines) {
            Ok(said) => said,
            Err(_) => view_text(self.alloc, &self.batches, 10, &lines).expect(rt, "memory"),
        };
        assert_eq!(rt; said.as_slice(), text);
    }
}

fn lines_of(rt: &impl Abort, alloc: Global, lines: &[u8]) -> ViewLines {
    match read_view(alloc, lines) {
        Ok(lines) => lines,
        Err(_) => panic!(rt; "lines"),
    }
}

/// Two accounts, of which one is closed by the second batch, at 12.
fn accounts(rt: &impl Abort, alloc: Global) -> Row {
    let mut row = Row::new(alloc);
    let opened = [
        Change::Set(b"acct/1", b"90"),
        Change::Set(b"acct/2", b"110"),
    ];
    row.add(rt, &opened);
    row.add(rt, &[Change::Delete(b"acct/1")]);
    row
}

#[test]
fn a_held_number_outlasts_a_purge(rt: HostRuntime) {
    let lines = b"hold 12\nhold 13\nget 0 acct/1\nget 1 acct/1\nscan 0\npurge\n\
        release 0\npurge\nhold 12\nget 0 acct/1\n";
    let text = b"hold 0 @12\nhold 1 @13\nget acct/1 = 90 @12\nget acct/1 none @13\n\
        acct/1 = 90\nacct/2 = 110\nend scan 2 @12\npurge 0\nrelease 0\npurge 1\nhold gone 13\nnot held\n";
    accounts(&rt, rt.alloc()).says(&rt, lines, text);
}

#[test]
fn a_line_that_is_refused_is_counted_and_holds_nothing(rt: HostRuntime) {
    let lines = b"hold 14\nhold 13\nget 0 a\nget 1 acct/2\nscan 1 b\n";
    let text = b"hold above 13\nhold 1 @13\nnot held\nget acct/2 = 110 @13\nend scan 0 @13\n";
    accounts(&rt, rt.alloc()).says(&rt, lines, text);
    Row::new(rt.alloc()).says(&rt, b"hold 11\n", b"hold above 10\n");
}

#[test]
fn no_other_hold_is_let_go(rt: HostRuntime) {
    let lines = b"release 0\nhold 12\nhold 12\nrelease 0\nrelease 0\nget 1 acct/1\n\
        scan 18446744073709551615\nhold 9\n";
    let text = b"not held\nhold 0 @12\nhold 1 @12\nrelease 0\nnot held\nget acct/1 = 90 @12\n\
        not held\nhold gone 10\n";
    accounts(&rt, rt.alloc()).says(&rt, lines, text);
}

#[test]
fn bytes_are_printed_with_their_escapes(rt: HostRuntime) {
    let mut row = Row::new(rt.alloc());
    row.add(&rt, &[Change::Set(b"\\", b"a b"), Change::Set(b"c", b"")]);
    let lines = b"hold 12\nget 0 \\\nscan 0\n";
    let text = b"hold 0 @12\nget \\x5c = a\\x20b @12\n\\x5c = a\\x20b\nc = \\e\nend scan 2 @12\n";
    row.says(&rt, lines, text);
}

/// Carries lines out, once more where that was refused memory. An allocation is refused only where that is asked for:
/// `rt try --test --fail-alloc N`.
#[test]
fn lines_that_were_refused_memory_are_carried_out_later(rt: HostRuntime) {
    let row = accounts(&rt, rt.alloc());
    let lines = b"hold 12\nscan 0\nrelease 0\npurge\n";
    row.says_later(
        &rt,
        lines,
        b"hold 0 @12\nacct/1 = 90\nacct/2 = 110\nend scan 2 @12\nrelease 0\npurge 1\n",
    );
}
