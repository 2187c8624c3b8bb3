use crate::{
    Blob, Buf, Entries, Entry, ListOf, MemSink, MemSource, NoMemory, PutErr, ReadFault, Sink,
    Source, StdSink, StdSource,
};
use std::alloc::Global;
use std::io;
use std::io::{ErrorKind, Read, Write};
use std::process::Abort;

/// What a source hands out to a buffer of two bytes.
fn next_two<S: Source>(source: &mut S) -> (Result<usize, ReadFault>, [u8; 2]) {
    let mut buf = [0u8; 2];
    (source.take(&mut buf), buf)
}

fn put_in<K: Sink>(sink: &mut K, bytes: &[u8]) -> Result<usize, PutErr> {
    sink.put(bytes)
}

#[test]
fn a_buffer_grows_and_is_cut(rt: HostRuntime) -> Result<(), NoMemory> {
    let mut buf = Buf::with_capacity(rt.alloc(), 2)?;
    buf.append(b"ab")?;
    buf.append(b"cd")?;
    buf.truncate(3);
    assert_eq!(rt; buf.as_slice(), b"abc".as_slice());
    buf.clear();
    assert!(rt; buf.as_slice().is_empty());
    Ok(())
}

fn is_sent<T: Send>(_: &T) -> bool {
    true
}

/// A part of a part of bytes that are let go.
fn inner_part(alloc: Global) -> Result<Blob, NoMemory> {
    let whole = Blob::of_vec(alloc, Vec::from_slice(alloc, b"abcdef")?)?;
    let middle = whole.part(1, 5)?;
    drop(whole);
    middle.part(1, 3)?.share()
}

#[test]
fn a_part_outlives_its_whole(rt: HostRuntime) -> Result<(), NoMemory> {
    let inner = inner_part(rt.alloc())?;
    assert_eq!(rt; inner.as_slice(), b"cd".as_slice());
    assert_eq!(rt;
        format!(in rt.alloc(); "{inner:?}")?.as_str(),
        "Blob([99, 100])"
    );
    assert!(rt; is_sent(&inner));
    Ok(())
}

#[test]
fn a_list_holds_entries(rt: HostRuntime) -> Result<(), NoMemory> {
    let key = Blob::copy_of(rt.alloc(), b"k")?;
    let mut entries = Entries::with_capacity(rt.alloc(), 1)?;
    assert!(rt; entries.push(Entry::Delete { key }).is_ok());
    assert!(rt; !entries.is_empty());
    Ok(())
}

#[test]
fn a_list_keeps_its_items_in_order(rt: HostRuntime) {
    let mut numbers: ListOf<u64> = ListOf::new(rt.alloc());
    for n in [3, 4, 5] {
        assert!(rt; numbers.push(n).is_ok());
    }
    assert_eq!(rt; numbers.pop(), Some(5));
    assert_eq!(rt; (numbers.len(), numbers.get(1).copied()), (2, Some(4)));
    assert_eq!(rt; numbers.as_slice(), [3, 4].as_slice());
    assert_eq!(rt; numbers.into_vec().as_slice(), [3, 4].as_slice());
}

fn fails_at_its_second_take(rt: &impl Abort, source: &mut MemSource) {
    source.fail_at(7);
    source.fail_at(1);
    assert_eq!(rt; next_two(source), (Ok(2), *b"ab"));
    assert_eq!(rt; next_two(source).0, Err(ReadFault));
    assert_eq!(rt; next_two(source), (Ok(1), *b"c\0"));
}

fn fails_at_its_second_put(rt: &impl Abort, sink: &mut MemSink) {
    sink.fail_at(1);
    assert_eq!(rt; put_in(sink, b"ab"), Ok(2));
    assert_eq!(rt; put_in(sink, b"cd"), Err(PutErr::Failed));
    assert_eq!(rt; put_in(sink, b"ef"), Ok(2));
    assert_eq!(rt; sink.written(), b"abef".as_slice());
}

#[test]
fn streams_in_memory_fail_once_where_they_were_told(rt: HostRuntime) -> Result<(), NoMemory> {
    let mut source = MemSource::new(Blob::copy_of(rt.alloc(), b"abc")?);
    fails_at_its_second_take(&rt, &mut source);
    let mut sink = MemSink::new(rt.alloc())?;
    fails_at_its_second_put(&rt, &mut sink);
    Ok(())
}

/// The standard streams' types, over a reader and a writer in memory.
fn copies_over(rt: &impl Abort, input: &[u8], output: &mut [u8]) {
    let mut source = StdSource::new(input);
    assert_eq!(rt; next_two(&mut source), (Ok(2), *b"ab"));
    let mut sink = StdSink::new(output);
    assert_eq!(rt; put_in(&mut sink, b"wxyz"), Ok(3));
    assert_eq!(rt; put_in(&mut sink, b"z"), Err(PutErr::Failed));
}

/// Refuses its first calls by that kind of error, and then gives one byte a call, or takes one.
#[derive(Drop)]
struct Refusing {
    refusals: u32,
    kind: ErrorKind,
    bytes: [u8; 1],
}

impl Refusing {
    fn twice(kind: ErrorKind) -> Refusing {
        Refusing {
            refusals: 2,
            kind,
            bytes: *b"a",
        }
    }

    fn refuses(&mut self) -> bool {
        let refused = self.refusals > 0;
        self.refusals = self.refusals.saturating_sub(1);
        refused
    }
}

impl Read for Refusing {
    fn read(&mut self, buf: &mut [u8]) -> io::Result<usize> {
        if self.refuses() {
            return Err(io::Error::from(self.kind));
        }
        if buf.is_empty() {
            return Ok(0);
        }
        buf[0] = self.bytes[0];
        Ok(1)
    }
}

impl Write for Refusing {
    fn write(&mut self, buf: &[u8]) -> io::Result<usize> {
        if self.refuses() {
            return Err(io::Error::from(self.kind));
        }
        if buf.is_empty() {
            return Ok(0);
        }
        self.bytes[0] = buf[0];
        Ok(1)
    }

    fn flush(&mut self) -> io::Result<()> {
        Ok(())
    }
}

/// A source over a reader that refuses twice: so many of the refusals are faults.
fn takes_in_the_end(rt: &impl Abort, source: &mut StdSource<Refusing>, faults: u64) {
    for _ in 0..faults {
        assert_eq!(rt; next_two(source).0, Err(ReadFault));
    }
    assert_eq!(rt; next_two(source), (Ok(1), *b"a\0"));
    assert_eq!(rt; source.faults, faults);
}

/// The same of a sink.
fn puts_in_the_end(rt: &impl Abort, sink: &mut StdSink<Refusing>, faults: u64) {
    for _ in 0..faults {
        assert_eq!(rt; put_in(sink, b"bc"), Err(PutErr::Failed));
    }
    assert_eq!(rt; put_in(sink, b"bc"), Ok(1));
    assert_eq!(rt; sink.faults, faults);
}

#[test]
fn each_refusal_of_a_standard_stream_is_a_fault(rt: HostRuntime) {
    let mut source = StdSource::new(Refusing::twice(ErrorKind::ConnectionReset));
    takes_in_the_end(&rt, &mut source, 2);
    let mut sink = StdSink::new(Refusing::twice(ErrorKind::ConnectionReset));
    puts_in_the_end(&rt, &mut sink, 2);
}

#[test]
fn an_interrupted_call_of_a_standard_stream_is_no_fault(rt: HostRuntime) {
    let mut source = StdSource::new(Refusing::twice(ErrorKind::Interrupted));
    takes_in_the_end(&rt, &mut source, 0);
    let mut sink = StdSink::new(Refusing::twice(ErrorKind::Interrupted));
    puts_in_the_end(&rt, &mut sink, 0);
}

#[test]
fn standard_streams_pass_on_what_they_are_over(rt: HostRuntime) {
    let mut output = [0u8; 3];
    copies_over(&rt, b"abc", &mut output);
    assert_eq!(rt; output, *b"wxy");
}
