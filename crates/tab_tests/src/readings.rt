//! Events that are read, with all that is left behind them.

use crate::drivers::ByteSource;
use std::alloc::{AllocError, Global};
use std::test::Fail;
use tab_drive::{NextEvent, Scheduled, Unread, next_event};
use tab_outside::{MemSource, Source, fill};

/// What is to be read.
#[derive(Clone, Copy)]
enum Wanted {
    End,
    Now(u64),
    Call(&'static [u8]),
    /// A call with a message of so many bytes.
    Sized(usize),
    Refused(Unread),
}

fn is_event(event: &Scheduled, wanted: Wanted) -> bool {
    match (event, wanted) {
        (Scheduled::Now { moment }, Wanted::Now(other)) => *moment == other,
        (Scheduled::Call { message }, Wanted::Call(bytes)) => message.as_slice() == bytes,
        (Scheduled::Call { message }, Wanted::Sized(size)) => message.as_slice().len() == size,
        _ => false,
    }
}

fn is_wanted(read: &Result<NextEvent, Unread>, wanted: Wanted) -> bool {
    match (read, wanted) {
        (Ok(NextEvent::End), Wanted::End) => true,
        (Ok(NextEvent::Event(event)), _) => is_event(event, wanted),
        (Err(refused), Wanted::Refused(other)) => *refused == other,
        _ => false,
    }
}

/// Whether that is read next.
fn reads_next<S: Source>(alloc: Global, source: &mut S, wanted: Wanted) -> bool {
    let read = next_event(alloc, source);
    is_wanted(&read, wanted)
}

/// Whether all that is left is this.
fn leaves<S: Source>(alloc: Global, source: &mut S, rest: &[u8]) -> bool {
    let mut left = Vec::new(alloc);
    let _ = fill(source, 1_000_000, &mut left);
    left.as_slice() == rest
}

/// Whether one event is read, and behind it that is left.
fn reads<S: Source>(alloc: Global, source: &mut S, wanted: Wanted, rest: &[u8]) -> bool {
    reads_next(alloc, source, wanted) && leaves(alloc, source, rest)
}

/// Whether one event is read where these reads fail.
fn reads_bytes(
    alloc: Global,
    bytes: Vec<u8>,
    fails: Vec<u64>,
    wanted: Wanted,
    rest: &[u8],
) -> bool {
    let mut source = MemSource::new(bytes, fails);
    reads(alloc, &mut source, wanted, rest)
}

fn reads_bytewise(alloc: Global, bytes: Vec<u8>, wanted: Wanted, rest: &[u8]) -> bool {
    let mut source = ByteSource { bytes, offset: 0 };
    reads(alloc, &mut source, wanted, rest)
}

/// Whether one event of a text is read, by pieces and byte by byte.
fn reads_text(alloc: Global, text: &str, wanted: Wanted, rest: &str) -> Result<bool, AllocError> {
    let bytes = Vec::from_slice(alloc, text.as_bytes())?;
    let again = Vec::from_slice(alloc, text.as_bytes())?;
    Ok(
        reads_bytes(alloc, bytes, Vec::new(alloc), wanted, rest.as_bytes())
            && reads_bytewise(alloc, again, wanted, rest.as_bytes()),
    )
}

#[test]
fn an_event_is_read_and_no_byte_behind_it(rt: HostRuntime) -> Result<(), Fail> {
    let alloc = rt.alloc();
    let call = Wanted::Call(b"a\nb\n");
    assert!(rt; reads_text(alloc, "end\nnow 5\n", Wanted::End, "now 5\n") == Ok(true));
    assert!(rt; reads_text(alloc, "now 5\nend\n", Wanted::Now(5), "end\n") == Ok(true));
    assert!(rt; reads_text(alloc, "call 4\na\nb\n\nnow 1\n", call, "now 1\n") == Ok(true));
    Ok(())
}

fn refuses(alloc: Global, text: &str, rest: &str) -> Result<bool, AllocError> {
    reads_text(alloc, text, Wanted::Refused(Unread::NoEvent), rest)
}

#[test]
fn a_refused_event_is_read_to_where_that_shows(rt: HostRuntime) -> Result<(), Fail> {
    let alloc = rt.alloc();
    assert!(rt; refuses(alloc, "bogus\nend\n", "end\n") == Ok(true));
    assert!(rt; refuses(alloc, "call 4227073\nabc\n", "abc\n") == Ok(true));
    assert!(rt; refuses(alloc, "call 3\nabcd\nend\n", "\nend\n") == Ok(true));
    assert!(rt; refuses(alloc, "call 4227072\nabc", "") == Ok(true));
    Ok(())
}

/// A text, then a byte so often, and then another text.
fn long(
    alloc: Global,
    front: &str,
    byte: u8,
    size: usize,
    rest: &str,
) -> Result<Vec<u8>, AllocError> {
    let mut bytes = Vec::from_slice(alloc, front.as_bytes())?;
    bytes.resize(front.len().saturating_add(size), byte)?;
    bytes.extend_from_slice(rest.as_bytes())?;
    Ok(bytes)
}

/// Whether a line of so many bytes is refused, and that is left.
fn refuses_line(alloc: Global, size: usize, rest: &str) -> Result<bool, AllocError> {
    let bytes = long(alloc, "", b'a', size, "\nend\n")?;
    let wanted = Wanted::Refused(Unread::NoEvent);
    Ok(reads_bytes(alloc, bytes, Vec::new(alloc), wanted, rest.as_bytes()))
}

#[test]
fn a_line_has_at_most_16384_bytes(rt: HostRuntime) -> Result<(), Fail> {
    assert!(rt; refuses_line(rt.alloc(), 16_384, "end\n") == Ok(true));
    assert!(rt; refuses_line(rt.alloc(), 16_385, "\nend\n") == Ok(true));
    assert!(rt; refuses_line(rt.alloc(), 16_386, "a\nend\n") == Ok(true));
    Ok(())
}

fn reads_longest(alloc: Global) -> Result<bool, AllocError> {
    let bytes = long(alloc, "call 4227072\n", b'm', 4_227_072, "\nend\n")?;
    Ok(reads_bytes(
        alloc,
        bytes,
        Vec::new(alloc),
        Wanted::Sized(4_227_072),
        b"end\n",
    ))
}

#[test]
fn the_longest_message_is_read(rt: HostRuntime) -> Result<(), Fail> {
    assert!(rt; reads_longest(rt.alloc()) == Ok(true));
    Ok(())
}

/// Whether a read that fails ends the reading, and that is left.
fn fails(alloc: Global, read: u64, rest: &[u8]) -> Result<bool, AllocError> {
    let bytes = Vec::from_slice(alloc, b"call 3\nabc\n".as_slice())?;
    let fails = Vec::from_slice(alloc, [read].as_slice())?;
    Ok(reads_bytes(alloc, bytes, fails, Wanted::Refused(Unread::Fault), rest))
}

#[test]
fn a_failed_read_is_no_end_of_input(rt: HostRuntime) -> Result<(), Fail> {
    assert!(rt; fails(rt.alloc(), 1, b"call 3\nabc\n") == Ok(true));
    assert!(rt; fails(rt.alloc(), 6, b"3\nabc\n") == Ok(true));
    assert!(rt; fails(rt.alloc(), 8, b"abc\n") == Ok(true));
    assert!(rt; fails(rt.alloc(), 9, b"\n") == Ok(true));
    Ok(())
}
