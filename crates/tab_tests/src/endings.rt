//! How runs end: their counts, their faults, and the numbers of the tables in their histories.

use crate::drivers::{ByteSink, ByteSource, run_over};
use std::alloc::{AllocError, Global};
use std::test::Fail;
use tab_drive::Ended;
use tab_history::{Entry, History};
use tab_outside::{MemSink, MemSource};

const MAKE_GOODS: &str =
    "POST /shop/Tables HTTP/1.1\r\nContent-Length: 21\r\n\r\n{\"TableName\":\"Goods\"}";

const MAKE_OTHER: &str =
    "POST /shop/Tables HTTP/1.1\r\nContent-Length: 21\r\n\r\n{\"TableName\":\"Other\"}";

const DROP_GOODS: &str = "DELETE /shop/Tables('Goods') HTTP/1.1\r\n\r\n";

const INSERT: &str =
    "POST /shop/Goods HTTP/1.1\r\nContent-Length: 46\r\n\r\n{\"PartitionKey\":\"p\",\"RowKey\":\"r\",\"Name\":\"Saw\"}";

const QUERY: &str = "GET /shop/Goods() HTTP/1.1\r\n\r\n";

fn add_call(text: &mut String, message: &str) -> Result<(), AllocError> {
    write!(text, "call {}\n{message}\n", message.len())
}

/// A schedule that sets the moment, hands these messages in, and ends so.
fn schedule(alloc: Global, messages: &[&str], last: &str) -> Result<Vec<u8>, AllocError> {
    let mut text = String::from_str(alloc, "now 130216075262608595\n")?;
    for message in messages {
        add_call(&mut text, message)?;
    }
    text.push_str(last)?;
    Ok(text.into_bytes())
}

/// A run over a schedule in memory.
#[derive(Drop)]
struct Ran {
    ended: Ended,
    sink: MemSink,
}

/// Runs a schedule, with faults at these reads and writes.
fn run_bytes(
    alloc: Global,
    bytes: Vec<u8>,
    reads: Vec<u64>,
    writes: Vec<u64>,
) -> Result<Ran, AllocError> {
    let mut source = MemSource::new(bytes, reads);
    let mut sink = MemSink::new(alloc, writes);
    let ended = run_over(alloc, &mut source, &mut sink)?;
    Ok(Ran { ended, sink })
}

/// Runs a schedule of these messages without faults.
fn run_messages(alloc: Global, messages: &[&str], last: &str) -> Result<Ran, AllocError> {
    let bytes = schedule(alloc, messages, last)?;
    run_bytes(alloc, bytes, Vec::new(alloc), Vec::new(alloc))
}

/// A run's status, how many events were done, and how many entries the history has.
fn counts(ended: &Ended) -> (u8, u64, usize) {
    (ended.status, ended.done, ended.history.len())
}

fn ends(alloc: Global, messages: &[&str], last: &str) -> Result<(u8, u64, usize), AllocError> {
    let ran = run_messages(alloc, messages, last)?;
    Ok(counts(&ran.ended))
}

// An entry opens the history. A creation has one entry, and another request for a table two: the look-up of its name, and
// what came of it, where the name is found.
#[test]
fn events_and_entries_are_counted(rt: HostRuntime) -> Result<(), Fail> {
    let alloc = rt.alloc();
    assert!(rt; ends(alloc, &[MAKE_GOODS, INSERT, QUERY], "end\n") == Ok((0, 4, 6)));
    assert!(rt; ends(alloc, &[MAKE_GOODS, MAKE_GOODS], "end\n") == Ok((0, 3, 3)));
    assert!(rt; ends(alloc, &[QUERY, MAKE_GOODS], "end\n") == Ok((0, 3, 3)));
    assert!(rt; ends(alloc, &["POST /shop", "", MAKE_GOODS], "end\n") == Ok((0, 4, 2)));
    assert!(rt; ends(alloc, &[MAKE_GOODS], "bogus\n") == Ok((2, 2, 2)));
    assert!(rt; ends(alloc, &[], "") == Ok((2, 1, 1)));
    Ok(())
}

/// Whether the run has that status and output, when nothing was done yet.
fn is_cut(ran: &Ran, status: u8, output: &str) -> bool {
    counts(&ran.ended) == (status, 0, 1) && ran.sink.bytes() == output.as_bytes()
}

fn first_read_fails(alloc: Global) -> Result<bool, AllocError> {
    let bytes = schedule(alloc, &[MAKE_GOODS], "end\n")?;
    let reads = Vec::from_slice(alloc, [1].as_slice())?;
    let ran = run_bytes(alloc, bytes, reads, Vec::new(alloc))?;
    Ok(is_cut(&ran, 3, "read fault\n"))
}

fn first_write_fails(alloc: Global) -> Result<bool, AllocError> {
    let bytes = schedule(alloc, &[MAKE_GOODS], "end\n")?;
    let writes = Vec::from_slice(alloc, [1].as_slice())?;
    let ran = run_bytes(alloc, bytes, Vec::new(alloc), writes)?;
    Ok(is_cut(&ran, 4, ""))
}

#[test]
fn a_fault_ends_the_run(rt: HostRuntime) -> Result<(), Fail> {
    assert!(rt; first_read_fails(rt.alloc()) == Ok(true));
    assert!(rt; first_write_fails(rt.alloc()) == Ok(true));
    Ok(())
}

/// Runs a schedule by single bytes, and tells whether it ends well with that output.
fn runs_bytewise(alloc: Global, bytes: Vec<u8>, output: &[u8]) -> Result<bool, AllocError> {
    let mut source = ByteSource { bytes, offset: 0 };
    let mut sink = ByteSink::new(alloc);
    let ended = run_over(alloc, &mut source, &mut sink)?;
    Ok(counts(&ended) == (0, 4, 6) && sink.bytes.as_slice() == output)
}

fn is_same_bytewise(alloc: Global, messages: &[&str]) -> Result<bool, AllocError> {
    let ran = run_messages(alloc, messages, "end\n")?;
    let bytes = schedule(alloc, messages, "end\n")?;
    runs_bytewise(alloc, bytes, ran.sink.bytes())
}

#[test]
fn bytes_one_by_one_make_the_same_run(rt: HostRuntime) -> Result<(), Fail> {
    assert!(rt; is_same_bytewise(rt.alloc(), &[MAKE_GOODS, INSERT, QUERY]) == Ok(true));
    Ok(())
}

/// The numbers that the creations of a history have.
fn table_numbers(alloc: Global, history: &[Entry]) -> Result<Vec<Option<u64>>, AllocError> {
    let mut found = Vec::new(alloc);
    for entry in history {
        if let Entry::Create { result, .. } = entry {
            found.push(*result)?;
        }
    }
    Ok(found)
}

fn has_numbers(alloc: Global, history: History, due: &[Option<u64>]) -> Result<bool, AllocError> {
    let entries = history.into_vec(alloc).map_err(|_| AllocError)?;
    let found = table_numbers(alloc, entries.as_slice())?;
    Ok(found.as_slice() == due)
}

fn makes_numbers(
    alloc: Global,
    messages: &[&str],
    due: &[Option<u64>],
) -> Result<bool, AllocError> {
    let ran = run_messages(alloc, messages, "end\n")?;
    has_numbers(alloc, ran.ended.history, due)
}

#[test]
fn the_number_of_a_dropped_table_does_not_come_again(rt: HostRuntime) -> Result<(), Fail> {
    let messages = [MAKE_GOODS, DROP_GOODS, MAKE_GOODS, MAKE_GOODS, MAKE_OTHER];
    let due = [Some(1), Some(2), None, Some(3)];
    assert!(rt; makes_numbers(rt.alloc(), messages.as_slice(), due.as_slice()) == Ok(true));
    Ok(())
}
