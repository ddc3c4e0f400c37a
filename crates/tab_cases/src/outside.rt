//! Cases of sources and sinks in memory, of whose calls the listed ones fail.

use crate::answers::{Answer, counted, field, number, told, unknown};
use crate::stops::{NO_MEMORY, Stop};
use crate::values::add_part;
use crate::walks::split_word;
use std::alloc::Global;
use std::str;
use tab_http::write_reply;
use tab_outside::{
    Failed, FillRefused, MemSink, MemSource, Sink, Source, fill, read_byte, write_all,
};

/// The longest buffer of a read.
const LONGEST_BUFFER: usize = 64;

/// `source FAILS | BYTES | CALL ..` and `sink FAILS | CALL ..`: what the calls answer, one after another.
pub fn answer(alloc: Global, word: &str, fields: &[String]) -> Answer {
    match word {
        "source" => source(alloc, fields),
        "sink" => sink(alloc, fields),
        _ => unknown(),
    }
}

/// The numbers of the calls that fail.
pub fn calls(alloc: Global, fails: &str) -> Result<Vec<u64>, Stop> {
    let mut calls = Vec::new(alloc);
    for call in fails.split_whitespace() {
        push_call(&mut calls, call)?;
    }
    Ok(calls)
}

fn push_call(calls: &mut Vec<u64>, call: &str) -> Result<(), Stop> {
    let call = number(call)?;
    calls.push(call)?;
    Ok(())
}

fn size(text: &str) -> Result<usize, Stop> {
    match text.parse::<usize>() {
        Ok(size) => Ok(size),
        Err(_) => Err(Stop::Unread("a size is wanted")),
    }
}

/// So many dashes.
fn buffer(alloc: Global, text: &str) -> Result<Vec<u8>, Stop> {
    let size = size(text)?.min(LONGEST_BUFFER);
    Ok(vec![in alloc; b'-'; size]?)
}

/// How many bytes came, and the buffer.
fn read_text(alloc: Global, count: Result<usize, Failed>, buffer: &[u8]) -> Answer {
    match count {
        Ok(count) => {
            let came = counted(alloc, "", count as u64, " bytes, ")?;
            told(
                alloc,
                &[came.as_str(), str::from_utf8(buffer).unwrap_or("?")],
            )
        }
        Err(_) => told(alloc, &["failed"]),
    }
}

fn done(alloc: Global, is_done: bool) -> Answer {
    told(alloc, &[if is_done { "done" } else { "failed" }])
}

/// The source of these bytes, whose listed reads fail.
pub fn source_of(alloc: Global, fails: &str, bytes: &str) -> Result<MemSource, Stop> {
    let fails = calls(alloc, fails)?;
    let bytes = Vec::from_slice(alloc, bytes.as_bytes())?;
    Ok(MemSource::new(bytes, fails))
}

fn source(alloc: Global, fields: &[String]) -> Answer {
    let mut source = source_of(alloc, field(fields, 0)?, field(fields, 1)?)?;
    source_calls(alloc, &mut source, fields)
}

fn source_calls(alloc: Global, source: &mut MemSource, fields: &[String]) -> Answer {
    let mut filled = Vec::new(alloc);
    let mut came = String::new(alloc);
    for call in fields.iter().skip(2) {
        add_answer(
            &mut came,
            source_call(alloc, source, &mut filled, call.as_str()),
        )?;
    }
    Ok(came)
}

/// Adds the answer of a call to those before it.
fn add_answer(came: &mut String, answer: Answer) -> Result<(), Stop> {
    match answer {
        Ok(part) => add_part(came, part.as_str()),
        Err(stop) => Err(stop),
    }
}

/// `byte`, `read SIZE` into a buffer of dashes, and `fill COUNT` behind what earlier fills have read.
fn source_call(alloc: Global, source: &mut MemSource, filled: &mut Vec<u8>, call: &str) -> Answer {
    match split_word(call) {
        ("byte", "") => byte(alloc, source),
        ("read", text) => read(alloc, source, text),
        ("fill", text) => fill_up(alloc, source, filled, text),
        _ => unknown(),
    }
}

fn byte(alloc: Global, source: &mut MemSource) -> Answer {
    match read_byte(source) {
        Ok(Some(byte)) => counted(alloc, "byte ", byte as u64, ""),
        Ok(None) => told(alloc, &["end"]),
        Err(_) => told(alloc, &["failed"]),
    }
}

fn read(alloc: Global, source: &mut MemSource, text: &str) -> Answer {
    let mut buffer = buffer(alloc, text)?;
    let count = source.read(&mut buffer);
    read_text(alloc, count, buffer.as_slice())
}

fn fill_up(alloc: Global, source: &mut MemSource, filled: &mut Vec<u8>, text: &str) -> Answer {
    let count = size(text)?;
    let told = match fill(source, count, filled) {
        Ok(()) => "whole, ",
        Err(FillRefused::Ended) => "ended, ",
        Err(FillRefused::Failed) => "failed, ",
        Err(FillRefused::Memory) => return Err(NO_MEMORY),
    };
    counted(alloc, told, filled.len() as u64, " bytes so far")
}

fn sink(alloc: Global, fields: &[String]) -> Answer {
    let mut sink = MemSink::new(alloc, calls(alloc, field(fields, 0)?)?);
    sink_calls(alloc, &mut sink, fields)
}

fn sink_calls(alloc: Global, sink: &mut MemSink, fields: &[String]) -> Answer {
    let mut came = String::new(alloc);
    for call in fields.iter().skip(1) {
        add_answer(&mut came, sink_call(alloc, sink, call.as_str()))?;
    }
    Ok(came)
}

/// `write BYTES` is one write, `all BYTES` and `reply BYTES` write the whole, and `taken` is what the sink took.
fn sink_call(alloc: Global, sink: &mut MemSink, call: &str) -> Answer {
    match split_word(call) {
        ("write", text) => written(alloc, sink.write(text.as_bytes())),
        ("all", text) => done(alloc, write_all(sink, text.as_bytes()).is_ok()),
        ("reply", text) => done(alloc, write_reply(sink, text.as_bytes()).is_ok()),
        ("taken", "") => taken(alloc, sink),
        _ => unknown(),
    }
}

fn taken(alloc: Global, sink: &MemSink) -> Answer {
    told(alloc, &[str::from_utf8(sink.bytes()).unwrap_or("?")])
}

fn written(alloc: Global, count: Result<usize, Failed>) -> Answer {
    match count {
        Ok(count) => counted(alloc, "", count as u64, " bytes"),
        Err(_) => told(alloc, &["failed"]),
    }
}
