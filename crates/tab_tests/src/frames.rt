//! Frames: what a clause does not say, that with ample memory they are made ready, read and copied.

use std::alloc::Global;
use std::test::Fail;
use tab_codec::{Frame, RangeRow, prepare, read_frame};

/// A short spelling of each kind, in the order of the kinds.
fn spelling_of(kind: u8) -> &'static [u8] {
    match kind {
        1 => {
            b"\x01\0\0\0+\0\0\0\0\0\0\0\x01\0\0\0\0\0\0\0\0\x02\0\0\0\0\0\0\0\0\0\0\0\0\x02\0\0\0\x01q\0\0\0\0\0\0\0\x03"
        }
        2 => {
            b"\x02\0\0\0.\0\0\0\0\0\0\0\x01\0\0\0\x01\0\0\0\0\0\0\0\x02\0\0\0\x01a\0\0\0\0\0\0\0\0\0\0\0\x05\0\x01\0\0\0\x01A\x02\x01"
        }
        3 => b"\x03\0\0\0\x10\0\0\0\0\0\0\0\x01\0\0\0\0\0\0\0\x02",
        4 => {
            b"\x04\0\0\0$\0\0\0\0\0\0\0\x01\0\0\0\0\0\0\0\x02\0\x01\0\0\0\0\0\0\0\0\x03\0\0\0\x01a\0\0\0\0"
        }
        5 => MAP,
        6 => {
            b"\x06\0\0\01\0\0\0\0\0\0\0\x01\0\0\0\0\0\0\0\x04\x01\0\0\0\0\0\0\0\x01\x01\0\0\0\0\0\0\0\x03\0\0\0\0\0\0\0\0\0\0\0\0\0\0\x01"
        }
        7 => b"\x07\0\0\0\x1b\0\0\0\0\0\0\0\x05\0\0\0\x01\0\0\0\0\0\0\0\x01\0\0\0\x03Abc",
        8 => b"\x08\0\0\0\x0f\0\0\0\0\0\0\0\x09\0\0\0\x03Abc",
        _ => b"\x09\0\0\0\x08\0\0\0\0\0\0\0\x09",
    }
}

/// A map of one row.
const MAP: &[u8] =
    b"\x05\0\0\0+\0\0\0\0\0\0\0\x03\0\0\0\0\0\0\0\x01\0\0\0\x01\0\0\0\0\0\0\0\x01\0\0\0\0\0\0\0\0\0\0\0\0\0\0\x01";

/// How many bytes of these a frame spells at their front, if one does.
fn size_of(alloc: Global, bytes: &[u8]) -> Option<usize> {
    match read_frame(alloc, bytes) {
        Ok((_frame, count)) => Some(count),
        Err(_) => None,
    }
}

#[test]
fn each_kind_is_read(rt: HostRuntime) -> Result<(), Fail> {
    for kind in 1..=9_u8 {
        let bytes = spelling_of(kind);
        assert_eq!(rt; size_of(rt.alloc(), bytes), Some(bytes.len()), "{kind}");
    }
    Ok(())
}

/// Whether a frame that drops a table is made ready with its gate shut.
#[tactic(auto, unfolding(tab_codec::specs::Spelling::body))]
fn is_made_ready(alloc: Global) -> bool {
    match prepare(alloc, &Frame::Drop { table: 9 }) {
        Ok(prepared) => prepared.bytes() == b"\x09\0\0\0\x08\0\0\0\0\0\0\0\x09\0".as_slice(),
        Err(_) => false,
    }
}

#[test]
fn a_frame_is_made_ready(rt: HostRuntime) -> Result<(), Fail> {
    assert!(rt; is_made_ready(rt.alloc()));
    Ok(())
}

fn are_copied(alloc: Global, rows: &[RangeRow]) -> bool {
    let mut copied = !rows.is_empty();
    for row in rows {
        copied &= row.try_copy(alloc).is_ok();
    }
    copied
}

fn is_map_copied(alloc: Global) -> bool {
    match read_frame(alloc, MAP) {
        Ok((Frame::Map { rows, .. }, _)) => are_copied(alloc, rows.as_slice()),
        _ => false,
    }
}

#[test]
fn a_row_of_the_map_is_copied(rt: HostRuntime) -> Result<(), Fail> {
    assert!(rt; is_map_copied(rt.alloc()));
    Ok(())
}
