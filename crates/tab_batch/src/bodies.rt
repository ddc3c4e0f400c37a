//! Where the requests stand in a multipart body (RFC 2046, section 5.1): in the parts of the change set that is its only part.
ghost use Rattle.std.specs.Prelude.{◌≡◌, ℕ, ◌≤◌, List, [], length, Ok, All, IfOk, IfErr};
ghost use Rattle.tab_batch.specs.Parts.{ranges_of};
ghost use Rattle.tab_batch.specs.Reading.{Tells, in_head, in_typed_head, in_change_set, IsBelow};
ghost use Rattle.tab_batch.specs.declared.sections.ChangeSetState.TheVariants.{Before};

use crate::boundaries::{behind_word, boundary_of};
use crate::byte_ranges::ByteRange;
use crate::lines::line_at;
use crate::marks::{Mark, mark_of};
use crate::refusals::BatchRefused;
use crate::sections::Section;
use std::alloc::Global;

/// Where the requests of a batch stand.
pub fn ranges_of(
    alloc: Global,
    boundary: &[u8],
    bytes: &[u8],
) -> Result<Vec<ByteRange>, BatchRefused>
    ensures found { IfOk result (λ ranges. ranges_of boundary.now bytes.now ≡ Ok ranges.items) }
    ensures refused { IfErr result (Tells (ranges_of boundary.now bytes.now)) }
    ensures within { IfOk result (λ ranges. All (IsBelow (length bytes.now)) ranges.items) }
{
    let head = behind_delimiter(boundary, bytes)?;
    let (inner, typed) = inner_boundary(boundary, bytes, head)?;
    let set = behind_head(boundary, bytes, typed)?;
    read_change_set(alloc, boundary, bytes, inner, set)
}

/// The offset behind the first delimiter.
fn behind_delimiter(boundary: &[u8], bytes: &[u8]) -> Result<usize, BatchRefused>
    ensures found { IfOk result (λ at. ranges_of boundary.now bytes.now ≡ in_head boundary.now bytes.now at) }
    ensures refused { IfErr result (Tells (ranges_of boundary.now bytes.now)) }
    ensures within { IfOk result (λ at. at ≤ length bytes.now) }
{
    let mut at = 0;
    while let Some(line) = line_at(bytes, at) {
        match mark_of(boundary, line.text) {
            Some(Mark::Delimiter) => return Ok(line.next),
            Some(Mark::Closing) => return Err(BatchRefused::BadMultipart { at: line.start }),
            None => at = line.next,
        }
    }
    Err(BatchRefused::BadMultipart { at: bytes.len() })
}

/// The boundary of the change set, by the head that begins there, and the offset behind the line that gives it.
fn inner_boundary<'b>(
    boundary: &[u8],
    bytes: &'b [u8],
    start: usize,
) -> Result<(&'b [u8], usize), BatchRefused>
    requires { start ≤ length bytes.now }
    ensures found { IfOk result (λ found. in_head boundary.now bytes.now start ≡ in_typed_head boundary.now bytes.now found.0.now found.1) }
    ensures refused { IfErr result (Tells (in_head boundary.now bytes.now start)) }
    ensures within { IfOk result (λ found. found.1 ≤ length bytes.now) }
{
    let mut at = start;
    while let Some(line) = line_at(bytes, at) {
        if line.text.is_empty() || mark_of(boundary, line.text).is_some() {
            return Err(BatchRefused::BadMultipart { at: line.start });
        }
        if let Some(value) = behind_word(line.text, b"content-type:") {
            return match boundary_of(value) {
                Some(inner) => Ok((inner, line.next)),
                None => Err(BatchRefused::BadMultipart { at: line.start }),
            };
        }
        at = line.next;
    }
    Err(BatchRefused::BadMultipart { at: bytes.len() })
}

/// The offset behind the empty line that ends the head in which the offset is.
fn behind_head(boundary: &[u8], bytes: &[u8], start: usize) -> Result<usize, BatchRefused>
    requires { start ≤ length bytes.now }
    ensures found { IfOk result (λ at. (inner : List ℕ) → in_typed_head boundary.now bytes.now inner start ≡ in_change_set boundary.now bytes.now inner [] Before at) }
    ensures refused { IfErr result (λ refused. (inner : List ℕ) → Tells (in_typed_head boundary.now bytes.now inner start) refused) }
    ensures within { IfOk result (λ at. at ≤ length bytes.now) }
{
    let mut at = start;
    while let Some(line) = line_at(bytes, at) {
        if mark_of(boundary, line.text).is_some() {
            return Err(BatchRefused::BadMultipart { at: line.start });
        }
        at = line.next;
        if line.text.is_empty() {
            return Ok(at);
        }
    }
    Err(BatchRefused::BadMultipart { at: bytes.len() })
}

/// Where the requests stand of the change set that begins there. Each line is looked at once, under both boundaries.
fn read_change_set(
    alloc: Global,
    boundary: &[u8],
    bytes: &[u8],
    inner: &[u8],
    start: usize,
) -> Result<Vec<ByteRange>, BatchRefused>
    requires { start ≤ length bytes.now }
    ensures found { IfOk result (λ ranges. in_change_set boundary.now bytes.now inner.now [] Before start ≡ Ok ranges.items) }
    ensures refused { IfErr result (Tells (in_change_set boundary.now bytes.now inner.now [] Before start)) }
    ensures within { IfOk result (λ ranges. All (IsBelow (length bytes.now)) ranges.items) }
{
    let mut section = Section::new(alloc);
    let mut at = start;
    while let Some(line) = line_at(bytes, at) {
        match mark_of(boundary, line.text) {
            Some(Mark::Closing) => return section.finish(bytes.len()),
            Some(Mark::Delimiter) => return Err(BatchRefused::BadMultipart { at: line.start }),
            None => section.take(mark_of(inner, line.text), line)?,
        }
        at = line.next;
    }
    Err(BatchRefused::BadMultipart { at: bytes.len() })
}
