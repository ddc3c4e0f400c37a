//! The fields of a body: numbers, bytes and texts.

ghost use Rattle.std.specs.Prelude.{◌≡◌, ◌≤◌, IfOk, MatchOption, Ok, Err, drop, length, nat_le};
ghost use Rattle.std.specs.Int.{w16, w32, w64};
ghost use Rattle.std.specs.Str.{is_utf8};
ghost use Rattle.tab_codec.specs.Reading.{Gives, byte_at, number_at, bytes_at, sized_at, allowing, case_at, key_text_at, table_name_at};

use crate::stops::Stop;
use std::alloc::Global;
use std::str::from_utf8;
use tab_edm::GREATEST;
use tab_keys::{KeyRefused, KeyText, NameRefused, TableName};

#[tactic(auto, unfolding(crate::specs::Reading::byte_at))]
pub fn read_byte(bytes: &[u8]) -> Result<(u8, &[u8]), Stop>
    ensures { Gives (λ x. (x.0, x.1.now)) result (byte_at bytes.now) }
{
    match bytes {
        [byte, rest @ ..] => Ok((*byte, rest)),
        [] => Err(Stop::Broken(0)),
    }
}

/// A byte that says which of some cases follows: at least `least` and at most `most`.
#[tactic(auto, unfolding(crate::specs::Reading::allowing))]
pub fn read_case(least: u8, most: u8, bytes: &[u8]) -> Result<(u8, &[u8]), Stop>
    ensures read { Gives (λ x. (x.0, x.1.now)) result (case_at least most bytes.now) }
    ensures range { IfOk result (λ x. (least ≤ x.0) × (x.0 ≤ most)) }
{
    let (which, rest) = read_byte(bytes)?;
    if least <= which && which <= most {
        Ok((which, rest))
    } else {
        Err(Stop::Broken(bytes.len()))
    }
}

#[tactic(auto, unfolding(crate::specs::Reading::number_at))]
pub fn read_u16(bytes: &[u8]) -> Result<(u16, &[u8]), Stop>
    ensures { Gives (λ x. (x.0, x.1.now)) result (number_at w16 bytes.now) }
{
    if bytes.len() < 2 {
        return Err(Stop::Broken(bytes.len()));
    }
    let (front, rest) = bytes.split_at(2);
    Ok((u16::from_be_bytes([front[0], front[1]]), rest))
}

#[tactic(auto, unfolding(crate::specs::Reading::number_at))]
pub fn read_u32(bytes: &[u8]) -> Result<(u32, &[u8]), Stop>
    ensures { Gives (λ x. (x.0, x.1.now)) result (number_at w32 bytes.now) }
{
    if bytes.len() < 4 {
        return Err(Stop::Broken(bytes.len()));
    }
    let (front, rest) = bytes.split_at(4);
    let number = u32::from_be_bytes([front[0], front[1], front[2], front[3]]);
    Ok((number, rest))
}

#[tactic(auto, unfolding(crate::specs::Reading::number_at))]
pub fn read_u64(bytes: &[u8]) -> Result<(u64, &[u8]), Stop>
    ensures { Gives (λ x. (x.0, x.1.now)) result (number_at w64 bytes.now) }
{
    if bytes.len() < 8 {
        return Err(Stop::Broken(bytes.len()));
    }
    let (front, rest) = bytes.split_at(8);
    let number = u64::from_be_bytes([
        front[0], front[1], front[2], front[3], front[4], front[5], front[6], front[7],
    ]);
    Ok((number, rest))
}

/// The number that the bytes begin with, where they are long enough.
#[tactic(auto, unfolding(crate::specs::Reading::number_at))]
pub fn first_u64(bytes: &[u8]) -> Option<u64>
    ensures { MatchOption result
        (number_at w64 bytes.now ≡ Err (length bytes.now))
        (λ number. number_at w64 bytes.now ≡ Ok (number, drop 8 bytes.now)) }
{
    if bytes.len() < 8 {
        return None;
    }
    Some(u64::from_be_bytes([
        bytes[0], bytes[1], bytes[2], bytes[3], bytes[4], bytes[5], bytes[6], bytes[7],
    ]))
}

/// The tick of a moment.
#[tactic(auto, unfolding(crate::specs::Reading::allowing))]
pub fn read_tick(bytes: &[u8]) -> Result<(u64, &[u8]), Stop>
    ensures read { Gives (λ x. (x.0, x.1.now)) result (allowing (λ tick. nat_le tick GREATEST) (number_at w64) bytes.now) }
    ensures in_time { IfOk result (λ x. x.0 ≤ GREATEST) }
{
    let (tick, rest) = read_u64(bytes)?;
    if tick <= GREATEST {
        Ok((tick, rest))
    } else {
        Err(Stop::Broken(bytes.len()))
    }
}

/// The 16 bytes of a Guid.
#[tactic(auto, unfolding(crate::specs::Reading::bytes_at))]
pub fn read_guid(bytes: &[u8]) -> Result<([u8; 16], &[u8]), Stop>
    ensures { Gives (λ x. (x.0, x.1.now)) result (bytes_at 16 bytes.now) }
{
    match bytes.split_first_chunk::<16>() {
        Some((guid, rest)) => Ok((*guid, rest)),
        None => Err(Stop::Broken(bytes.len())),
    }
}

/// A text or bytes, which with their length are one field.
#[tactic(auto, unfolding(crate::specs::Reading::sized_at))]
pub fn read_sized(bytes: &[u8]) -> Result<(&[u8], &[u8]), Stop>
    ensures { Gives (λ x. (x.0.now, x.1.now)) result (sized_at bytes.now) }
{
    let (size, rest) = read_u32(bytes)?;
    let size = size as usize;
    if rest.len() < size {
        return Err(Stop::Broken(bytes.len()));
    }
    Ok(rest.split_at(size))
}

#[tactic(auto, unfolding(crate::specs::Reading::allowing))]
pub fn read_text(bytes: &[u8]) -> Result<(&str, &[u8]), Stop>
    ensures { Gives (λ x. (x.0.now, x.1.now)) result (allowing is_utf8 sized_at bytes.now) }
{
    let (text, rest) = read_sized(bytes)?;
    match from_utf8(text) {
        Ok(text) => Ok((text, rest)),
        Err(_) => Err(Stop::Broken(bytes.len())),
    }
}

#[tactic(auto, unfolding(crate::specs::Reading::allowing))]
pub fn read_key_text(alloc: Global, bytes: &[u8]) -> Result<(KeyText, &[u8]), Stop>
    ensures { Gives (λ x. (x.0, x.1.now)) result (key_text_at bytes.now) }
{
    let (text, rest) = read_sized(bytes)?;
    let Ok(text) = from_utf8(text) else {
        return Err(Stop::Broken(bytes.len()));
    };
    match KeyText::new(alloc, text) {
        Ok(text) => Ok((text, rest)),
        Err(KeyRefused::Memory) => Err(Stop::Memory),
        Err(KeyRefused::TooLong | KeyRefused::BadCharacter) => Err(Stop::Broken(bytes.len())),
    }
}

#[tactic(auto, unfolding(crate::specs::Reading::allowing))]
pub fn read_table_name(alloc: Global, bytes: &[u8]) -> Result<(TableName, &[u8]), Stop>
    ensures { Gives (λ x. (x.0, x.1.now)) result (table_name_at bytes.now) }
{
    let (text, rest) = read_sized(bytes)?;
    let Ok(text) = from_utf8(text) else {
        return Err(Stop::Broken(bytes.len()));
    };
    match TableName::new(alloc, text) {
        Ok(name) => Ok((name, rest)),
        Err(NameRefused::Memory) => Err(Stop::Memory),
        Err(NameRefused::BadName | NameRefused::Reserved) => Err(Stop::Broken(bytes.len())),
    }
}
