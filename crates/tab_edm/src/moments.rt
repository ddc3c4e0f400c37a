//! Moments as texts, in the form of `Edm.DateTime` with a `Z` (OData 3.0; ISO 8601), and the ETags that are made of
//! them (RFC 9110, section 8.8.3). The calendar is the Gregorian one for all years from 1601 to 9999.

ghost use Rattle.std.specs.Prelude.{◌≡◌, ℕ, ◌+◌, ◌-◌, ◌*◌, ◌^◌, ◌↔◌, length, take, drop, IsTrue, MatchOption, IfSome, Some, ◌++◌, ◌/◌, ◌%◌, ◌≤◌, ◌<◌, IfOk, OnOk, OnErr, pos, string_bytes};
ghost use Rattle.tab_edm.specs.Moments.{CivilDate, IsServed, IsMoment, Spells, moment_of, date_after, last_digits, text_of_date, text_of_time, text_of_fraction, text_of_moment, text_of_etag};

use crate::{GREATEST, Memory, TICKS_IN_A_SECOND};
use jiff_core::civil::Date;
use std::alloc::Global;
use std::str;

const TICKS_IN_A_DAY: u64 = 864_000_000_000;

/// The days from -9999-01-01, where jiff begins, to 1601-01-01.
const FIRST_DAY: u32 = 4_236_813;

/// The first year that is served. The calendar ends with the last one, 9999.
const FIRST_YEAR: u32 = 1601;

/// The last hour of a day, the last minute of an hour, and the last second of a minute.
const LAST_HOUR: u32 = 23;

const LAST_MINUTE: u32 = 59;

const LAST_SECOND: u32 = 59;

/// The text of a moment, with seven digits of its second's fraction.
pub fn moment_text(alloc: Global, tick: u64) -> Result<String, Memory>
    requires { tick ≤ GREATEST }
    ensures { IfOk result (λ text. string_bytes text ≡ text_of_moment tick) }
{
    let mut text = String::with_capacity(alloc, 28)?;
    push_moment(&mut text, tick)?;
    Ok(text)
}

/// The ETag of a row with this tick.
pub fn etag_text(alloc: Global, tick: u64) -> Result<String, Memory>
    requires { tick ≤ GREATEST }
    ensures { IfOk result (λ text. string_bytes text ≡ text_of_etag tick) }
{
    let mut text = String::with_capacity(alloc, 46)?;
    push_etag(&mut text, tick)?;
    Ok(text)
}

/// Appends the text of a moment: 28 bytes, for which memory is taken only where the text has no room for them.
pub fn push_moment(text: &mut String, tick: u64) -> Result<(), Memory>
    requires { tick ≤ GREATEST }
    ensures moment { OnOk result (string_bytes text.new ≡ string_bytes text.old ++ text_of_moment tick) }
    ensures kept { OnErr result (string_bytes text.new ≡ string_bytes text.old) }
{
    let moment = moment_bytes(tick);
    text.push_str(unsafe { str::from_utf8_unchecked(&moment) })?;
    Ok(())
}

/// Appends the ETag of a row with this tick: 46 bytes, for which memory is taken only where the text has no room for them.
pub fn push_etag(text: &mut String, tick: u64) -> Result<(), Memory>
    requires { tick ≤ GREATEST }
    ensures etag { OnOk result (string_bytes text.new ≡ string_bytes text.old ++ text_of_etag tick) }
    ensures kept { OnErr result (string_bytes text.new ≡ string_bytes text.old) }
{
    let etag = etag_bytes(tick);
    text.push_str(unsafe { str::from_utf8_unchecked(&etag) })?;
    Ok(())
}

/// The tick of a text that gives a moment, with up to seven digits of its second's fraction.
pub fn read_moment(text: &str) -> Option<u64>
    ensures value { result ≡ moment_of text.now }
    ensures exact { (tick : ℕ) → (result ≡ Some tick) ↔ IsMoment text.now tick }
    ensures in_time { IfSome result (λ tick. tick ≤ GREATEST) }
    ensures written { (tick : ℕ) → tick ≤ GREATEST → text.now ≡ text_of_moment tick → result ≡ Some tick }
{
    read_tick(text.as_bytes(), b":")
}

/// The tick of a row with this ETag.
pub fn read_etag(text: &str) -> Option<u64>
    ensures { (tick : ℕ) → (result ≡ Some tick) ↔ ((tick ≤ GREATEST) × (text.now ≡ text_of_etag tick)) }
{
    let moment = text.strip_prefix("W/\"datetime'")?.strip_suffix("'\"")?;
    // An ETag gives all seven digits of the fraction.
    if moment.len() != 32 {
        return None;
    }
    read_tick(moment.as_bytes(), b"%3A")
}

/// The digits that the text of a moment gives.
#[derive(Clone, Copy, Drop)]
struct Digits {
    year: [u8; 4],
    month: [u8; 2],
    day: [u8; 2],
    hour: [u8; 2],
    minute: [u8; 2],
    second: [u8; 2],
    fraction: [u8; 7],
}

fn digits_of(tick: u64) -> Digits
    requires { tick ≤ GREATEST }
    ensures year { result.year ≡ last_digits 4 (date_after (tick / 864_000_000_000)).year }
    ensures month { result.month ≡ last_digits 2 (date_after (tick / 864_000_000_000)).month }
    ensures day { result.day ≡ last_digits 2 (date_after (tick / 864_000_000_000)).day }
    ensures hour { result.hour ≡ last_digits 2 (tick / TICKS_IN_A_SECOND % 86_400 / 3600) }
    ensures minute { result.minute ≡ last_digits 2 (tick / TICKS_IN_A_SECOND % 86_400 / 60 % 60) }
    ensures second { result.second ≡ last_digits 2 (tick / TICKS_IN_A_SECOND % 86_400 % 60) }
    ensures fraction { result.fraction ≡ last_digits 7 (tick % TICKS_IN_A_SECOND) }
{
    let date = date_after((tick / TICKS_IN_A_DAY) as u32);
    let second = tick / TICKS_IN_A_SECOND % 86_400;
    Digits {
        year: four_digits(date.year.unsigned_abs() as u64),
        month: two_digits(date.month as u64),
        day: two_digits(date.day as u64),
        hour: two_digits(second / 3600),
        minute: two_digits(second / 60 % 60),
        second: two_digits(second % 60),
        fraction: seven_digits(tick % TICKS_IN_A_SECOND),
    }
}

/// The date that comes so many days after 1601-01-01.
fn date_after(days: u32) -> Date
    requires { days ≤ 3_067_670 }
    ensures year { result.year ≡ pos (date_after days).year }
    ensures month { result.month ≡ (date_after days).month }
    ensures day { result.day ≡ (date_after days).day }
{
    Date::from_days_since_min(days + FIRST_DAY)
}

/// The text of a moment.
fn moment_bytes(tick: u64) -> [u8; 28]
    requires { tick ≤ GREATEST }
    ensures { result ≡ text_of_moment tick }
{
    let at = digits_of(tick);
    [
        at.year[0],
        at.year[1],
        at.year[2],
        at.year[3],
        b'-',
        at.month[0],
        at.month[1],
        b'-',
        at.day[0],
        at.day[1],
        b'T',
        at.hour[0],
        at.hour[1],
        b':',
        at.minute[0],
        at.minute[1],
        b':',
        at.second[0],
        at.second[1],
        b'.',
        at.fraction[0],
        at.fraction[1],
        at.fraction[2],
        at.fraction[3],
        at.fraction[4],
        at.fraction[5],
        at.fraction[6],
        b'Z',
    ]
}

/// The ETag of a moment.
fn etag_bytes(tick: u64) -> [u8; 46]
    requires { tick ≤ GREATEST }
    ensures { result ≡ text_of_etag tick }
{
    let at = digits_of(tick);
    [
        b'W',
        b'/',
        b'"',
        b'd',
        b'a',
        b't',
        b'e',
        b't',
        b'i',
        b'm',
        b'e',
        b'\'',
        at.year[0],
        at.year[1],
        at.year[2],
        at.year[3],
        b'-',
        at.month[0],
        at.month[1],
        b'-',
        at.day[0],
        at.day[1],
        b'T',
        at.hour[0],
        at.hour[1],
        b'%',
        b'3',
        b'A',
        at.minute[0],
        at.minute[1],
        b'%',
        b'3',
        b'A',
        at.second[0],
        at.second[1],
        b'.',
        at.fraction[0],
        at.fraction[1],
        at.fraction[2],
        at.fraction[3],
        at.fraction[4],
        at.fraction[5],
        at.fraction[6],
        b'Z',
        b'\'',
        b'"',
    ]
}

/// The last two digits of a number.
#[tactic(auto, unfolding(crate::specs::Moments::last_digits))]
fn two_digits(number: u64) -> [u8; 2]
    ensures { result ≡ last_digits 2 number }
{
    [digit(number / 10), digit(number)]
}

/// The last four digits of a number.
#[tactic(auto, unfolding(crate::specs::Moments::last_digits))]
fn four_digits(number: u64) -> [u8; 4]
    ensures { result ≡ last_digits 4 number }
{
    let tens = number / 10;
    let hundreds = tens / 10;
    [
        digit(hundreds / 10),
        digit(hundreds),
        digit(tens),
        digit(number),
    ]
}

/// The last seven digits of a number.
#[tactic(auto, unfolding(crate::specs::Moments::last_digits))]
fn seven_digits(number: u64) -> [u8; 7]
    ensures { result ≡ last_digits 7 number }
{
    let thousands = number / 10 / 10 / 10;
    let [a, b, c, d] = four_digits(thousands);
    let hundreds = number / 10 / 10;
    [
        a,
        b,
        c,
        d,
        digit(hundreds),
        digit(number / 10),
        digit(number),
    ]
}

/// The last digit of a number.
fn digit(number: u64) -> u8
    ensures { result ≡ 48 + number % 10 }
{
    b'0' + (number % 10) as u8
}

/// The tick of a text that gives a moment, with `colon` for each colon.
fn read_tick(text: &[u8], colon: &[u8]) -> Option<u64>
    requires { length colon.now ≤ 3 }
    ensures { MatchOption result ((tick : ℕ) → Spells colon.now text.now tick → ⊥) (Spells colon.now text.now) }
{
    let time_end = 17 + 2 * colon.len();
    if text.len() < time_end || !has_at(text, 10, b"T") {
        return None;
    }
    let days = read_date(&text[..10])?;
    let second = read_time(&text[11..time_end], colon)?;
    let fraction = read_fraction(&text[time_end..])?;
    Some((days as u64 * 86_400 + second as u64) * TICKS_IN_A_SECOND + fraction as u64)
}

/// The days from 1601-01-01 to a date of the years 1601 to 9999.
fn read_date(text: &[u8]) -> Option<u32>
    ensures { MatchOption result ((d : CivilDate) → IsServed d → text.now ≡ text_of_date d → ⊥)
        (λ days. (days ≤ 3_067_670) × (text.now ≡ text_of_date (date_after days))) }
{
    if text.len() != 10 || !has_at(text, 4, b"-") || !has_at(text, 7, b"-") {
        return None;
    }
    let year = number_at(text, 0, 4)?;
    let month = number_at(text, 5, 2)?;
    let day = number_at(text, 8, 2)?;
    days_to(year, month, day)
}

/// The days from 1601-01-01 to a date, if the calendar has it and its year is served.
fn days_to(year: u32, month: u32, day: u32) -> Option<u32>
    requires year { year < 10_000 }
    requires month { month < 100 }
    requires day { day < 100 }
    ensures { MatchOption result (IsServed (record { year = year; month = month; day = day }) → ⊥)
        (λ days. (days ≤ 3_067_670) × (date_after days ≡ record { year = year; month = month; day = day })) }
{
    if year < FIRST_YEAR {
        return None;
    }
    match Date::new(year as i16, month as i8, day as i8) {
        Ok(date) => Some(date.days_since_min() - FIRST_DAY),
        Err(_) => None,
    }
}

/// The second of a day, with `colon` for each colon.
fn read_time(text: &[u8], colon: &[u8]) -> Option<u32>
    requires { length colon.now ≤ 3 }
    ensures { MatchOption result
        ((hour : ℕ) (minute : ℕ) (second : ℕ) → hour ≤ 23 → minute ≤ 59 → second ≤ 59 → text.now ≡ text_of_time colon.now hour minute second → ⊥)
        (λ second. (second < 86_400) × (text.now ≡ text_of_time colon.now (second / 3600) (second / 60 % 60) (second % 60))) }
{
    let width = colon.len();
    if text.len() != 6 + 2 * width || !has_at(text, 2, colon) || !has_at(text, 4 + width, colon) {
        return None;
    }
    let hour = number_at(text, 0, 2)?;
    let minute = number_at(text, 2 + width, 2)?;
    let second = number_at(text, 4 + 2 * width, 2)?;
    if hour > LAST_HOUR || minute > LAST_MINUTE || second > LAST_SECOND {
        return None;
    }
    Some((hour * 60 + minute) * 60 + second)
}

/// A second's fraction in ticks, with the `Z` after it.
fn read_fraction(text: &[u8]) -> Option<u32>
    ensures { MatchOption result
        ((count : ℕ) (fraction : ℕ) → count ≤ 7 → fraction < 10 ^ count → text.now ≡ text_of_fraction count fraction → ⊥)
        (λ ticks. (count : ℕ) × (fraction : ℕ) × (count ≤ 7) × (fraction < 10 ^ count)
        × (text.now ≡ text_of_fraction count fraction) × (ticks ≡ fraction * 10 ^ (7 - count))) }
{
    if text == b"Z".as_slice() {
        return Some(0);
    }
    let length = text.len();
    if length < 3 || length > 9 || !has_at(text, 0, b".") || !has_at(text, length - 1, b"Z") {
        return None;
    }
    let fraction = number_at(text, 1, length - 2)?;
    Some(fraction * 10u32.pow(9 - length as u32))
}

/// The number that so many decimal digits of a text spell.
fn number_at(text: &[u8], at: usize, count: usize) -> Option<u32>
    requires few { count ≤ 7 }
    requires within { at + count ≤ length text.now }
    ensures { MatchOption result
        ((n : ℕ) → n < 10 ^ count → take count (drop at text.now) ≡ last_digits count n → ⊥)
        (λ n. (n < 10 ^ count) × (take count (drop at text.now) ≡ last_digits count n)) }
{
    read_number(&text[at..at + count])
}

/// The number that decimal digits spell.
fn read_number(digits: &[u8]) -> Option<u32>
    requires { length digits.now ≤ 7 }
    ensures { MatchOption result
        ((n : ℕ) → n < 10 ^ length digits.now → digits.now ≡ last_digits (length digits.now) n → ⊥)
        (λ n. (n < 10 ^ length digits.now) × (digits.now ≡ last_digits (length digits.now) n)) }
{
    let mut n = 0;
    for digit in digits {
        if !digit.is_ascii_digit() {
            return None;
        }
        n = n * 10 + (*digit - b'0') as u32;
    }
    Some(n)
}

/// Whether a piece stands at an offset of a text.
fn has_at(text: &[u8], at: usize, piece: &[u8]) -> bool
    requires { at + length piece.now ≤ length text.now }
    ensures { IsTrue result ↔ (take (length piece.now) (drop at text.now) ≡ piece.now) }
{
    &text[at..at + piece.len()] == piece
}
