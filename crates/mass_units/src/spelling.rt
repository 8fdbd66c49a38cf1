//! Numbers, signed numbers and indices as the office's texts spell them. A number has no leading
//! zero and no plus. A minus stands before a number other than zero alone. An index, whole units
//! with five decimals, is a number of ticks: `50.00000` is 5,000,000 ticks, and `-0.00001` is -1.
//!
//! Each value has one text, so what was written is read back: a writer appends the text of its
//! value, and the clause `read_back` of the reader says that this text gives the value.

ghost use Rattle.std.specs.Prelude.{◌≡◌, ◌≢◌, ℕ, ◌+◌, ◌-◌, ◌/◌, ◌%◌, ◌<◌, ◌≤◌, ◌^◌, ◌↔◌, ◌++◌, ◌∷◌, List, ℤ, min, length, slice_index, codes, IsTrue, IfSome, IfNone, IfOk, OnOk, OnErr};
ghost use Rattle.std.specs.Fmt.{decimal};
ghost use Rattle.std.specs.Str.Parse.{AllDigits, digits_value};
ghost use Rattle.mass_units.specs.Rounding.{IsRounded};
ghost use Rattle.mass_units.specs.Spelling.{sign_text, number_text, five_digits, two_digits, units_text, signed_text, index_text, hundredths_of, short_index_text, IsNumber, IsSignedNumber, IsIndex};

use crate::Ticks;
use base_words::NoMemory;
use itoa::Buffer;
use std::alloc::Global;
use thiserror::Error;

const TICKS_PER_UNIT: u64 = 100_000;

const TICKS_PER_HUNDREDTH: u64 = 1_000;

/// The greatest absolute value of an index in a text, in ticks.
const MAX_INDEX: u64 = 1_000_000_000;

/// A number in a text lies below this: it has at most nine digits.
const NUMBER_LIMIT: u64 = 1_000_000_000;

/// The greatest number of 32 bits.
const GREATEST_LONG_NUMBER: u64 = 4_294_967_295;

/// Why a text is not read as an index.
#[derive(Clone, Copy, Debug, PartialEq, Eq, Error)]
pub enum NumFault {
    /// The text spells no index of any size.
    #[error("not a number")]
    NotANumber,
    /// The text spells an index more than 1,000,000,000 ticks from zero.
    #[error("number too large")]
    TooLarge,
}

/// Reads an index, in ticks, from its text with five decimals.
pub fn read_ticks5(text: &[u8]) -> Result<Ticks, NumFault>
    ensures ok { IfOk result (λ t. IsIndex t.0 × (text.now ≡ index_text t.0)) }
    ensures read_back { (z : ℤ) → IsIndex z → text.now ≡ index_text z → result ≡ Ok (record { 0 = z }) }

    ensures too_large { (result ≡ Err NumFault.TooLarge)
        ↔ ((z : ℤ) × ¬ (IsIndex z) × (text.now ≡ index_text z)) }
    ensures not_a_number { (result ≡ Err NumFault.NotANumber)
        ↔ ((z : ℤ) → text.now ≢ index_text z) }
{
    match after_mark(b'-', text) {
        Some(size) => match read_size(size)? {
            0 => Err(NumFault::NotANumber),
            n => Ok(Ticks(-i64::from(n))),
        },
        None => Ok(Ticks(i64::from(read_size(text)?))),
    }
}

/// Reads a number of at most nine digits. None where the text spells no such number.
pub fn read_number(text: &[u8]) -> Option<u32>
    ensures some { IfSome result (λ n. IsNumber n × (text.now ≡ number_text n)) }
    ensures read_back { (n : ℕ) → IsNumber n → text.now ≡ number_text n → result ≡ Some n }
{
    match read_whole(text) {
        Some(n) if n < NUMBER_LIMIT => Some(n as u32),
        _ => None,
    }
}

/// Reads a number of at most 32 bits, which has up to ten digits. None where the text spells no such number.
pub fn read_long_number(text: &[u8]) -> Option<u32>
    ensures some { IfSome result (λ n. text.now ≡ number_text n) }
    ensures read_back { (n : ℕ) → n < 2 ^ 32 → text.now ≡ number_text n → result ≡ Some n }
{
    match read_whole(text) {
        Some(n) if n <= GREATEST_LONG_NUMBER => Some(n as u32),
        _ => None,
    }
}

/// Reads a signed number of at most nine digits. None where the text spells no such number.
pub fn read_signed(text: &[u8]) -> Option<i32>
    ensures some { IfSome result (λ z. IsSignedNumber z × (text.now ≡ signed_text z)) }
    ensures read_back { (z : ℤ) → IsSignedNumber z → text.now ≡ signed_text z → result ≡ Some z }
{
    match after_mark(b'-', text) {
        Some(size) => match read_number(size)? {
            0 => None,
            n => Some(-(n as i32)),
        },
        None => Some(read_number(text)? as i32),
    }
}

/// Appends the index with all five decimals. Any index of the type can be written; one beyond
/// 1,000,000,000 ticks is not read back.
pub fn write_ticks5(_alloc: Global, t: Ticks, out: &mut Vec<u8>) -> Result<(), NoMemory>
    ensures ok { OnOk result (out.new.items ≡ out.old.items ++ index_text t.0) }
    ensures err { OnErr result (out.new.items ≡ out.old.items) }
{
    let size = t.0.unsigned_abs();
    let decimals = five_decimals((size % TICKS_PER_UNIT) as u32);
    append(out, sign_of(t), size / TICKS_PER_UNIT, &decimals)
}

/// Appends the index with two decimals, a half away from zero. Zero has no sign.
pub fn write_ticks2(_alloc: Global, t: Ticks, out: &mut Vec<u8>) -> Result<(), NoMemory>
    ensures ok { OnOk result (out.new.items ≡ out.old.items ++ short_index_text t.0) }
    ensures rounded { IsRounded t.0 1000 (hundredths_of t.0) }
    ensures err { OnErr result (out.new.items ≡ out.old.items) }
{
    let size = (t.0.unsigned_abs() + TICKS_PER_HUNDREDTH / 2) / TICKS_PER_HUNDREDTH;
    let decimals = two_decimals((size % 100) as u32);
    append(out, sign_of_hundredths(t), size / 100, &decimals)
}

/// Appends the number. Any number of the type can be written; one of more than nine digits is not read back.
pub fn write_number(_alloc: Global, n: u64, out: &mut Vec<u8>) -> Result<(), NoMemory>
    ensures ok { OnOk result (out.new.items ≡ out.old.items ++ number_text n) }
    ensures err { OnErr result (out.new.items ≡ out.old.items) }
{
    let mut buffer = Buffer::new();
    out.extend_from_slice(buffer.format(n).as_bytes())?;
    Ok(())
}

/// Appends the signed number. Any number of the type can be written; one of ten digits is not read
/// back.
pub fn write_signed(_alloc: Global, n: i32, out: &mut Vec<u8>) -> Result<(), NoMemory>
    ensures ok { OnOk result (out.new.items ≡ out.old.items ++ signed_text n) }
    ensures err { OnErr result (out.new.items ≡ out.old.items) }
{
    let mut buffer = Buffer::new();
    out.extend_from_slice(buffer.format(n).as_bytes())?;
    Ok(())
}

/// What follows the mark at the front of the text. None where the text does not begin with it.
fn after_mark(mark: u8, text: &[u8]) -> Option<&[u8]>
    ensures some { IfSome result (λ rest. text.now ≡ mark ∷ rest.now) }
    ensures none { IfNone result ((rest : List ℕ) → text.now ≢ mark ∷ rest) }
{
    match text {
        [first, rest @ ..] if *first == mark => Some(rest),
        _ => None,
    }
}

/// The number that the digits write, or `u64::MAX` where it is greater. None where a byte is no digit.
fn read_digits(text: &[u8]) -> Option<u64>
    ensures some { IfSome result
        (λ value. AllDigits 10 text.now × (value ≡ min (digits_value 10 text.now) (2 ^ 64 - 1))) }
    ensures none { IfNone result (¬ (AllDigits 10 text.now)) }
{
    let mut value = 0u64;
    for byte in text {
        if !byte.is_ascii_digit() {
            return None;
        }
        value = value
            .saturating_mul(10)
            .saturating_add(u64::from(*byte - b'0'));
    }
    Some(value)
}

/// Whether a text begins as a number does: it is not empty, and a zero at its front is all of it.
pub fn has_plain_front(text: &[u8]) -> bool
    ensures { IsTrue result
        ↔ ((0 < length text.now) × (slice_index text.now 0 ≡ 48 → length text.now ≡ 1)) }
{
    match text {
        [] => false,
        [b'0'] => true,
        [first, ..] => *first != b'0',
    }
}

/// The number of any size that the text spells, or `u64::MAX` where it is greater.
fn read_whole(text: &[u8]) -> Option<u64>
    ensures some { IfSome result
        (λ value. (n : ℕ) × (text.now ≡ number_text n) × (value ≡ min n (2 ^ 64 - 1))) }
    ensures none { IfNone result ((n : ℕ) → text.now ≢ number_text n) }
{
    if !has_plain_front(text) {
        return None;
    }
    read_digits(text)
}

/// The ticks of any number that the text spells with no sign, or `u64::MAX` where they are more.
fn read_units(text: &[u8]) -> Option<u64>
    ensures some { IfSome result
        (λ value. (n : ℕ) × (text.now ≡ units_text n) × (value ≡ min n (2 ^ 64 - 1))) }
    ensures none { IfNone result ((n : ℕ) → text.now ≢ units_text n) }
{
    let point = text.len().checked_sub(6)?;
    let (whole, rest) = text.split_at(point);
    let whole = read_whole(whole)?;
    let decimals = read_digits(after_mark(b'.', rest)?)?;
    Some(
        whole
            .saturating_mul(TICKS_PER_UNIT)
            .saturating_add(decimals),
    )
}

/// The ticks that the text spells with no sign.
fn read_size(text: &[u8]) -> Result<u32, NumFault>
    ensures ok { IfOk result (λ n. (n ≤ 10 ^ 9) × (text.now ≡ units_text n)) }
    ensures too_large { result ≡ Err NumFault.TooLarge
        → (n : ℕ) × (10 ^ 9 < n) × (text.now ≡ units_text n) }
    ensures not_a_number { result ≡ Err NumFault.NotANumber → (n : ℕ) → text.now ≢ units_text n }
{
    match read_units(text) {
        None => Err(NumFault::NotANumber),
        Some(n) if n > MAX_INDEX => Err(NumFault::TooLarge),
        Some(n) => Ok(n as u32),
    }
}

/// The minus of an index below zero.
fn sign_of(t: Ticks) -> &'static [u8]
    ensures { result.now ≡ sign_text t.0 }
{
    if t.0 < 0 { b"-" } else { b"" }
}

/// The minus of an index that is below zero in hundredths too.
fn sign_of_hundredths(t: Ticks) -> &'static [u8]
    ensures { result.now ≡ sign_text (hundredths_of t.0) }
{
    if t.0 <= -500 { b"-" } else { b"" }
}

/// The point, and the ticks below one index unit as five decimals.
fn five_decimals(ticks: u32) -> [u8; 6]
    requires { ticks < 100000 }
    ensures { result ≡ codes "." ++ five_digits ticks }
{
    [
        b'.',
        b'0' + (ticks / 10_000) as u8,
        b'0' + (ticks / 1_000 % 10) as u8,
        b'0' + (ticks / 100 % 10) as u8,
        b'0' + (ticks / 10 % 10) as u8,
        b'0' + (ticks % 10) as u8,
    ]
}

/// The point, and the hundredths below one index unit as two decimals.
fn two_decimals(hundredths: u32) -> [u8; 3]
    requires { hundredths < 100 }
    ensures { result ≡ codes "." ++ two_digits hundredths }
{
    [
        b'.',
        b'0' + (hundredths / 10) as u8,
        b'0' + (hundredths % 10) as u8,
    ]
}

/// Appends the parts of an index, or nothing when out of memory.
fn append(out: &mut Vec<u8>, sign: &[u8], whole: u64, decimals: &[u8]) -> Result<(), NoMemory>
    requires { length sign.now + length decimals.now < 100 }
    ensures ok { OnOk result
        (out.new.items ≡ out.old.items ++ (sign.now ++ (decimal whole ++ decimals.now))) }
    ensures err { OnErr result (out.new.items ≡ out.old.items) }
{
    let mut buffer = Buffer::new();
    let whole = buffer.format(whole).as_bytes();
    out.reserve(sign.len() + whole.len() + decimals.len())?;
    out.extend_from_slice(sign)?;
    out.extend_from_slice(whole)?;
    out.extend_from_slice(decimals)?;
    Ok(())
}
