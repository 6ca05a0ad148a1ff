//! Single values: writing and reading numbers, raw values, bounds, partial steps and rows, names, types and functions.
//! Whole numbers have the highest byte first.
ghost use Rattle.std.specs.Prelude.{◌≡◌, ◌++◌, ◌+◌, ◌^◌, ◌<◌, ◌≤◌, ℕ, [], ◌∷◌, ◌≢◌, ◌==◌, IfSome, None, length, replicate, true};
ghost use Rattle.rrd_file.specs.Names.{list_all, Kind, Name, fits, Function};
ghost use Rattle.rrd_file.specs.Words.{FitsBound, FitsRaw};
ghost use Rattle.rrd_file.specs.Layout.Values as spelling;

use crate::layout::{CELL_SIZE, NAME_SIZE, PREP_SIZE, number_of, value_of};
use crate::writer::{BLOCK_SIZE, Block};
use rrd_fixed::{Kind, Name, Raw};
use rrd_fold::Function;

// The number of different values of eight bytes.
const HALF: u128 = 0x1_0000_0000_0000_0000;

/// A number of sixteen bytes, two's complement, as its higher and its lower eight bytes.
///
/// The processor writes eight bytes in one instruction, but not sixteen.
#[derive(Clone, Copy)]
pub(crate) struct Halves {
    pub(crate) high: u64,
    pub(crate) low: u64,
}

/// Returns the halves of a number.
pub(crate) fn halves_of(number: i128) -> Halves
    ensures { spelling.eight_bytes result.high ++ spelling.eight_bytes result.low ≡ spelling.signed_bytes number }
{
    let bits = number.cast_unsigned();
    Halves {
        high: (bits / HALF) as u64,
        low: (bits % HALF) as u64,
    }
}

impl Block {
    /// Adds a byte.
    pub(crate) fn byte(&mut self, byte: u8)
        requires { length self.old + 1 ≤ BLOCK_SIZE }
        ensures { self.new ≡ self.old ++ byte ∷ [] }
    {
        self.add(&[byte]);
    }

    /// Adds a number of two bytes.
    pub(crate) fn two(&mut self, number: u64)
        requires room { length self.old + 2 ≤ BLOCK_SIZE }
        requires small { number < 2 ^ 16 }
        ensures { self.new ≡ self.old ++ spelling.two_bytes number }
    {
        self.add(&(number as u16).to_be_bytes());
    }

    /// Adds a number of four bytes.
    pub(crate) fn four(&mut self, number: u64)
        requires room { length self.old + 4 ≤ BLOCK_SIZE }
        requires small { number < 2 ^ 32 }
        ensures { self.new ≡ self.old ++ spelling.four_bytes number }
    {
        self.add(&(number as u32).to_be_bytes());
    }

    /// Adds a number of eight bytes.
    pub(crate) fn eight(&mut self, number: u64)
        requires room { length self.old + 8 ≤ BLOCK_SIZE }
        ensures { self.new ≡ self.old ++ spelling.eight_bytes number }
    {
        self.add(&number.to_be_bytes());
    }

    /// Adds the halves of a number of sixteen bytes.
    pub(crate) fn halves(&mut self, halves: Halves)
        requires { length self.old + CELL_SIZE ≤ BLOCK_SIZE }
        ensures bytes { self.new ≡ self.old ++ spelling.eight_bytes halves.high ++ spelling.eight_bytes halves.low }
        ensures room { length self.new ≡ length self.old + CELL_SIZE }
    {
        self.eight(halves.high);
        self.eight(halves.low);
    }

    /// Adds a number of sixteen bytes.
    pub(crate) fn signed(&mut self, number: i128)
        requires { length self.old + CELL_SIZE ≤ BLOCK_SIZE }
        ensures bytes { self.new ≡ self.old ++ spelling.signed_bytes number }
        ensures room { length self.new ≡ length self.old + CELL_SIZE }
    {
        self.halves(halves_of(number));
    }

    /// Adds a raw value.
    pub(crate) fn raw(&mut self, raw: Raw)
        requires { length self.old + CELL_SIZE ≤ BLOCK_SIZE }
        ensures bytes { self.new ≡ self.old ++ spelling.raw_bytes raw }
        ensures room { length self.new ≡ length self.old + CELL_SIZE }
    {
        self.signed(raw_number(raw));
    }

    /// Adds a bound.
    pub(crate) fn bound(&mut self, bound: Option<i128>)
        requires { length self.old + CELL_SIZE ≤ BLOCK_SIZE }
        ensures bytes { self.new ≡ self.old ++ spelling.bound_bytes bound }
        ensures room { length self.new ≡ length self.old + CELL_SIZE }
    {
        self.signed(number_of(bound));
    }

    /// Adds the known count and the value of a partial step or row.
    pub(crate) fn part(&mut self, known: u64, value: i128)
        requires room { length self.old + PREP_SIZE ≤ BLOCK_SIZE }
        requires few { known < 2 ^ 32 }
        ensures bytes { self.new ≡ self.old ++ spelling.part_bytes (record { known = known; value = value }) }
        ensures room { length self.new ≡ length self.old + PREP_SIZE }
    {
        self.four(known);
        self.signed(value);
    }

    // Adds `count` zeros.
    fn zeros(&mut self, count: usize)
        requires { length self.old + count ≤ BLOCK_SIZE }
        ensures { self.new ≡ self.old ++ replicate count 0 }
    {
        for _ in 0..count {
            self.byte(0);
        }
    }

    /// Adds a name.
    pub(crate) fn name(&mut self, name: &Name)
        requires { length self.old + NAME_SIZE ≤ BLOCK_SIZE }
        ensures bytes { self.new ≡ self.old ++ spelling.name_bytes name.now }
        ensures room { length self.new ≡ length self.old + NAME_SIZE }
    {
        let text = name.as_str().as_bytes();
        self.byte(text.len() as u8);
        self.add(text);
        self.zeros(NAME_SIZE - 1 - text.len());
    }
}

/// Returns a number of two bytes, and the bytes after it.
pub(crate) fn two_of(bytes: &[u8]) -> (u64, &[u8])
    requires { 2 ≤ length bytes.now }
    ensures spelled { bytes.now ≡ spelling.two_bytes result.0 ++ result.1.now }
    ensures small { result.0 < 2 ^ 16 }
    ensures room { length result.1.now + 2 ≡ length bytes.now }
{
    let (front, rest) = bytes.split_at(2);
    let mut piece = [0u8; 2];
    piece.copy_from_slice(front);
    (u16::from_be_bytes(piece) as u64, rest)
}

/// Returns a number of four bytes, and the bytes after it.
pub(crate) fn four_of(bytes: &[u8]) -> (u64, &[u8])
    requires { 4 ≤ length bytes.now }
    ensures spelled { bytes.now ≡ spelling.four_bytes result.0 ++ result.1.now }
    ensures small { result.0 < 2 ^ 32 }
    ensures room { length result.1.now + 4 ≡ length bytes.now }
{
    let (front, rest) = bytes.split_at(4);
    let mut piece = [0u8; 4];
    piece.copy_from_slice(front);
    (u32::from_be_bytes(piece) as u64, rest)
}

/// Returns a number of eight bytes, and the bytes after it.
pub(crate) fn eight_of(bytes: &[u8]) -> (u64, &[u8])
    requires { 8 ≤ length bytes.now }
    ensures spelled { bytes.now ≡ spelling.eight_bytes result.0 ++ result.1.now }
    ensures room { length result.1.now + 8 ≡ length bytes.now }
{
    let (front, rest) = bytes.split_at(8);
    let piece = [
        front[0], front[1], front[2], front[3], front[4], front[5], front[6], front[7],
    ];
    (u64::from_be_bytes(piece), rest)
}

/// Returns a number of sixteen bytes, and the bytes after it.
///
/// The processor reads eight bytes in one instruction, but not sixteen.
pub(crate) fn signed_of(bytes: &[u8]) -> (i128, &[u8])
    requires { CELL_SIZE ≤ length bytes.now }
    ensures spelled { bytes.now ≡ spelling.signed_bytes result.0 ++ result.1.now }
    ensures room { length result.1.now + CELL_SIZE ≡ length bytes.now }
{
    let (high, rest) = eight_of(bytes);
    let (low, rest) = eight_of(rest);
    let bits = u128::from(high) * HALF + u128::from(low);
    (bits.cast_signed(), rest)
}

// Returns the number that is written for a raw value.
fn raw_number(raw: Raw) -> i128
    ensures { result ≡ spelling.raw_number raw }
{
    match raw {
        Raw::Unknown => number_of(None),
        Raw::Known(value) => number_of(Some(value)),
    }
}

/// Returns a raw value, and the bytes after it.
pub(crate) fn raw_of(bytes: &[u8]) -> (Raw, &[u8])
    requires { CELL_SIZE ≤ length bytes.now }
    ensures spelled { bytes.now ≡ spelling.raw_bytes result.0 ++ result.1.now }
    ensures fits { FitsRaw result.0 }
    ensures room { length result.1.now + CELL_SIZE ≡ length bytes.now }
{
    let (number, rest) = signed_of(bytes);
    match value_of(number) {
        None => (Raw::Unknown, rest),
        Some(value) => (Raw::Known(value), rest),
    }
}

/// Returns a bound, and the bytes after it.
pub(crate) fn bound_of(bytes: &[u8]) -> (Option<i128>, &[u8])
    requires { CELL_SIZE ≤ length bytes.now }
    ensures spelled { bytes.now ≡ spelling.bound_bytes result.0 ++ result.1.now }
    ensures fits { FitsBound result.0 }
    ensures room { length result.1.now + CELL_SIZE ≡ length bytes.now }
{
    let (number, rest) = signed_of(bytes);
    (value_of(number), rest)
}

/// Returns the known count and the value of a partial step or row, and the bytes after it.
pub(crate) fn part_of(bytes: &[u8]) -> (u64, i128, &[u8])
    requires { PREP_SIZE ≤ length bytes.now }
    ensures spelled { bytes.now ≡ spelling.part_bytes (record { known = result.0; value = result.1 }) ++ result.2.now }
    ensures small { result.0 < 2 ^ 32 }
    ensures room { length result.2.now + PREP_SIZE ≡ length bytes.now }
{
    let (known, rest) = four_of(bytes);
    let (value, rest) = signed_of(rest);
    (known, value, rest)
}

// Returns whether all bytes are zero.
fn all_zero(bytes: &[u8]) -> bool
    ensures { result ≡ list_all (λ (byte : ℕ). byte == 0) bytes.now }
{
    bytes.iter().all(|byte| *byte == 0)
}

/// Returns the name with these bytes.
pub(crate) fn name_of(bytes: &[u8]) -> Option<Name>
    requires { length bytes.now ≡ NAME_SIZE }
    ensures some { IfSome result (λ name. (fits name ≡ true) × (spelling.name_bytes name ≡ bytes.now)) }
    ensures none { result ≡ None → (name : Name) → fits name ≡ true → spelling.name_bytes name ≢ bytes.now }
{
    let (first, rest) = bytes.split_at(1);
    let size = first[0] as usize;
    if size >= NAME_SIZE {
        return None;
    }
    let (text, zeros) = rest.split_at(size);
    if !all_zero(zeros) {
        return None;
    }
    Name::fit(text)
}

/// Returns the byte of a type.
pub(crate) fn kind_byte(kind: Kind) -> u8
    ensures { result ≡ spelling.kind_byte kind }
{
    match kind {
        Kind::Gauge => 0,
        Kind::Counter => 1,
        Kind::Derive => 2,
        Kind::Absolute => 3,
    }
}

/// Returns the type with a byte.
pub(crate) fn kind_of(byte: u8) -> Option<Kind>
    ensures some { IfSome result (λ kind. spelling.kind_byte kind ≡ byte) }
    ensures none { result ≡ None → (kind : Kind) → spelling.kind_byte kind ≢ byte }
{
    match byte {
        0 => Some(Kind::Gauge),
        1 => Some(Kind::Counter),
        2 => Some(Kind::Derive),
        3 => Some(Kind::Absolute),
        _ => None,
    }
}

/// Returns the byte of a consolidation function.
pub(crate) fn function_byte(function: Function) -> u8
    ensures { result ≡ spelling.function_byte function }
{
    match function {
        Function::Average => 0,
        Function::Min => 1,
        Function::Max => 2,
        Function::Last => 3,
    }
}

/// Returns the consolidation function with a byte.
pub(crate) fn function_of(byte: u8) -> Option<Function>
    ensures some { IfSome result (λ function. spelling.function_byte function ≡ byte) }
    ensures none { result ≡ None → (function : Function) → spelling.function_byte function ≢ byte }
{
    match byte {
        0 => Some(Function::Average),
        1 => Some(Function::Min),
        2 => Some(Function::Max),
        3 => Some(Function::Last),
        _ => None,
    }
}
