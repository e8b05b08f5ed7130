// Text as bytes: the lines of an input, the words, numbers and hex of a line, read and written.
#![tactic(auto)]

ghost use Rattle.std.specs.Prelude.{◌≡◌, true, [], ◌∷◌, ◌+◌, ◌*◌, ◌%◌, ◌≤◌, ◌<◌, length, drop};
ghost use Rattle.group.specs.Lent.{front};
ghost use Rattle.text.specs.Text.{dash, hex_base, digit_of, glyph_of};
ghost use Rattle.text.specs.Field.{first_from, line_end, letter_of, is_letter, digits_of, value_from, up_to_largest, number_in, pairs_of, is_hex, hex_bytes};
ghost use Rattle.text.specs.Written.{decimal_digits, decimal_of, hex_of, payload_text, spaced, number_digits, count_digits};
ghost use Rattle.text.specs.LaidAt.{LaidAt};

use group::Group;

// The base of a payload's digits.
pub const HEX_BASE: u8 = 16;

// The most digits of a number up to the largest, and of one of 64 bits.
pub const NUMBER_DIGITS: usize = 10;

pub const COUNT_DIGITS: usize = 20;

// The limits of specs/ are these constants.
fn hex_base() -> u8
    ensures { result ≡ hex_base }
{
    HEX_BASE
}

fn number_digits() -> usize
    ensures { result ≡ number_digits }
{
    NUMBER_DIGITS
}

fn count_digits() -> usize
    ensures { result ≡ count_digits }
{
    COUNT_DIGITS
}

// Where a character first stands in a text, from an index on.
pub fn first(text: &[u8], from: usize, character: u8) -> Option<usize>
    requires { from ≤ length text.now }
    ensures { result ≡ first_from character from (drop from text.now) }
{
    for i in from..text.len() {
        if text[i] == character {
            return Some(i);
        }
    }
    None
}

// Where the first line of an input ends.
pub fn line_end(input: &[u8]) -> Option<usize>
    ensures { result ≡ line_end input.now }
{
    first(input, 0, b'\n')
}

// The character that a field is, if it is of one.
pub fn letter(field: &[u8]) -> Option<u8>
    ensures { result ≡ letter_of field.now }
{
    match field {
        [character] => Some(*character),
        _ => None,
    }
}

// Whether a field is `-`, which stands for an empty payload.
fn is_dash(field: &[u8]) -> bool
    ensures { result ≡ is_letter dash (letter_of field.now) }
{
    letter(field) == Some(b'-')
}

// What a digit is worth; the base for any other character.
// kept: the base stands for no digit, so that `digit(c) < base` is the one test of each base, and `value_from` and `pairs_of` need no other.
#[tactic(auto, using(group::proofs::Choice::choices), unfolding(crate::specs::Text::digit_of))]
pub fn digit(c: u8) -> u8
    ensures { result ≡ digit_of c }
{
    match c {
        b'0'..=b'9' => c - b'0',
        b'a'..=b'f' => c - b'a' + 10,
        _ => HEX_BASE,
    }
}

// Whether every character is a digit of that base.
pub fn all_digits(field: &[u8], base: u8) -> bool
    ensures { result ≡ digits_of base field.now }
{
    field.iter().all(|&c| digit(c) < base)
}

// What digits come to, up to the largest. Past it no digit can bring the value back, so that a long field does not wrap.
fn value(field: &[u8]) -> Option<u32>
    ensures { result ≡ up_to_largest (value_from 0 field.now) }
{
    let mut value: u32 = 0;
    for &c in field {
        value = value.checked_mul(10)?.checked_add(digit(c) as u32)?;
    }
    Some(value)
}

// The number that a field is.
#[tactic(auto, using(group::proofs::Choice::choices), unfolding(crate::specs::Field::number_in))]
pub fn number(field: &[u8]) -> Option<u32>
    ensures { result ≡ number_in field.now }
{
    if !field.is_empty() && all_digits(field, 10) {
        value(field)
    } else {
        None
    }
}

// Whether a field is a payload in hex.
#[tactic(auto, using(group::proofs::Choice::choices), unfolding(crate::specs::Field::is_hex))]
pub fn is_hex(field: &[u8]) -> bool
    ensures { result ≡ is_hex field.now }
{
    is_dash(field) || !field.is_empty() && field.len() % 2 == 0 && all_digits(field, HEX_BASE)
}

// The byte of two digits.
fn pair(high: u8, low: u8) -> u8
    requires { (digit_of high < hex_base) × (digit_of low < hex_base) }
    ensures { result ≡ digit_of high * hex_base + digit_of low }
{
    digit(high) * HEX_BASE + digit(low)
}

// Lays the bytes of pairs of digits at the front.
fn lay_pairs(field: &[u8], payload: &mut [u8])
    requires field_value { digits_of hex_base field.now ≡ true }
    requires field_len { length field.now % 2 ≡ 0 }
    requires field_len_bound { length field.now ≤ 2 * length payload.old }
    ensures { payload.new ≡ front (pairs_of field.now) payload.old }
{
    for i in 0..field.len() / 2 {
        payload[i] = pair(field[2 * i], field[2 * i + 1]);
    }
}

// Lays a payload that is given in hex at the front, and gives its length.
pub fn lay_hex(field: &[u8], payload: &mut [u8]) -> usize
    requires field_value { is_hex field.now ≡ true }
    requires field_len_bound { length field.now ≤ 2 * length payload.old }
    ensures size { result ≡ length (hex_bytes field.now) }
    ensures lent { payload.new ≡ front (hex_bytes field.now) payload.old }
{
    if is_dash(field) {
        return 0;
    }
    lay_pairs(field, payload);
    field.len() / 2
}

// The digit that is worth d.
#[tactic(auto, using(group::proofs::Choice::choices), unfolding(crate::specs::Text::glyph_of))]
fn glyph(d: u8) -> u8
    requires { d < hex_base }
    ensures { result ≡ glyph_of d }
{
    if d < 10 { b'0' + d } else { b'a' + (d - 10) }
}

// The digits of a number, in an array from an index on.
// kept: no heap, so the array has room for the longest.
#[derive(Clone, Copy)]
struct Spelled {
    digits: [u8; COUNT_DIGITS],
    start: usize,
}

// Spells a number from its last digit on.
fn spell(n: u64) -> Spelled
    ensures digits { drop result.start result.digits ≡ decimal_digits n n }
    ensures within { (result.start ≤ count_digits) × (length result.digits ≡ count_digits) }
{
    let mut digits = [0u8; COUNT_DIGITS];
    let mut start: usize = COUNT_DIGITS;
    let mut rest = n;
    while 0 < rest {
        start -= 1;
        digits[start] = glyph((rest % 10) as u8);
        rest /= 10;
    }
    Spelled { digits, start }
}

// Each writer lays bytes in the lent output from an index on, and gives the index behind them.
pub fn put(byte: u8, out: &mut [u8], at: usize) -> usize
    requires { at < length out.old }
    ensures { LaidAt at (byte ∷ []) out.old out.new result }
{
    out[at] = byte;
    at + 1
}

pub fn put_text(text: &[u8], out: &mut [u8], at: usize) -> usize
    requires { at + length text.now ≤ length out.old }
    ensures { LaidAt at text.now out.old out.new result }
{
    message::copy(text, &mut out[at..]);
    at + text.len()
}

// A number in base ten.
pub fn put_decimal(n: u64, out: &mut [u8], at: usize) -> usize
    requires { at + length (decimal_of n) ≤ length out.old }
    ensures { LaidAt at (decimal_of n) out.old out.new result }
{
    if n == 0 {
        return put(b'0', out, at);
    }
    let Spelled { digits, start } = spell(n);
    put_text(&digits[start..], out, at)
}

// A field that is a text, behind one space.
pub fn put_word(text: &[u8], out: &mut [u8], at: usize) -> usize
    requires { at + 1 + length text.now ≤ length out.old }
    ensures laid { LaidAt at (spaced (text.now ∷ [])) out.old out.new result }
    ensures short { result ≡ at + 1 + length text.now }
{
    let next = put(b' ', out, at);
    put_text(text, out, next)
}

// A field that is a number up to the largest.
pub fn put_number(n: u32, out: &mut [u8], at: usize) -> usize
    requires { at + 1 + number_digits ≤ length out.old }
    ensures laid { LaidAt at (spaced (decimal_of n ∷ [])) out.old out.new result }
    ensures short { result ≤ at + 1 + number_digits }
{
    let next = put(b' ', out, at);
    put_decimal(n as u64, out, next)
}

// A field that is the index of a packet.
pub fn put_index(index: usize, out: &mut [u8], at: usize) -> usize
    requires { at + 1 + count_digits ≤ length out.old }
    ensures laid { LaidAt at (spaced (decimal_of index ∷ [])) out.old out.new result }
    ensures short { result ≤ at + 1 + count_digits }
{
    let next = put(b' ', out, at);
    put_decimal(index as u64, out, next)
}

// The two digits of a byte.
pub fn put_byte(byte: u8, out: &mut [u8], at: usize) -> usize
    requires { at + 2 ≤ length out.old }
    ensures laid_at { LaidAt at (hex_of (byte ∷ [])) out.old out.new result }
    ensures value { result ≡ at + 2 }
{
    let high = glyph(byte / HEX_BASE);
    let low = glyph(byte % HEX_BASE);
    let next = put(high, out, at);
    put(low, out, next)
}

// Bytes in hex.
pub fn put_hex(bytes: &[u8], out: &mut [u8], at: usize) -> usize
    requires { at + 2 * length bytes.now ≤ length out.old }
    ensures laid { LaidAt at (hex_of bytes.now) out.old out.new result }
    ensures short { result ≡ at + 2 * length bytes.now }
{
    let mut next = at;
    for &byte in bytes {
        next = put_byte(byte, out, next);
    }
    next
}

// A field that is a payload.
pub fn put_payload(payload: &[u8], out: &mut [u8], at: usize) -> usize
    requires { at + 2 + 2 * length payload.now ≤ length out.old }
    ensures laid { LaidAt at (spaced (payload_text payload.now ∷ [])) out.old out.new result }
    ensures short { result ≤ at + 2 + 2 * length payload.now }
{
    let next = put(b' ', out, at);
    if payload.is_empty() {
        put(b'-', out, next)
    } else {
        put_hex(payload, out, next)
    }
}
