// Text that a person writes and reads: bytes and lines, tokens with their lines, whole numbers, hexadecimal digits, floats as decimals or by
// their bits, and numbers with a fixed count of decimals.
//
// Proved: `whole`, `decimal`, `float_in`, `float_of` and `hex_digit` answer exactly what specs/Numbers.antt says of the bytes, what is no number
// included, `line_end` what specs/Lines.antt says, and `put_fixed` writes the bytes of specs/Fixed.antt and no others. Of tokens it is proved
// that they lie within the text.
#![tactic(auto)]

ghost use Rattle.std.specs.Prelude.{◌≡◌, ◌+◌, ◌/◌, ◌^◌, ◌<◌, ◌≤◌, true, IfOk, IfSome, length, drop, fold, from_bits, slice_index, slice_index_or, slice_set};
ghost use Rattle.std.specs.List.{All};
ghost use Rattle.std.specs.Float.{binary32};
ghost use Rattle.listing.specs.Request.{is_digit_byte, is_decimal_text};
ghost use Rattle.listing.specs.Text.{Wrote};
ghost use Rattle.text.specs.Numbers as numbers;
ghost use Rattle.text.specs.Fixed as fixed;
ghost use Rattle.text.specs.Lines.{line_length};

use listing::{find, is_decimal, put, put_digits};
use std::io;
use std::io::Read;

// The first number that no u32 is.
const WORD_END: u64 = 4294967296;

// The digits of a decimal without a point.
const MOST_DIGITS: usize = 7;

// The decimals behind a point: so many tens multiply to a float.
const MOST_DECIMALS: usize = 9;

// Every whole number below 2^24 is a float.
const EXACT_END: u64 = 16777216;

// `0x` and eight digits.
const BITS_LENGTH: usize = 10;

// ---- bytes and lines

// The byte at place k; past the end, `other`.
pub fn byte_at(s: &[u8], k: usize, other: u8) -> u8
    ensures { result ≡ slice_index_or s.now k other }
{
    s.get(k).copied().unwrap_or(other)
}

// The place after the line that `at` is in.
#[tactic(auto, unfolding(crate::specs::Lines::line_length))]
pub fn line_end(s: &[u8], at: usize) -> usize
    requires { at < length s.now }
    ensures value { result ≡ at + line_length (drop at s.now) }
    ensures within { (at < result) × (result ≤ length s.now) }
{
    match find(&s[at..], b'\n') {
        Some(k) => at + k + 1,
        None => s.len(),
    }
}

// ---- whole numbers

// n with the digit d behind it, up to 2^32.
#[tactic(auto, unfolding(crate::specs::Numbers::push, listing::specs::Request::is_digit_byte))]
fn push(n: u64, d: u8) -> u64
    requires { (n ≤ numbers.word_end) × (is_digit_byte d ≡ true) }
    ensures { (result ≡ numbers.push n d) × (result ≤ numbers.word_end) }
{
    (n * 10 + (d - b'0') as u64).min(WORD_END)
}

// n with the digits of the word behind it, up to 2^32.
fn value(n: u64, word: &[u8]) -> u64
    requires { (n ≤ numbers.word_end) × (is_decimal_text word.now ≡ true) }
    ensures { (result ≡ fold numbers.push n word.now) × (result ≤ numbers.word_end) }
{
    let mut v = n;
    for d in word {
        v = push(v, *d);
    }
    v
}

// A whole number of 32 bits: digits alone, where `parse` would take a plus before them.
#[tactic(auto, unfolding(crate::specs::Numbers::whole_of))]
pub fn whole(word: &[u8]) -> Option<u32>
    ensures { result ≡ numbers.whole_of word.now }
{
    if is_decimal(word) {
        let v = value(0, word);
        if v < WORD_END {
            return Some(v as u32);
        }
    }
    None
}

// ---- decimals

// v / 10^k, the nearest float: both are floats, since v is below 2^24 and k at most 9.
#[tactic(auto, unfolding(crate::specs::Numbers::divided))]
fn divided(v: u64, k: usize) -> Option<f32>
    requires { k ≤ 9 }
    ensures { result ≡ numbers.divided v k }
{
    if v < EXACT_END {
        let whole = std::num::nearest_u32_to_f32(v as u32);
        let tens = std::num::nearest_u32_to_f32(10u32.pow(k as u32));
        return Some(whole / tens);
    }
    None
}

// A decimal with a point, by what stands before and behind it.
#[tactic(auto, unfolding(crate::specs::Numbers::parted))]
fn parted(a: &[u8], b: &[u8]) -> Option<f32>
    ensures { result ≡ numbers.parted a.now b.now }
{
    if MOST_DECIMALS < b.len() || !is_decimal(a) || !is_decimal(b) {
        return None;
    }
    divided(value(value(0, a), b), b.len())
}

// A decimal without a point.
#[tactic(auto, unfolding(crate::specs::Numbers::unparted))]
fn unparted(word: &[u8]) -> Option<f32>
    ensures { result ≡ numbers.unparted word.now }
{
    if MOST_DIGITS < word.len() || !is_decimal(word) {
        return None;
    }
    divided(value(0, word), 0)
}

// A decimal without a sign.
#[tactic(auto, unfolding(crate::specs::Numbers::unsigned))]
fn unsigned(word: &[u8]) -> Option<f32>
    ensures { result ≡ numbers.unsigned word.now }
{
    match find(word, b'.') {
        Some(p) => parted(&word[..p], &word[p + 1..]),
        None => unparted(word),
    }
}

// A decimal: a minus or none, then one to seven digits, or digits, a point and up to nine digits that make a number below 2^24 without the point.
#[tactic(auto, unfolding(crate::specs::Numbers::decimal_of))]
fn decimal(word: &[u8]) -> Option<f32>
    ensures { result ≡ numbers.decimal_of word.now }
{
    if word.len() == 0 {
        return None;
    }
    if word[0] == b'-' {
        return unsigned(&word[1..]).map(|v| -v);
    }
    unsigned(word)
}

// ---- floats by their bits

// The value of a hexadecimal digit.
#[tactic(auto, unfolding(crate::specs::Numbers::hex_digit_of))]
pub fn hex_digit(b: u8) -> Option<u8>
    ensures value { result ≡ numbers.hex_digit_of b }
    ensures small { IfSome result (λ d. d < 16) }
{
    match b {
        b'0'..=b'9' => Some(b - b'0'),
        b'a'..=b'f' => Some(b - b'a' + 10),
        _ => None,
    }
}

#[tactic(auto, unfolding(crate::specs::Numbers::all_hex))]
pub fn is_hex(word: &[u8]) -> bool
    ensures { result ≡ numbers.all_hex word.now }
{
    word.iter().all(|b| hex_digit(*b).is_some())
}

// The lower 28 bits of n with a hexadecimal digit behind them.
#[tactic(auto, unfolding(crate::specs::Numbers::push_hex_digit))]
fn push_hex(n: u32, b: u8) -> u32
    ensures { result ≡ numbers.push_hex_digit n b }
{
    n % 0x1000_0000 * 16 + hex_digit(b).unwrap_or(0) as u32
}

// Hexadecimal digit number k of words, eight to a word; nothing where there is no such word.
pub fn put_hex(words: &mut [u32], k: usize, b: u8)
    ensures { words.new ≡ slice_set words.old (k / 8) (numbers.push_hex_digit (slice_index words.old (k / 8)) b) }
{
    let i = k / 8;
    if i < words.len() {
        words[i] = push_hex(words[i], b);
    }
}

// The last eight digits as a number.
#[tactic(auto, unfolding(crate::specs::Numbers::hex_value_of))]
fn hex_value(word: &[u8]) -> u32
    ensures { result ≡ numbers.hex_value_of word.now }
{
    word.iter().fold(0, |n, b| push_hex(n, *b))
}

// The float that has these bits.
pub fn float_of(w: u32) -> f32
    ensures { result ≡ from_bits binary32 w }
{
    if 0x7f80_0000 < w % 0x8000_0000 {
        return 0.0 / 0.0;
    }
    f32::from_bits(w)
}

// Whether a word of two bytes or more begins with `0x`.
#[tactic(auto, unfolding(crate::specs::Numbers::prefixed))]
fn prefixed(word: &[u8]) -> bool
    requires { 2 ≤ length word.now }
    ensures { result ≡ numbers.prefixed word.now }
{
    word[0] == b'0' && word[1] == b'x'
}

// A float by its bits, hexadecimal digits.
#[tactic(auto, unfolding(crate::specs::Numbers::bits_of_hex))]
fn hex_bits(digits: &[u8]) -> Option<f32>
    ensures { result ≡ numbers.bits_of_hex digits.now }
{
    if is_hex(digits) {
        return Some(float_of(hex_value(digits)));
    }
    None
}

// A float: `0x` and eight hexadecimal digits are its bits, and anything else is a decimal.
#[tactic(auto, unfolding(crate::specs::Numbers::number_of))]
pub fn float_in(word: &[u8]) -> Option<f32>
    ensures { result ≡ numbers.number_of word.now }
{
    if word.len() != BITS_LENGTH {
        return decimal(word);
    }
    if prefixed(word) {
        return hex_bits(&word[2..]);
    }
    decimal(word)
}

// ---- numbers with decimals

// |x| * tens to the nearest whole number, a half going up; none where that is 2^64 or more, or x is NaN.
#[tactic(auto, unfolding(crate::specs::Fixed::scaled_of))]
fn scaled(x: f32, tens: u32) -> Option<u64>
    ensures { result ≡ fixed.scaled_of x tens }
{
    let y = std::num::f32_to_f64_with_nan(float::abs(x)) * (tens as f64) + 0.5;
    if y > -1.0 && y < 18446744073709551616.0 {
        return Some(std::num::truncating_f64_to_u64(y));
    }
    None
}

// A minus where x is below 0 and does not print as 0.
#[tactic(auto, unfolding(crate::specs::Fixed::sign_of))]
fn put_sign(x: f32, m: u64, out: &mut [u8], at: usize) -> usize
    requires { at < length out.old }
    ensures { Wrote (fixed.sign_of x m) out.old at out.new result }
{
    if m != 0 && x < 0.0 {
        put(b'-', out, at)
    } else {
        at
    }
}

// The last k digits of n.
fn put_last(n: usize, k: usize, out: &mut [u8], at: usize) -> usize
    requires { at + k ≤ length out.old }
    ensures { Wrote (fixed.last_digits k n) out.old at out.new result }
{
    if k == 0 {
        return at;
    }
    let next = put_last(n / 10, k - 1, out, at);
    put(b'0' + (n % 10) as u8, out, next)
}

// A number m / 10^k with its k decimals, of at most 28 bytes with what stands before it.
fn put_parts(m: usize, k: usize, tens: usize, out: &mut [u8], at: usize) -> usize
    requires { (k ≤ 6) × (tens ≡ 10 ^ k) × (0 < tens) × (at + 27 ≤ length out.old) }
    ensures { Wrote (fixed.parts_of m k) out.old at out.new result }
{
    let a = put_digits(m / tens, 20, out, at);
    let b = put(b'.', out, a);
    put_last(m, k, out, b)
}

// x with k decimals, at the front of `out`; `-` where it is NaN or too large. By hand, since a format rounds a half to even and prints a minus before 0, and
// says in no contract what it prints of a float.
pub fn put_fixed(x: f32, k: usize, out: &mut [u8]) -> usize
    requires { (k ≤ 6) × (28 ≤ length out.old) }
    ensures { Wrote (fixed.fixed_of x k) out.old 0 out.new result × (result ≤ length out.new) }
{
    let tens = 10u32.pow(k as u32);
    let Some(m) = scaled(x, tens) else {
        return put(b'-', out, 0);
    };
    let a = put_sign(x, m, out, 0);
    put_parts(m as usize, k, tens as usize, out, a)
}

// ---- tokens

// A token is the bytes from `start` to `end`, and stands in line `line`; at the text's end it is empty.
#[derive(Clone, Copy)]
pub struct Token {
    pub start: usize,
    pub end: usize,
    pub line: u32,
}

#[derive(Clone, Copy)]
struct Place {
    at: usize,
    line: u32,
}

fn is_blank(b: u8) -> bool {
    matches!(b, b' ' | b'\n' | b'\t' | b'\r')
}

// Whether a token begins with this byte.
fn begins(b: u8, remark: bool) -> bool {
    !remark && b != b'#' && !is_blank(b)
}

// Whether what follows this byte is a remark, which `#` begins and the line's end ends.
fn remark_after(b: u8, remark: bool) -> bool {
    b == b'#' || remark && b != b'\n'
}

// The line of what follows this byte.
fn line_after(b: u8, line: u32) -> u32 {
    if b == b'\n' && line < 1000000 {
        line + 1
    } else {
        line
    }
}

// The place of the next token, or the end.
fn token_start(s: &[u8], at: usize, from: u32) -> Place
    ensures { result.at ≤ length s.now }
{
    let mut line = from;
    let mut remark = false;
    for i in at..s.len() {
        if begins(s[i], remark) {
            return Place { at: i, line };
        }
        remark = remark_after(s[i], remark);
        line = line_after(s[i], line);
    }
    Place { at: s.len(), line }
}

// The place after the token that `at` is in.
fn token_end(s: &[u8], at: usize) -> usize
    requires { at ≤ length s.now }
    ensures { (at ≤ result) × (result ≤ length s.now) }
{
    match s[at..].iter().position(|b| !begins(*b, false)) {
        Some(k) => at + k,
        None => s.len(),
    }
}

// The next token from `at` on, which is in line `line`.
pub fn next_token(s: &[u8], at: usize, line: u32) -> Token
    ensures { (result.start ≤ result.end) × (result.end ≤ length s.now) }
{
    let place = token_start(s, at, line);
    Token {
        start: place.at,
        end: token_end(s, place.at),
        line: place.line,
    }
}

// ---- lines of hexadecimal digits

// The hexadecimal digits of a text, to words that are zero, eight to a word; other bytes are passed over. Answers how many digits there are.
pub fn hex_words(s: &[u8], words: &mut [u32]) -> usize
    ensures { (words.new, result) ≡ numbers.hex_words_of s.now words.old }
{
    let mut k = 0;
    for b in s {
        if hex_digit(*b).is_some() {
            put_hex(words, k, *b);
            k += 1;
        }
    }
    k
}

// ---- a program's areas and input

// An array of one value. A function, so that no proof looks into so long a list.
pub fn filled<T: Copy, const N: usize>(value: T) -> [T; N]
    ensures each { All (λ x. x ≡ value) result }
    ensures all { length result ≡ N }
{
    [value; N]
}

// Reads until `buf` is full or the input ends; answers how many bytes stand at its start. No method of the library does: `read_exact` takes an early end for
// an error, and `read_to_end` allocates.
pub fn read_full(input: &mut impl Read, buf: &mut [u8]) -> io::Result<usize>
    ensures { IfOk result (λ n. n ≤ length buf.new) }
{
    let mut done = 0;
    while done < buf.len() {
        let n = input.read(&mut buf[done..])?;
        if n == 0 {
            break;
        }
        done += n;
    }
    Ok(done)
}
