// The words, numbers and hexadecimal digits of a line.

// A number, and the place after it.
#[derive(Drop)]
struct Found {
    value: u64,
    next: usize,
}

// The place of the first byte from `at` on that is a space, or that is none.
pub(crate) fn find(s: &[u8], at: usize, space: bool) -> usize {
    let part = s.get(at..).unwrap_or(b"");
    match part.iter().position(|b| (*b == b' ') == space) {
        Some(k) => at + k,
        None => at.max(s.len()),
    }
}

// One decimal digit more, for numbers of at most ten digits.
fn push_digit(n: u64, digit: u8) -> u64 {
    if n < 1000000000 && b'0' <= digit {
        return n * 10 + (digit - b'0') as u64;
    }
    n
}

// The decimal number at a place.
fn number(s: &[u8], at: usize) -> Found {
    let mut n = 0;
    for i in at..s.len() {
        if s[i] < b'0' {
            return Found { value: n, next: i };
        }
        n = push_digit(n, s[i]);
    }
    Found {
        value: n,
        next: at.max(s.len()),
    }
}

// The numbers of the next seven words. Answers the place after them.
pub(crate) fn numbers(s: &[u8], at: usize, to: &mut [u64; 7]) -> usize {
    let mut i = at;
    for x in to.iter_mut() {
        let n = number(s, find(s, i, false));
        *x = n.value;
        i = n.next;
    }
    i
}

// Digit number k of bytes, the upper half of each byte first.
fn push_byte(to: &mut [u8], k: usize, digit: u8) {
    if k / 2 < to.len() {
        to[k / 2] = to[k / 2] % 16 * 16 + digit % 16;
    }
}

// The bytes in hexadecimal from `at` up to the line's end, to `to`, which is zeros.
pub(crate) fn hex_bytes(s: &[u8], at: usize, to: &mut [u8]) {
    let mut k = 0;
    for b in s.get(at..).unwrap_or(b"") {
        if let Some(d) = text::hex_digit(*b) {
            push_byte(to, k, d);
            k += 1;
        }
    }
}

// The words in hexadecimal from `at` up to `=` or the line's end, to `to`. Answers the place after them.
pub(crate) fn hex_words(s: &[u8], at: usize, to: &mut [u32]) -> usize {
    let part = s.get(at..).unwrap_or(b"");
    let found = listing::find(part, b'=');
    text::hex_words(&part[..found.unwrap_or(part.len())], to);
    match found {
        Some(k) => at + k + 1,
        None => at.max(s.len()),
    }
}
