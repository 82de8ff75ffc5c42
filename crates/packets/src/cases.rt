// One stored case: what the packet's reader or writer answers, and whether that is the stored answer.
use crate::words;
use packet::Head;
use refusals::Refusal;
use std::io;
use text::filled;

// What an area holds before a call.
const FILL: u32 = 0x5a5a5a5a;

const FILL_BYTE: u8 = 0x5a;

// The parts of an area that a case may lend, a little longer than what is asked of it, and the longest packet of a case.
const WORDS: usize = packet::AREA_WORDS + 4;

const BYTES: usize = packet::OUT_BYTES + 34;

const LONGEST: usize = packet::OUT_BYTES;

// Whether the words from `from` on are as they were. All of them are looked at, several at a time: one differs only where the reader is wrong.
fn words_kept(a: &[u32], from: usize) -> bool {
    let mut kept = true;
    for w in a.get(from..).unwrap_or(&[]) {
        kept &= *w == FILL;
    }
    kept
}

// Whether the bytes from `from` on are as they were, in the same way.
fn bytes_kept(a: &[u8], from: usize) -> bool {
    let mut kept = true;
    for b in a.get(from..).unwrap_or(b"") {
        kept &= *b == FILL_BYTE;
    }
    kept
}

// One word more in a check: 31 times what it was, and the word, modulo a prime.
fn check_step(c: u64, w: u32) -> u64 {
    (c % 4294967291 * 31 + w as u64) % 4294967291
}

// The check of the first `n` words.
fn check_words(a: &[u32], n: usize) -> u64 {
    a.iter().take(n).fold(0, |c, w| check_step(c, *w))
}

fn print_refusal(rt: &impl Print, refusal: Refusal) -> io::Result<()> {
    let n = refusal.number();
    print!(rt; "refused {n}")
}

fn print_verdict(rt: &impl Print, ok: bool) -> io::Result<bool> {
    println!(rt; "{}", if ok { ", ok" } else { ", DIFFERS" })?;
    Ok(ok)
}

// The kind of a case and its name, which stands from byte 2 on. Answers the place after it.
fn print_name(rt: &impl Print, kind: &[u8], line: &[u8]) -> io::Result<usize> {
    let end = words::find(line, 2, true);
    rt.write_all(kind)?;
    rt.write_all(line.get(2..end).unwrap_or(b""))?;
    print!(rt; ": ")?;
    Ok(end)
}

// Whether the taps that were read are written again as the bytes that they were read from, and nothing more.
fn same_again(bytes: &[u8], head: Head, taps: &[u32]) -> bool {
    let mut out: [u8; BYTES] = filled(FILL_BYTE);
    match packet::write(head, taps, &mut out) {
        Ok(n) => n == bytes.len() && out.starts_with(bytes) && bytes_kept(&out, n),
        Err(_) => false,
    }
}

// The stored answer of the reader.
#[derive(Drop)]
struct Expected {
    refusal: u64,
    count: u64,
    images: u64,
    rays: u64,
    check: u64,
}

fn print_taps(rt: &impl Print, head: Head, again: bool) -> io::Result<()> {
    let count = head.count;
    let images = head.images;
    let rays = head.rays;
    let not = if again { "" } else { "NOT " };
    print!(rt; "taps {count} images {images} rays {rays}, {not}written again as the same bytes")
}

// Whether the taps read are the stored ones, and the words past them are as they were.
fn taps_agree(taps: &[u32], count: usize, check: u64) -> bool {
    if packet::MOST_TAPS < count {
        return false;
    }
    check_words(taps, count * packet::TAP_WORDS) == check
        && words_kept(taps, count * packet::TAP_WORDS)
}

// Whether the counts are the stored ones.
fn counts_agree(head: Head, e: Expected) -> bool {
    e.refusal == 0
        && head.count as u64 == e.count
        && head.images as u64 == e.images
        && head.rays as u64 == e.rays
}

// Reads a packet, prints the answer, and tells whether answer and area are the stored ones.
fn try_read(rt: &impl Print, bytes: &[u8], taps: &mut [u32], e: Expected) -> io::Result<bool> {
    match packet::read(bytes, taps) {
        Ok(head) => {
            let again = same_again(bytes, head, taps);
            print_taps(rt, head, again)?;
            Ok(again && taps_agree(taps, head.count, e.check) && counts_agree(head, e))
        }
        Err(refusal) => {
            print_refusal(rt, refusal)?;
            Ok(refusal.number() as u64 == e.refusal && words_kept(taps, 0))
        }
    }
}

// A line with a packet to read.
pub(crate) fn read_case(rt: &impl Print, line: &[u8]) -> io::Result<bool> {
    // The areas come first: each is zeroed at the function's start, which costs nothing where it is filled at once.
    let mut bytes: [u8; LONGEST] = filled(0);
    let mut area: [u32; WORDS] = filled(FILL);
    let after = print_name(rt, b"read ", line)?;
    let mut f = [0u64; 7];
    let at = words::numbers(line, after, &mut f);
    let words = f[0] as usize;
    let n = f[1] as usize;
    let e = Expected {
        refusal: f[2],
        count: f[3],
        images: f[4],
        rays: f[5],
        check: f[6],
    };
    words::hex_bytes(line, at, &mut bytes);
    if WORDS < words || LONGEST < n {
        return print_verdict(rt, false);
    }
    let ok = try_read(rt, &bytes[..n], &mut area[..words], e)?;
    print_verdict(rt, ok)
}

// Writes taps, prints the answer, and tells whether answer and output are the stored ones.
fn try_write(
    rt: &impl Print,
    taps: &[u32],
    out: &mut [u8],
    head: Head,
    refusal: u64,
    packet: &[u8],
) -> io::Result<bool> {
    match packet::write(head, taps, out) {
        Ok(n) => {
            print!(rt; "bytes {n}")?;
            Ok(refusal == 0 && n == packet.len() && out.starts_with(packet) && bytes_kept(out, n))
        }
        Err(e) => {
            print_refusal(rt, e)?;
            Ok(e.number() as u64 == refusal && bytes_kept(out, 0))
        }
    }
}

// A line with taps to write.
pub(crate) fn write_case(rt: &impl Print, line: &[u8]) -> io::Result<bool> {
    // The areas come first: each is zeroed at the function's start, which costs nothing where it is filled at once.
    let mut area: [u32; WORDS] = filled(FILL);
    let mut bytes: [u8; LONGEST] = filled(0);
    let mut out: [u8; BYTES] = filled(FILL_BYTE);
    let after = print_name(rt, b"write ", line)?;
    let mut f = [0u64; 7];
    let at = words::numbers(line, after, &mut f);
    let words = f[0] as usize;
    let room = f[1] as usize;
    let n = f[6] as usize;
    let next = words::hex_words(line, at, &mut area);
    words::hex_bytes(line, next, &mut bytes);
    if WORDS < words || BYTES < room || LONGEST < n {
        return print_verdict(rt, false);
    }
    let head = Head {
        count: f[2] as usize,
        images: (f[3] % 4294967296) as u32,
        rays: (f[4] % 4294967296) as u32,
    };
    let ok = try_write(
        rt,
        &area[..words],
        &mut out[..room],
        head,
        f[5],
        &bytes[..n],
    )?;
    print_verdict(rt, ok)
}
