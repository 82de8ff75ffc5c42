// The text of the program `images`: what it reads, and what it prints, piece by piece.
#![tactic(auto)]

ghost use Rattle.std.specs.Prelude.{◌≡◌, true, [], ◌∷◌, ◌+◌, ◌*◌, ◌^◌, ◌≤◌, ◌<◌, ◌==◌, min, length, position};
ghost use Rattle.std.specs.List.{list_all};
ghost use Rattle.sequences.specs.Allowed.{most, most_order};
ghost use Rattle.sequences.specs.Run.{per_record};
ghost use Rattle.listing.specs.Request as request;
ghost use Rattle.listing.specs.Text as text;
ghost use Rattle.listing.specs.Printed as printed;

use sequences::{MAX_IMAGE_NODES, MAX_IMAGE_ORDER, RECORD, enumerate};

// The longest text that is read, a byte less than the programs have room for: a longer input fills that room and is refused.
const TEXT: usize = 4095;

// Numbers are read up to here, which is past every bound on them.
const CAP: usize = 100_000;

const PLANES: usize = 16;

// The bytes of the records of all images.
pub const RECORDS: usize = MAX_IMAGE_NODES * RECORD;

// The most digits of a number, and the most bytes of a header and of a line.
const DIGITS: usize = 20;

const HEADER: usize = 28;

const LINE: usize = 190;

#[derive(Clone, Copy)]
pub struct Request {
    pub planes: usize,
    pub order: usize,
    pub mask: usize,
}

// The text begins with the first `len` bytes of the output, and the lines of `total` images follow.
#[derive(Clone, Copy)]
pub struct Head {
    pub total: usize,
    pub len: usize,
}

// The lines up to that of image number `next` are the first `len` bytes of the output.
#[derive(Clone, Copy)]
pub struct Chunk {
    pub next: usize,
    pub len: usize,
}

// ---- the request

// The place of the first byte `b`.
pub fn find(s: &[u8], b: u8) -> Option<usize>
    ensures { result ≡ position (λ x. x == b) s.now }
{
    s.iter().position(|x| *x == b)
}

#[tactic(auto, unfolding(crate::specs::Request::is_digit_byte))]
fn is_digit(b: u8) -> bool
    ensures { result ≡ request.is_digit_byte b }
{
    b.is_ascii_digit()
}

fn all_digits(word: &[u8]) -> bool
    ensures { result ≡ list_all request.is_digit_byte word.now }
{
    word.iter().all(|b| is_digit(*b))
}

pub fn is_decimal(word: &[u8]) -> bool
    ensures { result ≡ request.is_decimal_text word.now }
{
    word.len() != 0 && all_digits(word)
}

// n with the digit d behind it.
#[tactic(auto, unfolding(crate::specs::Request::is_digit_byte))]
fn push(n: usize, d: u8) -> usize
    requires { (n ≤ request.cap) × (request.is_digit_byte d ≡ true) }
    ensures { result ≡ min (request.push n d) request.cap }
{
    (n * 10 + (d - b'0') as usize).min(CAP)
}

#[tactic(auto, unfolding(crate::specs::Request::value_of))]
fn value(word: &[u8]) -> usize
    requires { request.is_decimal_text word.now ≡ true }
    ensures { result ≡ min (request.value_of word.now) request.cap }
{
    let mut n = 0;
    for d in word {
        n = push(n, *d);
    }
    n
}

#[tactic(auto, unfolding(crate::specs::Request::in_range))]
fn in_range(planes: usize, order: usize, mask: usize) -> bool
    ensures { result ≡ request.in_range planes order mask }
{
    planes >= 1 && planes <= PLANES && order >= 1 && order <= MAX_IMAGE_ORDER && mask < 1 << planes
}

// Three words, of which the third may hold further spaces.
fn read_words(first: &[u8], second: &[u8], third: &[u8]) -> Option<Request>
    ensures { result ≡ request.asked (first.now ∷ second.now ∷ request.words third.now) }
{
    if !is_decimal(first) || !is_decimal(second) || !is_decimal(third) {
        return None;
    }
    let planes = value(first);
    let order = value(second);
    let mask = value(third);
    if in_range(planes, order, mask) {
        return Some(Request {
            planes,
            order,
            mask,
        });
    }
    None
}

// A first word, and what stands behind the space after it.
fn read_rest(first: &[u8], rest: &[u8]) -> Option<Request>
    ensures { result ≡ request.asked (first.now ∷ request.words rest.now) }
{
    let p = find(rest, b' ')?;
    read_words(first, &rest[..p], &rest[p + 1..])
}

fn read_line(line: &[u8]) -> Option<Request>
    ensures { result ≡ request.asked (request.words line.now) }
{
    let p = find(line, b' ')?;
    read_rest(&line[..p], &line[p + 1..])
}

// The length of the text without a line feed at its end.
#[tactic(auto, unfolding(crate::specs::Request::length_of_line))]
fn line_end(text: &[u8]) -> usize
    ensures { result ≡ request.length_of_line text.now }
{
    let n = text.len();
    if n != 0 && text[n - 1] == b'\n' {
        n - 1
    } else {
        n
    }
}

// Three decimals on one line with one space between them; every other text is refused.
fn read_request(text: &[u8]) -> Option<Request>
    ensures { result ≡ request.request_of text.now }
{
    if text.len() > TEXT {
        return None;
    }
    let end = line_end(text);
    read_line(&text[..end])
}

// ---- the pieces of the text

// One byte at `at`; answers the place after it, as all that follow do.
pub fn put(b: u8, out: &mut [u8], at: usize) -> usize
    requires { at < length out.old }
    ensures { text.Wrote (b ∷ []) out.old at out.new result }
{
    out[at] = b;
    at + 1
}

fn put_bytes(bytes: &[u8], out: &mut [u8], at: usize) -> usize
    requires { at + length bytes.now ≤ length out.old }
    ensures { text.Wrote bytes.now out.old at out.new result }
{
    let end = at + bytes.len();
    out[at..end].copy_from_slice(bytes);
    end
}

// n in decimal, of at most `most` digits. By hand, since a format writes to no slice without an allocation.
pub fn put_digits(n: usize, most: usize, out: &mut [u8], at: usize) -> usize
    requires { at + most ≤ length out.old }
    ensures { text.Wrote (text.digits_of most n) out.old at out.new result }
{
    if most == 0 {
        return at;
    }
    let last = b'0' + (n % 10) as u8;
    if n < 10 {
        return put(last, out, at);
    }
    let next = put_digits(n / 10, most - 1, out, at);
    put(last, out, next)
}

// Each of the planes after a space.
fn put_planes(planes: &[u8], out: &mut [u8], at: usize) -> usize
    requires { at + (1 + text.most_digits) * length planes.now ≤ length out.old }
    ensures { text.Wrote (text.planes_of planes.now) out.old at out.new result }
{
    let mut p = at;
    for plane in planes {
        p = put(b' ', out, p);
        p = put_digits(*plane as usize, DIGITS, out, p);
    }
    p
}

fn put_line(number: usize, planes: &[u8], out: &mut [u8], at: usize) -> usize
    requires { (length planes.now ≤ most_order) × (at + text.most_line ≤ length out.old) }
    ensures { text.Wrote (text.line_of number planes.now) out.old at out.new result }
{
    let a = put_digits(number, DIGITS, out, at);
    let b = put(b':', out, a);
    let c = put_planes(planes, out, b);
    put(b'\n', out, c)
}

// The line of the image whose record is number k from 0.
fn put_image(records: &[u8], k: usize, out: &mut [u8], at: usize) -> usize
    requires { (k * per_record + per_record ≤ length records.now) × (at + text.most_line ≤ length out.old) }
    ensures { text.Wrote (text.line_of (k + 1) (text.planes_at records.now k)) out.old at out.new result }
{
    let from = k * RECORD;
    let to = from + (records[from + MAX_IMAGE_ORDER] as usize).min(MAX_IMAGE_ORDER);
    put_line(k + 1, &records[from..to], out, at)
}

fn put_header(total: usize, out: &mut [u8]) -> usize
    requires { text.most_header ≤ length out.old }
    ensures { text.Wrote (text.header_of total) out.old 0 out.new result }
{
    let a = put_bytes(b"images ", out, 0);
    let b = put_digits(total, DIGITS, out, a);
    put(b'\n', out, b)
}

#[tactic(auto, unfolding(crate::specs::Text::end_of_chunk))]
fn chunk_end(total: usize, from: usize, records: usize, out: usize) -> usize
    ensures { result ≡ text.end_of_chunk total from records out }
{
    from + total
        .min(records / RECORD)
        .saturating_sub(from)
        .min(out / LINE)
}

// The lines of the images from record `from` on, as many as surely have room.
pub fn lines(records: &[u8], total: usize, from: usize, out: &mut [u8]) -> Chunk
    ensures { text.Chunked records.now total from out.old result out.new }
{
    let end = chunk_end(total, from, records.len(), out.len());
    let mut len = 0;
    for k in from..end {
        len = put_image(records, k, out, len);
    }
    Chunk { next: end, len }
}

// ---- the answer

// A byte for each plane: 1 where its bit of the mask stands.
fn put_on(mask: usize, on: &mut [u8])
    ensures { on.new ≡ printed.on_bytes (length on.old) mask }
{
    let mut m = mask;
    for bit in on.iter_mut() {
        *bit = (m % 2) as u8;
        m /= 2;
    }
}

fn list_images(
    planes: usize,
    order: usize,
    mask: usize,
    records: &mut [u8],
    out: &mut [u8],
) -> Option<Head>
    requires { (planes ≤ request.most_planes) × (order ≤ most_order) × (most * per_record ≤ length records.old) × (text.most_header ≤ length out.old) }
    ensures { printed.Listed planes order mask records.old out.old result records.new out.new }
{
    let mut on = [0u8; PLANES];
    put_on(mask, &mut on);
    let found = enumerate(&on[..planes], order, records);
    match found {
        Some(total) => Some(Head {
            total,
            len: put_header(total, out),
        }),
        None => None,
    }
}

// The answer to a text: the records of its images go to `records`, and the first line of what is printed to the front of `out`. Where one of
// the two is too short nothing is written.
pub fn answer(text: &[u8], records: &mut [u8], out: &mut [u8]) -> Option<Head>
    ensures { printed.Answered text.now records.old out.old result records.new out.new }
{
    if records.len() < RECORDS || out.len() < HEADER {
        return None;
    }
    match read_request(text) {
        Some(r) => list_images(r.planes, r.order, r.mask, records, out),
        None => Some(Head {
            total: 0,
            len: put_bytes(b"refused\n", out, 0),
        }),
    }
}
