// From an image's number to its walls: the sequence of planes that has the number, worked out by division.
#![tactic(auto)]

ghost use Rattle.std.specs.Prelude.{◌≡◌, ◌*◌, ◌≤◌, ◌<◌, min, eqb, length, take, []};
ghost use Rattle.sequences.specs.Allowed.{may, most, most_planes};
ghost use Rattle.sequences.specs.Count.{firsts, more, series};
ghost use Rattle.numbering.specs.Walls as spec;
ghost use Rattle.numbering.specs.Unrank.{nth, unrank};
ghost use Rattle.numbering.specs.Contract.{cap, block_of, Placed, Followed};

use refusals::Refusal;
use sequences::{MAX_IMAGE_NODES, MAX_IMAGE_ORDER, MAX_PLANES};

// The limit of `sequences` as a u32, and one more, where the sizes of blocks are cut.
const MOST: u32 = MAX_IMAGE_NODES as u32;

const CAP: u32 = MOST + 1;

// The first `len` planes are the walls, the others are 0.
#[derive(Clone, Copy)]
pub struct Walls {
    pub len: usize,
    pub planes: [u8; MAX_IMAGE_ORDER],
}

// ---- what is taken

// Whether every byte is 0 or 1.
fn are_flags(on: &[u8]) -> bool
    ensures { result ≡ spec.flags on.now }
{
    for byte in on {
        if *byte > 1 {
            return false;
        }
    }
    true
}

// One for a plane that may come first.
fn counts(byte: u8) -> u32
    ensures { result ≡ more (eqb byte 0) 0 }
{
    if byte == 0 { 1 } else { 0 }
}

// How many planes may come first.
fn firsts(on: &[u8]) -> u32
    requires { length on.now ≤ most_planes }
    ensures { result ≡ firsts on.now }
{
    let mut e = 0;
    for byte in on {
        e += counts(*byte);
    }
    e
}

fn least(a: u32, b: u32) -> u32
    ensures { result ≡ min a b }
{
    if a < b { a } else { b }
}

// How many sequences begin with a given one and go on from it by less than `d` planes, itself among them, where each has `m` planes to go on with.
fn block(m: u32, d: u32) -> u32
    requires { m < most_planes }
    ensures { result ≡ block_of m d }
{
    let mut b = 0;
    for k in 0..d {
        b = least(CAP, 1 + m * b);
    }
    b
}

// How many images are visited: `e` planes may come first.
fn images(m: u32, e: u32, order: u32) -> u32
    requires { (m < most_planes) × (e ≤ most_planes) }
    ensures { result ≡ min most (e * series m order) }
{
    least(MOST, e * block(m, order))
}

// Whether n is from 1 to `most`.
fn one_to(most: u32, n: u32) -> bool
    ensures { result ≡ spec.is_one_to most n }
{
    n >= 1 && n <= most
}

// Whether there is an image with that number, and all else is as it must be.
fn takes(planes: u32, order: u32, on: &[u8], number: u32) -> bool
    ensures { result ≡ spec.takes planes order on.now number }
{
    if one_to(MAX_IMAGE_ORDER as u32, order) {} else {
        return false;
    }
    if one_to(MAX_PLANES as u32, planes) {} else {
        return false;
    }
    if on.len() != planes as usize {
        return false;
    }
    if are_flags(on) {} else {
        return false;
    }
    one_to(images(planes - 1, firsts(on), order), number)
}

// ---- the walls

// The plane that may come first and has `q` such planes before it.
fn first_plane(on: &[u8], q: u32) -> u8
    requires { Followed on.now [] 0 q }
    ensures { result ≡ nth (may on.now []) (length on.now) q }
{
    let mut left = q;
    for (p, byte) in on.iter().enumerate() {
        let c = counts(*byte);
        if left < c {
            return p as u8;
        }
        left -= c;
    }
    0
}

// The plane that may follow the first `len` and has `q` such planes before it.
fn plane_at(on: &[u8], planes: [u8; MAX_IMAGE_ORDER], len: usize, q: u32) -> u8
    requires { Followed on.now planes len q }
    ensures { result ≡ nth (may on.now (take len planes)) (length on.now) q }
{
    if len == 0 {
        return first_plane(on, q);
    }
    if q < planes[len - 1] as u32 {
        return q as u8;
    }
    (q + 1) as u8
}

// The walls of the image at `place` of the order, from 0: each turn divides by the size of a block, and one less is left in the block behind its
// first sequence.
fn walls_at(on: &[u8], order: u32, place: u32) -> Walls
    requires { Placed on.now order place }
    ensures { result ≡ spec.walls_from (unrank on.now order [] place) }
{
    let m = (on.len() - 1) as u32;
    let mut planes = [0; MAX_IMAGE_ORDER];
    let mut len = 0;
    let mut rest = place;
    let mut d = order;
    // The walk always ends within: behind a `for` an answer would stand that is never given.
    loop {
        let b = block(m, d);
        planes[len] = plane_at(on, planes, len, rest / b);
        len += 1;
        rest %= b;
        if rest == 0 {
            return Walls {
                len: len,
                planes: planes,
            };
        }
        rest -= 1;
        d -= 1;
    }
}

// The planes of the image with that number, without a walk over the earlier ones. `on` has a byte for each plane: 1 where the source lies on it,
// else 0. Refuses with 13 an order outside 1 to 8, planes outside 1 to 256, bytes of another count or value, and a number that no image has.
pub fn sequence_of(planes: u32, order: u32, on: &[u8], number: u32) -> Result<Walls, Refusal>
    ensures { result ≡ spec.sequence_answer planes order on.now number }
{
    if !takes(planes, order, on, number) {
        return Err(Refusal::NoImage);
    }
    Ok(walls_at(on, order, number - 1))
}
