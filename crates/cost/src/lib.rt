// What a query will cost, without a search: how many of the images that it visits have each order, and the candidates, rays and words that follow.
// The images stand in the order of a dictionary, a sequence before its extensions, and the first 250,000 of them are visited. So on each level of
// the tree of sequences some are visited with all that goes on from them, then one in part, then none: a turn a level counts them by division.
// Nothing is cut short on the way: 256 × (1 + 255 + .. + 255^7) is below 2^64.
#![tactic(auto)]

ghost use Rattle.std.specs.Prelude.{◌≡◌, ◌+◌, ◌-◌, ◌*◌, ◌≤◌, ◌<◌, min};
ghost use Rattle.sequences.specs.Allowed.{most, most_order, most_planes};
ghost use Rattle.sequences.specs.Count as count;
ghost use Rattle.scene.specs.Limits.{most_crossings, most_triples};
ghost use Rattle.scene.specs.Areas.{work_words};
ghost use Rattle.cost.specs.Cost as spec;
ghost use Rattle.cost.specs.Forecast.{Forecast};

use refusals::Refusal;
use scene::{AREAS, CANDIDATES, MORE, MOST_TRIPLES, TRIPLES};
use sequences::{MAX_IMAGE_NODES, MAX_IMAGE_ORDER, MAX_PLANES};

const MOST_CROSSINGS: usize = scene::MOST_CROSSINGS as usize;

// The words of 32 bits of an element of each area, in the order of `scene::TRIPLES`; the output is no work area.
pub const WORDS: [usize; AREAS] = [
    1, // triangles
    1, // handles
    1, // tree
    1, // nodes
    1, // leaf_order
    2, // keys
    2, // low_keys
    2, // words
    2, // scratch
    1, // index
    1, // numbers
    1, // adjacency
    1, // queue
    1, // offsets
    1, // floats
    1, // plane_triangles
    1, // plane_floats
    1, // plane_words
    1, // plane_edges
    0, // out
];

// A forecast: the images of each order from 1 to 8, their sum, which bounds the candidates, the most rays, and the words of work area for that many
// candidates.
#[derive(Clone, Copy, Default)]
pub struct Cost {
    pub counts: [u32; MAX_IMAGE_ORDER],
    pub candidates: u32,
    pub rays: u64,
    pub words: u64,
}

// From 1 to `most`.
fn within(x: u32, most: usize) -> bool
    ensures { result ≡ spec.within x most }
{
    if x < 1 {
        return false;
    }
    x as usize <= most
}

// What is not turned away.
fn takes(crossing_limit: u32, planes: u32, first: u32, order: u32, triples: u32) -> bool
    ensures { result ≡ spec.takes crossing_limit planes first order triples }
{
    if within(crossing_limit, MOST_CROSSINGS) {
        if within(planes, MAX_PLANES) {
            if within(order, MAX_IMAGE_ORDER) {
                if first <= planes {
                    return triples as usize <= MOST_TRIPLES;
                }
            }
        }
    }
    false
}

// 1 + m + .. + m^(d − 1): a sequence with all that goes on from it by fewer than d planes.
fn series(m: u64, d: usize) -> u64
    requires { (m < most_planes) × (d ≤ most_order) }
    ensures { result ≡ count.series m d }
{
    let mut s = 0;
    for k in 0..d {
        s = m * s + 1;
    }
    s
}

// How many sequences are allowed.
fn allowed(m: u64, first: u64, order: usize) -> u64
    requires { (m < most_planes) × (first ≤ most_planes) × (order ≤ most_order) }
    ensures { result ≡ first * count.series m order }
{
    first * series(m, order)
}

// How many of them are visited.
fn visited(all: u64) -> u64
    ensures { (result ≡ min most all) × (result ≤ most) }
{
    if all < MAX_IMAGE_NODES as u64 {
        return all;
    }
    MAX_IMAGE_NODES as u64
}

// 1 for all but 0: whether something of a subtree is visited.
fn begun(rest: u64) -> u64
    ensures { result ≡ min 1 rest }
{
    if rest == 0 {
        return 0;
    }
    1
}

// The images of each order, of the first `images` sequences. `full` is how many were visited whole on the level above, and `under` how many go
// on from the one that was visited in part.
fn counts_of(m: u64, order: usize, images: u64) -> [u32; MAX_IMAGE_ORDER]
    requires { (m < most_planes) × (order ≤ most_order) × (images ≤ most) }
    ensures { result ≡ spec.to_eight order (spec.levels_of m order images) }
{
    let mut counts = [0; MAX_IMAGE_ORDER];
    let mut full = 0;
    let mut under = images;
    for k in 0..order {
        let block = series(m, order - k);
        full = m * full + under / block;
        let rest = under % block;
        let part = begun(rest);
        counts[k] = (full + part) as u32;
        under = rest - part;
    }
    counts
}

// The rays of so many images of each order.
fn rays_of(limit: u64, counts: [u32; MAX_IMAGE_ORDER]) -> u64
    requires { limit ≤ most_crossings }
    ensures { result ≡ spec.rays_over limit 1 counts }
{
    let mut rays = 0;
    for k in 0..MAX_IMAGE_ORDER {
        rays += 18 * (limit + 1) * (k as u64 + 2) * counts[k] as u64;
    }
    rays
}

// The words of the work areas for t triples and c candidates.
fn words_of(t: usize, c: usize) -> usize
    requires { (t ≤ most_triples) × (c ≤ most) }
    ensures { result ≡ work_words t c }
{
    let mut words = 0;
    for i in 0..AREAS {
        words += WORDS[i] * (TRIPLES[i] * t + CANDIDATES[i] * c + MORE[i]);
    }
    words
}

// The forecast for so many crossings of a half segment, so many planes of which `first` may come first, sequences of at most `order` planes, and so many
// whole triples. Refuses a crossing limit outside 1 to 32, planes outside 1 to 256, an order outside 1 to 8, more first planes than planes and more than
// 4,096 triples.
pub fn query_cost(
    crossing_limit: u32,
    planes: u32,
    first: u32,
    order: u32,
    triples: u32,
) -> Result<Cost, Refusal>
    ensures { Forecast crossing_limit planes first order triples result }
{
    if !takes(crossing_limit, planes, first, order, triples) {
        return Err(Refusal::Forecast);
    }
    let m = planes as u64 - 1;
    let all = allowed(m, first as u64, order as usize);
    let images = visited(all);
    let counts = counts_of(m, order as usize, images);
    let rays = rays_of(crossing_limit as u64, counts);
    let words = words_of(triples as usize, images as usize);
    Ok(Cost {
        counts,
        candidates: images as u32,
        rays,
        words: words as u64,
    })
}
