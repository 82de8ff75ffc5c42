// Where a list of triangles is split: the search of `BvhNode::build_sah` for the least cost over three axes. Of a triangle it needs
// the box and the centroid: `extents` holds nine floats a triangle, where the Rust works them out in each pass.
// A crate of its own, as each step of its group is, so that it is checked alone.
#![tactic(auto)]

ghost use Rattle.std.specs.Prelude.{◌≡◌, ℕ, ◌+◌, ◌-◌, ◌*◌, ◌<◌, ◌≤◌, length, get_or, drop};
ghost use Rattle.std.specs.Float.{nan};
ghost use Rattle.order.specs.Open.{Open};
ghost use Rattle.order.specs.Sort.{Below};
ghost use Rattle.vector.specs.Vector.{axis_of};
ghost use Rattle.geometry.specs.Aabb.{from_point_of, surface_area_of};
ghost use Rattle.tree_split.specs.Split.{aabb_at_of, centroid_at_of, count_of, KeysInOrder, Keyed, sort_on, bounds_of, suffix_of};
ghost use Rattle.tree_split.specs.Split.{cost_of, better_of, sweep_of, swept, search_axis_of, search_axes_of, divided, split_of, Splits};

use geometry::Aabb;
use vector::Vec3;

// The best split so far: its cost, its axis, and how many triangles go left.
#[derive(Clone, Copy)]
pub struct BestSplit {
    pub cost: f32,
    pub axis: usize,
    pub at: usize,
}

// The box of triangle i.
fn aabb_at(extents: &[f32], i: usize) -> Aabb
    requires { 9 * i + 9 ≤ length extents.now }
    ensures { result ≡ aabb_at_of extents.now i }
{
    let at = 9 * i;
    let min = Vec3 {
        x: extents[at],
        y: extents[at + 1],
        z: extents[at + 2],
    };
    let max = Vec3 {
        x: extents[at + 3],
        y: extents[at + 4],
        z: extents[at + 5],
    };
    Aabb { min, max }
}

// The centroid of triangle i.
fn centroid_at(extents: &[f32], i: usize) -> Vec3
    requires { 9 * i + 9 ≤ length extents.now }
    ensures { result ≡ centroid_at_of extents.now i }
{
    let at = 9 * i;
    Vec3 {
        x: extents[at + 6],
        y: extents[at + 7],
        z: extents[at + 8],
    }
}

// The box of a list of triangles.
pub fn bounds(extents: &[f32], n: usize, part: &[u32]) -> Aabb
    requires n_in_bounds { 9 * n ≤ length extents.now }
    requires below { Below n part.now }
    ensures { result ≡ bounds_of (aabb_at_of extents.now) part.now }
{
    let mut acc = geometry::new_empty();
    for tri in part {
        let t = *tri as usize;
        acc = geometry::union(acc, aabb_at(extents, t));
    }
    acc
}

// The box of their centroids.
fn centroid_aabb(extents: &[f32], n: usize, part: &[u32]) -> Aabb
    requires n_in_bounds { 9 * n ≤ length extents.now }
    requires below { Below n part.now }
    ensures { result ≡ bounds_of (λ i. from_point_of (centroid_at_of extents.now i)) part.now }
{
    let mut acc = geometry::new_empty();
    for tri in part {
        let t = *tri as usize;
        acc = geometry::union(acc, geometry::from_point(centroid_at(extents, t)));
    }
    acc
}

// The surface area of the box of the triangles from each position on.
fn suffix_areas(extents: &[f32], n: usize, part: &[u32], areas: &mut [f32])
    requires n_in_bounds { 9 * n ≤ length extents.now }
    requires below { Below n part.now }
    requires part_in_bounds { length part.now ≤ length areas.old }
    ensures { (k : ℕ) → k < length part.now →
        get_or areas.new k nan ≡ surface_area_of (suffix_of (aabb_at_of extents.now) (drop k part.now)) }
{
    let mut acc = geometry::new_empty();
    for i in (0..part.len()).rev() {
        let t = part[i] as usize;
        acc = geometry::union(acc, aabb_at(extents, t));
        areas[i] = geometry::surface_area(acc);
    }
}

// A count as a float: exact, for it is below 2 ^ 16.
fn count(n: usize) -> f32
    requires { n < 65536 }
    ensures { result ≡ count_of n }
{
    n as u16 as f32
}

fn cost(left: f32, right: f32, i: usize, n: usize) -> f32
    requires { (i ≤ n) × (n < 65536) }
    ensures { result ≡ cost_of left right i n }
{
    1.0 + (left * count(i) + right * count(n - i)) / count(n)
}

fn better(cost: f32, axis: usize, i: usize, c: BestSplit) -> BestSplit
    ensures { result ≡ better_of cost axis i c }
{
    if cost < c.cost {
        return BestSplit { cost, axis, at: i };
    }
    c
}

// Tries each split of a sorted list.
fn sweep(
    extents: &[f32],
    n: usize,
    axis: usize,
    part: &[u32],
    areas: &[f32],
    c: BestSplit,
) -> BestSplit
    requires n_in_bounds { 9 * n ≤ length extents.now }
    requires below { Below n part.now }
    requires part_nonzero { (0 < length part.now) × (length part.now < 65536) }
    requires part_in_bounds { length part.now ≤ length areas.now }
    requires by_index { (k : ℕ) → k < length part.now → get_or areas.now k nan ≡ surface_area_of (suffix_of (aabb_at_of extents.now) (drop k part.now)) }
    ensures { result ≡ sweep_of (aabb_at_of extents.now) axis part.now (length part.now - 1) c }
{
    let m = part.len();
    let mut acc = geometry::new_empty();
    let mut s = c;
    for k in 0..m - 1 {
        let t = part[k] as usize;
        acc = geometry::union(acc, aabb_at(extents, t));
        let left = k + 1;
        s = better(
            cost(geometry::surface_area(acc), areas[left], left, m),
            axis,
            left,
            s,
        );
    }
    s
}

// Sorts by the centroids' part along an axis, whose keys are lent. (extents and axis only say by what.)
fn sort_by_centroid(
    keys: &[u64],
    extents: &[f32],
    n: usize,
    axis: usize,
    part: &mut [u32],
    words: &mut [u64],
    scratch: &mut [u64],
)
    requires below { Below n part.old }
    requires part_in_bounds { (length part.old ≤ length words.old) × (length part.old ≤ length scratch.old) }
    requires n_in_bounds { (n ≤ length keys.now) × KeysInOrder n keys.now (λ i. axis_of (centroid_at_of extents.now i) axis) }
    ensures { (part.new ≡ sort_on (λ i. axis_of (centroid_at_of extents.now i) axis) part.old) × Below n part.new }
{
    order::sort_by_key(keys, part, words, scratch);
}

// One axis: nothing where the centroids span next to nothing of it, else a sort and a sweep.
fn search_axis(
    keys: &[u64],
    extents: &[f32],
    n: usize,
    axis: usize,
    span: f32,
    part: &mut [u32],
    words: &mut [u64],
    scratch: &mut [u64],
    areas: &mut [f32],
    c: BestSplit,
) -> BestSplit
    requires n_in_bounds { 9 * n ≤ length extents.now }
    requires below { Below n part.old }
    requires part_nonzero { (0 < length part.old) × (length part.old < 65536) }
    requires part_in_bounds { (length part.old ≤ length words.old) × (length part.old ≤ length scratch.old) × (length part.old ≤ length areas.old) }
    requires n_in_bounds_2 { (n ≤ length keys.now) × KeysInOrder n keys.now (λ i. axis_of (centroid_at_of extents.now i) axis) }
    ensures { (swept part.new result ≡
        search_axis_of (aabb_at_of extents.now) (centroid_at_of extents.now) axis span (swept part.old c)) ×
        Below n part.new }
{
    if span < 1e-8 {
        return c;
    }
    sort_by_centroid(keys, extents, n, axis, part, words, scratch);
    suffix_areas(extents, n, part, areas);
    sweep(extents, n, axis, part, areas, c)
}

// The three axes in turn, each from the order that the one before left.
fn search_axes(
    kx: &[u64],
    ky: &[u64],
    kz: &[u64],
    extents: &[f32],
    n: usize,
    part: &mut [u32],
    words: &mut [u64],
    scratch: &mut [u64],
    areas: &mut [f32],
) -> BestSplit
    requires { Splits kx.now ky.now kz.now extents.now n part.old words.old scratch.old areas.old }
    ensures { (swept part.new result ≡ search_axes_of (aabb_at_of extents.now) (centroid_at_of extents.now) part.old) ×
        Below n part.new }
{
    let m = centroid_aabb(extents, n, part);
    let c0 = BestSplit {
        cost: 3.402_823_5e38,
        axis: 0,
        at: 0,
    };
    let dx = m.max.x - m.min.x;
    let c1 = search_axis(kx, extents, n, 0, dx, part, words, scratch, areas, c0);
    let dy = m.max.y - m.min.y;
    let c2 = search_axis(ky, extents, n, 1, dy, part, words, scratch, areas, c1);
    let dz = m.max.z - m.min.z;
    search_axis(kz, extents, n, 2, dz, part, words, scratch, areas, c2)
}

// Sorts by the axis of that number.
fn sort_by_axis(
    kx: &[u64],
    ky: &[u64],
    kz: &[u64],
    extents: &[f32],
    n: usize,
    axis: usize,
    part: &mut [u32],
    words: &mut [u64],
    scratch: &mut [u64],
)
    requires below { Below n part.old }
    requires part_in_bounds { (length part.old ≤ length words.old) × (length part.old ≤ length scratch.old) }
    requires keyed { Keyed extents.now n kx.now ky.now kz.now }
    ensures { (part.new ≡ sort_on (λ i. axis_of (centroid_at_of extents.now i) axis) part.old) × Below n part.new }
{
    if axis == 0 {
        sort_by_centroid(kx, extents, n, axis, part, words, scratch);
        return;
    }
    if axis == 1 {
        sort_by_centroid(ky, extents, n, axis, part, words, scratch);
        return;
    }
    sort_by_centroid(kz, extents, n, axis, part, words, scratch);
}

// Splits a list: the answer is how many go left, and 0 where it is not split.
pub fn split(
    kx: &[u64],
    ky: &[u64],
    kz: &[u64],
    extents: &[f32],
    n: usize,
    part: &mut [u32],
    words: &mut [u64],
    scratch: &mut [u64],
    areas: &mut [f32],
) -> usize
    requires { Splits kx.now ky.now kz.now extents.now n part.old words.old scratch.old areas.old }
    ensures divides { (divided part.new result ≡ split_of (aabb_at_of extents.now) (centroid_at_of extents.now) part.old) ×
        Below n part.new × (result < length part.old) }
    ensures rest { Open words.old words.new × Open scratch.old scratch.new × Open areas.old areas.new }
{
    let c = search_axes(kx, ky, kz, extents, n, part, words, scratch, areas);
    let at = c.at;
    if at == 0 {
        return 0;
    }
    sort_by_axis(kx, ky, kz, extents, n, c.axis, part, words, scratch);
    at
}
