// The nearest hit of a ray in a tree that stands in areas: `FlatBvh::intersect`. Each node's box is padded already, and of each triangle
// a row in the leaves' order holds what the test of a ray needs.
// A crate of its own, as each step of its group is, so that it is checked alone.
#![tactic(auto)]

ghost use Rattle.std.specs.Prelude.{◌≡◌, true, false, ℕ, ◌+◌, ◌*◌, ◌<◌, ◌≤◌, length, take, drop, get_or, Float, Option, is_some};
ghost use Rattle.std.specs.Float.Ieee.{lt};
ghost use Rattle.geometry.specs.declared.Triangle.{Triangle};
ghost use Rattle.geometry.specs.Slab.{slab_of};
ghost use Rattle.tree_build.specs.Tree.{Tree};
ghost use Rattle.tree_build.specs.Areas.{box_at_of, tree_at_of};
ghost use Rattle.tree_trace.specs.Leaf.{corner_at_of, edges_at_of, visit_edges_of, visit_all_of, LeafRows};
ghost use Rattle.tree_trace.specs.Slopes.{along_of, any_along_of, slope_of, slopes_of_direction, near_of, far_of, cut_of, beside_of, past_of, way_of};
ghost use Rattle.tree_trace.specs.Trace.{near_first, trace_tree, none, intersect_of, padded_tree_of, list_of, Entered, Within, BvhHeld};

use geometry::{Aabb, Edges};
use tree_build::Links;
use vector::{Ray, Vec3};

// The closest hit so far: `best` and `closest` of the Rust. While nothing is found, `found` is 0 and the distance is the ray's length. (A bool's
// padding would be copied along at each node, byte by byte: a tenth of a trace's time.)
#[derive(Clone, Copy)]
pub struct Closest {
    pub distance: f32,
    pub index: usize,
    pub found: usize,
}

#[derive(Clone, Copy)]
pub struct RayHit {
    pub distance: f32,
    pub point: Vec3,
    pub triangle: usize,
    pub material_handle: u32,
}

// A ray, and what the tests of boxes need of its direction: worked out once a ray, where the Rust divides in each test.
#[derive(Clone, Copy)]
pub struct Way {
    pub ray: Ray,
    pub slopes: Vec3,
    pub along: bool,
}

// Which children of a node are visited, and in which order. Where both are, the second one's box is entered at `far`.
#[derive(Clone, Copy)]
pub enum Turns {
    Neither,
    One(usize),
    Both {
        first: usize,
        second: usize,
        far: f32,
    },
}

// The tree as a trace reads it: the padded box and the links of each node, the leaves' triangles, by number and by corner and edges, the handle of
// each triangle, and how many nodes there are.
#[derive(Clone, Copy)]
pub struct FlatBvh<'a> {
    pub padded: &'a [f32],
    pub nodes: &'a [u32],
    pub leaf_order: &'a [u32],
    pub leaves: &'a [f32],
    pub handles: &'a [u32],
    pub count: usize,
}

// ---- leaves

fn corner_at(leaves: &[f32], k: usize) -> Vec3
    requires { 10 * k + 10 ≤ length leaves.now }
    ensures { result ≡ corner_at_of leaves.now k }
{
    let at = 10 * k;
    Vec3 {
        x: leaves[at],
        y: leaves[at + 1],
        z: leaves[at + 2],
    }
}

fn edges_at(leaves: &[f32], k: usize) -> Edges
    requires { 10 * k + 10 ≤ length leaves.now }
    ensures { result ≡ edges_at_of leaves.now k }
{
    let at = 10 * k;
    let edge1 = Vec3 {
        x: leaves[at + 3],
        y: leaves[at + 4],
        z: leaves[at + 5],
    };
    let edge2 = Vec3 {
        x: leaves[at + 6],
        y: leaves[at + 7],
        z: leaves[at + 8],
    };
    let least_det = leaves[at + 9];
    Edges {
        edge1,
        edge2,
        least_det,
    }
}

// Tries one triangle: `geometry::intersect_edges` in its two steps, so that the compiler has both in line here. A call hands corner, edges
// and ray over in memory, copied for each triangle (a tenth of a trace's time).
fn visit(a: Vec3, e: Edges, ray: Ray, i: usize, best: Closest) -> Closest
    ensures { result ≡ visit_edges_of a e ray i best }
{
    let h = vector::cross3(ray.direction, e.edge2);
    let det = vector::dot3(e.edge1, h);
    if geometry::parallel(det, e.least_det) {
        return best;
    }
    let Some((t, _, _)) = geometry::solve(
        e,
        h,
        vector::sub3(ray.origin, a),
        1.0 / det,
        ray,
        best.distance,
    ) else {
        return best;
    };
    if t < best.distance || best.found == 0 {
        return Closest {
            distance: t,
            index: i,
            found: 1,
        };
    }
    best
}

// Tries the triangles of a leaf.
fn visit_leaf(
    leaf_order: &[u32],
    leaves: &[f32],
    ray: Ray,
    start: usize,
    len: usize,
    best: Closest,
) -> Closest
    requires { (10 * length leaf_order.now ≤ length leaves.now) × (start + len ≤ length leaf_order.now) }
    ensures { (tri : ℕ → Triangle) → LeafRows tri leaf_order.now leaves.now →
        result ≡ visit_all_of tri ray (take len (drop start leaf_order.now)) best }
{
    let end = start + len;
    let mut closest = best;
    for k in start..end {
        let i = leaf_order[k] as usize;
        closest = visit(corner_at(leaves, k), edges_at(leaves, k), ray, i, closest);
    }
    closest
}

// ---- nodes

// Whether a ray of this direction does not move on an axis: `d.abs() < 1e-20`.
fn is_along(d: f32) -> bool
    ensures { result ≡ along_of d }
{
    float::abs(d) < 1e-20
}

fn any_along(d: Vec3) -> bool
    ensures { result ≡ any_along_of d }
{
    if is_along(d.x) {
        return true;
    }
    if is_along(d.y) {
        return true;
    }
    is_along(d.z)
}

// The reciprocal, and NaN where the ray does not move.
fn slope(d: f32) -> f32
    ensures { result ≡ slope_of d }
{
    if is_along(d) {
        return 0.0 / 0.0;
    }
    1.0 / d
}

fn slopes_of(d: Vec3) -> Vec3
    ensures { result ≡ slopes_of_direction d }
{
    Vec3 {
        x: slope(d.x),
        y: slope(d.y),
        z: slope(d.z),
    }
}

// Where a span begins, cut by an axis: the ends of the box there, and the ray's origin and slope.
fn near(from: f32, low: f32, high: f32, o: f32, slope: f32) -> f32
    ensures { result ≡ near_of from low high o slope }
{
    float::max(from, float::min((low - o) * slope, (high - o) * slope))
}

// Where it ends.
fn far(to: f32, low: f32, high: f32, o: f32, slope: f32) -> f32
    ensures { result ≡ far_of to low high o slope }
{
    float::min(to, float::max((low - o) * slope, (high - o) * slope))
}

// The slab test with the slopes at hand, but for the axes on which the ray does not move. All axes are worked out, with one test at the end: the
// Rust tests after each, and which of these tests fails is hard to foretell. With no branch it is compiled in line wherever it is called.
fn slab(b: Aabb, ray: Ray, slopes: Vec3, t: f32) -> Option<f32>
    ensures { result ≡ cut_of b ray slopes t }
{
    let x = near(ray.min_distance, b.min.x, b.max.x, ray.origin.x, slopes.x);
    let y = near(x, b.min.y, b.max.y, ray.origin.y, slopes.y);
    let from = near(y, b.min.z, b.max.z, ray.origin.z, slopes.z);
    let p = far(t, b.min.x, b.max.x, ray.origin.x, slopes.x);
    let q = far(p, b.min.y, b.max.y, ray.origin.y, slopes.y);
    let to = far(q, b.min.z, b.max.z, ray.origin.z, slopes.z);
    if to < from {
        return None;
    }
    Some(from)
}

// Whether a ray does not move on an axis and is outside the box on that axis.
fn beside(low: f32, high: f32, o: f32, d: f32) -> bool
    ensures { result ≡ beside_of low high o d }
{
    if is_along(d) {
        return o < low || o > high;
    }
    false
}

// What `slab` says, but a miss for a ray that runs beside the box.
fn past(e: Option<f32>, b: Aabb, ray: Ray) -> Option<f32>
    ensures { result ≡ past_of e b ray }
{
    if beside(b.min.x, b.max.x, ray.origin.x, ray.direction.x) {
        return None;
    }
    if beside(b.min.y, b.max.y, ray.origin.y, ray.direction.y) {
        return None;
    }
    if beside(b.min.z, b.max.z, ray.origin.z, ray.direction.z) {
        return None;
    }
    e
}

fn way_of(ray: Ray) -> Way
    ensures { result ≡ way_of ray }
{
    let slopes = slopes_of(ray.direction);
    let along = any_along(ray.direction);
    Way { ray, slopes, along }
}

// Whether the ray enters a box within the distance t.
fn enters(b: Aabb, way: Way, t: f32) -> bool
    requires { way ≡ way_of way.ray }
    ensures { lt t way.ray.min_distance ≡ false → result ≡ is_some (slab_of b way.ray t) }
{
    let e = slab(b, way.ray, way.slopes, t);
    if way.along {
        return past(e, b, way.ray).is_some();
    }
    e.is_some()
}

// Which of the children l and r are visited, and in which order.
fn in_turn(a: Option<f32>, b: Option<f32>, l: usize, r: usize) -> Turns
    ensures list { list_of result ≡ near_first a b l r }
    ensures entered { (entry : ℕ → Option Float) → a ≡ entry l → b ≡ entry r → Entered entry result }
    ensures within { (m : ℕ) → l < m → r < m → Within m result }
{
    match (a, b) {
        (Some(ta), Some(tb)) => {
            if ta <= tb {
                return Turns::Both {
                    first: l,
                    second: r,
                    far: tb,
                };
            }
            Turns::Both {
                first: r,
                second: l,
                far: ta,
            }
        }
        (Some(_), None) => Turns::One(l),
        (None, Some(_)) => Turns::One(r),
        (None, None) => Turns::Neither,
    }
}

// The test of both boxes, then the rare ray that does not move on an axis: so both stand in line, and no entry goes through memory.
fn order_at(padded: &[f32], way: Way, l: usize, r: usize, t: f32) -> Turns
    requires l_in_bounds { (6 * l + 6 ≤ length padded.now) × (6 * r + 6 ≤ length padded.now) }
    requires way_value { way ≡ way_of way.ray }
    ensures list { lt t way.ray.min_distance ≡ false →
        list_of result ≡ near_first (slab_of (box_at_of padded.now l) way.ray t) (slab_of (box_at_of padded.now r) way.ray t) l r }
    ensures entered { lt t way.ray.min_distance ≡ false → Entered (λ i. slab_of (box_at_of padded.now i) way.ray t) result }
    ensures within { (m : ℕ) → l < m → r < m → Within m result }
{
    let p = tree_build::box_at(padded, l);
    let q = tree_build::box_at(padded, r);
    let a = slab(p, way.ray, way.slopes, t);
    let b = slab(q, way.ray, way.slopes, t);
    if way.along {
        return in_turn(past(a, p, way.ray), past(b, q, way.ray), l, r);
    }
    in_turn(a, b, l, r)
}

// The tree at node i, to a depth of `fuel` nodes. The ray enters the node's box: the test at the node above said so. Of two children the
// first one's box was tested with this very distance; the second one is still entered where nothing nearer than its entry was found, so that
// its box is not tested again (the Rust tests both again).
fn trace(bvh: &FlatBvh, way: Way, fuel: usize, i: usize, best: Closest) -> Closest
    requires held { BvhHeld bvh.now }
    requires i_lt_count { i < bvh.now.count }
    requires way_value { way ≡ way_of way.ray }
    ensures { (tri : ℕ → Triangle) → LeafRows tri bvh.now.leaf_order.now bvh.now.leaves.now → lt best.distance way.ray.min_distance ≡ false →
        is_some (slab_of (box_at_of bvh.now.padded.now i) way.ray best.distance) ≡ true →
        result ≡ trace_tree slab_of tri way.ray (tree_at_of bvh.now.padded.now bvh.now.nodes.now bvh.now.leaf_order.now fuel i) best }
{
    if fuel == 0 {
        return best;
    }
    let left = fuel - 1;
    let k = tree_build::links_at(bvh.nodes, i);
    if k.len == 0 {
        return match order_at(bvh.padded, way, k.left, k.right, best.distance) {
            Turns::Neither => best,
            Turns::One(only) => trace(bvh, way, left, only, best),
            Turns::Both { first, second, far } => {
                let one = trace(bvh, way, left, first, best);
                if one.distance < far {
                    return one;
                }
                trace(bvh, way, left, second, one)
            }
        };
    }
    visit_leaf(bvh.leaf_order, bvh.leaves, way.ray, k.start, k.len, best)
}

// The whole tree. A ray that ends before it begins crosses nothing; `trace` is for the others.
fn closest_hit(bvh: &FlatBvh, ray: Ray) -> Closest
    requires held { BvhHeld bvh.now }
    requires count_nonzero { 0 < bvh.now.count }
    ensures { (tri : ℕ → Triangle) → LeafRows tri bvh.now.leaf_order.now bvh.now.leaves.now →
        result ≡ trace_tree slab_of tri ray (tree_at_of bvh.now.padded.now bvh.now.nodes.now bvh.now.leaf_order.now 33 0) (none ray) }
{
    let nothing = Closest {
        distance: ray.max_distance,
        index: 0,
        found: 0,
    };
    if ray.max_distance < ray.min_distance {
        return nothing;
    }
    let way = way_of(ray);
    if enters(tree_build::box_at(bvh.padded, 0), way, ray.max_distance) {
        return trace(bvh, way, 33, 0, nothing);
    }
    nothing
}

// The handle of triangle i, 0 for one that is not there.
pub fn handle_at(handles: &[u32], i: usize) -> u32
    ensures { result ≡ get_or handles.now i 0 }
{
    if i < handles.len() {
        return handles[i];
    }
    0
}

// `FlatBvh::intersect`: the nearest hit, with the index and the handle of its triangle.
pub fn intersect(bvh: &FlatBvh, ray: Ray) -> Option<RayHit>
    requires held { BvhHeld bvh.now }
    requires count_nonzero { 0 < bvh.now.count }
    ensures { (tri : ℕ → Triangle) (t : Tree) → LeafRows tri bvh.now.leaf_order.now bvh.now.leaves.now →
        ((i : ℕ) → (tri i).material_handle ≡ get_or bvh.now.handles.now i 0) →
        tree_at_of bvh.now.padded.now bvh.now.nodes.now bvh.now.leaf_order.now 33 0 ≡ padded_tree_of t → result ≡ intersect_of tri ray t }
{
    let c = closest_hit(bvh, ray);
    if c.found == 0 {
        return None;
    }
    let material_handle = handle_at(bvh.handles, c.index);
    Some(RayHit {
        distance: c.distance,
        point: vector::point_at(ray, c.distance),
        triangle: c.index,
        material_handle,
    })
}
