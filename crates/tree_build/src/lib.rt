// The tree of `BvhNode::build_sah`, built into areas that the caller lends: of each node the box in six floats and the links in four
// numbers, as the Rust's `FlatNode`.
// A crate of its own, as each step of its group is, so that it is checked alone.
#![tactic(auto)]

ghost use Rattle.std.specs.Prelude.{◌≡◌, ℕ, ◌+◌, ◌-◌, ◌*◌, ◌^◌, ◌<◌, ◌≤◌, length};
ghost use Rattle.order.specs.Open.{Open};
ghost use Rattle.geometry.specs.Aabb.{union_of};
ghost use Rattle.tree_split.specs.Split.{aabb_at_of, centroid_at_of};
ghost use Rattle.tree_build.specs.Tree.{leaf_of, build_sah_of};
ghost use Rattle.tree_build.specs.Areas.{box_at_of, links_of, links_at_of, part, Wrote, Listed, Sorts, Room, Built, Parted, Chosen};

use geometry::Aabb;
use vector::Vec3;

// Where a node's children stand, or its triangles: a node that has triangles is a leaf.
#[derive(Clone, Copy)]
pub struct Links {
    pub left: usize,
    pub right: usize,
    pub start: usize,
    pub len: usize,
}

pub fn box_at(boxes: &[f32], i: usize) -> Aabb
    requires { 6 * i + 6 ≤ length boxes.now }
    ensures { result ≡ box_at_of boxes.now i }
{
    let at = 6 * i;
    let min = Vec3 {
        x: boxes[at],
        y: boxes[at + 1],
        z: boxes[at + 2],
    };
    let max = Vec3 {
        x: boxes[at + 3],
        y: boxes[at + 4],
        z: boxes[at + 5],
    };
    Aabb { min, max }
}

pub fn links_at(nodes: &[u32], i: usize) -> Links
    requires { 4 * i + 4 ≤ length nodes.now }
    ensures { result ≡ links_at_of nodes.now i }
{
    let at = 4 * i;
    Links {
        left: nodes[at] as usize,
        right: nodes[at + 1] as usize,
        start: nodes[at + 2] as usize,
        len: nodes[at + 3] as usize,
    }
}

fn put_node(
    boxes: &mut [f32],
    nodes: &mut [u32],
    i: usize,
    b: Aabb,
    left: u32,
    right: u32,
    start: u32,
    len: u32,
)
    requires i_in_bounds { 6 * i + 6 ≤ length boxes.old }
    requires i_in_bounds_2 { 4 * i + 4 ≤ length nodes.old }
    ensures { Wrote i b (links_of left right start len) boxes.old boxes.new nodes.old nodes.new }
{
    let at = 6 * i;
    boxes[at] = b.min.x;
    boxes[at + 1] = b.min.y;
    boxes[at + 2] = b.min.z;
    boxes[at + 3] = b.max.x;
    boxes[at + 4] = b.max.y;
    boxes[at + 5] = b.max.z;
    let to = 4 * i;
    nodes[to] = left;
    nodes[to + 1] = right;
    nodes[to + 2] = start;
    nodes[to + 3] = len;
}

// A leaf of the triangles from lo up to hi.
fn put_leaf(
    extents: &[f32],
    n: usize,
    lo: usize,
    hi: usize,
    leaf_order: &[u32],
    boxes: &mut [f32],
    nodes: &mut [u32],
    next: usize,
) -> usize
    requires listed { Listed extents.now n lo hi leaf_order.now }
    requires room { Room lo hi boxes.old nodes.old next }
    ensures { (fuel : ℕ) →
        Built (leaf_of (aabb_at_of extents.now) (part lo hi leaf_order.now)) (fuel + 1) n lo hi next result leaf_order.now
        leaf_order.now boxes.old boxes.new nodes.old nodes.new }
{
    let b = tree_split::bounds(extents, n, &leaf_order[lo..hi]);
    put_node(boxes, nodes, next, b, 0, 0, lo as u32, (hi - lo) as u32);
    next + 1
}

// Sorts and splits the triangles from lo up to hi.
fn split_part(
    kx: &[u64],
    ky: &[u64],
    kz: &[u64],
    extents: &[f32],
    n: usize,
    lo: usize,
    hi: usize,
    leaf_order: &mut [u32],
    words: &mut [u64],
    scratch: &mut [u64],
    areas: &mut [f32],
) -> usize
    requires listed { Listed extents.now n lo hi leaf_order.old }
    requires sorts { Sorts kx.now ky.now kz.now extents.now n words.old scratch.old areas.old }
    ensures { Parted (aabb_at_of extents.now) (centroid_at_of extents.now) n lo hi result leaf_order.old leaf_order.new }
{
    tree_split::split(
        kx,
        ky,
        kz,
        extents,
        n,
        &mut leaf_order[lo..hi],
        words,
        scratch,
        areas,
    )
}

// Splits the triangles from lo up to hi where they are to be an inner node: the answer is how many go left, and 0 for a leaf.
fn split_node(
    kx: &[u64],
    ky: &[u64],
    kz: &[u64],
    extents: &[f32],
    n: usize,
    levels: usize,
    lo: usize,
    hi: usize,
    leaf_order: &mut [u32],
    words: &mut [u64],
    scratch: &mut [u64],
    areas: &mut [f32],
) -> usize
    requires listed { Listed extents.now n lo hi leaf_order.old }
    requires sorts { Sorts kx.now ky.now kz.now extents.now n words.old scratch.old areas.old }
    ensures { Chosen (aabb_at_of extents.now) (centroid_at_of extents.now) levels n lo hi result leaf_order.old
        leaf_order.new }
{
    if levels == 0 {
        return 0;
    }
    if hi - lo <= 4 {
        return 0;
    }
    split_part(
        kx, ky, kz, extents, n, lo, hi, leaf_order, words, scratch, areas,
    )
}

// The node over the trees at next + 1 and at right.
fn put_inner(boxes: &mut [f32], nodes: &mut [u32], next: usize, right: usize)
    requires { (next < right) × (6 * right + 6 ≤ length boxes.old) × (4 * right + 4 ≤ length nodes.old) × (right < 2 ^ 32) }
    ensures { Wrote next (union_of (box_at_of boxes.old (next + 1)) (box_at_of boxes.old right)) (links_of (next + 1) right 0 0)
        boxes.old boxes.new nodes.old nodes.new }
{
    let b = geometry::union(box_at(boxes, next + 1), box_at(boxes, right));
    put_node(boxes, nodes, next, b, (next + 1) as u32, right as u32, 0, 0);
}

// Builds the tree of the triangles from lo up to hi from node `next` on, at most `levels` deep; the answer is the node after its last.
pub fn build_sah(
    kx: &[u64],
    ky: &[u64],
    kz: &[u64],
    extents: &[f32],
    n: usize,
    levels: usize,
    lo: usize,
    hi: usize,
    leaf_order: &mut [u32],
    words: &mut [u64],
    scratch: &mut [u64],
    areas: &mut [f32],
    boxes: &mut [f32],
    nodes: &mut [u32],
    next: usize,
) -> usize
    requires listed { Listed extents.now n lo hi leaf_order.old }
    requires sorts { Sorts kx.now ky.now kz.now extents.now n words.old scratch.old areas.old }
    requires room { Room lo hi boxes.old nodes.old next }
    ensures built { Built (build_sah_of (aabb_at_of extents.now) (centroid_at_of extents.now) levels (part lo hi leaf_order.old))
        (levels + 1) n lo hi next result leaf_order.old leaf_order.new boxes.old boxes.new nodes.old
        nodes.new }
    ensures rest { Open words.old words.new × Open scratch.old scratch.new × Open areas.old areas.new }
{
    let at = split_node(
        kx, ky, kz, extents, n, levels, lo, hi, leaf_order, words, scratch, areas,
    );
    if at == 0 {
        return put_leaf(extents, n, lo, hi, leaf_order, boxes, nodes, next);
    }
    let mid = lo + at;
    let right = build_sah(
        kx,
        ky,
        kz,
        extents,
        n,
        levels - 1,
        lo,
        mid,
        leaf_order,
        words,
        scratch,
        areas,
        boxes,
        nodes,
        next + 1,
    );
    let end = build_sah(
        kx,
        ky,
        kz,
        extents,
        n,
        levels - 1,
        mid,
        hi,
        leaf_order,
        words,
        scratch,
        areas,
        boxes,
        nodes,
        right,
    );
    put_inner(boxes, nodes, next, right);
    end
}
