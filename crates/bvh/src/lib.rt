// The tree of the triangles that stand in columns, in areas that the caller lends: `build_flat_bvh`. What the passes of the build and the
// test of a ray need again and again is worked out once: the triangles' boxes and centroids, their keys, the nodes' padded boxes, and
// the triangles' rows in the leaves' order.
#![tactic(auto)]

ghost use Rattle.std.specs.Prelude.{◌≡◌, true, false, ℕ, ◌+◌, ◌*◌, ◌<◌, ◌≤◌, length, get_or, take};
ghost use Rattle.std.proofs.lemmas.List.Edits.{sets};
ghost use Rattle.order.specs.Open.{Open};
ghost use Rattle.order.specs.Sort.{Below};
ghost use Rattle.vector.specs.Vector.{axis_of};
ghost use Rattle.geometry.specs.Slab.{padded_of};
ghost use Rattle.columns.specs.Columns.{column_count, vec_at_of};
ghost use Rattle.tree_split.specs.Split.{aabb_at_of, centroid_at_of, KeysInOrder};
ghost use Rattle.tree_build.specs.Areas.{box_at_of, part};
ghost use Rattle.tree_trace.specs.Leaf.{corner_at_of, edges_at_of};
ghost use Rattle.bvh.specs.Bvh.{aabb_of, centroid_in, extent_row, box_row, edges_row, all_finite, finite_of, padded_in, rows_in, KeysIn, BvhLent, TreeOf, BvhOf};

use geometry::{Aabb, Edges};
use vector::Vec3;

// ---- the triangles' boxes and centroids

fn put_extent(extents: &mut [f32], i: usize, b: Aabb, c: Vec3)
    requires { 9 * i + 9 ≤ length extents.old }
    ensures { extents.new ≡ sets extents.old (9 * i) (extent_row b c) }
{
    let at = 9 * i;
    extents[at] = b.min.x;
    extents[at + 1] = b.min.y;
    extents[at + 2] = b.min.z;
    extents[at + 3] = b.max.x;
    extents[at + 4] = b.max.y;
    extents[at + 5] = b.max.z;
    extents[at + 6] = c.x;
    extents[at + 7] = c.y;
    extents[at + 8] = c.z;
}

fn put_extents(triangles: &[f32], handles: &[u32], n: usize, count: usize, extents: &mut [f32])
    requires { (column_count * n ≤ length triangles.now) × (n ≤ length handles.now) × (count ≤ n) × (9 * count ≤ length extents.old) }
    ensures { (i : ℕ) → i < count → (aabb_at_of extents.new i ≡ aabb_of triangles.now handles.now n i) ×
        (centroid_at_of extents.new i ≡ centroid_in triangles.now handles.now n i) }
{
    for i in 0..count {
        let t = columns::triangle_at(triangles, handles, n, i);
        put_extent(
            extents,
            i,
            geometry::from_corners(t.a, t.b, t.c),
            geometry::centroid(t),
        );
    }
}

// ---- their keys

// The keys of one axis. The answer is false where a centroid is not finite along it.
fn put_keys(
    triangles: &[f32],
    handles: &[u32],
    n: usize,
    count: usize,
    k: usize,
    keys: &mut [u64],
) -> bool
    requires { (column_count * n ≤ length triangles.now) × (n ≤ length handles.now) × (count ≤ n) × (count ≤ length keys.old) }
    ensures { (result ≡ all_finite (λ i. axis_of (centroid_in triangles.now handles.now n i) k) count) × (result ≡ true →
        KeysInOrder count keys.new (λ i. axis_of (centroid_in triangles.now handles.now n i) k)) }
{
    for i in 0..count {
        let c = geometry::centroid(columns::triangle_at(triangles, handles, n, i));
        let x = vector::axis(c, k);
        if float::is_finite(x) {
            keys[i] = float::float_key(x) as u64;
        } else {
            return false;
        }
    }
    true
}

// The keys of one axis, in the part of the area from `from` to `to`.
fn put_axis(
    triangles: &[f32],
    handles: &[u32],
    n: usize,
    count: usize,
    k: usize,
    from: usize,
    to: usize,
    keys: &mut [u64],
) -> bool
    requires n_in_bounds { (column_count * n ≤ length triangles.now) × (n ≤ length handles.now) × (count ≤ n) }
    requires count_bound { (from + count ≤ to) × (to ≤ length keys.old) }
    ensures { (result ≡ all_finite (λ i. axis_of (centroid_in triangles.now handles.now n i) k) count) × (result ≡ true →
        KeysInOrder count (part from to keys.new) (λ i. axis_of (centroid_in triangles.now handles.now n i) k)) ×
        (take from keys.new ≡ take from keys.old) }
{
    put_keys(triangles, handles, n, count, k, &mut keys[from..to])
}

// The keys of the three axes, one axis after another.
fn put_all_keys(
    triangles: &[f32],
    handles: &[u32],
    n: usize,
    count: usize,
    keys: &mut [u64],
) -> bool
    requires n_in_bounds { (column_count * n ≤ length triangles.now) × (n ≤ length handles.now) × (count ≤ n) }
    requires count_in_bounds { 3 * count ≤ length keys.old }
    ensures { (result ≡ finite_of (centroid_in triangles.now handles.now n) count) × (result ≡ true →
        KeysIn (centroid_in triangles.now handles.now n) count keys.new) }
{
    let two = 2 * count;
    let three = 3 * count;
    if put_axis(triangles, handles, n, count, 0, 0, count, keys) {
        if put_axis(triangles, handles, n, count, 1, count, two, keys) {
            return put_axis(triangles, handles, n, count, 2, two, three, keys);
        }
    }
    false
}

// ---- the tree

// Builds the tree of as many triangles as leaf_order is long. The answer is the count of its nodes, and 0 where a centroid is not finite.
fn build_tree(
    triangles: &[f32],
    handles: &[u32],
    n: usize,
    extents: &mut [f32],
    keys: &mut [u64],
    leaf_order: &mut [u32],
    words: &mut [u64],
    scratch: &mut [u64],
    areas: &mut [f32],
    boxes: &mut [f32],
    nodes: &mut [u32],
) -> usize
    requires { BvhLent triangles.now handles.now n extents.old keys.old leaf_order.old words.old scratch.old areas.old boxes.old nodes.old }
    ensures { TreeOf triangles.now handles.now n (length leaf_order.old) boxes.new nodes.new
        leaf_order.new result }
{
    let count = leaf_order.len();
    put_extents(triangles, handles, n, count, extents);
    let two = 2 * count;
    let three = 3 * count;
    if put_all_keys(triangles, handles, n, count, keys) {
        order::count_up(leaf_order);
        return tree_build::build_sah(
            &keys[0..count],
            &keys[count..two],
            &keys[two..three],
            extents,
            count,
            32,
            0,
            count,
            leaf_order,
            words,
            scratch,
            areas,
            boxes,
            nodes,
            0,
        );
    }
    0
}

// ---- what a trace reads

fn put_box(padded: &mut [f32], i: usize, b: Aabb)
    requires { 6 * i + 6 ≤ length padded.old }
    ensures { padded.new ≡ sets padded.old (6 * i) (box_row b) }
{
    let at = 6 * i;
    padded[at] = b.min.x;
    padded[at + 1] = b.min.y;
    padded[at + 2] = b.min.z;
    padded[at + 3] = b.max.x;
    padded[at + 4] = b.max.y;
    padded[at + 5] = b.max.z;
}

// Each node's box, padded.
fn pad_boxes(boxes: &[f32], count: usize, padded: &mut [f32])
    requires { (6 * count ≤ length boxes.now) × (6 * count ≤ length padded.old) }
    ensures { (i : ℕ) → i < count → box_at_of padded.new i ≡ padded_of (box_at_of boxes.now i) }
{
    for i in 0..count {
        put_box(padded, i, geometry::padded(tree_build::box_at(boxes, i)));
    }
}

fn put_row(leaves: &mut [f32], k: usize, a: Vec3, e: Edges)
    requires { 10 * k + 10 ≤ length leaves.old }
    ensures { leaves.new ≡ sets leaves.old (10 * k) (edges_row a e) }
{
    let at = 10 * k;
    leaves[at] = a.x;
    leaves[at + 1] = a.y;
    leaves[at + 2] = a.z;
    leaves[at + 3] = e.edge1.x;
    leaves[at + 4] = e.edge1.y;
    leaves[at + 5] = e.edge1.z;
    leaves[at + 6] = e.edge2.x;
    leaves[at + 7] = e.edge2.y;
    leaves[at + 8] = e.edge2.z;
    leaves[at + 9] = e.least_det;
}

// The row of each triangle, in the leaves' order.
fn put_rows(triangles: &[f32], n: usize, leaf_order: &[u32], leaves: &mut [f32])
    requires { (column_count * n ≤ length triangles.now) × Below n leaf_order.now × (10 * length leaf_order.now ≤ length leaves.old) }
    ensures { (k : ℕ) → k < length leaf_order.now →
        (corner_at_of leaves.new k ≡ vec_at_of triangles.now n (get_or leaf_order.now k 0)) ×
        (edges_at_of leaves.new k ≡ Rattle.columns.specs.Columns.edges_at_of triangles.now n (get_or leaf_order.now k 0)) }
{
    for (k, leaf) in leaf_order.iter().enumerate() {
        let i = *leaf as usize;
        put_row(
            leaves,
            k,
            columns::corner_at(triangles, n, i),
            columns::edges_at(triangles, n, i),
        );
    }
}

// Both in one area: the padded boxes, room for 12 floats a triangle, and after them the leaves' rows.
fn put_traced(
    triangles: &[f32],
    n: usize,
    leaf_order: &[u32],
    boxes: &[f32],
    count: usize,
    tree: &mut [f32],
)
    requires n_in_bounds { (column_count * n ≤ length triangles.now) × Below n leaf_order.now × (22 * length leaf_order.now ≤ length tree.old) }
    requires count_in_bounds { (6 * count ≤ length boxes.now) × (count ≤ 2 * length leaf_order.now) }
    ensures by_index { (i : ℕ) → i < count → box_at_of (padded_in (length leaf_order.now) tree.new) i ≡ padded_of (box_at_of boxes.now i) }
    ensures by_index_2 { (k : ℕ) → k < length leaf_order.now → (corner_at_of (rows_in (length leaf_order.now) tree.new) k ≡
        vec_at_of triangles.now n (get_or leaf_order.now k 0)) ×
        (edges_at_of (rows_in (length leaf_order.now) tree.new) k ≡
        Rattle.columns.specs.Columns.edges_at_of triangles.now n (get_or leaf_order.now k 0)) }
{
    let from = 12 * leaf_order.len();
    let to = 22 * leaf_order.len();
    pad_boxes(boxes, count, &mut tree[..from]);
    put_rows(triangles, n, leaf_order, &mut tree[from..to]);
}

// `build_flat_bvh`: the tree of as many triangles as leaf_order is long, and what a trace reads of it. The answer is the count of its nodes,
// and 0 where a centroid is not finite.
pub fn build_flat_bvh(
    triangles: &[f32],
    handles: &[u32],
    n: usize,
    extents: &mut [f32],
    keys: &mut [u64],
    leaf_order: &mut [u32],
    words: &mut [u64],
    scratch: &mut [u64],
    areas: &mut [f32],
    boxes: &mut [f32],
    nodes: &mut [u32],
    tree: &mut [f32],
) -> usize
    requires bvh_lent { BvhLent triangles.now handles.now n extents.old keys.old leaf_order.old words.old scratch.old areas.old boxes.old nodes.old }
    requires leaf_order_in_bounds { 22 * length leaf_order.old ≤ length tree.old }
    ensures built { BvhOf triangles.now handles.now n (length leaf_order.old) boxes.new nodes.new
        leaf_order.new (padded_in (length leaf_order.old) tree.new)
        (rows_in (length leaf_order.old) tree.new) result }
    ensures rest { Open extents.old extents.new × Open keys.old keys.new × Open words.old words.new ×
        Open scratch.old scratch.new × Open areas.old areas.new }
{
    let count = build_tree(
        triangles, handles, n, extents, keys, leaf_order, words, scratch, areas, boxes, nodes,
    );
    if count == 0 {
        return 0;
    }
    put_traced(triangles, n, leaf_order, boxes, count, tree);
    count
}
