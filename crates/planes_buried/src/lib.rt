// Step 3 of `build_planes`: the patches that are not buried. A patch is left out where rays from both sides of its largest triangle hit
// something near. Patches stand as `planes_patches` leaves them: a row of floats each, and the number of each triangle's patch.
// A crate of its own, as each step of its group is, so that it is checked alone.
#![tactic(auto)]

ghost use Rattle.std.specs.Prelude.{◌≡◌, ◌⊎◌, cond, ℕ, suc, ◌+◌, ◌*◌, ◌<◌, ◌≤◌, eqb, length, get_or, set, List};
ghost use mathlib.Core.List.{foldl};
ghost use Rattle.std.specs.Float.Ieee.{neg};
ghost use Rattle.order.specs.Open.{Open};
ghost use Rattle.float.specs.Literals.{one32};
ghost use Rattle.vector.specs.Vector.{add3_of, scale3_of};
ghost use Rattle.geometry.specs.declared.Triangle.{Triangle};
ghost use Rattle.geometry.specs.Triangle.{triangle_area_of};
ghost use Rattle.columns.specs.Columns.{column_count, triangle_at_of};
ghost use Rattle.tree_build.specs.Tree.{Tree};
ghost use Rattle.tree_trace.specs.Trace.{BvhHeld};
ghost use Rattle.planes_patches.specs.Triangles.{nth_triangle, triangles_in};
ghost use Rattle.planes_patches.specs.Rows.{patch_floats, none_of, row_in, tris_in, patches_in, Numbered};
ghost use Rattle.planes_buried.specs.Buried.{buried_probe_start, signed_of, probe_ray_of, open_of};
ghost use Rattle.planes_buried.specs.Probe.{probe_of, lies_between, TreeHeld, BvhTreeHeld};
ghost use Rattle.planes_buried.specs.Passes.{best_at, best_of, or_zero, is_open, open_to, number_in, renumbered_of};

use geometry::Triangle;
use tree_trace::FlatBvh;
use vector::{Ray, Vec3};

// ---- the probe

fn signed(s: f32, n: Vec3) -> Vec3
    ensures { result ≡ signed_of s n }
{
    Vec3 {
        x: s * n.x,
        y: s * n.y,
        z: s * n.z,
    }
}

// The point 1 mm from p along d.
fn beside(p: Vec3, d: Vec3) -> Vec3
    ensures { result ≡ add3_of p (scale3_of d buried_probe_start) }
{
    Vec3 {
        x: p.x + d.x * 1e-3,
        y: p.y + d.y * 1e-3,
        z: p.z + d.z * 1e-3,
    }
}

// The ray from beside a triangle's centroid, along its normal or against it.
fn probe_ray(t: Triangle, reach: f32, s: f32) -> Ray
    ensures { result ≡ probe_ray_of t reach s }
{
    let direction = signed(s, t.normal);
    let origin = beside(geometry::centroid(t), direction);
    Ray {
        origin,
        direction,
        min_distance: 0.0,
        max_distance: reach,
    }
}

// Whether a ray hits something.
fn probe(bvh: &FlatBvh, ray: Ray) -> bool
    requires held { BvhHeld bvh.now }
    requires count_nonzero { 0 < bvh.now.count }
    ensures { (tri : ℕ → Triangle) (t : Tree) →
        TreeHeld tri t bvh.now.padded.now bvh.now.nodes.now bvh.now.leaf_order.now bvh.now.leaves.now bvh.now.handles.now →
        result ≡ probe_of tri t ray }
{
    tree_trace::intersect(bvh, ray).is_some()
}

// Whether rays from both sides of a triangle hit something.
fn is_between(bvh: &FlatBvh, t: Triangle, reach: f32) -> bool
    requires held { BvhHeld bvh.now }
    requires count_nonzero { 0 < bvh.now.count }
    ensures { (tri : ℕ → Triangle) (k : Tree) →
        BvhTreeHeld tri k bvh.now →
        result ≡ lies_between (probe_of tri k) t reach }
{
    let front = probe_ray(t, reach, 1.0);
    let back = probe_ray(t, reach, -1.0);
    if probe(bvh, front) {
        return probe(bvh, back);
    }
    false
}

// ---- the largest triangle of each patch

// No triangle is met yet.
fn reset(areas: &mut [f32], largest: &mut [u32], np: usize)
    requires { (np ≤ length areas.old) × (np ≤ length largest.old) }
    ensures { (p : ℕ) → p < np → best_at areas.new largest.new p ≡ (neg one32, none_of) }
{
    for p in 0..np {
        areas[p] = -1.0;
        largest[p] = planes_patches::NONE;
    }
}

// Triangle t, of area a, is met in patch p.
fn larger(areas: &mut [f32], largest: &mut [u32], p: usize, t: usize, a: f32)
    requires { (p < length areas.old) × (p < length largest.old) × (t < 4294967295) }
    ensures p_after { (ts : List Triangle) → a ≡ triangle_area_of (nth_triangle ts t) →
        best_at areas.new largest.new p ≡ best_of ts (best_at areas.old largest.old p) t }
    ensures by_index { (q : ℕ) → (q ≡ p → ⊥) → best_at areas.new largest.new q ≡ best_at areas.old largest.old q }
{
    if areas[p] < a {
        areas[p] = a;
        largest[p] = t as u32;
        return;
    }
    if largest[p] == planes_patches::NONE {
        largest[p] = t as u32;
        return;
    }
}

// Triangle t, where it has a patch.
fn meet(
    triangles: &[f32],
    handles: &[u32],
    n: usize,
    t: usize,
    p: u32,
    np: usize,
    areas: &mut [f32],
    largest: &mut [u32],
)
    requires n_in_bounds { (column_count * n ≤ length triangles.now) × (n ≤ length handles.now) × (t < n) × (t < 4294967295) }
    requires np_in_bounds { (np ≤ length areas.old) × (np ≤ length largest.old) }
    requires plane_or_none { (p < np) ⊎ (p ≡ none_of) }
    ensures { (ts : List Triangle) → nth_triangle ts t ≡ triangle_at_of triangles.now handles.now n t → (q : ℕ) → q < np → np ≤ none_of →
        best_at areas.new largest.new q ≡
        cond (eqb p q) (best_of ts (best_at areas.old largest.old q) t) (best_at areas.old largest.old q) }
{
    if p == planes_patches::NONE {
        return;
    }
    let a = geometry::triangle_area(columns::triangle_at(triangles, handles, n, t));
    larger(areas, largest, p as usize, t, a);
}

// For each patch the largest area of its triangles, and the first triangle that has it.
fn largest_triangles(
    triangles: &[f32],
    handles: &[u32],
    n: usize,
    m: usize,
    of: &[u32],
    np: usize,
    areas: &mut [f32],
    largest: &mut [u32],
)
    requires n_in_bounds { (column_count * n ≤ length triangles.now) × (n ≤ length handles.now) × (m ≤ n) × (m ≤ 4294967295) × (m ≤ length of.now) }
    requires np_le_m { (np ≤ m) × (np ≤ length areas.old) × (np ≤ length largest.old) }
    requires numbered { Numbered of.now m np }
    ensures { (p : ℕ) → p < np → best_at areas.new largest.new p ≡
        foldl (best_of (triangles_in triangles.now handles.now n m)) (neg one32, none_of) (tris_in of.now m p) }
{
    reset(areas, largest, np);
    for t in 0..m {
        let p = of[t];
        meet(triangles, handles, n, t, p, np, areas, largest);
    }
}

// ---- which patches are open

fn or_zero(i: u32) -> u32
    ensures { result ≡ or_zero i }
{
    if i == planes_patches::NONE {
        return 0;
    }
    i
}

// 0 for a buried patch.
fn flag(buried: bool) -> u32
    ensures { eqb result 0 ≡ buried }
{
    if buried {
        return 0;
    }
    1
}

// The flag of each patch, by its largest triangle.
fn mark_open(
    triangles: &[f32],
    n: usize,
    reach: f32,
    bvh: &FlatBvh,
    largest: &[u32],
    np: usize,
    flags: &mut [u32],
)
    requires n_in_bounds { (column_count * n ≤ length triangles.now) × (n ≤ length bvh.now.handles.now) × (np ≤ length largest.now) × (np ≤ length flags.old) × (np ≤ 4294967295) }
    requires held { BvhHeld bvh.now }
    requires count_nonzero { 0 < bvh.now.count }
    requires by_index { (p : ℕ) → p < np → or_zero (get_or largest.now p 0) < n }
    ensures { (p : ℕ) → p < np → (tri : ℕ → Triangle) (k : Tree) →
        BvhTreeHeld tri k bvh.now →
        eqb (get_or flags.new p 0) 0 ≡
        lies_between (probe_of tri k) (triangle_at_of triangles.now bvh.now.handles.now n (or_zero (get_or largest.now p 0))) reach }
{
    for p in 0..np {
        let i = or_zero(largest[p]) as usize;
        let t = columns::triangle_at(triangles, bvh.handles, n, i);
        let buried = is_between(bvh, t, reach);
        flags[p] = flag(buried);
    }
}

// ---- closing up

// Patch p, which gets the number w where it is open. The number of open patches is returned.
fn close_row(flags: &[u32], p: usize, w: usize, rows: &mut [f32], numbers: &mut [u32]) -> usize
    requires { (patch_floats * p + patch_floats ≤ length rows.old) × (w ≤ p) × (p < 4294967295) × (p < length flags.now) × (p < length numbers.old) }
    ensures value { result ≡ cond (is_open flags.now p) (suc w) w }
    ensures numbers_after { numbers.new ≡ set numbers.old p (cond (is_open flags.now p) w none_of) }
    ensures by_index { (q : ℕ) → row_in rows.new q ≡
        cond (is_open flags.now p) (cond (eqb q w) (row_in rows.old p) (row_in rows.old q)) (row_in rows.old q) }
{
    if flags[p] == 0 {
        numbers[p] = planes_patches::NONE;
        return w;
    }
    numbers[p] = w as u32;
    let r = planes_patches::row_at(rows, p);
    planes_patches::put_row(rows, w, r);
    w + 1
}

// The rows of open patches move to the front, and each patch gets its new number. The number of open patches is returned.
fn close_rows(flags: &[u32], np: usize, rows: &mut [f32], numbers: &mut [u32]) -> usize
    requires { (patch_floats * np ≤ length rows.old) × (np ≤ 4294967295) × (np ≤ length flags.now) × (np ≤ length numbers.old) }
    ensures value { result ≡ length (open_to flags.now np) }
    ensures by_index { (p : ℕ) → p < np → get_or numbers.new p 0 ≡ number_in flags.now p }
    ensures by_index_2 { (q : ℕ) → q < result → row_in rows.new q ≡ row_in rows.old (get_or (open_to flags.now np) q 0) }
{
    let mut w = 0;
    for p in 0..np {
        w = close_row(flags, p, w, rows, numbers);
    }
    w
}

fn renumbered(numbers: &[u32], p: u32) -> u32
    requires { (p < length numbers.now) ⊎ (p ≡ none_of) }
    ensures { result ≡ renumbered_of numbers.now p }
{
    if p == planes_patches::NONE {
        return planes_patches::NONE;
    }
    numbers[p as usize]
}

// Each triangle gets the new number of its patch.
fn renumber(of: &mut [u32], m: usize, numbers: &[u32])
    requires m_in_bounds { m ≤ length of.old }
    requires numbered { Numbered of.old m (length numbers.now) }
    ensures { (i : ℕ) → i < m → get_or of.new i none_of ≡ renumbered_of numbers.now (get_or of.old i none_of) }
{
    for i in 0..m {
        let p = of[i];
        of[i] = renumbered(numbers, p);
    }
}

// STEP 3 of the planes: the patches that are not buried, in order, with new numbers. The number of them is returned.
pub fn open_patches(
    triangles: &[f32],
    n: usize,
    m: usize,
    reach: f32,
    bvh: &FlatBvh,
    np: usize,
    areas: &mut [f32],
    largest: &mut [u32],
    flags: &mut [u32],
    rows: &mut [f32],
    of: &mut [u32],
) -> usize
    requires n_in_bounds { (column_count * n ≤ length triangles.now) × (n ≤ length bvh.now.handles.now) × (m ≤ n) × (m ≤ 4294967295) × (m ≤ length of.old) }
    requires np_le_m { (np ≤ m) × (np ≤ length areas.old) × (np ≤ length largest.old) × (np ≤ length flags.old) × (patch_floats * np ≤ length rows.old) }
    requires held { BvhHeld bvh.now }
    requires count_nonzero { 0 < bvh.now.count }
    requires numbered { Numbered of.old m np }
    ensures by_index { (tri : ℕ → Triangle) (k : Tree) →
        BvhTreeHeld tri k bvh.now →
        patches_in rows.new of.new m result ≡
        open_of (probe_of tri k) (triangles_in triangles.now bvh.now.handles.now n m) reach (patches_in rows.old of.old m np) }
    ensures upper_bound { (result ≤ np) × Numbered of.new m result }
    ensures rest { Open areas.old areas.new × Open largest.old largest.new × Open flags.old flags.new }
{
    if reach > 0.0 {} else {
        return np;
    }
    largest_triangles(triangles, bvh.handles, n, m, of, np, areas, largest);
    mark_open(triangles, n, reach, bvh, largest, np, flags);
    // The largest triangles are done with: their triangles takes the new numbers.
    let r = close_rows(flags, np, rows, largest);
    renumber(of, m, largest);
    r
}
