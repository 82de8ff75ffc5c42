// A plane for each group of patches: a patch as it is, or the best fit of several.
// A crate of its own, as each step of its group is, so that it is checked alone.
#![tactic(auto)]

ghost use Rattle.std.specs.Prelude.{◌≡◌, cond, ◌⊎◌, ℕ, suc, ◌+◌, ◌*◌, ◌<◌, ◌≤◌, eqb, length, get_or, [], map};
ghost use mathlib.Core.List.{foldl};
ghost use Rattle.std.specs.Float.{nan};
ghost use Rattle.order.specs.Open.{Open};
ghost use Rattle.order.specs.Sort.{Below};
ghost use Rattle.columns.specs.Columns.{column_count, triangle_at_of};
ghost use Rattle.planes_patches.specs.Triangles.{triangles_in};
ghost use Rattle.planes_patches.specs.Rows.{patch_floats, none_of, row_in, tris_in, patches_in, Numbered};
ghost use Rattle.planes_links.specs.Words.{most_triangles, has, lows};
ghost use Rattle.planes_groups.specs.Rows.{groups_in};
ghost use Rattle.mirror.specs.Rows.{plane_float_count, plane_word_count, row_of, tris_of, planes_in, PlanesHeld};
ghost use Rattle.planes_fit.specs.Fit.{side_of, heights_of, mean_offset_of, reach_of, spread_of, plane_of_group};
ghost use Rattle.planes_fit.specs.Rows.{group_in, Grouped, before_of, no_sums, summed_of, alone_row_of, fitted_row_of, plane_row_of, plane_row_in, Runs, Small, floats_of_row, words_of};

use geometry::{Aabb, Triangle};
use mirror::PlaneRow;
use planes_patches::PatchRow;
use vector::Vec3;

// The weighted sum of normals, the area and the box of patches.
#[derive(Clone, Copy)]
pub struct Sums {
    pub sum: Vec3,
    pub area: f32,
    pub aabb: Aabb,
}

// The sum of areas times heights, and of areas.
#[derive(Clone, Copy)]
pub struct Heights {
    pub sum: f32,
    pub weight: f32,
}

// ---- the patches of a group

fn side(seed: Vec3, n: Vec3) -> f32
    ensures { result ≡ side_of seed n }
{
    if vector::dot3(seed, n) >= 0.0 {
        return 1.0;
    }
    -1.0
}

fn add_patch(seed: Vec3, s: Sums, p: PatchRow) -> Sums
    ensures { result ≡ summed_of seed s p }
{
    let n = p.normal;
    let w = side(seed, n) * p.area;
    let aabb = geometry::union(s.aabb, p.aabb);
    let sum = Vec3 {
        x: s.sum.x + w * n.x,
        y: s.sum.y + w * n.y,
        z: s.sum.z + w * n.z,
    };
    Sums {
        sum,
        area: s.area + p.area,
        aabb,
    }
}

// The sums of a group, whose first patch is the seed.
fn sums_of(rows: &[f32], np: usize, group: &[u32], seed: PatchRow) -> Sums
    requires np_in_bounds { patch_floats * np ≤ length rows.now }
    requires below { Below np group.now }
    ensures { result ≡ foldl (λ s p. summed_of seed.normal s (row_in rows.now p)) (no_sums seed.aabb) group.now }
{
    let zero = Vec3 {
        x: 0.0,
        y: 0.0,
        z: 0.0,
    };
    let aabb = seed.aabb;
    let normal = seed.normal;
    let mut s = Sums {
        sum: zero,
        area: 0.0,
        aabb,
    };
    for patch in group {
        let p = *patch as usize;
        s = add_patch(normal, s, planes_patches::row_at(rows, p));
    }
    s
}

// ---- the triangles of a group

fn add_height(n: Vec3, s: Heights, t: Triangle) -> Heights
    ensures { result ≡ heights_of n s t }
{
    let a = geometry::triangle_area(t);
    let h = vector::dot3(n, geometry::centroid(t));
    Heights {
        sum: s.sum + a * h,
        weight: s.weight + a,
    }
}

// The mean height of triangles along a normal, weighted by their areas.
fn mean_offset(triangles: &[f32], handles: &[u32], n: usize, normal: Vec3, tris: &[u32]) -> f32
    requires n_in_bounds { column_count * n ≤ length triangles.now }
    requires n_in_bounds_2 { n ≤ length handles.now }
    requires below { Below n tris.now }
    ensures { result ≡ mean_offset_of (triangle_at_of triangles.now handles.now n) normal tris.now }
{
    let mut s = Heights {
        sum: 0.0,
        weight: 0.0,
    };
    for t in tris {
        let i = *t as usize;
        s = add_height(normal, s, columns::triangle_at(triangles, handles, n, i));
    }
    s.sum / float::max(s.weight, 1e-12)
}

fn reach(n: Vec3, d: f32, s: f32, t: Triangle) -> f32
    ensures { result ≡ reach_of n d s t }
{
    let a = float::max(s, float::abs(vector::dot3(n, t.a) - d));
    let b = float::max(a, float::abs(vector::dot3(n, t.b) - d));
    float::max(b, float::abs(vector::dot3(n, t.c) - d))
}

// The largest distance of a vertex of the triangles from a plane.
fn spread_of(
    triangles: &[f32],
    handles: &[u32],
    n: usize,
    normal: Vec3,
    offset: f32,
    tris: &[u32],
) -> f32
    requires n_in_bounds { column_count * n ≤ length triangles.now }
    requires n_in_bounds_2 { n ≤ length handles.now }
    requires below { Below n tris.now }
    ensures { result ≡ spread_of (triangle_at_of triangles.now handles.now n) normal offset tris.now }
{
    let mut s = 0.0;
    for t in tris {
        let i = *t as usize;
        s = reach(
            normal,
            offset,
            s,
            columns::triangle_at(triangles, handles, n, i),
        );
    }
    s
}

// ---- a plane's row

// A patch alone, its `count` triangles from `first` on.
fn alone(p: PatchRow, first: usize, count: usize) -> PlaneRow
    ensures { result ≡ alone_row_of p first count }
{
    let normal = p.normal;
    let aabb = p.aabb;
    PlaneRow {
        normal,
        offset: p.offset,
        aabb,
        spread: 0.0,
        area: p.area,
        first,
        count,
        edge: 0,
        edges: 0,
        fitted: false,
    }
}

// The best fit of several patches, whose sums are s and whose triangles stand from `first` on.
fn fitted(
    triangles: &[f32],
    handles: &[u32],
    n: usize,
    s: Sums,
    tris: &[u32],
    first: usize,
) -> PlaneRow
    requires n_in_bounds { column_count * n ≤ length triangles.now }
    requires n_in_bounds_2 { n ≤ length handles.now }
    requires below { Below n tris.now }
    ensures { result ≡ fitted_row_of (triangle_at_of triangles.now handles.now n) s tris.now first }
{
    let normal = planes_patches::canonical(vector::normalize3(s.sum));
    let offset = mean_offset(triangles, handles, n, normal, tris);
    let spread = spread_of(triangles, handles, n, normal, offset, tris);
    let aabb = s.aabb;
    PlaneRow {
        normal,
        offset,
        aabb,
        spread,
        area: s.area,
        first,
        count: tris.len(),
        edge: 0,
        edges: 0,
        fitted: true,
    }
}

// The row of the plane of a group of patches below np.
fn plane_row(
    triangles: &[f32],
    handles: &[u32],
    n: usize,
    rows: &[f32],
    np: usize,
    group: &[u32],
    tris: &[u32],
    first: usize,
) -> PlaneRow
    requires n_in_bounds { column_count * n ≤ length triangles.now }
    requires n_in_bounds_2 { n ≤ length handles.now }
    requires np_in_bounds { patch_floats * np ≤ length rows.now }
    requires below { Below np group.now }
    requires group_nonzero { 0 < length group.now }
    requires below_2 { Below n tris.now }
    ensures { result ≡ plane_row_of (triangle_at_of triangles.now handles.now n) rows.now group.now tris.now first }
{
    let p = group[0] as usize;
    let seed = planes_patches::row_at(rows, p);
    if group.len() == 1 {
        return alone(seed, first, tris.len());
    }
    let s = sums_of(rows, np, group, seed);
    fitted(triangles, handles, n, s, tris, first)
}

// ---- the plane of each triangle

// The patches of a group get a number.
fn name_group(group: &[u32], number: u32, group_of: &mut [u32])
    requires { Below (length group_of.old) group.now }
    ensures { (p : ℕ) → get_or group_of.new p 0 ≡ cond (has p group.now) number (get_or group_of.old p 0) }
{
    for patch in group {
        let p = *patch as usize;
        group_of[p] = number;
    }
}

// Each patch gets the number of its group plus one; 0 stays where it has none.
fn name_groups(queue: &[u32], offsets: &[u32], np: usize, ng: usize, group_of: &mut [u32])
    requires grouped { Grouped queue.now offsets.now np ng }
    requires np_in_bounds { np ≤ length group_of.old }
    requires ng_le_most_triangles { ng ≤ most_triangles }
    ensures by_index { (p g : ℕ) → g < ng → eqb (get_or group_of.new p 0) (suc g) ≡ has p (group_in queue.now offsets.now g) }
    ensures by_index_2 { (p : ℕ) → get_or group_of.new p 0 ≤ ng }
{
    group_of.fill(0);
    for g in 0..ng {
        let from = offsets[g] as usize;
        let to = offsets[g + 1] as usize;
        name_group(&queue[from..to], (g + 1) as u32, group_of);
    }
}

// The plane of a patch.
fn plane_number(group_of: &[u32], p: u32) -> u32
    ensures { result ≡ before_of (get_or group_of.now p 0) }
{
    let i = p as usize;
    if i >= group_of.len() {
        return planes_patches::NONE;
    }
    let g = group_of[i];
    if g == 0 {
        return planes_patches::NONE;
    }
    g - 1
}

// Each triangle gets the plane of its patch.
fn name_planes(of: &[u32], m: usize, group_of: &[u32], plane_of: &mut [u32])
    requires m_in_bounds { m ≤ length of.now }
    requires m_in_bounds_2 { m ≤ length plane_of.old }
    ensures { (t : ℕ) → t < m → get_or plane_of.new t none_of ≡ before_of (get_or group_of.now (get_or of.now t none_of) 0) }
{
    for t in 0..m {
        plane_of[t] = plane_number(group_of, of[t]);
    }
}

// Words become their lower parts.
fn unpack(words: &mut [u32])
    ensures { words.new ≡ lows words.old }
{
    for word in words.iter_mut() {
        *word %= 4096;
    }
}

// ---- storing planes

fn floats_of(r: PlaneRow) -> [f32; 12]
    ensures { result ≡ floats_of_row r }
{
    [
        r.normal.x,
        r.normal.y,
        r.normal.z,
        r.offset,
        r.aabb.min.x,
        r.aabb.min.y,
        r.aabb.min.z,
        r.aabb.max.x,
        r.aabb.max.y,
        r.aabb.max.z,
        r.spread,
        r.area,
    ]
}

fn flag(b: bool) -> u32
    ensures { result ≡ cond b 1 0 }
{
    if b {
        return 1;
    }
    0
}

fn words_of(r: PlaneRow) -> [u32; 5]
    requires { Small r }
    ensures { result ≡ words_of r }
{
    let fitted = flag(r.fitted);
    [
        r.first as u32,
        r.count as u32,
        r.edge as u32,
        r.edges as u32,
        fitted,
    ]
}

// Stores the row of plane g.
pub fn put_plane(plane_floats: &mut [f32], plane_words: &mut [u32], g: usize, r: PlaneRow)
    requires plane_floats_in_bounds { plane_float_count * g + plane_float_count ≤ length plane_floats.old }
    requires plane_words_in_bounds { plane_word_count * g + plane_word_count ≤ length plane_words.old }
    requires small { Small r }
    ensures g_after { row_of plane_floats.new plane_words.new g ≡ r }
    ensures by_index { (h : ℕ) → (h ≡ g → ⊥) →
        row_of plane_floats.new plane_words.new h ≡ row_of plane_floats.old plane_words.old h }
{
    let reals = floats_of(r);
    let counts = words_of(r);
    plane_floats[12 * g..12 * g + 12].copy_from_slice(&reals);
    plane_words[5 * g..5 * g + 5].copy_from_slice(&counts);
}

// ---- all planes

// Stores the row of each group's plane. The triangles of plane g stand in `plane_triangles` from mstarts[g] to mstarts[g + 1].
fn put_planes(
    triangles: &[f32],
    handles: &[u32],
    n: usize,
    rows: &[f32],
    np: usize,
    queue: &[u32],
    offsets: &[u32],
    ng: usize,
    plane_triangles: &[u32],
    mstarts: &[u32],
    group_floats: &mut [f32],
    group_words: &mut [u32],
)
    requires n_in_bounds { (column_count * n ≤ length triangles.now) × (n ≤ length handles.now) × (patch_floats * np ≤ length rows.now) }
    requires grouped { Grouped queue.now offsets.now np ng }
    requires runs { Runs n ng plane_triangles.now mstarts.now }
    requires ng_in_bounds { (plane_float_count * ng ≤ length group_floats.old) × (plane_word_count * ng ≤ length group_words.old) }
    ensures { (g : ℕ) → g < ng → row_of group_floats.new group_words.new g ≡
        plane_row_in (triangle_at_of triangles.now handles.now n) rows.now queue.now offsets.now
        plane_triangles.now mstarts.now g }
{
    for g in 0..ng {
        let from = offsets[g] as usize;
        let to = offsets[g + 1] as usize;
        let first = mstarts[g] as usize;
        let end = mstarts[g + 1] as usize;
        let group = &queue[from..to];
        let tris = &plane_triangles[first..end];
        let r = plane_row(triangles, handles, n, rows, np, group, tris, first);
        put_plane(group_floats, group_words, g, r);
    }
}

// A plane for each of ng groups of np patches, in order; m triangles stand in the columns. Triangle t gets its plane's number in `plane_of`,
// and the triangles of plane g stand, rising, in `plane_triangles` from mstarts[g] to mstarts[g + 1].
pub fn group_planes(
    triangles: &[f32],
    handles: &[u32],
    n: usize,
    m: usize,
    rows: &[f32],
    of: &[u32],
    np: usize,
    queue: &[u32],
    offsets: &[u32],
    ng: usize,
    group_of: &mut [u32],
    words: &mut [u64],
    scratch: &mut [u64],
    plane_of: &mut [u32],
    plane_triangles: &mut [u32],
    mstarts: &mut [u32],
    group_floats: &mut [f32],
    group_words: &mut [u32],
)
    requires n_in_bounds { (column_count * n ≤ length triangles.now) × (n ≤ length handles.now) × (patch_floats * np ≤ length rows.now) }
    requires m_le_n { (m ≤ n) × (m ≤ most_triangles) × (m ≤ length of.now) }
    requires grouped { Grouped queue.now offsets.now np ng × (ng ≤ most_triangles) }
    requires np_in_bounds { (np ≤ length group_of.old) × (m ≤ length plane_of.old) }
    requires m_in_bounds { (m ≤ length words.old) × (m ≤ length scratch.old) }
    requires m_in_bounds_2 { (m ≤ length plane_triangles.old) × (ng < length mstarts.old) }
    requires ng_in_bounds { (plane_float_count * ng ≤ length group_floats.old) × (plane_word_count * ng ≤ length group_words.old) }
    ensures ng_after { planes_in group_floats.new group_words.new plane_triangles.new [] ng ≡
        map (plane_of_group (triangles_in triangles.now handles.now n m) (patches_in rows.now of.now m np))
        (groups_in queue.now offsets.now ng) }
    ensures planes_held { PlanesHeld group_floats.new group_words.new plane_triangles.new [] m ng }
    ensures by_index { (g : ℕ) → g < ng →
        tris_of (row_of group_floats.new group_words.new g) plane_triangles.new ≡ tris_in plane_of.new m g }
    ensures numbered { Numbered plane_of.new m ng }
    ensures rest { Open group_of.old group_of.new × Open words.old words.new × Open scratch.old scratch.new ×
        Open mstarts.old mstarts.new }
{
    name_groups(queue, offsets, np, ng, group_of);
    name_planes(of, m, group_of, plane_of);
    planes_links::patch_rows(
        plane_of,
        m,
        ng as u32,
        words,
        scratch,
        plane_triangles,
        mstarts,
    );
    unpack(plane_triangles);
    put_planes(
        triangles,
        handles,
        n,
        rows,
        np,
        queue,
        offsets,
        ng,
        plane_triangles,
        mstarts,
        group_floats,
        group_words,
    );
}
