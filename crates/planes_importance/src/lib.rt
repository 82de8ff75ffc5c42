// The ranking of planes by importance, step 5 of `build_planes`: area with a mild weight for being central.
// Planes stand in areas as `mirror` has them; the ranking gives their order.
// A crate of its own, as each step of its group is, so that it is checked alone.
#![tactic(auto)]

ghost use Rattle.std.specs.Prelude.{◌≡◌, ℕ, ◌+◌, ◌*◌, ◌<◌, ◌≤◌, length, get_or, take, Float, [], map};
ghost use mathlib.Core.List.{foldl};
ghost use Rattle.order.specs.Open.{Open};
ghost use Rattle.order.specs.Sort.{sort_by, key_of, Below};
ghost use Rattle.order.specs.Runs.{head_or, up_to};
ghost use Rattle.geometry.specs.declared.Aabb.{Aabb};
ghost use Rattle.geometry.specs.Aabb.{grow_of};
ghost use Rattle.columns.specs.Columns.{column_count, triangle_at_of};
ghost use Rattle.planes_patches.specs.Triangles.{triangles_in};
ghost use Rattle.mirror.specs.Rows.{row_of, planes_in, PlanesHeld};
ghost use Rattle.planes_importance.specs.Importance.{grown_by_of, no_box_of, scene_box_of, centre_of, half_diag_of, no_moments, moment_of, mean_of, weighed_of, key_in, row_key_in, ranking_of};

use geometry::{Aabb, Triangle};
use vector::Vec3;

// The sum of areas times centroids, and of areas.
#[derive(Clone, Copy)]
pub struct Moments {
    pub sum: Vec3,
    pub weight: f32,
}

// ---- the scene

fn grow(b: Aabb, p: Vec3) -> Aabb
    ensures { result ≡ grow_of b p }
{
    let min = Vec3 {
        x: float::min(b.min.x, p.x),
        y: float::min(b.min.y, p.y),
        z: float::min(b.min.z, p.z),
    };
    let max = Vec3 {
        x: float::max(b.max.x, p.x),
        y: float::max(b.max.y, p.y),
        z: float::max(b.max.z, p.z),
    };
    Aabb { min, max }
}

fn grow_by(b: Aabb, t: Triangle) -> Aabb
    ensures { result ≡ grown_by_of b t }
{
    grow(grow(grow(b, t.a), t.b), t.c)
}

// The box of no point, as `build_planes` has it.
fn no_box() -> Aabb
    ensures { result ≡ no_box_of }
{
    let far = float::infinity();
    let min = Vec3 {
        x: far,
        y: far,
        z: far,
    };
    let max = Vec3 {
        x: -far,
        y: -far,
        z: -far,
    };
    Aabb { min, max }
}

// The box of the first m triangles.
fn scene_box(triangles: &[f32], handles: &[u32], n: usize, m: usize) -> Aabb
    requires n_in_bounds { column_count * n ≤ length triangles.now }
    requires n_in_bounds_2 { n ≤ length handles.now }
    requires m_le_n { m ≤ n }
    ensures { result ≡ scene_box_of (triangles_in triangles.now handles.now n m) }
{
    let mut b = no_box();
    for i in 0..m {
        b = grow_by(b, columns::triangle_at(triangles, handles, n, i));
    }
    b
}

fn centre(b: Aabb) -> Vec3
    ensures { result ≡ centre_of b }
{
    Vec3 {
        x: (b.min.x + b.max.x) * 0.5,
        y: (b.min.y + b.max.y) * 0.5,
        z: (b.min.z + b.max.z) * 0.5,
    }
}

fn half_diag(b: Aabb) -> f32
    ensures { result ≡ half_diag_of b }
{
    float::max(0.5 * vector::distance3(b.min, b.max), 1e-3)
}

// ---- one plane

fn add_moment(s: Moments, t: Triangle) -> Moments
    ensures { result ≡ moment_of s t }
{
    let a = geometry::triangle_area(t);
    let c = geometry::centroid(t);
    let sum = Vec3 {
        x: s.sum.x + a * c.x,
        y: s.sum.y + a * c.y,
        z: s.sum.z + a * c.z,
    };
    Moments {
        sum,
        weight: s.weight + a,
    }
}

// The moments of a plane's triangles.
fn moments_of(triangles: &[f32], handles: &[u32], n: usize, tris: &[u32]) -> Moments
    requires n_in_bounds { column_count * n ≤ length triangles.now }
    requires n_in_bounds_2 { n ≤ length handles.now }
    requires below { Below n tris.now }
    ensures { result ≡ foldl (λ s i. moment_of s (triangle_at_of triangles.now handles.now n i)) no_moments tris.now }
{
    let zero = Vec3 {
        x: 0.0,
        y: 0.0,
        z: 0.0,
    };
    let mut s = Moments {
        sum: zero,
        weight: 0.0,
    };
    for t in tris {
        let i = *t as usize;
        s = add_moment(s, columns::triangle_at(triangles, handles, n, i));
    }
    s
}

fn mean(s: Moments) -> Vec3
    ensures { result ≡ mean_of s }
{
    let w = float::max(s.weight, 1e-12);
    Vec3 {
        x: s.sum.x / w,
        y: s.sum.y / w,
        z: s.sum.z / w,
    }
}

// The importance of an area around c; what depends on the scene alone is at hand.
fn weigh(centre: Vec3, half_diag: f32, area: f32, c: Vec3) -> f32
    ensures { (b : Aabb) → centre ≡ centre_of b → half_diag ≡ half_diag_of b → result ≡ weighed_of b area c }
{
    let d = vector::distance3(c, centre) / half_diag;
    area / (1.0 + d * d)
}

fn first_of(tris: &[u32]) -> u32
    ensures { result ≡ head_or 0 tris.now }
{
    if tris.len() == 0 {
        return 0;
    }
    tris[0]
}

// The key of a plane with these triangles: the most important first, and of equal ones that with the lower first triangle.
fn plane_key(
    triangles: &[f32],
    handles: &[u32],
    n: usize,
    centre: Vec3,
    half_diag: f32,
    plane_area: f32,
    tris: &[u32],
) -> u64
    requires n_in_bounds { column_count * n ≤ length triangles.now }
    requires n_in_bounds_2 { n ≤ length handles.now }
    requires below { Below n tris.now }
    ensures { (b : Aabb) → centre ≡ centre_of b → half_diag ≡ half_diag_of b →
        result ≡ key_in (triangle_at_of triangles.now handles.now n) b plane_area tris.now }
{
    let c = mean(moments_of(triangles, handles, n, tris));
    planes_groups::descending_key(weigh(centre, half_diag, plane_area, c), first_of(tris))
}

// Stores the key of each plane, and its number.
fn put_keys(
    triangles: &[f32],
    handles: &[u32],
    n: usize,
    group_floats: &[f32],
    group_words: &[u32],
    plane_triangles: &[u32],
    centre: Vec3,
    half_diag: f32,
    keys: &mut [u64],
    index: &mut [u32],
)
    requires n_in_bounds { column_count * n ≤ length triangles.now }
    requires n_in_bounds_2 { n ≤ length handles.now }
    requires planes_held { PlanesHeld group_floats.now group_words.now plane_triangles.now [] n (length index.old) }
    requires keys_len { length keys.old ≡ length index.old }
    requires index_len_bound { length index.old < 4294967296 }
    ensures index_after { index.new ≡ up_to (length index.old) }
    ensures keys_after { (b : Aabb) → centre ≡ centre_of b → half_diag ≡ half_diag_of b →
        keys.new ≡ map (λ g. row_key_in (triangle_at_of triangles.now handles.now n) b
        (row_of group_floats.now group_words.now g) plane_triangles.now) (up_to (length index.old)) }
{
    let count = index.len();
    for g in 0..count {
        let row = mirror::plane_at(group_floats, group_words, g);
        let from = row.first;
        let to = from + row.count;
        keys[g] = plane_key(
            triangles,
            handles,
            n,
            centre,
            half_diag,
            row.area,
            &plane_triangles[from..to],
        );
        index[g] = g as u32;
    }
}

// `ranked`: the numbers of the planes, the most important first. There are as many as index is long; m triangles stand in the columns.
pub fn rank_planes(
    triangles: &[f32],
    handles: &[u32],
    n: usize,
    m: usize,
    group_floats: &[f32],
    group_words: &[u32],
    plane_triangles: &[u32],
    keys: &mut [u64],
    index: &mut [u32],
    words: &mut [u64],
    scratch: &mut [u64],
)
    requires n_in_bounds { column_count * n ≤ length triangles.now }
    requires n_in_bounds_2 { n ≤ length handles.now }
    requires m_le_n { m ≤ n }
    requires planes_held { PlanesHeld group_floats.now group_words.now plane_triangles.now [] m (length index.old) }
    requires keys_len { length keys.old ≡ length index.old }
    requires index_len_bound { length index.old < 4294967296 }
    requires index_in_bounds { length index.old ≤ length words.old }
    requires index_in_bounds_2 { length index.old ≤ length scratch.old }
    ensures ranked { index.new ≡ ranking_of (triangles_in triangles.now handles.now n m)
        (planes_in group_floats.now group_words.now plane_triangles.now [] (length index.old)) }
    ensures rest { Open keys.old keys.new × Open words.old words.new × Open scratch.old scratch.new }
{
    let b = scene_box(triangles, handles, n, m);
    put_keys(
        triangles,
        handles,
        n,
        group_floats,
        group_words,
        plane_triangles,
        centre(b),
        half_diag(b),
        keys,
        index,
    );
    order::sort_by_key(keys, index, words, scratch);
}
