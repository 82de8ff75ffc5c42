// Coplanar patches of a scene, step 2 of `build_planes`: each triangle joins the first patch of its plane, or starts one.
// A patch is a row of floats and the number that its triangles have in `of`. In place of the Rust's map from cells to patches, patches
// whose cells share one of 4,096 buckets stand in a circular list from the oldest to the newest, the tail, to which `heads` leads.
// A crate of its own, as each step of its group is, so that it is checked alone.
#![tactic(auto)]

ghost use Rattle.std.specs.Prelude.{◌≡◌, false, cond, ℕ, suc, ◌+◌, ◌-◌, ◌*◌, ◌<◌, ◌≤◌, eqb, length, get_or, set, List, [], ◌∷◌, map};
ghost use mathlib.Core.List.{flat_map};
ghost use Rattle.order.specs.Open.{Open};
ghost use Rattle.geometry.specs.declared.Triangle.{Triangle};
ghost use Rattle.columns.specs.Columns.{column_count, triangle_at_of};
ghost use Rattle.planes_faces.specs.Key.{step_of, same_key};
ghost use Rattle.planes_faces.specs.Faces.{is_first, faces_in};
ghost use Rattle.planes_patches.specs.Normal.{larger_part_of, largest_part_of, is_turned_round, canonical_of, offset_of};
ghost use Rattle.planes_patches.specs.Patches.{cells_per_unit, beside_of, around_of, placed_of, patches_of};
ghost use Rattle.mirror.specs.Rows.{vec_of_floats};
ghost use Rattle.planes_patches.specs.Rows.{patch_floats, none_of, row_in, new_row_of, joined_row_of, patches_in, Numbered, Beside};
ghost use Rattle.planes_patches.specs.Triangles.{nth_triangle, triangles_in};
ghost use Rattle.planes_patches.specs.Grid.{key, plane_key_of, bucket_count, bucket_of, cell_at, linked_of, coplanar_at, match_at, first_among, Grid, Standing};

use geometry::{Aabb, Triangle};
use vector::Vec3;

// The number of a triangle without a patch.
pub const NONE: u32 = 0xffff_ffff;

// What stands of a patch in a row.
#[derive(Clone, Copy)]
pub struct PatchRow {
    pub normal: Vec3,
    pub offset: f32,
    pub area: f32,
    pub aabb: Aabb,
}

// What the search for a triangle's patch needs of it: canonical normal, offset and cell.
#[derive(Clone, Copy)]
pub struct PlaneKey {
    pub normal: Vec3,
    pub offset: f32,
    pub x: u64,
    pub y: u64,
    pub z: u64,
}

// The one of larger size, the first of equal ones.
fn larger_part(p: f32, q: f32) -> f32
    ensures { result ≡ larger_part_of p q }
{
    if float::abs(p) < float::abs(q) { q } else { p }
}

fn largest_part(n: Vec3) -> f32
    ensures { result ≡ largest_part_of n }
{
    larger_part(larger_part(n.x, n.y), n.z)
}

fn is_turned(n: Vec3) -> bool
    ensures { result ≡ is_turned_round n }
{
    largest_part(n) < 0.0
}

// The one of a normal and its opposite whose largest part is not negative.
pub fn canonical(n: Vec3) -> Vec3
    ensures { result ≡ canonical_of n }
{
    if is_turned(n) {
        return Vec3 {
            x: -n.x,
            y: -n.y,
            z: -n.z,
        };
    }
    n
}

// A triangle's offset along its canonical normal.
fn offset_of(t: Triangle) -> f32
    ensures { result ≡ offset_of t }
{
    let d = vector::dot3(t.normal, t.a);
    if is_turned(t.normal) {
        return -d;
    }
    d
}

// ---- rows of floats

// The row of patch p.
pub fn row_at(rows: &[f32], p: usize) -> PatchRow
    requires { patch_floats * p + patch_floats ≤ length rows.now }
    ensures { result ≡ row_in rows.now p }
{
    let at = 11 * p;
    let normal = mirror::vec_in(rows, at);
    let aabb = Aabb {
        min: mirror::vec_in(rows, at + 5),
        max: mirror::vec_in(rows, at + 8),
    };
    PatchRow {
        normal,
        offset: rows[at + 3],
        area: rows[at + 4],
        aabb,
    }
}

fn put_vec(rows: &mut [f32], at: usize, v: Vec3)
    requires { at + 3 ≤ length rows.old }
    ensures at_after { vec_of_floats rows.new at ≡ v }
    ensures beside { Beside at 3 rows.old rows.new }
{
    rows[at] = v.x;
    rows[at + 1] = v.y;
    rows[at + 2] = v.z;
}

// Stores the row of patch p.
pub fn put_row(rows: &mut [f32], p: usize, r: PatchRow)
    requires { patch_floats * p + patch_floats ≤ length rows.old }
    ensures p_after { row_in rows.new p ≡ r }
    ensures by_index { (q : ℕ) → (q ≡ p → ⊥) → row_in rows.new q ≡ row_in rows.old q }
{
    let at = 11 * p;
    put_vec(rows, at, r.normal);
    rows[at + 3] = r.offset;
    rows[at + 4] = r.area;
    put_vec(rows, at + 5, r.aabb.min);
    put_vec(rows, at + 8, r.aabb.max);
}

// ---- the grid of normals

fn cell_part(x: f32) -> u64
    ensures { (result ≡ step_of cells_per_unit x) × (result < 4294967296) }
{
    planes_faces::whole(x * 50.0) as u64
}

fn plane_key(t: Triangle) -> PlaneKey
    ensures value { result ≡ plane_key_of t }
    ensures x_bound { (result.x < 4294967296) × (result.y < 4294967296) × (result.z < 4294967296) }
{
    let normal = canonical(t.normal);
    let offset = offset_of(t);
    PlaneKey {
        normal,
        offset,
        x: cell_part(normal.x),
        y: cell_part(normal.y),
        z: cell_part(normal.z),
    }
}

fn bucket(x: u64, y: u64, z: u64) -> usize
    ensures { (result ≡ bucket_of (key x y z)) × (result < bucket_count) }
{
    (x % 16 * 256 + y % 16 * 16 + z % 16) as usize
}

fn in_cell(cells: &[u64], p: usize, x: u64, y: u64, z: u64) -> bool
    requires { 3 * p + 3 ≤ length cells.now }
    ensures { result ≡ same_key (cell_at cells.now p) (key x y z) }
{
    let at = 3 * p;
    if cells[at] == x {
        if cells[at + 1] == y {
            return cells[at + 2] == z;
        }
    }
    false
}

fn is_coplanar(rows: &[f32], p: usize, k: PlaneKey) -> bool
    requires { patch_floats * p + patch_floats ≤ length rows.now }
    ensures { result ≡ coplanar_at rows.now k.normal k.offset p }
{
    let at = 11 * p;
    let offset = rows[at + 3];
    if float::abs(offset - k.offset) < 2e-3 {
        return vector::dot3(mirror::vec_in(rows, at), k.normal) > 0.999_98;
    }
    false
}

// Whether patch p matches. Most patches of a bucket fail by their offset, which is tested first.
fn is_match(rows: &[f32], cells: &[u64], p: usize, x: u64, y: u64, z: u64, k: PlaneKey) -> bool
    requires { (patch_floats * p + patch_floats ≤ length rows.now) × (3 * p + 3 ≤ length cells.now) }
    ensures { result ≡ match_at rows.now cells.now (key x y z) k.normal k.offset p }
{
    if is_coplanar(rows, p, k) {
        return in_cell(cells, p, x, y, z);
    }
    false
}

// The first patch of a cell in the plane of k, else np: its bucket is walked from the oldest patch to the tail.
fn first_in_cell(
    rows: &[f32],
    cells: &[u64],
    heads: &[u32],
    next: &[u32],
    np: usize,
    x: u64,
    y: u64,
    z: u64,
    k: PlaneKey,
) -> usize
    requires { Grid rows.now cells.now heads.now next.now np }
    ensures { result ≡ first_among rows.now np k.normal k.offset (key x y z ∷ []) }
{
    let head = heads[bucket(x, y, z)];
    if head == 0 {
        return np;
    }
    let tail = (head - 1) as usize;
    let mut p = next[tail] as usize;
    // Each patch names the next, so no `for`.
    loop {
        if is_match(rows, cells, p, x, y, z, k) {
            return p;
        }
        if p == tail {
            return np;
        }
        p = next[p] as usize;
    }
}

// The cell below c, 0 having none.
fn below(c: u64) -> u64
    ensures { result ≡ c - 1 }
{
    if c == 0 {
        return 0;
    }
    c - 1
}

fn first_along_z(
    rows: &[f32],
    cells: &[u64],
    heads: &[u32],
    next: &[u32],
    np: usize,
    x: u64,
    y: u64,
    z: u64,
    k: PlaneKey,
) -> usize
    requires grid { Grid rows.now cells.now heads.now next.now np }
    requires z_bound { z < 4294967296 }
    ensures { result ≡ first_among rows.now np k.normal k.offset (map (key x y) (beside_of z)) }
{
    let low = below(z);
    let high = z + 1;
    let a = first_in_cell(rows, cells, heads, next, np, x, y, low, k);
    if a < np {
        return a;
    }
    let b = first_in_cell(rows, cells, heads, next, np, x, y, z, k);
    if b < np {
        return b;
    }
    first_in_cell(rows, cells, heads, next, np, x, y, high, k)
}

fn first_along_y(
    rows: &[f32],
    cells: &[u64],
    heads: &[u32],
    next: &[u32],
    np: usize,
    x: u64,
    y: u64,
    z: u64,
    k: PlaneKey,
) -> usize
    requires grid { Grid rows.now cells.now heads.now next.now np }
    requires y_bound { (y < 4294967296) × (z < 4294967296) }
    ensures { result ≡ first_among rows.now np k.normal k.offset (flat_map (λ b. map (key x b) (beside_of z)) (beside_of y)) }
{
    let a = first_along_z(rows, cells, heads, next, np, x, below(y), z, k);
    if a < np {
        return a;
    }
    let b = first_along_z(rows, cells, heads, next, np, x, y, z, k);
    if b < np {
        return b;
    }
    first_along_z(rows, cells, heads, next, np, x, y + 1, z, k)
}

// The first patch in the 27 cells around that of k, x slowest, else np.
fn found(rows: &[f32], cells: &[u64], heads: &[u32], next: &[u32], np: usize, k: PlaneKey) -> usize
    requires grid { Grid rows.now cells.now heads.now next.now np }
    requires x_bound { (k.x < 4294967296) × (k.y < 4294967296) × (k.z < 4294967296) }
    ensures { result ≡ first_among rows.now np k.normal k.offset (around_of (key k.x k.y k.z)) }
{
    let a = first_along_y(rows, cells, heads, next, np, below(k.x), k.y, k.z, k);
    if a < np {
        return a;
    }
    let b = first_along_y(rows, cells, heads, next, np, k.x, k.y, k.z, k);
    if b < np {
        return b;
    }
    first_along_y(rows, cells, heads, next, np, k.x + 1, k.y, k.z, k)
}

// Stores the cell of patch p.
fn put_cell(cells: &mut [u64], p: usize, x: u64, y: u64, z: u64)
    requires { 3 * p + 3 ≤ length cells.old }
    ensures p_after { cell_at cells.new p ≡ key x y z }
    ensures by_index { (q : ℕ) → (q ≡ p → ⊥) → cell_at cells.new q ≡ cell_at cells.old q }
{
    let at = 3 * p;
    cells[at] = x;
    cells[at + 1] = y;
    cells[at + 2] = z;
}

// Patch p becomes the tail of a circular list.
fn link(heads: &mut [u32], next: &mut [u32], p: usize, h: usize)
    requires { (h < length heads.old) × (p < length next.old) × (p < 4294967295) × (get_or heads.old h 0 ≤ p) }
    ensures heads_after { heads.new ≡ set heads.old h (suc p) }
    ensures next_after { next.new ≡ linked_of next.old p (get_or heads.old h 0) }
{
    let head = heads[h];
    heads[h] = (p + 1) as u32;
    if head == 0 {
        next[p] = p as u32;
        return;
    }
    let tail = (head - 1) as usize;
    next[p] = next[tail];
    next[tail] = p as u32;
}

// Patch p of cell k becomes the tail of its bucket.
fn put_in_grid(cells: &mut [u64], heads: &mut [u32], next: &mut [u32], p: usize, k: PlaneKey)
    requires { (3 * p + 3 ≤ length cells.old) × (length heads.old ≡ bucket_count) × (p < length next.old) × (p < 4294967295) ×
        (get_or heads.old (bucket_of (key k.x k.y k.z)) 0 ≤ p) }
    ensures p_after { cell_at cells.new p ≡ key k.x k.y k.z }
    ensures by_index { (q : ℕ) → (q ≡ p → ⊥) → cell_at cells.new q ≡ cell_at cells.old q }
    ensures heads_after { heads.new ≡ set heads.old (bucket_of (key k.x k.y k.z)) (suc p) }
    ensures next_after { next.new ≡ linked_of next.old p (get_or heads.old (bucket_of (key k.x k.y k.z)) 0) }
{
    put_cell(cells, p, k.x, k.y, k.z);
    link(heads, next, p, bucket(k.x, k.y, k.z));
}

// ---- patches

// The row of a patch of triangle t alone.
fn new_patch(rows: &mut [f32], p: usize, t: Triangle, k: PlaneKey)
    requires patch_floats_in_bounds { patch_floats * p + patch_floats ≤ length rows.old }
    requires k_value { k ≡ plane_key_of t }
    ensures p_after { row_in rows.new p ≡ new_row_of t }
    ensures by_index { (q : ℕ) → (q ≡ p → ⊥) → row_in rows.new q ≡ row_in rows.old q }
{
    let normal = k.normal;
    let area = geometry::triangle_area(t);
    let aabb = geometry::from_corners(t.a, t.b, t.c);
    let r = PatchRow {
        normal,
        offset: k.offset,
        area,
        aabb,
    };
    put_row(rows, p, r);
}

// Triangle t joins patch p.
fn join_patch(rows: &mut [f32], p: usize, t: Triangle)
    requires { patch_floats * p + patch_floats ≤ length rows.old }
    ensures p_after { row_in rows.new p ≡ joined_row_of (row_in rows.old p) t }
    ensures by_index { (q : ℕ) → (q ≡ p → ⊥) → row_in rows.new q ≡ row_in rows.old q }
{
    let old = row_at(rows, p);
    let normal = old.normal;
    let area = old.area + geometry::triangle_area(t);
    let aabb = geometry::union(old.aabb, geometry::from_corners(t.a, t.b, t.c));
    let r = PatchRow {
        normal,
        offset: old.offset,
        area,
        aabb,
    };
    put_row(rows, p, r);
}

// Triangle t, which is kept, joins the first patch of its plane, or starts one. The number of patches is returned.
fn place(
    triangles: &[f32],
    handles: &[u32],
    n: usize,
    t: usize,
    np: usize,
    rows: &mut [f32],
    cells: &mut [u64],
    heads: &mut [u32],
    next: &mut [u32],
    of: &mut [u32],
) -> usize
    requires n_in_bounds { (column_count * n ≤ length triangles.now) × (n ≤ length handles.now) × (t < n) × (t < 4294967295) }
    requires patch_floats_in_bounds { (patch_floats * t + patch_floats ≤ length rows.old) × (3 * t + 3 ≤ length cells.old) × (t < length next.old) × (t < length of.old) }
    requires standing { Standing rows.old of.old cells.old heads.old next.old t np }
    ensures standing_2 { Standing rows.new of.new cells.new heads.new next.new (suc t) result }
    ensures result_after { (ts : List Triangle) → nth_triangle ts t ≡ triangle_at_of triangles.now handles.now n t →
        patches_in rows.new of.new (suc t) result ≡ placed_of ts (patches_in rows.old of.old t np) t }
    ensures by_index { (i : ℕ) → (i ≡ t → ⊥) → get_or of.new i none_of ≡ get_or of.old i none_of }
{
    let tri = columns::triangle_at(triangles, handles, n, t);
    let k = plane_key(tri);
    let p = found(rows, cells, heads, next, np, k);
    if p < np {
        join_patch(rows, p, tri);
        of[t] = p as u32;
        return np;
    }
    new_patch(rows, np, tri, k);
    put_in_grid(cells, heads, next, np, k);
    of[t] = np as u32;
    np + 1
}

// Triangle t, where it is kept.
fn turn(
    triangles: &[f32],
    handles: &[u32],
    n: usize,
    first: &[u32],
    t: usize,
    np: usize,
    rows: &mut [f32],
    cells: &mut [u64],
    heads: &mut [u32],
    next: &mut [u32],
    of: &mut [u32],
) -> usize
    requires n_in_bounds { (column_count * n ≤ length triangles.now) × (n ≤ length handles.now) × (t < n) × (t < 4294967295) × (t < length first.now) }
    requires patch_floats_in_bounds { (patch_floats * t + patch_floats ≤ length rows.old) × (3 * t + 3 ≤ length cells.old) × (t < length next.old) × (t < length of.old) }
    requires standing { Standing rows.old of.old cells.old heads.old next.old t np }
    ensures standing_2 { Standing rows.new of.new cells.new heads.new next.new (suc t) result }
    ensures result_after { (ts : List Triangle) → nth_triangle ts t ≡ triangle_at_of triangles.now handles.now n t →
        patches_in rows.new of.new (suc t) result ≡
        cond (eqb (get_or first.now t 0) t) (placed_of ts (patches_in rows.old of.old t np) t)
        (patches_in rows.old of.old t np) }
    ensures by_index { (i : ℕ) → (i ≡ t → ⊥) → get_or of.new i none_of ≡ get_or of.old i none_of }
    ensures none_of_after { eqb (get_or first.now t 0) t ≡ false → get_or of.new t none_of ≡ none_of }
{
    if first[t] == t as u32 {
        return place(triangles, handles, n, t, np, rows, cells, heads, next, of);
    }
    of[t] = NONE;
    np
}

// STEP 2 of the planes: the patches of the first m triangles, as rows and as the number of each triangle's patch. `first` tells which
// triangles are kept, by `planes_faces::duplicates`. The number of patches is returned.
pub fn coplanar_patches(
    triangles: &[f32],
    handles: &[u32],
    n: usize,
    m: usize,
    first: &[u32],
    cells: &mut [u64],
    heads: &mut [u32],
    next: &mut [u32],
    rows: &mut [f32],
    of: &mut [u32],
) -> usize
    requires n_in_bounds { (column_count * n ≤ length triangles.now) × (n ≤ length handles.now) × (m ≤ n) × (m ≤ 4294967295) × (m ≤ length first.now) }
    requires heads_len { (length heads.old ≡ bucket_count) × (patch_floats * m ≤ length rows.old) × (3 * m ≤ length cells.old) × (m ≤ length next.old) ×
        (m ≤ length of.old) }
    requires by_index { (i : ℕ) → i < m → eqb (get_or first.now i 0) i ≡ is_first (faces_in triangles.now n) i }
    ensures result_after { patches_in rows.new of.new m result ≡ patches_of (triangles_in triangles.now handles.now n m) }
    ensures upper_bound { (result ≤ m) × Numbered of.new m result }
    ensures by_index_2 { (i : ℕ) → i < m → eqb (get_or first.now i 0) i ≡ false → get_or of.new i none_of ≡ none_of }
    ensures rest { Open cells.old cells.new × Open heads.old heads.new × Open next.old next.new }
{
    heads.fill(0);
    let mut np = 0;
    for t in 0..m {
        np = turn(
            triangles, handles, n, first, t, np, rows, cells, heads, next, of,
        );
    }
    np
}
