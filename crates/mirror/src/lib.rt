// A mirror plane (`ReflectPlane`): its sides, where a segment crosses it, its border, and the points of its surface. A plane stands in areas
// as a row of floats and a row of words (specs/Rows.antt); its triangles are read from their columns.
#![tactic(auto)]

ghost use Rattle.std.specs.Prelude.{◌≡◌, List, ℕ, ◌+◌, ◌*◌, ◌<◌, ◌≤◌, length};
ghost use Rattle.order.specs.Sort.{Below};
ghost use Rattle.geometry.specs.declared.Triangle.{Triangle};
ghost use Rattle.columns.specs.Columns.{column_count};
ghost use Rattle.mirror.specs.Plane.{Edge};
ghost use Rattle.mirror.specs.Mirror.{signed_distance_of, mirror_of, along_of, crossing_of};
ghost use Rattle.mirror.specs.Border.{nearest_of, point_segment_distance_of, border_distance_of, smooth_of, weight_of};
ghost use Rattle.mirror.specs.Locate.{within_of, contains_in_box_of, snap_edges_of, snap_all_of, normal_ray_of, find_of, spot_of, surface_of, locate_on_plane_of};
ghost use Rattle.mirror.specs.Rows.{plane_float_count, plane_word_count, edge_floats, vec_of_floats, row_of, edge_in, edges_in, tris_of, border_of, row_plane, RunsIn, AllRead};

use geometry::{Aabb, Edges};
use vector::{Ray, Vec3};

pub const PLANE_SIDE_EPS: f32 = 1e-4;

const PLANE_BOX_PAD: f32 = 2e-3;

const PLANE_FLOATS: usize = 12;

const PLANE_WORDS: usize = 5;

const EDGE_FLOATS: usize = 6;

// A plane's rows: its triangles are `count` members from `first` on, its border `edges` edges from `edge` on.
#[derive(Clone, Copy)]
pub struct PlaneRow {
    pub normal: Vec3,
    pub offset: f32,
    pub aabb: Aabb,
    pub spread: f32,
    pub area: f32,
    pub first: usize,
    pub count: usize,
    pub edge: usize,
    pub edges: usize,
    pub fitted: bool,
}

// ---- rows

pub fn vec_in(l: &[f32], at: usize) -> Vec3
    requires { at + 3 ≤ length l.now }
    ensures { result ≡ vec_of_floats l.now at }
{
    Vec3 {
        x: l[at],
        y: l[at + 1],
        z: l[at + 2],
    }
}

// The rows of plane p.
pub fn plane_at(plane_floats: &[f32], plane_words: &[u32], p: usize) -> PlaneRow
    requires { (plane_float_count * p + plane_float_count ≤ length plane_floats.now) × (plane_word_count * p + plane_word_count ≤ length plane_words.now) }
    ensures { result ≡ row_of plane_floats.now plane_words.now p }
{
    let f = PLANE_FLOATS * p;
    let w = PLANE_WORDS * p;
    let aabb = Aabb {
        min: vec_in(plane_floats, f + 4),
        max: vec_in(plane_floats, f + 7),
    };
    PlaneRow {
        normal: vec_in(plane_floats, f),
        offset: plane_floats[f + 3],
        aabb,
        spread: plane_floats[f + 10],
        area: plane_floats[f + 11],
        first: plane_words[w] as usize,
        count: plane_words[w + 1] as usize,
        edge: plane_words[w + 2] as usize,
        edges: plane_words[w + 3] as usize,
        fitted: plane_words[w + 4] != 0,
    }
}

// ---- sides

pub fn signed_distance(plane: PlaneRow, p: Vec3) -> f32
    ensures { (is : List ℕ) (es : List Edge) → result ≡ signed_distance_of (row_plane plane is es) p }
{
    vector::dot3(plane.normal, p) - plane.offset
}

pub fn mirror(plane: PlaneRow, p: Vec3) -> Vec3
    ensures { (is : List ℕ) (es : List Edge) → result ≡ mirror_of (row_plane plane is es) p }
{
    let d = 2.0 * signed_distance(plane, p);
    Vec3 {
        x: p.x - d * plane.normal.x,
        y: p.y - d * plane.normal.y,
        z: p.z - d * plane.normal.z,
    }
}

// The point that is t directions away from the origin.
fn along(origin: Vec3, direction: Vec3, t: f32) -> Vec3
    ensures { result ≡ along_of origin direction t }
{
    Vec3 {
        x: origin.x + direction.x * t,
        y: origin.y + direction.y * t,
        z: origin.z + direction.z * t,
    }
}

// Where the segment from `prev` to `target` crosses the plane, if its ends lie off the plane and on two sides of it.
pub fn crossing(plane: PlaneRow, prev: Vec3, target: Vec3) -> Option<Vec3>
    ensures { (is : List ℕ) (es : List Edge) → result ≡ crossing_of (row_plane plane is es) prev target }
{
    let da = signed_distance(plane, prev);
    let db = signed_distance(plane, target);
    if da * db < 0.0 {
        if float::abs(da) < PLANE_SIDE_EPS {
            return None;
        }
        if float::abs(db) < PLANE_SIDE_EPS {
            return None;
        }
        return Some(along(prev, vector::sub3(target, prev), da / (da - db)));
    }
    None
}

// ---- the border

fn nearest(p: Vec3, a: Vec3, ab: Vec3) -> f32
    ensures { result ≡ nearest_of p a ab }
{
    let len2 = vector::dot3(ab, ab);
    if len2 > 1e-20 {
        return float::clamp(vector::dot3(vector::sub3(p, a), ab) / len2, 0.0, 1.0);
    }
    0.0
}

fn point_segment_distance(p: Vec3, a: Vec3, b: Vec3) -> f32
    ensures { result ≡ point_segment_distance_of p a b }
{
    let ab = vector::sub3(b, a);
    let t = nearest(p, a, ab);
    vector::distance3(p, along(a, ab, t))
}

// The distance of p from edge k.
fn edge_distance(plane_edges: &[f32], k: usize, p: Vec3) -> f32
    requires { edge_floats * k + edge_floats ≤ length plane_edges.now }
    ensures { result ≡ point_segment_distance_of p (edge_in plane_edges.now k).start (edge_in plane_edges.now k).end }
{
    let at = EDGE_FLOATS * k;
    let a = vec_in(plane_edges, at);
    let b = vec_in(plane_edges, at + 3);
    point_segment_distance(p, a, b)
}

// The distance of p from the nearest of `count` edges.
fn border_distance(plane_edges: &[f32], first: usize, count: usize, p: Vec3) -> f32
    requires { edge_floats * (first + count) ≤ length plane_edges.now }
    ensures { result ≡ border_distance_of p (edges_in plane_edges.now first count) }
{
    let mut dist = float::infinity();
    for k in 0..count {
        dist = float::min(dist, edge_distance(plane_edges, first + k, p));
    }
    dist
}

fn smooth(dist: f32, fade: f32) -> f32
    ensures { result ≡ smooth_of dist fade }
{
    let s = float::clamp(dist / fade, 0.0, 1.0);
    s * s * (3.0 - 2.0 * s)
}

// The edge window: 1 inside, falling to 0 at the border over `fade`.
fn weight(plane_edges: &[f32], first: usize, count: usize, fade: f32, p: Vec3) -> f32
    requires { edge_floats * (first + count) ≤ length plane_edges.now }
    ensures { result ≡ weight_of (edges_in plane_edges.now first count) fade p }
{
    if fade > 0.0 {
        return smooth(border_distance(plane_edges, first, count, p), fade);
    }
    1.0
}

// ---- the surface

fn within(x: f32, low: f32, high: f32) -> bool
    ensures { result ≡ within_of x low high }
{
    x >= low - PLANE_BOX_PAD && x <= high + PLANE_BOX_PAD
}

fn contains_in_box(plane: PlaneRow, p: Vec3) -> bool
    ensures { (is : List ℕ) (es : List Edge) → result ≡ contains_in_box_of (row_plane plane is es) p }
{
    if within(p.x, plane.aabb.min.x, plane.aabb.max.x) {
        if within(p.y, plane.aabb.min.y, plane.aabb.max.y) {
            return within(p.z, plane.aabb.min.z, plane.aabb.max.z);
        }
    }
    false
}

// Tries one triangle, given by its first corner and its edges. What a fitted plane's point is moved onto is a triangle, so far along the normal.
fn snap_on(
    a: Vec3,
    e: Edges,
    ray: Ray,
    i: usize,
    best: Option<(usize, f32)>,
) -> Option<(usize, f32)>
    ensures { result ≡ snap_edges_of a e ray i best }
{
    let Some((t, _, _)) = geometry::intersect_edges(a, e, ray, ray.max_distance) else {
        return best;
    };
    let Some((_, s)) = best else {
        return Some((i, t));
    };
    if float::abs(t) < float::abs(s) {
        return Some((i, t));
    }
    best
}

// Of the triangles that the ray meets the nearest, on either side of its origin.
fn snap_all(triangles: &[f32], n: usize, ray: Ray, plane_triangles: &[u32]) -> Option<(usize, f32)>
    requires { (column_count * n ≤ length triangles.now) × Below n plane_triangles.now }
    ensures { (tri : ℕ → Triangle) → AllRead tri triangles.now n plane_triangles.now →
        result ≡ snap_all_of tri ray plane_triangles.now None }
{
    let mut best: Option<(usize, f32)> = None;
    for t in plane_triangles {
        let i = *t as usize;
        best = snap_on(
            columns::corner_at(triangles, n, i),
            columns::edges_at(triangles, n, i),
            ray,
            i,
            best,
        );
    }
    best
}

// The line along the normal of a fitted plane.
fn normal_ray(plane: PlaneRow, p: Vec3) -> Ray
    ensures { (is : List ℕ) (es : List Edge) → result ≡ normal_ray_of (row_plane plane is es) p }
{
    let reach = plane.spread + 2.0 * PLANE_BOX_PAD;
    let direction = plane.normal;
    Ray {
        origin: p,
        direction,
        min_distance: -reach,
        max_distance: reach,
    }
}

// The first triangle that p lies on, and the point there.
fn find(triangles: &[f32], n: usize, p: Vec3, plane_triangles: &[u32]) -> Option<(usize, Vec3)>
    requires { (column_count * n ≤ length triangles.now) × Below n plane_triangles.now }
    ensures { (tri : ℕ → Triangle) → AllRead tri triangles.now n plane_triangles.now →
        result ≡ find_of tri p plane_triangles.now }
{
    for t in plane_triangles {
        let i = *t as usize;
        if geometry::contains(
            columns::corner_at(triangles, n, i),
            columns::edges_at(triangles, n, i),
            columns::dots_at(triangles, n, i),
            p,
        ) {
            return Some((i, p));
        }
    }
    None
}

fn spot_on(
    triangles: &[f32],
    n: usize,
    plane: PlaneRow,
    plane_triangles: &[u32],
    p: Vec3,
) -> Option<(usize, Vec3)>
    requires { (column_count * n ≤ length triangles.now) × Below n plane_triangles.now }
    ensures { (tri : ℕ → Triangle) (es : List Edge) → AllRead tri triangles.now n plane_triangles.now →
        result ≡ spot_of tri (row_plane plane plane_triangles.now es) p }
{
    if plane.fitted {
        let (i, t) = snap_all(triangles, n, normal_ray(plane, p), plane_triangles)?;
        return Some((i, along(p, plane.normal, t)));
    }
    find(triangles, n, p, plane_triangles)
}

// Where a point of the plane lies on the surface: the box is asked before the point is moved.
pub fn surface(
    triangles: &[f32],
    n: usize,
    plane: PlaneRow,
    plane_triangles: &[u32],
    p: Vec3,
) -> Option<(usize, Vec3)>
    requires n_in_bounds { column_count * n ≤ length triangles.now }
    requires count_in_bounds { (plane.first + plane.count ≤ length plane_triangles.now) × Below n (tris_of plane plane_triangles.now) }
    ensures { (tri : ℕ → Triangle) (es : List Edge) → AllRead tri triangles.now n (tris_of plane plane_triangles.now) →
        result ≡ surface_of tri (row_plane plane (tris_of plane plane_triangles.now) es) p }
{
    if contains_in_box(plane, p) {
        let first = plane.first;
        let end = first + plane.count;
        return spot_on(triangles, n, plane, &plane_triangles[first..end], p);
    }
    None
}

// The triangle that a point of the plane is located on, the edge weight there and the point.
pub fn locate_on_plane(
    triangles: &[f32],
    n: usize,
    plane: PlaneRow,
    plane_triangles: &[u32],
    plane_edges: &[f32],
    fade: f32,
    p: Vec3,
) -> Option<(usize, f32, Vec3)>
    requires n_in_bounds { column_count * n ≤ length triangles.now }
    requires runs_in { RunsIn plane n plane_triangles.now plane_edges.now }
    ensures { (tri : ℕ → Triangle) → AllRead tri triangles.now n (tris_of plane plane_triangles.now) →
        result ≡ locate_on_plane_of tri fade (row_plane plane (tris_of plane plane_triangles.now) (border_of plane plane_edges.now)) p }
{
    let (i, q) = surface(triangles, n, plane, plane_triangles, p)?;
    Some((i, weight(plane_edges, plane.edge, plane.edges, fade, q), q))
}
