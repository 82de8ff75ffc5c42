// Boxes and triangles, and where a ray meets them: `Aabb` and `Triangle` of cpu_simd.rs. What depends on a triangle alone (`Edges`,
// `Dots`) is worked out once and handed to the test of a ray or a point, where the Rust works it out in each test.
#![tactic(auto)]

ghost use Rattle.std.specs.Prelude.{◌≡◌};
ghost use Rattle.geometry.specs.Aabb.{low_of, high_of, new_empty_of, union_of, grow_of, from_point_of, from_corners_of, extent_of, surface_area_of};
ghost use Rattle.geometry.specs.Slab.{pad_of, padded_of};
ghost use Rattle.geometry.specs.Triangle.{cross_of, shape_of, triangle_area_of, third_of, centroid_of};
ghost use Rattle.geometry.specs.Intersect.{edges_of_corners, parallel_of, outside_of, within_of, solve_of, crossing_of};
ghost use Rattle.geometry.specs.Contains.{dots_of_edges, inside_of, contains_of};

use vector::{Ray, Vec3};

const BARY_EPS: f32 = 1e-5;

// An axis-aligned box.
#[derive(Clone, Copy)]
pub struct Aabb {
    pub min: Vec3,
    pub max: Vec3,
}

#[derive(Clone, Copy)]
pub struct Triangle {
    pub a: Vec3,
    pub b: Vec3,
    pub c: Vec3,
    pub normal: Vec3,
    pub material_handle: u32,
}

// What the test of a ray needs of a triangle beside its first corner: the edges from that corner, and the least determinant of a ray
// that does not run along the triangle.
#[derive(Clone, Copy)]
pub struct Edges {
    pub edge1: Vec3,
    pub edge2: Vec3,
    pub least_det: f32,
}

// What the test of a point needs of a triangle's edges: their products and the divisor.
#[derive(Clone, Copy)]
pub struct Dots {
    pub d00: f32,
    pub d01: f32,
    pub d11: f32,
    pub denom: f32,
}

// ---- boxes

fn low(a: Vec3, b: Vec3) -> Vec3
    ensures { result ≡ low_of a b }
{
    Vec3 {
        x: float::min(a.x, b.x),
        y: float::min(a.y, b.y),
        z: float::min(a.z, b.z),
    }
}

fn high(a: Vec3, b: Vec3) -> Vec3
    ensures { result ≡ high_of a b }
{
    Vec3 {
        x: float::max(a.x, b.x),
        y: float::max(a.y, b.y),
        z: float::max(a.z, b.z),
    }
}

// The box of nothing: its ends are turned, so that a union with any box is that box.
pub fn new_empty() -> Aabb
    ensures { result ≡ new_empty_of }
{
    Aabb {
        min: Vec3 {
            x: 3.402_823_5e38,
            y: 3.402_823_5e38,
            z: 3.402_823_5e38,
        },
        max: Vec3 {
            x: -3.402_823_5e38,
            y: -3.402_823_5e38,
            z: -3.402_823_5e38,
        },
    }
}

pub fn union(a: Aabb, b: Aabb) -> Aabb
    ensures { result ≡ union_of a b }
{
    Aabb {
        min: low(a.min, b.min),
        max: high(a.max, b.max),
    }
}

// A box with one more point in it.
fn grow(b: Aabb, p: Vec3) -> Aabb
    ensures { result ≡ grow_of b p }
{
    Aabb {
        min: low(b.min, p),
        max: high(b.max, p),
    }
}

// The box of one point.
pub fn from_point(p: Vec3) -> Aabb
    ensures { result ≡ from_point_of p }
{
    grow(new_empty(), p)
}

// The box of a triangle's corners.
pub fn from_corners(a: Vec3, b: Vec3, c: Vec3) -> Aabb
    ensures { result ≡ from_corners_of a b c }
{
    grow(grow(grow(new_empty(), a), b), c)
}

fn extent(high: f32, low: f32) -> f32
    ensures { result ≡ extent_of high low }
{
    float::max(high - low, 0.0)
}

pub fn surface_area(b: Aabb) -> f32
    ensures { result ≡ surface_area_of b }
{
    let dx = extent(b.max.x, b.min.x);
    let dy = extent(b.max.y, b.min.y);
    let dz = extent(b.max.z, b.min.z);
    2.0 * (dx * dy + dx * dz + dy * dz)
}

// ---- what a ray is tested against

fn pad(low: f32, high: f32) -> f32
    ensures { result ≡ pad_of low high }
{
    1e-6 * (1.0 + float::max(float::abs(low), float::abs(high)))
}

// The box that a ray is tested against: once a box, where the Rust pads in each test.
pub fn padded(b: Aabb) -> Aabb
    ensures { result ≡ padded_of b }
{
    let x = pad(b.min.x, b.max.x);
    let y = pad(b.min.y, b.max.y);
    let z = pad(b.min.z, b.max.z);
    Aabb {
        min: Vec3 {
            x: b.min.x - x,
            y: b.min.y - y,
            z: b.min.z - z,
        },
        max: Vec3 {
            x: b.max.x + x,
            y: b.max.y + y,
            z: b.max.z + z,
        },
    }
}

// ---- triangles

// The product of the two edges from the first corner.
fn cross(a: Vec3, b: Vec3, c: Vec3) -> Vec3
    ensures { result ≡ cross_of a b c }
{
    vector::cross3(vector::sub3(b, a), vector::sub3(c, a))
}

// `Triangle::is_degenerate` and `Triangle::new` in one, since both take the root of the same product. Three corners with next to no area have no
// normal and cannot be hit: they are no triangle.
pub fn triangle_of(a: Vec3, b: Vec3, c: Vec3, material_handle: u32) -> Option<Triangle>
    ensures { result ≡ shape_of a b c material_handle }
{
    let n = cross(a, b, c);
    let len = vector::length3(n);
    if len > 1e-12 {
        return Some(Triangle {
            a,
            b,
            c,
            normal: Vec3 {
                x: n.x / len,
                y: n.y / len,
                z: n.z / len,
            },
            material_handle,
        });
    }
    None
}

pub fn triangle_area(t: Triangle) -> f32
    ensures { result ≡ triangle_area_of t }
{
    0.5 * vector::length3(cross(t.a, t.b, t.c))
}

fn third(a: f32, b: f32, c: f32) -> f32
    ensures { result ≡ third_of a b c }
{
    (a + b + c) / 3.0
}

pub fn centroid(t: Triangle) -> Vec3
    ensures { result ≡ centroid_of t }
{
    Vec3 {
        x: third(t.a.x, t.b.x, t.c.x),
        y: third(t.a.y, t.b.y, t.c.y),
        z: third(t.a.z, t.b.z, t.c.z),
    }
}

// ---- a ray and a triangle

pub fn edges_of(a: Vec3, b: Vec3, c: Vec3) -> Edges
    ensures { result ≡ edges_of_corners a b c }
{
    let edge1 = vector::sub3(b, a);
    let edge2 = vector::sub3(c, a);
    let scale = float::sqrt(vector::dot3(edge1, edge1) * vector::dot3(edge2, edge2));
    Edges {
        edge1,
        edge2,
        least_det: 1e-9 * scale,
    }
}

// Whether a ray of this determinant runs along the triangle.
pub fn parallel(det: f32, least_det: f32) -> bool
    ensures { result ≡ parallel_of det least_det }
{
    !(float::abs(det) > least_det)
}

// Whether a weight lies below its range, or a sum of weights above it.
fn outside(a: f32, b: f32) -> bool
    ensures { result ≡ outside_of a b }
{
    a < -BARY_EPS || b > 1.0 + BARY_EPS
}

fn within(t: f32, u: f32, v: f32, tmin: f32, tmax: f32) -> Option<(f32, f32, f32)>
    ensures { result ≡ within_of t u v tmin tmax }
{
    if tmin <= t {
        if t <= tmax {
            return Some((t, u, v));
        }
    }
    None
}

// The crossing of a ray that does not run along the triangle: h is the direction's product with the second edge, s the way from the
// first corner to the ray's origin.
pub fn solve(
    e: Edges,
    h: Vec3,
    s: Vec3,
    inv_det: f32,
    ray: Ray,
    t_max: f32,
) -> Option<(f32, f32, f32)>
    ensures { result ≡ solve_of e h s inv_det ray t_max }
{
    let u = vector::dot3(s, h) * inv_det;
    if outside(u, u) {
        return None;
    }
    let q = vector::cross3(s, e.edge1);
    let v = vector::dot3(ray.direction, q) * inv_det;
    if outside(v, u + v) {
        return None;
    }
    within(
        vector::dot3(e.edge2, q) * inv_det,
        u,
        v,
        ray.min_distance,
        t_max,
    )
}

// The Möller-Trumbore test, with what depends on the triangle alone at hand: the distance, and the two weights of the edges.
pub fn intersect_edges(a: Vec3, e: Edges, ray: Ray, t_max: f32) -> Option<(f32, f32, f32)>
    ensures { result ≡ crossing_of a e ray t_max }
{
    let h = vector::cross3(ray.direction, e.edge2);
    let det = vector::dot3(e.edge1, h);
    if parallel(det, e.least_det) {
        return None;
    }
    solve(e, h, vector::sub3(ray.origin, a), 1.0 / det, ray, t_max)
}

// ---- a point and a triangle

pub fn dots_of(e: Edges) -> Dots
    ensures { result ≡ dots_of_edges e }
{
    let d00 = vector::dot3(e.edge2, e.edge2);
    let d01 = vector::dot3(e.edge2, e.edge1);
    let d11 = vector::dot3(e.edge1, e.edge1);
    Dots {
        d00,
        d01,
        d11,
        denom: d00 * d11 - d01 * d01,
    }
}

fn inside(u: f32, v: f32) -> bool
    ensures { result ≡ inside_of u v }
{
    if u >= -BARY_EPS {
        if v >= -BARY_EPS {
            return u + v <= 1.0 + BARY_EPS;
        }
    }
    false
}

// Whether a point of the triangle's plane lies in it, with what depends on the triangle alone at hand.
pub fn contains(a: Vec3, e: Edges, d: Dots, p: Vec3) -> bool
    ensures { result ≡ contains_of a e d p }
{
    let v2 = vector::sub3(p, a);
    let d20 = vector::dot3(v2, e.edge2);
    let d21 = vector::dot3(v2, e.edge1);
    if float::abs(d.denom) > 1e-20 {
        return inside(
            (d.d11 * d20 - d.d01 * d21) / d.denom,
            (d.d00 * d21 - d.d01 * d20) / d.denom,
        );
    }
    false
}
