// Triangles in columns. The columns of an area are n floats each, n the scene's whole triples: the nine
// coordinates, the normal, and what the tests of a ray and of a point need of the triangle alone. Triangle i stands at i in each.
#![tactic(auto)]

ghost use Rattle.std.specs.Prelude.{◌≡◌, ◌+◌, ◌*◌, ◌^◌, ◌<◌, ◌≤◌, length};
ghost use Rattle.columns.specs.Columns.{column_count, vec_at_of, triangle_at_of, edges_at_of, dots_at_of, vec_row_of, dots_row_of, put_columns, put_triangle_of};

use geometry::{Dots, Edges, Triangle};
use vector::Vec3;

pub const COLUMNS: usize = 23;

// ---- reading

fn vec_at(triangles: &[f32], n: usize, p: usize) -> Vec3
    requires { p + 2 * n < length triangles.now }
    ensures { result ≡ vec_at_of triangles.now n p }
{
    Vec3 {
        x: triangles[p],
        y: triangles[p + n],
        z: triangles[p + 2 * n],
    }
}

// The first corner of triangle i.
pub fn corner_at(triangles: &[f32], n: usize, i: usize) -> Vec3
    requires { (column_count * n ≤ length triangles.now) × (i < n) }
    ensures { result ≡ vec_at_of triangles.now n i }
{
    vec_at(triangles, n, i)
}

pub fn triangle_at(triangles: &[f32], handles: &[u32], n: usize, i: usize) -> Triangle
    requires { (column_count * n ≤ length triangles.now) × (n ≤ length handles.now) × (i < n) }
    ensures { result ≡ triangle_at_of triangles.now handles.now n i }
{
    let material_handle = handles[i];
    Triangle {
        a: vec_at(triangles, n, i),
        b: vec_at(triangles, n, i + 3 * n),
        c: vec_at(triangles, n, i + 6 * n),
        normal: vec_at(triangles, n, i + 9 * n),
        material_handle,
    }
}

pub fn edges_at(triangles: &[f32], n: usize, i: usize) -> Edges
    requires { (column_count * n ≤ length triangles.now) × (i < n) }
    ensures { result ≡ edges_at_of triangles.now n i }
{
    let least_det = triangles[i + 18 * n];
    Edges {
        edge1: vec_at(triangles, n, i + 12 * n),
        edge2: vec_at(triangles, n, i + 15 * n),
        least_det,
    }
}

pub fn dots_at(triangles: &[f32], n: usize, i: usize) -> Dots
    requires { (column_count * n ≤ length triangles.now) × (i < n) }
    ensures { result ≡ dots_at_of triangles.now n i }
{
    Dots {
        d00: triangles[i + 19 * n],
        d01: triangles[i + 20 * n],
        d11: triangles[i + 21 * n],
        denom: triangles[i + 22 * n],
    }
}

// ---- storing

// A vector in three columns, its x at p.
fn put_vec(triangles: &mut [f32], n: usize, p: usize, v: Vec3)
    requires { (p + 2 * n < length triangles.old) × (p < 2 ^ 40) × (n < 2 ^ 32) }
    ensures { triangles.new ≡ put_columns triangles.old n p (vec_row_of v) }
{
    triangles[p] = v.x;
    triangles[p + n] = v.y;
    triangles[p + 2 * n] = v.z;
}

// The products and the divisor in four columns, the first at p.
fn put_dots(triangles: &mut [f32], n: usize, p: usize, d: Dots)
    requires { (p + 3 * n < length triangles.old) × (p < 2 ^ 40) × (n < 2 ^ 32) }
    ensures { triangles.new ≡ put_columns triangles.old n p (dots_row_of d) }
{
    triangles[p] = d.d00;
    triangles[p + n] = d.d01;
    triangles[p + 2 * n] = d.d11;
    triangles[p + 3 * n] = d.denom;
}

// The four vectors of a triangle, then what depends on it alone. The column with the root comes last: what was stored before it is not kept in
// registers around the root.
pub fn put_triangle(triangles: &mut [f32], n: usize, i: usize, t: Triangle)
    requires { (column_count * n ≤ length triangles.old) × (i < n) × (n < 2 ^ 32) }
    ensures { triangles.new ≡ put_triangle_of triangles.old n i t }
{
    put_vec(triangles, n, i, t.a);
    put_vec(triangles, n, i + 3 * n, t.b);
    put_vec(triangles, n, i + 6 * n, t.c);
    put_vec(triangles, n, i + 9 * n, t.normal);
    let edge1 = vector::sub3(t.b, t.a);
    let edge2 = vector::sub3(t.c, t.a);
    put_vec(triangles, n, i + 12 * n, edge1);
    put_vec(triangles, n, i + 15 * n, edge2);
    let sides = Edges {
        edge1,
        edge2,
        least_det: 0.0,
    };
    put_dots(triangles, n, i + 19 * n, geometry::dots_of(sides));
    let e = geometry::edges_of(t.a, t.b, t.c);
    triangles[i + 18 * n] = e.least_det;
}
