// The bounces of a path by way of a sequence of planes, found from the listener back to the source, and the images that they aim at.
#![tactic(auto)]

ghost use Rattle.std.specs.Prelude.{◌≡◌, List, [], ◌∷◌, ℕ, ◌+◌, ◌*◌, ◌<◌, ◌≤◌, length, get_or, Float, IfOk};
ghost use Rattle.std.proofs.Math.Seq.{slice};
ghost use Rattle.std.specs.Float.{binary32};
ghost use Rattle.std.specs.Float.Ieee.{mul};
ghost use Rattle.float.specs.Literals.{one32};
ghost use Rattle.geometry.specs.declared.Triangle.{Triangle};
ghost use Rattle.mirror.specs.Plane.{no_point, nth_plane};
ghost use Rattle.mirror.specs.Mirror.{mirror_of};
ghost use Rattle.mirror.specs.Rows.{plane_float_count, plane_word_count, planes_in};
ghost use Rattle.bounces.specs.Image.{lies_on_of};
ghost use Rattle.bounces.specs.Bounces.{bounce_of, turn_of, back_of, plane_on};
ghost use Rattle.bounces.specs.Areas.{max_order, trail_of, fate_of, point_in, point_floats, Going, TableLent, TableReads, planes_of_table};

use vector::Vec3;

// Floats of a point in an area.
const POINT_FLOATS: usize = 3;

// What a bounce fails by: the segment does not cross its plane, or the point lies off the plane's surface.
#[derive(Clone, Copy)]
pub enum Lost {
    NotCrossed,
    OffSurface,
}

// The bounces found so far, source side first, and the product of their weights.
#[derive(Clone, Copy)]
pub struct Trail {
    pub points: [Vec3; 8],
    pub tris: [usize; 8],
    pub weight: f32,
}

// A way back that a bounce ends: what that bounce fails by, and the bounces found before it.
#[derive(Clone, Copy)]
pub struct Broken {
    pub by: Lost,
    pub trail: Trail,
}

// The planes as a bounce reads them: their rows of floats and words, their triangles and the edges of their borders, and the scene's triangles, by
// columns of n.
#[derive(Clone, Copy)]
pub struct PlaneTable<'a> {
    pub triangles: &'a [f32],
    pub n: usize,
    pub floats: &'a [f32],
    pub words: &'a [u32],
    pub members: &'a [u32],
    pub edges: &'a [f32],
    pub count: usize,
}

// ---- images

// Whether the source lies on plane p, so that a sequence may not begin with it.
pub fn lies_on(plane_floats: &[f32], plane_words: &[u32], p: usize, source: Vec3) -> bool
    requires { (plane_float_count * p + plane_float_count ≤ length plane_floats.now) × (plane_word_count * p + plane_word_count ≤ length plane_words.now) }
    ensures { (members : List ℕ) (edges : List Float) (count : ℕ) → p < count →
        result ≡ lies_on_of (nth_plane (planes_in plane_floats.now plane_words.now members edges count) p) source }
{
    float::abs(mirror::signed_distance(mirror::plane_at(plane_floats, plane_words, p), source))
        < mirror::PLANE_SIDE_EPS
}

// The image of an image in plane p.
pub fn next_image(plane_floats: &[f32], plane_words: &[u32], p: usize, image: Vec3) -> Vec3
    requires { (plane_float_count * p + plane_float_count ≤ length plane_floats.now) × (plane_word_count * p + plane_word_count ≤ length plane_words.now) }
    ensures { (members : List ℕ) (edges : List Float) (count : ℕ) → p < count →
        result ≡ mirror_of (nth_plane (planes_in plane_floats.now plane_words.now members edges count) p) image }
{
    mirror::mirror(mirror::plane_at(plane_floats, plane_words, p), image)
}

// ---- bounces

// The bounce on plane p, between `prev` and the image `target`: the triangle, the edge weight and the point.
fn bounce_on(
    planes: &PlaneTable,
    fade: f32,
    p: usize,
    prev: Vec3,
    target: Vec3,
) -> Result<(usize, f32, Vec3), Lost>
    requires planes_lent { TableLent planes.now }
    requires p_lt_count { p < planes.now.count }
    ensures { (tri : ℕ → Triangle) →
        TableReads tri planes.now →
        result ≡ bounce_of tri fade
        (nth_plane (planes_of_table planes.now) p)
        prev target }
{
    let plane = mirror::plane_at(planes.floats, planes.words, p);
    let b = mirror::crossing(plane, prev, target).ok_or(Lost::NotCrossed)?;
    mirror::locate_on_plane(
        planes.triangles,
        planes.n,
        plane,
        planes.members,
        planes.edges,
        fade,
        b,
    )
    .ok_or(Lost::OffSurface)
}

// A trail with bounce k.
fn put(t: Trail, k: usize, i: usize, w: f32, q: Vec3) -> Trail
    requires { (k < max_order) × Going t }
    ensures going { Going result × (result.weight ≡ mul binary32 t.weight w) }
    ensures by_index { (m : ℕ) → k < m → m ≤ max_order → slice k m result.points ≡ q ∷ slice (k + 1) m t.points }
    ensures by_index_2 { (m : ℕ) → k < m → m ≤ max_order → slice k m result.tris ≡ i ∷ slice (k + 1) m t.tris }
{
    let mut u = t;
    u.points[k] = q;
    u.tris[k] = i;
    u.weight = t.weight * w;
    u
}

// A trail without bounces.
pub fn no_bounces() -> Trail
    ensures { Going result × (result.weight ≡ one32) }
{
    let zero = Vec3 {
        x: 0.0,
        y: 0.0,
        z: 0.0,
    };
    let points = [zero; 8];
    let tris = [0usize; 8];
    Trail {
        points,
        tris,
        weight: 1.0,
    }
}

// The k bounces next to the source, from `prev` on, before the others of `order` bounces, which t has.
pub fn back(
    planes: &PlaneTable,
    fade: f32,
    seq: [u32; 8],
    images: [Vec3; 9],
    order: usize,
    k: usize,
    prev: Vec3,
    t: Trail,
) -> Result<Trail, Broken>
    requires planes_lent { TableLent planes.now }
    requires k_le_order { (k ≤ order) × (order ≤ max_order) }
    requires by_index { (j : ℕ) → j < order → get_or seq j 0 < planes.now.count }
    requires going { Going t }
    ensures by_index_2 { (tri : ℕ → Triangle) →
        TableReads tri planes.now →
        trail_of result order ≡ back_of tri fade (plane_on
        (planes_of_table planes.now) seq) (λ j.
        get_or images j no_point) k prev t.weight (slice k order t.points) (slice k order t.tris) }
    ensures going_2 { IfOk result Going }
{
    if k == 0 {
        return Ok(t);
    }
    let d = k - 1;
    let p = seq[d] as usize;
    let target = images[k];
    match bounce_on(planes, fade, p, prev, target) {
        Ok((i, w, q)) => back(planes, fade, seq, images, order, d, q, put(t, d, i, w, q)),
        Err(by) => Err(Broken { by, trail: t }),
    }
}

// ---- the first bounce that fails

// The bounce on plane p as in `bounce_on`, but its edges are not weighed. The row is read anew once the plane is crossed: the crossing takes four
// of its seventeen values.
fn turn_on(planes: &PlaneTable, p: usize, prev: Vec3, target: Vec3) -> Result<Vec3, Lost>
    requires planes_lent { TableLent planes.now }
    requires p_lt_count { p < planes.now.count }
    ensures { (tri : ℕ → Triangle) (fade : Float) →
        TableReads tri planes.now →
        result ≡ turn_of (bounce_of tri fade
        (nth_plane (planes_of_table planes.now) p)
        prev target) }
{
    let side = mirror::plane_at(planes.floats, planes.words, p);
    let Some(b) = mirror::crossing(side, prev, target) else {
        return Err(Lost::NotCrossed);
    };
    let plane = mirror::plane_at(planes.floats, planes.words, p);
    let Some((_, q)) = mirror::surface(planes.triangles, planes.n, plane, planes.members, b) else {
        return Err(Lost::OffSurface);
    };
    Ok(q)
}

// Whether all bounces on the first `order` planes are made, whose images stand in `images`. Nothing is kept of them: of the sequences that a search
// visits nearly all fail here, most at the first or second bounce.
pub fn fate_back(
    planes: &PlaneTable,
    seq: &[u32],
    images: &[f32],
    order: usize,
    listener: Vec3,
) -> Result<(), Lost>
    requires planes_lent { TableLent planes.now }
    requires order_in_bounds { (order ≤ length seq.now) × (point_floats * order + point_floats ≤ length images.now) }
    requires by_index { (j : ℕ) → j < order → get_or seq.now j 0 < planes.now.count }
    ensures { (tri : ℕ → Triangle) (fade : Float) →
        TableReads tri planes.now →
        result ≡ fate_of (back_of tri fade (plane_on
        (planes_of_table planes.now)
        seq.now) (point_in images.now) order listener one32 [] []) }
{
    let mut prev = listener;
    for k in (0..order).rev() {
        let target = mirror::vec_in(images, POINT_FLOATS * (k + 1));
        let p = seq[k] as usize;
        prev = turn_on(planes, p, prev, target)?;
    }
    Ok(())
}
