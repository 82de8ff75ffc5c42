// What is left of a sound along a segment: the product of what each surface on the way lets through, averaged over a bundle of nine probes.
// Each answer counts the traces made for it. A half segment counts `crossing_limit` crossings, and the probes are set `probe_radius` from the middle.
#![tactic(auto)]

ghost use Rattle.std.specs.Prelude.{◌≡◌, ℕ, ◌+◌, ◌*◌, ◌^◌, ◌<◌, ◌≤◌, length};
ghost use Rattle.vector.specs.Vector.{length3_of, normalize3_of};
ghost use Rattle.geometry.specs.declared.Triangle.{Triangle};
ghost use Rattle.tree_build.specs.Tree.{Tree};
ghost use Rattle.segments.specs.Materials.{material_floats, bands_of_floats, clamped_of, transmission_of_handle, coefficient_of, coefficients_of, reflection_of_handle};
ghost use Rattle.segments.specs.Segment.{transmission, segment_ray_of, walk_of};
ghost use Rattle.segments.specs.Segment.{segment_transmission_of, offset_of, mid_of, add_part_of, probe_of, segment_soft_transmission_of};
ghost use Rattle.segments.specs.Areas.{trace_in, BvhReads, BvhTraceable};

use bands::Band8;
use tree_trace::FlatBvh;
use vector::{Angle, Basis, Ray, Vec3};

const OCCLUSION_EPS: f32 = 1e-3;

// One probe in the middle and eight around it.
const REFLECTION_VISIBILITY_RAYS: f32 = 9.0;

const PROBES: usize = 8;

const MATERIAL_FLOATS: usize = 16;

// A gain, and the traces made for it.
#[derive(Clone, Copy)]
pub struct Transmission {
    pub gain: Band8,
    pub rays: u32,
}

fn counted(gain: Band8, rays: u32) -> Transmission
    ensures { result ≡ transmission gain rays }
{
    Transmission { gain, rays }
}

// ---- materials

fn bands_in(l: &[f32], at: usize) -> Band8
    requires { at + 8 ≤ length l.now }
    ensures { result ≡ bands_of_floats l.now at }
{
    Band8 {
        b0: l[at],
        b1: l[at + 1],
        b2: l[at + 2],
        b3: l[at + 3],
        b4: l[at + 4],
        b5: l[at + 5],
        b6: l[at + 6],
        b7: l[at + 7],
    }
}

fn clamped(a: Band8) -> Band8
    ensures { result ≡ clamped_of a }
{
    Band8 {
        b0: float::clamp(a.b0, 0.0, 1.0),
        b1: float::clamp(a.b1, 0.0, 1.0),
        b2: float::clamp(a.b2, 0.0, 1.0),
        b3: float::clamp(a.b3, 0.0, 1.0),
        b4: float::clamp(a.b4, 0.0, 1.0),
        b5: float::clamp(a.b5, 0.0, 1.0),
        b6: float::clamp(a.b6, 0.0, 1.0),
        b7: float::clamp(a.b7, 0.0, 1.0),
    }
}

// What a surface lets through.
fn transmission_of(materials: &[f32], handle: u32) -> Band8
    requires { material_floats * handle + material_floats ≤ length materials.now }
    ensures { result ≡ transmission_of_handle materials.now handle }
{
    let h = handle as usize;
    clamped(bands_in(materials, MATERIAL_FLOATS * h + 8))
}

fn coefficient(a: f32) -> f32
    ensures { result ≡ coefficient_of a }
{
    if float::is_finite(a) {
        return float::sqrt(1.0 - float::clamp(a, 0.0, 1.0));
    }
    float::sqrt(1.0 - 1.0)
}

fn coefficients(a: Band8) -> Band8
    ensures { result ≡ coefficients_of a }
{
    Band8 {
        b0: coefficient(a.b0),
        b1: coefficient(a.b1),
        b2: coefficient(a.b2),
        b3: coefficient(a.b3),
        b4: coefficient(a.b4),
        b5: coefficient(a.b5),
        b6: coefficient(a.b6),
        b7: coefficient(a.b7),
    }
}

// What a surface reflects.
pub fn reflection_of(materials: &[f32], handle: u32) -> Band8
    requires { material_floats * handle + material_floats ≤ length materials.now }
    ensures { result ≡ reflection_of_handle materials.now handle }
{
    let h = handle as usize;
    coefficients(bands_in(materials, MATERIAL_FLOATS * h))
}

// ---- a half segment

fn segment_ray(origin: Vec3, dir: Vec3, remaining: f32) -> Ray
    ensures { result ≡ segment_ray_of origin dir remaining }
{
    Ray {
        origin,
        direction: dir,
        min_distance: OCCLUSION_EPS,
        max_distance: remaining - OCCLUSION_EPS,
    }
}

// Goes on from `origin` with `left` crossings left; one more gives zeros.
fn walk(
    bvh: &FlatBvh,
    materials: &[f32],
    dir: Vec3,
    left: u32,
    origin: Vec3,
    remaining: f32,
    product: Band8,
    rays: u32,
) -> Transmission
    requires traceable { BvhTraceable bvh.now materials.now }
    requires left_bound { rays + left + 1 < 2 ^ 32 }
    ensures { (tri : ℕ → Triangle) (t : Tree) →
        BvhReads bvh.now tri t →
        result ≡ walk_of (trace_in tri t) (transmission_of_handle materials.now) dir left origin remaining product rays }
{
    if remaining > 2.0 * OCCLUSION_EPS {
        let Some(hit) = tree_trace::intersect(bvh, segment_ray(origin, dir, remaining)) else {
            return counted(product, rays + 1);
        };
        if left == 0 {
            return counted(bands::zeros(), rays + 1);
        }
        let share = transmission_of(materials, hit.material_handle);
        return walk(
            bvh,
            materials,
            dir,
            left - 1,
            hit.point,
            remaining - hit.distance,
            bands::mul(product, share),
            rays + 1,
        );
    }
    counted(product, rays)
}

// The direction of v, with its length at hand: `normalize3` without its root.
fn direction(v: Vec3, len: f32) -> Vec3
    ensures { len ≡ length3_of v → result ≡ normalize3_of v }
{
    if len > 1e-12 {
        return Vec3 {
            x: v.x / len,
            y: v.y / len,
            z: v.z / len,
        };
    }
    Vec3 {
        x: 0.0,
        y: 0.0,
        z: 1.0,
    }
}

// A half segment. The Rust takes two roots, for its length and for its direction; they are one (`distance_turned` of proofs/Turned.antt).
fn segment_transmission(
    bvh: &FlatBvh,
    materials: &[f32],
    crossing_limit: u32,
    from: Vec3,
    to: Vec3,
) -> Transmission
    requires traceable { BvhTraceable bvh.now materials.now }
    requires crossing_limit_bound { crossing_limit + 1 < 2 ^ 32 }
    ensures by_index { (tri : ℕ → Triangle) (t : Tree) →
        BvhReads bvh.now tri t →
        result ≡ segment_transmission_of (trace_in tri t) (transmission_of_handle materials.now) crossing_limit from to }
    ensures rays_bound { result.rays ≤ crossing_limit + 1 }
{
    let v = vector::sub3(to, from);
    let total = vector::length3(v);
    let dir = direction(v, total);
    walk(
        bvh,
        materials,
        dir,
        crossing_limit,
        from,
        total,
        bands::splat(1.0),
        0,
    )
}

// ---- the bundle

fn offset(radius: f32, b: Basis, a: Angle) -> Vec3
    ensures { result ≡ offset_of radius b a }
{
    Vec3 {
        x: radius * (b.u.x * a.cos + b.w.x * a.sin),
        y: radius * (b.u.y * a.cos + b.w.y * a.sin),
        z: radius * (b.u.z * a.cos + b.w.z * a.sin),
    }
}

fn mid(a: Vec3, b: Vec3, o: Vec3) -> Vec3
    ensures { result ≡ mid_of a b o }
{
    Vec3 {
        x: 0.5 * (a.x + b.x) + o.x,
        y: 0.5 * (a.y + b.y) + o.y,
        z: 0.5 * (a.z + b.z) + o.z,
    }
}

fn add_part(s: Band8, g: Band8) -> Band8
    ensures { result ≡ add_part_of s g }
{
    Band8 {
        b0: s.b0 + g.b0 / REFLECTION_VISIBILITY_RAYS,
        b1: s.b1 + g.b1 / REFLECTION_VISIBILITY_RAYS,
        b2: s.b2 + g.b2 / REFLECTION_VISIBILITY_RAYS,
        b3: s.b3 + g.b3 / REFLECTION_VISIBILITY_RAYS,
        b4: s.b4 + g.b4 / REFLECTION_VISIBILITY_RAYS,
        b5: s.b5 + g.b5 / REFLECTION_VISIBILITY_RAYS,
        b6: s.b6 + g.b6 / REFLECTION_VISIBILITY_RAYS,
        b7: s.b7 + g.b7 / REFLECTION_VISIBILITY_RAYS,
    }
}

// One probe, by way of `via`.
fn probe(
    bvh: &FlatBvh,
    materials: &[f32],
    crossing_limit: u32,
    from: Vec3,
    via: Vec3,
    to: Vec3,
    sum: Transmission,
) -> Transmission
    requires traceable { BvhTraceable bvh.now materials.now }
    requires crossing_limit_bound { sum.rays + 2 * (crossing_limit + 1) < 2 ^ 32 }
    ensures by_index { (tri : ℕ → Triangle) (t : Tree) →
        BvhReads bvh.now tri t →
        result ≡ probe_of (trace_in tri t) (transmission_of_handle materials.now) crossing_limit from via to sum }
    ensures rays_bound { result.rays ≤ sum.rays + 2 * (crossing_limit + 1) }
{
    let a = segment_transmission(bvh, materials, crossing_limit, from, via);
    let b = segment_transmission(bvh, materials, crossing_limit, via, to);
    Transmission {
        gain: add_part(sum.gain, bands::mul(a.gain, b.gain)),
        rays: sum.rays + a.rays + b.rays,
    }
}

// The bundle along a segment: nine probes of two halves each.
pub fn segment_soft_transmission(
    bvh: &FlatBvh,
    materials: &[f32],
    crossing_limit: u32,
    probe_radius: f32,
    from: Vec3,
    to: Vec3,
) -> Transmission
    requires traceable { BvhTraceable bvh.now materials.now }
    requires crossing_limit_bound { 18 * (crossing_limit + 1) < 2 ^ 32 }
    ensures by_index { (tri : ℕ → Triangle) (t : Tree) →
        BvhReads bvh.now tri t →
        result ≡ segment_soft_transmission_of (trace_in tri t) (transmission_of_handle materials.now) crossing_limit probe_radius from to }
    ensures rays_bound { result.rays ≤ 18 * (crossing_limit + 1) }
{
    let b = vector::probe_basis(vector::normalize3(vector::sub3(to, from)));
    let still = Vec3 {
        x: 0.0,
        y: 0.0,
        z: 0.0,
    };
    let none = counted(bands::zeros(), 0);
    let at = mid(from, to, still);
    let mut sum = probe(bvh, materials, crossing_limit, from, at, to, none);
    for k in 0..PROBES {
        let via = mid(from, to, offset(probe_radius, b, vector::probe_angle(k)));
        sum = probe(bvh, materials, crossing_limit, from, via, to, sum);
    }
    sum
}
