// A path by way of a sequence of planes: what lies in its way, what arrives by it, and which of the Rust's tests fails first
// (`validate_image_path`, `path_candidate`).
#![tactic(auto)]

ghost use Rattle.std.specs.Prelude.{◌≡◌, ℕ, ◌+◌, ◌*◌, ◌^◌, ◌<◌, ◌≤◌, length, get_or, take, IfOk};
ghost use Rattle.geometry.specs.declared.Triangle.{Triangle};
ghost use Rattle.tree_build.specs.Tree.{Tree};
ghost use Rattle.scene.specs.Limits.{most_crossings};
ghost use Rattle.mirror.specs.Plane.{no_point};
ghost use Rattle.segments.specs.Materials.{material_floats};
ghost use Rattle.segments.specs.Areas.{BvhReads, BvhTraceable};
ghost use Rattle.bounces.specs.Image.{image_of};
ghost use Rattle.bounces.specs.Areas.{max_order, trail_of, Going, planes_of_table};
ghost use Rattle.paths.specs.Visibility.{start_of, go_of, way_of};
ghost use Rattle.paths.specs.Gains.{usable_of, reflected_of, gains_of, rejected_of, candidate_of, arrived_of};
ghost use Rattle.paths.specs.Path.{verdict, lost_of, bounced_of, path_of};
ghost use Rattle.paths.specs.Areas.{soft_in, SearchLent, SearchReads};

use air::Air;
use bands::{Band8, DistanceModel};
use bounces::{Broken, Lost, PlaneTable, Trail};
use scene::Settings;
use tree_trace::FlatBvh;
use vector::Vec3;

const LEAST_ENERGY: f32 = 1e-14;

const LEAST_WEIGHT: f32 = 1e-3;

const LEAST_BLOCKER: f32 = 1e-6;

// What is left of a sound on the way gone so far, its length, where it has come to, and the traces made.
#[derive(Clone, Copy)]
pub struct Way {
    pub gain: Band8,
    pub total: f32,
    pub from: Vec3,
    pub rays: u32,
}

// The Rust's `PathCandidate`, but for its order.
#[derive(Clone, Copy)]
pub struct PathCandidate {
    pub energy: f32,
    pub delay: f32,
    pub direction: Vec3,
    pub gains: Band8,
}

// The first test that failed, in the Rust's order, or the candidate. One enum and no `Result`: the fates stand in the order of their numbers.
#[derive(Clone, Copy)]
pub enum Fate {
    TooFar,
    NotCrossed,
    OffSurface,
    TooLong,
    Faded,
    Blocked,
    Faint,
    Passed(PathCandidate),
}

impl From<Lost> for Fate {
    ghost from_gives = { λ lost fate. fate ≡ lost_of lost };

    fn from(lost: Lost) -> Fate {
        match lost {
            Lost::NotCrossed => Fate::NotCrossed,
            Lost::OffSurface => Fate::OffSurface,
        }
    }
}

#[derive(Clone, Copy)]
pub struct Verdict {
    pub fate: Fate,
    pub rays: u32,
}

// ---- the way

fn begin(listener: Vec3) -> Way
    ensures value { result ≡ start_of listener }
    ensures rays_value { result.rays ≡ 0 }
{
    Way {
        gain: bands::splat(1.0),
        total: 0.0,
        from: listener,
        rays: 0,
    }
}

// One segment more, to `to`.
fn go(
    bvh: &FlatBvh,
    materials: &[f32],
    crossing_limit: u32,
    probe_radius: f32,
    to: Vec3,
    w: Way,
) -> Way
    requires traceable { BvhTraceable bvh.now materials.now }
    requires crossing_limit_bound { w.rays + 18 * (crossing_limit + 1) < 2 ^ 32 }
    ensures by_index { (tri : ℕ → Triangle) (t : Tree) →
        BvhReads bvh.now tri t →
        result ≡ go_of (soft_in crossing_limit probe_radius tri t materials.now) to w }
    ensures rays_bound { result.rays ≤ w.rays + 18 * (crossing_limit + 1) }
{
    let g = segments::segment_soft_transmission(
        bvh,
        materials,
        crossing_limit,
        probe_radius,
        w.from,
        to,
    );
    Way {
        gain: bands::mul(w.gain, g.gain),
        total: w.total + vector::distance3(w.from, to),
        from: to,
        rays: w.rays + g.rays,
    }
}

// From the listener by way of the bounces, the last one first, to the source.
fn go_all(
    bvh: &FlatBvh,
    materials: &[f32],
    crossing_limit: u32,
    probe_radius: f32,
    points: [Vec3; 8],
    order: usize,
    source: Vec3,
    listener: Vec3,
) -> Way
    requires traceable { BvhTraceable bvh.now materials.now }
    requires order_le_max_order { (order ≤ max_order) × (length points ≡ max_order) }
    requires max_order_bound { 18 * (crossing_limit + 1) * (max_order + 1) < 2 ^ 32 }
    ensures by_index { (tri : ℕ → Triangle) (t : Tree) →
        BvhReads bvh.now tri t →
        result ≡ way_of (soft_in crossing_limit probe_radius tri t materials.now) listener source (take order points) }
    ensures rays_bound { result.rays ≤ 18 * (crossing_limit + 1) * (order + 1) }
{
    let mut w = begin(listener);
    for k in (0..order).rev() {
        let to = points[k];
        w = go(bvh, materials, crossing_limit, probe_radius, to, w);
    }
    go(bvh, materials, crossing_limit, probe_radius, source, w)
}

// ---- what arrives

fn usable(total: f32, far: f32) -> bool
    ensures { result ≡ usable_of total far }
{
    if float::is_finite(total) {
        if total > 0.0 {
            return !(total > far);
        }
    }
    false
}

// The product of what the triangles reflect.
fn reflected(handles: &[u32], materials: &[f32], tris: [usize; 8], order: usize) -> Band8
    requires order_le_max_order { (order ≤ max_order) × (length tris ≡ max_order) }
    requires by_index { (i : ℕ) → material_floats * get_or handles.now i 0 + material_floats ≤ length materials.now }
    ensures { (tri : ℕ → Triangle) → ((i : ℕ) → (tri i).material_handle ≡ get_or handles.now i 0) →
        result ≡ reflected_of materials.now tri (take order tris) }
{
    let mut product = bands::splat(1.0);
    for k in 0..order {
        let i = tris[k];
        product = bands::mul(
            product,
            segments::reflection_of(materials, tree_trace::handle_at(handles, i)),
        );
    }
    product
}

fn gains(model: DistanceModel, air: Air, reflection: Band8, total: f32, weight: f32) -> Band8
    ensures { result ≡ gains_of model air reflection total weight }
{
    let path = bands::mul(
        bands::splat(bands::gain(model, total)),
        air::air_gain(air, total),
    );
    bands::scale(bands::mul(reflection, path), weight)
}

fn rejected(weight: f32, blocker: Band8) -> Fate
    ensures { result ≡ rejected_of weight blocker }
{
    if weight < LEAST_WEIGHT {
        return Fate::Faded;
    }
    if bands::sum_of_squares(blocker) < LEAST_BLOCKER {
        return Fate::Blocked;
    }
    Fate::Faint
}

fn candidate(s: Settings, last: Vec3, listener: Vec3, total: f32, gains: Band8) -> PathCandidate
    ensures { result ≡ candidate_of s last listener total gains }
{
    let speed = scene::speed_of_sound(s.temperature_celsius);
    PathCandidate {
        energy: bands::sum_of_squares(gains),
        delay: total * s.sample_rate / speed,
        direction: vector::normalize3(vector::sub3(last, listener)),
        gains,
    }
}

// What arrives, before and after what is in the way is taken off.
fn arrived(
    s: Settings,
    last: Vec3,
    listener: Vec3,
    total: f32,
    weight: f32,
    gains: Band8,
    blocker: Band8,
) -> Fate
    ensures { result ≡ arrived_of s last listener total weight gains blocker }
{
    if bands::sum_of_squares(gains) > LEAST_ENERGY {
        let left = bands::mul(gains, blocker);
        if bands::sum_of_squares(left) > LEAST_ENERGY {
            return Fate::Passed(candidate(s, last, listener, total, left));
        }
        return rejected(weight, blocker);
    }
    Fate::Faint
}

// ---- the path

fn counted(fate: Fate, rays: u32) -> Verdict
    ensures { result ≡ verdict fate rays }
{
    Verdict { fate, rays }
}

// A trail of `order` bounces, if all are made: what is in the way, and what arrives.
fn judge(
    bvh: &FlatBvh,
    materials: &[f32],
    s: Settings,
    trail: Result<Trail, Broken>,
    order: usize,
    source: Vec3,
    listener: Vec3,
) -> Verdict
    requires traceable { BvhTraceable bvh.now materials.now }
    requires order_nonzero { (0 < order) × (order ≤ max_order) × (s.crossing_limit ≤ most_crossings) }
    requires going { IfOk trail Going }
    ensures by_index { (tri : ℕ → Triangle) (t : Tree) →
        BvhReads bvh.now tri t →
        result ≡ bounced_of (soft_in s.crossing_limit s.probe_radius tri t materials.now) s materials.now tri order source listener (trail_of trail order) }
    ensures rays_bound { result.rays ≤ 18 * (s.crossing_limit + 1) * (order + 1) }
{
    let made = match trail {
        Ok(made) => made,
        Err(broken) => return counted(Fate::from(broken.by), 0),
    };
    let points = made.points;
    let way = go_all(
        bvh,
        materials,
        s.crossing_limit,
        s.probe_radius,
        points,
        order,
        source,
        listener,
    );
    if usable(way.total, s.max_reflection_distance) {
        let last = points[order - 1];
        let g = gains(
            s.distance_model,
            s.air,
            reflected(bvh.handles, materials, made.tris, order),
            way.total,
            made.weight,
        );
        return counted(
            arrived(s, last, listener, way.total, made.weight, g, way.gain),
            way.rays,
        );
    }
    counted(Fate::TooLong, way.rays)
}

// The path by way of the first `order` planes of `seq`, whose images stand in `images`.
pub fn validate_image_path(
    bvh: &FlatBvh,
    materials: &[f32],
    planes: &PlaneTable,
    s: Settings,
    seq: [u32; 8],
    images: [Vec3; 9],
    order: usize,
    source: Vec3,
    listener: Vec3,
) -> Verdict
    requires scene_lent { SearchLent bvh.now materials.now planes.now }
    requires order_nonzero { (0 < order) × (order ≤ max_order) × (length seq ≡ max_order) × (s.crossing_limit ≤ most_crossings) }
    requires by_index { (j : ℕ) → j < order → get_or seq j 0 < planes.now.count }
    requires by_index_2 { (j : ℕ) → j ≤ order → get_or images j no_point ≡
        image_of (planes_of_table planes.now) source (take j seq) }
    ensures by_index_3 { (tri : ℕ → Triangle) (t : Tree) →
        SearchReads bvh.now planes.now tri t → result ≡
        path_of s (planes_of_table planes.now) tri
        t materials.now source listener (take order seq) }
    ensures rays_bound { result.rays ≤ 18 * (s.crossing_limit + 1) * (order + 1) }
{
    let image = images[order];
    if vector::distance3(listener, image) <= s.max_reflection_distance {
        let trail = bounces::back(
            planes,
            s.reflection_edge_fade,
            seq,
            images,
            order,
            order,
            listener,
            bounces::no_bounces(),
        );
        return judge(bvh, materials, s, trail, order, source, listener);
    }
    counted(Fate::TooFar, 0)
}
