// Settings and scene parts as a caller lends them, and the refusals 1 to 5. A scene is meshes of three words (vertices, indices, handle),
// and behind them, mesh after mesh, 16 floats of transform, three floats a vertex and the indices; a material row is 16 floats.
#![tactic(auto)]

ghost use Rattle.std.specs.Prelude.{◌≡◌, ◌+◌, ◌≤◌, ◌<◌, min, length};
ghost use Rattle.scene.specs.Limits.{most_triples, between_of, above_zero_of, counts_of, rates_of, merges_of, model_number_of, model_numbers_of};
ghost use Rattle.scene.specs.Limits.{probe_settings_of, air_number_of, low_air_of, high_air_of, later_settings_of, settings_of};
ghost use Rattle.scene.specs.Speed.{speed_of};
ghost use Rattle.scene.specs.Scene.{scene, headers, triple_sum};
ghost use Rattle.scene.specs.Areas.{short_of};
ghost use Rattle.scene.specs.Refusals.{meshes_are_whole, transforms_are_right, positions_are_right, indices_are_right, materials_are_right, lengths_right_of, has_unknown_handle, check_of, checked};

use air::Air;
use bands::DistanceModel;
use refusals::Refusal;

// The settings of a query, by the Rust's names. `plane_merge_angle_deg` is its cosine, and whether it is above 0. `crossing_limit` and `probe_radius` are
// the Rust's constants `OCCLUSION_MAX_CROSSINGS` and `REFLECTION_VISIBILITY_RADIUS`; `air` is what the air takes in each band.
#[derive(Clone, Copy)]
pub struct Settings {
    pub max_reflection_order: u32,
    pub max_reflections: u32,
    pub max_reflection_planes: u32,
    pub reflection_edge_fade: f32,
    pub max_reflection_distance: f32,
    pub temperature_celsius: f32,
    pub sample_rate: f32,
    pub plane_merge_cos: f32,
    pub plane_merge: bool,
    pub plane_merge_offset: f32,
    pub plane_buried_distance: f32,
    pub distance_model: DistanceModel,
    pub crossing_limit: u32,
    pub probe_radius: f32,
    pub air: Air,
}

const MOST_PLANES: u32 = sequences::MAX_PLANES as u32;

const MOST_CANDIDATES: u32 = sequences::MAX_IMAGE_NODES as u32;

// Millionths of a decibel per metre.
const MOST_COEFFICIENT: u32 = 1_000_000;

const LEAST_TEMPERATURE: f32 = -20.0;

const LEAST_CROSSINGS: u32 = 1;

pub const MOST_CROSSINGS: u32 = 32;

// The Rust's crossing limit and probe radius.
pub const OCCLUSION_MAX_CROSSINGS: u32 = 8;

pub const REFLECTION_VISIBILITY_RADIUS: f32 = 0.06;

pub const MOST_TRIPLES: usize = 4096;

const TOO_MANY_TRIPLES: usize = MOST_TRIPLES + 1;

// Metres a second and kelvins at 20 degrees, and kelvins at 0 degrees.
const REFERENCE_SPEED: f32 = 343.2;

const REFERENCE_KELVIN: f32 = 293.15;

const ZERO_CELSIUS: f32 = 273.15;

// How many areas are lent, the output the last.
pub const AREAS: usize = 20;

// The least length of each area: so much a triple,
pub const TRIPLES: [usize; AREAS] = [
    columns::COLUMNS, // triangles
    1, // handles
    22, // tree
    8, // nodes
    1, // leaf_order
    3, // keys
    3, // low_keys
    24, // words
    24, // scratch
    3, // index
    3, // numbers
    24, // adjacency
    3, // queue
    3, // offsets
    12, // floats
    1, // plane_triangles
    12, // plane_floats
    5, // plane_words
    18, // plane_edges
    0, // out
];

// so much a candidate,
pub const CANDIDATES: [usize; AREAS] = [
    0, // triangles
    0, // handles
    0, // tree
    0, // nodes
    0, // leaf_order
    1, // keys
    0, // low_keys
    1, // words
    1, // scratch
    0, // index
    ranking::CANDIDATE_WORDS, // numbers
    0, // adjacency
    1, // queue
    0, // offsets
    ranking::CANDIDATE_FLOATS, // floats
    0, // plane_triangles
    0, // plane_floats
    0, // plane_words
    0, // plane_edges
    0, // out
];

// and so much more.
pub const MORE: [usize; AREAS] = [
    0, // triangles
    0, // handles
    0, // tree
    0, // nodes
    0, // leaf_order
    0, // keys
    0, // low_keys
    0, // words
    0, // scratch
    0, // index
    0, // numbers
    0, // adjacency
    0, // queue
    1, // offsets
    0, // floats
    1, // plane_triangles
    0, // plane_floats
    0, // plane_words
    0, // plane_edges
    packet::OUT_BYTES, // out
];

// ---- the speed of sound

// Metres a second at a temperature, by ISO 9613-1.
pub fn speed_of_sound(temperature_celsius: f32) -> f32
    ensures { result ≡ speed_of temperature_celsius }
{
    REFERENCE_SPEED * float::sqrt((temperature_celsius + ZERO_CELSIUS) / REFERENCE_KELVIN)
}

// ---- 1, the settings

fn between(x: f32, low: f32, high: f32) -> bool
    ensures { result ≡ between_of x low high }
{
    low <= x && x <= high
}

fn above_zero(x: f32, high: f32) -> bool
    ensures { result ≡ above_zero_of x high }
{
    0.0 < x && x <= high
}

fn counts(planes: u32, c: u32) -> bool
    ensures { result ≡ counts_of planes c }
{
    if planes > MOST_PLANES {
        return false;
    }
    if c > MOST_CANDIDATES {
        return false;
    }
    true
}

fn rates(distance: f32, temperature: f32, rate: f32) -> bool
    ensures { result ≡ rates_of distance temperature rate }
{
    if above_zero(distance, 1000.0) {
        if between(temperature, LEAST_TEMPERATURE, 50.0) {
            return between(rate, 8000.0, 192000.0);
        }
    }
    false
}

fn merges(cosine: f32, fade: f32, offset: f32, buried: f32) -> bool
    ensures { result ≡ merges_of cosine fade offset buried }
{
    if between(cosine, -1.0, 1.0) {
        if float::is_finite(fade) {
            if float::is_finite(offset) {
                return float::is_finite(buried);
            }
        }
    }
    false
}

// A number of the distance model.
fn model_number(x: f32) -> bool
    ensures { result ≡ model_number_of x }
{
    between(x, 0.0, 1000000.0)
}

fn model_numbers(m: DistanceModel) -> bool
    ensures { result ≡ model_numbers_of m }
{
    if model_number(m.reference_distance) {
        if model_number(m.rolloff_factor) {
            if model_number(m.min_distance) {
                return model_number(m.max_distance);
            }
        }
    }
    false
}

// The crossing limit and the probe radius.
fn probe_settings(limit: u32, radius: f32) -> bool
    ensures { result ≡ probe_settings_of limit radius }
{
    if limit < LEAST_CROSSINGS {
        return false;
    }
    if limit > MOST_CROSSINGS {
        return false;
    }
    between(radius, 0.0, 1.0)
}

fn air_number(x: u32) -> bool
    ensures { result ≡ air_number_of x }
{
    if x > MOST_COEFFICIENT {
        return false;
    }
    true
}

// The first four of the air's coefficients, and the others.
fn low_air(a: Air) -> bool
    ensures { result ≡ low_air_of a }
{
    if air_number(a.a0) {
        if air_number(a.a1) {
            if air_number(a.a2) {
                return air_number(a.a3);
            }
        }
    }
    false
}

fn high_air(a: Air) -> bool
    ensures { result ≡ high_air_of a }
{
    if air_number(a.a4) {
        if air_number(a.a5) {
            if air_number(a.a6) {
                return air_number(a.a7);
            }
        }
    }
    false
}

// The probes and the air.
fn later_settings(s: Settings) -> bool
    ensures { result ≡ later_settings_of s }
{
    if probe_settings(s.crossing_limit, s.probe_radius) {
        if low_air(s.air) {
            return high_air(s.air);
        }
    }
    false
}

fn within_limits(s: Settings, c: u32) -> bool
    ensures { result ≡ settings_of s c }
{
    if counts(s.max_reflection_planes, c) {
        if rates(
            s.max_reflection_distance,
            s.temperature_celsius,
            s.sample_rate,
        ) {
            if merges(
                s.plane_merge_cos,
                s.reflection_edge_fade,
                s.plane_merge_offset,
                s.plane_buried_distance,
            ) {
                if model_numbers(s.distance_model) {
                    return later_settings(s);
                }
            }
        }
    }
    false
}

// ---- 2 to 4, the scene

fn meshes_whole(meshes: &[u32]) -> bool
    ensures { result ≡ meshes_are_whole meshes.now }
{
    if meshes.len() % 3 == 0 {
        return true;
    }
    false
}

fn transforms_right(meshes: &[u32], n: usize) -> bool
    ensures { result ≡ transforms_are_right meshes.now n }
{
    if n % 16 == 0 {
        if n / 16 == meshes.len() / 3 {
            return true;
        }
    }
    false
}

// Takes each mesh's positions from what is left of n.
fn positions_right(meshes: &[u32], n: usize) -> bool
    ensures { result ≡ positions_are_right meshes.now n }
{
    let mut left = n;
    for i in 0..meshes.len() / 3 {
        let v = meshes[3 * i] as usize;
        if left < 3 * v {
            return false;
        }
        left -= 3 * v;
    }
    if left == 0 {
        return true;
    }
    false
}

// Takes each mesh's indices from what is left of n.
fn indices_right(meshes: &[u32], n: usize) -> bool
    ensures { result ≡ indices_are_right meshes.now n }
{
    let mut left = n;
    for i in 0..meshes.len() / 3 {
        let k = meshes[3 * i + 1] as usize;
        if left < k {
            return false;
        }
        left -= k;
    }
    if left == 0 {
        return true;
    }
    false
}

fn materials_right(rows: u32, n: usize) -> bool
    ensures { result ≡ materials_are_right rows n }
{
    if n == 16 * rows as usize {
        return true;
    }
    false
}

fn unknown_handle(meshes: &[u32], rows: u32) -> bool
    ensures { result ≡ has_unknown_handle rows (headers meshes.now) }
{
    for i in 0..meshes.len() / 3 {
        let h = meshes[3 * i + 2];
        if h >= rows {
            return true;
        }
    }
    false
}

// The whole triples of all meshes, or one more than the limit where there are more.
fn whole_triples(meshes: &[u32]) -> usize
    ensures { result ≡ min (most_triples + 1) (triple_sum (headers meshes.now)) }
{
    let mut t = 0;
    for i in 0..meshes.len() / 3 {
        let k = meshes[3 * i + 1] as usize / 3;
        if k > MOST_TRIPLES - t {
            return TOO_MANY_TRIPLES;
        }
        t += k;
    }
    t
}

fn lengths_right(
    meshes: &[u32],
    transforms: usize,
    positions: usize,
    indices: usize,
    materials: usize,
    rows: u32,
) -> bool
    ensures { result ≡ lengths_right_of meshes.now transforms positions indices materials rows }
{
    if meshes_whole(meshes) {
        if transforms_right(meshes, transforms) {
            if positions_right(meshes, positions) {
                if indices_right(meshes, indices) {
                    return materials_right(rows, materials);
                }
            }
        }
    }
    false
}

// ---- 5, the areas

// Whether an area is too short for t triples and c candidates. `lens` are the lengths of the areas, in the order of docs/AREAS.md.
fn areas_short(t: usize, c: u32, lens: [usize; AREAS]) -> bool
    requires { t ≤ most_triples }
    ensures { result ≡ short_of t c lens }
{
    let room = c as usize;
    for i in 0..AREAS {
        if lens[i] < TRIPLES[i] * t + CANDIDATES[i] * room + MORE[i] {
            return true;
        }
    }
    false
}

// The lowest of the refusals 1 to 5 that applies, or how many whole triples the scene has.
pub fn check(
    settings: Settings,
    c: u32,
    meshes: &[u32],
    transforms: &[f32],
    positions: &[f32],
    indices: &[u32],
    materials: &[f32],
    rows: u32,
    lens: [usize; AREAS],
) -> Result<usize, Refusal>
    ensures { checked result ≡ check_of settings c
        (scene meshes.now transforms.now positions.now indices.now materials.now rows) lens }
{
    if !within_limits(settings, c) {
        return Err(Refusal::Settings);
    }
    if !lengths_right(
        meshes,
        transforms.len(),
        positions.len(),
        indices.len(),
        materials.len(),
        rows,
    ) {
        return Err(Refusal::Lengths);
    }
    if unknown_handle(meshes, rows) {
        return Err(Refusal::Material);
    }
    let t = whole_triples(meshes);
    if t > MOST_TRIPLES {
        return Err(Refusal::Triangles);
    }
    if areas_short(t, c, lens) {
        return Err(Refusal::Areas);
    }
    Ok(t)
}
