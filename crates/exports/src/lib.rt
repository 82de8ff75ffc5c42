// What a station calls from C or Rust: the query, its forecast, its speed of sound, the packet, the planes of a scene, the walls of an image and the lengths
// of the areas, with numbers, slices and arrays alone. A `&[T]` passes as a pointer and then a length, a `&[T; n]` as a pointer to n elements. No function asks anything of its
// caller: what is wrong is refused. include/bivelondry.h declares them, bindings/rust wraps them.
#![tactic(auto)]

ghost use Rattle.std.specs.Prelude.{◌≡◌, List, [], ◌∷◌, ◌++◌, ℕ, ◌*◌, ◌≤◌, ◌<◌, Float, length, drop};
ghost use Rattle.refusals.specs.Numbers.{number_told};
ghost use Rattle.packet.specs.Reader.{read_answer, read_area, read_counts};
ghost use Rattle.packet.specs.Writer.{write_answer, write_out, write_length};
ghost use Rattle.numbering.specs.Walls.{sequence_answer, planes_told, length_told};
ghost use Rattle.scene.specs.Scene.{scene};
ghost use Rattle.scene.specs.Limits.{most_triples};
ghost use Rattle.scene.specs.Speed.{speed_of};
ghost use Rattle.cost.specs.Cost.{cost_of};
ghost use Rattle.cost.specs.Forecast.{Forecast};
ghost use Rattle.arguments.specs.Point.{given_point};
ghost use Rattle.mirror.specs.Rows.{plane_float_count, plane_word_count, planes_in};
ghost use Rattle.search.specs.Outcome.{on_bytes};
ghost use Rattle.query.specs.Areas.{work};
ghost use Rattle.exports.specs.Lengths.{least_lengths_of, LengthsSet};
ghost use Rattle.exports.specs.Answers.{answered_from, counts_told, figures_told};
ghost use Rattle.exports.specs.Entry.{Entered};
ghost use Rattle.exports.specs.Planes.{PlanesEntered};

use answer::Answered;
use packet::Head;
use vector::Vec3;

// The last curve of a distance model that is known: 0 is Inverse, 1 Linear.
const LAST_CURVE: u32 = 1;

// ---- the packet

// Answers the refusal, or 0. `found` gets count, images and rays, zeros after a refusal.
#[unsafe(no_mangle)]
pub extern "C" fn biv_packet_read(bytes: &[u8], taps: &mut [u32], found: &mut [usize; 3]) -> u32
    ensures { let answer = read_answer bytes.now taps.old in
        (result ≡ number_told answer) ×
        (found.new ≡ read_counts answer) ×
        (taps.new ≡ read_area bytes.now taps.old) }
{
    match packet::read(bytes, taps) {
        Ok(head) => {
            *found = [head.count, head.images as usize, head.rays as usize];
            0
        }
        Err(refusal) => {
            *found = [0, 0, 0];
            refusal.number()
        }
    }
}

// Answers the refusal, or 0. `found` gets the packet's length, 0 after a refusal.
#[unsafe(no_mangle)]
pub extern "C" fn biv_packet_write(
    count: usize,
    images: u32,
    rays: u32,
    taps: &[u32],
    out: &mut [u8],
    found: &mut [usize; 1],
) -> u32
    ensures { let answer = write_answer count images rays taps.now out.old in
        (result ≡ number_told answer) ×
        (found.new ≡ write_length answer ∷ []) ×
        (out.new ≡ write_out count images rays taps.now out.old) }
{
    let head = Head {
        count,
        images,
        rays,
    };
    match packet::write(head, taps, out) {
        Ok(n) => {
            *found = [n];
            0
        }
        Err(refusal) => {
            *found = [0];
            refusal.number()
        }
    }
}

// ---- the walls

// `sequence_of`: from an image's number to its walls. Answers the refusal, or 0. `walls` gets the planes and zeros behind them, `found` how many planes
// they are; zeros after a refusal.
#[unsafe(no_mangle)]
pub extern "C" fn biv_walls(
    planes: u32,
    order: u32,
    on: &[u8],
    number: u32,
    walls: &mut [u8; sequences::MAX_IMAGE_ORDER],
    found: &mut [usize; 1],
) -> u32
    ensures { let answer = sequence_answer planes order on.now number in
        (result ≡ number_told answer) ×
        (walls.new ≡ planes_told answer) ×
        (found.new ≡ length_told answer ∷ []) }
{
    match numbering::sequence_of(planes, order, on, number) {
        Ok(walled) => {
            let met = walled.planes;
            *walls = met;
            *found = [walled.len];
            0
        }
        Err(refusal) => {
            *walls = [0; sequences::MAX_IMAGE_ORDER];
            *found = [0];
            refusal.number()
        }
    }
}

// ---- the areas

// The least length of each area, by the table that refusal 5 tests (docs/AREAS.md).
fn least_lengths(t: usize, room: usize) -> [usize; scene::AREAS]
    requires { (t ≤ most_triples) × (room < 4294967296) }
    ensures { result ≡ least_lengths_of t room }
{
    let mut lens = [0; scene::AREAS];
    for i in 0..scene::AREAS {
        lens[i] = scene::TRIPLES[i] * t + scene::CANDIDATES[i] * room + scene::MORE[i];
    }
    lens
}

// The least lengths of all areas for so many triples and candidates, in the order of docs/AREAS.md. False, and nothing is written, for more
// triples than a scene may have.
#[unsafe(no_mangle)]
pub extern "C" fn biv_area_lengths(triples: usize, c: u32, lens: &mut [usize; scene::AREAS]) -> bool
    ensures { LengthsSet triples c lens.old result lens.new }
{
    if triples > scene::MOST_TRIPLES {
        return false;
    }
    *lens = least_lengths(triples, c as usize);
    true
}

// ---- the speed of sound

// `scene::speed_of_sound`: the metres a second that a query works out from its temperature.
#[unsafe(no_mangle)]
pub extern "C" fn biv_speed_of_sound(temperature_celsius: f32) -> f32
    ensures { result ≡ speed_of temperature_celsius }
{
    scene::speed_of_sound(temperature_celsius)
}

// ---- the forecast

// `cost::query_cost`: what a query with this crossing limit will cost. Answers the refusal, or 0. `counts` gets the images of each order from 1 to 8,
// `found` the candidates, rays and words of work area, all zero after a refusal.
#[unsafe(no_mangle)]
pub extern "C" fn biv_query_cost(
    crossing_limit: u32,
    planes: u32,
    first: u32,
    order: u32,
    triples: u32,
    counts: &mut [u32; 8],
    found: &mut [u64; 3],
) -> u32
    ensures { let answer = cost_of crossing_limit planes first order triples in
        (Forecast crossing_limit planes first order triples answer) ×
        (result ≡ number_told answer) ×
        (counts.new ≡ counts_told answer) ×
        (found.new ≡ figures_told answer) }
{
    match cost::query_cost(crossing_limit, planes, first, order, triples) {
        Ok(cost) => {
            let images = cost.counts;
            *counts = images;
            *found = [cost.candidates as u64, cost.rays, cost.words];
            0
        }
        Err(refusal) => {
            *counts = [0; 8];
            *found = [0; 3];
            refusal.number()
        }
    }
}

// ---- the whole call

// The numbers of an answer: the refusal is handed on, `found` gets count, images, rays and bytes.
fn put_answer(found: &mut [usize; 4], a: Answered) -> u32
    ensures { answered_from result found.new ≡ a }
{
    *found = [a.count, a.images as usize, a.rays as usize, a.bytes];
    a.refusal
}

// `trace_early_reflections`: from settings, scene parts and positions to the packet. Answers the refusal, or 0. `found` gets count, images, rays
// and the packet's length, zeros after a refusal. The work areas come first, in the order of docs/AREAS.md, then the output area. `counts` and
// `setting_floats` are as `arguments::settings_from` has them; a curve other than 0 and 1 is refused with 1.
#[unsafe(no_mangle)]
pub extern "C" fn biv_trace_early_reflections(
    triangles: &mut [f32],
    handles: &mut [u32],
    tree: &mut [f32],
    nodes: &mut [u32],
    leaf_order: &mut [u32],
    keys: &mut [u64],
    low_keys: &mut [u64],
    words: &mut [u64],
    scratch: &mut [u64],
    index: &mut [u32],
    numbers: &mut [u32],
    adjacency: &mut [u32],
    queue: &mut [u32],
    offsets: &mut [u32],
    floats: &mut [f32],
    plane_triangles: &mut [u32],
    plane_floats: &mut [f32],
    plane_words: &mut [u32],
    plane_edges: &mut [f32],
    out: &mut [u8],
    found: &mut [usize; 4],
    counts: &[u32; 14],
    setting_floats: &[f32; 12],
    c: u32,
    meshes: &[u32],
    transforms: &[f32],
    positions: &[f32],
    indices: &[u32],
    materials: &[f32],
    rows_count: u32,
    source: &[f32; 3],
    listener: &[f32; 3],
    separated: bool,
) -> u32
    ensures { let before = work triangles.old handles.old tree.old nodes.old leaf_order.old keys.old
        low_keys.old words.old scratch.old index.old numbers.old adjacency.old
        queue.old offsets.old floats.old plane_triangles.old plane_floats.old plane_words.old
        plane_edges.old in
        let after = work triangles.new handles.new tree.new nodes.new leaf_order.new keys.new
        low_keys.new words.new scratch.new index.new numbers.new adjacency.new
        queue.new offsets.new floats.new plane_triangles.new plane_floats.new plane_words.new
        plane_edges.new in
        let parts = scene meshes.now transforms.now positions.now indices.now materials.now rows_count in
        Entered counts.now setting_floats.now c parts (given_point source.now) (given_point listener.now) separated
        result found.new out.old out.new before after }
{
    if counts[4] > LAST_CURVE {
        *found = [0, 0, 0, 0];
        return 1;
    }
    let s = arguments::settings_from(counts, setting_floats);
    let from = arguments::point_from(source);
    let to = arguments::point_from(listener);
    let a = query::trace_early_reflections(
        triangles,
        handles,
        tree,
        nodes,
        leaf_order,
        keys,
        low_keys,
        words,
        scratch,
        index,
        numbers,
        adjacency,
        queue,
        offsets,
        floats,
        plane_triangles,
        plane_floats,
        plane_words,
        plane_edges,
        out,
        s,
        c,
        meshes,
        transforms,
        positions,
        indices,
        materials,
        rows_count,
        from,
        to,
        separated,
    );
    put_answer(found, a)
}

// ---- the planes of a scene

// A byte for each plane at the front of `on`: 1 where the source lies on it.
fn mark_front(on: &mut [u8], plane_floats: &[f32], plane_words: &[u32], count: usize, source: Vec3)
    requires { (count ≤ length on.old) × (plane_float_count * count ≤ length plane_floats.now) × (plane_word_count * count ≤ length plane_words.now) }
    ensures { (members : List ℕ) (edges : List Float) → on.new ≡
        on_bytes (planes_in plane_floats.now plane_words.now members edges count) source ++ drop count on.old }
{
    walls::mark_planes(plane_floats, plane_words, source, &mut on[..count]);
}

// The planes of a scene as a query has them, and on which of them the source lies. Answers the refusal (1 to 6), or 0. `found` gets how many planes
// there are, 0 after a refusal; they stand in plane_floats and plane_words, and `on` has a byte for each, 1 where the source lies on it. The areas,
// `counts` and `setting_floats` are those of `biv_trace_early_reflections`.
#[unsafe(no_mangle)]
pub extern "C" fn biv_planes(
    triangles: &mut [f32],
    handles: &mut [u32],
    tree: &mut [f32],
    nodes: &mut [u32],
    leaf_order: &mut [u32],
    keys: &mut [u64],
    low_keys: &mut [u64],
    words: &mut [u64],
    scratch: &mut [u64],
    index: &mut [u32],
    numbers: &mut [u32],
    adjacency: &mut [u32],
    queue: &mut [u32],
    offsets: &mut [u32],
    floats: &mut [f32],
    plane_triangles: &mut [u32],
    plane_floats: &mut [f32],
    plane_words: &mut [u32],
    plane_edges: &mut [f32],
    on: &mut [u8; sequences::MAX_PLANES],
    found: &mut [usize; 1],
    counts: &[u32; 14],
    setting_floats: &[f32; 12],
    c: u32,
    meshes: &[u32],
    transforms: &[f32],
    positions: &[f32],
    indices: &[u32],
    materials: &[f32],
    rows_count: u32,
    source: &[f32; 3],
) -> u32
    ensures { let before = work triangles.old handles.old tree.old nodes.old leaf_order.old keys.old
        low_keys.old words.old scratch.old index.old numbers.old adjacency.old
        queue.old offsets.old floats.old plane_triangles.old plane_floats.old plane_words.old
        plane_edges.old in
        let after = work triangles.new handles.new tree.new nodes.new leaf_order.new keys.new
        low_keys.new words.new scratch.new index.new numbers.new adjacency.new
        queue.new offsets.new floats.new plane_triangles.new plane_floats.new plane_words.new
        plane_edges.new in
        let parts = scene meshes.now transforms.now positions.now indices.now materials.now rows_count in
        PlanesEntered counts.now setting_floats.now c parts (given_point source.now) result found.new on.old
        on.new before after }
{
    if counts[4] > LAST_CURVE {
        *found = [0];
        return 1;
    }
    let s = arguments::settings_from(counts, setting_floats);
    let from = arguments::point_from(source);
    match walls::planes_of(
        triangles,
        handles,
        tree,
        nodes,
        leaf_order,
        keys,
        low_keys,
        words,
        scratch,
        index,
        numbers,
        adjacency,
        queue,
        offsets,
        floats,
        plane_triangles,
        plane_floats,
        plane_words,
        plane_edges,
        s,
        c,
        meshes,
        transforms,
        positions,
        indices,
        materials,
        rows_count,
    ) {
        Ok(count) => {
            mark_front(on, plane_floats, plane_words, count, from);
            *found = [count];
            0
        }
        Err(refusal) => {
            *found = [0];
            refusal.number()
        }
    }
}
