// The planes of a query's scene, built again since the call clears them, and on which of them the source lies: what a caller has to know of its scene so
// that `numbering` names the walls of an image.
#![tactic(auto)]

ghost use Rattle.std.specs.Prelude.{◌≡◌, List, ℕ, ◌*◌, ◌+◌, ◌<◌, ◌≤◌, length, get_or, Float};
ghost use Rattle.scene.specs.Scene.{scene};
ghost use Rattle.mirror.specs.Rows.{plane_float_count, plane_word_count, planes_in};
ghost use Rattle.search.specs.Outcome.{on_bytes};
ghost use Rattle.query.specs.Areas.{work};
ghost use Rattle.refusals.specs.Numbers.{number_told};
ghost use Rattle.walls.specs.Walls.{count_told, PlanesOf};

use refusals::Refusal;
use scene::Settings;
use vector::Vec3;

// The longest packet, which `load_scene` asks room for; nothing is written here.
const OUTPUT: usize = packet::OUT_BYTES;

// ---- the planes

// How many planes a scene has, none where loading keeps no triangle; or the refusal of 1 to 6 that loading gives. They stand in plane_floats, plane_words, plane_triangles and
// plane_edges. The areas are those of the query, which leaves them zero; where nothing is built they are as found, after refusal 6 with triangles and
// handles zero.
pub fn planes_of(
    triangles: &mut [f32],
    handles: &mut [u32],
    tree: &mut [f32],
    nodes: &mut [u32],
    leaf_order: &mut [u32],
    keys: &mut [u64],
    low_keys: &mut [u64],
    words: &mut [u64],
    scratch: &mut [u64],
    index: &mut [u32],
    numbers: &mut [u32],
    adjacency: &mut [u32],
    queue: &mut [u32],
    offsets: &mut [u32],
    floats: &mut [f32],
    plane_triangles: &mut [u32],
    plane_floats: &mut [f32],
    plane_words: &mut [u32],
    plane_edges: &mut [f32],
    settings: Settings,
    c: u32,
    meshes: &[u32],
    transforms: &[f32],
    positions: &[f32],
    indices: &[u32],
    materials: &[f32],
    rows_count: u32,
) -> Result<usize, Refusal>
    ensures { let s = scene meshes.now transforms.now positions.now indices.now materials.now rows_count in
        let found = work triangles.old handles.old tree.old nodes.old leaf_order.old keys.old
        low_keys.old words.old scratch.old index.old numbers.old adjacency.old
        queue.old offsets.old floats.old plane_triangles.old plane_floats.old plane_words.old
        plane_edges.old in
        let left = work triangles.new handles.new tree.new nodes.new leaf_order.new keys.new low_keys.new
        words.new scratch.new index.new numbers.new adjacency.new queue.new
        offsets.new floats.new plane_triangles.new plane_floats.new plane_words.new plane_edges.new in
        PlanesOf settings c s found left (number_told result) (count_told result) }
{
    let lens = [
        triangles.len(),
        handles.len(),
        tree.len(),
        nodes.len(),
        leaf_order.len(),
        keys.len(),
        low_keys.len(),
        words.len(),
        scratch.len(),
        index.len(),
        numbers.len(),
        adjacency.len(),
        queue.len(),
        offsets.len(),
        floats.len(),
        plane_triangles.len(),
        plane_floats.len(),
        plane_words.len(),
        plane_edges.len(),
        OUTPUT,
    ];
    let loaded = placing::load_scene(
        settings, c, meshes, transforms, positions, indices, materials, rows_count, lens,
        triangles, handles,
    )?;
    if loaded.triangles == 0 {
        return Ok(0);
    }
    scene_bvh::clear_from(handles, loaded.triangles);
    let built = scene_planes::build_scene(
        tree,
        nodes,
        leaf_order,
        keys,
        low_keys,
        words,
        scratch,
        index,
        numbers,
        adjacency,
        queue,
        offsets,
        floats,
        plane_triangles,
        plane_floats,
        plane_words,
        plane_edges,
        triangles,
        handles,
        loaded.triples,
        loaded.triangles,
        settings,
    );
    Ok(built.planes)
}

// ---- the source

// 1 where the source lies on plane p, so that no sequence begins with it.
fn lies_on(floats: &[f32], words: &[u32], p: usize, source: Vec3) -> u8
    requires { (plane_float_count * p + plane_float_count ≤ length floats.now) × (plane_word_count * p + plane_word_count ≤ length words.now) }
    ensures { (members : List ℕ) (edges : List Float) (count : ℕ) → p < count →
        result ≡ get_or (on_bytes (planes_in floats.now words.now members edges count) source) p 0 }
{
    if bounces::lies_on(floats, words, p, source) {
        return 1;
    }
    0
}

// A byte for each plane, as many as there are.
pub fn mark_planes(floats: &[f32], words: &[u32], source: Vec3, on: &mut [u8])
    requires { (plane_float_count * length on.old ≤ length floats.now) × (plane_word_count * length on.old ≤ length words.now) }
    ensures { (members : List ℕ) (edges : List Float) →
        on.new ≡ on_bytes (planes_in floats.now words.now members edges (length on.old)) source }
{
    for p in 0..on.len() {
        on[p] = lies_on(floats, words, p, source);
    }
}
