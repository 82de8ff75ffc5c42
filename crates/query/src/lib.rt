// `trace_early_reflections`: one call from settings, scene, positions and lent areas to the packet of taps, or the first refusal that applies.
// The areas are parameters and no struct: a struct of `&mut` slices owes at each call that it holds the same references, and a clause would name an area
// at the end by its place in nested pairs.
// It hands down: loading and the refusals 1 to 6 (placing), the answer over the loaded scene (answer). docs/AREAS.md has the areas.
#![tactic(auto)]

ghost use Rattle.scene.specs.Scene.{scene};
ghost use Rattle.query.specs.Areas.{work};
ghost use Rattle.query.specs.Trace.{Traced};

use answer::Answered;
use scene::Settings;
use vector::Vec3;

// The call. The work areas come first, in the order of docs/AREAS.md, then the output area; c is the candidate room, `rows_count` the rows of the
// material table.
pub fn trace_early_reflections(
    triangles: &mut [f32],
    handles: &mut [u32],
    tree: &mut [f32],
    nodes: &mut [u32],
    leaf_order: &mut [u32],
    keys: &mut [u64],
    low_keys: &mut [u64],
    words: &mut [u64],
    scratch: &mut [u64],
    index: &mut [u32],
    numbers: &mut [u32],
    adjacency: &mut [u32],
    queue: &mut [u32],
    offsets: &mut [u32],
    floats: &mut [f32],
    plane_triangles: &mut [u32],
    plane_floats: &mut [f32],
    plane_words: &mut [u32],
    plane_edges: &mut [f32],
    out: &mut [u8],
    settings: Settings,
    c: u32,
    meshes: &[u32],
    transforms: &[f32],
    positions: &[f32],
    indices: &[u32],
    materials: &[f32],
    rows_count: u32,
    source: Vec3,
    listener: Vec3,
    separated: bool,
) -> Answered
    ensures { let s = scene meshes.now transforms.now positions.now indices.now materials.now rows_count in
        let found = work triangles.old handles.old tree.old nodes.old leaf_order.old keys.old
        low_keys.old words.old scratch.old index.old numbers.old adjacency.old
        queue.old offsets.old floats.old plane_triangles.old plane_floats.old plane_words.old
        plane_edges.old in
        let left = work triangles.new handles.new tree.new nodes.new leaf_order.new keys.new low_keys.new
        words.new scratch.new index.new numbers.new adjacency.new queue.new
        offsets.new floats.new plane_triangles.new plane_floats.new plane_words.new plane_edges.new in
        Traced settings c s source listener separated result out.old out.new found left }
{
    let lens = [
        triangles.len(),
        handles.len(),
        tree.len(),
        nodes.len(),
        leaf_order.len(),
        keys.len(),
        low_keys.len(),
        words.len(),
        scratch.len(),
        index.len(),
        numbers.len(),
        adjacency.len(),
        queue.len(),
        offsets.len(),
        floats.len(),
        plane_triangles.len(),
        plane_floats.len(),
        plane_words.len(),
        plane_edges.len(),
        out.len(),
    ];
    let loaded = placing::load_scene(
        settings, c, meshes, transforms, positions, indices, materials, rows_count, lens,
        triangles, handles,
    );
    let front = front::front_of(loaded);
    if front::early(front.refusal) {
        return answer::refused(front.refusal);
    }
    answer::answer_loaded(
        triangles,
        handles,
        tree,
        nodes,
        leaf_order,
        keys,
        low_keys,
        words,
        scratch,
        index,
        numbers,
        adjacency,
        queue,
        offsets,
        floats,
        plane_triangles,
        plane_floats,
        plane_words,
        plane_edges,
        out,
        front.refusal,
        front.triples,
        front.kept,
        settings,
        materials,
        source,
        listener,
        separated,
        c as usize,
    )
}
