// The mirror planes of a scene, `build_planes`: `planes_of_triangles` of specs/Build.antt. Each step has a crate of its own, so that each is checked alone:
// `planes_faces`, `planes_patches`, `planes_buried`, `planes_links` and `planes_groups`, `planes_fit`, and `planes_ranked` over `planes_importance` and
// `planes_borders`. Here they are called in turn, and an area that a step has done with serves a later one (specs/Areas.antt). The areas are parameters and
// no struct: `query` says why.
#![tactic(auto)]

ghost use Rattle.std.specs.Prelude.{◌≡◌, ℕ, ◌*◌, ◌/◌, ◌<◌, ◌≤◌, length, []};
ghost use Rattle.order.specs.Open.{Open};
ghost use Rattle.geometry.specs.declared.Triangle.{Triangle};
ghost use Rattle.tree_build.specs.Tree.{Tree};
ghost use Rattle.tree_trace.specs.Trace.{BvhHeld};
ghost use Rattle.planes_faces.specs.Key.{vertex_key};
ghost use Rattle.planes_faces.specs.Numbers as faces;
ghost use Rattle.planes_patches.specs.Triangles.{triangles_in};
ghost use Rattle.planes_patches.specs.Grid.{bucket_count};
ghost use Rattle.planes_patches.specs.Rows.{patch_floats, patches_in, Numbered};
ghost use Rattle.planes_buried.specs.Probe.{probe_of, BvhTreeHeld};
ghost use Rattle.planes_groups.specs.Settings as groups;
ghost use Rattle.planes.specs.Build.{plane_settings, open_patches_of, group_planes_of, planes_of_triangles};
ghost use Rattle.planes_ranked.specs.Areas.{TrianglesLent, GroupPlanes};
ghost use Rattle.planes.specs.Areas.{OpenRoom, GroupRoom, PlanesRoom, seats};
ghost use Rattle.mirror.specs.Rows.{planes_in, PlanesHeld};

use scene::Settings;
use tree_trace::FlatBvh;

// The heads of the grid of normals.
const BUCKETS: usize = 4096;

fn fresh_heads() -> [u32; BUCKETS]
    ensures { length result ≡ bucket_count }
{
    [0u32; BUCKETS]
}

// STEPS 1 to 3: the patches that are not buried. Their number is returned; `numbers` becomes the vertices' numbers. An area that a step
// has done with serves the next one: keys holds the grid's cells, next the largest triangles, first the flags.
fn open_patches(
    triangles: &[f32],
    n: usize,
    m: usize,
    reach: f32,
    bvh: &FlatBvh,
    keys: &mut [u64],
    low_keys: &mut [u64],
    index: &mut [u32],
    words: &mut [u64],
    scratch: &mut [u64],
    numbers: &mut [u32],
    first: &mut [u32],
    next: &mut [u32],
    areas: &mut [f32],
    plane_floats: &mut [f32],
    of: &mut [u32],
) -> usize
    requires triangles_lent { TrianglesLent triangles.now bvh.now.handles.now n m }
    requires open_room { OpenRoom n keys.old low_keys.old index.old words.old scratch.old numbers.old first.old next.old areas.old plane_floats.old of.old }
    requires held { BvhHeld bvh.now }
    requires count_nonzero { 0 < bvh.now.count }
    ensures result_after { (s : groups.Settings) (tri : ℕ → Triangle) (k : Tree) → s.buried ≡ reach →
        BvhTreeHeld tri k bvh.now →
        patches_in plane_floats.new of.new m result ≡
        open_patches_of s (probe_of tri k) (triangles_in triangles.now bvh.now.handles.now n m) }
    ensures upper_bound { (result ≤ m) × Numbered of.new m result }
    ensures numbered { faces.Numbered vertex_key triangles.now n n numbers.new }
{
    let mut heads = fresh_heads();
    planes_faces::duplicates(
        triangles,
        n,
        &mut keys[..3 * n],
        &mut low_keys[..3 * n],
        &mut index[..3 * n],
        words,
        scratch,
        numbers,
        first,
    );
    let np = planes_patches::coplanar_patches(
        triangles,
        bvh.handles,
        n,
        m,
        first,
        keys,
        &mut heads,
        next,
        plane_floats,
        of,
    );
    planes_buried::open_patches(
        triangles,
        n,
        m,
        reach,
        bvh,
        np,
        areas,
        next,
        first,
        plane_floats,
        of,
    )
}

// STEP 4, and a plane for each group: there are as many as is returned. first becomes the plane of each triangle, adjacency the planes' words.
fn group_planes(
    triangles: &[f32],
    handles: &[u32],
    n: usize,
    m: usize,
    plane_floats: &[f32],
    of: &[u32],
    np: usize,
    numbers: &[u32],
    on: bool,
    least: f32,
    most: f32,
    keys: &mut [u64],
    words: &mut [u64],
    scratch: &mut [u64],
    index: &mut [u32],
    next: &mut [u32],
    adjacency: &mut [u32],
    plane_triangles: &mut [u32],
    first: &mut [u32],
    plane_words: &mut [u32],
    queue: &mut [u32],
    offsets: &mut [u32],
    floats: &mut [f32],
) -> usize
    requires triangles_lent { TrianglesLent triangles.now handles.now n m }
    requires np_le_m { (np ≤ m) × (patch_floats * np ≤ length plane_floats.now) × (m ≤ length of.now) }
    requires n_in_bounds { (3 * n ≤ length numbers.now) × faces.Numbered vertex_key triangles.now n n numbers.now }
    requires group_room { GroupRoom n keys.old words.old scratch.old index.old next.old adjacency.old plane_triangles.old first.old plane_words.old
        queue.old offsets.old floats.old }
    ensures result_after { (s : groups.Settings) → s.merge_on ≡ on → s.merge_cos ≡ least → s.merge_offset ≡ most →
        planes_in floats.new adjacency.new plane_triangles.new [] result ≡
        group_planes_of s (triangles_in triangles.now handles.now n m) (patches_in plane_floats.now of.now m np) }
    ensures group_planes { GroupPlanes m result floats.new adjacency.new plane_triangles.new first.new }
{
    let ng = planes_groups::merge_patches(
        triangles,
        handles,
        n,
        m,
        plane_floats,
        of,
        np,
        numbers,
        3 * n,
        on,
        least,
        most,
        keys,
        words,
        scratch,
        index,
        next,
        adjacency,
        plane_triangles,
        first,
        plane_words,
        queue,
        offsets,
    );
    planes_fit::group_planes(
        triangles,
        handles,
        n,
        m,
        plane_floats,
        of,
        np,
        queue,
        offsets,
        ng,
        index,
        words,
        scratch,
        first,
        plane_triangles,
        next,
        floats,
        adjacency,
    );
    ng
}

// ---- all steps

// An element for each triangle, and one more.
const SEATS: usize = 4097;

fn fresh() -> [u32; SEATS]
    ensures { length result ≡ seats }
{
    [0u32; SEATS]
}

// `build_planes`: the mirror planes of the m triangles, in the order of their importance; there are as many as is returned.
// They stand in plane_floats, plane_words, plane_triangles and plane_edges (mirror's `plane_at` reads them).
pub fn build_planes(
    triangles: &[f32],
    n: usize,
    m: usize,
    settings: Settings,
    bvh: &FlatBvh,
    keys: &mut [u64],
    low_keys: &mut [u64],
    words: &mut [u64],
    scratch: &mut [u64],
    index: &mut [u32],
    numbers: &mut [u32],
    adjacency: &mut [u32],
    queue: &mut [u32],
    offsets: &mut [u32],
    floats: &mut [f32],
    plane_triangles: &mut [u32],
    plane_floats: &mut [f32],
    plane_words: &mut [u32],
    plane_edges: &mut [f32],
) -> usize
    requires triangles_lent { TrianglesLent triangles.now bvh.now.handles.now n m }
    requires held { BvhHeld bvh.now × (0 < bvh.now.count) }
    requires planes_room { PlanesRoom n keys.old low_keys.old words.old scratch.old index.old numbers.old adjacency.old queue.old offsets.old
        plane_triangles.old plane_words.old plane_floats.old floats.old plane_edges.old }
    ensures by_index { (tri : ℕ → Triangle) (k : Tree) →
        BvhTreeHeld tri k bvh.now →
        planes_in plane_floats.new plane_words.new plane_triangles.new plane_edges.new result ≡
        planes_of_triangles (plane_settings settings) (probe_of tri k) (triangles_in triangles.now bvh.now.handles.now n m) }
    ensures upper_bound { (result ≤ settings.max_reflection_planes) ×
        PlanesHeld plane_floats.new plane_words.new plane_triangles.new plane_edges.new m result }
    ensures rest { Open keys.old keys.new × Open low_keys.old low_keys.new × Open words.old words.new ×
        Open scratch.old scratch.new × Open index.old index.new × Open numbers.old numbers.new ×
        Open adjacency.old adjacency.new × Open queue.old queue.new × Open offsets.old offsets.new ×
        Open floats.old floats.new }
{
    let mut first = fresh();
    let mut next = fresh();
    let mut of = fresh();
    let np = open_patches(
        triangles,
        n,
        m,
        settings.plane_buried_distance,
        bvh,
        keys,
        low_keys,
        index,
        words,
        scratch,
        numbers,
        &mut first,
        &mut next,
        floats,
        plane_floats,
        &mut of,
    );
    let ng = group_planes(
        triangles,
        bvh.handles,
        n,
        m,
        plane_floats,
        &of,
        np,
        numbers,
        settings.plane_merge,
        settings.plane_merge_cos,
        settings.plane_merge_offset,
        keys,
        words,
        scratch,
        index,
        &mut next,
        adjacency,
        plane_triangles,
        &mut first,
        plane_words,
        queue,
        offsets,
        floats,
    );
    planes_ranked::ranked_planes(
        triangles,
        bvh.handles,
        n,
        m,
        settings.max_reflection_planes as usize,
        &first,
        floats,
        adjacency,
        plane_triangles,
        ng,
        keys,
        low_keys,
        index,
        words,
        scratch,
        numbers,
        queue,
        offsets,
        &mut next,
        plane_floats,
        plane_words,
        plane_edges,
    )
}
