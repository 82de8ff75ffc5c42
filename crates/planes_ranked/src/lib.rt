// STEP 5 of `build_planes`: the most important planes, each with its border.
// A crate of its own, as each step of its group is, so that it is checked alone.
#![tactic(auto)]

ghost use Rattle.std.specs.Prelude.{◌≡◌, ℕ, ◌+◌, ◌*◌, ◌/◌, ◌<◌, ◌≤◌, length, get_or, take, [], map};
ghost use Rattle.planes_patches.specs.Triangles.{triangles_in};
ghost use Rattle.planes_ranked.specs.Areas.{TrianglesLent, EdgesRoom, GroupPlanes, with_edges, bordered_in, RankedLent, RankedRoom};
ghost use Rattle.order.specs.Open.{Open};
ghost use Rattle.order.specs.Sort.{Below};
ghost use Rattle.mirror.specs.Rows.{edge_floats, tris_of, plane_in, planes_in, PlanesHeld};
ghost use Rattle.planes_importance.specs.Importance.{ranked_of};
ghost use Rattle.planes_borders.specs.Border.{bordered_of};
ghost use Rattle.planes_links.specs.Words.{most_triangles};
ghost use Rattle.planes_borders.specs.Uses.{OnceCounted, border_in, Appended};

use mirror::PlaneRow;

// A plane with its border, whose edges are stored from edge `at` on.
fn bordered(
    triangles: &[f32],
    n: usize,
    plane: PlaneRow,
    plane_triangles: &[u32],
    first: &[u32],
    uses: &[u32],
    plane_edges: &mut [f32],
    at: usize,
) -> PlaneRow
    requires n_in_bounds { (9 * n ≤ length triangles.now) × (length first.now ≤ 3 * n) × Below (length uses.now) first.now }
    requires count_in_bounds { (plane.first + plane.count ≤ length plane_triangles.now) × Below (length first.now / 3) (tris_of plane plane_triangles.now) }
    requires count_in_bounds_2 { edge_floats * (at + 3 * plane.count) ≤ length plane_edges.old }
    ensures value { (result ≡ with_edges plane at result.edges) × (result.edges ≤ 3 * plane.count) }
    ensures appended { Appended plane_edges.old plane_edges.new at (at + result.edges)
        (border_in triangles.now n first.now uses.now (tris_of plane plane_triangles.now)) }
{
    let from = plane.first;
    let to = from + plane.count;
    let end = planes_borders::put_border(
        triangles,
        n,
        &plane_triangles[from..to],
        first,
        uses,
        plane_edges,
        at,
    );
    let mut p = plane;
    p.edge = at;
    p.edges = end - at;
    p
}

// Stores the planes of an order, each with its border.
fn put_ranked(
    triangles: &[f32],
    n: usize,
    m: usize,
    group_floats: &[f32],
    group_words: &[u32],
    plane_triangles: &[u32],
    index: &[u32],
    count: usize,
    first: &[u32],
    uses: &[u32],
    plane_floats: &mut [f32],
    plane_words: &mut [u32],
    plane_edges: &mut [f32],
)
    requires ranked_lent { RankedLent triangles.now n m group_floats.now group_words.now plane_triangles.now index.now first.now uses.now count }
    requires ranked_room { RankedRoom m (length index.now) plane_floats.old plane_words.old plane_edges.old }
    ensures by_index { (r : ℕ) → r < length index.now →
        plane_in plane_floats.new plane_words.new plane_triangles.now plane_edges.new r ≡
        bordered_in triangles.now n group_floats.now group_words.now plane_triangles.now first.now
        uses.now (get_or index.now r 0) }
    ensures planes_held { PlanesHeld plane_floats.new plane_words.new plane_triangles.now plane_edges.new m
        (length index.now) }
{
    let mut at = 0;
    for (r, number) in index.iter().enumerate() {
        let plane = mirror::plane_at(group_floats, group_words, *number as usize);
        let p = bordered(
            triangles,
            n,
            plane,
            plane_triangles,
            first,
            uses,
            plane_edges,
            at,
        );
        at += p.edges;
        planes_fit::put_plane(plane_floats, plane_words, r, p);
    }
}

// Counts the edges of all planes: queue becomes the first edge that lies on each, offsets how many do. `plane_of` has the plane of each triangle.
fn count_edges(
    triangles: &[f32],
    n: usize,
    m: usize,
    plane_of: &[u32],
    keys: &mut [u64],
    low_keys: &mut [u64],
    index: &mut [u32],
    words: &mut [u64],
    scratch: &mut [u64],
    numbers: &mut [u32],
    queue: &mut [u32],
    offsets: &mut [u32],
)
    requires n_le_most_triangles { (n ≤ most_triangles) × (m ≤ n) × (9 * n ≤ length triangles.now) × (m ≤ length plane_of.now) }
    requires edges_room { EdgesRoom n keys.old low_keys.old index.old words.old scratch.old numbers.old queue.old offsets.old }
    ensures below { Below (3 * m) (take (3 * m) queue.new) }
    ensures once_counted { OnceCounted triangles.now n plane_of.now m (take (3 * m) queue.new) (take (3 * m) offsets.new) }
{
    planes_borders::edge_numbers(
        triangles,
        n,
        &mut keys[..3 * n],
        &mut low_keys[..3 * n],
        &mut index[..3 * n],
        words,
        scratch,
        numbers,
    );
    planes_borders::count_edges(
        numbers,
        n,
        plane_of,
        m,
        &mut keys[..3 * m],
        &mut low_keys[..3 * m],
        &mut index[..3 * m],
        words,
        scratch,
        &mut queue[..3 * m],
        &mut offsets[..3 * m],
    );
}

fn fewer(a: usize, b: usize) -> usize
    ensures { (result ≤ a) × (result ≤ b) × (a ≤ b → result ≡ a) × (b ≤ a → result ≡ b) }
{
    if a <= b { a } else { b }
}

// STEP 5: the most important planes, `most` of them, with their borders. There are as many as is returned; they stand in plane_floats and plane_words.
pub fn ranked_planes(
    triangles: &[f32],
    handles: &[u32],
    n: usize,
    m: usize,
    most: usize,
    plane_of: &[u32],
    group_floats: &[f32],
    group_words: &[u32],
    plane_triangles: &[u32],
    ng: usize,
    keys: &mut [u64],
    low_keys: &mut [u64],
    index: &mut [u32],
    words: &mut [u64],
    scratch: &mut [u64],
    numbers: &mut [u32],
    queue: &mut [u32],
    offsets: &mut [u32],
    next: &mut [u32],
    plane_floats: &mut [f32],
    plane_words: &mut [u32],
    plane_edges: &mut [f32],
) -> usize
    requires triangles_lent { TrianglesLent triangles.now handles.now n m }
    requires group_planes { GroupPlanes m ng group_floats.now group_words.now plane_triangles.now plane_of.now }
    requires edges_room { EdgesRoom n keys.old low_keys.old index.old words.old scratch.old numbers.old queue.old offsets.old }
    requires n_in_bounds { (n ≤ length next.old) × RankedRoom n n plane_floats.old plane_words.old plane_edges.old }
    ensures result_after { planes_in plane_floats.new plane_words.new plane_triangles.now plane_edges.new result ≡
        (let ts = triangles_in triangles.now handles.now n m in map (bordered_of ts)
        (ranked_of ts most (planes_in group_floats.now group_words.now plane_triangles.now [] ng))) }
    ensures upper_bound { (result ≤ most) × PlanesHeld plane_floats.new plane_words.new plane_triangles.now plane_edges.new m result }
    ensures rest { Open keys.old keys.new × Open low_keys.old low_keys.new × Open index.old index.new ×
        Open words.old words.new × Open scratch.old scratch.new × Open numbers.old numbers.new ×
        Open queue.old queue.new × Open offsets.old offsets.new × Open next.old next.new }
{
    planes_importance::rank_planes(
        triangles,
        handles,
        n,
        m,
        group_floats,
        group_words,
        plane_triangles,
        &mut keys[..ng],
        &mut next[..ng],
        words,
        scratch,
    );
    count_edges(
        triangles, n, m, plane_of, keys, low_keys, index, words, scratch, numbers, queue, offsets,
    );
    let few = fewer(ng, most);
    put_ranked(
        triangles,
        n,
        m,
        group_floats,
        group_words,
        plane_triangles,
        &next[..few],
        ng,
        &queue[..3 * m],
        &offsets[..3 * m],
        plane_floats,
        plane_words,
        plane_edges,
    );
    few
}
