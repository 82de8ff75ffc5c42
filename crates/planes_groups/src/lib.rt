// STEP 4 of the planes: groups of adjacent patches that grow breadth first from seeds, the largest patch first.
// A crate of its own, as each step of its group is, so that it is checked alone.
#![tactic(auto)]

ghost use Rattle.std.specs.Prelude.{◌≡◌, Bool, true, not, ◌&&◌, [], ◌∷◌, map, ℕ, ◌+◌, ◌*◌, ◌<◌, ◌≤◌, eqb, ltb, length, get_or, take};
ghost use Rattle.std.specs.Float.Ieee.{lt};
ghost use Rattle.float.specs.Literals.{zero32};
ghost use Rattle.order.specs.Open.{Open};
ghost use Rattle.order.specs.Sort.{sort_by, Below};
ghost use Rattle.order.specs.Runs.{head_or, up_to};
ghost use Rattle.columns.specs.Columns.{column_count, triangle_at_of};
ghost use Rattle.planes_patches.specs.Lists.{filter_by, all_by};
ghost use Rattle.planes_patches.specs.Triangles.{corners_of, triangles_in};
ghost use Rattle.mirror.specs.Rows.{vec_of_floats};
ghost use Rattle.planes_patches.specs.Rows.{patch_floats, patches_in};
ghost use Rattle.planes_links.specs.Words.{most_triangles, most_rows, lows, row_in, part_of};
ghost use Rattle.planes_links.specs.Links.{is_joined, Numbers};
ghost use Rattle.planes_groups.specs.Settings.{Settings};
ghost use Rattle.planes_groups.specs.Groups.{rank_of, key_for_falling, is_tilted_from, lies_near, groups_from, groups_of};
ghost use Rattle.planes_faces.specs.Key.{vertex_key};
ghost use Rattle.planes_faces.specs.Numbers.{Numbered};
ghost use Rattle.planes_groups.specs.Rows.{groups_in, Grouped, Table, seed_key_in, takes_in, is_free_at, free_of, Queue, LetIn, Grown, RowsOf};

use geometry::Triangle;
use planes_links::MOST_TRIANGLES;
use vector::Vec3;

// How many floats a patch has: its normal from 0 on, its offset at 3, its area at 4.
const PATCH_FLOATS: usize = 11;

const PLANE_NORMAL_COS: f32 = 0.99998;

// ---- seeds

// The place of x among floats, NaN lowest.
fn rank(x: f32) -> u32
    ensures { result ≡ rank_of x }
{
    if float::is_nan(x) {
        return 0;
    }
    float::float_key(x)
}

// A key that has larger floats first, and of equal ones the lower number.
pub fn descending_key(x: f32, i: u32) -> u64
    ensures { result ≡ key_for_falling x i }
{
    let place = rank(x);
    (0xffff_ffff - place) as u64 * 0x1_0000_0000 + i as u64
}

// `tris[0]`: the first triangle of patch p.
fn first_triangle(tsorted: &[u32], tstarts: &[u32], np: usize, p: usize) -> u32
    requires table { Table np most_triangles tsorted.now tstarts.now }
    requires p_lt_np { p < np }
    ensures { result ≡ head_or 0 (row_in tsorted.now tstarts.now p) }
{
    let from = tstarts[p] as usize;
    let to = tstarts[p + 1] as usize;
    if from < to {
        return tsorted[from] % MOST_TRIANGLES;
    }
    0
}

// The keys of the patches as seeds, and their numbers in order.
fn seed_keys(
    rows: &[f32],
    np: usize,
    tsorted: &[u32],
    tstarts: &[u32],
    keys: &mut [u64],
    order: &mut [u32],
)
    requires np_le_most_triangles { np ≤ most_triangles }
    requires np_in_bounds { patch_floats * np ≤ length rows.now }
    requires table { Table np most_triangles tsorted.now tstarts.now }
    requires np_in_bounds_2 { np ≤ length keys.old }
    requires np_in_bounds_3 { np ≤ length order.old }
    ensures order_after { take np order.new ≡ up_to np }
    ensures by_index { (p : ℕ) → p < np → get_or keys.new p 0 ≡ seed_key_in rows.now tsorted.now tstarts.now p }
{
    for p in 0..np {
        let first = first_triangle(tsorted, tstarts, np, p);
        keys[p] = descending_key(rows[PATCH_FLOATS * p + 4], first);
        order[p] = p as u32;
    }
}

// `order`: the patches as seeds, the largest first. What keys, words and scratch hold afterwards is open.
fn seeds(
    rows: &[f32],
    np: usize,
    tsorted: &[u32],
    tstarts: &[u32],
    keys: &mut [u64],
    words: &mut [u64],
    scratch: &mut [u64],
    order: &mut [u32],
)
    requires np_le_most_triangles { np ≤ most_triangles }
    requires np_in_bounds { patch_floats * np ≤ length rows.now }
    requires table { Table np most_triangles tsorted.now tstarts.now }
    requires np_in_bounds_2 { np ≤ length keys.old }
    requires np_in_bounds_3 { np ≤ length words.old }
    requires np_in_bounds_4 { np ≤ length scratch.old }
    requires np_in_bounds_5 { np ≤ length order.old }
    ensures { take np order.new ≡ sort_by (seed_key_in rows.now tsorted.now tstarts.now) (up_to np) }
{
    seed_keys(rows, np, tsorted, tstarts, keys, order);
    order::sort_by_key(keys, &mut order[..np], words, scratch);
}

// `order.iter().map(|&p| vec![p])`: each patch alone.
fn each_alone(order: &[u32], np: usize, queue: &mut [u32], offsets: &mut [u32])
    requires np_le_most_triangles { np ≤ most_triangles }
    requires np_in_bounds { (np ≤ length order.now) × Below np (take np order.now) }
    requires np_in_bounds_2 { np ≤ length queue.old }
    requires np_in_bounds_3 { np < length offsets.old }
    ensures grouped { Grouped np np queue.new offsets.new }
    ensures np_after { groups_in queue.new offsets.new np ≡ map (λ p. p ∷ []) (take np order.now) }
{
    offsets[0] = 0;
    for i in 0..np {
        queue[i] = order[i];
        offsets[i + 1] = (i + 1) as u32;
    }
}

// Whether patches are merged at all.
fn is_merging(on: bool, most: f32, np: usize) -> bool
    ensures { result ≡ on && lt zero32 most && ltb 1 np }
{
    if on {
        if most > 0.0 {
            return np > 1;
        }
        return false;
    }
    false
}

// ---- whether the group of a seed takes a patch

// The normal of patch p.
fn normal_of(rows: &[f32], p: usize) -> Vec3
    requires { patch_floats * p + patch_floats ≤ length rows.now }
    ensures { result ≡ vec_of_floats rows.now (patch_floats * p) }
{
    Vec3 {
        x: rows[PATCH_FLOATS * p],
        y: rows[PATCH_FLOATS * p + 1],
        z: rows[PATCH_FLOATS * p + 2],
    }
}

// Whether b is inside the cone of a, and not in its plane.
fn is_tilted(a: Vec3, b: Vec3, least: f32) -> bool
    ensures { result ≡ is_tilted_from least a b }
{
    let c = float::abs(vector::dot3(a, b));
    if c >= least {
        return c <= PLANE_NORMAL_COS;
    }
    false
}

fn is_near(v: Vec3, normal: Vec3, offset: f32, most: f32) -> bool
    ensures { result ≡ lies_near normal offset most v }
{
    float::abs(vector::dot3(normal, v) - offset) <= most
}

fn is_triangle_near(t: Triangle, normal: Vec3, offset: f32, most: f32) -> bool
    ensures { result ≡ all_by (lies_near normal offset most) (corners_of t) }
{
    if is_near(t.a, normal, offset, most) {
        if is_near(t.b, normal, offset, most) {
            return is_near(t.c, normal, offset, most);
        }
        return false;
    }
    false
}

// `within`: whether all triangles of a row are near a plane.
fn is_within(
    triangles: &[f32],
    handles: &[u32],
    n: usize,
    tris: &[u32],
    normal: Vec3,
    offset: f32,
    most: f32,
) -> bool
    requires n_in_bounds { (column_count * n ≤ length triangles.now) × (n ≤ length handles.now) }
    requires below { Below n (lows tris.now) }
    ensures { result ≡ all_by (λ i. all_by (lies_near normal offset most) (corners_of (triangle_at_of triangles.now handles.now n i)))
        (lows tris.now) }
{
    for tri in tris {
        let at = (*tri % MOST_TRIANGLES) as usize;
        let t = columns::triangle_at(triangles, handles, n, at);
        if !is_triangle_near(t, normal, offset, most) {
            return false;
        }
    }
    true
}

// Whether the group of seed a takes patch b.
fn takes(
    triangles: &[f32],
    handles: &[u32],
    n: usize,
    rows: &[f32],
    np: usize,
    tsorted: &[u32],
    tstarts: &[u32],
    least: f32,
    most: f32,
    a: usize,
    b: usize,
) -> bool
    requires n_in_bounds { (column_count * n ≤ length triangles.now) × (n ≤ length handles.now) }
    requires np_in_bounds { patch_floats * np ≤ length rows.now }
    requires table { Table np n tsorted.now tstarts.now }
    requires a_lt_np { (a < np) × (b < np) }
    ensures { result ≡ takes_in triangles.now handles.now n rows.now tsorted.now tstarts.now least most a b }
{
    let normal = normal_of(rows, a);
    let other = normal_of(rows, b);
    if is_tilted(normal, other, least) {
        let offset = rows[PATCH_FLOATS * a + 3];
        let from = tstarts[b] as usize;
        let to = tstarts[b + 1] as usize;
        return is_within(
            triangles,
            handles,
            n,
            &tsorted[from..to],
            normal,
            offset,
            most,
        );
    }
    false
}

// ---- growing

// Lets in those of a row that are free and that the seed's group takes: they are marked and follow in the queue.
fn let_in(
    triangles: &[f32],
    handles: &[u32],
    n: usize,
    rows: &[f32],
    np: usize,
    tsorted: &[u32],
    tstarts: &[u32],
    least: f32,
    most: f32,
    seed: usize,
    mark: u32,
    row: &[u32],
    assigned: &mut [u32],
    queue: &mut [u32],
    from: usize,
) -> usize
    requires n_in_bounds { (column_count * n ≤ length triangles.now) × (n ≤ length handles.now) }
    requires np_in_bounds { patch_floats * np ≤ length rows.now }
    requires table { Table np n tsorted.now tstarts.now }
    requires seed_lt_np { (seed < np) × (0 < mark) }
    requires below { Below np (lows row.now) }
    requires queue { Queue np assigned.old queue.old from }
    ensures lower_bound { from ≤ result }
    ensures queue_2 { Queue np assigned.new queue.new result }
    ensures by_index { (adj : ℕ → Bool) → lows row.now ≡ filter_by adj (up_to np) →
        LetIn np (takes_in triangles.now handles.now n rows.now tsorted.now tstarts.now least most seed)
        adj assigned.old queue.old from assigned.new queue.new result }
{
    let mut tail = from;
    for patch in row {
        let q = *patch % MOST_TRIANGLES;
        let at = q as usize;
        if assigned[at] != 0 {
            continue;
        }
        if !takes(
            triangles, handles, n, rows, np, tsorted, tstarts, least, most, seed, at,
        ) {
            continue;
        }
        assigned[at] = mark;
        queue[tail] = q;
        tail += 1;
    }
    tail
}

// Grows a group breadth first: each patch of the queue, from `from` on, lets in those that it is adjacent to.
fn grow(
    triangles: &[f32],
    handles: &[u32],
    n: usize,
    rows: &[f32],
    np: usize,
    tsorted: &[u32],
    tstarts: &[u32],
    least: f32,
    most: f32,
    asorted: &[u32],
    astarts: &[u32],
    seed: usize,
    mark: u32,
    assigned: &mut [u32],
    queue: &mut [u32],
    from: usize,
    to: usize,
) -> usize
    requires n_in_bounds { (column_count * n ≤ length triangles.now) × (n ≤ length handles.now) }
    requires np_in_bounds { patch_floats * np ≤ length rows.now }
    requires table { Table np n tsorted.now tstarts.now }
    requires seed_lt_np { (seed < np) × (0 < mark) }
    requires table_2 { Table np np asorted.now astarts.now }
    requires from_le_to { from ≤ to }
    requires queue { Queue np assigned.old queue.old to }
    ensures lower_bound { to ≤ result }
    ensures queue_2 { Queue np assigned.new queue.new result }
    ensures by_index { (adj : ℕ → ℕ → Bool) → RowsOf np asorted.now astarts.now adj → Grown np adj
        (takes_in triangles.now handles.now n rows.now tsorted.now tstarts.now least most seed)
        (take from queue.old) (part_of queue.old from to) (free_of np assigned.old) assigned.new queue.new
        result }
{
    let mut head = from;
    let mut tail = to;
    // Each turn can lengthen the queue, so no `for`.
    while head < tail {
        let p = queue[head] as usize;
        head += 1;
        let a = astarts[p] as usize;
        let b = astarts[p + 1] as usize;
        tail = let_in(
            triangles,
            handles,
            n,
            rows,
            np,
            tsorted,
            tstarts,
            least,
            most,
            seed,
            mark,
            &asorted[a..b],
            assigned,
            queue,
            tail,
        );
    }
    tail
}

// The group of a seed that is free, after the first `from` of the queue.
fn start_group(
    triangles: &[f32],
    handles: &[u32],
    n: usize,
    rows: &[f32],
    np: usize,
    tsorted: &[u32],
    tstarts: &[u32],
    least: f32,
    most: f32,
    asorted: &[u32],
    astarts: &[u32],
    seed: u32,
    mark: u32,
    assigned: &mut [u32],
    queue: &mut [u32],
    from: usize,
) -> usize
    requires n_in_bounds { (column_count * n ≤ length triangles.now) × (n ≤ length handles.now) }
    requires np_in_bounds { patch_floats * np ≤ length rows.now }
    requires table { Table np n tsorted.now tstarts.now }
    requires seed_lt_np { (seed < np) × (0 < mark) }
    requires table_2 { Table np np asorted.now astarts.now }
    requires queue { Queue np assigned.old queue.old from }
    requires seed_value { is_free_at assigned.old seed ≡ true }
    ensures lower_bound { from ≤ result }
    ensures queue_2 { Queue np assigned.new queue.new result }
    ensures by_index { (adj : ℕ → ℕ → Bool) → RowsOf np asorted.now astarts.now adj → Grown np adj
        (takes_in triangles.now handles.now n rows.now tsorted.now tstarts.now least most seed)
        (take from queue.old) (seed ∷ []) (filter_by (λ q. not (eqb seed q)) (free_of np assigned.old)) assigned.new
        queue.new result }
{
    let at = seed as usize;
    assigned[at] = mark;
    queue[from] = seed;
    grow(
        triangles,
        handles,
        n,
        rows,
        np,
        tsorted,
        tstarts,
        least,
        most,
        asorted,
        astarts,
        at,
        mark,
        assigned,
        queue,
        from,
        from + 1,
    )
}

// `groups`: one group after another; a seed that is still free starts one.
fn grow_groups(
    triangles: &[f32],
    handles: &[u32],
    n: usize,
    rows: &[f32],
    np: usize,
    tsorted: &[u32],
    tstarts: &[u32],
    least: f32,
    most: f32,
    asorted: &[u32],
    astarts: &[u32],
    order: &[u32],
    assigned: &mut [u32],
    queue: &mut [u32],
    offsets: &mut [u32],
) -> usize
    requires n_in_bounds { (column_count * n ≤ length triangles.now) × (n ≤ length handles.now) }
    requires np_in_bounds { patch_floats * np ≤ length rows.now }
    requires table { Table np n tsorted.now tstarts.now }
    requires np_le_most_triangles { np ≤ most_triangles }
    requires table_2 { Table np np asorted.now astarts.now }
    requires np_in_bounds_2 { (np ≤ length order.now) × Below np (take np order.now) }
    requires queue { Queue np assigned.old queue.old 0 }
    requires np_in_bounds_3 { np < length offsets.old }
    ensures upper_bound { result ≤ np }
    ensures grouped { Grouped np result queue.new offsets.new }
    ensures by_index { (adj : ℕ → ℕ → Bool) → RowsOf np asorted.now astarts.now adj →
        groups_in queue.new offsets.new result ≡ groups_from np adj
        (takes_in triangles.now handles.now n rows.now tsorted.now tstarts.now least most)
        (take np order.now) (free_of np assigned.old) }
{
    offsets[0] = 0;
    let mut ng = 0;
    let mut tail = 0;
    for i in 0..np {
        let s = order[i];
        if assigned[s as usize] != 0 {
            continue;
        }
        tail = start_group(
            triangles,
            handles,
            n,
            rows,
            np,
            tsorted,
            tstarts,
            least,
            most,
            asorted,
            astarts,
            s,
            ng as u32 + 1,
            assigned,
            queue,
            tail,
        );
        ng += 1;
        offsets[ng] = tail as u32;
    }
    ng
}

// The groups where patches are merged: adjacency, and the growth from each seed in order. The patches of each vertex are dead once the
// rows of adjacency are made, and the growth writes queue and offsets only then: so they stand there, and no area is lent for them.
fn merge(
    triangles: &[f32],
    handles: &[u32],
    n: usize,
    m: usize,
    rows: &[f32],
    of: &[u32],
    np: usize,
    numbers: &[u32],
    vertices: usize,
    least: f32,
    most: f32,
    tsorted: &[u32],
    tstarts: &[u32],
    order: &[u32],
    words: &mut [u64],
    scratch: &mut [u64],
    asorted: &mut [u32],
    astarts: &mut [u32],
    assigned: &mut [u32],
    queue: &mut [u32],
    offsets: &mut [u32],
) -> usize
    requires n_in_bounds { (column_count * n ≤ length triangles.now) × (n ≤ length handles.now) }
    requires np_in_bounds { patch_floats * np ≤ length rows.now }
    requires table { Table np n tsorted.now tstarts.now }
    requires m_le_most_triangles { (m ≤ most_triangles) × (m ≤ n) × (np ≤ most_triangles) × (m ≤ length of.now) }
    requires n_in_bounds_2 { (3 * n ≤ length numbers.now) × Numbers numbers.now n m vertices × (vertices ≤ most_rows) }
    requires np_in_bounds_2 { (np ≤ length order.now) × Below np (take np order.now) }
    requires m_in_bounds { (24 * m ≤ length words.old) × (24 * m ≤ length scratch.old) }
    requires m_in_bounds_2 { (24 * m ≤ length asorted.old) × (np < length astarts.old) }
    requires np_in_bounds_3 { (np ≤ length assigned.old) × (np ≤ length queue.old) × (np < length offsets.old) }
    requires m_in_bounds_3 { (3 * m ≤ length queue.old) × (vertices < length offsets.old) }
    ensures upper_bound { result ≤ np }
    ensures grouped { Grouped np result queue.new offsets.new }
    ensures by_index { (adj : ℕ → ℕ → Bool) → ((p q : ℕ) → p < np → q < np → is_joined numbers.now n vertices of.now m np p q ≡ adj p q) →
        groups_in queue.new offsets.new result ≡ groups_from np adj
        (takes_in triangles.now handles.now n rows.now tsorted.now tstarts.now least most)
        (take np order.now) (up_to np) }
{
    planes_links::adjacency(
        numbers,
        n,
        vertices,
        of,
        m,
        np as u32,
        words,
        scratch,
        &mut queue[..3 * m],
        offsets,
        asorted,
        astarts,
    );
    assigned.fill(0);
    grow_groups(
        triangles, handles, n, rows, np, tsorted, tstarts, least, most, asorted, astarts, order,
        assigned, queue, offsets,
    )
}

// STEP 4 of the planes: group g of the patches becomes the queue from offsets[g] to offsets[g + 1], and the number of groups is given.
// `on` is whether the angle of merging is above 0, least its cosine, most the offset. `numbers` has the number of each corner, below vertices.
pub fn merge_patches(
    triangles: &[f32],
    handles: &[u32],
    n: usize,
    m: usize,
    rows: &[f32],
    of: &[u32],
    np: usize,
    numbers: &[u32],
    vertices: usize,
    on: bool,
    least: f32,
    most: f32,
    keys: &mut [u64],
    words: &mut [u64],
    scratch: &mut [u64],
    tsorted: &mut [u32],
    tstarts: &mut [u32],
    asorted: &mut [u32],
    astarts: &mut [u32],
    order: &mut [u32],
    assigned: &mut [u32],
    queue: &mut [u32],
    offsets: &mut [u32],
) -> usize
    requires n_in_bounds { (column_count * n ≤ length triangles.now) × (n ≤ length handles.now) }
    requires m_le_most_triangles { (m ≤ most_triangles) × (m ≤ n) × (m ≤ length of.now) × (np ≤ m) }
    requires np_in_bounds { patch_floats * np ≤ length rows.now }
    requires n_in_bounds_2 { (3 * n ≤ length numbers.now) × Numbers numbers.now n m vertices × (vertices ≤ most_rows) }
    requires numbered { Numbered vertex_key triangles.now n m numbers.now }
    requires m_in_bounds { (m ≤ length keys.old) × (24 * m ≤ length words.old) × (24 * m ≤ length scratch.old) }
    requires m_in_bounds_2 { (m ≤ length tsorted.old) × (m < length tstarts.old) }
    requires m_in_bounds_3 { (24 * m ≤ length asorted.old) × (m < length astarts.old) }
    requires m_in_bounds_4 { (m ≤ length order.old) × (m ≤ length assigned.old) }
    requires m_in_bounds_5 { (3 * m ≤ length queue.old) × (m < length offsets.old) × (vertices < length offsets.old) }
    ensures upper_bound { result ≤ np }
    ensures grouped { Grouped np result queue.new offsets.new }
    ensures result_after { (s : Settings) → s.merge_on ≡ on → s.merge_cos ≡ least → s.merge_offset ≡ most → groups_in queue.new offsets.new result ≡
        groups_of s (triangles_in triangles.now handles.now n m) (patches_in rows.now of.now m np) }
    ensures rest { Open keys.old keys.new × Open words.old words.new × Open scratch.old scratch.new ×
        Open tsorted.old tsorted.new × Open tstarts.old tstarts.new × Open asorted.old asorted.new ×
        Open astarts.old astarts.new × Open order.old order.new × Open assigned.old assigned.new }
{
    planes_links::patch_rows(of, m, np as u32, words, scratch, tsorted, tstarts);
    seeds(rows, np, tsorted, tstarts, keys, words, scratch, order);
    if is_merging(on, most, np) {
        return merge(
            triangles, handles, n, m, rows, of, np, numbers, vertices, least, most, tsorted,
            tstarts, order, words, scratch, asorted, astarts, assigned, queue, offsets,
        );
    }
    each_alone(order, np, queue, offsets);
    np
}
