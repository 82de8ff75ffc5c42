// The borders of planes: the edges that no other edge of the plane's triangles lies on. In place of the Rust's map from edges to counts,
// the edges of all planes are sorted by their ends (`planes_faces::first_indexes`), and each counts at the first that lies on it.
// A crate of its own, as each step of its group is, so that it is checked alone.
#![tactic(auto)]

ghost use Rattle.std.specs.Prelude.{◌≡◌, ℕ, ◌+◌, ◌*◌, ◌/◌, ◌<◌, ◌≤◌, Float, length, get_or, set, List, []};
ghost use Rattle.std.specs.Float.{nan};
ghost use Rattle.columns.specs.Columns.{vec_at_of};
ghost use Rattle.order.specs.Open.{Open};
ghost use Rattle.order.specs.Sort.{Below};
ghost use Rattle.planes_faces.specs.Triples.{lesser, greater};
ghost use Rattle.planes_faces.specs.Numbers.{key_at, Numbered};
ghost use Rattle.planes_patches.specs.Lists.{keep_if};
ghost use Rattle.planes_patches.specs.Rows.{Beside};
ghost use Rattle.mirror.specs.Rows.{edge_floats, vec_of_floats, edge_in};
ghost use Rattle.planes_borders.specs.Border.{edge_key};
ghost use Rattle.planes_borders.specs.Uses.{side_number, count_in, is_once_in, OnceCounted, edge_at, border_sides, border_in, Appended};

// ---- which edges are used once

// The corners of n triangles by number: equal numbers where `key` has them equal, at 0.1 mm.
pub fn edge_numbers(
    triangles: &[f32],
    n: usize,
    keys: &mut [u64],
    low_keys: &mut [u64],
    index: &mut [u32],
    words: &mut [u64],
    scratch: &mut [u64],
    numbers: &mut [u32],
)
    requires n_bound { (3 * n ≤ 4294967296) × (9 * n ≤ length triangles.now) }
    requires keys_len { (length keys.old ≡ 3 * n) × (length low_keys.old ≡ 3 * n) × (length index.old ≡ 3 * n) }
    requires n_in_bounds { (3 * n ≤ length words.old) × (3 * n ≤ length scratch.old) × (3 * n ≤ length numbers.old) }
    ensures numbers { Numbered edge_key triangles.now n n numbers.new }
    ensures rest { Open keys.old keys.new × Open low_keys.old low_keys.new × Open index.old index.new ×
        Open words.old words.new × Open scratch.old scratch.new }
{
    planes_faces::corner_numbers(
        triangles, n, 10000.0, keys, low_keys, index, words, scratch, numbers,
    );
}

// Stores the key of an edge between the corners p and q of a plane.
fn put_key(keys: &mut [u64], low_keys: &mut [u64], e: usize, plane: u32, p: u32, q: u32)
    requires { (e < length keys.old) × (e < length low_keys.old) }
    ensures keys_after { keys.new ≡ set keys.old e (plane * 4294967296 + lesser p q) }
    ensures low_keys_after { low_keys.new ≡ set low_keys.old e (greater p q) }
    ensures q_bound { greater p q < 4294967296 }
{
    let l = planes_faces::lower(p, q);
    let h = planes_faces::higher(p, q);
    keys[e] = plane as u64 * 0x1_0000_0000 + l as u64;
    low_keys[e] = h as u64;
}

// Stores the keys of the edges of m triangles: edge 3 t + j is side j of triangle t.
fn edge_keys(
    numbers: &[u32],
    n: usize,
    of: &[u32],
    m: usize,
    keys: &mut [u64],
    low_keys: &mut [u64],
)
    requires n_in_bounds { 3 * n ≤ length numbers.now }
    requires m_le_n { (m ≤ n) × (m ≤ length of.now) }
    requires keys_len { (length keys.old ≡ 3 * m) × (length low_keys.old ≡ 3 * m) }
    ensures below { Below 4294967296 low_keys.new }
    ensures by_index { (t j : ℕ) → t < m → j < 3 →
        key_at keys.new low_keys.new (3 * t + j) ≡ side_number numbers.now n of.now t j }
{
    for t in 0..m {
        let a = numbers[t];
        let b = numbers[n + t];
        let c = numbers[2 * n + t];
        let plane = of[t];
        put_key(keys, low_keys, 3 * t, plane, a, b);
        put_key(keys, low_keys, 3 * t + 1, plane, b, c);
        put_key(keys, low_keys, 3 * t + 2, plane, c, a);
    }
}

// Counts the edges at the first edge of each.
fn count_uses(first: &[u32], uses: &mut [u32])
    requires uses_len { length uses.old ≡ length first.now }
    requires first_len_bound { length first.now < 4294967296 }
    requires below { Below (length first.now) first.now }
    ensures { (k : ℕ) → k < length first.now → get_or uses.new k 0 ≡ count_in first.now k (length first.now) }
{
    uses.fill(0);
    for edge in first {
        let k = *edge as usize;
        uses[k] = uses[k] + 1;
    }
}

// first[3 t + j] becomes the first edge with the ends and the plane of side j of triangle t, and uses counts the edges there. `numbers` has the
// numbers of corners by the key of edges, of[t] the plane of triangle t.
pub fn count_edges(
    numbers: &[u32],
    n: usize,
    of: &[u32],
    m: usize,
    keys: &mut [u64],
    low_keys: &mut [u64],
    index: &mut [u32],
    words: &mut [u64],
    scratch: &mut [u64],
    first: &mut [u32],
    uses: &mut [u32],
)
    requires n_in_bounds { (3 * n ≤ length numbers.now) × (3 * n ≤ 4294967296) × (3 * m < 4294967296) }
    requires m_le_n { (m ≤ n) × (m ≤ length of.now) }
    requires keys_len { (length keys.old ≡ 3 * m) × (length low_keys.old ≡ 3 * m) }
    requires index_len { (length index.old ≡ 3 * m) × (3 * m ≤ length words.old) × (3 * m ≤ length scratch.old) }
    requires first_len { (length first.old ≡ 3 * m) × (length uses.old ≡ 3 * m) }
    ensures below { Below (3 * m) first.new }
    ensures once_counted { (area : List Float) (k : ℕ) → m ≤ k → Numbered edge_key area n k numbers.now →
        OnceCounted area n of.now m first.new uses.new }
    ensures rest { Open keys.old keys.new × Open low_keys.old low_keys.new × Open index.old index.new ×
        Open words.old words.new × Open scratch.old scratch.new }
{
    edge_keys(numbers, n, of, m, keys, low_keys);
    planes_faces::first_indexes(keys, low_keys, index, words, scratch, first);
    count_uses(first, uses);
}

// ---- the border of a plane

fn is_once(first: &[u32], uses: &[u32], e: usize) -> bool
    requires e_in_bounds { e < length first.now }
    requires below { Below (length uses.now) first.now }
    ensures { result ≡ is_once_in first.now uses.now e }
{
    let k = first[e] as usize;
    uses[k] == 1
}

// Copies the corner whose x stands at p.
fn put_point(triangles: &[f32], n: usize, p: usize, plane_edges: &mut [f32], at: usize)
    requires n_in_bounds { p + 2 * n < length triangles.now }
    requires at_in_bounds { at + 3 ≤ length plane_edges.old }
    ensures at_after { vec_of_floats plane_edges.new at ≡ vec_at_of triangles.now n p }
    ensures beside { Beside at 3 plane_edges.old plane_edges.new }
{
    plane_edges[at] = triangles[p];
    plane_edges[at + 1] = triangles[p + n];
    plane_edges[at + 2] = triangles[p + 2 * n];
}

// Stores edge number k.
fn put_edge(triangles: &[f32], n: usize, p: usize, q: usize, plane_edges: &mut [f32], k: usize)
    requires n_in_bounds { (p + 2 * n < length triangles.now) × (q + 2 * n < length triangles.now) }
    requires edge_floats_in_bounds { edge_floats * k + edge_floats ≤ length plane_edges.old }
    ensures k_after { edge_in plane_edges.new k ≡ edge_at triangles.now n p q }
    ensures beside { Beside (edge_floats * k) edge_floats plane_edges.old plane_edges.new }
{
    put_point(triangles, n, p, plane_edges, 6 * k);
    put_point(triangles, n, q, plane_edges, 6 * k + 3);
}

// Stores edge e at edge number k, if it is used once; gives the next number.
fn put_side(
    triangles: &[f32],
    n: usize,
    p: usize,
    q: usize,
    e: usize,
    first: &[u32],
    uses: &[u32],
    plane_edges: &mut [f32],
    k: usize,
) -> usize
    requires n_in_bounds { (p + 2 * n < length triangles.now) × (q + 2 * n < length triangles.now) }
    requires e_in_bounds { (e < length first.now) × Below (length uses.now) first.now }
    requires edge_floats_in_bounds { edge_floats * k + edge_floats ≤ length plane_edges.old }
    ensures upper_bound { result ≤ k + 1 }
    ensures appended { Appended plane_edges.old plane_edges.new k result
        (keep_if (is_once_in first.now uses.now e) (edge_at triangles.now n p q) []) }
{
    if is_once(first, uses, e) {
        put_edge(triangles, n, p, q, plane_edges, k);
        return k + 1;
    }
    k
}

// Stores the sides of triangle t that are used once.
fn put_sides(
    triangles: &[f32],
    n: usize,
    t: usize,
    first: &[u32],
    uses: &[u32],
    plane_edges: &mut [f32],
    k: usize,
) -> usize
    requires t_lt_n { (t < n) × (9 * n ≤ length triangles.now) }
    requires t_in_bounds { (3 * t + 3 ≤ length first.now) × Below (length uses.now) first.now }
    requires k_in_bounds { edge_floats * (k + 3) ≤ length plane_edges.old }
    ensures upper_bound { result ≤ k + 3 }
    ensures appended { Appended plane_edges.old plane_edges.new k result
        (border_sides triangles.now n first.now uses.now t) }
{
    let ab = put_side(
        triangles,
        n,
        t,
        t + 3 * n,
        3 * t,
        first,
        uses,
        plane_edges,
        k,
    );
    let bc = put_side(
        triangles,
        n,
        t + 3 * n,
        t + 6 * n,
        3 * t + 1,
        first,
        uses,
        plane_edges,
        ab,
    );
    put_side(
        triangles,
        n,
        t + 6 * n,
        t,
        3 * t + 2,
        first,
        uses,
        plane_edges,
        bc,
    )
}

// `boundary`: stores the edges of a plane that are used once from edge number `at` on; gives the number after the last. tris are the
// plane's triangles.
pub fn put_border(
    triangles: &[f32],
    n: usize,
    tris: &[u32],
    first: &[u32],
    uses: &[u32],
    plane_edges: &mut [f32],
    at: usize,
) -> usize
    requires n_in_bounds { (9 * n ≤ length triangles.now) × (length first.now ≤ 3 * n) }
    requires below { Below (length first.now / 3) tris.now }
    requires below_2 { Below (length uses.now) first.now }
    requires tris_in_bounds { edge_floats * (at + 3 * length tris.now) ≤ length plane_edges.old }
    ensures upper_bound { result ≤ at + 3 * length tris.now }
    ensures appended { Appended plane_edges.old plane_edges.new at result
        (border_in triangles.now n first.now uses.now tris.now) }
{
    let mut r = at;
    for t in tris {
        r = put_sides(triangles, n, *t as usize, first, uses, plane_edges, r);
    }
    r
}
