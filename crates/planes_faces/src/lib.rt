// Duplicate faces of a scene, the first step of the mirror planes: the first triangle with the three vertices of each, in any order
// and winding. A vertex is its corner in steps of 1 mm. In place of the Rust's map from keys, keys are sorted and their runs walked.
// A crate of its own, as each step of its group is, so that it is checked alone.
#![tactic(auto)]

ghost use Rattle.std.specs.Prelude.{◌≡◌, Bool, ℕ, ◌+◌, ◌*◌, ◌/◌, ◌%◌, ◌<◌, ◌≤◌, eqb, length, get_or};
ghost use Rattle.std.specs.Float.{binary32};
ghost use Rattle.std.specs.Float.Ieee.{of_fields};
ghost use Rattle.order.specs.Open.{Open};
ghost use Rattle.order.specs.Sort.{Below};
ghost use Rattle.order.specs.Runs.{head_or, first_at, start_of_run, run_starts};
ghost use Rattle.columns.specs.Columns.{column_count, vec_at_of};
ghost use Rattle.planes_faces.specs.Whole.{whole_of, size_of, place_of};
ghost use Rattle.planes_faces.specs.Key.{step_of, key_by, vertex_key};
ghost use Rattle.planes_faces.specs.Triples.{lesser, greater, lowest, middle, highest, packed3};
ghost use Rattle.planes_faces.specs.Numbers.{key_at, number_of, is_new_at, Numbered};
ghost use Rattle.planes_faces.specs.Faces.{is_first, faces_in};

// ---- the first index of each key

// The first of the run that x is in, start being the first of the run of the element before it.
fn run_start(keys: &[u64], low_keys: &[u64], start: u32, x: u32) -> u32
    requires low_keys_len { length low_keys.now ≡ length keys.now }
    requires below { Below 4294967296 low_keys.now }
    requires start_in_bounds { start < length keys.now }
    requires x_in_bounds { x < length keys.now }
    ensures { result ≡ start_of_run (key_at keys.now low_keys.now) start x }
{
    let l = start as usize;
    let i = x as usize;
    if keys[i] == keys[l] {
        if low_keys[i] == low_keys[l] {
            return start;
        }
    }
    x
}

// Stores at each element of index, a sorted list, the first of its run.
fn mark_run_starts(keys: &[u64], low_keys: &[u64], index: &[u32], first: &mut [u32])
    requires low_keys_len { length low_keys.now ≡ length keys.now }
    requires below { Below 4294967296 low_keys.now }
    requires keys_in_bounds { length keys.now ≤ length first.old }
    requires below_2 { Below (length keys.now) index.now }
    ensures { first.new ≡
        run_starts (key_at keys.now low_keys.now) (head_or 0 index.now) index.now first.old }
{
    if index.len() == 0 {
        return;
    }
    let mut start = index[0];
    for x in index {
        start = run_start(keys, low_keys, start, *x);
        first[*x as usize] = start;
    }
}

// first[i] becomes the first j with the key of i: keys[i] and, below it, low_keys[i]. Two stable sorts, then a walk over the runs.
pub fn first_indexes(
    keys: &[u64],
    low_keys: &[u64],
    index: &mut [u32],
    words: &mut [u64],
    scratch: &mut [u64],
    first: &mut [u32],
)
    requires keys_len_bound { length keys.now ≤ 4294967296 }
    requires low_keys_len { length low_keys.now ≡ length keys.now }
    requires below { Below 4294967296 low_keys.now }
    requires index_len { length index.old ≡ length keys.now }
    requires keys_in_bounds { length keys.now ≤ length words.old }
    requires keys_in_bounds_2 { length keys.now ≤ length scratch.old }
    requires keys_in_bounds_3 { length keys.now ≤ length first.old }
    ensures firsts { (i : ℕ) → i < length keys.now → get_or first.new i 0 ≡ first_at (key_at keys.now low_keys.now) i }
    ensures rest { Open index.old index.new × Open words.old words.new × Open scratch.old scratch.new }
{
    order::count_up(index);
    order::sort_by_key(low_keys, index, words, scratch);
    order::sort_by_key(keys, index, words, scratch);
    mark_run_starts(keys, low_keys, index, first);
}

// ---- three numbers, sorted

pub fn lower(a: u32, b: u32) -> u32
    ensures { result ≡ lesser a b }
{
    if a <= b { a } else { b }
}

pub fn higher(a: u32, b: u32) -> u32
    ensures { result ≡ greater a b }
{
    if a <= b { b } else { a }
}

// x above y
fn pair(x: u32, y: u32) -> u64
    ensures { result ≡ x * 4294967296 + y }
{
    x as u64 * 0x1_0000_0000 + y as u64
}

// The lowest of three above the middle one.
fn face_hi(a: u32, b: u32, c: u32) -> u64
    ensures { result ≡ lowest a b c * 4294967296 + middle a b c }
{
    let p = lower(a, b);
    let q = higher(a, b);
    let low = lower(p, c);
    let rest = lower(q, c);
    let mid = higher(p, rest);
    low as u64 * 0x1_0000_0000 + mid as u64
}

// The highest of three.
fn face_lo(a: u32, b: u32, c: u32) -> u64
    ensures { (result ≡ highest a b c) × (result < 4294967296) }
{
    let q = higher(a, b);
    let high = higher(q, c);
    high as u64
}

// ---- faces by the numbers of their corners

// The keys of n faces, from the numbers of their corners: corner c of face i stands at c * n + i.
fn face_keys(numbers: &[u32], n: usize, keys: &mut [u64], low_keys: &mut [u64])
    requires n_in_bounds { 3 * n ≤ length numbers.now }
    requires keys_len { length keys.old ≡ n }
    requires low_keys_len { length low_keys.old ≡ n }
    ensures below { Below 4294967296 low_keys.new }
    ensures by_index { (i : ℕ) → i < n → key_at keys.new low_keys.new i ≡
        packed3 (get_or numbers.now i 0) (get_or numbers.now (n + i) 0) (get_or numbers.now (2 * n + i) 0) }
{
    for i in 0..n {
        let a = numbers[i];
        let b = numbers[n + i];
        let c = numbers[2 * n + i];
        keys[i] = face_hi(a, b, c);
        low_keys[i] = face_lo(a, b, c);
    }
}

// first[i] becomes i exactly where no earlier triangle has the three corner keys of triangle i, in any order. `numbers` becomes the number
// of each corner: the first corner with its key. Once they are known the corner keys are dead, and the face keys take their place.
fn first_faces(
    vhi: &mut [u64],
    vlo: &mut [u64],
    n: usize,
    index: &mut [u32],
    words: &mut [u64],
    scratch: &mut [u64],
    numbers: &mut [u32],
    first: &mut [u32],
)
    requires n_bound { 3 * n ≤ 4294967296 }
    requires vhi_len { length vhi.old ≡ 3 * n }
    requires vlo_len { length vlo.old ≡ 3 * n }
    requires below { Below 4294967296 vlo.old }
    requires index_len { length index.old ≡ 3 * n }
    requires n_in_bounds { 3 * n ≤ length words.old }
    requires n_in_bounds_2 { 3 * n ≤ length scratch.old }
    requires n_in_bounds_3 { 3 * n ≤ length numbers.old }
    requires n_in_bounds_4 { n ≤ length first.old }
    ensures by_index { (c : ℕ) → c < 3 * n → get_or numbers.new c 0 ≡ first_at (key_at vhi.old vlo.old) c }
    ensures by_index_2 { (i : ℕ) → i < n → eqb (get_or first.new i 0) i ≡ is_new_at (key_at vhi.old vlo.old) n i }
{
    first_indexes(vhi, vlo, index, words, scratch, numbers);
    face_keys(numbers, n, &mut vhi[..n], &mut vlo[..n]);
    first_indexes(&vhi[..n], &vlo[..n], &mut index[..n], words, scratch, first);
}

// ---- keys of corners

// The size of the whole number nearest to the float of a pattern without sign, held to 2^31.
fn magnitude(i: u32) -> u32
    requires { i ≤ 2139095040 }
    ensures { ((s : Bool) → size_of (of_fields binary32 s (i / 8388608) (i % 8388608)) ≡ result) × (result ≤ 2147483648) }
{
    let e = i / 0x80_0000;
    if e < 126 {
        return 0;
    }
    if e < 158 {
        let m = (0x80_0000 + i % 0x80_0000) as u64;
        let k = (e - 126) as u64;
        let moved = m << k;
        return ((moved + 0x80_0000) / 0x100_0000) as u32;
    }
    0x8000_0000
}

// `x.round() as i32`, plus 2^31.
pub fn whole(x: f32) -> u32
    ensures { result ≡ place_of (whole_of x) }
{
    if x != x {
        return 0x8000_0000;
    }
    let i = f32::to_bits(x);
    if i < 0x8000_0000 {
        let m = magnitude(i);
        if m == 0x8000_0000 {
            return 0xffff_ffff;
        }
        return 0x8000_0000 + m;
    }
    let m = magnitude(i - 0x8000_0000);
    0x8000_0000 - m
}

fn step(x: f32, scale: f32) -> u32
    ensures { result ≡ step_of scale x }
{
    whole(x * scale)
}

// The keys of n points whose parts stand from `at` on, to the places from `put` on.
fn point_keys(
    triangles: &[f32],
    n: usize,
    at: usize,
    put: usize,
    scale: f32,
    keys: &mut [u64],
    low_keys: &mut [u64],
)
    requires n_in_bounds { at + 3 * n ≤ length triangles.now }
    requires n_in_bounds_2 { put + n ≤ length keys.old }
    requires n_in_bounds_3 { put + n ≤ length low_keys.old }
    ensures by_index { (j : ℕ) → j < n →
        key_at keys.new low_keys.new (put + j) ≡ number_of (key_by scale (vec_at_of triangles.now n (j + at))) }
    ensures by_index_2 { (j : ℕ) → j < n → get_or low_keys.new (put + j) 0 < 4294967296 }
    ensures by_index_3 { (q : ℕ) → q < put → get_or keys.new q 0 ≡ get_or keys.old q 0 }
    ensures by_index_4 { (q : ℕ) → q < put → get_or low_keys.new q 0 ≡ get_or low_keys.old q 0 }
{
    for i in 0..n {
        let x = step(triangles[i + at], scale);
        let y = step(triangles[i + at + n], scale);
        let z = step(triangles[i + at + 2 * n], scale);
        keys[put + i] = pair(x, y);
        low_keys[put + i] = z as u64;
    }
}

// The keys of all corners in steps of 1 / scale: corner c of triangle i goes to c * n + i.
fn corner_keys(triangles: &[f32], n: usize, scale: f32, keys: &mut [u64], low_keys: &mut [u64])
    requires n_in_bounds { 9 * n ≤ length triangles.now }
    requires keys_len { length keys.old ≡ 3 * n }
    requires low_keys_len { length low_keys.old ≡ 3 * n }
    ensures below { Below 4294967296 low_keys.new }
    ensures by_index { (i : ℕ) → i < n → key_at keys.new low_keys.new i ≡ number_of (key_by scale (vec_at_of triangles.now n i)) }
    ensures by_index_2 { (i : ℕ) → i < n →
        key_at keys.new low_keys.new (n + i) ≡ number_of (key_by scale (vec_at_of triangles.now n (i + 3 * n))) }
    ensures by_index_3 { (i : ℕ) → i < n →
        key_at keys.new low_keys.new (2 * n + i) ≡ number_of (key_by scale (vec_at_of triangles.now n (i + 6 * n))) }
{
    point_keys(triangles, n, 0, 0, scale, keys, low_keys);
    point_keys(triangles, n, 3 * n, n, scale, keys, low_keys);
    point_keys(triangles, n, 6 * n, 2 * n, scale, keys, low_keys);
}

// The corners of n triangles by number: equal numbers where they lie in one step of 1 / scale.
pub fn corner_numbers(
    triangles: &[f32],
    n: usize,
    scale: f32,
    keys: &mut [u64],
    low_keys: &mut [u64],
    index: &mut [u32],
    words: &mut [u64],
    scratch: &mut [u64],
    numbers: &mut [u32],
)
    requires n_bound { 3 * n ≤ 4294967296 }
    requires n_in_bounds { 9 * n ≤ length triangles.now }
    requires keys_len { length keys.old ≡ 3 * n }
    requires low_keys_len { length low_keys.old ≡ 3 * n }
    requires index_len { length index.old ≡ 3 * n }
    requires n_in_bounds_2 { 3 * n ≤ length words.old }
    requires n_in_bounds_3 { 3 * n ≤ length scratch.old }
    requires n_in_bounds_4 { 3 * n ≤ length numbers.old }
    ensures numbers { Numbered (key_by scale) triangles.now n n numbers.new }
    ensures rest { Open keys.old keys.new × Open low_keys.old low_keys.new × Open index.old index.new ×
        Open words.old words.new × Open scratch.old scratch.new }
{
    corner_keys(triangles, n, scale, keys, low_keys);
    first_indexes(keys, low_keys, index, words, scratch, numbers);
}

// STEP 1 of the planes: first[i] becomes i exactly where no earlier triangle has the same vertices, and `numbers` those of the vertices.
pub fn duplicates(
    triangles: &[f32],
    n: usize,
    vhi: &mut [u64],
    vlo: &mut [u64],
    index: &mut [u32],
    words: &mut [u64],
    scratch: &mut [u64],
    numbers: &mut [u32],
    first: &mut [u32],
)
    requires n_bound { 3 * n ≤ 4294967296 }
    requires n_in_bounds { column_count * n ≤ length triangles.now }
    requires vhi_len { length vhi.old ≡ 3 * n }
    requires vlo_len { length vlo.old ≡ 3 * n }
    requires index_len { length index.old ≡ 3 * n }
    requires n_in_bounds_2 { 3 * n ≤ length words.old }
    requires n_in_bounds_3 { 3 * n ≤ length scratch.old }
    requires n_in_bounds_4 { 3 * n ≤ length numbers.old }
    requires n_in_bounds_5 { n ≤ length first.old }
    ensures by_index { (i : ℕ) → i < n → eqb (get_or first.new i 0) i ≡ is_first (faces_in triangles.now n) i }
    ensures numbered { Numbered vertex_key triangles.now n n numbers.new }
    ensures rest { Open vhi.old vhi.new × Open vlo.old vlo.new × Open index.old index.new ×
        Open words.old words.new × Open scratch.old scratch.new }
{
    corner_keys(triangles, n, 1000.0, vhi, vlo);
    first_faces(vhi, vlo, n, index, words, scratch, numbers, first);
}
