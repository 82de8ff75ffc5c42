// Relations between small numbers as rows in areas: which triangles a patch has, which patches a vertex has, which patches are linked.
// A pair of numbers is a word, the first above the second; the words are sorted, repeats are left out, and row r is those of the first
// number r. It takes the place of the Rust's vectors of vectors.
// A crate of its own, as each step of its group is, so that it is checked alone.
#![tactic(auto)]

ghost use Rattle.std.specs.Prelude.{◌≡◌, true, false, ◌&&◌, ◌||◌, [], ◌∷◌, ◌++◌, map, ℕ, ◌+◌, ◌*◌, ◌<◌, ◌≤◌, eqb, length, get_or, take};
ghost use Rattle.order.specs.Open.{Open};
ghost use Rattle.order.specs.Radix.{upper};
ghost use Rattle.order.specs.Sort.{Sorted};
ghost use Rattle.order.specs.Runs.{any_by, up_to};
ghost use Rattle.planes_links.specs.Words.{most_triangles, most_rows, word_of, has, uppers, lows, row_in, itself, dedup, Cut, RowBounds, LinkRows};
ghost use Rattle.planes_links.specs.Links.{is_of, has_corner, links_from, links_all, links_next, is_linked, is_joined, Numbers};
ghost use Rattle.planes_patches.specs.Lists.{filter_by};
ghost use Rattle.planes_patches.specs.Rows.{tris_in};

// How many triangles, and so patches, a scene with planes has at most: `most_triangles`.
pub const MOST_TRIANGLES: u32 = 4096;

// The same as the weight of a word's first number.
const ROW: usize = 4096;

// Up to how many patches a vertex links all to all: `most_linked`.
const MOST_LINKED: usize = 8;

// ---- rows

// Appends the word of p and q to the first k words.
fn push(words: &mut [u64], k: usize, p: u32, q: u32) -> usize
    requires k_in_bounds { k < length words.old }
    requires p_lt_most_rows { p < most_rows }
    requires q_lt_most_triangles { q < most_triangles }
    ensures value { result ≡ k + 1 }
    ensures result_after { uppers words.new result ≡ uppers words.old k ++ (word_of p q ∷ []) }
{
    words[k] = (p as usize * ROW + q as usize) as u64 * 0x1_0000_0000;
    k + 1
}

// The upper halves of words, of each run of equal ones the first alone, to sorted. Gives how many there are.
fn compact(words: &[u64], sorted: &mut [u32]) -> usize
    requires { length words.now ≤ length sorted.old }
    ensures upper_bound { result ≤ length words.now }
    ensures sorted_after { take result sorted.new ≡ dedup (map upper words.now) }
{
    let mut last: u64 = 0x1_0000_0000;
    let mut k = 0;
    for word in words {
        let w = *word >> 32;
        if w == last {
            continue;
        }
        sorted[k] = w as u32;
        last = w;
        k += 1;
    }
    k
}

// Whether there is a number at i, and it is below the bound.
fn is_before(sorted: &[u32], i: usize, bound: usize) -> bool
    ensures i_in_bounds { result ≡ true → (i < length sorted.now) × (get_or sorted.now i 0 < bound) }
    ensures at_or_past { result ≡ false → i < length sorted.now → bound ≤ get_or sorted.now i 0 }
{
    if i < sorted.len() {
        if (sorted[i] as usize) < bound {
            return true;
        }
        return false;
    }
    false
}

// Where each row starts, and after the last one where it ends.
fn row_starts(sorted: &[u32], rows: usize, offsets: &mut [u32])
    requires rows_le_most_rows { rows ≤ most_rows }
    requires rows_in_bounds { rows < length offsets.old }
    requires sorted_len_bound { length sorted.now < 4294967296 }
    requires sorted { Sorted itself sorted.now }
    ensures { (r : ℕ) → r ≤ rows → Cut sorted.now (get_or offsets.new r 0) (word_of r 0) }
{
    let mut r = 0;
    let mut i = 0;
    // A turn takes a step in one of two lists, so no `for`.
    while r <= rows {
        if is_before(sorted, i, r * ROW) {
            i += 1;
            continue;
        }
        offsets[r] = i as u32;
        r += 1;
    }
}

// The rows of a relation from its words. What words and scratch hold afterwards is open.
fn sort_rows(
    words: &mut [u64],
    scratch: &mut [u64],
    rows: usize,
    sorted: &mut [u32],
    offsets: &mut [u32],
)
    requires scratch_len { length scratch.old ≡ length words.old }
    requires words_in_bounds { length words.old ≤ length sorted.old }
    requires words_len_bound { length words.old < 4294967296 }
    requires rows_le_most_rows { rows ≤ most_rows }
    requires rows_in_bounds { rows < length offsets.old }
    ensures { LinkRows (map upper words.old) rows sorted.new offsets.new }
{
    order::sort_words(words, scratch);
    let k = compact(words, sorted);
    row_starts(&sorted[..k], rows, offsets);
}

// The rows of a relation from its words, the first k of an area.
fn make_rows(
    words: &mut [u64],
    k: usize,
    scratch: &mut [u64],
    rows: usize,
    sorted: &mut [u32],
    offsets: &mut [u32],
)
    requires k_in_bounds { k ≤ length words.old }
    requires k_in_bounds_2 { k ≤ length scratch.old }
    requires k_in_bounds_3 { k ≤ length sorted.old }
    requires k_bound { k < 4294967296 }
    requires rows_le_most_rows { rows ≤ most_rows }
    requires rows_in_bounds { rows < length offsets.old }
    ensures { LinkRows (uppers words.old k) rows sorted.new offsets.new }
{
    sort_rows(&mut words[..k], &mut scratch[..k], rows, sorted, offsets);
}

// ---- the triangles of patches

// A word for each triangle of a patch below np: the patch above the triangle.
fn patch_words(of: &[u32], m: usize, np: u32, words: &mut [u64]) -> usize
    requires m_le_most_triangles { m ≤ most_triangles }
    requires np_le_most_triangles { np ≤ most_triangles }
    requires m_in_bounds { m ≤ length of.now }
    requires m_in_bounds_2 { m ≤ length words.old }
    ensures upper_bound { result ≤ m }
    ensures by_index { (p t : ℕ) → t < most_triangles → has (word_of p t) (uppers words.new result) ≡ any_by (λ i. eqb t i && is_of of.now np p i) (up_to m) }
{
    let mut k = 0;
    for i in 0..m {
        let p = of[i];
        let t = i as u32;
        if p >= np {
            continue;
        }
        k = push(words, k, p, t);
    }
    k
}

// The triangles of each patch, rising.
pub fn patch_rows(
    of: &[u32],
    m: usize,
    np: u32,
    words: &mut [u64],
    scratch: &mut [u64],
    sorted: &mut [u32],
    starts: &mut [u32],
)
    requires m_le_most_triangles { m ≤ most_triangles }
    requires np_le_most_triangles { np ≤ most_triangles }
    requires m_in_bounds { m ≤ length of.now }
    requires m_in_bounds_2 { m ≤ length words.old }
    requires m_in_bounds_3 { m ≤ length scratch.old }
    requires m_in_bounds_4 { m ≤ length sorted.old }
    requires np_in_bounds { np < length starts.old }
    ensures row_bounds { RowBounds np sorted.new starts.new }
    ensures by_index { (p : ℕ) → p < np → row_in sorted.new starts.new p ≡ tris_in of.now m p }
    ensures rest { Open words.old words.new × Open scratch.old scratch.new }
{
    let k = patch_words(of, m, np, words);
    make_rows(words, k, scratch, np as usize, sorted, starts);
}

// ---- the patches of vertices, and which of them are linked

// `verts`: a word for each corner of a triangle of a patch below np: the corner's number above the patch.
fn vertex_words(
    numbers: &[u32],
    n: usize,
    of: &[u32],
    m: usize,
    np: u32,
    words: &mut [u64],
) -> usize
    requires np_le_most_triangles { np ≤ most_triangles }
    requires m_le_most_triangles { m ≤ most_triangles }
    requires m_le_n { m ≤ n }
    requires n_in_bounds { 3 * n ≤ length numbers.now }
    requires numbers { Numbers numbers.now n m most_rows }
    requires m_in_bounds { m ≤ length of.now }
    requires m_in_bounds_2 { 3 * m ≤ length words.old }
    ensures upper_bound { result ≤ 3 * m }
    ensures by_index { (v q : ℕ) → q < most_triangles →
        has (word_of v q) (uppers words.new result) ≡ any_by (has_corner numbers.now n of.now np v q) (up_to m) }
{
    let mut k = 0;
    for i in 0..m {
        let p = of[i];
        let a = numbers[i];
        let b = numbers[n + i];
        let c = numbers[2 * n + i];
        if p >= np {
            continue;
        }
        k = push(words, k, a, p);
        k = push(words, k, b, p);
        k = push(words, k, c, p);
    }
    k
}

// Links p to all others of a row.
fn link_from(p: u32, row: &[u32], words: &mut [u64], from: usize) -> usize
    requires p_lt_most_triangles { p < most_triangles }
    requires row_in_bounds { from + length row.now ≤ length words.old }
    ensures upper_bound { result ≤ from + length row.now }
    ensures by_index { (a b : ℕ) → b < most_triangles →
        has (word_of a b) (uppers words.new result) ≡ has (word_of a b) (uppers words.old from) || links_from p (lows row.now) a b }
{
    let mut k = from;
    for patch in row {
        let q = *patch % MOST_TRIANGLES;
        if q == p {
            continue;
        }
        k = push(words, k, p, q);
    }
    k
}

// Links a row all to all.
fn link_all(row: &[u32], words: &mut [u64], from: usize) -> usize
    requires row_len_bound { length row.now ≤ 8 }
    requires row_in_bounds { from + 8 * length row.now ≤ length words.old }
    ensures upper_bound { result ≤ from + 8 * length row.now }
    ensures by_index { (a b : ℕ) → b < most_triangles →
        has (word_of a b) (uppers words.new result) ≡ has (word_of a b) (uppers words.old from) || links_all (lows row.now) a b }
{
    let mut k = from;
    for patch in row {
        let p = *patch % MOST_TRIANGLES;
        k = link_from(p, row, words, k);
    }
    k
}

// Links each of a row to the next.
fn link_neighbours(row: &[u32], words: &mut [u64], from: usize) -> usize
    requires { from + 8 * length row.now ≤ length words.old }
    ensures upper_bound { result ≤ from + 8 * length row.now }
    ensures by_index { (a b : ℕ) → b < most_triangles →
        has (word_of a b) (uppers words.new result) ≡ has (word_of a b) (uppers words.old from) || links_next (lows row.now) a b }
{
    let mut k = from;
    for i in 1..row.len() {
        let p = row[i - 1] % MOST_TRIANGLES;
        let q = row[i] % MOST_TRIANGLES;
        k = push(words, k, p, q);
        k = push(words, k, q, p);
    }
    k
}

// Links the patches of one vertex.
fn link_row(row: &[u32], words: &mut [u64], from: usize) -> usize
    requires { from + 8 * length row.now ≤ length words.old }
    ensures upper_bound { result ≤ from + 8 * length row.now }
    ensures by_index { (a b : ℕ) → b < most_triangles →
        has (word_of a b) (uppers words.new result) ≡ has (word_of a b) (uppers words.old from) || is_linked (lows row.now) a b }
{
    if row.len() <= MOST_LINKED {
        return link_all(row, words, from);
    }
    link_neighbours(row, words, from)
}

// Links the patches of each vertex.
fn link_rows(sorted: &[u32], offsets: &[u32], rows: usize, words: &mut [u64]) -> usize
    requires rows_in_bounds { rows < length offsets.now }
    requires row_bounds { RowBounds rows sorted.now offsets.now }
    requires sorted_in_bounds { 8 * length sorted.now ≤ length words.old }
    ensures upper_bound { result ≤ 8 * length sorted.now }
    ensures by_index { (a b : ℕ) → b < most_triangles →
        has (word_of a b) (uppers words.new result) ≡ any_by (λ v. is_linked (row_in sorted.now offsets.now v) a b) (up_to rows) }
{
    let mut k = 0;
    for v in 0..rows {
        let a = offsets[v] as usize;
        let b = offsets[v + 1] as usize;
        k = link_row(&sorted[a..b], words, k);
    }
    k
}

// `adj`: the patches that each patch shares a vertex with that links them, rising. vsorted and vstarts become the patches of each vertex.
pub fn adjacency(
    numbers: &[u32],
    n: usize,
    vertices: usize,
    of: &[u32],
    m: usize,
    np: u32,
    words: &mut [u64],
    scratch: &mut [u64],
    vsorted: &mut [u32],
    vstarts: &mut [u32],
    sorted: &mut [u32],
    starts: &mut [u32],
)
    requires np_le_most_triangles { np ≤ most_triangles }
    requires m_le_most_triangles { m ≤ most_triangles }
    requires m_le_n { m ≤ n }
    requires n_in_bounds { 3 * n ≤ length numbers.now }
    requires numbers { Numbers numbers.now n m vertices }
    requires vertices_le_most_rows { vertices ≤ most_rows }
    requires m_in_bounds { m ≤ length of.now }
    requires vsorted_len { length vsorted.old ≡ 3 * m }
    requires vertices_in_bounds { vertices < length vstarts.old }
    requires m_in_bounds_2 { 24 * m ≤ length words.old }
    requires m_in_bounds_3 { 24 * m ≤ length scratch.old }
    requires m_in_bounds_4 { 24 * m ≤ length sorted.old }
    requires np_in_bounds { np < length starts.old }
    ensures row_bounds { RowBounds np sorted.new starts.new }
    ensures by_index { (p : ℕ) → p < np →
        row_in sorted.new starts.new p ≡ filter_by (is_joined numbers.now n vertices of.now m np p) (up_to np) }
    ensures rest { Open words.old words.new × Open scratch.old scratch.new × Open vsorted.old vsorted.new ×
        Open vstarts.old vstarts.new }
{
    let k = vertex_words(numbers, n, of, m, np, words);
    make_rows(words, k, scratch, vertices, vsorted, vstarts);
    let links = link_rows(vsorted, vstarts, vertices, words);
    make_rows(words, links, scratch, np as usize, sorted, starts);
}
