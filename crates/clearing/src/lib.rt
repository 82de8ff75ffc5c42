// The work areas of a query become zero: "6, 7 and every result leave them zero".
// An area is read before it is written: what is zero already stays as it is, so that memory that no query has reached is not written, and pages
// that the system lends as zero stay so. Two runs are read in turn, half an area apart: while the address of the one's next page is looked up,
// the other's is read.
#![tactic(auto)]

ghost use Rattle.std.specs.Prelude.{◌+◌, ◌≤◌, ◌≡◌, length, replicate, true};
ghost use Rattle.std.specs.Float.{nan};
ghost use Rattle.float.specs.Literals.{zero32};
ghost use Rattle.clearing.specs.Zero.{Zeros, ZeroFloats, SceneZero};
ghost use Rattle.clearing.specs.Runs.{Run, Wiped, WipedBoth};

// How many elements of each run are tested at once.
const SPAN: usize = 64;

const QUARTER: usize = 16;

// Of both runs.
const PAIR: usize = 128;

// ---- any element

// What an area is cleared to, and a test of two runs of it at once.
trait Clear: Copy {
    ghost zero: { Self };

    // What is read of an area past its end.
    ghost past: { Self };

    fn zero() -> Self
        ensures { result ≡ zero };

    // True only where the 64 from `near` on and the 64 from `far` on are zero.
    fn are_zero(area: &[Self], near: usize, far: usize) -> bool
        requires { (near + 64 ≤ length area.now) × (far + 64 ≤ length area.now) }
        ensures { result ≡ true → Run zero past area.now near 64 × Run zero past area.now far 64 };
}

fn blank<T: Clear>(area: &mut [T], from: usize, to: usize)
    requires { (from ≤ to) × (to ≤ length area.old) }
    ensures { Wiped T.zero T.past area.old area.new from to }
{
    for i in from..to {
        area[i] = T::zero();
    }
}

fn wipe_both<T: Clear>(area: &mut [T], near: usize, far: usize)
    requires { (near + 64 ≤ length area.old) × (far + 64 ≤ length area.old) }
    ensures { WipedBoth T.zero T.past area.old area.new near far }
{
    if T::are_zero(area, near, far) {
        return;
    }
    blank(area, near, near + SPAN);
    blank(area, far, far + SPAN);
}

fn wipe<T: Clear>(area: &mut [T])
    ensures { area.new ≡ replicate (length area.old) T.zero }
{
    let m = area.len() / PAIR;
    for k in 0..m {
        wipe_both(area, SPAN * k, SPAN * (m + k));
    }
    blank(area, PAIR * m, area.len());
}

// ---- u64: `|` of a type parameter says nothing of the bits, so the whole numbers have a test each

// Zero only where the 64 from `near` on and the 64 from `far` on are.
fn marks_u64(area: &[u64], near: usize, far: usize) -> u64
    requires { (near + 64 ≤ length area.now) × (far + 64 ≤ length area.now) }
    ensures { result ≡ 0 → Run 0 0 area.now near 64 × Run 0 0 area.now far 64 }
{
    let mut marks: u64 = 0;
    for k in 0..SPAN {
        marks |= area[near + k] | area[far + k];
    }
    marks
}

impl Clear for u64 {
    ghost zero = { 0 };

    ghost past = { 0 };

    fn zero() -> u64 {
        0
    }

    fn are_zero(area: &[u64], near: usize, far: usize) -> bool {
        marks_u64(area, near, far) == 0
    }
}

// ---- u32

// Zero only where the 64 from `near` on and the 64 from `far` on are.
fn marks_u32(area: &[u32], near: usize, far: usize) -> u32
    requires { (near + 64 ≤ length area.now) × (far + 64 ≤ length area.now) }
    ensures { result ≡ 0 → Run 0 0 area.now near 64 × Run 0 0 area.now far 64 }
{
    let mut marks: u32 = 0;
    for k in 0..SPAN {
        marks |= area[near + k] | area[far + k];
    }
    marks
}

impl Clear for u32 {
    ghost zero = { 0 };

    ghost past = { 0 };

    fn zero() -> u32 {
        0
    }

    fn are_zero(area: &[u32], near: usize, far: usize) -> bool {
        marks_u32(area, near, far) == 0
    }
}

// ---- f32

// Zero only where all eight are +0. A sum is -0 only where both its parts are, so the chain ends at -0 only where nothing but +0 was taken off
// (proofs/MinusZero.antt): one test for a NaN, of which no bits are had, serves eight floats.
fn mark(a: f32, b: f32, c: f32, d: f32, e: f32, f: f32, g: f32, h: f32) -> u32
    ensures { result ≡ 0 → (a ≡ zero32) × (b ≡ zero32) × (c ≡ zero32) × (d ≡ zero32) × (e ≡ zero32) × (f ≡ zero32) × (g ≡ zero32) × (h ≡ zero32) }
{
    let s = -a - b - c - d - e - f - g - h;
    if s != s {
        return 0xffff_ffff;
    }
    f32::to_bits(-s)
}

// Zero only where the 64 from `near` on and the 64 from `far` on are.
fn marks_f32(area: &[f32], near: usize, far: usize) -> u32
    requires { (near + 64 ≤ length area.now) × (far + 64 ≤ length area.now) }
    ensures { result ≡ 0 → Run zero32 nan area.now near 64 × Run zero32 nan area.now far 64 }
{
    let mut marks: u32 = 0;
    for k in 0..QUARTER {
        let p = near + k;
        let q = far + k;
        marks |= mark(
            area[p],
            area[p + 16],
            area[p + 32],
            area[p + 48],
            area[q],
            area[q + 16],
            area[q + 32],
            area[q + 48],
        );
    }
    marks
}

impl Clear for f32 {
    ghost zero = { zero32 };

    ghost past = { nan };

    fn zero() -> f32 {
        0.0
    }

    fn are_zero(area: &[f32], near: usize, far: usize) -> bool {
        marks_f32(area, near, far) == 0
    }
}

// ---- the areas

pub fn clear_keys(keys: &mut [u64], low_keys: &mut [u64], words: &mut [u64], scratch: &mut [u64])
    ensures { Zeros keys.new × Zeros low_keys.new × Zeros words.new × Zeros scratch.new }
{
    wipe(keys);
    wipe(low_keys);
    wipe(words);
    wipe(scratch);
}

pub fn clear_lists(a: &mut [u32], b: &mut [u32], c: &mut [u32], d: &mut [u32], e: &mut [u32])
    ensures { Zeros a.new × Zeros b.new × Zeros c.new × Zeros d.new × Zeros e.new }
{
    wipe(a);
    wipe(b);
    wipe(c);
    wipe(d);
    wipe(e);
}

pub fn clear_pair(a: &mut [u32], b: &mut [u32])
    ensures { Zeros a.new × Zeros b.new }
{
    wipe(a);
    wipe(b);
}

pub fn clear_floats(a: &mut [f32], b: &mut [f32], c: &mut [f32])
    ensures { ZeroFloats a.new × ZeroFloats b.new × ZeroFloats c.new }
{
    wipe(a);
    wipe(b);
    wipe(c);
}

// The areas of the triangles and their tree.
pub fn clear_scene(
    triangles: &mut [f32],
    handles: &mut [u32],
    tree: &mut [f32],
    nodes: &mut [u32],
    leaf_order: &mut [u32],
)
    ensures { SceneZero triangles.new handles.new tree.new nodes.new leaf_order.new }
{
    wipe(triangles);
    wipe(handles);
    wipe(tree);
    wipe(nodes);
    wipe(leaf_order);
}
