// Runs the recorded queries of standard input and prints what the port answers to each, and whether that is what the Rust answered: refusal,
// taps, images, rays, and every byte of the packet. `compare record` of reference/ made the sample: case A, the cases of reference/findings and
// generated scenes of each kind, run by the published Rust with document 01's refusals and packet around it (reference/README.md).
//
// A line is a name and words of eight hexadecimal digits, floats by their bits: 45 of fixed meaning (lengths of five parts; settings as 14 counts
// and 12 floats; candidate room, rows of the material table, separated; source; listener; the answer: refusal, taps, images, rays, bytes), then
// meshes, transforms, positions, indices and materials, then the packet, four bytes a word, the first the lowest. A line that is longer or
// shorter than its lengths say, or longer than the areas here, differs.
#![tactic(auto)]

ghost use Rattle.std.specs.Prelude.{◌≤◌, ◌≡◌, length};

use answer::Answered;
use scene::Settings;
use std::io;
use text::{filled, read_full};
use vector::Vec3;

// Words before the parts, and words of the longest line.
const HEADER: usize = 45;

const LONGEST: usize = 8192;

// What a length is cut to before it is added to others.
const MOST: usize = 65536;

// ---- a case

fn settings_from(w: &[u32], f: &[f32]) -> Settings
    requires { (45 ≤ length w.now) × (45 ≤ length f.now) }
{
    arguments::settings_from(&w[5..19], &f[19..31])
}

fn source_from(f: &[f32]) -> Vec3
    requires { 45 ≤ length f.now }
{
    arguments::point_from(&f[34..37])
}

fn listener_from(f: &[f32]) -> Vec3
    requires { 45 ≤ length f.now }
{
    arguments::point_from(&f[37..40])
}

// The query of a line whose parts end at a, b, c, d and e.
fn run_case(
    columns: &mut [f32],
    handles: &mut [u32],
    tree: &mut [f32],
    nodes: &mut [u32],
    perm: &mut [u32],
    hi: &mut [u64],
    lo: &mut [u64],
    words: &mut [u64],
    scratch: &mut [u64],
    index: &mut [u32],
    id: &mut [u32],
    linked: &mut [u32],
    queue: &mut [u32],
    starts: &mut [u32],
    gfloats: &mut [f32],
    members: &mut [u32],
    rows: &mut [f32],
    kept: &mut [u32],
    edges: &mut [f32],
    out: &mut [u8],
    w: &[u32],
    f: &[f32],
    a: usize,
    b: usize,
    c: usize,
    d: usize,
    e: usize,
) -> Answered
    requires { (45 ≤ a) × (a ≤ b) × (b ≤ c) × (c ≤ d) × (d ≤ e) × (e ≤ length w.now) × (e ≤ length f.now) × (e ≤ 8192) }
{
    let settings = settings_from(w, f);
    let source = source_from(f);
    let listener = listener_from(f);
    let room = w[31];
    let count = w[32];
    let separated = w[33] != 0;
    query::trace_early_reflections(
        columns,
        handles,
        tree,
        nodes,
        perm,
        hi,
        lo,
        words,
        scratch,
        index,
        id,
        linked,
        queue,
        starts,
        gfloats,
        members,
        rows,
        kept,
        edges,
        out,
        settings,
        room,
        &w[45..a],
        &f[a..b],
        &f[b..c],
        &w[c..d],
        &f[d..e],
        count,
        source,
        listener,
        separated,
    )
}

// ---- the answer against the recorded one

// Whether the first n bytes are those of the words, the lowest first.
fn same_packet(out: &[u8], packet: &[u32], n: usize) -> bool {
    for k in 0..n {
        let (Some(b), Some(w)) = (out.get(k), packet.get(k / 4)) else {
            return false;
        };
        if *b != w.to_le_bytes()[k % 4] {
            return false;
        }
    }
    true
}

// Whether the answer is the recorded one, whose packet stands at e.
fn agrees(out: &[u8], w: &[u32], e: usize, r: Answered) -> bool
    requires { (45 ≤ e) × (e ≤ length w.now) × (e ≤ 8192) }
{
    r.refusal == w[40]
        && r.images == w[42]
        && r.rays == w[43]
        && r.count == w[41] as usize
        && r.bytes == w[44] as usize
        && same_packet(out, &w[e..], r.bytes)
}

// The verdict and the answer, to the end of the line.
fn print_answer(rt: &impl Print, ok: bool, r: Answered) -> io::Result<()> {
    print!(rt; "{}", if ok { ": ok, " } else { ": differs, " })?;
    if r.refusal == 0 {
        println!(rt;
            "taps {} images {} rays {} bytes {}",
            r.count, r.images, r.rays, r.bytes
        )
    } else {
        println!(rt; "refused {}", r.refusal)
    }
}

// Runs a case in areas of its own, for 64 triples and 320 candidates, and compares.
fn run_fresh(
    rt: &impl Print,
    w: &[u32],
    f: &[f32],
    a: usize,
    b: usize,
    c: usize,
    d: usize,
    e: usize,
) -> io::Result<bool>
    requires { (45 ≤ a) × (a ≤ b) × (b ≤ c) × (c ≤ d) × (d ≤ e) × (e ≤ length w.now) × (e ≤ length f.now) × (e ≤ 8192) }
{
    let mut columns: [f32; 1472] = filled(0.0);
    let mut handles: [u32; 64] = filled(0);
    let mut tree: [f32; 1408] = filled(0.0);
    let mut nodes: [u32; 512] = filled(0);
    let mut perm: [u32; 64] = filled(0);
    let mut hi: [u64; 512] = filled(0);
    let mut lo: [u64; 192] = filled(0);
    let mut words: [u64; 1856] = filled(0);
    let mut scratch: [u64; 1856] = filled(0);
    let mut index: [u32; 192] = filled(0);
    let mut id: [u32; 832] = filled(0);
    let mut linked: [u32; 1536] = filled(0);
    let mut queue: [u32; 512] = filled(0);
    let mut starts: [u32; 193] = filled(0);
    let mut gfloats: [f32; 4928] = filled(0.0);
    let mut members: [u32; 65] = filled(0);
    let mut rows: [f32; 768] = filled(0.0);
    let mut kept: [u32; 320] = filled(0);
    let mut edges: [f32; 1152] = filled(0.0);
    let mut out: [u8; packet::OUT_BYTES] = filled(0);
    let r = run_case(
        &mut columns,
        &mut handles,
        &mut tree,
        &mut nodes,
        &mut perm,
        &mut hi,
        &mut lo,
        &mut words,
        &mut scratch,
        &mut index,
        &mut id,
        &mut linked,
        &mut queue,
        &mut starts,
        &mut gfloats,
        &mut members,
        &mut rows,
        &mut kept,
        &mut edges,
        &mut out,
        w,
        f,
        a,
        b,
        c,
        d,
        e,
    );
    let ok = agrees(&out, w, e, r);
    print_answer(rt, ok, r)?;
    Ok(ok)
}

// A length of a line, cut so that it can be added to others.
fn limited(n: u32) -> usize
    ensures { result ≤ 65536 }
{
    (n as usize).min(MOST)
}

// A line that is no case.
fn no_case(rt: &impl Print) -> io::Result<bool> {
    println!(rt; ": differs, no case")?;
    Ok(false)
}

// A case of so many digits.
fn run_words(rt: &impl Print, w: &[u32], f: &[f32], digits: usize) -> io::Result<bool>
    requires { (length w.now ≡ 8192) × (length f.now ≡ 8192) }
{
    let a = HEADER + limited(w[0]);
    let b = a + limited(w[1]);
    let c = b + limited(w[2]);
    let d = c + limited(w[3]);
    let e = d + limited(w[4]);
    let bytes = limited(w[44]);
    if LONGEST < e || digits != 8 * (e + (bytes + 3) / 4) {
        return no_case(rt);
    }
    run_fresh(rt, w, f, a, b, c, d, e)
}

// Each word as the float that has its bits.
fn floats_of(words: &[u32], to: &mut [f32]) {
    for (x, w) in to.iter_mut().zip(words) {
        *x = text::float_of(*w);
    }
}

// A line: its name, and whether the answer to it is the recorded one.
fn run_line(rt: &impl Print, line: &[u8]) -> io::Result<bool> {
    let end = listing::find(line, b' ').unwrap_or(line.len());
    rt.write_all(&line[..end])?;
    let mut w: [u32; LONGEST] = filled(0);
    let mut f: [f32; LONGEST] = filled(0.0);
    let digits = text::hex_words(&line[end..], &mut w);
    floats_of(&w, &mut f);
    run_words(rt, &w, &f, digits)
}

// ---- all lines

// One more, up to a limit that no input here reaches.
fn plus(n: u64) -> u64 {
    if n < 1000000 { n + 1 } else { n }
}

// Every line of the text, and the counts.
fn run(rt: &impl Print, all: &[u8]) -> io::Result<()> {
    let mut cases: u64 = 0;
    let mut differ: u64 = 0;
    let mut at = 0;
    // No `for` over `split_inclusive`: a line ends where `line_end` says, whose contract is that of specs/Lines.antt of `text`.
    while at < all.len() {
        let end = text::line_end(all, at);
        let line = &all[at..end];
        at = end;
        if line.starts_with(b"#") {
            continue;
        }
        cases = plus(cases);
        if !run_line(rt, line)? {
            differ = plus(differ);
        }
    }
    println!(rt; "{cases} cases, {differ} differ")
}

fn main(rt: HostRuntime) -> io::Result<()> {
    let mut buf: [u8; 600_000] = filled(0);
    let n = read_full(&mut rt.reader(), &mut buf)?;
    run(&rt, &buf[..n])
}
