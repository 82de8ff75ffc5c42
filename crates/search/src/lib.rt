// The search for paths: every allowed sequence of planes in its order, each judged once, up to a limit; those that pass are candidates
// (`expand_images` of cpu_simd.rs).
#![tactic(auto)]

ghost use Rattle.std.specs.Prelude.{◌≡◌, false, List, ℕ, ◌+◌, ◌-◌, ◌*◌, ◌<◌, ◌≤◌, length, get_or, take, set, Float};
ghost use Rattle.std.specs.Float.Ieee.{lt};
ghost use Rattle.order.specs.Open.{Open};
ghost use Rattle.geometry.specs.declared.Triangle.{Triangle};
ghost use Rattle.tree_build.specs.Tree.{Tree};
ghost use Rattle.scene.specs.Limits.{most_crossings};
ghost use Rattle.mirror.specs.Plane.{no_point, nth_plane};
ghost use Rattle.mirror.specs.Mirror.{mirror_of};
ghost use Rattle.mirror.specs.Rows.{plane_float_count, plane_word_count, planes_in};
ghost use Rattle.sequences.specs.Allowed as spec;
ghost use Rattle.bounces.specs.Areas.{max_order, point_floats, point_in, TableLent, planes_of_table};
ghost use Rattle.ranking.specs.Rows.{CandidateRows, candidates_in};
ghost use Rattle.paths.specs.Areas.{SearchLent, SearchReads};
ghost use Rattle.claim.specs.Query.{search, searched};
ghost use Rattle.search.specs.Outcome.{on_bytes, outcomes_of};
ghost use Rattle.search.specs.Contract.{search_areas, state, counted_of, with_nodes, point_put, firsts_of, square_of, Beyond, SearchReady, Visitable, Walked, Kept, Visited, Skipped, LostOf};

use bounces::PlaneTable;
use paths::{Fate, PathCandidate};
use ranking::Candidate;
use scene::Settings;
use tree_trace::FlatBvh;
use vector::Vec3;

// Floats of a point in an area.
const POINT_FLOATS: usize = 3;

// What is searched for, and over how much: it does not change on the way. What each image needs stands first, in one piece of memory.
#[derive(Clone, Copy)]
struct Task {
    listener: Vec3,
    beyond: f32,
    order: usize,
    room: usize,
    source: Vec3,
    limit: u32,
    settings: Settings,
}

// The state, which each visit changes by one thin step: what is counted and found, and 1 where a candidate found no room. (A bool's padding would
// be copied along, byte by byte.)
#[derive(Clone, Copy)]
struct Tally {
    nodes: u32,
    rays: u32,
    found: usize,
    over: usize,
}

// The next plane whose image is not too far, or the count of planes, and the tally with the images before it.
#[derive(Clone, Copy)]
struct Near {
    plane: usize,
    tally: Tally,
}

// The end of a search: images visited, rays traced, candidates held, and whether one found no room.
#[derive(Clone, Copy)]
pub struct Found {
    pub images: u32,
    pub rays: u32,
    pub found: usize,
    pub over: bool,
}

// ---- one image more

// Whether plane `p` may stand at place `depth`.
fn may(planes: &PlaneTable, q: Task, seq: &[u32], depth: usize, p: usize) -> bool
    requires depth_in_bounds { (depth ≤ length seq.now) × (p < planes.now.count) }
    requires count_in_bounds { (plane_float_count * planes.now.count ≤ length planes.now.floats.now) × (plane_word_count * planes.now.count ≤ length planes.now.words.now) }
    ensures { (members : List ℕ) (edges : List Float) →
        result ≡ spec.may (on_bytes (planes_in planes.now.floats.now planes.now.words.now members edges planes.now.count) q.source)
        (take depth seq.now) p }
{
    if depth < sequences::RULED {
        !bounces::lies_on(planes.floats, planes.words, p, q.source)
    } else {
        seq[depth - 1] as usize != p
    }
}

// Stores a point.
pub fn put_point(l: &mut [f32], at: usize, v: Vec3)
    requires { at + point_floats ≤ length l.old }
    ensures { l.new ≡ point_put l.old at v }
{
    l[at] = v.x;
    l[at + 1] = v.y;
    l[at + 2] = v.z;
}

// Puts plane `p` and its image at place `depth`.
fn push(planes: &PlaneTable, depth: usize, p: usize, seq: &mut [u32], images: &mut [f32])
    requires depth_in_bounds { (depth < length seq.old) × (point_floats * (depth + 2) ≤ length images.old) × (p < planes.now.count) × (planes.now.count ≤ spec.most_planes) }
    requires count_in_bounds { (plane_float_count * planes.now.count ≤ length planes.now.floats.now) × (plane_word_count * planes.now.count ≤ length planes.now.words.now) }
    ensures seq_after { seq.new ≡ set seq.old depth p }
    ensures by_index { (members : List ℕ) (edges : List Float) → images.new ≡ point_put images.old (point_floats * (depth + 1)) (mirror_of
        (nth_plane (planes_in planes.now.floats.now planes.now.words.now members edges planes.now.count) p) (point_in images.old depth)) }
{
    let from = mirror::vec_in(images, POINT_FLOATS * depth);
    seq[depth] = p as u32;
    put_point(
        images,
        POINT_FLOATS * (depth + 1),
        bounces::next_image(planes.floats, planes.words, p, from),
    );
}

// ---- the state

// One image more: the rays of its path are added, and it leaves so many candidates, and the flag.
fn count(t: Tally, rays: u32, found: usize, over: usize) -> Tally
    requires { (t.nodes < spec.most) × (t.rays + rays < 4294967296) }
    ensures { result ≡ counted_of t rays found over }
{
    Tally {
        nodes: t.nodes + 1,
        rays: t.rays + rays,
        found,
        over,
    }
}

// The thin step, by which every visit changes the state, in place.
fn count_in_place(t: &mut Tally, rays: u32, found: usize, over: usize)
    requires { (t.old.nodes < spec.most) × (t.old.rays + rays < 4294967296) }
    ensures { t.new ≡ counted_of t.old rays found over }
{
    *t = count(*t, rays, found, over);
}

// The thin step as a visit calls it: by value, over a local that is lent to it.
fn counted(t: Tally, rays: u32, found: usize, over: usize) -> Tally
    requires { (t.nodes < spec.most) × (t.rays + rays < 4294967296) }
    ensures { result ≡ counted_of t rays found over }
{
    let mut s = t;
    count_in_place(&mut s, rays, found, over);
    s
}

// A visit that ends before a ray is traced: the image is too far, or a bounce fails.
fn passed_over(t: Tally) -> Tally
    requires { t.nodes < spec.most }
    ensures { result ≡ with_nodes t (t.nodes + 1) }
{
    counted(t, 0, t.found, t.over)
}

// ---- a visit

// The path of `len` planes passes: its image is counted, and it is a candidate, if there is room.
fn keep(
    room: usize,
    len: usize,
    rays: u32,
    c: PathCandidate,
    t: Tally,
    candidate_floats: &mut [f32],
    candidate_words: &mut [u32],
) -> Tally
    requires len_le_max_order { (len ≤ max_order) × (t.found ≤ room) }
    requires nodes_lt_most { (t.nodes < spec.most) × (t.rays + rays < 4294967296) }
    requires candidate_rows { CandidateRows room candidate_floats.old candidate_words.old }
    ensures { Kept room len rays c t candidate_floats.old candidate_words.old result candidate_floats.new
        candidate_words.new }
{
    if t.found < room {
        let direction = c.direction;
        let gains = c.gains;
        let tap = Candidate {
            energy: c.energy,
            order: len as u32,
            delay: c.delay,
            direction,
            gains,
            number: t.nodes + 1,
        };
        ranking::put_candidate(candidate_floats, candidate_words, t.found, tap);
        return counted(t, rays, t.found + 1, t.over);
    }
    counted(t, rays, t.found, 1)
}

// The sequence and the images as arrays, for the few paths that are traced.
fn all_planes(seq: &[u32]) -> [u32; 8]
    requires { length seq.now ≡ max_order }
    ensures { result ≡ seq.now }
{
    [
        seq[0], seq[1], seq[2], seq[3], seq[4], seq[5], seq[6], seq[7],
    ]
}

fn all_points(images: &[f32]) -> [Vec3; 9]
    requires { length images.now ≡ point_floats * (max_order + 1) }
    ensures { (j : ℕ) → j ≤ max_order → get_or result j no_point ≡ point_in images.now j }
{
    let a = mirror::vec_in(images, 0);
    let b = mirror::vec_in(images, 3);
    let c = mirror::vec_in(images, 6);
    let d = mirror::vec_in(images, 9);
    let e = mirror::vec_in(images, 12);
    let f = mirror::vec_in(images, 15);
    let g = mirror::vec_in(images, 18);
    let h = mirror::vec_in(images, 21);
    let i = mirror::vec_in(images, 24);
    [a, b, c, d, e, f, g, h, i]
}

// Counts the image of the first `len` planes, judges its path, and keeps it if it passes.
fn judge(
    bvh: &FlatBvh,
    materials: &[f32],
    planes: &PlaneTable,
    q: Task,
    len: usize,
    t: Tally,
    seq: &[u32],
    images: &[f32],
    candidate_floats: &mut [f32],
    candidate_words: &mut [u32],
) -> Tally
    requires { Visitable (search_areas bvh.now materials.now planes.now) q len (state seq.now images.now t) candidate_floats.old
        candidate_words.old }
    ensures { Visited (search_areas bvh.now materials.now planes.now) q len seq.now t candidate_floats.old candidate_words.old result
        candidate_floats.new candidate_words.new }
{
    let v = paths::validate_image_path(
        bvh,
        materials,
        planes,
        q.settings,
        all_planes(seq),
        all_points(images),
        len,
        q.source,
        q.listener,
    );
    let fate = v.fate;
    let Fate::Passed(c) = fate else {
        return counted(t, v.rays, t.found, t.over);
    };
    keep(q.room, len, v.rays, c, t, candidate_floats, candidate_words)
}

// Whether the square of the distance from the listener to an image is above `beyond`: no root is taken.
fn far(listener: Vec3, image: Vec3, beyond: f32) -> bool
    ensures { result ≡ lt beyond (square_of listener image) }
{
    let way = vector::sub3(listener, image);
    vector::dot3(way, way) > beyond
}

// The same for the image of the first `len` planes.
fn too_far(images: &[f32], len: usize, listener: Vec3, beyond: f32) -> bool
    requires { point_floats * (len + 1) ≤ length images.now }
    ensures { result ≡ lt beyond (square_of listener (point_in images.now len)) }
{
    far(listener, mirror::vec_in(images, POINT_FLOATS * len), beyond)
}

// Whether all bounces of the path of the first `len` planes are made. Of nearly every path one fails.
fn made(planes: &PlaneTable, seq: &[u32], images: &[f32], len: usize, listener: Vec3) -> bool
    requires planes_lent { TableLent planes.now }
    requires len_in_bounds { (len ≤ length seq.now) × (point_floats * len + point_floats ≤ length images.now) }
    requires by_index { (j : ℕ) → j < len → get_or seq.now j 0 < planes.now.count }
    ensures { result ≡ false → LostOf planes.now seq.now images.now len listener }
{
    bounces::fate_back(planes, seq, images, len, listener).is_ok()
}

// Visits the first `len` planes: where a bounce fails, the image is only counted.
fn visit(
    bvh: &FlatBvh,
    materials: &[f32],
    planes: &PlaneTable,
    q: Task,
    len: usize,
    t: Tally,
    seq: &[u32],
    images: &[f32],
    candidate_floats: &mut [f32],
    candidate_words: &mut [u32],
) -> Tally
    requires { Visitable (search_areas bvh.now materials.now planes.now) q len (state seq.now images.now t) candidate_floats.old
        candidate_words.old }
    ensures { Visited (search_areas bvh.now materials.now planes.now) q len seq.now t candidate_floats.old candidate_words.old result
        candidate_floats.new candidate_words.new }
{
    if made(planes, seq, images, len, q.listener) {
        return judge(
            bvh,
            materials,
            planes,
            q,
            len,
            t,
            seq,
            images,
            candidate_floats,
            candidate_words,
        );
    }
    passed_over(t)
}

// ---- the last place

// From plane `from` on to the first whose image at the last place is not too far; those too far are visited here. Nearly all images of a search may
// be such: so no plane and no image is stored, and no function is handed more than it reads.
fn next_near(
    planes: &PlaneTable,
    q: Task,
    seq: &[u32],
    images: &[f32],
    depth: usize,
    from: usize,
    t: Tally,
) -> Near
    requires depth_in_bounds { (depth < length seq.now) × (point_floats * (depth + 1) ≤ length images.now) × (from ≤ planes.now.count) × (q.limit ≤ spec.most) }
    requires count_in_bounds { (plane_float_count * planes.now.count ≤ length planes.now.floats.now) × (plane_word_count * planes.now.count ≤ length planes.now.words.now) }
    ensures { (b : FlatBvh) (materials : List Float) →
        Skipped (search_areas b materials planes.now) q depth
        seq.now images.now from t result.plane result.tally }
{
    let image = mirror::vec_in(images, POINT_FLOATS * depth);
    let mut s = t;
    for p in from..planes.count {
        if q.limit <= s.nodes {
            continue;
        }
        if may(planes, q, seq, depth, p) {
            let next = bounces::next_image(planes.floats, planes.words, p, image);
            if far(q.listener, next, q.beyond) {
                s = passed_over(s);
                continue;
            }
            return Near { plane: p, tally: s };
        }
    }
    Near {
        plane: planes.count,
        tally: s,
    }
}

// Each plane in turn at the last place, where nothing goes on.
fn last_planes(
    bvh: &FlatBvh,
    materials: &[f32],
    planes: &PlaneTable,
    q: Task,
    depth: usize,
    t: Tally,
    seq: &mut [u32],
    images: &mut [f32],
    candidate_floats: &mut [f32],
    candidate_words: &mut [u32],
) -> Tally
    requires depth_value { depth + 1 ≡ q.order }
    requires search_ready { SearchReady (search_areas bvh.now materials.now planes.now) q depth (state seq.old images.old t) candidate_floats.old
        candidate_words.old }
    ensures { let areas = search_areas bvh.now materials.now planes.now in
        Walked areas q depth (spec.below (firsts_of areas q) (q.order - depth) (take depth seq.old))
        (state seq.old images.old t) candidate_floats.old candidate_words.old
        (state seq.new images.new result) candidate_floats.new candidate_words.new }
{
    let mut s = t;
    let mut p = 0;
    // A turn goes on from the plane that it comes to, so no `for`.
    while p < planes.count {
        let next = next_near(planes, q, seq, images, depth, p, s);
        let at = next.plane;
        let u = next.tally;
        if at == planes.count {
            return u;
        }
        p = at + 1;
        push(planes, depth, at, seq, images);
        if made(planes, seq, images, depth + 1, q.listener) {
            let v = judge(
                bvh,
                materials,
                planes,
                q,
                depth + 1,
                u,
                seq,
                images,
                candidate_floats,
                candidate_words,
            );
            // field by field: a call answers into memory, where the tally of the loop would then stay
            s = Tally {
                nodes: v.nodes,
                rays: v.rays,
                found: v.found,
                over: v.over,
            };
            continue;
        }
        s = passed_over(u);
    }
    s
}

// ---- the search

// Each plane in turn at place `depth`, with all that goes on from it. The sequence and the image of each of its beginnings stand in `seq` and
// `images`. An image too far is tested and visited here: a function that visits is handed all areas and the task, which the compiler copies first.
fn expand_images(
    bvh: &FlatBvh,
    materials: &[f32],
    planes: &PlaneTable,
    q: Task,
    depth: usize,
    t: Tally,
    seq: &mut [u32],
    images: &mut [f32],
    candidate_floats: &mut [f32],
    candidate_words: &mut [u32],
) -> Tally
    requires { SearchReady (search_areas bvh.now materials.now planes.now) q depth (state seq.old images.old t) candidate_floats.old
        candidate_words.old }
    ensures { let areas = search_areas bvh.now materials.now planes.now in
        Walked areas q depth (spec.below (firsts_of areas q) (q.order - depth) (take depth seq.old))
        (state seq.old images.old t) candidate_floats.old candidate_words.old
        (state seq.new images.new result) candidate_floats.new candidate_words.new }
{
    let mut s = t;
    for p in 0..planes.count {
        if q.limit <= s.nodes {
            continue;
        }
        if !may(planes, q, seq, depth, p) {
            continue;
        }
        push(planes, depth, p, seq, images);
        if too_far(images, depth + 1, q.listener, q.beyond) {
            s = passed_over(s);
        } else {
            s = visit(
                bvh,
                materials,
                planes,
                q,
                depth + 1,
                s,
                seq,
                images,
                candidate_floats,
                candidate_words,
            );
        }
        if depth + 1 == q.order {
            continue;
        }
        if depth + 2 == q.order {
            s = last_planes(
                bvh,
                materials,
                planes,
                q,
                depth + 1,
                s,
                seq,
                images,
                candidate_floats,
                candidate_words,
            );
            continue;
        }
        s = expand_images(
            bvh,
            materials,
            planes,
            q,
            depth + 1,
            s,
            seq,
            images,
            candidate_floats,
            candidate_words,
        );
    }
    s
}

// The images before the search: the source stands first.
fn first_images(source: Vec3) -> [f32; 27]
    ensures { (point_in result 0 ≡ source) × (length result ≡ point_floats * (max_order + 1)) }
{
    let mut images = [0.0f32; 27];
    images[0] = source.x;
    images[1] = source.y;
    images[2] = source.z;
    images
}

// A bound above which every square has a root above `far`: the square of `far` and a little more, where its own root is above `far`; else the
// infinity, which nothing is above.
fn square_beyond(far: f32) -> f32
    ensures { Beyond far result }
{
    let square = far * far * 1.000_001;
    if float::sqrt(square) > far {
        return square;
    }
    float::infinity()
}

// The search from nothing: at most 250,000 images of at most `order` planes, and at most `room` candidates, in rows of `candidate_floats` and `candidate_words`;
// what stands past their rows is open.
pub fn search_images(
    bvh: &FlatBvh,
    materials: &[f32],
    planes: &PlaneTable,
    settings: Settings,
    source: Vec3,
    listener: Vec3,
    order: usize,
    room: usize,
    candidate_floats: &mut [f32],
    candidate_words: &mut [u32],
) -> Found
    requires scene_lent { SearchLent bvh.now materials.now planes.now }
    requires order_le_max_order { (order ≤ max_order) × (planes.now.count ≤ spec.most_planes) × (settings.crossing_limit ≤ most_crossings) }
    requires candidate_rows { CandidateRows room candidate_floats.old candidate_words.old }
    ensures searched { (tri : ℕ → Triangle) (t : Tree) →
        SearchReads bvh.now planes.now tri t →
        search result.images result.rays (candidates_in result.found candidate_floats.new candidate_words.new) result.over ≡ searched (on_bytes
        (planes_of_table planes.now) source)
        order room (outcomes_of settings
        (planes_of_table planes.now) tri t
        materials.now source listener) }
    ensures few { result.found ≤ room }
    ensures rest { Open candidate_floats.old candidate_floats.new × Open candidate_words.old candidate_words.new }
{
    if order == 0 {
        return Found {
            images: 0,
            rays: 0,
            found: 0,
            over: false,
        };
    }
    let beyond = square_beyond(settings.max_reflection_distance);
    let q = Task {
        listener,
        beyond,
        order,
        room,
        source,
        limit: sequences::MAX_IMAGE_NODES as u32,
        settings,
    };
    let nothing = Tally {
        nodes: 0,
        rays: 0,
        found: 0,
        over: 0,
    };
    let mut seq = [0u32; 8];
    let mut images = first_images(source);
    let s = expand_images(
        bvh,
        materials,
        planes,
        q,
        0,
        nothing,
        &mut seq,
        &mut images,
        candidate_floats,
        candidate_words,
    );
    Found {
        images: s.nodes,
        rays: s.rays,
        found: s.found,
        over: s.over != 0,
    }
}
