// The answer over a scene as it was loaded: its tree, planes, search, list and packet, in areas that serve one after the other (docs/AREAS.md) and are
// zero afterwards. Work areas come first among the parameters: the checker's cost of a lent area grows with its place (docs/PROVING.md).
// They are no struct for the reason that `query` gives.
// It is apart from `query` since a function that is lent all areas takes minutes to check: two such crates are checked one by one.
#![tactic(auto)]

ghost use Rattle.std.specs.Prelude.{◌≡◌, false, ◌≤◌};
ghost use Rattle.scene.specs.Speed.{speed_of};
ghost use Rattle.ranking.specs.Rows.{candidates_in};
ghost use Rattle.claim.specs.Query.{search};
ghost use Rattle.claim.specs.Query as query;
ghost use Rattle.taps.specs.Areas.{Sends};
ghost use Rattle.front.specs.Asked.{silent_of, limit_of};
ghost use Rattle.clearing.specs.Zero.{PlanesZero, SceneZero};
ghost use Rattle.answer.specs.Answer.{answered_of, by_refusal, Answers};
ghost use Rattle.answer.specs.Loaded.{Heard, Finds, Ready, AnswersLoaded};

use bounces::PlaneTable;
use scene::Settings;
use search::Found;
use tree_trace::FlatBvh;
use vector::Vec3;

// The refusal, or 0 and the counts: taps, images, rays, and bytes of the packet.
#[derive(Clone, Copy)]
pub struct Answered {
    pub refusal: u32,
    pub count: usize,
    pub images: u32,
    pub rays: u32,
    pub bytes: usize,
}

// The search over a loaded scene, its handles made ready: nothing where no sequence is allowed, else its tree and its planes are built, and the paths by
// way of them searched. The candidates stand in rows of floats and numbers.
fn find(
    tree: &mut [f32],
    nodes: &mut [u32],
    leaf_order: &mut [u32],
    keys: &mut [u64],
    low_keys: &mut [u64],
    words: &mut [u64],
    scratch: &mut [u64],
    index: &mut [u32],
    numbers: &mut [u32],
    adjacency: &mut [u32],
    queue: &mut [u32],
    offsets: &mut [u32],
    floats: &mut [f32],
    plane_triangles: &mut [u32],
    plane_floats: &mut [f32],
    plane_words: &mut [u32],
    plane_edges: &mut [f32],
    triangles: &[f32],
    handles: &[u32],
    n: usize,
    m: usize,
    settings: Settings,
    materials: &[f32],
    source: Vec3,
    listener: Vec3,
    separated: bool,
    room: usize,
) -> Found
    requires { silent_of separated source listener m ≡ false →
        Heard settings n m room triangles.now handles.now materials.now tree.old nodes.old leaf_order.old keys.old low_keys.old
        words.old scratch.old index.old numbers.old adjacency.old queue.old offsets.old plane_triangles.old plane_words.old
        plane_floats.old floats.old plane_edges.old }
    ensures finds { Finds settings source listener separated room n m triangles.now handles.now materials.now result floats.new
        numbers.new }
    ensures found_le_room { result.found ≤ room }
{
    if front::silent(separated, source, listener, m) {
        return Found {
            images: 0,
            rays: 0,
            found: 0,
            over: false,
        };
    }
    let order = front::search_order(settings);
    let built = scene_planes::build_scene(
        tree,
        nodes,
        leaf_order,
        keys,
        low_keys,
        words,
        scratch,
        index,
        numbers,
        adjacency,
        queue,
        offsets,
        floats,
        plane_triangles,
        plane_floats,
        plane_words,
        plane_edges,
        triangles,
        handles,
        n,
        m,
        settings,
    );
    let from = 12 * m;
    let to = 22 * m;
    let bvh = FlatBvh {
        padded: &tree[0..from],
        nodes,
        leaf_order: &leaf_order[..m],
        leaves: &tree[from..to],
        handles,
        count: built.nodes,
    };
    let planes = PlaneTable {
        triangles,
        n,
        floats: plane_floats,
        words: plane_words,
        members: plane_triangles,
        edges: plane_edges,
        count: built.planes,
    };
    search::search_images(
        &bvh, materials, &planes, settings, source, listener, order, room, floats, numbers,
    )
}

pub fn refused(k: u32) -> Answered
    ensures { result ≡ answered_of (query.refused k) }
{
    Answered {
        refusal: k,
        count: 0,
        images: 0,
        rays: 0,
        bytes: 0,
    }
}

// What the search found as an answer: the refusal handed in, refusal 7, or the packet of the best taps at the front of out. queue holds their
// order.
fn send(
    keys: &mut [u64],
    queue: &mut [u32],
    words: &mut [u64],
    scratch: &mut [u64],
    out: &mut [u8],
    candidate_floats: &[f32],
    candidate_words: &[u32],
    refusal: u32,
    found: Found,
    settings: Settings,
) -> Answered
    requires { refusal ≡ 0 →
        Sends found.found (limit_of settings) found.images candidate_floats.now candidate_words.now keys.old queue.old words.old
        scratch.old out.old }
    ensures { Answers (by_refusal refusal (query.ended (speed_of settings.temperature_celsius) settings.sample_rate (limit_of settings) (search found.images
        found.rays (candidates_in found.found candidate_floats.now candidate_words.now) found.over))) result out.old
        out.new }
{
    if refusal != 0 {
        return refused(refusal);
    }
    if found.over {
        return refused(7);
    }
    let limit = front::list_limit(settings);
    let speed = scene::speed_of_sound(settings.temperature_celsius);
    let p = taps::write_taps(
        candidate_floats,
        candidate_words,
        found.found,
        speed,
        settings.sample_rate,
        limit,
        found.images,
        found.rays,
        keys,
        queue,
        words,
        scratch,
        out,
    );
    Answered {
        refusal: 0,
        count: p.count,
        images: found.images,
        rays: found.rays,
        bytes: p.bytes,
    }
}

// The answer to a scene as it was loaded, or to the refusal 6 that loading gave. All work areas are zero afterwards.
pub fn answer_loaded(
    triangles: &mut [f32],
    handles: &mut [u32],
    tree: &mut [f32],
    nodes: &mut [u32],
    leaf_order: &mut [u32],
    keys: &mut [u64],
    low_keys: &mut [u64],
    words: &mut [u64],
    scratch: &mut [u64],
    index: &mut [u32],
    numbers: &mut [u32],
    adjacency: &mut [u32],
    queue: &mut [u32],
    offsets: &mut [u32],
    floats: &mut [f32],
    plane_triangles: &mut [u32],
    plane_floats: &mut [f32],
    plane_words: &mut [u32],
    plane_edges: &mut [f32],
    out: &mut [u8],
    refusal: u32,
    n: usize,
    m: usize,
    settings: Settings,
    materials: &[f32],
    source: Vec3,
    listener: Vec3,
    separated: bool,
    room: usize,
) -> Answered
    requires ready { refusal ≡ 0 →
        Ready settings n m room triangles.old handles.old materials.now tree.old nodes.old leaf_order.old keys.old low_keys.old
        words.old scratch.old index.old numbers.old adjacency.old queue.old offsets.old plane_triangles.old plane_words.old
        plane_floats.old floats.old plane_edges.old out.old }
    requires m_value { (refusal ≡ 0 → ⊥) → m ≡ 0 }
    ensures answers_loaded { AnswersLoaded refusal settings source listener separated room n m triangles.old handles.old materials.now result
        out.old out.new }
    ensures planes_zero { PlanesZero keys.new low_keys.new words.new scratch.new index.new numbers.new
        adjacency.new queue.new offsets.new plane_triangles.new plane_words.new
        plane_floats.new floats.new plane_edges.new }
    ensures scene_zero { SceneZero triangles.new handles.new tree.new nodes.new leaf_order.new }
{
    scene_bvh::clear_from(handles, m);
    let found = find(
        tree,
        nodes,
        leaf_order,
        keys,
        low_keys,
        words,
        scratch,
        index,
        numbers,
        adjacency,
        queue,
        offsets,
        floats,
        plane_triangles,
        plane_floats,
        plane_words,
        plane_edges,
        triangles,
        handles,
        n,
        m,
        settings,
        materials,
        source,
        listener,
        separated,
        room,
    );
    let r = send(
        keys, queue, words, scratch, out, floats, numbers, refusal, found, settings,
    );
    clearing::clear_keys(keys, low_keys, words, scratch);
    clearing::clear_lists(index, numbers, adjacency, queue, offsets);
    clearing::clear_pair(plane_triangles, plane_words);
    clearing::clear_floats(plane_floats, floats, plane_edges);
    clearing::clear_scene(triangles, handles, tree, nodes, leaf_order);
    r
}
