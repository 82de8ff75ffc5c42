// The build phase of a query: the tree of a loaded scene, and over it its mirror planes, in the areas that the search reads. It is apart since two begin with
// it, the query (`answer`) and the walls of an image (`walls`), and since the tree and the planes know nothing of each other's areas.
#![tactic(auto)]

ghost use Rattle.scene_planes.specs.ScenePlanes.{PlanesReady, SceneBuilt};

use scene::Settings;
use tree_trace::FlatBvh;

// How many nodes the tree has, and how many planes there are.
#[derive(Clone, Copy)]
pub struct Built {
    pub nodes: usize,
    pub planes: usize,
}

// Tree and planes of a loaded scene of at least one triangle, its handles made ready by `clear_from`. The tree stands in tree, nodes and leaf_order,
// the planes in plane_floats, plane_words, plane_triangles and plane_edges. Areas of the planes serve the tree
// before: keys holds those of the three axes, plane_floats the triangles' boxes, plane_edges their surface areas, floats the boxes of the nodes.
pub fn build_scene(
    tree: &mut [f32],
    nodes: &mut [u32],
    leaf_order: &mut [u32],
    keys: &mut [u64],
    low_keys: &mut [u64],
    words: &mut [u64],
    scratch: &mut [u64],
    index: &mut [u32],
    numbers: &mut [u32],
    adjacency: &mut [u32],
    queue: &mut [u32],
    offsets: &mut [u32],
    floats: &mut [f32],
    plane_triangles: &mut [u32],
    plane_floats: &mut [f32],
    plane_words: &mut [u32],
    plane_edges: &mut [f32],
    triangles: &[f32],
    handles: &[u32],
    n: usize,
    m: usize,
    settings: Settings,
) -> Built
    requires { PlanesReady n m triangles.now handles.now tree.old nodes.old leaf_order.old keys.old low_keys.old words.old scratch.old
        index.old numbers.old adjacency.old queue.old offsets.old plane_triangles.old plane_words.old plane_floats.old floats.old plane_edges.old }
    ensures { SceneBuilt settings n m triangles.now handles.now tree.new nodes.new leaf_order.new
        plane_floats.new plane_words.new plane_triangles.new plane_edges.new
        keys.old keys.new low_keys.old low_keys.new words.old words.new scratch.old scratch.new
        index.old index.new numbers.old numbers.new adjacency.old adjacency.new
        queue.old queue.new offsets.old offsets.new floats.old floats.new result }
{
    let nodes_count = scene_bvh::scene_bvh(
        triangles,
        handles,
        n,
        m,
        plane_floats,
        keys,
        leaf_order,
        words,
        scratch,
        plane_edges,
        floats,
        nodes,
        tree,
    );
    let from = 12 * m;
    let to = 22 * m;
    let bvh = FlatBvh {
        padded: &tree[0..from],
        nodes,
        leaf_order: &leaf_order[..m],
        leaves: &tree[from..to],
        handles,
        count: nodes_count,
    };
    let planes = planes::build_planes(
        triangles,
        n,
        m,
        settings,
        &bvh,
        keys,
        low_keys,
        words,
        scratch,
        index,
        numbers,
        adjacency,
        queue,
        offsets,
        floats,
        plane_triangles,
        plane_floats,
        plane_words,
        plane_edges,
    );
    Built {
        nodes: nodes_count,
        planes,
    }
}
