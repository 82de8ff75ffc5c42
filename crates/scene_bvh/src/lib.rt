// Between loading a scene and searching it: the tree of the triangles that `load_scene` kept, and the handles made ready for what reads them.
// A crate of its own, so that it is checked without the planes and the search.
#![tactic(auto)]

ghost use Rattle.std.specs.Prelude.{◌≡◌, List, ℕ, ◌≤◌, length, take};
ghost use Rattle.order.specs.Open.{Open};
ghost use Rattle.scene.specs.Scene.{Scene};
ghost use Rattle.bvh.specs.Bvh.{padded_in, rows_in};
ghost use Rattle.scene_bvh.specs.SceneTree.{cleared_from, Roomy, SceneLoaded, SceneTree};

// The handles from m on become 0: they belong to no triangle.
pub fn clear_from(handles: &mut [u32], m: usize)
    requires { m ≤ length handles.old }
    ensures { handles.new ≡ cleared_from m handles.old }
{
    handles[m..].fill(0);
}

// The tree of the first m triangles of columns of n triples, with handles that `clear_from` made ready. The answer is the count of nodes.
pub fn scene_bvh(
    triangles: &[f32],
    handles: &[u32],
    n: usize,
    m: usize,
    extents: &mut [f32],
    keys: &mut [u64],
    leaf_order: &mut [u32],
    words: &mut [u64],
    scratch: &mut [u64],
    areas: &mut [f32],
    boxes: &mut [f32],
    nodes: &mut [u32],
    tree: &mut [f32],
) -> usize
    requires { Roomy triangles.now handles.now n m extents.old keys.old leaf_order.old words.old scratch.old areas.old boxes.old nodes.old
        tree.old }
    ensures stands { (s : Scene) (found : List ℕ) → SceneLoaded s triangles.now found n m → handles.now ≡ cleared_from m found →
        SceneTree s triangles.now handles.now n m (padded_in m tree.new) nodes.new
        (take m leaf_order.new) (rows_in m tree.new) result }
    ensures rest { Open extents.old extents.new × Open keys.old keys.new × Open words.old words.new ×
        Open scratch.old scratch.new × Open areas.old areas.new × Open boxes.old boxes.new }
{
    bvh::build_flat_bvh(
        triangles,
        handles,
        n,
        extents,
        keys,
        &mut leaf_order[..m],
        words,
        scratch,
        areas,
        boxes,
        nodes,
        tree,
    )
}
