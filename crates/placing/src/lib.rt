// `triangles_from_scene`: one pass over the triples of a scene. Each corner of a triple whose indices are in range is placed and tested
// (refusal 6), and the triangles that are not degenerate are kept in columns. Placings are counted.
#![tactic(auto)]

ghost use Rattle.std.specs.Prelude.{◌≡◌, false, ◌+◌, ◌*◌, ◌<◌, ◌≤◌, length, get_or};
ghost use Rattle.scene.specs.Scene.{scene, headers, cut};
ghost use Rattle.placing.specs.Corners.{far_of, is_far_corner, has_far_corner, corner_of, triple, triples, corners3, corners_in, corners_of, corners_all};
ghost use Rattle.columns.specs.Columns.{column_count};
ghost use Rattle.scene.specs.Limits.{most_triples};
ghost use Rattle.placing.specs.Loading.{first_refusal, load_said, Loading};
ghost use Rattle.placing.specs.Passing.{world, state, placing, step_of, run, Room, Did, Fits, PassedOver};

use refusals::Refusal;
use scene::Settings;
use vector::Vec3;

const FARTHEST: f32 = 10000.0;

// What the pass carries: triangles kept, corners placed, and whether a corner was too far.
#[derive(Clone, Copy)]
pub struct State {
    pub kept: usize,
    pub placings: usize,
    pub far: bool,
}

// A corner placed, and the placings made up to and with it.
#[derive(Clone, Copy)]
struct Placing {
    point: Vec3,
    made: usize,
}

// The placings made, and how many triangles were kept, or refusal 6.
#[derive(Clone, Copy)]
pub struct Placed {
    pub placings: usize,
    pub kept: Result<usize, Refusal>,
}

// How many triangles were kept, placings made, and whole triples the scene has.
#[derive(Clone, Copy)]
pub struct Loaded {
    pub triangles: usize,
    pub placings: usize,
    pub triples: usize,
}

// Two comparisons and no branch, so that nine coordinates are tested four at a time: what is not a number lies between no two.
fn far(x: f32) -> bool
    ensures { result ≡ far_of x }
{
    !((x <= FARTHEST) & (-FARTHEST <= x))
}

fn far_corner(v: Vec3) -> bool
    ensures { result ≡ is_far_corner v }
{
    far(v.x) | far(v.y) | far(v.z)
}

fn far_corners(a: Vec3, b: Vec3, c: Vec3) -> bool
    ensures { result ≡ has_far_corner a b c }
{
    far_corner(a) | far_corner(b) | far_corner(c)
}

// Vertex i, placed. Each placing counts itself, so that no corner is had without its count.
fn corner(positions: &[f32], transform: &[f32], i: usize, made: usize) -> Placing
    requires i_in_bounds { 3 * i + 2 < length positions.now }
    requires in_bounds { 16 ≤ length transform.now }
    requires made_bound { made < 4294967296 }
    ensures { result ≡ placing (corner_of positions.now transform.now i) (made + 1) }
{
    let p = Vec3 {
        x: positions[3 * i],
        y: positions[3 * i + 1],
        z: positions[3 * i + 2],
    };
    Placing {
        point: vector::transform_point4x4(p, transform, 0),
        made: made + 1,
    }
}

// One step of the pass, the corners placed and none far before them; `made` are the placings with these three.
fn keep(
    a: Vec3,
    b: Vec3,
    c: Vec3,
    handle: u32,
    n: usize,
    made: usize,
    st: State,
    triangles: &mut [f32],
    handles: &mut [u32],
) -> State
    requires room { Room n 1 (world triangles.old handles.old st) }
    requires far_value { st.far ≡ false }
    requires made_value { made ≡ st.placings + 3 }
    ensures { Did 1 (world triangles.old handles.old st) (world triangles.new handles.new result)
        (step_of n (world triangles.old handles.old st) (corners3 a b c handle)) }
{
    if far_corners(a, b, c) {
        return State {
            kept: st.kept,
            placings: made,
            far: true,
        };
    }
    let Some(t) = geometry::triangle_of(a, b, c, handle) else {
        return State {
            kept: st.kept,
            placings: made,
            far: false,
        };
    };
    let i = st.kept;
    columns::put_triangle(triangles, n, i, t);
    handles[i] = handle;
    State {
        kept: i + 1,
        placings: made,
        far: false,
    }
}

// One triple of a mesh. After a far corner nothing is placed, so that the count is that of the placings made.
fn place_triple(
    vertices: usize,
    positions: &[f32],
    transform: &[f32],
    i: usize,
    j: usize,
    k: usize,
    handle: u32,
    n: usize,
    st: State,
    triangles: &mut [f32],
    handles: &mut [u32],
) -> State
    requires vertices_in_bounds { 3 * vertices ≤ length positions.now }
    requires in_bounds { 16 ≤ length transform.now }
    requires room { Room n 1 (world triangles.old handles.old st) }
    ensures { Did 1 (world triangles.old handles.old st) (world triangles.new handles.new result) (run n
        (world triangles.old handles.old st)
        (corners_in vertices positions.now transform.now handle (triple i j k))) }
{
    if st.far {
        return st;
    }
    if i < vertices {
        if j < vertices {
            if k < vertices {
                let a = corner(positions, transform, i, st.placings);
                let b = corner(positions, transform, j, a.made);
                let c = corner(positions, transform, k, b.made);
                return keep(
                    a.point, b.point, c.point, handle, n, c.made, st, triangles, handles,
                );
            }
        }
    }
    st
}

// The triples of a mesh.
fn place_mesh(
    vertices: usize,
    positions: &[f32],
    indices: &[u32],
    transform: &[f32],
    handle: u32,
    n: usize,
    start: State,
    triangles: &mut [f32],
    handles: &mut [u32],
) -> State
    requires vertices_in_bounds { 3 * vertices ≤ length positions.now }
    requires in_bounds { 16 ≤ length transform.now }
    requires room { Room n (length (triples indices.now)) (world triangles.old handles.old start) }
    ensures { Did (length (triples indices.now)) (world triangles.old handles.old start) (world triangles.new
        handles.new result) (run n (world triangles.old handles.old start)
        (corners_of vertices positions.now transform.now handle (triples indices.now))) }
{
    let mut st = start;
    for t in 0..indices.len() / 3 {
        let i = indices[3 * t] as usize;
        let j = indices[3 * t + 1] as usize;
        let k = indices[3 * t + 2] as usize;
        st = place_triple(
            vertices, positions, transform, i, j, k, handle, n, st, triangles, handles,
        );
    }
    st
}

// All meshes.
fn place_all(
    meshes: &[u32],
    transforms: &[f32],
    positions: &[f32],
    indices: &[u32],
    n: usize,
    triangles: &mut [f32],
    handles: &mut [u32],
) -> State
    requires fits { Fits meshes.now (length transforms.now) (length positions.now) (length indices.now) n }
    requires n_le_most_triples { n ≤ most_triples }
    requires n_in_bounds { column_count * n ≤ length triangles.old }
    requires n_in_bounds_2 { n ≤ length handles.old }
    ensures result_after { world triangles.new handles.new result ≡ run n (world triangles.old handles.old (state 0 0 false))
        (corners_all (cut (headers meshes.now) transforms.now positions.now indices.now)) }
    ensures kept_le_n { result.kept ≤ n }
{
    let mut st = State {
        kept: 0,
        placings: 0,
        far: false,
    };
    let mut t = 0;
    let mut p = 0;
    let mut x = 0;
    for m in 0..meshes.len() / 3 {
        let v = meshes[3 * m] as usize;
        let k = meshes[3 * m + 1] as usize;
        let te = t + 16;
        let pe = p + 3 * v;
        let xe = x + k;
        st = place_mesh(
            v,
            &positions[p..pe],
            &indices[x..xe],
            &transforms[t..te],
            meshes[3 * m + 2],
            n,
            st,
            triangles,
            handles,
        );
        t = te;
        p = pe;
        x = xe;
    }
    st
}

// The pass: its answer, with the placings, and the areas.
pub fn triangles_from_scene(
    meshes: &[u32],
    transforms: &[f32],
    positions: &[f32],
    indices: &[u32],
    n: usize,
    triangles: &mut [f32],
    handles: &mut [u32],
) -> Placed
    requires fits { Fits meshes.now (length transforms.now) (length positions.now) (length indices.now) n }
    requires n_le_most_triples { n ≤ most_triples }
    requires n_in_bounds { column_count * n ≤ length triangles.old }
    requires n_in_bounds_2 { n ≤ length handles.old }
    ensures { PassedOver (corners_all (cut (headers meshes.now) transforms.now positions.now indices.now)) n
        triangles.old handles.old result triangles.new handles.new }
{
    let st = place_all(
        meshes, transforms, positions, indices, n, triangles, handles,
    );
    let placings = st.placings;
    if st.far {
        triangles.fill(0.0);
        handles.fill(0);
        return Placed {
            placings,
            kept: Err(Refusal::Far),
        };
    }
    Placed {
        placings,
        kept: Ok(st.kept),
    }
}

// The front of a query: settings, scene and areas tested, triangles placed; or the first refusal of 1 to 6 that applies. `lens` are the lengths of all areas.
pub fn load_scene(
    settings: Settings,
    c: u32,
    meshes: &[u32],
    transforms: &[f32],
    positions: &[f32],
    indices: &[u32],
    materials: &[f32],
    rows: u32,
    lens: [usize; scene::AREAS],
    triangles: &mut [f32],
    handles: &mut [u32],
) -> Result<Loaded, Refusal>
    requires { (get_or lens 0 0 ≤ length triangles.old) × (get_or lens 1 0 ≤ length handles.old) }
    ensures { let areas = scene meshes.now transforms.now positions.now indices.now materials.now rows in
        Loading (first_refusal settings c areas lens) areas triangles.old handles.old (load_said result) triangles.new
        handles.new }
{
    let triples = scene::check(
        settings, c, meshes, transforms, positions, indices, materials, rows, lens,
    )?;
    let placed = triangles_from_scene(
        meshes, transforms, positions, indices, triples, triangles, handles,
    );
    Ok(Loaded {
        triangles: placed.kept?,
        placings: placed.placings,
        triples: triples,
    })
}
