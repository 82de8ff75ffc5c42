// What is known of each plane, a byte each, as many as there can be planes after one another: whether the source lies on it, the mesh and the material of its first triangle,
// and whether its triangles are of several meshes.
use casefile::word;
use sequences::MAX_PLANES;

const MESHES: usize = MAX_PLANES;

const MATERIALS: usize = 2 * MAX_PLANES;

const SEVERAL: usize = 3 * MAX_PLANES;

pub(crate) const ALL: usize = 4 * MAX_PLANES;

fn tag(on: &[u8], k: usize) -> u8 {
    if k < on.len() { on[k] } else { 0 }
}

fn set_tag(on: &mut [u8], k: usize, value: u8) {
    if k < on.len() {
        on[k] = value;
    }
}

// The byte of plane p in the part that begins at `part`.
fn tag_of(on: &[u8], part: usize, p: usize) -> u8 {
    if p < MAX_PLANES {
        if part < ALL {
            return tag(on, part + p);
        }
    }
    0
}

pub(crate) fn mesh(on: &[u8], p: usize) -> u8 {
    tag_of(on, MESHES, p)
}

pub(crate) fn material(on: &[u8], p: usize) -> u8 {
    tag_of(on, MATERIALS, p)
}

pub(crate) fn is_of_several(on: &[u8], p: usize) -> bool {
    tag_of(on, SEVERAL, p) != 0
}

// ---- which mesh a triangle is of

fn byte(n: usize) -> u8 {
    if n < 256 { n as u8 } else { 255 }
}

// The first mesh whose triangles end behind triangle t.
fn mesh_of(ends: &[u32], t: u32) -> u8 {
    for j in 0..ends.len() {
        if t < word(ends, j) {
            return byte(j);
        }
    }
    255
}

fn plus(a: u32, b: usize) -> usize {
    let wide = a as usize;
    if b < 1000000 {
        return wide + b;
    }
    wide
}

// 1 where one of `count` triangles from place `first` on is of another mesh.
fn several(triangles: &[u32], ends: &[u32], first: u32, count: u32, mesh: u8) -> u8 {
    for k in 0..count as usize {
        if mesh_of(ends, word(triangles, plus(first, k))) != mesh {
            return 1;
        }
    }
    0
}

// The material of a mesh, as its row has it.
fn material_of(meshes: &[u32], mesh: u8) -> u8 {
    byte(word(meshes, 3 * (mesh as usize) + 2) as usize)
}

// What is known of plane p, but for the source.
fn set_plane(
    on: &mut [u8],
    words: &[u32],
    triangles: &[u32],
    meshes: &[u32],
    ends: &[u32],
    p: usize,
) {
    if MAX_PLANES <= p {
        return;
    }
    let first = word(words, 5 * p);
    let mesh = mesh_of(ends, word(triangles, first as usize));
    set_tag(on, MESHES + p, mesh);
    set_tag(on, MATERIALS + p, material_of(meshes, mesh));
    set_tag(
        on,
        SEVERAL + p,
        several(triangles, ends, first, word(words, 5 * p + 1), mesh),
    );
}

pub(crate) fn set_planes(
    on: &mut [u8],
    words: &[u32],
    triangles: &[u32],
    meshes: &[u32],
    ends: &[u32],
    planes: usize,
) {
    for p in 0..planes {
        set_plane(on, words, triangles, meshes, ends, p);
    }
}
