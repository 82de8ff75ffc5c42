// The areas of a query of at most 512 triples and 4,096 candidates (docs/AREAS.md), those that a case is read into, and the tap area. Each is
// zero and promises its length, which is all that lending it asks.
ghost use Rattle.std.specs.Prelude.{◌≡◌, length};
ghost use Rattle.packet.specs.Limits.{out_bytes, area_words};

use crate::tags;

// What there is room for.
const TRIPLES: usize = 512;

pub(crate) const CANDIDATES: usize = 4096;

// The lengths of the areas: those that `scene` asks for.
const TRIANGLES: usize = scene::TRIPLES[0] * TRIPLES
    + scene::CANDIDATES[0] * CANDIDATES
    + scene::MORE[0];

const HANDLES: usize = scene::TRIPLES[1] * TRIPLES
    + scene::CANDIDATES[1] * CANDIDATES
    + scene::MORE[1];

const TREE: usize = scene::TRIPLES[2] * TRIPLES
    + scene::CANDIDATES[2] * CANDIDATES
    + scene::MORE[2];

const NODES: usize = scene::TRIPLES[3] * TRIPLES
    + scene::CANDIDATES[3] * CANDIDATES
    + scene::MORE[3];

const LEAF_ORDER: usize = scene::TRIPLES[4] * TRIPLES
    + scene::CANDIDATES[4] * CANDIDATES
    + scene::MORE[4];

const KEYS: usize = scene::TRIPLES[5] * TRIPLES
    + scene::CANDIDATES[5] * CANDIDATES
    + scene::MORE[5];

const LOW_KEYS: usize = scene::TRIPLES[6] * TRIPLES
    + scene::CANDIDATES[6] * CANDIDATES
    + scene::MORE[6];

const WORDS: usize = scene::TRIPLES[7] * TRIPLES
    + scene::CANDIDATES[7] * CANDIDATES
    + scene::MORE[7];

const SCRATCH: usize = scene::TRIPLES[8] * TRIPLES
    + scene::CANDIDATES[8] * CANDIDATES
    + scene::MORE[8];

const INDEX: usize = scene::TRIPLES[9] * TRIPLES
    + scene::CANDIDATES[9] * CANDIDATES
    + scene::MORE[9];

const NUMBERS: usize = scene::TRIPLES[10] * TRIPLES
    + scene::CANDIDATES[10] * CANDIDATES
    + scene::MORE[10];

const ADJACENCY: usize = scene::TRIPLES[11] * TRIPLES
    + scene::CANDIDATES[11] * CANDIDATES
    + scene::MORE[11];

const QUEUE: usize = scene::TRIPLES[12] * TRIPLES
    + scene::CANDIDATES[12] * CANDIDATES
    + scene::MORE[12];

const OFFSETS: usize = scene::TRIPLES[13] * TRIPLES
    + scene::CANDIDATES[13] * CANDIDATES
    + scene::MORE[13];

const FLOATS: usize = scene::TRIPLES[14] * TRIPLES
    + scene::CANDIDATES[14] * CANDIDATES
    + scene::MORE[14];

const PLANE_TRIANGLES: usize = scene::TRIPLES[15] * TRIPLES
    + scene::CANDIDATES[15] * CANDIDATES
    + scene::MORE[15];

const PLANE_FLOATS: usize = scene::TRIPLES[16] * TRIPLES
    + scene::CANDIDATES[16] * CANDIDATES
    + scene::MORE[16];

const PLANE_WORDS: usize = scene::TRIPLES[17] * TRIPLES
    + scene::CANDIDATES[17] * CANDIDATES
    + scene::MORE[17];

const PLANE_EDGES: usize = scene::TRIPLES[18] * TRIPLES
    + scene::CANDIDATES[18] * CANDIDATES
    + scene::MORE[18];

pub(crate) const LENGTHS: [usize; scene::AREAS] = [
    TRIANGLES,
    HANDLES,
    TREE,
    NODES,
    LEAF_ORDER,
    KEYS,
    LOW_KEYS,
    WORDS,
    SCRATCH,
    INDEX,
    NUMBERS,
    ADJACENCY,
    QUEUE,
    OFFSETS,
    FLOATS,
    PLANE_TRIANGLES,
    PLANE_FLOATS,
    PLANE_WORDS,
    PLANE_EDGES,
    packet::OUT_BYTES,
];

pub(crate) fn fresh_triangles() -> [f32; TRIANGLES]
    ensures { length result ≡ 11776 }
{
    [0.0; TRIANGLES]
}

pub(crate) fn fresh_handles() -> [u32; HANDLES]
    ensures { length result ≡ 512 }
{
    [0u32; HANDLES]
}

pub(crate) fn fresh_tree() -> [f32; TREE]
    ensures { length result ≡ 11264 }
{
    [0.0; TREE]
}

pub(crate) fn fresh_nodes() -> [u32; NODES]
    ensures { length result ≡ 4096 }
{
    [0u32; NODES]
}

pub(crate) fn fresh_leaf_order() -> [u32; LEAF_ORDER]
    ensures { length result ≡ 512 }
{
    [0u32; LEAF_ORDER]
}

pub(crate) fn fresh_keys() -> [u64; KEYS]
    ensures { length result ≡ 5632 }
{
    [0u64; KEYS]
}

pub(crate) fn fresh_low_keys() -> [u64; LOW_KEYS]
    ensures { length result ≡ 1536 }
{
    [0u64; LOW_KEYS]
}

pub(crate) fn fresh_words() -> [u64; WORDS]
    ensures { length result ≡ 16384 }
{
    [0u64; WORDS]
}

pub(crate) fn fresh_scratch() -> [u64; SCRATCH]
    ensures { length result ≡ 16384 }
{
    [0u64; SCRATCH]
}

pub(crate) fn fresh_index() -> [u32; INDEX]
    ensures { length result ≡ 1536 }
{
    [0u32; INDEX]
}

pub(crate) fn fresh_numbers() -> [u32; NUMBERS]
    ensures { length result ≡ 9728 }
{
    [0u32; NUMBERS]
}

pub(crate) fn fresh_adjacency() -> [u32; ADJACENCY]
    ensures { length result ≡ 12288 }
{
    [0u32; ADJACENCY]
}

pub(crate) fn fresh_queue() -> [u32; QUEUE]
    ensures { length result ≡ 5632 }
{
    [0u32; QUEUE]
}

pub(crate) fn fresh_offsets() -> [u32; OFFSETS]
    ensures { length result ≡ 1537 }
{
    [0u32; OFFSETS]
}

pub(crate) fn fresh_floats() -> [f32; FLOATS]
    ensures { length result ≡ 59392 }
{
    [0.0; FLOATS]
}

pub(crate) fn fresh_plane_triangles() -> [u32; PLANE_TRIANGLES]
    ensures { length result ≡ 513 }
{
    [0u32; PLANE_TRIANGLES]
}

pub(crate) fn fresh_plane_floats() -> [f32; PLANE_FLOATS]
    ensures { length result ≡ 6144 }
{
    [0.0; PLANE_FLOATS]
}

pub(crate) fn fresh_plane_words() -> [u32; PLANE_WORDS]
    ensures { length result ≡ 2560 }
{
    [0u32; PLANE_WORDS]
}

pub(crate) fn fresh_plane_edges() -> [f32; PLANE_EDGES]
    ensures { length result ≡ 9216 }
{
    [0.0; PLANE_EDGES]
}

pub(crate) fn fresh_output() -> [u8; packet::OUT_BYTES]
    ensures { length result ≡ out_bytes }
{
    [0u8; packet::OUT_BYTES]
}

// What is known of each plane: the bytes of `tags`.
pub(crate) fn fresh_on() -> [u8; tags::ALL]
    ensures { length result ≡ 1024 }
{
    [0u8; tags::ALL]
}

// For each mesh how many triangles are kept up to its end.
pub(crate) fn fresh_ends() -> [u32; 64]
    ensures { length result ≡ 64 }
{
    [0u32; 64]
}

pub(crate) fn fresh_case_words() -> [u32; 20]
    ensures { length result ≡ 20 }
{
    [0u32; 20]
}

pub(crate) fn fresh_case_floats() -> [f32; 18]
    ensures { length result ≡ 18 }
{
    [0.0; 18]
}

pub(crate) fn fresh_case_rows() -> [f32; 1024]
    ensures { length result ≡ 1024 }
{
    [0.0; 1024]
}

pub(crate) fn fresh_case_meshes() -> [u32; 192]
    ensures { length result ≡ 192 }
{
    [0u32; 192]
}

pub(crate) fn fresh_case_positions() -> [f32; 6144]
    ensures { length result ≡ 6144 }
{
    [0.0; 6144]
}

pub(crate) fn fresh_case_indices() -> [u32; 1536]
    ensures { length result ≡ 1536 }
{
    [0u32; 1536]
}

pub(crate) fn fresh_taps() -> [u32; packet::AREA_WORDS]
    ensures { length result ≡ area_words }
{
    [0u32; packet::AREA_WORDS]
}
