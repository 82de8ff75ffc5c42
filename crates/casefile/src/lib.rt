// Reads a case: settings, materials, meshes and positions in the text of reference/FORMAT.md, with remarks, and floats as decimals or by their
// bits. Proved: every text is read safely and to an end, nothing is stored outside the areas, and their lengths stay.
//
// A case is stored in seven areas. `w`, of 20 words: the four counts, merge, curve, separated, rows of the material table, meshes, all meshes' vertices
// and indices, the crossing limit, and the air's eight coefficients. `f`, of 18 floats: the seven of the settings, the four of the curve, source,
// listener, and the probe radius. Then materials, mesh rows, transforms, positions and indices as `scene` takes them.
#![tactic(auto)]

use scene::{OCCLUSION_MAX_CROSSINGS, REFLECTION_VISIBILITY_RADIUS};
use std::fmt;

// The room that the areas of a case have.
const MOST_MATERIALS: u32 = 64;

const MOST_MESHES: u32 = 64;

const MOST_VERTICES: u32 = 2048;

const MOST_INDICES: u32 = 1536;

// Places in `w`.
const MERGE: usize = 4;

const CURVE: usize = 5;

const SEPARATED: usize = 6;

const ROWS: usize = 7;

const MESH_COUNT: usize = 8;

const VERTEX_COUNT: usize = 9;

const INDEX_COUNT: usize = 10;

const CROSSING_LIMIT: usize = 11;

const AIR: usize = 12;

const BANDS: usize = 8;

// A place in `f`.
const PROBE_RADIUS: usize = 17;

// What was expected where a text goes wrong.
#[derive(Clone, Copy)]
pub enum Expected {
    Name,
    Whole,
    Float,
    Flag,
    Curve,
    FewMaterials,
    FewMeshes,
    FewVertices,
    FewIndices,
    NoMore,
    Word(&'static str),
}

impl fmt::Display for Expected {
    fn fmt<W: fmt::Write>(&self, f: &mut fmt::Formatter<W>) -> fmt::Result {
        match self {
            Expected::Name => write!(f, "a name"),
            Expected::Whole => write!(f, "a whole number below 4,294,967,296"),
            Expected::Float => write!(f, "a float"),
            Expected::Flag => write!(f, "0 or 1"),
            Expected::Curve => write!(f, "`inverse` or `linear`"),
            Expected::FewMaterials => write!(f, "at most 64 materials, which there is room for"),
            Expected::FewMeshes => write!(f, "at most 64 meshes, which there is room for"),
            Expected::FewVertices => {
                write!(f, "at most 2,048 vertices in all, which there is room for")
            }
            Expected::FewIndices => write!(
                f,
                "at most 1,536 indices in all (512 triangles), which there is room for"
            ),
            Expected::NoMore => write!(f, "nothing more after `end`"),
            Expected::Word(word) => write!(f, "`{word}`"),
        }
    }
}

// What was expected, where the token that stands there begins and ends, and its line.
#[derive(Clone, Copy)]
pub struct Fault {
    pub expected: Expected,
    pub from: usize,
    pub at: usize,
    pub line: u32,
}

// A text, where its last token that was read begins and ends, and the line of it.
#[derive(Drop)]
struct Reader<'a> {
    text: &'a [u8],
    from: usize,
    at: usize,
    line: u32,
}

// ---- one number of an area

// The word at k, 0 past the end.
pub fn word(w: &[u32], k: usize) -> u32 {
    w.get(k).copied().unwrap_or(0)
}

// The value at k; nothing past the end.
fn set<T: Copy>(area: &mut [T], k: usize, value: T) {
    if let Some(x) = area.get_mut(k) {
        *x = value;
    }
}

// n more at k, up to a million, which is past the end of every area.
fn add_word(w: &mut [u32], k: usize, n: u32) {
    let old = word(w, k);
    if old < 1_000_000 && n < 1_000_000 {
        set(w, k, old + n);
    }
}

// The place of row j, of 16 numbers, up to a million.
fn sixteen(j: usize) -> usize {
    if j < 60_000 {
        return 16 * j;
    }
    1_000_000
}

// ---- one token

impl<'a> Reader<'a> {
    // The next token.
    fn token(&mut self) -> &'a [u8] {
        let t = text::next_token(self.text, self.at, self.line);
        self.from = t.start;
        self.at = t.end;
        self.line = t.line;
        &self.text[t.start..t.end]
    }

    // What goes wrong at the last token.
    fn fault(&self, expected: Expected) -> Fault {
        Fault {
            expected,
            from: self.from,
            at: self.at,
            line: self.line,
        }
    }

    // The word `word`, which is all that may stand here.
    fn keyword(&mut self, word: &'static str) -> Result<(), Fault> {
        if self.token() == word.as_bytes() {
            return Ok(());
        }
        Err(self.fault(Expected::Word(word)))
    }

    // Whether the next token is this word; it is read if it is.
    fn follows(&mut self, word: &[u8]) -> bool {
        let t = text::next_token(self.text, self.at, self.line);
        if &self.text[t.start..t.end] != word {
            return false;
        }
        self.token();
        true
    }

    // Any token.
    fn name(&mut self) -> Result<(), Fault> {
        if self.token().len() == 0 {
            return Err(self.fault(Expected::Name));
        }
        Ok(())
    }

    // No token any more.
    fn no_more(&mut self) -> Result<(), Fault> {
        if self.token().len() == 0 {
            return Ok(());
        }
        Err(self.fault(Expected::NoMore))
    }

    // A whole number.
    fn whole(&mut self) -> Result<u32, Fault> {
        match text::whole(self.token()) {
            Some(n) => Ok(n),
            None => Err(self.fault(Expected::Whole)),
        }
    }

    // A float.
    fn float(&mut self) -> Result<f32, Fault> {
        match text::float_in(self.token()) {
            Some(x) => Ok(x),
            None => Err(self.fault(Expected::Float)),
        }
    }

    // What is wrong where n, which was read last, is above the limit.
    fn at_most(&self, n: u32, limit: u32, expected: Expected) -> Result<(), Fault> {
        if limit < n {
            return Err(self.fault(expected));
        }
        Ok(())
    }

    // n whole numbers, to place k and on.
    fn words(&mut self, w: &mut [u32], k: usize, n: usize) -> Result<(), Fault> {
        for j in 0..n {
            let value = self.whole()?;
            set(w, k.saturating_add(j), value);
        }
        Ok(())
    }

    // n floats, to place k and on.
    fn floats(&mut self, f: &mut [f32], k: usize, n: usize) -> Result<(), Fault> {
        for j in 0..n {
            let value = self.float()?;
            set(f, k.saturating_add(j), value);
        }
        Ok(())
    }

    // 0 or 1, to place k, which has the number also where it is neither.
    fn flag(&mut self, w: &mut [u32], k: usize) -> Result<(), Fault> {
        self.words(w, k, 1)?;
        self.at_most(word(w, k), 1, Expected::Flag)
    }

    // `inverse` is 0, `linear` 1.
    fn curve(&mut self) -> Result<u32, Fault> {
        if self.follows(b"linear") {
            return Ok(1);
        }
        if self.token() == b"inverse".as_slice() {
            return Ok(0);
        }
        Err(self.fault(Expected::Curve))
    }
}

// ---- settings

fn read_counts(r: &mut Reader, w: &mut [u32], f: &mut [f32]) -> Result<(), Fault> {
    r.keyword("case")?;
    r.name()?;
    r.keyword("counts")?;
    r.words(w, 0, 4)?;
    r.keyword("floats")?;
    r.floats(f, 0, 7)
}

fn read_model(r: &mut Reader, w: &mut [u32], f: &mut [f32]) -> Result<(), Fault> {
    r.keyword("merge")?;
    r.flag(w, MERGE)?;
    r.keyword("curve")?;
    set(w, CURVE, r.curve()?);
    r.floats(f, 7, 4)
}

// No probe settings: the Rust's constants.
fn no_probes(w: &mut [u32], f: &mut [f32]) {
    set(w, CROSSING_LIMIT, OCCLUSION_MAX_CROSSINGS);
    set(f, PROBE_RADIUS, REFLECTION_VISIBILITY_RADIUS);
}

// The line `probes`, which may be left out, and `materials` follows.
fn read_probes(r: &mut Reader, w: &mut [u32], f: &mut [f32]) -> Result<(), Fault> {
    if !r.follows(b"probes") {
        no_probes(w, f);
        return Ok(());
    }
    r.words(w, CROSSING_LIMIT, 1)?;
    r.floats(f, PROBE_RADIUS, 1)
}

// No coefficient: the air takes nothing.
fn no_air(w: &mut [u32]) {
    for k in 0..BANDS {
        set(w, AIR + k, 0);
    }
}

// The line `air`, which may be left out.
fn read_air(r: &mut Reader, w: &mut [u32]) -> Result<(), Fault> {
    if !r.follows(b"air") {
        no_air(w);
        return Ok(());
    }
    r.words(w, AIR, BANDS)
}

// What every case has.
fn read_stated(r: &mut Reader, w: &mut [u32], f: &mut [f32]) -> Result<(), Fault> {
    read_counts(r, w, f)?;
    read_model(r, w, f)
}

// All settings. Where the text goes wrong, the curve and the lines that may be left out, which it did not get to, are as without them.
fn read_settings(r: &mut Reader, w: &mut [u32], f: &mut [f32]) -> Result<(), Fault> {
    set(w, CURVE, 0);
    if let Err(fault) = read_stated(r, w, f) {
        no_probes(w, f);
        no_air(w);
        return Err(fault);
    }
    if let Err(fault) = read_probes(r, w, f) {
        no_air(w);
        return Err(fault);
    }
    read_air(r, w)
}

fn read_places(r: &mut Reader, f: &mut [f32]) -> Result<(), Fault> {
    r.keyword("source")?;
    r.floats(f, 11, 3)?;
    r.keyword("listener")?;
    r.floats(f, 14, 3)
}

fn read_last(r: &mut Reader, w: &mut [u32]) -> Result<(), Fault> {
    r.keyword("separated")?;
    r.flag(w, SEPARATED)?;
    r.keyword("end")?;
    r.no_more()
}

// ---- materials

fn read_materials(r: &mut Reader, w: &mut [u32], materials: &mut [f32]) -> Result<(), Fault> {
    r.keyword("materials")?;
    r.words(w, ROWS, 1)?;
    let n = word(w, ROWS);
    r.at_most(n, MOST_MATERIALS, Expected::FewMaterials)?;
    for j in 0..n as usize {
        r.keyword("m")?;
        r.floats(materials, sixteen(j), 16)?;
    }
    Ok(())
}

// ---- meshes

// n vertices, from vertex k on.
fn read_positions(r: &mut Reader, positions: &mut [f32], k: usize, n: usize) -> Result<(), Fault> {
    for j in 0..n {
        r.keyword("p")?;
        r.floats(positions, k.saturating_add(j).saturating_mul(3), 3)?;
    }
    Ok(())
}

// n indices, from place k on; every third begins a line.
fn read_indices(r: &mut Reader, indices: &mut [u32], k: usize, n: usize) -> Result<(), Fault> {
    for j in 0..n {
        if j % 3 == 0 {
            r.keyword("i")?;
        }
        r.words(indices, k.saturating_add(j), 1)?;
    }
    Ok(())
}

// The row of mesh j: handle, vertices and indices in the text; vertices, indices and handle in the area.
fn read_mesh_row(r: &mut Reader, meshes: &mut [u32], j: usize) -> Result<(), Fault> {
    let k = j.saturating_mul(3);
    r.keyword("mesh")?;
    r.words(meshes, k.saturating_add(2), 1)?;
    r.words(meshes, k, 2)
}

// Counts so many vertices and indices, if there is room for them.
fn count_mesh(r: &Reader, w: &mut [u32], vertices: u32, indices: u32) -> Result<(), Fault> {
    r.at_most(vertices, MOST_VERTICES, Expected::FewVertices)?;
    r.at_most(indices, MOST_INDICES, Expected::FewIndices)?;
    add_word(w, VERTEX_COUNT, vertices);
    add_word(w, INDEX_COUNT, indices);
    r.at_most(word(w, VERTEX_COUNT), MOST_VERTICES, Expected::FewVertices)?;
    r.at_most(word(w, INDEX_COUNT), MOST_INDICES, Expected::FewIndices)
}

fn read_mesh(
    r: &mut Reader,
    w: &mut [u32],
    meshes: &mut [u32],
    transforms: &mut [f32],
    positions: &mut [f32],
    indices: &mut [u32],
    j: usize,
) -> Result<(), Fault> {
    let first_vertex = word(w, VERTEX_COUNT);
    let first_index = word(w, INDEX_COUNT);
    read_mesh_row(r, meshes, j)?;
    let vertices = word(meshes, j.saturating_mul(3));
    let corners = word(meshes, j.saturating_mul(3).saturating_add(1));
    count_mesh(r, w, vertices, corners)?;
    r.keyword("t")?;
    r.floats(transforms, sixteen(j), 16)?;
    read_positions(r, positions, first_vertex as usize, vertices as usize)?;
    read_indices(r, indices, first_index as usize, corners as usize)
}

fn read_scene(
    r: &mut Reader,
    w: &mut [u32],
    meshes: &mut [u32],
    transforms: &mut [f32],
    positions: &mut [f32],
    indices: &mut [u32],
) -> Result<(), Fault> {
    r.keyword("meshes")?;
    r.words(w, MESH_COUNT, 1)?;
    let n = word(w, MESH_COUNT);
    r.at_most(n, MOST_MESHES, Expected::FewMeshes)?;
    for j in 0..n as usize {
        read_mesh(r, w, meshes, transforms, positions, indices, j)?;
    }
    Ok(())
}

// ---- a case

// The first case of a text, which holds no other, into areas that are zero.
pub fn read_case(
    s: &[u8],
    w: &mut [u32],
    f: &mut [f32],
    materials: &mut [f32],
    meshes: &mut [u32],
    transforms: &mut [f32],
    positions: &mut [f32],
    indices: &mut [u32],
) -> Result<(), Fault> {
    let mut r = Reader {
        text: s,
        from: 0,
        at: 0,
        line: 1,
    };
    read_settings(&mut r, w, f)?;
    read_materials(&mut r, w, materials)?;
    read_scene(&mut r, w, meshes, transforms, positions, indices)?;
    read_places(&mut r, f)?;
    read_last(&mut r, w)
}
