// The echoes of a booth, as a person asks for them. Without arguments: a built-in booth, as a table. `booth SCENE.case`: the scene and settings of
// a text (docs/BOOTH.md). `booth SCENE.case PACKET.bin`: the same, and the packet to a file. `booth --all SCENE.case ..`: the built-in booth and some
// scenes. `--time` before any of it puts the echoes in the order of their delays. Bad input is answered in words, on standard error.
//
// Proved: it is safe and ends, whatever the file holds. What it prints is the answer of `query`, whose contract says what that is.
#![tactic(auto)]

mod areas;
mod faults;
mod forecast;
mod heading;
mod names;
mod notes;
mod remarks;
mod scene_text;
mod table;
mod tags;

ghost use Rattle.std.specs.Prelude.{◌≡◌, ◌*◌, ◌≤◌, length, IfOk};
ghost use Rattle.mirror.specs.Rows.{plane_float_count, plane_word_count};

use air::Air;
use answer::Answered;
use placing::Loaded;
use refusals::Refusal;
use scene::Settings;
use std::env::{Env, FillError};
use std::fs::{Files, OpenOptions};
use std::io::{Read, Seek, SeekFrom, Write};
use std::{fs, io};
use table::ErrorBytes;
use vector::Vec3;

// The candidates that there is room for.
const CANDIDATES: u32 = areas::CANDIDATES as u32;

const MOST_CANDIDATES: u32 = sequences::MAX_IMAGE_NODES as u32;

// More taps than any list has, and the most planes.
const ALL_TAPS: u32 = 1000000;

const ALL_PLANES: u32 = sequences::MAX_PLANES as u32;

// ---- the query

// The float at k, 0 past the end.
pub(crate) fn real(f: &[f32], k: usize) -> f32 {
    if k < f.len() { f[k] } else { 0.0 }
}

fn model_of(w: &[u32], f: &[f32]) -> bands::DistanceModel {
    bands::DistanceModel {
        curve: arguments::curve_of(casefile::word(w, 5)),
        reference_distance: real(f, 7),
        rolloff_factor: real(f, 8),
        min_distance: real(f, 9),
        max_distance: real(f, 10),
    }
}

fn air_of(w: &[u32]) -> Air {
    Air {
        a0: casefile::word(w, 12),
        a1: casefile::word(w, 13),
        a2: casefile::word(w, 14),
        a3: casefile::word(w, 15),
        a4: casefile::word(w, 16),
        a5: casefile::word(w, 17),
        a6: casefile::word(w, 18),
        a7: casefile::word(w, 19),
    }
}

// The settings of a case, but for two that say what is cut: how many taps and how many planes are kept.
fn settings_with(w: &[u32], f: &[f32], taps: u32, planes: u32) -> Settings {
    let plane_merge = casefile::word(w, 4) != 0;
    let distance_model = model_of(w, f);
    Settings {
        max_reflection_order: casefile::word(w, 0),
        max_reflections: taps,
        max_reflection_planes: planes,
        reflection_edge_fade: real(f, 0),
        max_reflection_distance: real(f, 1),
        temperature_celsius: real(f, 2),
        sample_rate: real(f, 3),
        plane_merge_cos: real(f, 4),
        plane_merge,
        plane_merge_offset: real(f, 5),
        plane_buried_distance: real(f, 6),
        distance_model,
        crossing_limit: casefile::word(w, 11),
        probe_radius: real(f, 17),
        air: air_of(w),
    }
}

fn settings_of(w: &[u32], f: &[f32]) -> Settings {
    settings_with(w, f, casefile::word(w, 1), casefile::word(w, 2))
}

fn settings_taps(w: &[u32], f: &[f32], taps: u32) -> Settings {
    settings_with(w, f, taps, casefile::word(w, 2))
}

fn settings_planes(w: &[u32], f: &[f32], planes: u32) -> Settings {
    settings_with(w, f, casefile::word(w, 1), planes)
}

pub(crate) fn point_of(f: &[f32], k: usize) -> Vec3 {
    if k < 1000 {
        return Vec3 {
            x: real(f, k),
            y: real(f, k + 1),
            z: real(f, k + 2),
        };
    }
    Vec3 {
        x: 0.0,
        y: 0.0,
        z: 0.0,
    }
}

// The candidate room of the call: that of the case, cut to what there is here unless it is refused as it is.
fn room_of(c: u32) -> u32 {
    if MOST_CANDIDATES < c {
        c
    } else {
        c.min(CANDIDATES)
    }
}

fn separated_of(w: &[u32]) -> bool {
    casefile::word(w, 6) != 0
}

// A case that was read, in its areas (`casefile`).
#[derive(Clone, Copy)]
pub(crate) struct Case<'a> {
    w: &'a [u32],
    f: &'a [f32],
    meshes: &'a [u32],
    transforms: &'a [f32],
    positions: &'a [f32],
    indices: &'a [u32],
    materials: &'a [f32],
}

// The answer of a query, how many planes its scene has, how many it would have if none were cut, and how many taps there would be in the longest list.
#[derive(Drop)]
pub(crate) struct Named {
    answer: Answered,
    planes: usize,
    found: usize,
    heard: usize,
}

// The query in areas of its own, with so many taps. It is long because each area is lent once: to hand them all on a second time costs more to check.
fn trace(out: &mut [u8], c: Case, taps: u32) -> Answered {
    let mut triangles = areas::fresh_triangles();
    let mut handles = areas::fresh_handles();
    let mut tree = areas::fresh_tree();
    let mut nodes = areas::fresh_nodes();
    let mut leaf_order = areas::fresh_leaf_order();
    let mut keys = areas::fresh_keys();
    let mut low_keys = areas::fresh_low_keys();
    let mut words = areas::fresh_words();
    let mut scratch = areas::fresh_scratch();
    let mut index = areas::fresh_index();
    let mut numbers = areas::fresh_numbers();
    let mut adjacency = areas::fresh_adjacency();
    let mut queue = areas::fresh_queue();
    let mut offsets = areas::fresh_offsets();
    let mut floats = areas::fresh_floats();
    let mut plane_triangles = areas::fresh_plane_triangles();
    let mut plane_floats = areas::fresh_plane_floats();
    let mut plane_words = areas::fresh_plane_words();
    let mut plane_edges = areas::fresh_plane_edges();
    let settings = settings_taps(c.w, c.f, taps);
    let source = point_of(c.f, 11);
    let listener = point_of(c.f, 14);
    let room = room_of(casefile::word(c.w, 3));
    let count = casefile::word(c.w, 7);
    let separated = separated_of(c.w);
    query::trace_early_reflections(
        &mut triangles,
        &mut handles,
        &mut tree,
        &mut nodes,
        &mut leaf_order,
        &mut keys,
        &mut low_keys,
        &mut words,
        &mut scratch,
        &mut index,
        &mut numbers,
        &mut adjacency,
        &mut queue,
        &mut offsets,
        &mut floats,
        &mut plane_triangles,
        &mut plane_floats,
        &mut plane_words,
        &mut plane_edges,
        out,
        settings,
        room,
        c.meshes,
        c.transforms,
        c.positions,
        c.indices,
        c.materials,
        count,
        source,
        listener,
        separated,
    )
}

// A byte for each plane where there is room for them: 1 where the source lies on it.
fn mark(on: &mut [u8], plane_floats: &[f32], plane_words: &[u32], planes: usize, source: Vec3)
    requires { (plane_float_count * planes ≤ length plane_floats.now) × (plane_word_count * planes ≤ length plane_words.now) }
{
    if planes <= on.len() {
        walls::mark_planes(plane_floats, plane_words, source, &mut on[..planes]);
    }
}

// Loads the scene, or its first meshes, once more, in areas of its own.
fn load(c: Case) -> Result<Loaded, Refusal> {
    let mut triangles = areas::fresh_triangles();
    let mut handles = areas::fresh_handles();
    placing::load_scene(
        settings_of(c.w, c.f),
        room_of(casefile::word(c.w, 3)),
        c.meshes,
        c.transforms,
        c.positions,
        c.indices,
        c.materials,
        casefile::word(c.w, 7),
        areas::LENGTHS,
        &mut triangles,
        &mut handles,
    )
}

// How many triangles are kept of the first n meshes, which have so many vertices and indices.
fn kept_of(c: Case, n: usize, vertices: usize, corners: usize) -> u32
    requires { (n ≤ 64) × (vertices ≤ 1000000) }
{
    let mesh_words = 3 * n;
    let mesh_floats = 16 * n;
    let coordinates = 3 * vertices;
    if c.meshes.len() < mesh_words
        || c.transforms.len() < mesh_floats
        || c.positions.len() < coordinates
        || c.indices.len() < corners
    {
        return 0;
    }
    notes::kept_of(load(Case {
        meshes: &c.meshes[..mesh_words],
        transforms: &c.transforms[..mesh_floats],
        positions: &c.positions[..coordinates],
        indices: &c.indices[..corners],
        ..c
    }))
}

// a + b, up to a million.
fn plus(a: usize, b: u32) -> usize
    ensures { result ≤ 1000000 }
{
    let wide = b as usize;
    if a < 500000 {
        if wide < 500000 {
            return a + wide;
        }
    }
    1000000
}

fn set_word(w: &mut [u32], k: usize, value: u32) {
    if k < w.len() {
        w[k] = value;
    }
}

// For each mesh how many triangles are kept up to its end.
fn set_ends(ends: &mut [u32], c: Case) {
    let mut vertices = 0;
    let mut corners = 0;
    for j in 0..64 {
        vertices = plus(vertices, casefile::word(c.meshes, 3 * j));
        corners = plus(corners, casefile::word(c.meshes, 3 * j + 1));
        let kept = kept_of(c, j + 1, vertices, corners);
        set_word(ends, j, kept);
    }
}

// What is known of the planes: whether the source lies on each, and which mesh it is of.
fn describe(
    on: &mut [u8],
    plane_floats: &[f32],
    plane_words: &[u32],
    plane_triangles: &[u32],
    c: Case,
    planes: usize,
    source: Vec3,
)
    requires { (plane_float_count * planes ≤ length plane_floats.now) × (plane_word_count * planes ≤ length plane_words.now) }
{
    mark(on, plane_floats, plane_words, planes, source);
    let mut ends = areas::fresh_ends();
    set_ends(&mut ends, c);
    tags::set_planes(on, plane_words, plane_triangles, c.meshes, &ends, planes);
}

// The planes of the scene, at most `most`, in plane_floats and plane_words, and what is known of each, in `on`; in areas of its own, since those of the query
// are gone. The answer is how many planes there are. It is as long as `trace`, and for the same reason.
fn name_walls(
    plane_floats: &mut [f32],
    plane_words: &mut [u32],
    on: &mut [u8],
    c: Case,
    most: u32,
) -> usize {
    let mut triangles = areas::fresh_triangles();
    let mut handles = areas::fresh_handles();
    let mut tree = areas::fresh_tree();
    let mut nodes = areas::fresh_nodes();
    let mut leaf_order = areas::fresh_leaf_order();
    let mut keys = areas::fresh_keys();
    let mut low_keys = areas::fresh_low_keys();
    let mut words = areas::fresh_words();
    let mut scratch = areas::fresh_scratch();
    let mut index = areas::fresh_index();
    let mut numbers = areas::fresh_numbers();
    let mut adjacency = areas::fresh_adjacency();
    let mut queue = areas::fresh_queue();
    let mut offsets = areas::fresh_offsets();
    let mut floats = areas::fresh_floats();
    let mut plane_triangles = areas::fresh_plane_triangles();
    let mut plane_edges = areas::fresh_plane_edges();
    let settings = settings_planes(c.w, c.f, most);
    let source = point_of(c.f, 11);
    let room = room_of(casefile::word(c.w, 3));
    let count = casefile::word(c.w, 7);
    let planes = walls::planes_of(
        &mut triangles,
        &mut handles,
        &mut tree,
        &mut nodes,
        &mut leaf_order,
        &mut keys,
        &mut low_keys,
        &mut words,
        &mut scratch,
        &mut index,
        &mut numbers,
        &mut adjacency,
        &mut queue,
        &mut offsets,
        &mut floats,
        &mut plane_triangles,
        plane_floats,
        plane_words,
        &mut plane_edges,
        settings,
        room,
        c.meshes,
        c.transforms,
        c.positions,
        c.indices,
        c.materials,
        count,
    )
    .unwrap_or(0);
    describe(
        on,
        plane_floats,
        plane_words,
        &plane_triangles,
        c,
        planes,
        source,
    );
    planes
}

// How many planes there are if none are cut, where there are as many as the settings allow.
fn count_planes(c: Case, planes: usize) -> usize {
    if planes < casefile::word(c.w, 2) as usize {
        return planes;
    }
    let mut plane_floats = areas::fresh_plane_floats();
    let mut plane_words = areas::fresh_plane_words();
    let mut on = areas::fresh_on();
    name_walls(&mut plane_floats, &mut plane_words, &mut on, c, ALL_PLANES)
}

// How many taps there are in the longest list, where there are as many as the settings allow.
fn count_taps(c: Case, count: usize) -> usize {
    if count < casefile::word(c.w, 1) as usize {
        return count;
    }
    let mut out = areas::fresh_output();
    let r = trace(&mut out, c, ALL_TAPS);
    r.count
}

// What was left out of an answer: planes and taps are counted once more, as if none were cut.
fn count_all(c: Case, answer: Answered, planes: usize) -> Named {
    let found = count_planes(c, planes);
    let heard = count_taps(c, answer.count);
    Named {
        answer,
        planes,
        found,
        heard,
    }
}

// The planes of an answer that is no refusal, and what was left out.
fn name_answer(
    rt: &impl Print,
    plane_floats: &mut [f32],
    plane_words: &mut [u32],
    on: &mut [u8],
    c: Case,
    answer: Answered,
) -> io::Result<Named> {
    let planes = name_walls(plane_floats, plane_words, on, c, casefile::word(c.w, 2));
    notes::print_loaded(rt, load(c))?;
    Ok(count_all(c, answer, planes))
}

// The query, and the planes where it is not refused.
fn trace_and_name(
    rt: &impl Print,
    out: &mut [u8],
    plane_floats: &mut [f32],
    plane_words: &mut [u32],
    on: &mut [u8],
    c: Case,
) -> io::Result<Named> {
    let answer = trace(out, c, casefile::word(c.w, 1));
    if answer.refusal != 0 {
        return Ok(Named {
            answer,
            planes: 0,
            found: 0,
            heard: 0,
        });
    }
    name_answer(rt, plane_floats, plane_words, on, c, answer)
}

// The order that the query searches to.
pub(crate) fn order_of(w: &[u32], f: &[f32]) -> u32 {
    let order = front::search_order(settings_of(w, f));
    if order <= sequences::MAX_IMAGE_ORDER {
        return order as u32;
    }
    0
}

// A count of a case, cut to what its area holds.
pub(crate) fn limited(n: u32, most: usize) -> usize
    ensures { result ≤ most }
{
    (n as usize).min(most)
}

// What stands above the table, and the query, of a case that was read: the parts of its areas that it fills.
fn ask(
    rt: &impl Print,
    out: &mut [u8],
    plane_floats: &mut [f32],
    plane_words: &mut [u32],
    on: &mut [u8],
    c: Case,
    s: &[u8],
) -> io::Result<Named>
    requires { (192 ≤ length c.meshes.now) × (1024 ≤ length c.transforms.now) × (6144 ≤ length c.positions.now) × (1536 ≤ length c.indices.now) ×
        (1024 ≤ length c.materials.now) }
{
    heading::print_before(rt, s, c.w, c.f, c.materials)?;
    let rows = 16 * limited(casefile::word(c.w, 7), 64);
    let mesh_words = 3 * limited(casefile::word(c.w, 8), 64);
    let mesh_floats = 16 * limited(casefile::word(c.w, 8), 64);
    let coordinates = 3 * limited(casefile::word(c.w, 9), 2048);
    let corners = limited(casefile::word(c.w, 10), 1536);
    let filled = Case {
        meshes: &c.meshes[..mesh_words],
        transforms: &c.transforms[..mesh_floats],
        positions: &c.positions[..coordinates],
        indices: &c.indices[..corners],
        materials: &c.materials[..rows],
        ..c
    };
    trace_and_name(rt, out, plane_floats, plane_words, on, filled)
}

// ---- a text

// A name that is no text: std opens no file by it.
fn no_name() -> io::Error {
    io::Error::from(io::ErrorKind::InvalidFilename)
}

fn open_read<R: Files>(rt: &R, path: &[u8]) -> io::Result<R::File> {
    match std::str::from_utf8(path) {
        Ok(name) => fs::open(rt, name),
        Err(_) => Err(no_name()),
    }
}

// Opens a file to be written, and empties it, or makes it.
fn open_overwrite<R: Files>(rt: &R, path: &[u8]) -> io::Result<R::File> {
    match std::str::from_utf8(path) {
        Ok(name) => fs::create(rt, name),
        Err(_) => Err(no_name()),
    }
}

// Opens a file that is there to be read and written, and leaves its bytes as they are.
fn open_update<R: Files>(rt: &R, path: &[u8]) -> io::Result<R::File> {
    match std::str::from_utf8(path) {
        Ok(name) => OpenOptions::new().read(true).write(true).open(rt, name),
        Err(_) => Err(no_name()),
    }
}

// Empties a file, or makes it; whether it could.
fn emptied(rt: &(impl Files + ErrorBytes + AllocGlobal), path: &[u8]) -> io::Result<bool> {
    match open_overwrite(rt, path) {
        Ok(_) => Ok(true),
        Err(error) => {
            faults::say_failed(rt, path, error)?;
            Ok(false)
        }
    }
}

// The same of a file that may not be named.
fn cleared(rt: &(impl Files + ErrorBytes + AllocGlobal), path: &[u8]) -> io::Result<bool> {
    if path.len() == 0 {
        return Ok(true);
    }
    emptied(rt, path)
}

// The packet to an open file, which is closed. One that is cut short is taken back.
fn fill(
    rt: &(impl Files + ErrorBytes + AllocGlobal),
    mut file: impl Write + Drop,
    path: &[u8],
    packet: &[u8],
) -> io::Result<()> {
    let written = file.write_all(packet);
    drop(file);
    let Err(error) = written else {
        return Ok(());
    };
    let said = faults::say_failed(rt, path, error);
    emptied(rt, path)?;
    said
}

// The packet to a file, if one is named.
fn save(
    rt: &(impl Files + ErrorBytes + AllocGlobal),
    path: &[u8],
    packet: &[u8],
) -> io::Result<()> {
    if path.len() == 0 {
        return Ok(());
    }
    match open_overwrite(rt, path) {
        Ok(file) => fill(rt, file, path, packet),
        Err(error) => faults::say_failed(rt, path, error),
    }
}

// What is said of an answer: the refusal, or the table; the packet goes to the file.
fn report(
    rt: &(impl Files + Print + ErrorBytes + AllocGlobal),
    out: &[u8],
    plane_floats: &[f32],
    plane_words: &[u32],
    on: &[u8],
    named: Named,
    w: &[u32],
    f: &[f32],
    path: &[u8],
    s: &[u8],
    by_time: bool,
) -> io::Result<()>
    requires { (3072 ≤ length plane_floats.now) × (1280 ≤ length plane_words.now) }
{
    let r = named.answer;
    let bytes = r.bytes;
    let planes = named.planes;
    if r.refusal != 0 {
        return faults::say_refusal(rt, s, r.refusal, settings_of(w, f), casefile::word(w, 3));
    }
    if out.len() < bytes || on.len() < planes {
        return Ok(());
    }
    table::print_table(
        rt,
        &out[..bytes],
        plane_floats,
        plane_words,
        &on[..planes],
        on,
        s,
        order_of(w, f),
        real(f, 3),
        by_time,
        r,
    )?;
    save(rt, path, &out[..bytes])?;
    print_notes(rt, on, named, w, f)
}

fn print_notes(rt: &impl Print, on: &[u8], named: Named, w: &[u32], f: &[f32]) -> io::Result<()> {
    notes::print_notes(
        rt,
        on,
        named,
        front::list_limit(settings_of(w, f)),
        front::list_limit(settings_taps(w, f, ALL_TAPS)),
        order_of(w, f),
        separated_of(w),
    )
}

// Asks for a case that was read, and says what the answer is.
fn answer_case(
    rt: &(impl Files + Print + ErrorBytes + AllocGlobal),
    c: Case,
    s: &[u8],
    path: &[u8],
    by_time: bool,
) -> io::Result<()>
    requires { (192 ≤ length c.meshes.now) × (1024 ≤ length c.transforms.now) × (6144 ≤ length c.positions.now) × (1536 ≤ length c.indices.now) ×
        (1024 ≤ length c.materials.now) }
{
    let mut out = areas::fresh_output();
    let mut plane_floats = areas::fresh_plane_floats();
    let mut plane_words = areas::fresh_plane_words();
    let mut on = areas::fresh_on();
    let named = ask(
        rt,
        &mut out,
        &mut plane_floats,
        &mut plane_words,
        &mut on,
        c,
        s,
    )?;
    report(
        rt,
        &out,
        &plane_floats,
        &plane_words,
        &on,
        named,
        c.w,
        c.f,
        path,
        s,
        by_time,
    )
}

// Reads a text, asks, and says what the answer is.
pub(crate) fn run(
    rt: &(impl Files + Print + ErrorBytes + AllocGlobal),
    s: &[u8],
    path: &[u8],
    by_time: bool,
) -> io::Result<()> {
    let mut w = areas::fresh_case_words();
    let mut f = areas::fresh_case_floats();
    let mut materials = areas::fresh_case_rows();
    let mut meshes = areas::fresh_case_meshes();
    let mut transforms = areas::fresh_case_rows();
    let mut positions = areas::fresh_case_positions();
    let mut indices = areas::fresh_case_indices();
    if let Err(fault) = casefile::read_case(
        s,
        &mut w,
        &mut f,
        &mut materials,
        &mut meshes,
        &mut transforms,
        &mut positions,
        &mut indices,
    ) {
        return faults::say_wrong(rt, s, fault);
    }
    let c = Case {
        w: &w,
        f: &f,
        meshes: &meshes,
        transforms: &transforms,
        positions: &positions,
        indices: &indices,
        materials: &materials,
    };
    answer_case(rt, c, s, path, by_time)
}

// ---- files

// Room for a file, and a byte more that tells a longer one.
fn room() -> [u8; 262_145] {
    [0u8; 262_145]
}

// Reads until `buf` is full, the file ends or a read fails: what was read before a failure counts, unlike in `text::read_full`. Answers how many bytes
// stand at its start.
fn read_full(file: &mut impl Read, buf: &mut [u8]) -> usize
    ensures { result ≤ length buf.new }
{
    let mut done = 0;
    while done < buf.len() {
        let Ok(n) = file.read(&mut buf[done..]) else {
            return done;
        };
        if n == 0 {
            return done;
        }
        done += n;
    }
    done
}

// Why a file that gave no bytes cannot be read, as a directory.
fn unread(file: &mut impl Read) -> Option<io::Error> {
    let mut byte = [0u8; 1];
    file.read(&mut byte).err()
}

// The bytes of a file, as many as have room.
fn read_scene(rt: &impl Files, scene: &[u8], buf: &mut [u8]) -> io::Result<usize>
    ensures { IfOk result (λ n. n ≤ length buf.new) }
{
    let mut file = open_read(rt, scene)?;
    let n = read_full(&mut file, buf);
    if n == 0 {
        if let Some(error) = unread(&mut file) {
            return Err(error);
        }
    }
    Ok(n)
}

// Whether an open file has these bytes, which are some. One without a length, as a pipe or a terminal, is not read.
fn has_bytes(file: &mut (impl Read + Seek), bytes: &[u8]) -> bool {
    match file.seek(SeekFrom::End(0)) {
        Ok(0) => return false,
        Ok(_) => {}
        Err(_) => return false,
    }
    if file.seek(SeekFrom::Start(0)).is_err() {
        return false;
    }
    let mut buf = room();
    let n = read_full(file, &mut buf);
    &buf[..n] == bytes
}

// Whether the file that is named has the bytes of the scene, as where both names are of one file.
fn is_scene(rt: &impl Files, path: &[u8], bytes: &[u8]) -> bool {
    if path.len() == 0 {
        return false;
    }
    match open_update(rt, path) {
        Ok(mut file) => has_bytes(&mut file, bytes),
        Err(_) => false,
    }
}

// Whether a text begins with a byte order mark.
fn is_marked(s: &[u8]) -> bool {
    s.starts_with(b"\xef\xbb\xbf")
}

// Runs a scene's bytes. The packet's file is emptied first, so that no failure leaves the packet of an earlier run.
fn run_bytes(
    rt: &(impl Files + Print + ErrorBytes + AllocGlobal),
    bytes: &[u8],
    path: &[u8],
    by_time: bool,
) -> io::Result<()> {
    if is_scene(rt, path, bytes) {
        return table::say(rt, b"the packet would overwrite the scene\n");
    }
    if !cleared(rt, path)? {
        return Ok(());
    }
    if 262_144 < bytes.len() {
        return table::say(rt, b"the scene is longer than 262,144 bytes\n");
    }
    if is_marked(bytes) {
        return table::say(
            rt,
            b"line 1: the text begins with a byte order mark (ef bb bf): save it without one\n",
        );
    }
    run(rt, bytes, path, by_time)
}

// Reads a whole file and runs it.
fn run_file(
    rt: &(impl Files + Print + ErrorBytes + AllocGlobal),
    scene: &[u8],
    path: &[u8],
    by_time: bool,
) -> io::Result<()> {
    let mut buf = room();
    match read_scene(rt, scene, &mut buf) {
        Ok(n) => run_bytes(rt, &buf[..n], path, by_time),
        Err(error) => {
            let said = faults::say_failed(rt, scene, error);
            cleared(rt, path)?;
            said
        }
    }
}

// Two names, which must not be equal.
fn run_names(
    rt: &(impl Files + Print + ErrorBytes + AllocGlobal),
    scene: &[u8],
    path: &[u8],
    by_time: bool,
) -> io::Result<()> {
    if scene == path {
        return table::say(rt, b"the scene and the packet have the same name\n");
    }
    run_file(rt, scene, path, by_time)
}

// ---- arguments

// Room for a name. A longer one counts as none.
fn buffer() -> [u8; 4096]
    ensures { length result ≡ 4096 }
{
    [0; 4096]
}

// Argument k at the start of `buf`, and how long it is; 0 where there is none, or it is longer than `buf`.
fn arg(rt: &impl Env, k: usize, buf: &mut [u8]) -> usize
    ensures { result ≤ length buf.new }
{
    rt.arg(k, buf).unwrap_or(0)
}

// How many arguments there are, with the program's name.
fn arg_count(rt: &impl Env) -> usize {
    let mut byte = [0u8; 1];
    for k in 0..usize::MAX {
        if let Err(FillError::NotPresent) = rt.arg(k, &mut byte) {
            return k;
        }
    }
    usize::MAX
}

// The scene that argument k names.
fn run_scene(
    rt: &(impl Env + Files + Print + ErrorBytes + AllocGlobal),
    k: usize,
    by_time: bool,
) -> io::Result<()> {
    let mut scene = buffer();
    let n = arg(rt, k, &mut scene);
    if n == 0 {
        return faults::say_usage(rt);
    }
    run_file(rt, &scene[..n], b"", by_time)
}

// The scene that argument k names, and the packet's file behind it.
fn run_both(
    rt: &(impl Env + Files + Print + ErrorBytes + AllocGlobal),
    k: usize,
    by_time: bool,
) -> io::Result<()>
    requires { k ≤ 9 }
{
    let mut scene = buffer();
    let n = arg(rt, k, &mut scene);
    let mut path = buffer();
    let m = arg(rt, k + 1, &mut path);
    if n == 0 || m == 0 {
        return faults::say_usage(rt);
    }
    run_names(rt, &scene[..n], &path[..m], by_time)
}

fn next_scene(
    rt: &(impl Env + Files + Print + ErrorBytes + AllocGlobal),
    k: usize,
    by_time: bool,
) -> io::Result<()> {
    table::print(rt, b"\n")?;
    run_scene(rt, k, by_time)
}

// The built-in booth, and the scene of each argument from k on.
fn run_all(
    rt: &(impl Env + Files + Print + ErrorBytes + AllocGlobal),
    k: usize,
    count: usize,
    by_time: bool,
) -> io::Result<()> {
    scene_text::run_built_in(rt, by_time)?;
    for i in k..count {
        next_scene(rt, i, by_time)?;
    }
    Ok(())
}

fn is_arg(rt: &impl Env, k: usize, word: &[u8]) -> bool {
    let mut buf = buffer();
    let n = arg(rt, k, &mut buf);
    &buf[..n] == word
}

// The arguments from k on.
fn run_args(
    rt: &(impl Env + Files + Print + ErrorBytes + AllocGlobal),
    k: usize,
    by_time: bool,
) -> io::Result<()> {
    let count = arg_count(rt);
    if 9 < k {
        return Ok(());
    }
    if is_arg(rt, k, b"--all") {
        return run_all(rt, k + 1, count, by_time);
    }
    if count <= k {
        return scene_text::run_built_in(rt, by_time);
    }
    if count == k + 1 {
        return run_scene(rt, k, by_time);
    }
    if count == k + 2 {
        return run_both(rt, k, by_time);
    }
    faults::say_usage(rt)
}

fn main(rt: HostRuntime) -> io::Result<()> {
    if is_arg(&rt, 1, b"--time") {
        return run_args(&rt, 2, true);
    }
    run_args(&rt, 1, false)
}
