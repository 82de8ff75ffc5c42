// The walls: those that each echo meets, and what they are.
ghost use Rattle.std.specs.Prelude.{◌+◌, ◌*◌, ◌≤◌, length};

use crate::table::{print_float, print_whole, word_of};
use crate::{remarks, tags};
use numbering::Walls;
use sequences::{MAX_IMAGE_ORDER, MAX_PLANES};
use std::io;

fn print_arrow(rt: &impl Print, k: usize) -> io::Result<()> {
    if 0 < k {
        return print!(rt; " > ");
    }
    Ok(())
}

// How many planes there are, as `numbering` takes it.
fn count_of(on: &[u8]) -> u32 {
    if on.len() <= MAX_PLANES {
        return on.len() as u32;
    }
    0
}

// The walls of the echo with this image, the one next to the source first; none where no image has the number.
fn walls_of(on: &[u8], order: u32, number: u32) -> Walls {
    match numbering::sequence_of(count_of(on), order, on, number) {
        Ok(met) => met,
        Err(_) => Walls {
            len: 0,
            planes: [0; MAX_IMAGE_ORDER],
        },
    }
}

fn wall_at(planes: [u8; MAX_IMAGE_ORDER], k: usize) -> u8 {
    planes.get(k).copied().unwrap_or(0)
}

// The walls that the echo with this image meets.
pub(crate) fn print_walls(rt: &impl Print, on: &[u8], order: u32, number: u32) -> io::Result<()> {
    let met = walls_of(on, order, number);
    let planes = met.planes;
    for k in 0..met.len {
        print_arrow(rt, k)?;
        rt.print(wall_at(planes, k))?;
    }
    Ok(())
}

// Whether the echo with this image meets plane p.
fn meets(on: &[u8], order: u32, number: u32, p: usize) -> bool {
    let met = walls_of(on, order, number);
    let planes = met.planes;
    for k in 0..met.len {
        if wall_at(planes, k) as usize == p {
            return true;
        }
    }
    false
}

// Whether one of the echoes does.
fn occurs(taps: &[u32], on: &[u8], order: u32, count: usize, p: usize) -> bool {
    for i in 0..count {
        if meets(on, order, word_of(taps, i, 1), p) {
            return true;
        }
    }
    false
}

fn print_heading(rt: &impl Print) -> io::Result<()> {
    println!(rt;
        "The walls that these echoes meet: the unit normal, how far along it the wall lies from the origin,"
    )?;
    println!(rt;
        "the area of its triangles, in metres and square metres, and the mesh and the material of the first"
    )?;
    println!(rt;
        "of them (+: others are of other meshes), by their places in the scene, from 0, and with the"
    )?;
    println!(rt; "remark that stands behind `mesh`.\n")?;
    println!(rt; "wall normal x      y      z    offset       area  mesh material")
}

fn print_mark(rt: &impl Print, several: bool) -> io::Result<()> {
    if several {
        return print!(rt; "+");
    }
    print!(rt; " ")
}

// One wall: a line.
fn print_wall(
    rt: &impl Print,
    floats: &[f32],
    words: &[u32],
    tags: &[u8],
    text: &[u8],
    p: usize,
) -> io::Result<()>
    requires { (p ≤ 255) × (12 * p + 12 ≤ length floats.now) × (5 * p + 5 ≤ length words.now) }
{
    let plane = mirror::plane_at(floats, words, p);
    let mesh = tags::mesh(tags, p);
    print_whole(rt, p as u32, 4)?;
    print_float(rt, plane.normal.x, 3, 9)?;
    print_float(rt, plane.normal.y, 3, 7)?;
    print_float(rt, plane.normal.z, 3, 7)?;
    print_float(rt, plane.offset, 3, 10)?;
    print_float(rt, plane.area, 2, 11)?;
    print_whole(rt, mesh as u32, 6)?;
    print_mark(rt, tags::is_of_several(tags, p))?;
    print_whole(rt, tags::material(tags, p) as u32, 8)?;
    remarks::print_mesh(rt, text, mesh)?;
    println!(rt)
}

// The line of plane p, if an echo meets it.
fn print_used(
    rt: &impl Print,
    taps: &[u32],
    on: &[u8],
    order: u32,
    count: usize,
    floats: &[f32],
    words: &[u32],
    tags: &[u8],
    text: &[u8],
    p: usize,
) -> io::Result<()>
    requires { (p ≤ 255) × (12 * p + 12 ≤ length floats.now) × (5 * p + 5 ≤ length words.now) }
{
    if occurs(taps, on, order, count, p) {
        return print_wall(rt, floats, words, tags, text, p);
    }
    Ok(())
}

// The lines of the planes that the echoes meet.
fn print_lines(
    rt: &impl Print,
    taps: &[u32],
    on: &[u8],
    order: u32,
    count: usize,
    floats: &[f32],
    words: &[u32],
    tags: &[u8],
    text: &[u8],
) -> io::Result<()>
    requires { (3072 ≤ length floats.now) × (1280 ≤ length words.now) }
{
    for p in 0..on.len() {
        if MAX_PLANES <= p {
            return Ok(());
        }
        print_used(rt, taps, on, order, count, floats, words, tags, text, p)?;
    }
    Ok(())
}

// The walls that the echoes meet, in the order of their numbers. A scene may have 256: one that no row names is left out.
pub(crate) fn print_list(
    rt: &impl Print,
    taps: &[u32],
    on: &[u8],
    order: u32,
    count: usize,
    floats: &[f32],
    words: &[u32],
    tags: &[u8],
    text: &[u8],
) -> io::Result<()>
    requires { (3072 ≤ length floats.now) × (1280 ≤ length words.now) }
{
    if count == 0 {
        return Ok(());
    }
    print_heading(rt)?;
    print_lines(rt, taps, on, order, count, floats, words, tags, text)?;
    println!(rt)
}
