// What may be missing from the table: a line each, where it applies.
use crate::Named;
use placing::Loaded;
use refusals::Refusal;
use sequences::MAX_IMAGE_NODES;
use std::io;

const IMAGE_LIMIT: u32 = MAX_IMAGE_NODES as u32;

// The search visits no more images than its limit.
fn print_stopped(rt: &impl Print, images: u32) -> io::Result<()> {
    if images < IMAGE_LIMIT {
        return Ok(());
    }
    println!(rt;
        "The search stopped at its limit of {IMAGE_LIMIT} images: echoes may be missing, loud ones too. Take a lower order or fewer walls."
    )
}

// The list has as many taps as are asked for, and at most `longest`. `heard` is how many there are with a list of that length.
fn print_full(
    rt: &impl Print,
    count: usize,
    most: usize,
    heard: usize,
    longest: usize,
) -> io::Result<()> {
    if count == 0 || count < most {
        return Ok(());
    }
    if count < heard {
        println!(rt;
            "The list is full with {count} taps of {heard} that are heard: the weaker ones are left out."
        )?;
    } else {
        println!(rt; "The list is full with {count} taps.")?;
    }
    if longest <= heard {
        println!(rt; "No list is longer than {longest}: weaker echoes may be missing.")?;
    }
    Ok(())
}

// `max_reflection_planes` keeps the most important walls. More than 256 are never found.
fn print_walls(rt: &impl Print, planes: usize, found: usize) -> io::Result<()> {
    if planes < found {
        println!(rt;
            "Of {found} walls that were found {planes} are used, as `max_reflection_planes` says: the others give no echo."
        )?;
    }
    if 255 < found {
        println!(rt; "No more than 256 walls are found: others may be missing.")?;
    }
    Ok(())
}

// Whether the source lies on one of the planes.
fn on_any(on: &[u8], planes: usize) -> bool {
    on.iter().take(planes).any(|b| *b != 0)
}

// Why no echo is heard, where that is plain.
fn print_silence(
    rt: &impl Print,
    on: &[u8],
    planes: usize,
    most: usize,
    order: u32,
    separated: bool,
) -> io::Result<()> {
    if most == 0 {
        println!(rt; "No tap is asked for: `max_reflections` is 0.")
    } else if order == 0 {
        println!(rt; "No echo is searched for: `max_reflection_order` is 0.")
    } else if separated {
        println!(rt;
            "Nothing is heard: the scene has `separated 1`, a wall between source and listener."
        )
    } else if planes == 0 {
        println!(rt; "No echo is heard: there is no wall.")
    } else if on_any(on, planes) {
        println!(rt;
            "No echo is heard, and the source lies on a wall, from which no echo begins. Move it off the wall."
        )
    } else {
        print_unheard(rt)
    }
}

fn print_unheard(rt: &impl Print) -> io::Result<()> {
    println!(rt;
        "No echo is heard: each is blocked, misses its walls or is longer than `max_reflection_distance`."
    )?;
    println!(rt;
        "A source or a listener behind a wall, as outside the room, is cut off from the others."
    )
}

// The lines below the table.
pub(crate) fn print_notes(
    rt: &impl Print,
    on: &[u8],
    named: Named,
    most: usize,
    longest: usize,
    order: u32,
    separated: bool,
) -> io::Result<()> {
    let r = named.answer;
    print_walls(rt, named.planes, named.found)?;
    print_stopped(rt, r.images)?;
    print_full(rt, r.count, most, named.heard, longest)?;
    if r.count == 0 {
        return print_silence(rt, on, named.planes, most, order, separated);
    }
    Ok(())
}

// ---- triangles

// The triangles that loading left out, by the whole triples of the indices, placings (three for each triple whose indices are in range) and triangles kept.
fn print_left(rt: &impl Print, triples: usize, placings: usize, kept: usize) -> io::Result<()> {
    let placed = placings / 3;
    if placed < triples {
        println!(rt;
            "Triangles left out, with an index out of range: {}.",
            triples - placed
        )?;
    }
    if kept < placed {
        println!(rt; "Triangles left out, with no area: {}.", placed - kept)?;
    }
    Ok(())
}

pub(crate) fn print_loaded(rt: &impl Print, loaded: Result<Loaded, Refusal>) -> io::Result<()> {
    match loaded {
        Ok(loaded) => print_left(rt, loaded.triples, loaded.placings, loaded.triangles),
        Err(_) => Ok(()),
    }
}

// How many triangles were kept.
pub(crate) fn kept_of(loaded: Result<Loaded, Refusal>) -> u32 {
    match loaded {
        Ok(loaded) => small(loaded.triangles),
        Err(_) => 0,
    }
}

fn small(n: usize) -> u32 {
    if n < 1000000 { n as u32 } else { 0 }
}
