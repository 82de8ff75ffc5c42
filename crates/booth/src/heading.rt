// What stands above the table: the scene and what it is traced with, what is held within its limits, and the forecast.
use crate::forecast;
use crate::table::{print, print_float};
use std::io;

// The version of the product. include/bivelondry.h has it too, and bindings/installed.sh compares them.
fn print_version(rt: &impl Print) -> io::Result<()> {
    print(rt, b"0.3.0")
}

// The token after `case`.
fn print_name(rt: &impl Print, s: &[u8]) -> io::Result<()> {
    let word = text::next_token(s, 0, 1);
    let t = text::next_token(s, word.end, word.line);
    print(rt, &s[t.start..t.end])
}

// The scene's name, and the settings that delays and images depend on.
fn print_scene(rt: &impl Print, s: &[u8], order: u32, celsius: f32, rate: f32) -> io::Result<()> {
    print!(rt; "booth ")?;
    print_version(rt)?;
    print!(rt; ", scene ")?;
    print_name(rt, s)?;
    println!(rt)?;
    print_float(rt, celsius, 1, 0)?;
    print!(rt; " degrees, sound at ")?;
    print_float(rt, scene::speed_of_sound(celsius), 2, 0)?;
    print!(rt; " metres a second, ")?;
    print_float(rt, rate, 1, 0)?;
    println!(rt; " samples a second, order {order}.")
}

// The delay of the direct sound, made as that of a tap.
fn print_direct(rt: &impl Print, metres: f32, celsius: f32, rate: f32) -> io::Result<()> {
    let delay = metres * rate / scene::speed_of_sound(celsius);
    print!(rt; "The direct sound, which is not among the taps, takes ")?;
    print_float(rt, delay, 2, 0)?;
    print!(rt; " samples, ")?;
    print_float(rt, delay * 1000.0 / rate, 3, 0)?;
    println!(rt; " ms.")
}

// ---- what is held within its limits

fn one_more(n: u32) -> u32 {
    if n < 1000000 { n + 1 } else { n }
}

// n, and one more where x lies outside 0 to 1.
fn counted(n: u32, x: f32) -> u32 {
    if x < 0.0 || 1.0 < x { one_more(n) } else { n }
}

// How many of the first `end` floats lie outside 0 to 1.
fn count_outside(rows: &[f32], end: usize) -> u32 {
    let mut n = 0;
    for k in 0..end {
        n = counted(n, crate::real(rows, k));
    }
    n
}

fn print_held(rt: &impl Print, rows: &[f32], end: usize) -> io::Result<()> {
    let n = count_outside(rows, end);
    if n == 0 {
        return Ok(());
    }
    println!(rt;
        "Of the absorptions and transmissions {n} lie outside 0 to 1, and are held to 0 or 1."
    )
}

// All of it, for a case that was read.
pub(crate) fn print_before(
    rt: &impl Print,
    s: &[u8],
    w: &[u32],
    f: &[f32],
    materials: &[f32],
) -> io::Result<()> {
    let celsius = crate::real(f, 2);
    let rate = crate::real(f, 3);
    print_scene(rt, s, crate::order_of(w, f), celsius, rate)?;
    print_direct(
        rt,
        vector::distance3(crate::point_of(f, 11), crate::point_of(f, 14)),
        celsius,
        rate,
    )?;
    print_held(rt, materials, 16 * crate::limited(casefile::word(w, 7), 64))?;
    forecast::print_forecast(rt, w)
}
