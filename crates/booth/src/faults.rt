// What went wrong, in words, on standard error: where a text is none, a refusal, and which setting it is about.
ghost use Rattle.std.specs.Prelude.{◌≤◌};

use crate::table::{ErrorBytes, print, say};
use casefile::{Expected, Fault};
use scene::Settings;
use std::io;
use text::Token;

// ---- parts of a text

// Whether the bytes from a place to a place are this word.
pub(crate) fn is_word(s: &[u8], from: usize, to: usize, word: &[u8]) -> bool {
    match s.get(from..to) {
        Some(part) => part == word,
        None => false,
    }
}

fn say_part(rt: &impl ErrorBytes, s: &[u8], from: usize, to: usize) -> io::Result<()> {
    say(rt, s.get(from..to).unwrap_or(b""))
}

fn print_part(rt: &impl Print, s: &[u8], from: usize, to: usize) -> io::Result<()> {
    print(rt, s.get(from..to).unwrap_or(b""))
}

// Where so many bytes end, and no later than `to`.
fn end_of(from: usize, to: usize, most: usize) -> usize {
    from + to.saturating_sub(from).min(most)
}

// The bytes from a place to a place, at most so many.
pub(crate) fn print_some(
    rt: &impl Print,
    s: &[u8],
    from: usize,
    to: usize,
    most: usize,
) -> io::Result<()> {
    print_part(rt, s, from, end_of(from, to, most))
}

// ---- a text that is none

fn is_eight_hex(word: &[u8]) -> bool {
    word.len() == 8 && text::is_hex(word)
}

fn is_prefixed(word: &[u8]) -> bool {
    word.starts_with(b"0x")
}

fn is_half(word: &[u8]) -> bool {
    word.starts_with(b".") || word.ends_with(b".")
}

// What to write in place of a word that is no float.
fn advise(rt: &impl ErrorBytes, word: &[u8]) -> io::Result<()> {
    if is_eight_hex(word) {
        say(rt, b"write 0x")?;
        say(rt, word)?;
        say(
            rt,
            b" for a float's bits; a decimal without a point has at most seven digits",
        )
    } else if is_prefixed(word) {
        say(rt, b"bits are 0x and eight digits, 0 to 9 and a to f")
    } else if word.starts_with(b"+") {
        say(rt, b"write it without the plus")
    } else if is_half(word) {
        say(rt, b"write a digit on each side of the point")
    } else {
        advise_more(rt, word)
    }
}

// Whether a word begins as a number does, with a digit or a minus.
fn is_numeric(word: &[u8]) -> bool {
    let first = text::byte_at(word, 0, 0);
    first == b'-' || (b'0' <= first && first <= b'9')
}

// Whether it does, and has an exponent: a word as `merge` has none.
fn has_exponent(word: &[u8]) -> bool {
    is_numeric(word) && (word.contains(&b'e') || word.contains(&b'E'))
}

fn advise_more(rt: &impl ErrorBytes, word: &[u8]) -> io::Result<()> {
    if has_exponent(word) {
        say(
            rt,
            b"write it without an exponent, as 1000 for 1e3 and 0.001 for 1e-3",
        )
    } else {
        say(
            rt,
            b"write a decimal of at most seven digits, as -0.25, or a float's bits, as 0xbe800000",
        )
    }
}

fn say_line(rt: &impl ErrorBytes, line: u32) -> io::Result<()> {
    eprint!(rt; "line {line}: ")
}

fn say_no_float(rt: &impl ErrorBytes, word: &[u8]) -> io::Result<()> {
    say(rt, b"'")?;
    say(rt, word)?;
    say(rt, b"' is no number that this program reads: ")?;
    advise(rt, word)
}

fn say_expected(rt: &impl ErrorBytes, expected: Expected, word: &[u8]) -> io::Result<()> {
    eprint!(rt; "expected {expected}")?;
    if word.len() == 0 {
        return say(rt, b", and the text ends");
    }
    say(rt, b", and found '")?;
    say(rt, word)?;
    say(rt, b"'")
}

fn say_fault(rt: &impl ErrorBytes, expected: Expected, word: &[u8]) -> io::Result<()> {
    match expected {
        Expected::Float if 0 < word.len() => say_no_float(rt, word),
        _ => say_expected(rt, expected, word),
    }
}

// The line, what was expected there, and what stands there.
pub(crate) fn say_wrong(rt: &impl ErrorBytes, s: &[u8], fault: Fault) -> io::Result<()> {
    say_line(rt, fault.line)?;
    if let Some(word) = s.get(fault.from..fault.at) {
        say_fault(rt, fault.expected, word)?;
    }
    say(rt, b"\n")
}

// ---- refusal 1

// Token number n of a text, from 0.
fn token(s: &[u8], n: usize) -> Token {
    let mut t = text::next_token(s, 0, 1);
    for _ in 0..n {
        t = text::next_token(s, t.end, t.line);
    }
    t
}

// The name of a setting, by its number in `settings_fault`, whose contract has numbers.
fn say_name(rt: &impl ErrorBytes, fault: u32) -> io::Result<()> {
    match fault {
        1 => say(rt, b"max_reflection_planes"),
        2 => say(rt, b"the room for candidates"),
        3 => say(rt, b"max_reflection_distance"),
        4 => say(rt, b"temperature_celsius"),
        5 => say(rt, b"sample_rate"),
        6 => say(rt, b"plane_merge_cos"),
        7 => say(rt, b"reflection_edge_fade"),
        8 => say(rt, b"plane_merge_offset"),
        9 => say(rt, b"plane_buried_distance"),
        _ => say_later_name(rt, fault),
    }
}

fn say_later_name(rt: &impl ErrorBytes, fault: u32) -> io::Result<()> {
    match fault {
        10 => say(rt, b"reference_distance"),
        11 => say(rt, b"rolloff_factor"),
        12 => say(rt, b"min_distance"),
        13 => say(rt, b"max_distance"),
        14 => say(rt, b"crossing_limit"),
        15 => say(rt, b"probe_radius"),
        _ => say(rt, b"a coefficient of the air"),
    }
}

fn say_limits(rt: &impl ErrorBytes, fault: u32) -> io::Result<()> {
    match fault {
        1 => say(rt, b"from 0 to 256"),
        2 => say(rt, b"from 0 to 250000"),
        3 => say(rt, b"above 0 and at most 1000"),
        4 => say(rt, b"from -20 to 50"),
        5 => say(rt, b"from 8000 to 192000"),
        6 => say(rt, b"from -1 to 1"),
        7 | 8 | 9 => say(rt, b"finite"),
        14 => say(rt, b"from 1 to 32"),
        15 => say(rt, b"from 0 to 1"),
        _ => say(rt, b"from 0 to 1000000"),
    }
}

// Which token of a text is the first coefficient of the air: behind the word `air`, before which the line `probes` may stand.
fn air_place(s: &[u8]) -> usize
    ensures { result ≤ 27 }
{
    let t = token(s, 23);
    if is_word(s, t.start, t.end, b"air") {
        return 24;
    }
    27
}

// Which token of a text a setting is.
fn place_of(s: &[u8], fault: u32) -> usize {
    match fault {
        1 => 5,
        2 => 6,
        3 => 9,
        4 => 10,
        5 => 11,
        6 => 12,
        7 => 8,
        8 => 13,
        9 => 14,
        _ => later_place(s, fault as usize),
    }
}

fn later_place(s: &[u8], fault: usize) -> usize {
    if fault < 14 {
        return fault + 9;
    }
    if fault < 16 {
        return fault + 10;
    }
    if fault < 24 {
        return air_place(s) + (fault - 16);
    }
    0
}

// The setting that lies outside its limits, its value as the text has it, and its limits.
fn say_setting(rt: &impl ErrorBytes, s: &[u8], fault: u32) -> io::Result<()> {
    let t = token(s, place_of(s, fault));
    say_name(rt, fault)?;
    say(rt, b" is ")?;
    say_part(rt, s, t.start, t.end)?;
    say(rt, b", and must be ")?;
    say_limits(rt, fault)?;
    eprint!(rt; " (line {})", t.line)
}

// ---- refusals

fn say_reason(rt: &impl ErrorBytes, refusal: u32) -> io::Result<()> {
    match refusal {
        2 => say(
            rt,
            b"a part of the scene has not the length that its counts say",
        ),
        3 => say(rt, b"a mesh has a handle without a row of materials"),
        4 => say(rt, b"the meshes hold more than 4,096 triangles"),
        5 => say(rt, b"an area is too short"),
        6 => say(rt, b"a placed corner is not finite or beyond 10,000"),
        _ => say(rt, b"more candidates pass than there is room for"),
    }
}

// Where the case asked for more candidates than there is room for here, 7 is about the room here.
fn say_room(rt: &impl ErrorBytes, refusal: u32, room: u32) -> io::Result<()> {
    if refusal == 7 && 4096 < room {
        return say(rt, b" (4,096 in this program)");
    }
    Ok(())
}

// A refusal, with its number; 1 with the setting that it is about. `room` is the room for candidates that the case has.
pub(crate) fn say_refusal(
    rt: &impl ErrorBytes,
    s: &[u8],
    refusal: u32,
    settings: Settings,
    room: u32,
) -> io::Result<()> {
    eprint!(rt; "refusal {refusal}: ")?;
    if refusal == 1 {
        say_setting(rt, s, settings_fault::first_fault(settings, room))?;
    } else {
        say_reason(rt, refusal)?;
    }
    say_room(rt, refusal, room)?;
    say(rt, b"\n")
}

pub(crate) fn say_usage(rt: &impl ErrorBytes) -> io::Result<()> {
    say(
        rt,
        b"usage: booth                        the built-in booth\n",
    )?;
    say(
        rt,
        b"       booth SCENE.case             the scene of a file (docs/BOOTH.md)\n",
    )?;
    say(
        rt,
        b"       booth SCENE.case PACKET.bin  the same, and the packet to a file\n",
    )?;
    say(
        rt,
        b"       booth --all SCENE.case ..    the built-in booth and the scenes of files, one after another\n",
    )?;
    say(
        rt,
        b"       booth --time ..              any of these with the echoes in the order of their delays\n",
    )
}

// ---- files

// The words of an error, as the system has them: std's text of it has its number behind them.
fn words_of(text: &str) -> &str {
    match text.split_once(" (os error ") {
        Some((words, _)) => words,
        None => text,
    }
}

// What failed, a colon and the error's words: a line.
pub(crate) fn say_failed(
    rt: &(impl ErrorBytes + AllocGlobal),
    what: &[u8],
    error: io::Error,
) -> io::Result<()> {
    let text = format!(in rt.alloc(); "{error}")?;
    say(rt, what)?;
    say(rt, b": ")?;
    rt.eprintln(words_of(text.as_str()))
}
