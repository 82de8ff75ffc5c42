// Runs `sequence_of`: prints the walls of numbers at the ends of the ranges, then compares every number of every mask for up to 5 planes and order 4
// with the images that `enumerate` lists, and says how many there were and how many differ.
#![tactic(auto)]

ghost use Rattle.std.specs.Prelude.{◌≤◌, ◌<◌};

use listing::RECORDS;
use numbering::{Walls, sequence_of};
use refusals::Refusal;
use sequences::{MAX_IMAGE_ORDER, RECORD, enumerate};
use std::io;
use text::filled;

const PLANES: u32 = 5;

const ORDERS: u32 = 4;

const MASKS: u32 = 32;

// How many numbers gave walls, how many were refused as they must be, and how many of either were not as they must be.
#[derive(Clone, Copy)]
struct Tally {
    compared: u64,
    refused: u64,
    differ: u64,
}

// ---- the ends of the ranges

fn print_walls(rt: &impl Print, found: Result<Walls, Refusal>) -> io::Result<()> {
    match found {
        Ok(w) => {
            for p in w.planes.iter().take(w.len) {
                print!(rt; " {p}")?;
            }
            Ok(())
        }
        Err(refusal) => {
            let number = refusal.number();
            print!(rt; " refused {number}")
        }
    }
}

fn show(rt: &impl Print, planes: u32, order: u32, on: &[u8], number: u32) -> io::Result<()> {
    let bytes = on.len();
    print!(rt; "{planes} planes, {bytes} bytes, order {order}, number {number}:")?;
    print_walls(rt, sequence_of(planes, order, on, number))?;
    println!(rt)
}

// The source on no plane, with so many bytes.
fn show_off(
    rt: &impl Print,
    planes: u32,
    order: u32,
    off: &[u8],
    bytes: usize,
    number: u32,
) -> io::Result<()> {
    if bytes <= off.len() {
        return show(rt, planes, order, &off[..bytes], number);
    }
    Ok(())
}

fn show_ends(rt: &impl Print, off: &[u8]) -> io::Result<()> {
    show_off(rt, 6, 3, off, 6, 2)?;
    show_off(rt, 6, 3, off, 6, 32)?;
    show_off(rt, 6, 3, off, 6, 186)?;
    show_off(rt, 6, 3, off, 6, 187)?;
    show_off(rt, 6, 8, off, 6, 125_000)?;
    show_off(rt, 6, 8, off, 6, 250_000)?;
    show_off(rt, 6, 8, off, 6, 250_001)?;
    show_off(rt, 32, 4, off, 32, 250_000)?;
    show_off(rt, 256, 8, off, 256, 250_000)?;
    show_off(rt, 256, 2, off, 256, 65_536)?;
    show_off(rt, 256, 2, off, 256, 65_537)?;
    show_off(rt, 1, 8, off, 1, 1)?;
    show_off(rt, 1, 8, off, 1, 2)
}

// What is outside the limits.
fn show_limits(rt: &impl Print, off: &[u8]) -> io::Result<()> {
    show_off(rt, 6, 3, off, 6, 0)?;
    show_off(rt, 6, 0, off, 6, 1)?;
    show_off(rt, 6, 9, off, 6, 1)?;
    show_off(rt, 6, 3, off, 5, 1)?;
    show_off(rt, 6, 3, off, 7, 1)?;
    show_off(rt, 0, 3, off, 0, 1)?;
    show_off(rt, 257, 3, off, 257, 1)
}

// The source on all planes, on all but the last, and a byte that is neither 0 nor 1.
fn show_bytes(rt: &impl Print) -> io::Result<()> {
    show(rt, 6, 8, &[1, 1, 1, 1, 1, 1], 1)?;
    show(rt, 6, 3, &[1, 1, 1, 1, 1, 0], 31)?;
    show(rt, 6, 3, &[0, 0, 2, 0, 0, 0], 1)
}

// ---- every number of small rooms

// Whether the walls are those of the record at `at`, and zeros behind them.
fn agrees(w: Walls, records: &[u8], at: u32) -> bool {
    let planes = w.planes;
    let from = at as usize * RECORD;
    for i in 0..MAX_IMAGE_ORDER {
        if planes[i] != text::byte_at(records, from + i, 255) {
            return false;
        }
    }
    w.len == text::byte_at(records, from + MAX_IMAGE_ORDER, 255) as usize
}

// Walls were compared.
fn compared(t: Tally, so: bool) -> Tally {
    Tally {
        compared: t.compared.saturating_add(1),
        differ: t.differ.saturating_add(!so as u64),
        ..t
    }
}

// Each number from 1 to `images`.
fn compare_all(
    before: Tally,
    order: u32,
    planes: u32,
    on: &[u8],
    records: &[u8],
    images: u32,
) -> Tally {
    let mut t = before;
    for n in 0..images {
        let so = match sequence_of(planes, order, on, n + 1) {
            Ok(w) => agrees(w, records, n),
            Err(_) => false,
        };
        t = compared(t, so);
    }
    t
}

// A number that no image has.
fn compare_none(t: Tally, order: u32, planes: u32, on: &[u8], number: u32) -> Tally {
    let refused = matches!(
        sequence_of(planes, order, on, number),
        Err(Refusal::NoImage)
    );
    Tally {
        refused: t.refused.saturating_add(1),
        differ: t.differ.saturating_add(!refused as u64),
        ..t
    }
}

// The count of images as a u32: there are at most 250,000.
fn narrow(n: usize) -> u32
    ensures { result < 1000000 }
{
    if n < 1_000_000 { n as u32 } else { 0 }
}

fn compare_room(t: Tally, order: u32, planes: u32, on: &[u8], records: &mut [u8]) -> Tally {
    match enumerate(on, order as usize, records) {
        Some(n) => {
            let images = narrow(n);
            let s = compare_all(t, order, planes, on, records, images);
            let u = compare_none(s, order, planes, on, 0);
            compare_none(u, order, planes, on, images + 1)
        }
        None => t,
    }
}

fn bits(mask: u32) -> [u8; 5] {
    [
        (mask % 2) as u8,
        (mask / 2 % 2) as u8,
        (mask / 4 % 2) as u8,
        (mask / 8 % 2) as u8,
        (mask / 16 % 2) as u8,
    ]
}

// Bit p of the mask says that the source lies on plane p. A mask with a bit for a plane that is not there is passed over.
fn compare_mask(t: Tally, order: u32, planes: u32, mask: u32, records: &mut [u8]) -> Tally
    requires { planes ≤ 5 }
{
    if mask >> planes != 0 {
        return t;
    }
    let on = bits(mask);
    let n = planes as usize;
    compare_room(t, order, planes, &on[..n], records)
}

fn compare_rooms(records: &mut [u8]) -> Tally {
    let mut t = Tally {
        compared: 0,
        refused: 0,
        differ: 0,
    };
    for k in 0..MASKS * ORDERS * PLANES {
        t = compare_mask(
            t,
            k / PLANES % ORDERS + 1,
            k % PLANES + 1,
            k / PLANES / ORDERS,
            records,
        );
    }
    t
}

fn main(rt: HostRuntime) -> io::Result<()> {
    let off = [0u8; 257];
    show_ends(&rt, &off)?;
    show_limits(&rt, &off)?;
    show_bytes(&rt)?;
    let mut records: [u8; RECORDS] = filled(0);
    let t = compare_rooms(&mut records);
    let compared = t.compared;
    let refused = t.refused;
    let differ = t.differ;
    println!(rt; "{compared} numbers compared, {refused} refused, {differ} differ")
}
