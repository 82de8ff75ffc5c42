// Prints forecasts, with the refusals at both ends of each limit, and compares the counts with those of an enumeration: of up to 6 planes, each
// number of them that may come first, and each order. With 6 planes and order 8 there are more than 250,000.
#![tactic(auto)]

ghost use Rattle.std.specs.Prelude.{◌≡◌, ◌≤◌, length};

use cost::Cost;
use refusals::Refusal;
use sequences::{MAX_IMAGE_NODES, MAX_IMAGE_ORDER, RECORD};
use std::io;

const RECORDS: usize = MAX_IMAGE_NODES * RECORD;

// The most planes that are compared.
const PLANES: usize = 6;

// The Rust's crossing limit.
const CROSSINGS: u32 = 8;

// How many counts were compared, and how many of them differ.
#[derive(Clone, Copy, Default)]
struct Tally {
    counts: u32,
    differ: u32,
}

fn print_counts(rt: &impl Print, counts: [u32; MAX_IMAGE_ORDER]) -> io::Result<()> {
    for n in counts.iter() {
        print!(rt; " {n}")?;
    }
    Ok(())
}

// A line with what is asked, and one with the answer.
fn show(
    rt: &impl Print,
    crossing_limit: u32,
    planes: u32,
    first: u32,
    order: u32,
    triples: u32,
) -> io::Result<()> {
    println!(rt;
        "crossings, planes, first, order, triples {crossing_limit} {planes} {first} {order} {triples}"
    )?;
    print_answer(
        rt,
        cost::query_cost(crossing_limit, planes, first, order, triples),
    )
}

// The refusal, or 0 and the figures; zeros beside a refusal.
fn print_answer(rt: &impl Print, answer: Result<Cost, Refusal>) -> io::Result<()> {
    match answer {
        Ok(cost) => print_figures(rt, 0, cost),
        Err(refusal) => print_figures(rt, refusal.number(), Cost::default()),
    }
}

fn print_figures(rt: &impl Print, refusal: u32, cost: Cost) -> io::Result<()> {
    print!(rt; "  refusal {refusal}, counts")?;
    print_counts(rt, cost.counts)?;
    println!(rt;
        ", candidates {}, rays {}, words {}",
        cost.candidates, cost.rays, cost.words
    )
}

fn show_answers(rt: &impl Print) -> io::Result<()> {
    show(rt, CROSSINGS, 6, 6, 8, 12)?;
    show(rt, CROSSINGS, 32, 32, 4, 64)?;
    show(rt, CROSSINGS, 256, 256, 8, 4096)?;
    show(rt, CROSSINGS, 2, 2, 8, 4)?;
    show(rt, CROSSINGS, 1, 1, 8, 2)?;
    show(rt, CROSSINGS, 6, 5, 3, 12)?;
    show(rt, CROSSINGS, 6, 6, 3, 12)?;
    show(rt, CROSSINGS, 6, 6, 7, 12)?;
    show(rt, CROSSINGS, 32, 32, 3, 64)?;
    show(rt, CROSSINGS, 6, 0, 8, 12)?;
    show(rt, 1, 6, 6, 8, 12)?;
    show(rt, 9, 6, 6, 8, 12)?;
    show(rt, 32, 6, 6, 8, 12)?;
    show(rt, 32, 256, 256, 8, 4096)
}

// On either side of each limit.
fn show_limits(rt: &impl Print) -> io::Result<()> {
    show(rt, 0, 2, 2, 8, 4)?;
    show(rt, 1, 2, 2, 8, 4)?;
    show(rt, 32, 2, 2, 8, 4)?;
    show(rt, 33, 2, 2, 8, 4)?;
    show(rt, CROSSINGS, 0, 0, 1, 0)?;
    show(rt, CROSSINGS, 1, 0, 1, 0)?;
    show(rt, CROSSINGS, 256, 1, 1, 0)?;
    show(rt, CROSSINGS, 257, 1, 1, 0)?;
    show(rt, CROSSINGS, 2, 2, 0, 0)?;
    show(rt, CROSSINGS, 2, 2, 9, 0)?;
    show(rt, CROSSINGS, 2, 3, 8, 0)?;
    show(rt, CROSSINGS, 2, 2, 8, 4096)?;
    show(rt, CROSSINGS, 2, 2, 8, 4097)
}

// A byte for each plane, 0 for the first ones.
fn mask(first: usize) -> [u8; PLANES]
    ensures { length result ≡ 6 }
{
    let mut on = [1; PLANES];
    on[..first.min(PLANES)].fill(0);
    on
}

// 1 where the byte at `at` says `len` planes.
fn says(records: &[u8], at: usize, len: u8) -> u32 {
    u32::from(records.get(at) == Some(&len))
}

// How many of the records have `len` planes.
fn records_of(records: &[u8], total: usize, len: u8) -> u32 {
    let mut n = 0;
    for i in 0..total {
        if i >= MAX_IMAGE_NODES {
            return n;
        }
        n = n.wrapping_add(says(records, i * RECORD + MAX_IMAGE_ORDER, len));
    }
    n
}

fn add(a: Tally, b: Tally) -> Tally {
    Tally {
        counts: a.counts.wrapping_add(b.counts),
        differ: a.differ.wrapping_add(b.differ),
    }
}

fn one(same: bool) -> Tally {
    Tally {
        counts: 1,
        differ: u32::from(!same),
    }
}

// The eight counts against the records.
fn compare_counts(counts: [u32; MAX_IMAGE_ORDER], records: &[u8], total: usize) -> Tally {
    let mut t = Tally::default();
    for k in 0..MAX_IMAGE_ORDER {
        let n = records_of(records, total, (k + 1) as u8);
        t = add(t, one(n == counts[k]));
    }
    t
}

// One order: the forecast against the records of the enumeration.
fn compare_order(on: &[u8], first: usize, order: usize, records: &mut [u8]) -> Tally {
    match sequences::enumerate(on, order, records) {
        Some(total) => {
            let forecast = cost::query_cost(
                CROSSINGS,
                narrow(on.len()),
                narrow(first),
                narrow(order),
                0,
            );
            let counts = match forecast {
                Ok(cost) => cost.counts,
                Err(_) => [0; MAX_IMAGE_ORDER],
            };
            compare_counts(counts, records, total)
        }
        None => one(false),
    }
}

fn narrow(n: usize) -> u32 {
    n.min(1000) as u32
}

fn compare_orders(on: &[u8], first: usize, records: &mut [u8]) -> Tally {
    let mut t = Tally::default();
    for order in 1..=MAX_IMAGE_ORDER {
        t = add(t, compare_order(on, first, order, records));
    }
    t
}

fn compare_firsts(planes: usize, records: &mut [u8]) -> Tally
    requires { planes ≤ 6 }
{
    let mut t = Tally::default();
    for first in 0..=planes {
        let on = mask(first);
        t = add(t, compare_orders(&on[..planes], first, records));
    }
    t
}

fn compare_planes(records: &mut [u8]) -> Tally {
    let mut t = Tally::default();
    for planes in 1..=PLANES {
        t = add(t, compare_firsts(planes, records));
    }
    t
}

fn main(rt: HostRuntime) -> io::Result<()> {
    show_answers(&rt)?;
    show_limits(&rt)?;
    let mut records: [u8; RECORDS] = text::filled(0);
    let t = compare_planes(&mut records);
    println!(rt; "counts compared {}, different {}", t.counts, t.differ)
}
