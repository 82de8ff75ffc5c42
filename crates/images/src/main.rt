// Reads planes, order and mask from standard input, and prints the images that they give: the total, then number and sequence of each.
#![tactic(auto)]

use listing::RECORDS;
use std::io;
use text::{filled, read_full};

// Prints the lines of all images, as many at a time as have room in `out`.
fn print_lines(rt: &impl Print, records: &[u8], total: usize, out: &mut [u8]) -> io::Result<()> {
    let mut from = 0;
    // No `for`: how many images have room, and so where the next piece begins, is known when one is written.
    loop {
        let chunk = listing::lines(records, total, from, out);
        if chunk.next <= from {
            return Ok(());
        }
        rt.write_all(&out[..chunk.len])?;
        from = chunk.next;
    }
}

fn main(rt: HostRuntime) -> io::Result<()> {
    let mut text: [u8; 4096] = filled(0);
    let n = read_full(&mut rt.reader(), &mut text)?;
    let mut records: [u8; RECORDS] = filled(0);
    let mut out: [u8; 65536] = filled(0);
    match listing::answer(&text[..n], &mut records, &mut out) {
        Some(head) => {
            rt.write_all(&out[..head.len])?;
            print_lines(&rt, &records, head.total, &mut out)
        }
        None => Ok(()),
    }
}
