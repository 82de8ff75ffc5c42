// Runs the text of `images` on each case of its input, up to a `;`, and prints the case with its result: all lines where they are few, else
// the last two and a digest of all.
#![tactic(auto)]

ghost use Rattle.std.specs.Prelude.{◌<◌};

use listing::RECORDS;
use std::io;
use text::{filled, read_full};

// The digest is a polynomial in 31 over the bytes, modulo this prime.
const PRIME: u64 = 4_294_967_291;

const FEW: usize = 100;

// The digest of the bytes that have the digest `start` and then `bytes`.
fn digest(start: u64, bytes: &[u8]) -> u64
    requires { start < 4294967291 }
    ensures { result < 4294967291 }
{
    let mut sum = start;
    for b in bytes {
        sum = (sum * 31 + *b as u64) % PRIME;
    }
    sum
}

fn digest_lines(records: &[u8], total: usize, out: &mut [u8]) -> u64 {
    let mut sum = 0;
    let mut from = 0;
    // No `for`: how many images have room, and so where the next piece begins, is known when one is written.
    loop {
        let chunk = listing::lines(records, total, from, out);
        if chunk.next <= from {
            return sum;
        }
        sum = digest(sum, &out[..chunk.len]);
        from = chunk.next;
    }
}

// Prints the lines from that of image number `from` + 1 on, as many as have room in `out`.
fn print_from(
    rt: &impl Print,
    records: &[u8],
    total: usize,
    from: usize,
    out: &mut [u8],
) -> io::Result<()> {
    let chunk = listing::lines(records, total, from, out);
    rt.write_all(&out[..chunk.len])
}

fn print_lines(rt: &impl Print, records: &[u8], total: usize, out: &mut [u8]) -> io::Result<()> {
    if total <= FEW {
        return print_from(rt, records, total, 0, out);
    }
    println!(rt; "..")?;
    print_from(rt, records, total, total - 2, out)?;
    let sum = digest_lines(records, total, out);
    println!(rt; "digest {sum}")
}

fn run(rt: &impl Print, text: &[u8], records: &mut [u8], out: &mut [u8]) -> io::Result<()> {
    print!(rt; "[")?;
    rt.write_all(text)?;
    println!(rt; "]")?;
    match listing::answer(text, records, out) {
        Some(head) => {
            rt.write_all(&out[..head.len])?;
            print_lines(rt, records, head.total, out)
        }
        None => Ok(()),
    }
}

fn run_all(rt: &impl Print, texts: &[u8], records: &mut [u8], out: &mut [u8]) -> io::Result<()> {
    for case in texts.split_inclusive(|b| *b == b';') {
        run(rt, case.strip_suffix(b";").unwrap_or(case), records, out)?;
    }
    Ok(())
}

fn main(rt: HostRuntime) -> io::Result<()> {
    let mut texts: [u8; 4096] = filled(0);
    let n = read_full(&mut rt.reader(), &mut texts)?;
    let mut records: [u8; RECORDS] = filled(0);
    let mut out: [u8; 65536] = filled(0);
    run_all(&rt, &texts[..n], &mut records, &mut out)
}
