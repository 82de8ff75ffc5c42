// Runs the stored packets of standard input, good and damaged, and prints what the reader and the writer answer to each, and whether that is
// the answer that is stored with it. tools/packet_cases.py makes them and says how a line is laid out.
#![tactic(auto)]

mod cases;
mod words;

use std::io;
use text::{filled, read_full};

// Every line of the text, which is a packet to read, taps to write, or a remark; then how many were read and written, and how many of them differ.
fn run(rt: &impl Print, all: &[u8]) -> io::Result<()> {
    let mut read: u64 = 0;
    let mut written: u64 = 0;
    let mut differ: u64 = 0;
    let mut at = 0;
    // No `for` over `split_inclusive`: a line ends where `line_end` says, whose contract is that of specs/Lines.antt of `text`.
    while at < all.len() {
        let kind = text::byte_at(all, at, b'\n');
        let end = text::line_end(all, at);
        let line = &all[at..end];
        at = end;
        let ok = match kind {
            b'r' => {
                read = read.saturating_add(1);
                cases::read_case(rt, line)?
            }
            b'w' => {
                written = written.saturating_add(1);
                cases::write_case(rt, line)?
            }
            _ => true,
        };
        if !ok {
            differ = differ.saturating_add(1);
        }
    }
    println!(rt; "{read} packets read, {written} written, {differ} differ")
}

fn main(rt: HostRuntime) -> io::Result<()> {
    let mut buf: [u8; 400_000] = filled(0);
    let n = read_full(&mut rt.reader(), &mut buf)?;
    run(&rt, &buf[..n])
}
