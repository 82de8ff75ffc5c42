// Prints the table of document 02's Note 5: k of each s from 0 to 399, one a line, in decimal. k / 2^24 is what s steps of 0.05 dB leave of an amplitude.
#![tactic(auto)]

use std::io;

fn main(rt: HostRuntime) -> io::Result<()> {
    for s in 0..400 {
        rt.println(air::factor_of(s))?;
    }
    Ok(())
}
