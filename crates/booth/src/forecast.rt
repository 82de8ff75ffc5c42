// What the air takes, and what the query of a case will cost, said before it is traced.
use cost::Cost;
use sequences::MAX_IMAGE_ORDER;
use std::io;

fn print_figures(rt: &impl Print, r: Cost) -> io::Result<()> {
    println!(rt;
        "  at most {} images are visited, {} rays traced and {} words of work area taken.\n",
        r.candidates, r.rays, r.words
    )
}

// What the air takes, band by band.
fn print_air(rt: &impl Print, w: &[u32]) -> io::Result<()> {
    print!(rt; "The air takes, in millionths of a decibel a metre in each octave band:\n ")?;
    for k in 12..20 {
        print!(rt; " {}", casefile::word(w, k))?;
    }
    println!(rt)
}

// What the air takes, and the forecast for as many walls as the settings and the triangles of a case allow, each of which may come first; no forecast where
// none can be made.
pub(crate) fn print_forecast(rt: &impl Print, w: &[u32]) -> io::Result<()> {
    print_air(rt, w)?;
    let triples = casefile::word(w, 10) / 3;
    let planes = casefile::word(w, 2).min(triples);
    let order = casefile::word(w, 0).min(MAX_IMAGE_ORDER as u32);
    match cost::query_cost(casefile::word(w, 11), planes, planes, order, triples) {
        Ok(cost) => {
            println!(rt;
                "Before it is traced: with {triples} triangles, no more than {planes} walls and order {order}"
            )?;
            print_figures(rt, cost)
        }
        Err(_) => Ok(()),
    }
}
