// The remarks of a scene's text: what stands behind `#` in a mesh's line.
use std::io;
use text::next_token;

// The place behind the word `mesh` of mesh number j; the text's end where there is none. The first two tokens are `case` and a name.
fn mesh_place(s: &[u8], j: u8) -> usize {
    let word = next_token(s, 0, 1);
    let name = next_token(s, word.end, 1);
    let mut at = name.end;
    let mut left = j;
    for k in 0..s.len() {
        let t = next_token(s, at, 1);
        at = t.end;
        if is_mesh(s, t) {
            if left == 0 {
                return at;
            }
            left -= 1;
        }
    }
    s.len()
}

fn is_mesh(s: &[u8], t: text::Token) -> bool {
    crate::faults::is_word(s, t.start, t.end, b"mesh")
}

// A comma stands for a colon and a semicolon too.
fn stops(x: u8, b: u8) -> bool {
    if b == b',' {
        if x == b':' || x == b';' {
            return true;
        }
    }
    x == b || x == b'\n'
}

// The place of the first byte b, or of a line's end, from `at` on; the text's end where there is neither.
fn place_of(s: &[u8], at: usize, b: u8) -> usize {
    for i in at..s.len() {
        if stops(s[i], b) {
            return i;
        }
    }
    s.len()
}

// The remark in the line of mesh j, if there is one, up to a comma.
pub(crate) fn print_mesh(rt: &impl Print, s: &[u8], j: u8) -> io::Result<()> {
    let from = place_of(s, mesh_place(s, j), b'#');
    if text::byte_at(s, from, b'\n') == b'#' {
        print!(rt; "  ")?;
        return crate::faults::print_some(rt, s, from, place_of(s, from, b','), 34);
    }
    Ok(())
}
