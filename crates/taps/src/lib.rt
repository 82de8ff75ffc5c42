// The end of a query: the candidates that the search found are ranked, those kept become taps, and these the packet.
#![tactic(auto)]

ghost use Rattle.std.specs.Prelude.{◌≡◌, not, ◌++◌, ◌+◌, ◌*◌, ◌<◌, ◌≤◌, length, get_or, drop, T};
ghost use Rattle.std.proofs.lemmas.List.Edits.{sets};
ghost use Rattle.std.specs.Float.Ieee.{is_nan};
ghost use Rattle.std.specs.Float.{nan};
ghost use Rattle.order.specs.Open.{Open};
ghost use Rattle.packet.specs.Limits.{most_taps, tap_words, fixed_words, area_words};
ghost use Rattle.packet.specs.Tap.{words_of, all_words};
ghost use Rattle.ranking.specs.Candidate.{ranked};
ghost use Rattle.ranking.specs.Rows.{candidate_float_count, candidate_at, candidates_in, CandidateRows};
ghost use Rattle.taps.specs.Tap.{bits_of, gain_bits, sent_tap, packet_of};
ghost use Rattle.taps.specs.Sendable.{Level8, Sound};
ghost use Rattle.taps.specs.Areas.{gains_at, taps_at, Pointing, Sends};

use packet::Head;

// Floats and words of a candidate's row, and the words of a tap.
const CANDIDATE_FLOATS: usize = ranking::CANDIDATE_FLOATS;

const CANDIDATE_WORDS: usize = ranking::CANDIDATE_WORDS;

const TAP_WORDS: usize = packet::TAP_WORDS;

// The packet in the output area: its taps and its bytes.
#[derive(Clone, Copy)]
pub struct Packed {
    pub count: usize,
    pub bytes: usize,
}

// The bits of a float of a row.
fn bits_at(candidate_floats: &[f32], i: usize) -> u32
    requires { (i < length candidate_floats.now) × T (not (is_nan (get_or candidate_floats.now i nan))) }
    ensures { result ≡ bits_of (get_or candidate_floats.now i nan) }
{
    f32::to_bits(candidate_floats[i])
}

// The gains of the row that starts at p, to the tap that starts at `at`.
fn put_gains(candidate_floats: &[f32], p: usize, taps: &mut [u32], at: usize)
    requires candidate_floats_in_bounds { (p + candidate_float_count ≤ length candidate_floats.now) × (at + tap_words ≤ length taps.old) }
    requires level_gains { Level8 (gains_at candidate_floats.now p) }
    ensures { taps.new ≡ sets taps.old (at + fixed_words) (gain_bits (gains_at candidate_floats.now p)) }
{
    taps[at + 6] = bits_at(candidate_floats, p + 5);
    taps[at + 7] = bits_at(candidate_floats, p + 6);
    taps[at + 8] = bits_at(candidate_floats, p + 7);
    taps[at + 9] = bits_at(candidate_floats, p + 8);
    taps[at + 10] = bits_at(candidate_floats, p + 9);
    taps[at + 11] = bits_at(candidate_floats, p + 10);
    taps[at + 12] = bits_at(candidate_floats, p + 11);
    taps[at + 13] = bits_at(candidate_floats, p + 12);
}

// The candidate of row i, as the tap at place k.
fn put_tap(
    candidate_floats: &[f32],
    candidate_words: &[u32],
    n: usize,
    i: usize,
    taps: &mut [u32],
    k: usize,
)
    requires candidate_rows { CandidateRows n candidate_floats.now candidate_words.now }
    requires i_lt_n { (i < n) × (k * tap_words + tap_words ≤ length taps.old) }
    requires sound { Sound (candidate_at candidate_floats.now candidate_words.now i) }
    ensures { taps.new ≡
        sets taps.old (k * tap_words) (words_of (sent_tap (candidate_at candidate_floats.now candidate_words.now i))) }
{
    let p = i * CANDIDATE_FLOATS;
    let at = k * TAP_WORDS;
    taps[at] = candidate_words[i * CANDIDATE_WORDS];
    taps[at + 1] = candidate_words[i * CANDIDATE_WORDS + 1];
    taps[at + 2] = bits_at(candidate_floats, p + 2);
    taps[at + 3] = bits_at(candidate_floats, p + 3);
    taps[at + 4] = bits_at(candidate_floats, p + 4);
    taps[at + 5] = bits_at(candidate_floats, p + 1);
    put_gains(candidate_floats, p, taps, at);
}

// The candidates at the first `count` positions in turn, as taps from the area's start on.
fn put_taps(
    candidate_floats: &[f32],
    candidate_words: &[u32],
    n: usize,
    positions: &[u32],
    count: usize,
    taps: &mut [u32],
)
    requires candidate_rows { CandidateRows n candidate_floats.now candidate_words.now }
    requires pointing { Pointing n count candidate_floats.now candidate_words.now positions.now }
    requires tap_words_in_bounds { count * tap_words ≤ length taps.old }
    ensures { taps.new ≡
        sets taps.old 0 (all_words (taps_at candidate_floats.now candidate_words.now count positions.now)) }
{
    for k in 0..count {
        put_tap(
            candidate_floats,
            candidate_words,
            n,
            positions[k] as usize,
            taps,
            k,
        );
    }
}

// The positions of the candidates that are kept, and the words of their taps.
fn fresh_positions() -> [u32; packet::MOST_TAPS]
    ensures { length result ≡ most_taps }
{
    [0u32; packet::MOST_TAPS]
}

fn fresh_taps() -> [u32; packet::AREA_WORDS]
    ensures { length result ≡ area_words }
{
    [0u32; packet::AREA_WORDS]
}

// Ranks the candidates of the first n rows and writes the packet of those that are kept.
pub fn write_taps(
    candidate_floats: &[f32],
    candidate_words: &[u32],
    n: usize,
    speed: f32,
    rate: f32,
    limit: usize,
    images: u32,
    rays: u32,
    keys: &mut [u64],
    index: &mut [u32],
    words: &mut [u64],
    scratch: &mut [u64],
    out: &mut [u8],
) -> Packed
    requires { Sends n limit images candidate_floats.now candidate_words.now keys.old index.old words.old scratch.old out.old }
    ensures count { result.count ≡ length (ranked speed rate limit (candidates_in n candidate_floats.now candidate_words.now)) }
    ensures bytes { result.bytes ≡
        length (packet_of images rays (ranked speed rate limit (candidates_in n candidate_floats.now candidate_words.now))) }
    ensures packet { out.new ≡
        packet_of images rays (ranked speed rate limit (candidates_in n candidate_floats.now candidate_words.now)) ++ drop result.bytes
        out.old }
    ensures rest { Open keys.old keys.new × Open index.old index.new × Open words.old words.new ×
        Open scratch.old scratch.new }
{
    let mut kept = fresh_positions();
    let mut taps = fresh_taps();
    let count = ranking::rank_reflections(
        candidate_floats,
        candidate_words,
        n,
        speed,
        rate,
        limit,
        keys,
        index,
        words,
        scratch,
        &mut kept,
    );
    put_taps(
        candidate_floats,
        candidate_words,
        n,
        &kept,
        count,
        &mut taps,
    );
    let head = Head {
        count,
        images,
        rays,
    };
    let bytes = packet::write(head, &taps, out).unwrap();
    Packed { count, bytes }
}
