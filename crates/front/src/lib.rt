// The front of a query: what loading answered, whether anything is to be searched, and order and list limit as used.
// A crate of its own, so that these small functions are not checked again with those that are lent all areas.
#![tactic(auto)]

ghost use Rattle.std.specs.Prelude.{◌≡◌, min};
ghost use Rattle.placing.specs.Loading.{load_said};
ghost use Rattle.front.specs.Asked.{front_of_loaded, early_of, is_finite_point, silent_of, order_of_search, limit_of};

use placing::Loaded;
use refusals::Refusal;
use scene::Settings;
use vector::Vec3;

// ---- what loading answered

// As plain numbers: a refusal of 1 to 6, or 0, the triangles kept and the whole triples.
#[derive(Clone, Copy)]
pub struct Front {
    pub refusal: u32,
    pub kept: usize,
    pub triples: usize,
}

pub fn front_of(loaded: Result<Loaded, Refusal>) -> Front
    ensures { result ≡ front_of_loaded (load_said loaded) }
{
    match loaded {
        Err(refusal) => Front {
            refusal: refusal.number(),
            kept: 0,
            triples: 0,
        },
        Ok(loaded) => Front {
            refusal: 0,
            kept: loaded.triangles,
            triples: loaded.triples,
        },
    }
}

// "Refusals 1 to 5 leave work areas as found": whether k is one of them.
pub fn early(k: u32) -> bool
    ensures { result ≡ early_of k }
{
    if 0 < k {
        return k < 6;
    }
    false
}

// ---- what is searched

fn finite_point(v: Vec3) -> bool
    ensures { result ≡ is_finite_point v }
{
    if float::is_finite(v.x) {
        if float::is_finite(v.y) {
            return float::is_finite(v.z);
        }
    }
    false
}

// Whether no sequence is allowed, whatever the planes.
pub fn silent(separated: bool, source: Vec3, listener: Vec3, m: usize) -> bool
    ensures { result ≡ silent_of separated source listener m }
{
    if separated {
        return true;
    }
    if finite_point(source) {
        if finite_point(listener) {
            return m == 0;
        }
    }
    true
}

// `max_reflection_order` and `max_reflections` are used as at most these.
const ORDER: usize = sequences::MAX_IMAGE_ORDER;

const LIMIT: usize = packet::MOST_TAPS;

fn at_most(x: u32, most: usize) -> usize
    ensures { result ≡ min x most }
{
    let wide = x as usize;
    if wide < most {
        return wide;
    }
    most
}

pub fn search_order(settings: Settings) -> usize
    ensures { result ≡ order_of_search settings }
{
    at_most(settings.max_reflection_order, ORDER)
}

pub fn list_limit(settings: Settings) -> usize
    ensures { result ≡ limit_of settings }
{
    at_most(settings.max_reflections, LIMIT)
}
