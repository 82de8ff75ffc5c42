// Which setting refusal 1 is about, so that a program can name it. The settings are numbered in the order of the refusal's tests: 1
// max_reflection_planes, 2 the candidate room, 3 max_reflection_distance, 4 temperature_celsius, 5 sample_rate, 6 plane_merge_cos, 7
// reflection_edge_fade, 8 plane_merge_offset, 9 plane_buried_distance, 10 to 13 the distance model's reference_distance, rolloff_factor,
// min_distance and max_distance, 14 crossing_limit, 15 probe_radius, 16 to 23 the air's coefficients.
//
// Proved: the answer is 0 exactly where `scene` accepts the settings, and else the number of the first whose own test there fails.
#![tactic(auto)]

ghost use Rattle.std.specs.Prelude.{◌≡◌, cond, true, false, ℕ, suc, get_or, eqb};
ghost use Rattle.scene.specs.Limits.{between_of, above_zero_of, model_number_of, air_number_of, settings_of};
ghost use Rattle.settings_fault.specs.Fault.{first_failed, planes_in_bounds, room_in_bounds, crossings_in_bounds};
ghost use Rattle.settings_fault.specs.Fault.{high_air_tests, air_tests, probe_tests, model_tests, merge_tests, rate_tests, setting_tests, fault_of};

use air::Air;
use scene::Settings;

const MOST_PLANES: u32 = sequences::MAX_PLANES as u32;

const MOST_CANDIDATES: u32 = sequences::MAX_IMAGE_NODES as u32;

const MOST_COEFFICIENT: u32 = 1_000_000;

const LEAST_TEMPERATURE: f32 = -20.0;

const LEAST_CROSSINGS: u32 = 1;

const MOST_CROSSINGS: u32 = scene::MOST_CROSSINGS;

// ---- one test

fn between(x: f32, low: f32, high: f32) -> bool
    ensures { result ≡ between_of x low high }
{
    low <= x && x <= high
}

fn above_zero(x: f32, high: f32) -> bool
    ensures { result ≡ above_zero_of x high }
{
    0.0 < x && x <= high
}

fn model_number(x: f32) -> bool
    ensures { result ≡ model_number_of x }
{
    between(x, 0.0, 1000000.0)
}

fn planes_within(planes: u32) -> bool
    ensures { result ≡ planes_in_bounds planes }
{
    if planes > MOST_PLANES {
        return false;
    }
    true
}

fn room_within(c: u32) -> bool
    ensures { result ≡ room_in_bounds c }
{
    if c > MOST_CANDIDATES {
        return false;
    }
    true
}

fn crossings_within(limit: u32) -> bool
    ensures { result ≡ crossings_in_bounds limit }
{
    if limit < LEAST_CROSSINGS {
        return false;
    }
    if limit > MOST_CROSSINGS {
        return false;
    }
    true
}

fn air_number(x: u32) -> bool
    ensures { result ≡ air_number_of x }
{
    if x > MOST_COEFFICIENT {
        return false;
    }
    true
}

// ---- the first that fails

// What follows where a test holds, else its number.
fn pick(within: bool, number: u32, later: u32) -> u32
    ensures { result ≡ cond within later number }
{
    if within {
        return later;
    }
    number
}

fn high_air(a: Air) -> u32
    ensures { result ≡ first_failed 20 (high_air_tests a) }
{
    pick(
        air_number(a.a4),
        20,
        pick(
            air_number(a.a5),
            21,
            pick(air_number(a.a6), 22, pick(air_number(a.a7), 23, 0)),
        ),
    )
}

fn air_fault(a: Air) -> u32
    ensures { result ≡ first_failed 16 (air_tests a) }
{
    pick(
        air_number(a.a0),
        16,
        pick(
            air_number(a.a1),
            17,
            pick(
                air_number(a.a2),
                18,
                pick(air_number(a.a3), 19, high_air(a)),
            ),
        ),
    )
}

fn probe_fault(s: Settings) -> u32
    ensures { result ≡ first_failed 14 (probe_tests s) }
{
    pick(
        crossings_within(s.crossing_limit),
        14,
        pick(between(s.probe_radius, 0.0, 1.0), 15, air_fault(s.air)),
    )
}

fn model_fault(s: Settings) -> u32
    ensures { result ≡ first_failed 10 (model_tests s) }
{
    pick(
        model_number(s.distance_model.reference_distance),
        10,
        pick(
            model_number(s.distance_model.rolloff_factor),
            11,
            pick(
                model_number(s.distance_model.min_distance),
                12,
                pick(
                    model_number(s.distance_model.max_distance),
                    13,
                    probe_fault(s),
                ),
            ),
        ),
    )
}

fn merge_fault(s: Settings) -> u32
    ensures { result ≡ first_failed 6 (merge_tests s) }
{
    pick(
        between(s.plane_merge_cos, -1.0, 1.0),
        6,
        pick(
            float::is_finite(s.reflection_edge_fade),
            7,
            pick(
                float::is_finite(s.plane_merge_offset),
                8,
                pick(float::is_finite(s.plane_buried_distance), 9, model_fault(s)),
            ),
        ),
    )
}

fn rate_fault(s: Settings) -> u32
    ensures { result ≡ first_failed 3 (rate_tests s) }
{
    pick(
        above_zero(s.max_reflection_distance, 1000.0),
        3,
        pick(
            between(s.temperature_celsius, LEAST_TEMPERATURE, 50.0),
            4,
            pick(between(s.sample_rate, 8000.0, 192000.0), 5, merge_fault(s)),
        ),
    )
}

// The number of the first setting that lies outside its limits, 0 where none does. c is the candidate room.
pub fn first_fault(s: Settings, c: u32) -> u32
    ensures { (result ≡ fault_of s c) × (eqb result 0 ≡ settings_of s c) × ((j : ℕ) → result ≡ suc j → get_or (setting_tests s c) j true ≡ false) }
{
    pick(
        planes_within(s.max_reflection_planes),
        1,
        pick(room_within(c), 2, rate_fault(s)),
    )
}
