// What C hands over, as the port takes it: settings and points are slices of numbers.
#![tactic(auto)]

ghost use Rattle.std.specs.Prelude.{◌≡◌, length};
ghost use Rattle.arguments.specs.Model.{curve_of_number};
ghost use Rattle.arguments.specs.Settings.{given_air, given_settings};
ghost use Rattle.arguments.specs.Point.{given_point};

use air::Air;
use scene::Settings;
use vector::Vec3;

// The curve is 0 for Inverse, else Linear.
pub fn curve_of(number: u32) -> bands::DistanceCurve
    ensures { result ≡ curve_of_number number }
{
    if number == 0 {
        return bands::DistanceCurve::Inverse;
    }
    bands::DistanceCurve::Linear
}

// The air's coefficients are the last eight counts.
fn air_from(counts: &[u32]) -> Air
    requires { length counts.now ≡ 14 }
    ensures { result ≡ given_air counts.now }
{
    Air {
        a0: counts[6],
        a1: counts[7],
        a2: counts[8],
        a3: counts[9],
        a4: counts[10],
        a5: counts[11],
        a6: counts[12],
        a7: counts[13],
    }
}

// `counts` are max_reflection_order, max_reflections, max_reflection_planes, plane_merge (0 or not), the curve (0 is Inverse), crossing_limit and the air's eight
// coefficients.
// `floats` are reflection_edge_fade, max_reflection_distance, temperature_celsius, sample_rate, plane_merge_cos, plane_merge_offset,
// plane_buried_distance, the distance model's reference_distance, rolloff_factor, min_distance and max_distance, and probe_radius.
pub fn settings_from(counts: &[u32], floats: &[f32]) -> Settings
    requires { (length counts.now ≡ 14) × (length floats.now ≡ 12) }
    ensures { result ≡ given_settings counts.now floats.now }
{
    let curve = curve_of(counts[4]);
    let plane_merge = counts[3] != 0;
    let distance_model = bands::DistanceModel {
        curve,
        reference_distance: floats[7],
        rolloff_factor: floats[8],
        min_distance: floats[9],
        max_distance: floats[10],
    };
    let air = air_from(counts);
    Settings {
        max_reflection_order: counts[0],
        max_reflections: counts[1],
        max_reflection_planes: counts[2],
        reflection_edge_fade: floats[0],
        max_reflection_distance: floats[1],
        temperature_celsius: floats[2],
        sample_rate: floats[3],
        plane_merge_cos: floats[4],
        plane_merge,
        plane_merge_offset: floats[5],
        plane_buried_distance: floats[6],
        distance_model,
        crossing_limit: counts[5],
        probe_radius: floats[11],
        air,
    }
}

// A point is three floats.
pub fn point_from(point: &[f32]) -> Vec3
    requires { length point.now ≡ 3 }
    ensures { result ≡ given_point point.now }
{
    Vec3 {
        x: point[0],
        y: point[1],
        z: point[2],
    }
}
