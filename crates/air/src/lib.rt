// Damping by the air (document 02, Note 5): from eight coefficients and the length of a path to what is left in each band. Everything is worked out in
// whole numbers: millimetres, steps of 0.05 dB, and a table of factors over 2^24 by steps, which a tenth goes on with from 400 steps to the next.
#![tactic(auto)]

ghost use Rattle.std.specs.Prelude.{◌≡◌, ◌≤◌, min, length};
ghost use Rattle.air.specs.Table.{factor_table};
ghost use Rattle.air.specs.Air.{millimetres_of, steps_in, steps_of, factor_of_steps, band_of, bands_of, air_gain_of};
ghost use Rattle.air.specs.Kept.{most_millimetres, most_product, most_steps, still_of};

use bands::Band8;

// What the air takes in each of eight octave bands, in millionths of a decibel per metre.
#[derive(Clone, Copy)]
pub struct Air {
    pub a0: u32,
    pub a1: u32,
    pub a2: u32,
    pub a3: u32,
    pub a4: u32,
    pub a5: u32,
    pub a6: u32,
    pub a7: u32,
}

// A longer path counts as this long, 268,435 km: any coefficient but 0 leaves nothing of it.
const MOST_MILLIMETRES: u64 = 268435456000;

// From so many steps on nothing is left.
const MOST_STEPS: u64 = 3200;

const TENS: [u32; 9] = [
    1, 10, 100, 1000, 10000, 100000, 1000000, 10000000, 100000000,
];

pub const FACTORS: [u32; 400] = [
    16777216, 16680916, 16585168, 16489971, 16395319, 16301212, 16207644, 16114613, 16022116,
    15930151, 15838713, 15747800, 15657408, 15567536, 15478180, 15389336, 15301002, 15213176,
    15125853, 15039032, 14952709, 14866882, 14781547, 14696702, 14612344, 14528470, 14445078,
    14362164, 14279726, 14197762, 14116268, 14035241, 13954680, 13874581, 13794942, 13715760,
    13637033, 13558757, 13480931, 13403551, 13326616, 13250122, 13174067, 13098449, 13023265,
    12948512, 12874189, 12800292, 12726819, 12653768, 12581137, 12508922, 12437122, 12365733,
    12294755, 12224184, 12154018, 12084255, 12014892, 11945928, 11877359, 11809184, 11741400,
    11674005, 11606997, 11540374, 11474133, 11408272, 11342790, 11277683, 11212950, 11148588,
    11084596, 11020971, 10957712, 10894815, 10832280, 10770103, 10708284, 10646819, 10585707,
    10524946, 10464534, 10404468, 10344747, 10285369, 10226332, 10167633, 10109272, 10051245,
    9993552, 9936190, 9879157, 9822451, 9766071, 9710014, 9654280, 9598865, 9543768, 9488987,
    9434521, 9380368, 9326525, 9272992, 9219765, 9166845, 9114228, 9061913, 9009898, 8958182,
    8906762, 8855638, 8804808, 8754269, 8704020, 8654059, 8604386, 8554997, 8505892, 8457069,
    8408526, 8360262, 8312274, 8264563, 8217125, 8169959, 8123064, 8076438, 8030080, 7983988,
    7938160, 7892596, 7847293, 7802250, 7757466, 7712938, 7668667, 7624649, 7580884, 7537371,
    7494107, 7451091, 7408322, 7365799, 7323520, 7281483, 7239688, 7198133, 7156816, 7115737,
    7074893, 7034283, 6993907, 6953763, 6913849, 6874164, 6834706, 6795476, 6756470, 6717689,
    6679129, 6640792, 6602674, 6564775, 6527094, 6489629, 6452379, 6415343, 6378519, 6341907,
    6305505, 6269312, 6233326, 6197547, 6161974, 6126605, 6091438, 6056474, 6021710, 5987146,
    5952780, 5918612, 5884639, 5850862, 5817279, 5783888, 5750689, 5717680, 5684861, 5652230,
    5619787, 5587530, 5555458, 5523570, 5491865, 5460342, 5429000, 5397838, 5366855, 5336050,
    5305421, 5274968, 5244690, 5214586, 5184655, 5154895, 5125307, 5095888, 5066638, 5037556,
    5008640, 4979891, 4951307, 4922887, 4894630, 4866535, 4838601, 4810828, 4783214, 4755759,
    4728461, 4701320, 4674335, 4647505, 4620828, 4594305, 4567934, 4541715, 4515646, 4489726,
    4463955, 4438333, 4412857, 4387527, 4362343, 4337304, 4312408, 4287655, 4263044, 4238575,
    4214246, 4190056, 4166006, 4142093, 4118318, 4094679, 4071176, 4047807, 4024573, 4001473,
    3978504, 3955668, 3932963, 3910388, 3887943, 3865626, 3843438, 3821377, 3799442, 3777634,
    3755950, 3734391, 3712956, 3691644, 3670454, 3649386, 3628439, 3607612, 3586905, 3566316,
    3545846, 3525493, 3505257, 3485137, 3465132, 3445243, 3425467, 3405805, 3386256, 3366819,
    3347494, 3328280, 3309176, 3290181, 3271296, 3252519, 3233850, 3215288, 3196832, 3178483,
    3160238, 3142099, 3124063, 3106131, 3088302, 3070576, 3052951, 3035427, 3018004, 3000681,
    2983457, 2966332, 2949306, 2932377, 2915545, 2898810, 2882172, 2865628, 2849180, 2832825,
    2816565, 2800398, 2784324, 2768342, 2752452, 2736654, 2720945, 2705327, 2689799, 2674360,
    2659009, 2643747, 2628572, 2613484, 2598483, 2583567, 2568738, 2553994, 2539334, 2524758,
    2510266, 2495858, 2481532, 2467288, 2453126, 2439045, 2425045, 2411125, 2397286, 2383526,
    2369844, 2356242, 2342717, 2329270, 2315900, 2302607, 2289390, 2276249, 2263184, 2250193,
    2237277, 2224435, 2211667, 2198972, 2186351, 2173801, 2161324, 2148918, 2136583, 2124319,
    2112126, 2100002, 2087949, 2075964, 2064048, 2052201, 2040421, 2028709, 2017065, 2005487,
    1993975, 1982530, 1971151, 1959836, 1948587, 1937402, 1926282, 1915225, 1904232, 1893302,
    1882434, 1871629, 1860886, 1850205, 1839585, 1829026, 1818527, 1808089, 1797711, 1787392,
    1777132, 1766932, 1756790, 1746706, 1736680, 1726711, 1716800, 1706946, 1697148, 1687407,
];

// The millimetres of a path. Twice of them is exact in binary64.
fn millimetres(total: f32) -> u64
    ensures { result ≡ min (millimetres_of total) most_millimetres }
{
    if 0.0 < total {
        let twice = std::num::f32_to_f64_with_nan(total) * 2000.0;
        if twice < 536870912000.0 {
            return (std::num::truncating_f64_to_u64(twice) + 1) / 2;
        }
        if float::is_finite(total) {
            return MOST_MILLIMETRES;
        }
    }
    0
}

// Steps from the product of coefficient and millimetres, as far as something may be left.
fn cut(product: u64) -> u64
    requires { product ≤ most_product }
    ensures { result ≡ min (steps_in product) most_steps }
{
    let s = (product + 25000000) / 50000000;
    if s < MOST_STEPS { s } else { MOST_STEPS }
}

// The steps of a path. A product of two large numbers does not fit, but leaves nothing.
fn steps(coefficient: u32, millimetres: u64) -> u64
    requires { millimetres ≤ most_millimetres }
    ensures { result ≡ min (steps_of coefficient millimetres) most_steps }
{
    if coefficient < 16777216 {
        return cut(coefficient as u64 * millimetres);
    }
    if millimetres < 16384 {
        return cut(coefficient as u64 * millimetres);
    }
    MOST_STEPS
}

fn factors() -> [u32; 400]
    ensures { result ≡ factor_table }
{
    FACTORS
}

// The factor of so many steps, from the table.
fn factor(table: &[u32; 400], steps: u64) -> u32
    requires table_value { table.now ≡ factor_table }
    requires steps_le_most_steps { steps ≤ most_steps }
    ensures { result ≡ factor_of_steps steps }
{
    table[(steps % 400) as usize] / TENS[(steps / 400) as usize]
}

// The k of so many steps: k / 2^24 of an amplitude is left.
pub fn factor_of(steps: u32) -> u32
    ensures { result ≡ factor_of_steps steps }
{
    let table = factors();
    if steps < MOST_STEPS as u32 {
        return factor(&table, steps as u64);
    }
    0
}

// What is left in a band.
fn band(table: &[u32; 400], coefficient: u32, millimetres: u64) -> f32
    requires table_value { table.now ≡ factor_table }
    requires millimetres_le_most_millimetres { millimetres ≤ most_millimetres }
    ensures { result ≡ band_of coefficient millimetres }
{
    let k = factor(table, steps(coefficient, millimetres));
    std::num::nearest_u32_to_f32(k) / 16777216.0
}

// Whether the air takes nothing, whatever the path.
fn still(air: Air) -> bool
    ensures { result ≡ still_of air }
{
    if air.a0 != 0 {
        return false;
    }
    if air.a1 != 0 {
        return false;
    }
    if air.a2 != 0 {
        return false;
    }
    if air.a3 != 0 {
        return false;
    }
    if air.a4 != 0 {
        return false;
    }
    if air.a5 != 0 {
        return false;
    }
    if air.a6 != 0 {
        return false;
    }
    air.a7 == 0
}

// What is left after so many millimetres.
fn bands_after(air: Air, millimetres: u64) -> Band8
    requires { millimetres ≤ most_millimetres }
    ensures { result ≡ bands_of air millimetres }
{
    let table = factors();
    Band8 {
        b0: band(&table, air.a0, millimetres),
        b1: band(&table, air.a1, millimetres),
        b2: band(&table, air.a2, millimetres),
        b3: band(&table, air.a3, millimetres),
        b4: band(&table, air.a4, millimetres),
        b5: band(&table, air.a5, millimetres),
        b6: band(&table, air.a6, millimetres),
        b7: band(&table, air.a7, millimetres),
    }
}

// What the air leaves of an amplitude over a path.
pub fn air_gain(air: Air, total: f32) -> Band8
    ensures { result ≡ air_gain_of air total }
{
    if still(air) {
        return bands::splat(1.0);
    }
    bands_after(air, millimetres(total))
}
