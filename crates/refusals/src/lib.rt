// Why something is refused: a query, a packet, an image's number or a forecast. docs/BEHAVIOUR.md says of each what to do.
#![tactic(auto)]

ghost use Rattle.std.specs.Prelude.{◌≡◌};
ghost use Rattle.refusals.specs.Numbers.{number_of};

// By the names of bindings/rust, in the order of their numbers.
#[derive(Clone, Copy, Debug, PartialEq, Eq)]
pub enum Refusal {
    // A setting, a coefficient of the air or the candidate room lies outside its limits, or the curve is neither 0 nor 1.
    Settings = 1,
    // A part of the scene has not the length that its counts say.
    Lengths,
    // A mesh has a handle that is not below the rows.
    Material,
    // The meshes hold more than 4,096 whole index triples, skipped ones counted.
    Triangles,
    // The output is under 55,306 bytes, a tap area under 14,336 words, or a work area too short.
    Areas,
    // A placed corner is not finite, or one of its coordinates is beyond 10,000, in a triple whose indices are in range.
    Far,
    // More paths pass than there is candidate room.
    Candidates,
    // A packet's bytes end early, or go on after the last tap.
    Bytes,
    // More than 1,024 taps, images above 250,000, an order that is not 1 to 8, or an image number that is 0 or above images.
    Counts,
    // A float of a packet is not finite, a delay is not above 0, or a gain whose bit stands is not above 0.
    Numbers,
    // An image number comes twice, or a sum of squared gains is not above 1e-14 or exceeds the one before it.
    Order,
    // No image has the number, or order, planes or plane bytes are out of range.
    NoImage = 13,
    // The crossing limit, planes, first planes, order or triples of a forecast lie outside their limits.
    Forecast,
}

impl Refusal {
    // The number by which the documents, C and the programs call it.
    pub fn number(self) -> u32
        ensures { result ≡ number_of self }
    {
        self as u32
    }
}
