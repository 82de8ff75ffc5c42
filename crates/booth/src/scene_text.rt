// The built-in booth, in the text that a file would have.
use crate::table::ErrorBytes;
use std::fs::Files;
use std::io;

// A room of twelve metres with a carpet, ceiling tiles and plaster walls, and three free panels of wood: 18 triangles.
pub(crate) fn run_built_in(
    rt: &(impl Files + Print + ErrorBytes + AllocGlobal),
    by_time: bool,
) -> io::Result<()> {
    crate::run(
        rt,
        b"case built-in                  # 12 m long, 3 m high, 5 m wide
counts 3 16 32 4096            # order, most taps, most planes, room for candidates
floats 0.1 50 20 48000 0.9961947 0.25 0.05
merge 1
curve inverse 1 1 1 10000
air 121 440 1310 2728 4665 9887 29666 105291
materials 4                    # absorption in eight bands, then transmission
m 0.05 0.06 0.14 0.37 0.6 0.65 0.65 0.65 0 0 0 0 0 0 0 0   # carpet
m 0.2 0.3 0.5 0.6 0.7 0.75 0.75 0.7 0 0 0 0 0 0 0 0        # ceiling tiles
m 0.12 0.1 0.08 0.06 0.05 0.05 0.05 0.05 0 0 0 0 0 0 0 0   # plaster
m 0.28 0.22 0.17 0.09 0.1 0.11 0.11 0.11 0.1 0.07 0.05 0.03 0.02 0.01 0 0  # wood panel
meshes 4
mesh 0 4 6   # floor
t 1 0 0 0 0 1 0 0 0 0 1 0 0 0 0 1
p 0 0 0
p 12 0 0
p 12 0 5
p 0 0 5
i 0 1 2
i 0 2 3
mesh 1 4 6   # ceiling
t 1 0 0 0 0 1 0 0 0 0 1 0 0 0 0 1
p 0 3 0
p 12 3 0
p 12 3 5
p 0 3 5
i 0 1 2
i 0 2 3
mesh 2 8 24   # four walls
t 1 0 0 0 0 1 0 0 0 0 1 0 0 0 0 1
p 0 0 0
p 12 0 0
p 12 0 5
p 0 0 5
p 0 3 0
p 12 3 0
p 12 3 5
p 0 3 5
i 0 1 5
i 0 5 4
i 1 2 6
i 1 6 5
i 2 3 7
i 2 7 6
i 3 0 4
i 3 4 7
mesh 3 12 18   # three panels
t 1 0 0 0 0 1 0 0 0 0 1 0 0 0 0 1
p 4 0.4 0.6
p 6 0.4 0.6
p 6 2.2 0.6
p 4 2.2 0.6
p 6.5 0.4 4.3
p 8.5 0.4 4.3
p 8.5 2.2 4.3
p 6.5 2.2 4.3
p 5 2.4 2
p 7 2.4 2
p 7 2.4 3.2
p 5 2.4 3.2
i 0 1 2
i 0 2 3
i 4 5 6
i 4 6 7
i 8 9 10
i 8 10 11
source 2 1.2 2
listener 9 1.5 3.2
separated 0
end
",
        b"",
        by_time,
    )
}
