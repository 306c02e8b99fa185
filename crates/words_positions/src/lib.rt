// The table of the powers of x that the positions of a design's words carry.
//   fill_code(m, t, positions)   fills it for the words of a code
//   fill_table(d, positions)     for those of a design
//   fill_columns(d, positions)   for the column words of a design
//
// The remainder of a word is the sum of the entries at its ones. Whoever needs remainders makes the table once, in an array of its own; the laws
// of proofs/ speak of such an array, lent in part.
#![tactic(auto)]

ghost use Rattle.std.specs.Prelude.{◌≡◌, ◌+◌, ◌*◌, ◌^◌, ◌≤◌, ◌<◌, length};
ghost use Rattle.bch.specs.Code.{generator};
ghost use Rattle.bch.specs.Powers.{PositionPowers};
ghost use Rattle.staircase.specs.Design.{column_generator};
ghost use Rattle.design.specs.Sizes.{params_of};
ghost use Rattle.design.specs.Answers.{Allowed};

use design::Design;

// Fills `positions` with the power of x that each position of a word of as many bits carries, modulo the generator of the code over field m that
// corrects t errors; a shorter table has those of a word's last positions.
pub fn fill_code(m: usize, t: usize, positions: &mut [u32])
    requires { (4 ≤ m) × (m ≤ 10) × (1 ≤ t) × (t ≤ 3) × (2 * (m * t) + 2 < 2 ^ m) }
    ensures { PositionPowers (generator m t) (m * t) positions.new × (length positions.new ≡ length positions.old) }
{
    let r = m * t;
    let g = bch_remainders::generator_of(m, t);
    bch_remainders::fill_positions(g, r, 1 << r, positions);
}

// The same for the code of a design.
pub fn fill_table(d: Design, positions: &mut [u32])
    requires { Allowed d }
    ensures { PositionPowers (generator d.m d.t) (d.m * d.t) positions.new × (length positions.new ≡ length positions.old) }
{
    let m = d.m();
    let t = d.t();
    fill_code(m, t, positions);
}

// The generator of the column words of a design.
fn column_generator(d: Design) -> u32
    requires { Allowed d }
    ensures { result ≡ column_generator (params_of d) }
{
    let g = bch_remainders::generator_of(d.m(), d.t());
    if d.mirrored() {
        return bch_remainders::mirror_of(g, d.r());
    }
    g
}

// `fill_table` for the code of the column words.
pub fn fill_columns(d: Design, positions: &mut [u32])
    requires { Allowed d }
    ensures { PositionPowers (column_generator (params_of d)) (d.m * d.t) positions.new
        × (length positions.new ≡ length positions.old) }
{
    let r = d.r();
    let g = column_generator(d);
    bch_remainders::fill_positions(g, r, 1 << r, positions);
}
