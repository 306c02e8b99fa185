// A test load that anyone can repeat (document 02): information from a seed, and bits of a frame turned by draws or in a run.
//   fill     fills the information of a frame, a step of the generator a bit
//   errors   turns each bit of a frame whose draw, sixteen steps, is below a limit
//   run      turns a run of bits of a frame
//   fill_buffer, errors_buffer   the first two on a plain buffer of bits, without a design, as for original frames
//
// No call has a `requires`: rules 1 to 4 and 6, and for the two that turn bits rule 10, are asked before a byte is written, so that a refused call leaves
// the buffers as they were. Bits are counted through the information and on through the redundancy. The generator is that of
// the crate `generator`.
#![tactic(auto)]

ghost use Rattle.std.specs.Prelude.{◌≡◌, cond, ◌+◌, ◌-◌, ◌*◌, ◌^◌, ◌<◌, length};
ghost use Rattle.staircase.specs.Lists.{tabulate};
ghost use Rattle.staircase.specs.Frame.{frame_of};
ghost use Rattle.staircase.specs.Load.{state_after, load_bit, random_turns, run_turns, turned_where, fill_verdict, turn_verdict, fill_call, errors_call, run_call};
ghost use Rattle.design.specs.Sizes.{params_of};
ghost use Rattle.design.specs.Answers.{Allowed};
ghost use Rattle.generator.specs.Answers.{load_state};
ghost use Rattle.load.specs.Buffer.{errors_buffer};
ghost use Rattle.load.specs.Checks.{fill_rules, turn_rules};
ghost use Rattle.answers.specs.Answers.{verdict_of};

use answers::Refusal;
use design::Design;

// Fills the lent bytes with bits, a step each, and answers the last state.
fn fill_bits(bits: &mut [u8], seed: u32) -> u32
    ensures { (bits.new ≡ tabulate (length bits.old) (load_bit seed)) × (result ≡ state_after seed (length bits.old)) }
{
    let mut s = seed;
    for bit in bits.iter_mut() {
        s = generator::next_state(s);
        *bit = generator::output_of(s);
    }
    s
}

// A bit, turned or not.
fn turned_bit(bit: u8, turn: bool) -> u8
    ensures { result ≡ cond turn (1 - bit) bit }
{
    if turn { 1u8.saturating_sub(bit) } else { bit }
}

// Turns each of the lent bits whose draw is below `limit`, and answers the state after the last draw.
fn turn_drawn(bits: &mut [u8], seed: u32, limit: u64) -> u32
    ensures { (bits.new ≡ turned_where (random_turns seed limit) bits.old)
        × (result ≡ state_after seed (16 * length bits.old)) }
{
    let mut s = seed;
    for bit in bits.iter_mut() {
        let d = generator::draw(s);
        s = d.state;
        *bit = turned_bit(*bit, u64::from(d.number) < limit);
    }
    s
}

// Whether bit k is one of `long` bits from bit `place` on. Their sum may be no u64, so it is not formed.
fn in_run(place: u64, long: u64, k: u64) -> bool
    ensures { result ≡ run_turns place long k }
{
    place <= k && k - place < long
}

// Turns those of the lent bits that are in a run; bit 0 of them has the number `first`.
fn turn_run(bits: &mut [u8], first: u64, place: u64, long: u64)
    requires { first + length bits.old < 2 ^ 63 }
    ensures { bits.new ≡ turned_where (λ k. run_turns place long (first + k)) bits.old }
{
    for (k, bit) in bits.iter_mut().enumerate() {
        let turn = in_run(place, long, first + (k as u64));
        *bit = turned_bit(*bit, turn);
    }
}

// Rules 4 and 6, for the information of a frame.
fn check_info(d: Design, blocks: u64, info: &[u8]) -> Result<(), Refusal>
    ensures { verdict_of result ≡ fill_rules (params_of d) blocks info.now }
{
    design::check_count(blocks)?;
    let due = rules::frame_due(d, blocks, rules::lists_due(d));
    rules::check_length(rules::INFORMATION, info.len(), due.info)
}

// Rules 4, 6 and 10, for a frame of an allowed design.
fn check_frame(d: Design, blocks: u64, info: &[u8], red: &[u8]) -> Result<(), Refusal>
    requires { Allowed d }
    ensures { verdict_of result ≡ turn_rules (params_of d) blocks info.now red.now }
{
    design::check_count(blocks)?;
    rules::check_frame_lengths(d, blocks, info, red)?;
    rules::check_bits(info, 0)?;
    rules::check_bits(red, info.len() as u64)
}

// The rules of `fill`: 1 to 4 and 6.
fn check_fill(m: u64, t: u64, size: u64, col: u64, blocks: u64, info: &[u8]) -> Result<(), Refusal>
    ensures { verdict_of result ≡ fill_verdict m t size col blocks info.now }
{
    let d = Design::new_col(m, t, size, col)?;
    check_info(d, blocks, info)
}

// The rules of `errors` and `run`: 1 to 4, 6 and 10.
fn check_turn(
    m: u64,
    t: u64,
    size: u64,
    col: u64,
    blocks: u64,
    info: &[u8],
    red: &[u8],
) -> Result<(), Refusal>
    ensures { verdict_of result ≡ turn_verdict m t size col blocks info.now red.now }
{
    let d = Design::new_col(m, t, size, col)?;
    check_frame(d, blocks, info, red)
}

// Fills the information of a frame of `blocks` blocks with the bits that the generator gives from `seed` on, a step a bit, and answers the last state; or
// the first of rules 1 to 4 and 6 that refuses, and the buffer stays as it was. What it held before plays no part.
pub fn fill_col(
    m: u64,
    t: u64,
    size: u64,
    col: u64,
    blocks: u64,
    seed: u32,
    info: &mut [u8],
) -> Result<u32, Refusal>
    ensures { let f = fill_call m t size col blocks seed info.old in
        (verdict_of result ≡ f.verdict) × (info.new ≡ f.info) × (load_state result ≡ f.state) }
{
    check_fill(m, t, size, col, blocks, info)?;
    Ok(fill_bits(info, seed))
}

// The same where rows and columns have one code.
pub fn fill(
    m: u64,
    t: u64,
    size: u64,
    blocks: u64,
    seed: u32,
    info: &mut [u8],
) -> Result<u32, Refusal>
    ensures { let f = fill_call m t size 0 blocks seed info.old in
        (verdict_of result ≡ f.verdict) × (info.new ≡ f.info) × (load_state result ≡ f.state) }
{
    fill_col(m, t, size, 0, blocks, seed, info)
}

// Turns each bit of a frame of `blocks` blocks whose draw, sixteen steps of the generator from `seed` on, is below `limit`, and answers the last state; or
// the first of rules 1 to 4, 6 and 10 that refuses, and both buffers stay as they were. A bit turns in `limit` of 65,536 draws: none for 0, each for
// 65,536 and more. Turning a second time from the same seed gives the frame back.
pub fn errors_col(
    m: u64,
    t: u64,
    size: u64,
    col: u64,
    blocks: u64,
    seed: u32,
    limit: u64,
    info: &mut [u8],
    red: &mut [u8],
) -> Result<u32, Refusal>
    ensures { let e = errors_call m t size col blocks seed limit info.old red.old in
        (verdict_of result ≡ e.verdict) × (frame_of info.new red.new ≡ e.frame) × (load_state result ≡ e.state) }
{
    check_turn(m, t, size, col, blocks, info, red)?;
    let between = turn_drawn(info, seed, limit);
    Ok(turn_drawn(red, between, limit))
}

// The same where rows and columns have one code.
pub fn errors(
    m: u64,
    t: u64,
    size: u64,
    blocks: u64,
    seed: u32,
    limit: u64,
    info: &mut [u8],
    red: &mut [u8],
) -> Result<u32, Refusal>
    ensures { let e = errors_call m t size 0 blocks seed limit info.old red.old in
        (verdict_of result ≡ e.verdict) × (frame_of info.new red.new ≡ e.frame) × (load_state result ≡ e.state) }
{
    errors_col(m, t, size, 0, blocks, seed, limit, info, red)
}

// Turns `length` bits of a frame of `blocks` blocks from bit `place` on, as far as there are any; or answers the first of rules 1 to 4, 6 and 10 that
// refuses, and both buffers stay as they were. Both numbers may be any.
pub fn run_col(
    m: u64,
    t: u64,
    size: u64,
    col: u64,
    blocks: u64,
    place: u64,
    length: u64,
    info: &mut [u8],
    red: &mut [u8],
) -> Result<(), Refusal>
    ensures { let r = run_call m t size col blocks place length info.old red.old in
        (verdict_of result ≡ r.verdict) × (frame_of info.new red.new ≡ r.frame) }
{
    check_turn(m, t, size, col, blocks, info, red)?;
    let border = info.len() as u64;
    turn_run(info, 0, place, length);
    turn_run(red, border, place, length);
    Ok(())
}

// The same where rows and columns have one code.
pub fn run(
    m: u64,
    t: u64,
    size: u64,
    blocks: u64,
    place: u64,
    length: u64,
    info: &mut [u8],
    red: &mut [u8],
) -> Result<(), Refusal>
    ensures { let r = run_call m t size 0 blocks place length info.old red.old in
        (verdict_of result ≡ r.verdict) × (frame_of info.new red.new ≡ r.frame) }
{
    run_col(m, t, size, 0, blocks, place, length, info, red)
}

// Fills a buffer with the bits that the generator gives from `seed` on, a step a bit, and answers the last state. It may have any length, and what it held
// before plays no part.
pub fn fill_buffer(seed: u32, bits: &mut [u8]) -> u32
    ensures { (bits.new ≡ tabulate (length bits.old) (load_bit seed)) × (result ≡ state_after seed (length bits.old)) }
{
    fill_bits(bits, seed)
}

// Turns each bit of a buffer whose draw, sixteen steps of the generator from `seed` on, is below `limit`, and answers the last state; or rule 10 refuses,
// and the buffer stays as it was. It may have any length.
pub fn errors_buffer(seed: u32, limit: u64, bits: &mut [u8]) -> Result<u32, Refusal>
    ensures { let e = errors_buffer seed limit bits.old in
        (verdict_of result ≡ e.verdict) × (bits.new ≡ e.info) × (load_state result ≡ e.state) }
{
    rules::check_bits(bits, 0)?;
    Ok(turn_drawn(bits, seed, limit))
}
