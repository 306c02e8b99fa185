// The generator of the test load and of mixed lists.
//   next_state     the state after one step
//   output_of      the bit that a state gives
//   draw           the number that sixteen steps give, and the state after them
//
// The step is that of a linear congruence: its low bits repeat early, so that the highest bit is the output. A step is a multiplication and a sum, and
// waits for the one before it.
#![tactic(auto)]

ghost use Rattle.std.specs.Prelude.{◌≡◌, ◌*◌, ◌%◌, ◌^◌, ◌<◌};
ghost use Rattle.staircase.specs.Load.{next_state, output, state_after, drawn};

// "s × 1664525 + 1013904223 modulo 2^32"
const MULTIPLIER: u32 = 1664525;

const INCREMENT: u32 = 1013904223;

const MODULUS: u64 = 4294967296;

// The value of a state's highest bit.
const HIGHEST: u32 = 2147483648;

// "one draw of 16 steps per bit"
const DRAW_STEPS: usize = 16;

// A number that was drawn, and the state after its last step.
#[derive(Clone, Copy)]
pub struct Drawing {
    pub number: u32,
    pub state: u32,
}

// a × b, modulo 2^32.
fn wrapping_mul_u32(a: u32, b: u32) -> u32
    ensures { result ≡ (a * b) % 2 ^ 32 }
{
    ((a as u64) * (b as u64) % MODULUS) as u32
}

// The state after s.
pub fn next_state(s: u32) -> u32
    ensures { result ≡ next_state s }
{
    wrapping_mul_u32(s, MULTIPLIER).wrapping_add(INCREMENT)
}

// The highest bit of a state.
pub fn output_of(s: u32) -> u8
    ensures { (result ≡ output s) × (result < 2) }
{
    (s / HIGHEST) as u8
}

// Sixteen steps: the number whose highest bit is the first output, and the state after them.
pub fn draw(seed: u32) -> Drawing
    ensures { (result.number ≡ drawn seed) × (result.state ≡ state_after seed 16) × (result.number < 65536) }
{
    let mut s = seed;
    let mut number: u32 = 0;
    for k in 0..DRAW_STEPS {
        s = next_state(s);
        let bit = output_of(s);
        number = 2 * number + (bit as u32);
    }
    Drawing { number, state: s }
}
