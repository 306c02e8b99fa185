// Marks of the sent bits of a frame in working bytes, eight in a byte, the lowest first: which bits are not the ones that were received.
//   clear(marks)       takes all marks away
//   toggle(marks, k)   mark k becomes the other
//   count(marks)       how many marks are set
//
// A bit that is flipped twice is again what was received, and its mark is away again. So the marks that are set at the end are the line errors, and the
// received frame need not be copied: an eighth of its bytes is cleared before and counted afterwards, and each flip touches one byte more.
//
// The ones of each byte are counted by additions of neighbouring bits, in 16 bits for each stretch of 4,096 bytes, without a jump, so that the compiler
// makes steps of 16 bytes of it. A stretch of 16 bytes, counted in 8 bits, is taken apart by the compiler, and takes many times as long.
#![tactic(auto)]

ghost use Rattle.std.specs.Prelude.{◌≡◌, ◌*◌, ◌/◌, ◌≤◌, ◌<◌, length, replicate};
ghost use Rattle.decoder_marks.specs.Marks.{Toggled, set_marks};

// The bytes whose ones are counted in 16 bits: at most 8,191, and a multiple of the compiler's steps.
const STRETCH: usize = 4096;

// Takes all marks away. The work grows with the number of bytes.
pub fn clear(marks: &mut [u8])
    ensures { marks.new ≡ replicate (length marks.old) 0 }
{
    marks.fill(0);
}

// Makes mark k the other. A fixed number of steps.
pub fn toggle(marks: &mut [u8], k: usize)
    requires { k / 8 < length marks.old }
    ensures { Toggled marks.old marks.new k }
{
    matrix::add_bit(marks, k, 1);
}

// How many marks are set in at most 8,191 bytes.
fn count_stretch(marks: &[u8]) -> u16
    requires { length marks.now ≤ 8191 }
    ensures { (result ≡ set_marks marks.now) × (result ≤ 8 * length marks.now) }
{
    let mut n: u16 = 0;
    for byte in marks {
        n += u16::from(matrix::ones_of(*byte));
    }
    n
}

// How many marks are set. The work grows with the number of bytes.
pub fn count(marks: &[u8]) -> u64
    requires { length marks.now < 1152921504606846976 }
    ensures { (result ≡ set_marks marks.now) × (result ≤ 8 * length marks.now) }
{
    let mut n: u64 = 0;
    for stretch in marks.chunks(STRETCH) {
        n += u64::from(count_stretch(stretch));
    }
    n
}
