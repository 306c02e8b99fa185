// In how many places two buffers of bits differ: the errors before a decoder, or those that it left.
//   differences   the number of places, as far as both buffers go
//
// It has no `requires`: the buffers may have any lengths and any bytes, and bytes are compared as they are. One pass.
#![tactic(auto)]

ghost use Rattle.std.specs.Prelude.{◌≡◌};
ghost use Rattle.bch.specs.Code.{distance};

// The number of places in which two buffers differ, as far as both go.
pub fn differences(a: &[u8], b: &[u8]) -> u64
    ensures { result ≡ distance a.now b.now }
{
    let mut n: u64 = 0;
    for (x, y) in a.iter().zip(b) {
        if x != y {
            n += 1;
        }
    }
    n
}
