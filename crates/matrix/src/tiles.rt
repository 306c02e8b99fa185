// Packed bits in tiles of eight bytes, 64 bits, with rows for columns.
//   turn(packed, count, turned)   bit s of byte i of each tile becomes bit i of its byte s
//
// A tile is read and written as one number, which the compiler makes one load and one store of, and two tiles at a time.
ghost use Rattle.std.specs.Prelude.{◌≡◌, ℕ, ◌+◌, ◌*◌, ◌/◌, ◌%◌, ◌^◌, ◌≤◌, ◌<◌, length, get_or};

use crate::planes::transpose_block;

// Four bytes from byte `at` on as one number, the first lowest.
fn four_bytes(b: &[u8], at: usize) -> u64
    requires { at + 4 ≤ length b.now }
    ensures { (result < 4294967296) × ((s i : ℕ) → s < 4 → i < 8 → result / 2 ^ (8 * s + i) % 2 ≡ get_or b.now (at + s) 0 / 2 ^ i % 2) }
{
    u64::from(b[at])
        + 256 * u64::from(b[at + 1])
        + 65536 * u64::from(b[at + 2])
        + 16777216 * u64::from(b[at + 3])
}

// Eight bytes from byte `at` on as one number, the first lowest. By halves: so the compiler makes two loads of it, and not eight.
fn eight_bytes(b: &[u8], at: usize) -> u64
    requires { at + 8 ≤ length b.now }
    ensures { (s i : ℕ) → s < 8 → i < 8 → result / 2 ^ (8 * s + i) % 2 ≡ get_or b.now (at + s) 0 / 2 ^ i % 2 }
{
    four_bytes(b, at) + 4294967296 * four_bytes(b, at + 4)
}

// Stores the eight bytes of a number from byte `at` on, the lowest first.
fn put_eight(out: &mut [u8], at: usize, x: u64)
    requires { at + 8 ≤ length out.old }
    ensures { (length out.new ≡ length out.old)
        × ((s i : ℕ) → s < 8 → i < 8 → get_or out.new (at + s) 0 / 2 ^ i % 2 ≡ x / 2 ^ (8 * s + i) % 2)
        × ((k : ℕ) → k < at → get_or out.new k 0 ≡ get_or out.old k 0) }
{
    out[at] = (x % 256) as u8;
    out[at + 1] = ((x >> 8) % 256) as u8;
    out[at + 2] = ((x >> 16) % 256) as u8;
    out[at + 3] = ((x >> 24) % 256) as u8;
    out[at + 4] = ((x >> 32) % 256) as u8;
    out[at + 5] = ((x >> 40) % 256) as u8;
    out[at + 6] = ((x >> 48) % 256) as u8;
    out[at + 7] = ((x >> 56) % 256) as u8;
}

// Makes the first `count` tiles of `turned` those of `packed` with rows for columns. A fixed number of steps for each tile.
pub fn turn(packed: &[u8], count: usize, turned: &mut [u8])
    requires { (8 * count ≤ length packed.now) × (8 * count ≤ length turned.old) }
    ensures { (length turned.new ≡ length turned.old)
        × ((c i s : ℕ) → c < count → i < 8 → s < 8
        → get_or turned.new (8 * c + i) 0 / 2 ^ s % 2 ≡ get_or packed.now (8 * c + s) 0 / 2 ^ i % 2) }
{
    for c in 0..count {
        put_eight(turned, 8 * c, transpose_block(eight_bytes(packed, 8 * c)));
    }
}
