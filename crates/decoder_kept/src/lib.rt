// Numbers kept in working bytes, four bytes each, the lowest byte first; the highest bit is a mark.
//   get(kept, k)      number k with its mark
//   put(kept, k, x)   stores it
//   put_numbers       stores some, from one on
//   add(kept, k, x)   adds x to it and takes the mark away
//   count(kept, n)    how many of the first n are not 0, whatever their marks
#![tactic(auto)]

ghost use Rattle.std.specs.Prelude.{◌≡◌, ◌+◌, ◌*◌, ◌≤◌, length};
ghost use Rattle.bch.specs.Polynomial.{◌⊕◌};
ghost use Rattle.decoder_kept.specs.Numbers.{kept_at, number_at, OnlyAt, PutFrom, nonzero_numbers};

// Number k.
pub fn get(kept: &[u8], k: usize) -> u32
    requires { 4 * k + 4 ≤ length kept.now }
    ensures { result ≡ kept_at kept.now k }
{
    let at = 4 * k;
    u32::from_le_bytes([kept[at], kept[at + 1], kept[at + 2], kept[at + 3]])
}

// Makes number k x.
pub fn put(kept: &mut [u8], k: usize, x: u32)
    requires { 4 * k + 4 ≤ length kept.old }
    ensures { OnlyAt kept.old kept.new k x }
{
    let at = 4 * k;
    // kept as four stores: with copy_from_slice of to_le_bytes a program that does nothing else took half as long again
    kept[at] = (x % 256) as u8;
    kept[at + 1] = (x / 256 % 256) as u8;
    kept[at + 2] = (x / 65536 % 256) as u8;
    kept[at + 3] = (x / 16777216) as u8;
}

// Makes the numbers from `from` on those of the lent list, without marks.
pub fn put_numbers(sums: &[u32], from: usize, numbers: &mut [u8])
    requires { (4 * (from + length sums.now) ≤ length numbers.old) × (length numbers.old ≤ 16777216) }
    ensures { PutFrom sums.now from numbers.old numbers.new }
{
    for (a, sum) in sums.iter().enumerate() {
        put(numbers, from + a, *sum);
    }
}

// Adds x to number k and takes its mark away.
pub fn add(kept: &mut [u8], k: usize, x: u32)
    requires { 4 * k + 4 ≤ length kept.old }
    ensures { OnlyAt kept.old kept.new k (number_at kept.old k ⊕ x) }
{
    let v = get(kept, k) % 2147483648;
    put(kept, k, v ^ x);
}

// How many of the first n numbers are not 0, whatever their marks.
pub fn count(kept: &[u8], n: usize) -> u64
    requires { 4 * n ≤ length kept.now }
    ensures { result ≡ nonzero_numbers kept.now n }
{
    let mut numbers: u64 = 0;
    for k in 0..n {
        let number = get(kept, k) % 2147483648;
        if number != 0 {
            numbers += 1;
        }
    }
    numbers
}
