// Tables that are made of the powers of the root of a field GF(2^m), m = 4 to 10.
//   fill_logs(m, powers, logs)                    the logarithms
//   fill_solutions(m, k, powers, logs, table)     the solutions of z^(k + 1) + z, k being 1 or 2
//   fill_syndromes_by(m, powers, table)           the powers of the root and of its cube that the positions of a word carry
//
// Each is filled in one pass over the powers.
ghost use Rattle.std.specs.Prelude.{◌≡◌, ◌-◌, ◌*◌, ◌%◌, ◌^◌, ◌≤◌, ◌<◌, length};
ghost use Rattle.bch.specs.Field.{power, power_table};
ghost use Rattle.bch.specs.Locator.{LogTable, Solution, SolutionTable, power_syndromes, SyndromeTable};

// Power e of the root of field m, from the table of powers.
fn power_at(m: usize, powers: &[u16], e: usize) -> usize
    requires { (4 ≤ m) × (m ≤ 10) × (powers.now ≡ power_table m (2 ^ m - 1)) × (e < 2 ^ m - 1) }
    ensures { (result ≡ power m e) × (result < 2 ^ m) × (result < 1024) }
{
    powers[e] as usize
}

// The remainder of j by `order`, by one subtraction where one is due.
fn reduced(j: usize, order: usize) -> usize
    requires { j < 2 * order }
    ensures { (result ≡ j % order) × (result < order) }
{
    if j < order { j } else { j - order }
}

// Fills `logs`, which has an entry for each element of field m: that of power j of the root is j, and that of 0 is 0. The work grows with 2^m.
pub fn fill_logs(m: usize, powers: &[u16], logs: &mut [u16])
    requires { (4 ≤ m) × (m ≤ 10) × (powers.now ≡ power_table m (2 ^ m - 1)) × (length logs.old ≡ 2 ^ m) }
    ensures { LogTable m logs.new }
{
    logs.fill(0);
    for j in 0..powers.len() {
        logs[power_at(m, powers, j)] = j as u16;
    }
}

// The v for which power e of the root solves z^(k + 1) + z = power v, where k is 1 or 2: z is power e, z^k + 1 is power f, and their product
// is power e + f.
fn solved_by(m: usize, k: usize, powers: &[u16], logs: &[u16], e: usize) -> usize
    requires { (4 ≤ m) × (m ≤ 10) × (1 ≤ k) × (k ≤ 2) × (powers.now ≡ power_table m (2 ^ m - 1)) × LogTable m logs.now × (0 < e) × (e < 2 ^ m - 1) }
    ensures { (result < 2 ^ m - 1) × Solution m k result e }
{
    let d = reduced(k * e, powers.len());
    let f = logs[power_at(m, powers, d) ^ 1] as usize;
    reduced(e + f, powers.len())
}

// Fills `table`, which has an entry for each power of the root of field m: entry v is an exponent e for which power e solves
// z^(k + 1) + z = power v, and 0 where there is none. All solutions of an equation are met; the largest exponent stays. The work grows with 2^m.
pub fn fill_solutions(m: usize, k: usize, powers: &[u16], logs: &[u16], table: &mut [u16])
    requires { (4 ≤ m) × (m ≤ 10) × (1 ≤ k) × (k ≤ 2) × (powers.now ≡ power_table m (2 ^ m - 1)) × LogTable m logs.now
        × (length table.old ≡ 2 ^ m - 1) }
    ensures { SolutionTable m k table.new }
{
    table.fill(0);
    for e in 1..powers.len() {
        let v = solved_by(m, k, powers, logs, e);
        table[v] = e as u16;
    }
}

// Power e of the root, and power e of its cube as the high half.
fn syndromes_of(m: usize, powers: &[u16], e: usize) -> u32
    requires { (4 ≤ m) × (m ≤ 10) × (powers.now ≡ power_table m (2 ^ m - 1)) × (e < 2 ^ m - 1) }
    ensures { result ≡ power_syndromes m e }
{
    let order = powers.len();
    let twice = reduced(2 * e, order);
    let thrice = reduced(twice + e, order);
    (power_at(m, powers, e) + 65536 * power_at(m, powers, thrice)) as u32
}

// Fills `table`, which has an entry for each position of a word, with the powers of the root and of its cube that the positions carry.
// One step for each entry.
pub fn fill_syndromes_by(m: usize, powers: &[u16], table: &mut [u32])
    requires { (4 ≤ m) × (m ≤ 10) × (powers.now ≡ power_table m (2 ^ m - 1)) × (0 < length table.old) × (length table.old ≤ 2 ^ m - 1) }
    ensures { SyndromeTable m table.new × (length table.new ≡ length table.old) }
{
    let n = table.len();
    for (j, entry) in table.iter_mut().enumerate() {
        *entry = syndromes_of(m, powers, n - 1 - j);
    }
}
