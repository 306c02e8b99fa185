// The tables of a field GF(2^m), m = 4 to 10, in one buffer.
//   fill_field(m, field)              the powers, the logarithms, the solutions of z^2 + z and those of z^3 + z, each in a quarter of `field`
//   fill_syndromes(m, field, table)   the powers of the root and of its cube that the positions of a word carry
//
// The crate `bch_powers` and the module `logarithms` make each table; here they are put side by side. The powers and the logarithms are made apart and
// copied: the other two are made from them while `field` is written.
#![tactic(auto)]

mod logarithms;

ghost use Rattle.std.specs.Prelude.{◌≡◌, ◌-◌, ◌*◌, ◌^◌, ◌≤◌, ◌<◌, length};
ghost use Rattle.bch.specs.Field.{power_table};
ghost use Rattle.bch.specs.Locator.{LogTable, FieldTables, SyndromeTable};

// Fills the quarters of `field` from the powers and the logarithms of field m. The work grows with 2^m.
fn fill_quarters(m: usize, powers: &[u16], logs: &[u16], field: &mut [u16])
    requires { (4 ≤ m) × (m ≤ 10) × (powers.now ≡ power_table m (2 ^ m - 1)) × LogTable m logs.now × (length field.old ≡ 4 * 2 ^ m) }
    ensures { FieldTables m field.new }
{
    let q = logs.len();
    field[0..q - 1].copy_from_slice(powers);
    field[q..2 * q].copy_from_slice(logs);
    logarithms::fill_solutions(m, 1, powers, logs, &mut field[2 * q..3 * q - 1]);
    logarithms::fill_solutions(m, 2, powers, logs, &mut field[3 * q..4 * q - 1]);
}

// Makes the powers and the logarithms of field m in the buffers `powers` and `logs`, and fills `field` from them. The work grows with 2^m.
fn fill_by_parts(m: usize, powers: &mut [u16], logs: &mut [u16], field: &mut [u16])
    requires { (4 ≤ m) × (m ≤ 10) × (length powers.old ≡ 2 ^ m - 1) × (length logs.old ≡ 2 ^ m) × (length field.old ≡ 4 * 2 ^ m) }
    ensures { FieldTables m field.new }
{
    bch_powers::fill_powers(m, powers);
    logarithms::fill_logs(m, powers, logs);
    fill_quarters(m, powers, logs, field);
}

// Fills `field` with the tables of field m: the powers of the root, the logarithms and the solutions of z^2 + z and of z^3 + z, each from
// the start of a quarter on. The work grows with 2^m.
pub fn fill_field(m: usize, field: &mut [u16])
    requires { (4 ≤ m) × (m ≤ 10) × (length field.old ≡ 4 * 2 ^ m) }
    ensures { FieldTables m field.new }
{
    let q = field.len() / 4;
    let mut powers = [0u16; 1024];
    let mut logs = [0u16; 1024];
    fill_by_parts(m, &mut powers[0..q - 1], &mut logs[0..q], field);
}

// Fills `table`, which has an entry for each position of a word, with the powers of the root and of its cube that the positions carry,
// from the tables of the field. One step for each entry.
pub fn fill_syndromes(m: usize, field: &[u16], table: &mut [u32])
    requires { (4 ≤ m) × (m ≤ 10) × FieldTables m field.now × (0 < length table.old) × (length table.old ≤ 2 ^ m - 1) }
    ensures { SyndromeTable m table.new × (length table.new ≡ length table.old) }
{
    let q = field.len() / 4;
    logarithms::fill_syndromes_by(m, &field[0..q - 1], table);
}
