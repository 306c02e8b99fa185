// The tables from which a word's error positions are read (crate `decoder_locator`), for any of the codes and any length that it has.
//   fill_values    the values of the positions of a word and, behind them, those of four bits
//   fill_tables    the powers of x at the positions, behind them their values and those of four bits, and the field's tables
#![tactic(auto)]

ghost use Rattle.std.specs.Prelude.{◌≡◌, ◌+◌, ◌-◌, ◌*◌, ◌^◌, ◌≤◌, length, take, drop};
ghost use Rattle.bch.specs.Locator.{FieldTables, SyndromeTable};
ghost use Rattle.decoder_locator.specs.Located.{SumTable, LocatorTables};
ghost use Rattle.decoder_tables.specs.Sizes.{WordSizes};

// Fills the values of the `bits` positions of a word, whose remainders have r bits, and behind them those of four bits, from the field's tables.
pub fn fill_values(m: usize, r: usize, bits: usize, field: &[u16], values: &mut [u32])
    requires { (4 ≤ m) × (m ≤ 10) × (r ≤ 30) × (r + 3 ≤ bits) × (bits ≤ 2 ^ m - 1) × FieldTables m field.now × (length values.old ≡ bits + 128) }
    ensures { SyndromeTable m (take bits values.new) × SumTable m r (drop bits values.new)
        × (length values.new ≡ length values.old) }
{
    bch_field::fill_syndromes(m, field, &mut values[0..bits]);
    decoder_locator::fill_sums(m, r, bits, values);
}

// Fills the tables of the code of m and t, with words of `bits` bits: the powers of x at the positions of a word, behind them their values and then those
// of four bits, and the field's. One step for each entry.
pub fn fill_tables(m: usize, t: usize, bits: usize, tables: &mut [u32], field: &mut [u16])
    requires { WordSizes m t bits × (length tables.old ≡ bits + (bits + 128)) × (length field.old ≡ 4 * 2 ^ m) }
    ensures { (length tables.new ≡ length tables.old)
        × LocatorTables m t (take bits tables.new) (drop bits tables.new) field.new }
{
    let all = tables.len();
    words_positions::fill_code(m, t, &mut tables[0..bits]);
    bch_field::fill_field(m, field);
    fill_values(m, m * t, bits, &field[..], &mut tables[bits..all]);
}
