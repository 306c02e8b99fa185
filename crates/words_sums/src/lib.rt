// Sums of a table's entries over the rows and the columns of a block of bits, eight bits at a time.
//   add_columns(acc, block, part, tables)   adds to each entry the entries of `part` at the ones of its column of the block (module `columns`)
//   add_rows(acc, block, part, tables)      the same by its row (module `rows`)
//   add_listed(acc, list, bits, part, tables)   by a column whose bits stand where a list sends them (module `listed`)
//
// Each answers how many bits of each column or row it has read. Eight rows of the block are packed into a row of bytes, a bit of each row in a byte (crate
// `words_packed`). The byte of a column names the sum of eight entries in a table (crate `words_tables`). For rows the packed bytes are turned, eight by
// eight, so that a byte has eight bits of one row (crate `matrix`), and names a sum as well. So a sum takes one look for each eight bits, and the bits
// are brought together by steps of 16 bytes.
#![tactic(auto)]

mod columns;
mod listed;
mod rows;

ghost use Rattle.std.specs.Prelude.{◌≡◌, length, get_or};

pub use columns::add_columns;
pub use listed::add_listed;
pub use rows::add_rows;

// Entry b of a table of 256.
fn entry(table: &[u32], b: u8) -> u32
    requires { length table.now ≡ 256 }
    ensures { result ≡ get_or table.now b 0 }
{
    table[usize::from(b)]
}
