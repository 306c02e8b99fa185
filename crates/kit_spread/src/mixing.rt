// The entries of mixed lists.
//   mix_list   fills a list with the places to which mixed lists send, and answers the generator's last state
//
// The rows of all column words of a list are drawn first, r bytes for each column word, into a table of at most 4,096 bytes on the stack; the list is
// then filled from its first entry to its last.
ghost use Rattle.std.specs.Prelude.{◌≡◌, ◌-◌, ◌*◌, ◌≤◌, ◌<◌, length};
ghost use Rattle.staircase.specs.Lists.{tabulate, concat};
ghost use Rattle.staircase.specs.Load.{state_after};
ghost use Rattle.staircase.specs.Spread.{list_bytes};
ghost use Rattle.staircase.specs.Mixed.{shuffled, rows_in, mixed_to, after_list};
ghost use Rattle.design.specs.Answers.{Allowed};
ghost use Rattle.design.specs.Sizes.{params_of, order_of};
ghost use Rattle.kit_spread.specs.Mixing.{table_to};

use crate::store_entry;
use design::Design;

// Numbers rows: 0, 1, and so on.
fn number_rows(rows: &mut [u8])
    requires { length rows.old ≤ 256 }
    ensures { rows.new ≡ tabulate (length rows.old) (λ j. j) }
{
    for (j, row) in rows.iter_mut().enumerate() {
        *row = j as u8;
    }
}

// Shuffles rows, a draw for each from the last down to row 1, and answers the state after the last draw.
fn shuffle_rows(rows: &mut [u8], seed: u32) -> u32
    ensures { (rows.new ≡ shuffled seed (length rows.old - 1) rows.old)
        × (result ≡ state_after seed (16 * (length rows.old - 1))) }
{
    let mut s = seed;
    for i in (1..rows.len()).rev() {
        let d = generator::draw(s);
        s = d.state;
        let j = (d.number as usize) % (i + 1);
        rows.swap(i, j);
    }
    s
}

// Draws the rows of one column word.
fn draw_rows(rows: &mut [u8], seed: u32) -> u32
    requires { length rows.old ≤ 256 }
    ensures { (rows.new ≡ shuffled seed (length rows.old - 1) (tabulate (length rows.old) (λ j. j)))
        × (result ≡ state_after seed (16 * (length rows.old - 1))) }
{
    number_rows(rows);
    shuffle_rows(rows, seed)
}

// Draws the rows of all column words, one after the other.
fn draw_columns(d: Design, seed: u32, rows: &mut [u8]) -> u32
    requires { Allowed d × (length rows.old ≡ order_of d) }
    ensures { (rows.new ≡ concat d.size (rows_in (params_of d) seed)) × (result ≡ after_list (params_of d) seed) }
{
    let r = d.r();
    let mut s = seed;
    // kept as an index loop: a proof cannot tell what a loop over `chunks_exact_mut` has written.
    for c in 0..d.size() {
        s = draw_rows(&mut rows[c * r..c * r + r], s);
    }
    s
}

// The place to which place p goes, where `rows` has the rows of all column words.
fn mixed_to(d: Design, by: usize, rows: &[u8], p: usize) -> usize
    requires { Allowed d × (by < 65536) × (p < order_of d) × (length rows.now ≡ order_of d) }
    ensures { result ≡ table_to (params_of d) by rows.now p }
{
    let size = d.size();
    let j = p / size;
    let c = (p % size + by + j) % size;
    let row = usize::from(rows[c * d.r() + j]);
    row * size + c
}

// Fills a list by the table.
fn fill_mixed(d: Design, by: usize, rows: &[u8], list: &mut [u8])
    requires { Allowed d × (by < 65536) × (length rows.now ≡ order_of d) × (length list.old ≡ 2 * order_of d) }
    ensures { list.new ≡ list_bytes (order_of d) (table_to (params_of d) by rows.now) }
{
    let n = d.order();
    // kept as an index loop: as in `fill_turned`.
    for p in 0..n {
        let e = mixed_to(d, by, rows, p);
        store_entry(list, p, e);
    }
}

// Draws the rows of all column words into the lent `rows`, and fills a list by them.
fn mix_by(d: Design, by: usize, seed: u32, rows: &mut [u8], list: &mut [u8]) -> u32
    requires { Allowed d × (by < 65536) × (length rows.old ≡ order_of d) × (length list.old ≡ 2 * order_of d) }
    ensures { (list.new ≡ list_bytes (order_of d) (mixed_to (params_of d) by seed)) × (result ≡ after_list (params_of d) seed) }
{
    let s = draw_columns(d, seed, rows);
    fill_mixed(d, by, rows, list);
    s
}

// Fills a list with the places to which its columns are sent: `by` is 0 for X and r for Q.
pub fn mix_list(d: Design, by: usize, seed: u32, list: &mut [u8]) -> u32
    requires { Allowed d × (by < 65536) × (length list.old ≡ 2 * order_of d) }
    ensures { (list.new ≡ list_bytes (order_of d) (mixed_to (params_of d) by seed)) × (result ≡ after_list (params_of d) seed) }
{
    let n = d.order();
    let mut rows = [0u8; 4096];
    mix_by(d, by, seed, &mut rows[0..n], list)
}
