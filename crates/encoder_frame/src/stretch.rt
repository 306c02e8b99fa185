// A stretch of at most 64 groups, which are numbered through all frames of a batch, and whose systems are solved at once.
//   make_stretch(..)   makes the redundancy of its groups
//
// Each group's Q and P for Y = 0 are written into its own part of the redundancy, and from there its constant goes into its bit of one word for each
// place. When the words are multiplied by the inverse, Y is taken out of them, and P gets what Y adds. So nothing is kept of a group but what stands in
// its part of the redundancy and one bit a word.
ghost use Rattle.std.specs.Prelude.{◌≡◌, ℕ, ◌+◌, ◌*◌, ◌/◌, ◌%◌, ◌^◌, ◌≤◌, ◌<◌, length, get_or};
ghost use Rattle.bch.specs.Polynomial.{Bits};
ghost use Rattle.staircase.specs.Lists.{concat};
ghost use Rattle.staircase.specs.Design.{most-order};
ghost use Rattle.staircase.specs.Frame.{groups};
ghost use Rattle.staircase.specs.Batch.{frame_at};
ghost use Rattle.encoder_solution.specs.Bits.{place_constant};
ghost use Rattle.encoder_frame.specs.Group.{GroupTables, finished_of, solved_of};
ghost use Rattle.encoder_frame.specs.Groups.{start_at, group_at, FramesReady};

use crate::group::Sizes;

// Makes Q and P of group q of all frames' groups in the lent `out`, as they would be for Y = 0.
fn start_at(info: &[u8], sizes: Sizes, q: usize, columns: &[u32], positions: &[u32], out: &mut [u8])
    requires { FramesReady sizes.blocks sizes.frames sizes.size sizes.r info.now columns.now positions.now × (q < sizes.frames * groups sizes.blocks)
        × (length out.old ≡ 2 * (sizes.size * sizes.r)) }
    ensures { out.new ≡ start_at columns.now positions.now sizes.size sizes.r sizes.blocks info.now q }
{
    let count = design::group_count(sizes.blocks as u64) as usize;
    let area = sizes.blocks * (sizes.size * sizes.size);
    let from = q / count * area;
    crate::group::start_group(
        &info[from..from + area],
        sizes,
        q % count,
        columns,
        positions,
        out,
    );
}

// Makes Q and P of the groups from `first` on, as they would be for Y = 0, one group after the other.
fn start_groups(
    info: &[u8],
    sizes: Sizes,
    first: usize,
    count: usize,
    columns: &[u32],
    positions: &[u32],
    red: &mut [u8],
)
    requires { FramesReady sizes.blocks sizes.frames sizes.size sizes.r info.now columns.now positions.now × (first + count ≤ sizes.frames * groups sizes.blocks)
        × (length red.old ≡ count * (2 * (sizes.size * sizes.r))) }
    ensures { red.new
        ≡ concat count (λ g. start_at columns.now positions.now sizes.size sizes.r sizes.blocks info.now (first + g)) }
{
    let w = 2 * (sizes.size * sizes.r);
    // kept as an index loop: after a loop over chunks_exact_mut a proof knows the length of `red` and not its bytes
    for g in 0..count {
        let from = g * w;
        start_at(
            info,
            sizes,
            first + g,
            columns,
            positions,
            &mut red[from..from + w],
        );
    }
}

// Brings the constants of the groups whose Q and P stand in `red` into the lent words, which are 0: that of group g into bit g.
fn add_constants(red: &[u8], count: usize, preimages: &[u16], words: &mut [u64])
    requires { (length preimages.now ≡ length words.old) × (length red.now ≡ count * (2 * length words.old)) × (count ≤ 64) × Bits red.now
        × ((q : ℕ) → q < length words.old → get_or preimages.now q 0 < length words.old) × ((q : ℕ) → get_or words.old q 0 ≡ 0) × (length words.old ≤ most-order) }
    ensures { (length words.new ≡ length words.old)
        × ((g q : ℕ) → g < count → q < length words.old → get_or words.new q 0 / 2 ^ g % 2
        ≡ place_constant (frame_at (2 * length words.old) red.now g) preimages.now (length words.old) q)
        × ((g q : ℕ) → count ≤ g → q < length words.old → get_or words.new q 0 / 2 ^ g % 2 ≡ 0) }
{
    let w = 2 * words.len();
    // kept as an index loop: chunks_exact asks for chunks of one byte at least, and there may be no words
    for g in 0..count {
        let from = g * w;
        encoder_solution::add_constant(&red[from..from + w], preimages, g, words);
    }
}

// Makes Y and P of the groups from the words of their solutions.
fn finish_groups(words: &[u64], count: usize, part: &[u32], size: usize, r: usize, red: &mut [u8])
    requires { (length words.now ≡ size * r) × (count ≤ 64) × (length part.now ≡ r) × (length red.old ≡ count * (2 * (size * r))) × Bits red.old
        × (0 < size) × (size ≤ 512) × (0 < r) × (r ≤ 32) × (size * r ≤ most-order) }
    ensures { red.new
        ≡ concat count (λ g. finished_of words.now g part.now size r (frame_at (2 * (size * r)) red.old g)) }
{
    let w = 2 * (size * r);
    // kept as an index loop: after a loop over chunks_exact_mut a proof knows the length of `red` and not its bytes
    for g in 0..count {
        let from = g * w;
        crate::group::finish_group(words, g, part, size, r, &mut red[from..from + w]);
    }
}

// `make_stretch` from the groups' Q and P for Y = 0 on, with a word for each place lent, which is 0.
fn solve_groups(
    sizes: Sizes,
    count: usize,
    columns: &[u32],
    preimages: &[u16],
    inverse: &[u8],
    words: &mut [u64],
    red: &mut [u8],
)
    requires { GroupTables sizes.size sizes.r columns.now preimages.now inverse.now × (count ≤ 64)
        × (length words.old ≡ sizes.size * sizes.r) × ((q : ℕ) → get_or words.old q 0 ≡ 0)
        × (length red.old ≡ count * (2 * (sizes.size * sizes.r))) × Bits red.old }
    ensures { red.new ≡ concat count (λ g. solved_of columns.now preimages.now inverse.now sizes.size sizes.r
        (frame_at (2 * (sizes.size * sizes.r)) red.old g)) }
{
    let size = sizes.size;
    let r = sizes.r;
    add_constants(red, count, preimages, words);
    encoder_solution::solve(inverse, size, r, count, words);
    finish_groups(words, count, &columns[2 * size..2 * size + r], size, r, red);
}

// Makes the redundancy of `count` groups from the one that `first` groups precede on, at most 64, in their part of the redundancy. Lent to read are the
// joined information, the table of the powers of x that the positions of a word carry, the place of Q that the parity list sends to each place of P, and
// the packed inverse. 4 × size² steps for each group, and one for each byte of the inverse, (size × r)² / 8 of them, for all groups.
pub fn make_stretch(
    info: &[u8],
    sizes: Sizes,
    first: usize,
    count: usize,
    columns: &[u32],
    positions: &[u32],
    preimages: &[u16],
    inverse: &[u8],
    red: &mut [u8],
)
    requires { FramesReady sizes.blocks sizes.frames sizes.size sizes.r info.now columns.now positions.now
        × GroupTables sizes.size sizes.r columns.now preimages.now inverse.now × (count ≤ 64)
        × (first + count ≤ sizes.frames * groups sizes.blocks) × (length red.old ≡ count * (2 * (sizes.size * sizes.r))) }
    ensures { red.new ≡ concat count (λ g. group_at columns.now positions.now preimages.now inverse.now sizes.size sizes.r
        sizes.blocks info.now (first + g)) }
{
    let n = sizes.size * sizes.r;
    let mut words = [0u64; 4096];
    start_groups(info, sizes, first, count, columns, positions, red);
    solve_groups(
        sizes,
        count,
        columns,
        preimages,
        inverse,
        &mut words[0..n],
        red,
    );
}
