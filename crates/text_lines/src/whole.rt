// Writes whole texts into lent buffers, from a position on, where the caller has shown that there is room, and answers the position after them.
//   put_blocks      a block text: its line of names, and the line of each block
//   put_groups      a group text: its line of names, and the line of each group
//
// The bits of all blocks, or groups, stand in one slice, one after another; each line is written from its part of the slice (crate `text_lines`).
ghost use Rattle.std.specs.Prelude.{◌≡◌, ◌+◌, ◌*◌, ◌≤◌, length};
ghost use Rattle.std.proofs.lemmas.List.Edits.{sets};
ghost use Rattle.text_lines.specs.Written.{block_lines_text, group_lines_text};
ghost use Rattle.text.specs.FrameText.{block_text, group_text};

// The lines of the blocks 1 to `count`, for which there is room.
fn put_block_lines(out: &mut [u8], at: usize, area: usize, count: usize, info: &[u8]) -> usize
    requires info_len { length info.now ≡ count * area }
    requires count_bound { count ≤ 4096 }
    requires info_in_bounds { at + length (block_lines_text area 1 count info.now) ≤ length out.old }
    ensures value { result ≡ at + length (block_lines_text area 1 count info.now) }
    ensures out_after { out.new ≡ sets out.old at (block_lines_text area 1 count info.now) }
{
    let mut q = at;
    // kept as an index loop: chunks_exact wants parts of at least one bit, which no contract here asks for
    for i in 0..count {
        let from = i * area;
        q = crate::put_block(out, q, i as u64 + 1, &info[from..from + area]);
    }
    q
}

// The lines of the groups 1 to `count`, for which there is room.
fn put_group_lines(out: &mut [u8], at: usize, n: usize, count: usize, red: &[u8]) -> usize
    requires red_len { length red.now ≡ count * (2 * n) }
    requires count_bound { count ≤ 4096 }
    requires red_in_bounds { at + length (group_lines_text n 1 count red.now) ≤ length out.old }
    ensures value { result ≡ at + length (group_lines_text n 1 count red.now) }
    ensures out_after { out.new ≡ sets out.old at (group_lines_text n 1 count red.now) }
{
    let mut q = at;
    // kept as an index loop: chunks_exact wants parts of at least one bit, which no contract here asks for
    for i in 0..count {
        let from = i * (2 * n);
        let mid = from + n;
        q = crate::put_group(out, q, i as u64 + 1, &red[from..mid], &red[mid..mid + n]);
    }
    q
}

// The block text of `count` blocks of `area` bits each, which stand in `info` one after another, for which there is room: writes it from a position
// on, and answers the position after it.
pub fn put_blocks(out: &mut [u8], at: usize, area: usize, count: usize, info: &[u8]) -> usize
    requires info_len { length info.now ≡ count * area }
    requires count_bound { count ≤ 4096 }
    requires info_in_bounds { at + length (block_text area count info.now) ≤ length out.old }
    ensures value { result ≡ at + length (block_text area count info.now) }
    ensures out_after { out.new ≡ sets out.old at (block_text area count info.now) }
{
    let i = crate::put_bytes(out, at, b"block bits\n");
    put_block_lines(out, i, area, count, info)
}

// The group text of `count` groups of n bits for Y and n for P each, which stand in `red` one after another, for which there is room: writes it from
// a position on, and answers the position after it.
pub fn put_groups(out: &mut [u8], at: usize, n: usize, count: usize, red: &[u8]) -> usize
    requires red_len { length red.now ≡ count * (2 * n) }
    requires count_bound { count ≤ 4096 }
    requires red_in_bounds { at + length (group_text n count red.now) ≤ length out.old }
    ensures value { result ≡ at + length (group_text n count red.now) }
    ensures out_after { out.new ≡ sets out.old at (group_text n count red.now) }
{
    let i = crate::put_bytes(out, at, b"group self parity\n");
    put_group_lines(out, i, n, count, red)
}
