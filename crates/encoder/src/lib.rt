// The encoder: rules 1 to 4, 6 to 8, 10 and 9 of document 01's table, then the redundancy of the frame, group by group.
//   encode   makes the redundancy of a frame
//
// A frame is encoded as a batch of one, which no rule but those of a single frame refuses (`batch_single` of the crate `staircase`). All rules are judged
// before the first byte is written, and rule 10 before the product that rule 9 makes. The crate `encoder_frame` makes the redundancy.
#![tactic(auto)]

ghost use Rattle.std.specs.Prelude.{◌≡◌, length};
ghost use Rattle.staircase.specs.Calls.{encode_call};
ghost use Rattle.answers.specs.Answers.{verdict_of};

use answers::Refusal;

// Makes the redundancy of a frame of `blocks` blocks from its information, one bit a byte, under the kit: rules 1 to 4 and 6 to 10, with the table's
// number and place of the first that refuses. What the redundancy held is never read, and a refused call leaves it as it was. The working bytes
// are as many as the inverse's. The work is that of the kit checker, and for every 64 groups one step for each byte of the inverse.
pub fn encode_col(
    m: u64,
    t: u64,
    size: u64,
    col: u64,
    blocks: u64,
    own: &[u8],
    parity: &[u8],
    inverse: &[u8],
    info: &[u8],
    red: &mut [u8],
    work: &mut [u8],
) -> Result<(), Refusal>
    ensures { (verdict_of result ≡ (encode_call m t size col blocks own.now parity.now inverse.now info.now
        red.old (length work.old)).verdict)
        × (red.new ≡ (encode_call m t size col blocks own.now parity.now inverse.now info.now
        red.old (length work.old)).red) }
{
    encoder_batch::encode_batch_col(
        m, t, size, col, blocks, 1, own, parity, inverse, info, red, work,
    )
}

// The same where rows and columns have one code.
pub fn encode(
    m: u64,
    t: u64,
    size: u64,
    blocks: u64,
    own: &[u8],
    parity: &[u8],
    inverse: &[u8],
    info: &[u8],
    red: &mut [u8],
    work: &mut [u8],
) -> Result<(), Refusal>
    ensures { (verdict_of result ≡ (encode_call m t size 0 blocks own.now parity.now inverse.now info.now
        red.old (length work.old)).verdict)
        × (red.new ≡ (encode_call m t size 0 blocks own.now parity.now inverse.now info.now
        red.old (length work.old)).red) }
{
    encode_col(m, t, size, 0, blocks, own, parity, inverse, info, red, work)
}
