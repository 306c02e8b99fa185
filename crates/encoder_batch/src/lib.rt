// The encoder of several frames under one kit: rules 1 to 4, 17, 6 to 8, 10 and 9, then the redundancy of each frame.
//   encode_batch   makes the redundancy of up to 256 frames of one length
//
// The frames' information is joined, frame after frame, and so is their redundancy. The kit, which is most of the work of a short frame, is judged once
// for all of them, and the tables that the encoder reads are made once. All rules are judged before the first byte is written.
#![tactic(auto)]

ghost use Rattle.std.specs.Prelude.{◌≡◌, length};
ghost use Rattle.staircase.specs.Batch.{batch_call};
ghost use Rattle.design.specs.Sizes.{params_of};
ghost use Rattle.design.specs.Answers.{Allowed};
ghost use Rattle.encoder_batch.specs.Checks.{frames_rules};
ghost use Rattle.answers.specs.Answers.{verdict_of};

use answers::Refusal;
use design::Design;
use rules::Lengths;

// Rules 4, 17 and 6 to 10, for an allowed design.
fn check_frames(
    d: Design,
    blocks: u64,
    frames: u64,
    own: &[u8],
    parity: &[u8],
    inverse: &[u8],
    info: &[u8],
    red: &[u8],
    work: &mut [u8],
) -> Result<(), Refusal>
    requires { Allowed d }
    ensures { verdict_of result ≡ frames_rules (params_of d) blocks frames own.now parity.now inverse.now info.now
        red.now (length work.old) }
{
    let have = Lengths {
        own: own.len(),
        parity: parity.len(),
        inverse: inverse.len(),
        info: info.len(),
        red: red.len(),
        work: work.len(),
    };
    let due = rules::batch_due(d, blocks, frames, rules::kit_due(d));
    rules::check_batch(blocks, frames, have, due)?;
    kit::check_content(d, own, parity, inverse, info, work)
}

// Makes the redundancy of `frames` frames of `blocks` blocks each from their information, one bit a byte, under one kit: rules 1 to 4, 17 and 6 to 10, with
// the table's number and place of the first that refuses. `info` and `red` are those of `encoder::encode` joined, frame after frame, and each frame's
// redundancy is what that call makes of it alone. What the redundancy held is never read, and a refused call leaves all of it as it was. The working
// bytes are as many as the inverse's. The work is that of the kit checker, once, and for every 64 groups one step for each byte of the inverse.
pub fn encode_batch_col(
    m: u64,
    t: u64,
    size: u64,
    col: u64,
    blocks: u64,
    frames: u64,
    own: &[u8],
    parity: &[u8],
    inverse: &[u8],
    info: &[u8],
    red: &mut [u8],
    work: &mut [u8],
) -> Result<(), Refusal>
    ensures { (verdict_of result ≡ (batch_call m t size col blocks frames own.now parity.now inverse.now info.now
        red.old (length work.old)).verdict)
        × (red.new ≡ (batch_call m t size col blocks frames own.now parity.now inverse.now info.now
        red.old (length work.old)).red) }
{
    let d = Design::new_col(m, t, size, col)?;
    let checked = check_frames(d, blocks, frames, own, parity, inverse, info, red, work);
    let Ok(()) = checked else {
        return checked;
    };
    let count = frames as usize;
    encoder_frame::make_redundancy(d, blocks as usize, count, parity, inverse, info, red);
    Ok(())
}

// The same where rows and columns have one code.
pub fn encode_batch(
    m: u64,
    t: u64,
    size: u64,
    blocks: u64,
    frames: u64,
    own: &[u8],
    parity: &[u8],
    inverse: &[u8],
    info: &[u8],
    red: &mut [u8],
    work: &mut [u8],
) -> Result<(), Refusal>
    ensures { (verdict_of result ≡ (batch_call m t size 0 blocks frames own.now parity.now inverse.now info.now
        red.old (length work.old)).verdict)
        × (red.new ≡ (batch_call m t size 0 blocks frames own.now parity.now inverse.now info.now
        red.old (length work.old)).red) }
{
    encode_batch_col(
        m, t, size, 0, blocks, frames, own, parity, inverse, info, red, work,
    )
}
