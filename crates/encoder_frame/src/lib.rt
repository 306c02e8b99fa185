// Makes the redundancy of frames, whose groups are numbered through all of them, by stretches of up to 64 groups.
//   make_redundancy(..)   of frames of one length, joined, whose arguments have passed all rules
//
// A group needs three blocks, which are parts of the lent information, and its redundancy is written through a lent part of the redundancy: nothing
// of the frame is copied. The table of powers of x and the places that the parity list brings are made once for all groups of all frames. The groups of
// a stretch are solved by one product with the inverse (module `stretch`), whether they are of one frame or of several.
#![tactic(auto)]

mod group;
mod stretch;

ghost use Rattle.std.specs.Prelude.{◌≡◌, List, ℕ, ◌+◌, ◌*◌, length};
ghost use Rattle.staircase.specs.Lists.{concat};
ghost use Rattle.staircase.specs.Frame.{groups};
ghost use Rattle.staircase.specs.Batch.{batch_redundancy};
ghost use Rattle.design.specs.Sizes.{params_of, lists_of};
ghost use Rattle.encoder_frame.specs.Group.{GroupTables};
ghost use Rattle.encoder_frame.specs.Groups.{group_at, FramesReady, Encodable};

use design::Design;
use group::Sizes;

// Makes the redundancy of all groups of all frames, stretch by stretch.
fn make_stretches(
    info: &[u8],
    sizes: Sizes,
    columns: &[u32],
    positions: &[u32],
    preimages: &[u16],
    inverse: &[u8],
    red: &mut [u8],
)
    requires { FramesReady sizes.blocks sizes.frames sizes.size sizes.r info.now columns.now positions.now
        × GroupTables sizes.size sizes.r columns.now preimages.now inverse.now
        × (length red.old ≡ sizes.frames * groups sizes.blocks * (2 * (sizes.size * sizes.r))) }
    ensures { red.new ≡ concat (sizes.frames * groups sizes.blocks) (group_at columns.now positions.now preimages.now inverse.now
        sizes.size sizes.r sizes.blocks info.now) }
{
    let w = 2 * (sizes.size * sizes.r);
    let count = sizes.frames * design::group_count(sizes.blocks as u64) as usize;
    for k in 0..count.div_ceil(64) {
        let first = 64 * k;
        let n = (count - first).min(64);
        let from = first * w;
        stretch::make_stretch(
            info,
            sizes,
            first,
            n,
            columns,
            positions,
            preimages,
            inverse,
            &mut red[from..from + n * w],
        );
    }
}

// Makes the redundancy of `frames` frames of `blocks` blocks, joined, whose arguments have passed all rules. The self list has done its part in the
// inverse. The two tables are made once.
pub fn make_redundancy(
    d: Design,
    blocks: usize,
    frames: usize,
    parity: &[u8],
    inverse: &[u8],
    info: &[u8],
    red: &mut [u8],
)
    requires { Encodable d blocks frames parity.now inverse.now info.now red.old }
    ensures { (own : List ℕ)
        → red.new ≡ batch_redundancy (params_of d) (lists_of d own parity.now) inverse.now blocks frames info.now }
{
    let n = d.order();
    let bits = d.n();
    let sizes = Sizes {
        size: d.size(),
        r: d.r(),
        blocks,
        frames,
    };
    let mut columns = [0u32; 1024];
    words_positions::fill_columns(d, &mut columns[0..bits]);
    let mut positions = [0u32; 1024];
    words_positions::fill_table(d, &mut positions[0..bits]);
    let mut preimages = [0u16; 4096];
    kit_system::fill_preimages(parity, n, &mut preimages[0..n]);
    make_stretches(
        info,
        sizes,
        &columns[0..bits],
        &positions[0..bits],
        &preimages[0..n],
        inverse,
        red,
    );
}
