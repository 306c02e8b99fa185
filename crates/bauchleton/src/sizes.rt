// The sizes of a design and of a frame, and the lengths of the slices that the calls are lent, for a host in C.
//   bauchleton_sizes   rules 1 to 4, and all of them
ghost use Rattle.std.specs.Prelude.{◌≡◌, ◌≤◌, OnOk};
ghost use Rattle.staircase.specs.Design.{params, most-blocks};
ghost use Rattle.staircase.specs.Rules.Verdict.{accepted};
ghost use Rattle.design.specs.Answers.{DesignIs, Allowed, DesignAllowed};
ghost use Rattle.design.specs.Sizes.{params_of};
ghost use Rattle.rules_verdict.specs.Number.{number, told};
ghost use Rattle.bauchleton.specs.FrameSizes.{sizes_verdict, sizes_answer, sizes_told};
ghost use Rattle.answers.specs.Answers.{verdict_of};

use answers::Refusal;
use design::Design;
use rules_verdict::{Judged, tell};

// Of a word r, n and k; groups of a frame; bytes of a list, of the inverse, of the information and of the redundancy; working bytes of the kit checker, of
// the maker of an inverse, of the encoders, of the word checker, of the decoders and of the self test; bytes of a row of the inverse.
#[derive(Clone, Copy)]
struct Sizes {
    r: u64,
    n: u64,
    k: u64,
    groups: u64,
    list: u64,
    inverse: u64,
    info: u64,
    red: u64,
    kit: u64,
    make: u64,
    encode: u64,
    words: u64,
    decode: u64,
    loopback: u64,
    row: u64,
}

// The sizes of an allowed design and of a frame of `blocks` blocks.
fn sizes_of(d: Design, blocks: u64) -> Sizes
    requires { Allowed d × (blocks ≤ most-blocks) }
    ensures { sizes_told 0 result ≡ sizes_answer accepted (params_of d) blocks }
{
    let kit = rules::kit_due(d);
    let make = rules::make_due(d);
    let lists = rules::lists_due(d);
    let frame = rules::frame_due(d, blocks, lists);
    let decoder = rules::decoder_due(d, blocks);
    let kept = rules::kept_work(d, blocks);
    let loopback = kit.work + kept;
    Sizes {
        r: d.r() as u64,
        n: d.n() as u64,
        k: d.k() as u64,
        groups: design::group_count(blocks),
        list: kit.own as u64,
        inverse: kit.inverse as u64,
        info: frame.info as u64,
        red: frame.red as u64,
        kit: kit.work as u64,
        make: make.work as u64,
        encode: kit.work as u64,
        words: lists.work as u64,
        decode: decoder.work as u64,
        loopback: loopback as u64,
        row: d.row_bytes() as u64,
    }
}

// Stores a place and sizes into a slice of 16 entries.
fn tell_sizes(j: Judged, s: Sizes, answer: &mut [u64]) -> u64
    ensures { (result ≡ j.rule) × (answer.new ≡ told (sizes_told j.place s) answer.old) }
{
    let sizes = [
        s.r, s.n, s.k, s.groups, s.list, s.inverse, s.info, s.red, s.kit, s.make, s.encode,
        s.words, s.decode, s.loopback, s.row,
    ];
    tell(j, &sizes, answer)
}

// The design of a feed-forward code for frames of `blocks` blocks.
fn design_for(m: u64, t: u64, size: u64, blocks: u64) -> Result<Design, Refusal>
    ensures verdict { verdict_of result ≡ sizes_verdict m t size blocks }
    ensures numbers { DesignIs result m t size 0 }
    ensures allowed { DesignAllowed result }
    ensures count { OnOk result (blocks ≤ most-blocks) }
{
    let d = Design::new(m, t, size)?;
    design::check_count(blocks)?;
    Ok(d)
}

// Judges a design and a number of blocks. `answer` has 16 entries: the place, and the sizes in the order of `Sizes`.
#[unsafe(no_mangle)]
pub extern "C" fn bauchleton_sizes(
    m: u64,
    t: u64,
    size: u64,
    blocks: u64,
    answer: &mut [u64],
) -> u64
    ensures { let v = sizes_verdict m t size blocks in
        (result ≡ number v) × (answer.new ≡ told (sizes_answer v (params m t size 0) blocks) answer.old) }
{
    match design_for(m, t, size, blocks) {
        Ok(d) => tell_sizes(Judged::ACCEPTED, sizes_of(d, blocks), answer),
        Err(r) => tell(Judged::from(r), &[0; 15], answer),
    }
}
