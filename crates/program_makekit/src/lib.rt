// What `makekit` prints, as bytes.
//   makekit_output(text, out)   for the bytes of a list text: the two lines of a design and the lines of its lists
//
// The text is judged first, then both lists are filled, and the length of the kit's text is found before anything is made: a text of at most 32,768
// bytes has at most 181 rows, so the inverse and the maker's working bytes fit into fixed arrays. Nothing is printed before the maker has answered.
#![tactic(auto)]

ghost use Rattle.std.specs.Prelude.{◌≤◌, length};
ghost use Rattle.answers.specs.Answers.{verdict_of};
ghost use Rattle.text.specs.KitText.{kit_bytes};
ghost use Rattle.text.specs.Programs.{printed};
ghost use Rattle.text.specs.MakeKit.{make_kit_output};
ghost use Rattle.program.specs.Output.{Printed, most-output, Output};
ghost use Rattle.program.specs.Steps.{RoomFor};
ghost use Rattle.program_makekit.specs.Steps.{kit_output, Fronted, Listed, ListsFit, Measured, MakeReady, WriteReady};

use answers::Refusal;
use design::Design;

// Two bytes for each of at most 4,096 entries of a list. Only their room is told.
fn list_bytes(n: usize) -> [u8; 8192]
    requires { n ≤ 8192 }
    ensures { RoomFor n result }
{
    [0; 8192]
}

// The maker's working bytes for at most 181 rows, of 23 bytes each: two matrices and two tables of 256 rows. Only their room is told.
fn work_bytes(n: usize) -> [u8; 20102]
    requires { n ≤ 20102 }
    ensures { RoomFor n result }
{
    [0; 20102]
}

// Writes the kit's text, of `long` bytes, where the maker made the inverse, or its refusal.
fn put_made(
    out: &mut [u8],
    d: Design,
    own: &[u8],
    parity: &[u8],
    inverse: &[u8],
    long: usize,
    made: Result<(), Refusal>,
) -> usize
    requires write_ready { WriteReady d own.now parity.now long (length inverse.now) }
    requires most_output_in_bounds { most-output ≤ length out.old }
    ensures { Printed
        (printed (verdict_of made) (kit_bytes d.m d.t d.size own.now parity.now inverse.now)) result out.old
        out.new }
{
    match made {
        Err(r) => program::put_refused(out, r),
        Ok(()) => {
            text_kit_write::put_kit(d, own, parity, inverse, &mut out[..long]);
            long
        }
    }
}

// Makes the inverse in slices that fit, and writes the kit's text or the refusal.
fn make_kit(
    d: Design,
    own: &[u8],
    parity: &[u8],
    long: usize,
    inverse: &mut [u8],
    work: &mut [u8],
    out: &mut [u8],
) -> usize
    requires make_ready { MakeReady d own.now parity.now long (length inverse.old) (length work.old) }
    requires most_output_in_bounds { most-output ≤ length out.old }
    ensures { Printed (kit_output d.m d.t d.size own.now parity.now) result out.old out.new }
{
    let made = kit_maker::make_inverse(
        d.m() as u64,
        d.t() as u64,
        d.size() as u64,
        own,
        parity,
        inverse,
        work,
    );
    put_made(out, d, own, parity, inverse, long, made)
}

// The arrays that the maker is lent, for a kit whose text has `long` bytes.
fn kit_arrays(d: Design, own: &[u8], parity: &[u8], long: usize, out: &mut [u8]) -> usize
    requires measured { Measured d own.now parity.now long }
    requires most_output_in_bounds { most-output ≤ length out.old }
    ensures { Printed (kit_output d.m d.t d.size own.now parity.now) result out.old out.new }
{
    let n = d.order();
    let w = d.row_bytes();
    let room = n * w;
    let due = (2 * n + 512) * w;
    let mut inverse = program::matrix_bytes(room);
    let mut work = work_bytes(due);
    make_kit(
        d,
        own,
        parity,
        long,
        &mut inverse[..room],
        &mut work[..due],
        out,
    )
}

// Rule 13 for the kit's text, and behind it the maker.
fn measured_kit(d: Design, own: &[u8], parity: &[u8], out: &mut [u8]) -> usize
    requires lists_fit { ListsFit d own.now parity.now }
    requires most_output_in_bounds { most-output ≤ length out.old }
    ensures { Printed (kit_output d.m d.t d.size own.now parity.now) result out.old out.new }
{
    let long = text_kit_write::kit_length(d, own, parity);
    if program::MOST_INPUT < long {
        return program::put_refusal(out, 13, 1);
    }
    kit_arrays(d, own, parity, long, out)
}

// Fills both lists, in slices that fit, from their lines at i.
fn filled_lists(
    text: &[u8],
    d: Design,
    i: usize,
    own: &mut [u8],
    parity: &mut [u8],
    out: &mut [u8],
) -> usize
    requires listed { Listed d i text.now × ListsFit d own.old parity.old }
    requires most_output_in_bounds { most-output ≤ length out.old }
    ensures { Printed (make_kit_output text.now) result out.old out.new }
{
    text_kit_fill::fill_lists(text, i, d.order(), own, parity);
    measured_kit(d, own, parity, out)
}

// The arrays for the lists, whose lines stand at i.
fn list_arrays(text: &[u8], d: Design, i: usize, out: &mut [u8]) -> usize
    requires listed { Listed d i text.now }
    requires most_output_in_bounds { most-output ≤ length out.old }
    ensures { Printed (make_kit_output text.now) result out.old out.new }
{
    let e = 2 * d.order();
    let mut own = list_bytes(e);
    let mut parity = list_bytes(e);
    filled_lists(text, d, i, &mut own[..e], &mut parity[..e], out)
}

// Judges the lines of the lists, which follow the two lines at a position.
fn judged_lists(text: &[u8], d: Design, at: usize, out: &mut [u8]) -> usize
    requires fronted { Fronted d at text.now }
    requires most_output_in_bounds { most-output ≤ length out.old }
    ensures { Printed (make_kit_output text.now) result out.old out.new }
{
    match text_kit_scan::judge_lists(text, at, d.order()) {
        Ok(i) => list_arrays(text, d, i, out),
        Err(broken) => program::put_refusal(out, 11, broken.place as u64),
    }
}

// Rule 13 for the input, and the two lines; what `makekit` prints, for which there is room.
fn makekit_input(text: &[u8], out: &mut [u8]) -> usize
    requires { most-output ≤ length out.old }
    ensures { Printed (make_kit_output text.now) result out.old out.new }
{
    if program::MOST_INPUT < text.len() {
        return program::put_refusal(out, 13, 2);
    }
    match text_kit_scan::read_front(text) {
        Ok((d, at)) => judged_lists(text, d, at, out),
        Err(e) => {
            let judged = program::judge_error(11, e);
            program::put_refusal(out, judged.rule, judged.place)
        }
    }
}

// Writes what `makekit` prints to the start of `out` and answers its length. An `out` of fewer than 262,144 bytes is left as it was, and the answer
// is 0.
pub fn makekit_output(text: &[u8], out: &mut [u8]) -> usize
    ensures { Output (make_kit_output text.now) result out.old out.new }
{
    if out.len() < program::MOST_OUTPUT {
        return 0;
    }
    makekit_input(text, out)
}
