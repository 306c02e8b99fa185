// The calls for a host in C. A slice is a pointer and a length there, and no two slices of a call may overlap.
//   kits     bauchleton_design, bauchleton_check_kit, bauchleton_make_inverse, bauchleton_spread_lists, bauchleton_mixed_lists
//   sizes    bauchleton_sizes
//   lengths  bauchleton_order, bauchleton_original_sizes
//   names    bauchleton_version, bauchleton_rule_name
//   buffers  bauchleton_differences, bauchleton_load_fill_buffer, bauchleton_load_errors_buffer
//   calls    bauchleton_encode, bauchleton_encode_batch, bauchleton_check_words, bauchleton_decode, bauchleton_decode_window, bauchleton_loopback,
//            bauchleton_show
//   originals   bauchleton_original_encode, bauchleton_original_check_words, bauchleton_original_decode
//   loads    bauchleton_load_fill, bauchleton_load_errors, bauchleton_load_run
//   tallies  bauchleton_decode_tallied, bauchleton_report
//   reports  the 40 bytes that the kit checker, the encoders and the decoders fill
//   tells    what an answer tells a host
//
// Each call but those of `names` answers 0, or the number of the rule of document 01's table that refuses. The kit checker, the encoders and the decoders are lent `report`, 40
// bytes for five numbers, which rule 6 judges at place 8. Every other call is lent a slice `answer` of a fixed length, which is left as it was where its
// length is another. In both, the first number is the refusal's place, 0 where nothing is refused; the others are what the call tells, 0 where it is refused.
#![tactic(auto)]

mod buffers;
mod calls;
mod kits;
mod lengths;
mod loads;
mod names;
mod originals;
mod reports;
mod sizes;
mod tallies;
mod tells;

pub use buffers::{
    bauchleton_differences, bauchleton_load_errors_buffer, bauchleton_load_fill_buffer,
};
pub use calls::{
    bauchleton_check_words, bauchleton_decode, bauchleton_decode_window, bauchleton_encode,
    bauchleton_encode_batch, bauchleton_loopback, bauchleton_show,
};
pub use kits::{
    bauchleton_check_kit, bauchleton_design, bauchleton_make_inverse, bauchleton_mixed_lists,
    bauchleton_spread_lists,
};
pub use lengths::{bauchleton_order, bauchleton_original_sizes};
pub use loads::{bauchleton_load_errors, bauchleton_load_fill, bauchleton_load_run};
pub use names::{bauchleton_rule_name, bauchleton_version};
pub use originals::{
    bauchleton_original_check_words, bauchleton_original_decode, bauchleton_original_encode,
};
pub use sizes::bauchleton_sizes;
pub use tallies::{bauchleton_decode_tallied, bauchleton_report};
