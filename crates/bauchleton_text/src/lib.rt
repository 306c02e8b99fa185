// The calls on texts for a host in C. A slice is a pointer and a length there, and no two slices of a call may overlap.
//   readers    bauchleton_scan_kit, bauchleton_read_kit, bauchleton_scan_blocks, bauchleton_read_blocks, bauchleton_scan_frame, bauchleton_read_frame
//   writers    bauchleton_block_line, bauchleton_group_line, bauchleton_refusal_lines, bauchleton_count_lines
//   kit text   bauchleton_kit_text_length, bauchleton_write_kit
//   programs   bauchleton_frame, bauchleton_mend, bauchleton_makekit
//
// A reader answers 0, or the number of the rule of document 01's table that refuses. It is lent a slice `answer` of a fixed length, which is left as
// it was where its length is another. Entry 0 is the refusal's place, 0 where nothing is refused; the others are what the call tells, 0 where it is
// refused. A writer answers the position after what it wrote, or the position that it was given where there is no room.
#![tactic(auto)]

mod printing;
mod readings;
mod writing;

pub use printing::{
    bauchleton_block_line, bauchleton_count_lines, bauchleton_frame, bauchleton_group_line,
    bauchleton_makekit, bauchleton_mend, bauchleton_refusal_lines,
};
pub use readings::{
    bauchleton_read_blocks, bauchleton_read_frame, bauchleton_read_kit, bauchleton_scan_blocks,
    bauchleton_scan_frame, bauchleton_scan_kit,
};
pub use writing::{bauchleton_kit_text_length, bauchleton_write_kit};
