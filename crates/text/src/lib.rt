// Document 01's texts. No code. Definitions, in specs/, in document 01's order: Rules has rules 11 and 12 for a reading, KitText the kit text,
// KitReader what its reader answers and leaves, KitWriter the same of its writer, KitSpelled the kit text line by line, FrameText block text, group
// text and frame text, FrameReader their readers, Programs what `frame` and `mend` print, MakeKit what `makekit` prints. FrameThenMend and
// MendPrints are claims about the two programs. What holds of them, in proofs/: KitPromises, FramePromises, KitWritten, FrameThenMend and
// MendPrints; the other files are laws on the way there. A text that is printed is `spell` of the items of the format that is read.
#![tactic(auto)]
