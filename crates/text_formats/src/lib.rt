// Text formats as data. No code. Definitions, in specs/: Format has formats, their texts and the scan, Items has lists of items. What holds of every
// format, in proofs/: Digits and Items of what stands at the front of a text, Scan that the scan is right, Walking, Spelling, Takes, Bare and Parts of lists
// of items, Lines of lines that each have a number.
#![tactic(auto)]
