// Feed-forward staircase frames. No code: the definitions that every contract cites are in specs/, in document 01's order, and the
// theorems on them in proofs/:
//   Bounds, Search, Permutation, Tables, Member, Fill      numbers, tests and lists
//   Stretches                                              words of four stretches
//   Matrix, Parity, System, Solvable, Solution, Entries    the system of a group
//   Flip, Errors, Correction                               correcting words, for any list of words
//   Sites, Positions, Apart, Redundancy, Reach             the words of a frame, and its redundancy
//   Rounds, Outside, Rules                                 rounds, counts and the table's rules
//   BchCode, Demand2, Demand3                              the code of a design, and demands 2 and 3 over the calls
//   Load                                                   the test load
//   Vectors                                                document 01's rows under kit K, and a second kit
#![tactic(auto)]
