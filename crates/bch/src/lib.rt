// The BCH codes of the designs. No code: definitions in specs/, theory in proofs/, in this order.
//   specs/    Polynomial, Field, Code; Powers and Locator, the tables that code makes; Published, generators as textbooks print them
//   proofs/   Tests, Store                     computed tests, and lists that are written
//             Sum, Polynomial, Modulus         polynomials over GF(2)
//             Pigeonhole, Field, Primitive     a primitive polynomial makes a field; the seven fields
//             Algebra, Vandermonde, Word, Distance, Bound   the BCH bound
//             Systematic, PowerSum             parity; remainders as sums of powers of x
//             Minimal, Generator               minimal polynomials, generators
//             Bch                              the codes of the designs: what a user of the theory needs
//             Powers, Locator, Cubic, Syndromes   tables of a field, and two or three errors from them
#![tactic(auto)]
