// Document 01 as definitions: values, derivations, errors, the run and the answer. There is no code here; the layers
// above prove that they keep to these definitions. It relies on the definitions of characters and book. It promises
// that what an answer lists is exactly what the book derives (specs/Exact.antt, proved in proofs/Theorem), that the
// definitions compute document 01's rows 1 to 12 and what stands under them (proofs/ExampleBook.antt), that the rounds
// of a call never run out (proofs/RoundLaws.antt), and that errors stand and drop as document 01 says
// (proofs/ErrorLaws.antt). Of document 02: errors joined in any order give the furthest (proofs/FurthestLaws.antt);
// adding a variant to a book loses nothing (specs/Extension.antt); from 1 to 1,000,000, a larger allowance changes no
// answer but 20 (specs/Allowance.antt); where no starting name stands that is reserved, a variable is what
// it was before document 02 f (specs/ReservedNames.antt).
#![tactic(auto)]
