// A model of the run over a table of rows, one row for each level of nesting, and the proof that it gives what the
// definition of the run gives. There is no code here, and nothing here is a definition of document 01: it stands
// between the definition and the code, which keeps such a table. It relies on the definitions of characters, book and
// semantics.
#![tactic(auto)]
