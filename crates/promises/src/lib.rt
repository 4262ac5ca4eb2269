// What is promised of a call is in specs/Promises, on one page; that it is kept, and that contracts allow one result each, in proofs/. Nothing is declared here.
#![tactic(auto)]
