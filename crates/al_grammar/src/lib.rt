//! Rules of a grammar that is read from left to right by one token ahead, and the laws by which a reader is the grammar's.
//! It has definitions and lemmas alone: `specs/Rules.antt`, `specs/Laws.antt`.
#![tactic(auto)]
