// Document 01's sentences said a second time, as grammars and tables: numbers, times, escapes, bytes and the reader's
// faults; and that the definitions which the contracts cite agree with them. It has no code.
#![tactic(auto)]
