// What holds of the definitions that the contracts cite, and that no function's proof needs: the round trip of text,
// one spelling of each time, what an acknowledgement is when it is read again. It has no code. It stands apart so that
// a change to a function checks that function's crate and not these again.
#![tactic(auto)]
