// The library for C: what the crate boundary offers, under the names and with the parameters that include/turrethog.h
// has. Each function calls boundary's function of the same name and says the same as it does, word for word.
#![tactic(auto)]

mod answers;
mod elements;
mod framing;
mod judges;
mod limits;
mod lists;
mod segment;
mod texts;
