// What a line of text asks: the lines of an input, the words of a line, and the bytes, numbers and addresses that words
// say. The programs that answer questions share it; it is no part of the library that is shipped, so its functions may
// require that there is room in the buffers that their callers lend.
#![tactic(auto)]

pub mod addresses;
pub mod bytes;
pub mod decimals;
pub mod hex;
pub mod lines;
pub mod messages;
pub mod rooms;
pub mod words;
