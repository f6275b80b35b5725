// What is answered to a question: an answer is gathered word by word, and what the library gave back is put into it.
// The programs that answer questions share it; it is no part of the library that is shipped, so its functions require
// that there is room for what they put.
#![tactic(auto)]

pub mod answers;
pub mod hex;
pub mod judgements;
pub mod names;
pub mod writings;

pub use answers::Answer;
