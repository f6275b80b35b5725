// The questions that write a text into a buffer: `escape`, `unescape` and `format`. Behind the verb stand `TEXT
// DELIMITERS ROOM`; they are decoded, the library is called once, and the answer shows the whole buffer. An answer has
// its own room, and a line that says more than the lent buffer holds is no question: so no room is required.
#![tactic(auto)]

mod texts;

pub use texts::Writing;
