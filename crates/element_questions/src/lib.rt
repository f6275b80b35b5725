// The questions about one element of a message: where it stands (`find`), and what it says as a number (`nm`, `si`) or
// as a time (`dt`, `tm`, `ts`). Each has the words `VERB MSG S F R C U`; they are decoded, the library is called once,
// and what came back is put into the answer. An answer has its own room, and a line that says more than the lent
// buffer holds is no question: so no room is required.
#![tactic(auto)]

mod lookups;
mod signed;

pub use lookups::Lookup;
