// The questions that ask for a judgement of a whole message: `read`, `structure` and `verdict`. Behind the verb stands
// the message alone; it is decoded, the library is called once, and what came back is put into the answer. An answer
// has its own room, and a line that says more than the lent buffer holds is no question: so no room is required.
#![tactic(auto)]

mod judges;
mod readings;

pub use judges::Judge;
pub use readings::answer_read;
