// Formatted text: which sequences are commands, and what each asks of the layout.
#![tactic(auto)]

mod numbers;
mod orders;

pub use numbers::{Amount, hold};
pub use orders::{Order, is_command, order_of};
