// What the programs share: their arguments, standard input and output, and the lines that they write. No call has a `requires`.
#![tactic(auto)]

mod argument;
mod input;
mod output;
mod text;

pub use argument::{number_of, read_argument};
pub use input::read_input;
pub use output::{tell, write_listing, write_output};
pub use text::Text;
