// Text into a lent list of bytes: words, decimal numbers, and the listing of an outline or of a
// refusal.
//
// No public call has a `requires`. Each writes its text whole from a place on and answers the place
// just past it; where the text does not fit, or what it is of is not there, it answers `None` and
// changes nothing.
#![tactic(auto)]

mod line;
mod number;
mod outline;
mod refusal;
mod word;

pub use number::{put_decimal, put_natural};
pub use outline::{list_chosen, list_heading, list_points};
pub use refusal::list_refusal;
pub use word::put_word;
