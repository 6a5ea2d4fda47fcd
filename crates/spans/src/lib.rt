// A run of spans in the lent points, three ways. Each way fills the same numbers; no way knows another. The calls are for crates of this project: they require what
// those have checked. `draft` is a plan with its controls: it fills a run of its spans by the way that is asked for, and has the controls of one span; `point` rounds one point into the list.
#![tactic(auto)]

pub mod draft;
pub mod halving;
pub mod point;
pub mod span;
pub mod stepping;
pub mod way;
pub mod weights;
