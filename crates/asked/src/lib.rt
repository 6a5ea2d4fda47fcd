// What an edit asks for: its controls, its counts and the spans that it works afresh. The calls are for crates of this project: some require what those have checked.
#![tactic(auto)]

pub mod afresh;
pub mod asking;
pub mod counts;

// The spans that an edit works afresh: the first of them, going round in a loop, and how many. Where there are none both are 0, and no `Option`: an accepted edit gives out these two numbers.
#[derive(Clone, Copy, Debug, Default, PartialEq, Eq)]
pub struct Run {
    pub first: usize,
    pub count: usize,
}

// What an edit does at its place: a new record there, a new one before it, or the record taken out. x and y stand apart, as in the public calls: their contracts name these variants.
#[derive(Clone, Copy, Debug, PartialEq, Eq)]
pub enum Edit {
    Move(i32, i32),
    Insert(i32, i32),
    Remove,
}
