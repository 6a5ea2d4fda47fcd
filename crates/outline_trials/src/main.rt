// Plays a trials file from standard input: records of 56 bytes, one after the other, each a call of the library, and writes what the calls answer.
#![tactic(auto)]

mod bench;
mod calls;
mod record;
mod text;
mod trial;

use bench::{Bench, Stop};
use console::read_input;
use record::{RECORD, Record};
use std::io;
use text::say_bad;

// The next record of the input, played.
fn play_next(rt: &(impl io::Input + Print + Eprint), bench: &mut Bench) -> Result<(), Stop> {
    let mut bytes = [0u8; RECORD];
    let length = read_input(rt, &mut bytes).ok_or(Stop::End)?;
    if length == 0 {
        return Err(Stop::End);
    }
    if length < RECORD {
        return Err(Stop::Bad);
    }
    let trial = Record::new(&bytes).trial().ok_or(Stop::Bad)?;
    bench.play(rt, trial)
}

// The records to the end of the input, or to the first that is bad, which is named. A loop has to end, so this one counts to a number that no run reaches.
fn play_all(rt: &(impl io::Input + Print + Eprint), bench: &mut Bench) {
    for number in 0..usize::MAX {
        match play_next(rt, bench) {
            Ok(()) => {}
            Err(Stop::Bad) => return say_bad(rt, number),
            Err(Stop::End) => return,
        }
    }
}

fn main(rt: HostRuntime) {
    let mut bench = Bench::new();
    play_all(&rt, &mut bench);
}
