// Reads one record file on standard input, and writes its listing on standard output, span by span.
#![tactic(auto)]

use console::{read_input, tell};
use file_list::{MOST_PART, MOST_READ, list_part};
use list_output::write_file;
use shape::{Refusal, Shape};

fn main(rt: HostRuntime) {
    let mut file = [0u8; MOST_READ];
    if let Some(length) = read_input(&rt, &mut file) {
        list(&rt, &file[..length]);
    }
}

// Writes the listing of a file, or its refusal, which is said on standard error as well.
fn list(rt: &(impl Print + Eprint), file: &[u8]) {
    let listed = write_file(rt, file);
    if listed.written.is_ok() {
        tell_refusal(rt, listed.reading);
    }
}

// The line of a refusal is the only part, whatever the controls.
fn tell_refusal(rt: &impl Eprint, reading: Result<Shape, Refusal>) {
    if reading.is_ok() {
        return;
    }
    let mut text = [0u8; MOST_PART];
    let end = list_part(reading, 0, &[], &mut text);
    tell(rt, &text[..end]);
}
