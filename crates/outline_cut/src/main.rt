// Reads one record file on standard input, and writes on standard output the listing of its outline with steps chosen by tolerance. The arguments are the tolerance and the most
// cuts.
#![tactic(auto)]

use console::{read_argument, read_input, tell, write_listing};
use file_list::{MOST_READ, MOST_TEXT, cut_file};
use std::io;

fn main(rt: HostRuntime) {
    let Some(tolerance) = read_argument(&rt, 1) else {
        tell(&rt, b"not a number: TOLERANCE\n");
        return;
    };
    let Some(most) = read_argument(&rt, 2) else {
        tell(&rt, b"not a number: MOST\n");
        return;
    };
    cut_input(&rt, tolerance, most);
}

// Reads the file, and writes its listing.
fn cut_input(rt: &(impl io::Input + Print + Eprint), tolerance: usize, most: usize) {
    let mut file = [0u8; MOST_READ];
    if let Some(length) = read_input(rt, &mut file) {
        cut(rt, &file[..length], tolerance, most);
    }
}

// Writes the listing of a file, or its refusal.
fn cut(rt: &(impl Print + Eprint), file: &[u8], tolerance: usize, most: usize) {
    let mut text = [0u8; MOST_TEXT];
    let end = cut_file(file, tolerance, most, &mut text);
    write_listing(rt, &text[..end]);
}
