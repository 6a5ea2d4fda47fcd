// The listing of a record file on standard output, part by part: no more than one span's points and text is held. What the parts are, and that one after another they are the listing, is proved in
// file_list. No public call has a `requires`.
#![tactic(auto)]

ghost use Rattle.std.specs.Prelude.{◌≡◌};
ghost use Rattle.record_file.specs.Rows.{reading};
ghost use Rattle.file_list.specs.Files.{controls, file_text};
ghost use Rattle.file_list.specs.Parts.{joined, part_text, parts_of};
ghost use Rattle.list_output.specs.Written.{Fitting, Handed};

use console::write_output;
use file_list::{MOST_PART, list_part, parts_of};
use record_file::{MOST_CONTROLS, read};
use shape::{Refusal, Shape};
use std::io::ErrorKind;

// What a file was read as, and how writing its listing ended: all of it was handed on, so many characters; or a write failed, which was said, in this way.
#[derive(Clone, Copy)]
pub struct Listed {
    pub reading: Result<Shape, Refusal>,
    pub written: Result<usize, ErrorKind>,
}

// Writes the listing of a file, or the line of its refusal.
pub fn write_file(rt: &(impl Print + Eprint), file: &[u8]) -> Listed
    ensures reading_value { result.reading ≡ (reading file.now controls).answer }
    ensures handed { Handed result.written (file_text file.now) }
{
    let mut controls = [0i32; MOST_CONTROLS];
    let reading = read(file, &mut controls);
    let written = write_parts(rt, reading, &controls);
    Listed { reading, written }
}

// Writes each part once, in order, by what reading the file came to and the controls that it left.
fn write_parts(
    rt: &(impl Print + Eprint),
    reading: Result<Shape, Refusal>,
    controls: &[i32],
) -> Result<usize, ErrorKind>
    requires { Fitting reading controls.now }
    ensures { Handed result (joined (part_text reading controls.now) 0 (parts_of reading)) }
{
    let mut text = [0u8; MOST_PART];
    let mut count = 0;
    for part in 0..parts_of(reading) {
        let end = list_part(reading, part, controls, &mut text);
        write_output(rt, &text[..end]).map_err(|error| error.kind())?;
        count += end;
    }
    Ok(count)
}
