// Standard output, and the line on standard error that says how a run ended.

use std::io;

// A refusal's line begins with this word, a listing with a number.
const REFUSED: &[u8] = b"refused";

// Writes all of a text. A failure is said, and handed on.
pub fn write_output(rt: &(impl Print + Eprint), text: &[u8]) -> io::Result<()> {
    rt.write_all(text).inspect_err(|error| {
        let _ = eprintln!(rt; "writing: {error}");
    })
}

// Writes a listing, and tells a refusal as well.
pub fn write_listing(rt: &(impl Print + Eprint), text: &[u8]) {
    if write_output(rt, text).is_ok() && text.starts_with(REFUSED) {
        tell(rt, text);
    }
}

// Says on standard error how the run ended, for the script that runs the program. Each text is ASCII; of
// another, what is no UTF-8 is left out.
pub fn tell(rt: &impl Eprint, text: &[u8]) {
    for chunk in text.utf8_chunks() {
        let _ = rt.eprint(chunk.valid());
    }
}
