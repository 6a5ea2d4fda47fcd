// Standard input, with a read that failed told from the end.
ghost use Rattle.std.specs.Io.{ReadsAtMost};
ghost use Rattle.console.specs.Input.{Taken};

use std::io;
use std::io::{ErrorKind, Read};

// One read, which a signal may interrupt before it has a byte: then it is tried again. A loop has to end, so this one counts to a number that no run reaches.
fn read_some(reader: &mut impl Read, bytes: &mut [u8]) -> io::Result<usize>
    ensures { ReadsAtMost result bytes.new }
{
    for _ in 0..u64::MAX {
        match reader.read(bytes) {
            Err(error) if error.kind() == ErrorKind::Interrupted => {}
            result => return result,
        }
    }
    Err(io::Error::from(ErrorKind::Interrupted))
}

// Reads until the list is full or the input has ended. A loop by hand, since the library's `read_exact` takes an input that ends before for a failure, and says not how much was read.
fn read_full(reader: &mut impl Read, bytes: &mut [u8]) -> io::Result<usize>
    ensures { ReadsAtMost result bytes.new }
{
    let mut done = 0;
    while done < bytes.len() {
        let more = read_some(reader, &mut bytes[done..])?;
        if more == 0 {
            break;
        }
        done += more;
    }
    Ok(done)
}

// The same of standard input: so many bytes at the start of the list, or none where a read failed, which is said.
pub fn read_input(rt: &(impl io::Input + Eprint), bytes: &mut [u8]) -> Option<usize>
    ensures { Taken result bytes.new }
{
    let mut reader = rt.reader();
    match read_full(&mut reader, bytes) {
        Ok(length) => Some(length),
        Err(error) => {
            let _ = eprintln!(rt; "reading: {error}");
            None
        }
    }
}
