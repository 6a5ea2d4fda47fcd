// The house record file of document 01: records of 12 bytes, read into a lent list of controls. The one public call, `read`, has no `requires`: it is total on any bytes.
#![tactic(auto)]

ghost use Rattle.std.specs.Prelude.{Ok, Err, ◌≡◌, ◌+◌, ◌*◌, ◌≤◌, length};
ghost use Rattle.std.specs.List.{concat};
ghost use Rattle.std.proofs.lemmas.List.Edits.{sets};
ghost use Rattle.whole.specs.Outcome.{outcome, refuses};
ghost use Rattle.shape.specs.Refusals.{judge};
ghost use Rattle.shape.specs.Shape.{most_records};
ghost use Rattle.record_file.specs.Format.{record_bytes, word, signed, numbers};
ghost use Rattle.record_file.specs.Rows.{reading, zeros_row, record_rows, later_rows, list_rows, accepts};
ghost use Rattle.record_file.specs.Inner.{unlike, rows_of, strays, limits_rows};

use curve::LIMIT;
use curve::bounds::is_beyond;
use shape::{MOST_RECORDS, Reason, Refusal, Shape, check_shape};

// The bytes of a record, and of the longest file.
const RECORD_BYTES: usize = 12;

pub const MOST_BYTES: usize = MOST_RECORDS * RECORD_BYTES;

// A record: the bytes of basis, depth and parameter, a zero byte, and four each of x and y.
type Record = [u8; RECORD_BYTES];

// The numbers of the most records.
pub const MOST_CONTROLS: usize = 2 * MOST_RECORDS;

// The bytes that a record's x and y begin at.
const X: usize = 4;

const Y: usize = 8;

// The basis that has a parameter, as a byte: it is compared with the file's, of which no shape is made yet.
const CARDINAL: u8 = 3;

// The coordinate in the four bytes from byte `at` on, low byte first, as two's complement.
fn coordinate(bytes: &Record, at: usize) -> i32
    requires { at + 4 ≤ record_bytes }
    ensures { result ≡ signed (word bytes.now at) }
{
    i32::from_le_bytes([bytes[at], bytes[at + 1], bytes[at + 2], bytes[at + 3]])
}

// Writes the numbers of the records, x then y, from the start of `list` on.
fn write_numbers(records: &[Record], list: &mut [i32])
    requires { 2 * length records.now ≤ length list.old }
    ensures { list.new ≡ sets list.old 0 (numbers (concat records.now) (length records.now)) }
{
    for (i, record) in records.iter().enumerate() {
        list[2 * i] = coordinate(record, X);
        list[2 * i + 1] = coordinate(record, Y);
    }
}

// Whether byte 3 is not zero, or byte 2 where the record's own basis has no parameter.
fn has_spare_byte(bytes: &Record) -> bool
    ensures { result ≡ (zeros_row bytes.now 0).holds }
{
    bytes[3] != 0 || bytes[2] != 0 && bytes[0] != CARDINAL
}

// Whether the basis, the depth or the parameter is unlike the first record's.
fn is_unlike(bytes: &Record, first: &Record) -> bool
    ensures { result ≡ unlike bytes.now first.now }
{
    bytes[..3] != first[..3]
}

// The checks of the record at a place: 14 and 15.
#[tactic(auto, unfolding(shape::specs::Refusals::judge))]
fn check_record(bytes: &Record, first: &Record, place: usize) -> Result<(), Refusal>
    ensures { result ≡ judge (rows_of bytes.now first.now place) Err (Ok tt) }
{
    if has_spare_byte(bytes) {
        return Err(Reason::SpareByte.at(place));
    }
    if is_unlike(bytes, first) {
        return Err(Reason::UnlikeFirst.at(place));
    }
    Ok(())
}

// The checks of the records, one after the other: 14 and 15.
fn check_records(records: &[Record]) -> Result<(), Refusal>
    ensures { result ≡ judge (record_rows (concat records.now) 0 (length records.now)) Err (Ok tt) }
{
    for (place, record) in records.iter().enumerate() {
        check_record(record, &records[0], place)?;
    }
    Ok(())
}

// Whether a coordinate of the record is outside the limits.
#[tactic(auto, unfolding(crate::specs::Inner::strays))]
fn is_outside(bytes: &Record) -> bool
    ensures { result ≡ strays bytes.now }
{
    is_beyond(coordinate(bytes, X), LIMIT) || is_beyond(coordinate(bytes, Y), LIMIT)
}

// Row 8: the first of the records that is outside the limits.
fn check_limits(records: &[Record]) -> Result<(), Refusal>
    ensures { result ≡ judge (limits_rows (concat records.now) (length records.now)) Err (Ok tt) }
{
    for (place, record) in records.iter().enumerate() {
        if is_outside(record) {
            return Err(Reason::OutsideLimits.at(place));
        }
    }
    Ok(())
}

// Rows 7 and 8, and then the controls.
#[tactic(auto, unfolding(shape::specs::Refusals::judge))]
fn read_numbers(records: &[Record], shape: Shape, controls: &mut [i32]) -> Result<Shape, Refusal>
    requires { length records.now ≤ most_records }
    ensures { outcome result controls.new ≡ judge (list_rows (concat records.now) (length records.now) controls.old) (refuses Err controls.old) (outcome (Ok shape) (sets controls.old 0 (numbers (concat records.now) (length records.now)))) }
{
    if controls.len() < 2 * records.len() {
        return Err(Reason::ShortControls.into());
    }
    check_limits(records)?;
    write_numbers(records, controls);
    Ok(shape)
}

// Rows 1, 2, 24, 3 for the shape of the first record, and on.
fn read_records(records: &[Record], controls: &mut [i32]) -> Result<Shape, Refusal>
    requires { (1 ≤ length records.now) × (length records.now ≤ most_records) }
    ensures { outcome result controls.new ≡ judge (later_rows (concat records.now) (length records.now) controls.old) (refuses Err controls.old) (accepts (concat records.now) (length records.now) controls.old) }
{
    let first = &records[0];
    let shape = Shape {
        basis: first[0] as usize,
        depth: first[1] as usize,
        count: records.len(),
        parameter: first[2] as usize,
    };
    check_shape(shape)?;
    read_numbers(records, shape, controls)
}

// Reads a record file: the checks of document 01 in its order, 3 for the length, 13, then record by record 14 and 15, then 1, 2, 24, 3, 7, 8. An accepted file writes two
// numbers for each record from the start of the controls on, x then y, keeps all past them, and answers the shape. A refusal answers its number and place and writes nothing.
pub fn read(file: &[u8], controls: &mut [i32]) -> Result<Shape, Refusal>
    ensures { outcome result controls.new ≡ reading file.now controls.old }
{
    if file.is_empty() || MOST_BYTES < file.len() {
        return Err(Reason::WrongCount.into());
    }
    let (records, rest) = file.as_chunks::<RECORD_BYTES>();
    if !rest.is_empty() {
        return Err(Reason::BrokenRecord.into());
    }
    check_records(records)?;
    read_records(records, controls)
}
