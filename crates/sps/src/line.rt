// The calls for C hosts on one line: its values, sixteen numbers in the places of a byte slice, read and written.
ghost use Rattle.std.specs.Prelude.{◌≡◌, length};
ghost use Rattle.rules.specs.Plan.{run};
ghost use Rattle.rules.specs.Writer.{writes, into};
ghost use Rattle.rules.specs.Hosts.{host_verdict};
ghost use Rattle.rules.specs.Calls.{choice};
ghost use Rattle.sps.specs.Number.{number_of};
ghost use Rattle.sps.specs.Values.{PointTold, RelationTold, point_taken, point_written, relation_taken, relation_written};

use crate::{number, pack, places, reading};
use lines::Refusal;
use values::places::{point_places, relation_places, state_number};

// Puts the values of a point line into their places, and answers the number of its state. A refusal writes nothing.
fn put_point(
    medium: u64,
    letter: u64,
    file: &[u8],
    line: u64,
    bytes: &mut [u8],
) -> Result<u64, Refusal>
    ensures told { PointTold (choice medium) letter file.now line bytes.old
        (number_of (λ n. n) result) bytes.new }
{
    let p = values::read_point(reading(medium)?, letter, file, line)?;
    places::put_all(&point_places(p), bytes);
    Ok(state_number(p.state))
}

// The same of a relation line, which has no state.
fn put_relation(medium: u64, file: &[u8], line: u64, bytes: &mut [u8]) -> Result<(), Refusal>
    ensures told { RelationTold (choice medium) file.now line bytes.old
        (number_of (λ _. 0) result) bytes.new }
{
    let q = values::read_relation(reading(medium)?, file, line)?;
    places::put_all(&relation_places(q), bytes);
    Ok(())
}

// The values of a line of R or S, by its letter and its number from 1: 0 of a live point, 1 of a killed one, 2 of a marker.
#[unsafe(no_mangle)]
pub extern "C" fn sps_read_point(
    medium: u64,
    letter: u64,
    file: &[u8],
    line: u64,
    bytes: &mut [u8],
) -> u64
    ensures told { PointTold (choice medium) letter file.now line bytes.old result bytes.new }
{
    number(put_point(medium, letter, file, line, bytes))
}

// The values of a line of X: 0.
#[unsafe(no_mangle)]
pub extern "C" fn sps_read_relation(medium: u64, file: &[u8], line: u64, bytes: &mut [u8]) -> u64
    ensures told { RelationTold (choice medium) file.now line bytes.old result bytes.new }
{
    number(put_relation(medium, file, line, bytes))
}

// Writes the line of a point of R or S, by its letter, from sixteen numbers, at the start of a slice: 0. A refusal, 22 or 23, writes nothing.
#[unsafe(no_mangle)]
pub extern "C" fn sps_write_point(letter: u64, bytes: &[u8], line: &mut [u8]) -> u64
    ensures answer { result ≡ host_verdict (run (writes (point_taken letter bytes.now) (length line.old))) }
    ensures written { line.new ≡ into (run (writes (point_taken letter bytes.now) (length line.old)))
        (point_written letter bytes.now) line.old }
{
    if bytes.len() != 128 {
        return pack(lines::unplaced(22));
    }
    number(writer::write_point_numbers(letter, places::get_all(bytes), line))
}

// The same of a relation.
#[unsafe(no_mangle)]
pub extern "C" fn sps_write_relation(bytes: &[u8], line: &mut [u8]) -> u64
    ensures answer { result ≡ host_verdict (run (writes (relation_taken bytes.now) (length line.old))) }
    ensures written { line.new ≡ into (run (writes (relation_taken bytes.now) (length line.old)))
        (relation_written bytes.now) line.old }
{
    if bytes.len() != 128 {
        return pack(lines::unplaced(22));
    }
    number(writer::write_relation_numbers(places::get_all(bytes), line))
}
