// What the readers say of an accepted file.
ghost use Rattle.std.specs.Prelude.{◌<◌};
ghost use Rattle.file.specs.Inner.Accepted.{AcceptedFile, Placed, slave_count};

use file::readers::{comparison_value, logical_name, physical_name, slave_count};
use file::records::{find_file, find_record};
use file::survey::survey;
use file::types::{FileNumber, PLACES, RecordNumber, SlavePlaces};
use std::io;

fn file_place(out: &impl Print, file: &[u8], slave: usize, file_number: u8) -> io::Result<()>
    requires { AcceptedFile file.now × (slave < slave_count file.now) }
{
    print!(out; "\n file {file_number:02X}")?;
    let answer = find_file(file, slave, FileNumber(file_number));
    match answer {
        Some(found) => { print!(out; " at {} size {}", found.place, found.size) }
        None => print!(out; " none"),
    }
}

fn record_place(
    out: &impl Print,
    file: &[u8],
    slave: usize,
    file_number: u8,
    record: u8,
) -> io::Result<()>
    requires { AcceptedFile file.now × (slave < slave_count file.now) }
{
    print!(out; "\n file {file_number:02X} record {record}")?;
    let answer = find_record(file, slave, FileNumber(file_number), RecordNumber(record));
    match answer {
        Some(place) => print!(out; " at {place}"),
        None => print!(out; " none"),
    }
}

fn found_places(out: &impl Print, file: &[u8], slave: usize) -> io::Result<()>
    requires { AcceptedFile file.now × (slave < slave_count file.now) }
{
    for file_number in [0x08, 0x09, 0x3D, 0x3F] {
        file_place(out, file, slave, file_number)?;
    }
    for (file_number, record) in [
        (0x08, 0),
        (0x08, 3),
        (0x08, 4),
        (0x3D, 2),
        (0x3D, 3),
        (0x3F, 255),
    ] {
        record_place(out, file, slave, file_number, record)?;
    }
    Ok(())
}

fn slave_line(out: &impl Print, file: &[u8], places: &SlavePlaces, slave: usize) -> io::Result<()>
    requires { Placed file.now places.now × (slave < slave_count file.now) }
{
    let name = logical_name(file, places, slave).0;
    let physical = physical_name(file, places, slave);
    let compare = comparison_value(file, places, slave);
    print!(out; "\nslave {slave} name {name:02X} physical {physical:016X} compare {compare:016X}")?;
    found_places(out, file, slave)
}

fn slaves(out: &impl Print, file: &[u8], places: &SlavePlaces) -> io::Result<()>
    requires { Placed file.now places.now }
{
    let count = slave_count(file);
    print!(out; " {count}")?;
    for slave in 0..count {
        slave_line(out, file, places, slave)?;
    }
    Ok(())
}

pub fn describe(out: &impl Print, file: &[u8]) -> io::Result<()> {
    let mut places = [0u16; PLACES];
    let answer = survey(file, &mut places);
    let Ok(()) = answer else {
        return print!(out; " refused");
    };
    slaves(out, file, &places)
}
