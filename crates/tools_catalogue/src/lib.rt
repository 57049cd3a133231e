// A catalogue file for the programs: read whole, and the attributes of a table filled from it. What it is refused for is told in one line:
// the number, what it means, and for 20 and 21 the byte where it was found. Nothing of the engine stands on it. Each function is proved to
// stay within what it is lent; what a program makes of its input is tested from outside (tests/tools).
#![tactic(auto)]

ghost use Rattle.std.specs.Prelude.{◌≡◌, OnErr};

use catalogue_files::{Filled, fill};
use catalogue_places::{Fault, fault_in};
use rules::Refusal;
use std::io;
use std::io::Write;
use std::rt::Files;
use text_slices::part_of;
use tools_printing::{tell, tell_failed, tell_number};
use tools_reader::{open_read, read_full};

// A byte more than a file may have.
pub const ROOM: usize = 65536;

fn read_open<R: Files>(rt: &R, path: &[u8], room: &mut [u8]) -> io::Result<usize> {
    let mut file = open_read(rt, path)?;
    read_full(&mut file, room)
}

// A file's first bytes, as many as there is room for; how many. A failure to open or to read it is told, and then there is no number; an
// error is one of telling that, and the room has what had come.
pub fn read_file(
    rt: &impl Files,
    err: &mut impl Write,
    path: &[u8],
    room: &mut [u8],
) -> io::Result<Option<usize>> {
    match read_open(rt, path, room) {
        Ok(n) => Ok(Some(n)),
        Err(why) => {
            tell_failed(err, path, &why)?;
            Ok(None)
        }
    }
}

// ---- refusals

fn tell_place(err: &mut impl Write, file: &[u8]) -> io::Result<()> {
    if let Some(Fault::Malformed(place) | Fault::TooDeep(place)) = fault_in(file) {
        tell(err, b", at byte ")?;
        tell_number(err, place as u64)?;
    }
    Ok(())
}

fn tell_meaning(err: &mut impl Write, number: u32) -> io::Result<()> {
    match number {
        20 => tell(err, b"malformed"),
        21 => tell(err, b"a group on a fifth level"),
        22 => tell(
            err,
            b"two runs meet along one chain, or a run goes on after the last register",
        ),
        23 => tell(err, b"a name stands twice"),
        24 => tell(err, b"no group has the name that was asked for"),
        _ => tell(err, b"too many registers"),
    }
}

// `models.cat: refused with 20: malformed, at byte 17`
pub fn tell_refused(
    err: &mut impl Write,
    path: &[u8],
    file: &[u8],
    why: Refusal,
) -> io::Result<()> {
    tell(err, path)?;
    tell(err, b": refused with ")?;
    tell_number(err, why.number() as u64)?;
    tell(err, b": ")?;
    tell_meaning(err, why.number() as u32)?;
    tell_place(err, file)?;
    tell(err, b"\n")
}

// ---- filling

// The attributes of a name; whether they are filled. What is wrong has been told; an error is one of telling it, and then they stay.
pub fn fill_or_tell(
    err: &mut impl Write,
    path: &[u8],
    file: &[u8],
    name: &[u8],
    attributes: &mut [u8],
) -> io::Result<bool>
    ensures { OnErr result (attributes.new ≡ attributes.old) }
{
    match fill(file, name, attributes) {
        Filled::Done => Ok(true),
        Filled::Refused(why) => {
            tell_refused(err, path, file, why)?;
            Ok(false)
        }
    }
}

fn fill_read(
    rt: &impl Files,
    err: &mut impl Write,
    path: &[u8],
    name: &[u8],
    room: &mut [u8],
    attributes: &mut [u8],
) -> io::Result<bool>
    ensures { OnErr result (attributes.new ≡ attributes.old) }
{
    match read_file(rt, err, path, room)? {
        Some(n) => fill_or_tell(err, path, part_of(room, 0, n), name, attributes),
        None => Ok(false),
    }
}

// The attributes of a name of a file; whether they are filled. An error is one of telling what is wrong, and then they stay.
pub fn fill_from(
    rt: &impl Files,
    err: &mut impl Write,
    path: &[u8],
    name: &[u8],
    attributes: &mut [u8],
) -> io::Result<bool>
    ensures { OnErr result (attributes.new ≡ attributes.old) }
{
    let mut room = [0u8; ROOM];
    fill_read(rt, err, path, name, &mut room, attributes)
}
