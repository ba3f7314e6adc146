// Reads standard input, an arrival file, and takes its records into a store as they come.
#![tactic(auto)]

ghost use Rattle.std.specs.Prelude.{◌≤◌, ◌<◌, length};
ghost use Rattle.arrival_record.specs.Record.{record_octets};
ghost use Rattle.places.specs.Shape.{Shaped};
ghost use Rattle.intake.specs.Intake.{intake_after};
ghost use Rattle.line_input.specs.Turn.{buffer_octets, Short, TurnTaken};
ghost use Rattle.line_input.specs.Taken.{InputTaken};

use arrival_file::Phase;
use intake::Intake;
use std::io;
use std::io::Read;
use std::ops::ControlFlow;

// Reads once into the buffer, after the octets that are left, and takes what came: more is needed, until the file is at
// its end or has a fault.
fn take_once<R: Read>(
    input: &mut R,
    places: &mut [u64],
    cells: &mut [u64],
    buf: &mut [u8],
    intake: Intake,
) -> io::Result<ControlFlow<Intake, Intake>>
    requires few { intake.left < record_octets }
    requires room { buffer_octets ≤ length buf.old }
    requires shape { Shaped places.old cells.old }
    ensures after { TurnTaken (intake_after intake places.old cells.old buf.old)
        result places.new cells.new buf.new }
    ensures few { Short result }
{
    let n = input.read(&mut buf[intake.left..])?;
    if n == 0 {
        return Ok(ControlFlow::Break(intake));
    }
    let fed = intake::feed(places, cells, intake, &mut buf[..intake.left + n]);
    match fed.phase {
        Phase::Faulty(_) => Ok(ControlFlow::Break(fed)),
        _ => Ok(ControlFlow::Continue(fed)),
    }
}

// Takes the input, of any length. A proved loop has to end, and nothing says that an input does: the turns are bounded by
// a number that no run uses up.
pub fn take_input<R: Read>(
    input: &mut R,
    places: &mut [u64],
    cells: &mut [u64],
    buf: &mut [u8],
) -> io::Result<Intake>
    requires room { buffer_octets ≤ length buf.old }
    requires shape { Shaped places.old cells.old }
    ensures after { InputTaken places.old cells.old
        result places.new cells.new buf.new }
{
    let mut intake = intake::start();
    for _ in 0..u64::MAX {
        match take_once(input, places, cells, buf, intake)? {
            ControlFlow::Continue(next) => intake = next,
            ControlFlow::Break(last) => return Ok(last),
        }
    }
    Err(io::Error::other("the input does not end"))
}
