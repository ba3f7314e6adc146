// Takes an arrival file on standard input, and prints the feedback on its streams and the gap, or the file's first
// fault.
#![tactic(auto)]

ghost use Rattle.std.specs.Prelude.{◌≤◌, length};
ghost use Rattle.line.specs.Line.{text_room};
ghost use Rattle.ccfbline.specs.Output.{OutputFor};

use std::io;
use std::io::Read;

// Takes the input into a fresh store, and writes what is to be printed, so many octets, to the front of the output.
fn put_output<R: Read>(input: &mut R, out: &mut [u8]) -> io::Result<usize>
    requires room { text_room ≤ length out.old }
    ensures after { OutputFor out.old result out.new }
{
    let mut places = line_store::fresh_places();
    let mut cells = line_store::fresh_cells();
    let mut buf = [0; 65536];
    let intake = line_input::take_input(input, &mut places, &mut cells, &mut buf)?;
    Ok(line::finish(&places, &cells, intake, out))
}

// Says on standard error what failed, and why. If that fails too, nobody is left to be told.
fn complain(rt: &impl Eprint, what: &str, e: io::Error) {
    let _ = eprintln!(rt; "ccfbline: {what}: {e}");
}

fn print(rt: &(impl Print + Eprint), text: &[u8]) {
    if let Err(e) = rt.write_all(text) {
        complain(rt, "standard output", e);
    }
}

fn main(rt: HostRuntime) {
    let mut out = [0; 4096];
    match put_output(&mut rt.stdin(), &mut out) {
        Ok(n) => print(&rt, &out[..n]),
        Err(e) => complain(&rt, "standard input", e),
    }
}
