// Writes reports on streams of the store as CCFB packets: the fewest packets possible.
#![tactic(auto)]

ghost use Rattle.std.specs.Prelude.{◌≡◌, length, take};
ghost use Rattle.octets.specs.Output.{output_after};
ghost use Rattle.writer.specs.Steps.{call_checked};
ghost use Rattle.writer.specs.Written.{written};

use blocks::Report;
use cutting::{LEAST_LIMIT, MOST_LIMIT, MOST_REQUESTS, Request};
use plan_size::Total;
use refusal::Refusal;

// What is wrong with a call before its requests are looked at: refusals 4, 6, 7.
pub fn check_call(places: &[u64], cells: &[u64], limit: usize, n: usize) -> Result<(), Refusal>
    ensures value { result ≡ call_checked places.now cells.now limit n }
{
    if !places::is_shaped(places, cells) {
        return Err(Refusal::BadStore);
    }
    if limit < LEAST_LIMIT {
        return Err(Refusal::BadLimit);
    }
    if MOST_LIMIT < limit {
        return Err(Refusal::BadLimit);
    }
    if MOST_REQUESTS < n {
        return Err(Refusal::TooManyRequests);
    }
    Ok(())
}

// Writes a report on each request, packets back to back: refusals 4, 6, 7; for each request in turn 5, 8, 9; and
// last 10.
pub fn write(
    places: &[u64],
    cells: &[u64],
    sender: u32,
    rts: u32,
    limit: usize,
    requests: &[Request],
    out: &mut [u8],
) -> Result<Total, Refusal>
    ensures after { output_after result out.new
        ≡ written places.now cells.now sender rts limit (length requests.now) requests.now out.old }
{
    check_call(places, cells, limit, requests.len())?;
    let mut found = [0; MOST_REQUESTS];
    requests::validate(places, requests, &mut found)?;
    let report = Report {
        cells,
        sender,
        rts,
        limit,
        requests,
        found: &found,
    };
    sound_writer::write_sound(places, &report, out)
}

// Writes a report on each of the first n requests of an array, as `write` does on a list; n above 16 is refused with 7.
pub fn write_array(
    places: &[u64],
    cells: &[u64],
    sender: u32,
    rts: u32,
    limit: usize,
    requests: [Request; MOST_REQUESTS],
    n: usize,
    out: &mut [u8],
) -> Result<Total, Refusal>
    ensures after { output_after result out.new
        ≡ written places.now cells.now sender rts limit n (take n requests) out.old }
{
    check_call(places, cells, limit, n)?;
    write(places, cells, sender, rts, limit, &requests[..n], out)
}
