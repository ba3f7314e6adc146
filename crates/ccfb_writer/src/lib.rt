// The C call that writes reports on streams of a store that the caller lends.
#![tactic(auto)]

ghost use Rattle.std.specs.Prelude.{◌≡◌, ℕ, List, length, take};
ghost use Rattle.writer.specs.Written.{written};
ghost use Rattle.ccfb_writer.specs.Writing.{wrote, write_called_by, write_called};

use cutting::{MOST_REQUESTS, Request};
use plan_size::Total;
use refusal::Refusal;

// Hands the writer's answer over to the caller: the counts, or the refusal's number.
fn hand_over<'a>(
    answer: Result<Total, Refusal>,
    packets: &'a mut usize,
    octets: &'a mut usize,
) -> u8
    ensures after { (out : List ℕ) → wrote result packets.new octets.new out
        ≡ write_called_by answer out packets.old octets.old }
{
    match answer {
        Ok(
            Total {
                packets: p,
                octets: o,
            },
        ) => {
            *packets = p;
            *octets = o;
            0
        }
        Err(e) => refusal::number(e),
    }
}

// Reports on the first n requests of an array, as `ccfb_write` does on a list.
pub fn write_array<'a>(
    places: &'a [u64],
    cells: &'a [u64],
    sender: u32,
    rts: u32,
    limit: usize,
    requests: [Request; MOST_REQUESTS],
    n: usize,
    out: &'a mut [u8],
    packets: &'a mut usize,
    octets: &'a mut usize,
) -> u8
    ensures after { wrote result packets.new octets.new out.new
        ≡ write_called
        (written places.now cells.now sender rts limit n (take n requests) out.old)
        packets.old octets.old }
{
    let answer = writer::write_array(places, cells, sender, rts, limit, requests, n, out);
    hand_over(answer, packets, octets)
}

// Reports on the requests of a list, packets back to back. Refusals 4, 6, 7; for each request in turn 5, 8, 9; and
// last 10.
#[unsafe(no_mangle)]
pub extern "C" fn ccfb_write<'a>(
    places: &'a [u64],
    cells: &'a [u64],
    sender: u32,
    rts: u32,
    limit: usize,
    requests: &'a [Request],
    out: &'a mut [u8],
    packets: &'a mut usize,
    octets: &'a mut usize,
) -> u8
    ensures after { wrote result packets.new octets.new out.new
        ≡ write_called
        (written places.now cells.now sender
        rts limit (length requests.now) requests.now out.old)
        packets.old octets.old }
{
    let answer = writer::write(places, cells, sender, rts, limit, requests, out);
    hand_over(answer, packets, octets)
}
