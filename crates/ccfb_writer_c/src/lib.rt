// The call of ccfb_writer, exported for C. A crate that other crates build on exports nothing itself.
#![tactic(auto)]

ghost use Rattle.std.specs.Prelude.{◌≡◌, length};
ghost use Rattle.writer.specs.Written.{written};
ghost use Rattle.ccfb_writer.specs.Writing.{wrote, write_called};

use cutting::Request;

#[unsafe(no_mangle)]
pub extern "C" fn ccfb_write<'a>(
    places: &'a [u64],
    cells: &'a [u64],
    sender: u32,
    rts: u32,
    limit: usize,
    requests: &'a [Request],
    out: &'a mut [u8],
    packets: &'a mut usize,
    octets: &'a mut usize,
) -> u8
    ensures after { wrote result packets.new octets.new out.new
        ≡ write_called
        (written places.now cells.now sender
        rts limit (length requests.now) requests.now out.old)
        packets.old octets.old }
{
    ccfb_writer::ccfb_write(
        places, cells, sender, rts, limit, requests, out, packets, octets,
    )
}
