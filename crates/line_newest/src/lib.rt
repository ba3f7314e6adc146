// Asks for the newest numbers of each stream, for the report of ccfbline.
#![tactic(auto)]

ghost use Rattle.std.specs.Prelude.{◌≡◌, ◌≤◌, length};
ghost use Rattle.octets.specs.Output.{output_after};
ghost use Rattle.line_hex.specs.Hex.{put_text};
ghost use Rattle.line_report.specs.Report.{line_room};
ghost use Rattle.line_newest.specs.Newest.{report_text};

use cutting::Request;
use places::{MOST_PLACES, Stream};
use refusal::Refusal;

// How many numbers of each stream are asked for, and how far before the highest they begin.
const NEWEST_NUMBERS: u16 = 4;

const BACK: u16 = NEWEST_NUMBERS - 1;

// Writes the report on each held place in turn, four numbers that end with the highest, to the front of the output:
// how many octets.
pub fn report(places: &[u64], cells: &[u64], rts: u32, out: &mut [u8]) -> usize
    requires room { line_room ≤ length out.old }
    ensures after { output_after result out.new
        ≡ put_text out.old (report_text places.now cells.now rts) }
    ensures bound { result ≤ line_room }
{
    if !places::is_shaped(places, cells) {
        return line_refusal::put_refusal(out, Refusal::BadStore);
    }
    let mut requests = [Request {
        ssrc: 0,
        begin: 0,
        count: 0,
    }; MOST_PLACES];
    let mut n = 0;
    for place in places {
        if let Some(Stream { ssrc, highest }) = places::read_place(*place) {
            requests[n] = Request {
                ssrc,
                begin: window::distance(highest, BACK),
                count: NEWEST_NUMBERS,
            };
            n += 1;
        }
    }
    line_report::put_report(places, cells, rts, &requests[..n], out)
}
