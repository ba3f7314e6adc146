// What ccfbline prints once all of an arrival file was taken: the report on the newest numbers of each stream and the
// gap, or a refusal.
#![tactic(auto)]

ghost use Rattle.std.specs.Prelude.{◌≡◌, ◌≤◌, length};
ghost use Rattle.octets.specs.Output.{output_after};
ghost use Rattle.line_hex.specs.Hex.{put_text};
ghost use Rattle.line.specs.Line.{text_room, finished_text};

use intake::Intake;

// Writes what is to be printed to the front of the output, which has room for a line on 16 streams and that of the gap:
// how many octets.
pub fn finish(places: &[u64], cells: &[u64], intake: Intake, out: &mut [u8]) -> usize
    requires room { text_room ≤ length out.old }
    ensures after { output_after result out.new
        ≡ put_text out.old (finished_text places.now cells.now intake) }
    ensures bound { result ≤ text_room }
{
    match arrival_file::check_end(intake.phase, intake.left) {
        Ok(()) => {
            let n = line_newest::report(places, cells, intake.rts, out);
            line_gap::put_gap(out, n, intake.gap)
        }
        Err(e) => line_refusal::put_refusal(out, e),
    }
}
