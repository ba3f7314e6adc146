// Writes reports on requests that were checked and are sound: the fewest packets possible.
#![tactic(auto)]

ghost use Rattle.std.specs.Prelude.{◌≡◌};
ghost use Rattle.octets.specs.Output.{output_after};
ghost use Rattle.cutting.specs.Plan.{plan};
ghost use Rattle.blocks.specs.Packets.{packets_for};
ghost use Rattle.sound_writer.specs.Put.{put_packets};
ghost use Rattle.sound_writer.specs.Steps.{SoundReport};

use blocks::Report;
use plan_size::Total;
use refusal::Refusal;

// Writes a report on requests that are sound, if the output has room: refusal 10.
pub fn write_sound(places: &[u64], report: &Report<'_>, out: &mut [u8]) -> Result<Total, Refusal>
    requires sound { SoundReport places.now report.now }
    ensures after { output_after result out.new
        ≡ put_packets (plan report.now.limit report.now.requests.now)
        (packets_for places.now report.now.cells.now report.now.sender report.now.rts
        report.now.limit report.now.requests.now) out.old }
{
    let need = plan_size::measure(report.limit, report.requests);
    if out.len() < need.octets {
        return Err(Refusal::OutputTooShort);
    }
    packets::write_packets(out, report);
    Ok(need)
}
