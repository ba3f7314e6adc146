// The report that ccfbline prints on four numbers of each stream: one packet as a line, or the writer's refusal.
#![tactic(auto)]

ghost use Rattle.std.specs.Prelude.{◌≡◌, ◌≤◌, length};
ghost use Rattle.octets.specs.Output.{output_after};
ghost use Rattle.places.specs.Shape.{most_places};
ghost use Rattle.line_hex.specs.Hex.{put_text};
ghost use Rattle.line_report.specs.Report.{FourEach, packet_room, line_room, requested_text};

use cutting::Request;
use plan_size::Total;

// The SSRC of the packet's sender, and the packet's limit in octets.
const LINE_SENDER: u32 = 0x000000F1;

const LINE_LIMIT: usize = 1200;

// Room for a packet on 16 streams, four numbers of each: 16 blocks of 16 octets, and 12 octets besides.
const PACKET_ROOM: usize = 268;

// Room for the packet.
fn packet_room() -> [u8; PACKET_ROOM]
    ensures room { packet_room ≡ length result }
{
    [0u8; PACKET_ROOM]
}

// Writes the report on the requests, of four numbers each, to the front of the output, as a line.
pub fn put_report(
    places: &[u64],
    cells: &[u64],
    rts: u32,
    requests: &[Request],
    out: &mut [u8],
) -> usize
    requires few { length requests.now ≤ most_places }
    requires four { FourEach requests.now }
    requires room { line_room ≤ length out.old }
    ensures after { output_after result out.new
        ≡ put_text out.old (requested_text places.now cells.now rts requests.now) }
    ensures bound { result ≤ line_room }
{
    let mut packet = packet_room();
    let answer = writer::write(
        places,
        cells,
        LINE_SENDER,
        rts,
        LINE_LIMIT,
        requests,
        &mut packet,
    );
    match answer {
        Ok(Total { packets, octets }) => {
            if packets == 0 {
                0
            } else {
                line_hex::put_line(out, &packet[..octets])
            }
        }
        Err(e) => line_refusal::put_refusal(out, e),
    }
}
