// How many packets a plan has, and their octets, before any is written.
#![tactic(auto)]

ghost use Rattle.std.specs.Prelude.{◌≤◌, ◌<◌, length};
ghost use Rattle.cutting.specs.Limits.{least_limit, most_limit, most_requests};
ghost use Rattle.cutting.specs.Plan.{plan};
ghost use Rattle.plan_size.specs.Steps.{FullPackets, Adds};
ghost use Rattle.plan_size.specs.Measure.{Measures};

use cutting::{NextBlock, Request};
use packet::PACKET_FRAME;

// How many packets there are, and their octets together.
#[derive(Clone, Copy)]
pub struct Total {
    pub packets: usize,
    pub octets: usize,
}

// What a request adds to the total, and the room that is left in the last packet.
#[derive(Clone, Copy)]
pub struct Added {
    pub packets: usize,
    pub octets: usize,
    pub room: usize,
}

// How many packets `count` numbers fill before the last, with `most` numbers in each.
fn full_packets(most: u16, count: u16) -> u16
    requires several { 1 < most }
    ensures value { FullPackets most count result }
{
    if count <= most {
        return 0;
    }
    (count - 1) / most
}

// What a range of `count` numbers adds in packets of its own.
fn add_packets(limit: usize, count: u16) -> Added
    requires least { least_limit ≤ limit }
    requires most { limit ≤ most_limit }
    ensures value { Adds limit 0 count result }
{
    let most = cutting::numbers_in(limit - PACKET_FRAME);
    let full = full_packets(most, count);
    let last = packet::block_octets(count - full * most);
    Added {
        packets: (full as usize) + 1,
        octets: (full as usize) * (PACKET_FRAME + packet::block_octets(most)) + PACKET_FRAME + last,
        room: limit - PACKET_FRAME - last,
    }
}

// What a range of `count` numbers adds, where the last packet has `room` octets left.
fn add_range(limit: usize, room: usize, count: u16) -> Added
    requires least { least_limit ≤ limit }
    requires most { limit ≤ most_limit }
    requires small { room ≤ most_limit }
    ensures value { Adds limit room count result }
{
    match cutting::next_block(room, count) {
        NextBlock::Whole => Added {
            packets: 0,
            octets: packet::block_octets(count),
            room: room - packet::block_octets(count),
        },
        NextBlock::Part(first) => {
            let more = add_packets(limit, count - first);
            Added {
                packets: more.packets,
                octets: packet::block_octets(first) + more.octets,
                room: more.room,
            }
        }
        NextBlock::Closed => add_packets(limit, count),
    }
}

// How many packets the requests take, and their octets. It divides, for speed alone: it goes by requests, and not by
// packets.
pub fn measure(limit: usize, requests: &[Request]) -> Total
    requires least { least_limit ≤ limit }
    requires most { limit ≤ most_limit }
    requires few { length requests.now ≤ most_requests }
    ensures value { Measures (plan limit requests.now) result }
{
    let mut packets = 0;
    let mut octets = 0;
    let mut room = 0;
    for r in requests {
        let more = add_range(limit, room, r.count);
        packets += more.packets;
        octets += more.octets;
        room = more.room;
    }
    Total { packets, octets }
}
