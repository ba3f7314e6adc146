// How requests are cut into packets: the next block of a packet.
#![tactic(auto)]

ghost use Rattle.std.specs.Prelude.{◌≡◌, ◌≤◌};
ghost use Rattle.cutting.specs.Limits.{most_limit};
ghost use Rattle.cutting.specs.Plan.{fitting, next_block, number_after};

use packet::BLOCK_HEADER_OCTETS;

// A caller may give at most so many requests, and a limit of so many octets to a packet. The least limit holds a packet
// that reports a number.
pub const MOST_REQUESTS: usize = 16;

pub const LEAST_LIMIT: usize = 24;

pub const MOST_LIMIT: usize = 9000;

// The smallest block that reports a number.
const LEAST_BLOCK: usize = BLOCK_HEADER_OCTETS + 4;

// A request to report `count` numbers of a stream, starting at `begin`.
#[repr(C)]
#[derive(Clone, Copy)]
pub struct Request {
    pub ssrc: u32,
    pub begin: u16,
    pub count: u16,
}

// What of the next range goes into the open packet: all of it, its first numbers, or nothing more.
#[derive(Clone, Copy)]
pub enum NextBlock {
    Whole,
    Part(u16),
    Closed,
}

// How many numbers a block can have in `room` octets.
pub fn numbers_in(room: usize) -> u16
    requires small { room ≤ most_limit }
    ensures value { result ≡ fitting room }
{
    if room < LEAST_BLOCK {
        0
    } else {
        ((room - BLOCK_HEADER_OCTETS) / 4 * 2) as u16
    }
}

// The next block of a packet with `room` octets left, where a range of `count` numbers is the next.
pub fn next_block(room: usize, count: u16) -> NextBlock
    requires small { room ≤ most_limit }
    ensures value { result ≡ next_block room count }
{
    if packet::block_octets(count) <= room {
        return NextBlock::Whole;
    }
    let first = numbers_in(room);
    if first == 0 {
        return NextBlock::Closed;
    }
    NextBlock::Part(first)
}

// The number `j` after `begin`.
pub fn number_after(begin: u16, j: u16) -> u16
    ensures value { result ≡ number_after begin j }
{
    std::num::wrapping_add_u16(begin, j)
}
