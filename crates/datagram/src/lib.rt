// A datagram of RTCP packets: what a walk over it finds at an offset. The packets may be of any type.
#![tactic(auto)]

// Every RTCP packet starts with a header of so many octets.
pub const RTCP_HEADER_OCTETS: usize = 4;

// A packet of a datagram, by its header: type, FMT (other types keep a count there), where it starts, how many octets it
// has.
#[derive(Clone, Copy)]
pub struct RtcpPacket {
    pub packet_type: u8,
    pub format: u8,
    pub at: usize,
    pub size: usize,
}
