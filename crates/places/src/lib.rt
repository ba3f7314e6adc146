// The places of streams: a word for each place says which stream it holds, and the stream's highest number.
#![tactic(auto)]

ghost use Rattle.std.specs.Prelude.{◌≡◌, ◌<◌, length};
ghost use Rattle.places.specs.Place.{highest_at, read_place, find_from, find_of, free_of};
ghost use Rattle.places.specs.Shape.{shaped};

use ring::CELLS_OF_A_PLACE;

pub const MOST_PLACES: usize = 16;

// A held place is HELD + SSRC_UNIT * SSRC + highest number.
pub const HELD: u64 = 0x1_0000_0000_0000;

pub const SSRC_UNIT: u64 = 0x1_0000;

const SSRCS: u64 = 0x1_0000_0000;

// A stream that a place holds: its SSRC and its highest number.
#[derive(Clone, Copy)]
pub struct Stream {
    pub ssrc: u32,
    pub highest: u16,
}

// 1 to 16 places, each with its cells.
pub fn is_shaped(places: &[u64], cells: &[u64]) -> bool
    ensures value { result ≡ shaped places.now cells.now }
{
    let n = places.len();
    if n == 0 {
        return false;
    }
    if MOST_PLACES < n {
        return false;
    }
    cells.len() == CELLS_OF_A_PLACE * n
}

// What a place's word says.
pub fn read_place(word: u64) -> Option<Stream>
    ensures value { result ≡ read_place word }
{
    if word / HELD == 1 {
        return Some(Stream {
            ssrc: (word / SSRC_UNIT % SSRCS) as u32,
            highest: (word % SSRC_UNIT) as u16,
        });
    }
    None
}

// The highest number that the place p keeps.
pub fn highest_at(places: &[u64], p: usize) -> u16
    requires there { p < length places.now }
    ensures value { result ≡ highest_at places.now p }
{
    (places[p] % SSRC_UNIT) as u16
}

// The first place with the index `from` or a higher one that holds the stream of an SSRC.
pub fn find_from(places: &[u64], ssrc: u32, from: usize) -> Option<usize>
    ensures value { result ≡ find_from places.now ssrc from }
{
    let key = HELD / SSRC_UNIT + (ssrc as u64);
    for i in from..places.len() {
        if places[i] / SSRC_UNIT == key {
            return Some(i);
        }
    }
    None
}

// The first place that holds the stream of an SSRC.
pub fn find(places: &[u64], ssrc: u32) -> Option<usize>
    ensures value { result ≡ find_of places.now ssrc }
{
    find_from(places, ssrc, 0)
}

// The first free place.
pub fn first_free(places: &[u64]) -> Option<usize>
    ensures value { result ≡ free_of places.now }
{
    places.iter().position(|&word| word / HELD != 1)
}
