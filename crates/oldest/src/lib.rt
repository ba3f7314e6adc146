// The oldest sequence number of a stream's window that arrived: where a first report on the stream
// begins.
#![tactic(auto)]

ghost use Rattle.std.specs.Prelude.{◌≡◌, ◌+◌, ◌*◌, ◌≤◌, ◌<◌, length};
ghost use Rattle.ring.specs.Ring.{cells_of_a_place};
ghost use Rattle.oldest.specs.Oldest.{window_number, oldest_in, oldest_of};
ghost use Rattle.oldest.specs.Steps.{first_filled};

use cells::{KINDS, LEAST_FILLED};
use refusal::Refusal;
use ring::CELLS_OF_A_PLACE;

// Number i, from 0, of the window that ends with highest, in rising order.
fn window_number(highest: u16, i: usize) -> u16
    requires within { i < cells_of_a_place }
    ensures value { result ≡ window_number highest i }
{
    window::distance(highest, (CELLS_OF_A_PLACE - 1 - i) as u16)
}

// The first of count cells, starting at start, that is filled; counted from start.
// By index on purpose: with `position`, the search of an empty window took 1.27 times as long.
fn first_filled(cells: &[u64], start: usize, count: usize) -> Option<usize>
    requires room { start + count ≤ length cells.now }
    ensures value { result ≡ first_filled cells.now start count }
{
    for i in 0..count {
        if LEAST_FILLED <= cells[start + i] % KINDS {
            return Some(i);
        }
    }
    None
}

// The oldest number that arrived, of the window of the place p that ends with highest; highest
// where none did. The cells of the newer numbers, up to highest, stand at the front of the ring,
// and those of the older ones behind them: two runs need no remainder for each cell.
fn oldest_in(cells: &[u64], p: usize, highest: u16) -> u16
    requires room { cells_of_a_place * p + cells_of_a_place ≤ length cells.now }
    ensures value { result ≡ oldest_in cells.now p highest }
{
    let base = CELLS_OF_A_PLACE * p;
    let newer = ((highest as usize) + 1) % CELLS_OF_A_PLACE;
    let older = CELLS_OF_A_PLACE - newer;
    if let Some(i) = first_filled(cells, base + newer, older) {
        return window_number(highest, i);
    }
    if let Some(i) = first_filled(cells, base, newer) {
        return window_number(highest, older + i);
    }
    highest
}

// The oldest number that arrived, of the window of the stream of place k, from 0: refusals 4, 5.
pub fn oldest(places: &[u64], cells: &[u64], k: usize) -> Result<u16, Refusal>
    ensures value { result ≡ oldest_of places.now cells.now k }
{
    let stream = store::place(places, cells, k)?;
    Ok(oldest_in(cells, k, stream.highest))
}
