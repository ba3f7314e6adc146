// The window of a place, over any word of a cell: where a number's cell stands in the ring, and how the window moves on.
#![tactic(auto)]

ghost use Rattle.std.specs.Prelude.{◌≡◌, ◌+◌, ◌-◌, ◌*◌, ◌^◌, ◌≤◌, ◌<◌, length, set};
ghost use Rattle.ring.specs.Ring.{cells_of_a_place, emptied};
ghost use Rattle.places.specs.Place.{place_word};
ghost use Rattle.places.specs.Shape.{Ready};
ghost use Rattle.place_window.specs.Window.{cell_index, opened};

use places::{HELD, SSRC_UNIT};
use ring::CELLS_OF_A_PLACE;

// Where the cell of a number of the place p stands.
pub fn cell_index(p: usize, number: u16) -> usize
    requires small { cells_of_a_place * p + cells_of_a_place < 2 ^ 64 }
    ensures value { result ≡ cell_index p number }
{
    CELLS_OF_A_PLACE * p + (number as usize) % CELLS_OF_A_PLACE
}

// Empties the cells of the other n - 1 numbers that come into the window with number.
// Most numbers are the next in order: n is then 1, and there is no call.
fn empty_others(cells: &mut [u64], p: usize, number: u16, n: usize)
    requires room { cells_of_a_place * p + cells_of_a_place ≤ length cells.old }
    requires some { 0 < n }
    requires few { n ≤ cells_of_a_place }
    ensures content { cells.new
        ≡ emptied cells.old (cells_of_a_place * p) (number + (cells_of_a_place + 1) - n) (n - 1) }
{
    if n == 1 {
        return;
    }
    let first = (number as usize) + (CELLS_OF_A_PLACE + 1) - n;
    ring::empty_run(cells, CELLS_OF_A_PLACE * p, first, n - 1);
}

// The place p takes number as the highest of the stream, and n numbers come into its window: their cells are emptied.
// The number's own cell is written once: it gets word.
// The others are emptied last on purpose, so that no value has to be kept across the calls that empty them.
pub fn open_window(
    places: &mut [u64],
    cells: &mut [u64],
    p: usize,
    ssrc: u32,
    number: u16,
    n: usize,
    word: u64,
)
    requires ready { Ready places.old cells.old p }
    requires some { 0 < n }
    requires few { n ≤ cells_of_a_place }
    ensures place { places.new ≡ set places.old p (place_word ssrc number) }
    ensures window { cells.new ≡ opened cells.old p number n word }
{
    let at = cell_index(p, number);
    cells[at] = word;
    places[p] = HELD + SSRC_UNIT * (ssrc as u64) + (number as u64);
    empty_others(cells, p, number, n);
}
