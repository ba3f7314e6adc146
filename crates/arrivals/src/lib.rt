// An arrival: it is decided what becomes of it, and that is carried out.
#![tactic(auto)]

ghost use Rattle.std.specs.Prelude.{◌≡◌, Ok};
ghost use Rattle.places.specs.After.{store_after};
ghost use Rattle.arrivals.specs.Arrivals.{arrived};
ghost use Rattle.admission.specs.Decision.{Fits};
ghost use Rattle.arrivals.specs.Steps.{places_by, cells_by};

use admission::{ArrivalKind, Entry};
use refusal::Refusal;
use ring::CELLS_OF_A_PLACE;

// Enters an accepted arrival with this mark. Word is what its cell holds if it is the first copy.
fn enter(
    places: &mut [u64],
    cells: &mut [u64],
    ssrc: u32,
    number: u16,
    mark: u8,
    word: u64,
    entry: Entry,
)
    requires fits { Fits places.old cells.old mark (Ok entry) }
    ensures places { places.new ≡ places_by places.old ssrc number (Ok entry) }
    ensures cells { cells.new ≡ cells_by cells.old number mark word (Ok entry) }
{
    match entry {
        Entry::First(p) => {
            place_window::open_window(places, cells, p, ssrc, number, CELLS_OF_A_PLACE, word);
        }
        Entry::Ahead(p, f) => {
            place_window::open_window(places, cells, p, ssrc, number, window::newly(f), word);
        }
        Entry::Late(p) => {
            let at = place_window::cell_index(p, number);
            cells[at] = word;
        }
        Entry::Copy(p) => {
            let at = place_window::cell_index(p, number);
            cells[at] = cells::copied_word(cells[at], mark);
        }
    }
}

// Carries out what was decided of an arrival with this mark. Word is what its cell holds if it is the first copy.
pub fn carry_out(
    places: &mut [u64],
    cells: &mut [u64],
    ssrc: u32,
    number: u16,
    mark: u8,
    word: u64,
    d: Result<Entry, Refusal>,
)
    requires fits { Fits places.old cells.old mark d }
    ensures places { places.new ≡ places_by places.old ssrc number d }
    ensures cells { cells.new ≡ cells_by cells.old number mark word d }
{
    if let Ok(entry) = d {
        enter(places, cells, ssrc, number, mark, word, entry);
    }
}

// One arrival: refusals 4, 1; 3 if the stream is held, else 2.
pub fn arrive(
    places: &mut [u64],
    cells: &mut [u64],
    ssrc: u32,
    number: u16,
    mark: u8,
    time: Option<u32>,
) -> Result<ArrivalKind, Refusal>
    ensures after { store_after result places.new cells.new
        ≡ arrived places.old cells.old ssrc number mark time }
{
    // The word is made first and the answer before the store is changed, on purpose: fewer values then have to be kept.
    let word = cells::filled_word(mark, time);
    let d = admission::decide(places, cells, ssrc, number, mark);
    let answer = admission::answer_of(d);
    carry_out(places, cells, ssrc, number, mark, word, d);
    answer
}
