// What becomes of an arrival, decided before anything is changed: at which place it is entered and which kind of
// arrival it is, or why it is refused.
#![tactic(auto)]

ghost use Rattle.std.specs.Prelude.{◌≡◌, ◌-◌, ◌<◌, length};
ghost use Rattle.places.specs.Place.{find_of};
ghost use Rattle.places.specs.Shape.{Ready};
ghost use Rattle.admission.specs.Decision.{screened, decided_later, decided, Fits, arrival_answer};

use cells::{KINDS, LEAST_FILLED};
use metric::CONGESTED;
use places::{HELD, MOST_PLACES, SSRC_UNIT};
use refusal::Refusal;
use ring::CELLS_OF_A_PLACE;
use window::Move;

// The kinds of accepted arrival: the first of its stream; ahead of the highest number, with how many numbers it passed
// over; late, where its number was not received before; a copy, where it was.
#[derive(Clone, Copy)]
pub enum ArrivalKind {
    First,
    Ahead(u16),
    Late,
    Copy,
}

// How an accepted arrival is entered at a place: as the first of its stream, so far ahead of the highest number, late,
// or as a copy.
#[derive(Clone, Copy)]
pub enum Entry {
    First(usize),
    Ahead(usize, u16),
    Late(usize),
    Copy(usize),
}

// The first tests: refusal 4, by the rule of `places::is_shaped`, and 1. The mark is tested between the number of places
// and the number of cells on purpose: if these two tests follow each other, the compiler joins them, which takes longer.
fn screen(places: &[u64], cells: &[u64], mark: u8) -> Result<(), Refusal>
    ensures value { result ≡ screened places.now cells.now mark }
{
    let n = places.len();
    if n == 0 {
        return Err(Refusal::BadStore);
    }
    if MOST_PLACES < n {
        return Err(Refusal::BadStore);
    }
    let sized = cells.len() == CELLS_OF_A_PLACE * n;
    if CONGESTED < mark {
        if !sized {
            return Err(Refusal::BadStore);
        }
        return Err(Refusal::BadMark);
    }
    if sized {
        return Ok(());
    }
    Err(Refusal::BadStore)
}

// The place that holds the stream. The first place is looked at before the search of the others on purpose: many stores
// have one stream alone, and fewer values have to be kept where the place need not come out of a loop.
fn place_of(places: &[u64], ssrc: u32) -> Option<usize>
    requires some { 0 < length places.now }
    ensures value { result ≡ find_of places.now ssrc }
{
    if places[0] / SSRC_UNIT == HELD / SSRC_UNIT + (ssrc as u64) {
        return Some(0);
    }
    places::find_from(places, ssrc, 1)
}

// A later arrival of the stream that the place p holds.
fn decide_later(places: &[u64], cells: &[u64], p: usize, number: u16) -> Result<Entry, Refusal>
    requires ready { Ready places.now cells.now p }
    ensures value { result ≡ decided_later places.now cells.now p number }
{
    let step = window::move_of(places::highest_at(places, p), number);
    match step {
        Move::Ahead(f) => Ok(Entry::Ahead(p, f)),
        Move::Within(_) => {
            if cells[place_window::cell_index(p, number)] % KINDS < LEAST_FILLED {
                Ok(Entry::Late(p))
            } else {
                Ok(Entry::Copy(p))
            }
        }
        Move::TooOld => Err(Refusal::TooOld),
    }
}

// An arrival: refusals 4, 1; 3 if the stream is held, else 2.
pub fn decide(
    places: &[u64],
    cells: &[u64],
    ssrc: u32,
    number: u16,
    mark: u8,
) -> Result<Entry, Refusal>
    ensures value { result ≡ decided places.now cells.now ssrc number mark }
    ensures fits { Fits places.now cells.now mark result }
{
    screen(places, cells, mark)?;
    if let Some(p) = place_of(places, ssrc) {
        return decide_later(places, cells, p, number);
    }
    let p = places::first_free(places).ok_or(Refusal::NoFreePlace)?;
    Ok(Entry::First(p))
}

// How many numbers an arrival passes over that is f ahead of the highest one.
pub fn passed_over(f: u16) -> u16
    ensures value { result ≡ f - 1 }
{
    f.saturating_sub(1)
}

// The answer to an arrival of which this was decided.
pub fn answer_of(d: Result<Entry, Refusal>) -> Result<ArrivalKind, Refusal>
    ensures value { result ≡ arrival_answer d }
{
    Ok(match d? {
        Entry::First(_) => ArrivalKind::First,
        Entry::Ahead(_, f) => ArrivalKind::Ahead(passed_over(f)),
        Entry::Late(_) => ArrivalKind::Late,
        Entry::Copy(_) => ArrivalKind::Copy,
    })
}
