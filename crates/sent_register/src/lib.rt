// Registering a sent number: of a stream that a place holds, or the first of a new one. The window of a stream moves as
// that of arrivals does.
#![tactic(auto)]

ghost use Rattle.std.specs.Prelude.{◌≡◌, ◌+◌, ◌*◌, ◌≤◌, length, Ok, Err};
ghost use Rattle.ring.specs.Ring.{cells_of_a_place};
ghost use Rattle.places.specs.Shape.{Ready};
ghost use Rattle.places.specs.After.{store_after};
ghost use Rattle.place_window.specs.Window.{updated, continued};
ghost use Rattle.sent_word.specs.Word.{registered_word};
ghost use Rattle.sent_register.specs.Register.{registered};

use refusal::Refusal;
use ring::CELLS_OF_A_PLACE;
use sent_word::NOT_REPORTED;
use window::Move;

// Registers a number of the window at its cell.
fn enter(cells: &mut [u64], p: usize, number: u16)
    requires room { cells_of_a_place * p + cells_of_a_place ≤ length cells.old }
    ensures content { cells.new ≡ updated registered_word cells.old p number }
{
    let at = place_window::cell_index(p, number);
    cells[at] = sent_word::registered_word(cells[at]);
}

// A later number of the stream that the place p holds.
fn resume(
    places: &mut [u64],
    cells: &mut [u64],
    p: usize,
    ssrc: u32,
    number: u16,
) -> Result<(), Refusal>
    requires ready { Ready places.old cells.old p }
    ensures after { store_after result places.new cells.new
        ≡ continued (Ok tt) Err registered_word places.old cells.old p ssrc number }
{
    match window::move_of(places::highest_at(places, p), number) {
        Move::Ahead(f) => {
            place_window::open_window(
                places,
                cells,
                p,
                ssrc,
                number,
                window::newly(f),
                NOT_REPORTED,
            );
            Ok(())
        }
        Move::Within(_) => {
            enter(cells, p, number);
            Ok(())
        }
        Move::TooOld => Err(Refusal::TooOld),
    }
}

// Registers a sent number: refusals 4; 3 if the stream is held, else 2.
pub fn register(
    places: &mut [u64],
    cells: &mut [u64],
    ssrc: u32,
    number: u16,
) -> Result<(), Refusal>
    ensures after { store_after result places.new cells.new
        ≡ registered places.old cells.old ssrc number }
{
    if !places::is_shaped(places, cells) {
        return Err(Refusal::BadStore);
    }
    if let Some(p) = places::find(places, ssrc) {
        return resume(places, cells, p, ssrc, number);
    }
    let p = places::first_free(places).ok_or(Refusal::NoFreePlace)?;
    place_window::open_window(
        places,
        cells,
        p,
        ssrc,
        number,
        CELLS_OF_A_PLACE,
        NOT_REPORTED,
    );
    Ok(())
}
