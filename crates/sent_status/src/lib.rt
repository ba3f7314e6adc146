// What feedback has said of a sent number.
#![tactic(auto)]

ghost use Rattle.std.specs.Prelude.{◌≡◌, ◌+◌, ◌*◌, ◌≤◌, length};
ghost use Rattle.ring.specs.Ring.{cells_of_a_place};
ghost use Rattle.sent_status.specs.Status.{status_at, status_asked};

use refusal::Refusal;
use ring::CELLS_OF_A_PLACE;
use sent_word::Status;

// What is known of the number that is b behind the highest of the stream at the place p: refusal 37.
fn status_at(cells: &[u64], p: usize, number: u16, b: u16) -> Result<Status, Refusal>
    requires room { cells_of_a_place * p + cells_of_a_place ≤ length cells.now }
    ensures value { result ≡ status_at cells.now p number b }
{
    if CELLS_OF_A_PLACE <= (b as usize) {
        return Err(Refusal::NotRegistered);
    }
    let at = place_window::cell_index(p, number);
    sent_word::read_word(cells[at]).ok_or(Refusal::NotRegistered)
}

// What is known of a sent number: refusals 4, 5, 37.
pub fn status(places: &[u64], cells: &[u64], ssrc: u32, number: u16) -> Result<Status, Refusal>
    ensures value { result ≡ status_asked places.now cells.now ssrc number }
{
    if !places::is_shaped(places, cells) {
        return Err(Refusal::BadStore);
    }
    let p = places::find(places, ssrc).ok_or(Refusal::NotHeld)?;
    let b = window::distance(places::highest_at(places, p), number);
    status_at(cells, p, number, b)
}
