// Sequence numbers modulo 65536, and how one moves the window of its stream.
#![tactic(auto)]

ghost use Rattle.std.specs.Prelude.{◌≡◌, min};
ghost use Rattle.window.specs.Number.{distance_of, move_of};
ghost use Rattle.ring.specs.Ring.{cells_of_a_place};

use ring::CELLS_OF_A_PLACE;

// The farthest that a number can be ahead of the highest one.
const FARTHEST_AHEAD: u16 = 32767;

// How a number moves a window: so far ahead of its highest number, so far behind it and in the window, or too old.
#[derive(Clone, Copy)]
pub enum Move {
    Ahead(u16),
    Within(u16),
    TooOld,
}

// (a - b) modulo 65536.
pub fn distance(a: u16, b: u16) -> u16
    ensures value { result ≡ distance_of a b }
{
    a.wrapping_sub(b)
}

// How number moves the window that ends with highest.
#[tactic(auto, unfolding(crate::specs::Number::move_of))]
pub fn move_of(highest: u16, number: u16) -> Move
    ensures value { result ≡ move_of highest number }
{
    let f = distance(number, highest);
    if f == 0 {
        return Move::Within(0);
    }
    if f <= FARTHEST_AHEAD {
        return Move::Ahead(f);
    }
    let b = distance(highest, number);
    if (b as usize) < CELLS_OF_A_PLACE {
        return Move::Within(b);
    }
    Move::TooOld
}

// How many numbers are new to a window that moved f numbers ahead.
pub fn newly(f: u16) -> usize
    ensures value { result ≡ min f cells_of_a_place }
{
    (f as usize).min(CELLS_OF_A_PLACE)
}
