// The check of one request: what is wrong with it, or at which place its stream is held.
#![tactic(auto)]

ghost use Rattle.std.specs.Prelude.{◌≡◌};
ghost use Rattle.request_check.specs.Check.{named, in_window_of, check_of};

use cutting::Request;
use refusal::Refusal;
use ring::CELLS_OF_A_PLACE;

// Whether one of the requests names the stream.
fn is_named(requests: &[Request], ssrc: u32) -> bool
    ensures value { result ≡ named requests.now ssrc }
{
    requests.iter().any(|q| q.ssrc == ssrc)
}

// Whether a range lies in the window that ends with the highest number; an empty one must begin at the highest number.
fn in_window(highest: u16, begin: u16, count: u16) -> bool
    ensures value { result ≡ in_window_of highest begin count }
{
    if count == 0 {
        return begin == highest;
    }
    let back = window::distance(highest, begin);
    if (back as usize) < CELLS_OF_A_PLACE {
        return count - 1 <= back;
    }
    false
}

// Checks the request r, which comes after `earlier` ones: refusals 5, 8, 9.
pub fn check_request(places: &[u64], earlier: &[Request], r: Request) -> Result<usize, Refusal>
    ensures value { result ≡ check_of places.now earlier.now r }
{
    let p = places::find(places, r.ssrc).ok_or(Refusal::NotHeld)?;
    if is_named(earlier, r.ssrc) {
        return Err(Refusal::StreamRepeated);
    }
    if in_window(places::highest_at(places, p), r.begin, r.count) {
        return Ok(p);
    }
    Err(Refusal::BadRange)
}
