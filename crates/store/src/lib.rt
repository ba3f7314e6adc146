// What is asked of a store besides arrivals: to forget a stream, and which stream a place holds.
#![tactic(auto)]

ghost use Rattle.std.specs.Prelude.{◌≡◌};
ghost use Rattle.places.specs.After.{places_after};
ghost use Rattle.store.specs.Store.{forgotten, place_of};

use places::Stream;
use refusal::Refusal;

// Forgets a stream, and frees its place: refusals 4, 5.
pub fn forget(places: &mut [u64], cells: &[u64], ssrc: u32) -> Result<(), Refusal>
    ensures after { places_after result places.new ≡ forgotten places.old cells.now ssrc }
{
    if !places::is_shaped(places, cells) {
        return Err(Refusal::BadStore);
    }
    let p = places::find(places, ssrc).ok_or(Refusal::NotHeld)?;
    places[p] = 0;
    Ok(())
}

// Which stream and highest number the place k holds, from 0: refusals 4, 5.
pub fn place(places: &[u64], cells: &[u64], k: usize) -> Result<Stream, Refusal>
    ensures value { result ≡ place_of places.now cells.now k }
{
    if !places::is_shaped(places, cells) {
        return Err(Refusal::BadStore);
    }
    if places.len() <= k {
        return Err(Refusal::NotHeld);
    }
    places::read_place(places[k]).ok_or(Refusal::NotHeld)
}
