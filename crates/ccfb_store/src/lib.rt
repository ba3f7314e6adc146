// The calls for C that forget a stream of a store that the caller lends, that read a place of it,
// and that give the oldest number that arrived, of the window of a place.
#![tactic(auto)]

ghost use Rattle.std.specs.Prelude.{◌≡◌, [], ◌∷◌};
ghost use Rattle.places.specs.After.{places_after};
ghost use Rattle.store.specs.Store.{forgotten, place_of};
ghost use Rattle.oldest.specs.Oldest.{oldest_of};
ghost use Rattle.ccfb_calls.specs.Called.{called};
ghost use Rattle.ccfb_store.specs.Places.{forget_called, place_called, oldest_called};

// Forgets a stream. Refusals 4, 5.
#[unsafe(no_mangle)]
pub extern "C" fn ccfb_forget(places: &mut [u64], cells: &[u64], ssrc: u32) -> u8
    ensures after { places_after result places.new
        ≡ forget_called (forgotten places.old cells.now ssrc) }
{
    ccfb_calls::refusal_number(store::forget(places, cells, ssrc))
}

// The stream of place k, from 0, and its highest number. Refusals 4, 5.
#[unsafe(no_mangle)]
pub extern "C" fn ccfb_place(
    places: &[u64],
    cells: &[u64],
    k: usize,
    ssrc: &mut u32,
    highest: &mut u16,
) -> u8
    ensures after { called result (ssrc.new ∷ highest.new ∷ [])
        ≡ place_called (place_of places.now cells.now k)
        (ssrc.old ∷ highest.old ∷ []) }
{
    match store::place(places, cells, k) {
        Ok(stream) => {
            *ssrc = stream.ssrc;
            *highest = stream.highest;
            0
        }
        Err(e) => refusal::number(e),
    }
}

// The oldest number that arrived, of the window of the stream of place k, from 0. Refusals 4, 5.
#[unsafe(no_mangle)]
pub extern "C" fn ccfb_oldest(places: &[u64], cells: &[u64], k: usize, oldest: &mut u16) -> u8
    ensures after { called result (oldest.new ∷ [])
        ≡ oldest_called (oldest_of places.now cells.now k)
        (oldest.old ∷ []) }
{
    match oldest::oldest(places, cells, k) {
        Ok(n) => {
            *oldest = n;
            0
        }
        Err(e) => refusal::number(e),
    }
}
