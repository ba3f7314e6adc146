// A ring of words, one for each number of a window, in a longer slice of words.
#![tactic(auto)]

ghost use Rattle.std.specs.Prelude.{◌≡◌, ◌+◌, ◌≤◌, length, replicate};
ghost use Rattle.std.proofs.lemmas.List.Edits.{sets};
ghost use Rattle.ring.specs.Ring.{cells_of_a_place, emptied};

// The window of a stream: so many numbers, each with a cell of its own.
pub const CELLS_OF_A_PLACE: usize = 2048;

// Sets count words to 0, starting at start.
// A loop on purpose: it is compiled to one `memset`, while `fill` of a slice writes the last word by itself.
fn clear(words: &mut [u64], start: usize, count: usize)
    requires room { start + count ≤ length words.old }
    ensures content { words.new ≡ sets words.old start (replicate count 0) }
{
    for i in 0..count {
        words[start + i] = 0;
    }
}

// Empties the slots of count numbers starting at first, in the ring that starts at base: one run, or two where the ring
// wraps.
#[tactic(auto, using(crate::proofs::Ring::emptied_run, crate::proofs::Ring::emptied_wrapped))]
pub fn empty_run(words: &mut [u64], base: usize, first: usize, count: usize)
    requires room { base + cells_of_a_place ≤ length words.old }
    requires few { count ≤ cells_of_a_place }
    ensures content { words.new ≡ emptied words.old base first count }
{
    let at = first % CELLS_OF_A_PLACE;
    let room = CELLS_OF_A_PLACE - at;
    if count <= room {
        clear(words, base + at, count);
    } else {
        clear(words, base + at, room);
        clear(words, base, count - room);
    }
}
