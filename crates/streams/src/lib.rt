// Streams by full number: the meaning of a store without cells and rings. Definitions and theorems alone; the code is that
// of `place_window` and of what stands on it.
#![tactic(auto)]
