// How a cell's 64-bit word stores what arrived, and how the next copy changes it.
#![tactic(auto)]

ghost use Rattle.std.specs.Prelude.{◌≡◌, ◌≤◌};
ghost use Rattle.metric.specs.Metric.{congested};
ghost use Rattle.cells.specs.Cell.{folded_mark, filled_word, copied_word};

// A word has one of 16 kinds: one of LEAST_FILLED or more is filled, one of LEAST_TIMED or more at a known time.
pub const KINDS: u64 = 16;

pub const LEAST_FILLED: u64 = 8;

pub const LEAST_TIMED: u64 = 12;

// The mark of a filled cell after a copy: a row for each mark held, a column for each mark of the copy.
//
//   not-ECT
//   |  ECT(1)
//   |  |  ECT(0)
//   |  |  |  ECN-CE
const MARK_AFTER: [[u8; 4]; 4] = [
    [0, 0, 0, 3], // not-ECT held
    [1, 1, 1, 3], // ECT(1) held
    [2, 2, 2, 3], // ECT(0) held
    [3, 3, 3, 3], // ECN-CE held
];

// The mark of a filled cell after a copy.
pub fn fold_mark(held: u8, copy: u8) -> u8
    requires row { held ≤ congested }
    requires column { copy ≤ congested }
    ensures value { result ≡ folded_mark held copy }
{
    MARK_AFTER[held as usize][copy as usize]
}

// The word of a filled cell.
pub fn filled_word(mark: u8, time: Option<u32>) -> u64
    ensures value { result ≡ filled_word mark time }
{
    match time {
        None => LEAST_FILLED + (mark as u64),
        Some(t) => LEAST_TIMED + (mark as u64) + KINDS * (t as u64),
    }
}

// The word of a filled cell after a copy: its time stays, and its mark is folded.
pub fn copied_word(word: u64, mark: u8) -> u64
    requires sound_mark { mark ≤ congested }
    ensures value { result ≡ copied_word mark word }
{
    word / 4 * 4 + (fold_mark((word % 4) as u8, mark) as u64)
}
