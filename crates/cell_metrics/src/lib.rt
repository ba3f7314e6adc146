// The metric of a cell at RTS: of its word, and by its place and number.
#![tactic(auto)]

ghost use Rattle.std.specs.Prelude.{◌≡◌, ◌+◌, ◌*◌, ◌≤◌, length};
ghost use Rattle.metric.specs.Metric.{encode_of};
ghost use Rattle.ring.specs.Ring.{cells_of_a_place};
ghost use Rattle.cells.specs.Cell.{read_cell};
ghost use Rattle.cell_metrics.specs.Metrics.{cell_metric};

use cells::{KINDS, LEAST_FILLED, LEAST_TIMED};
use metric::{NO_TIME, TIMES};

// The metric of a cell's word at RTS.
// Branch-free on purpose: over many cells these branches are unpredictable and cost time.
pub fn metric_of_word(word: u64, rts: u32) -> u16
    ensures value { result ≡ encode_of (read_cell word) rts }
{
    let kind = word % KINDS;
    let time = (word / KINDS % TIMES) as u32;
    let timed = arrival_offset::ato_of_age(arrival_offset::age(rts, time));
    let ato = if kind < LEAST_TIMED { NO_TIME } else { timed };
    let filled = metric::assembled((word % 4) as u8, ato);
    if kind < LEAST_FILLED { 0 } else { filled }
}

// The metric of a number of the window of the place p.
pub fn cell_metric(cells: &[u64], rts: u32, p: usize, number: u16) -> u16
    requires room { cells_of_a_place * p + cells_of_a_place ≤ length cells.now }
    ensures value { result ≡ cell_metric cells.now rts p number }
{
    let at = place_window::cell_index(p, number);
    metric_of_word(cells[at], rts)
}
