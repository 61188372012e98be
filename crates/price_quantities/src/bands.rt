// Which quantities can have been started by the end of each period.
use crate::numbers::place;
use crate::terms::{Task, Term};
use std::alloc::{AllocError, Global};

// Quantities from one on, before another one.
#[derive(Clone, Copy, Debug, PartialEq, Eq)]
pub(crate) struct Band {
    pub(crate) low: usize,
    pub(crate) end: usize,
}

impl Band {
    // Before the first period nothing has been started.
    pub(crate) fn first() -> Band {
        Band { low: 0, end: 1 }
    }

    // How many quantities there are.
    pub(crate) fn count(self) -> usize {
        self.end.saturating_sub(self.low)
    }

    // How many of them are less than what is asked.
    pub(crate) fn shorts(self, term: Term) -> usize {
        if term.share == 0 {
            return 0;
        }
        place(term.asked).saturating_sub(self.low).min(self.count())
    }

    // Those after a period: no more than can have been started, and no less than must have been, where so many units can be started
    // after it of those that must have been in the end.
    fn next(self, term: Term, width: usize, last: i64, later: i64) -> Band {
        let low = term.need.max(last.saturating_sub(later));
        Band {
            low: self.low.max(place(low)),
            end: self.end.saturating_add(term.lot()).min(width),
        }
    }
}

// How many units can be started in all periods.
fn most_of(task: Task<'_>) -> i64 {
    let mut sum = 0i64;
    for period in 0..task.periods() {
        sum = sum.saturating_add(task.term(period).largest);
    }
    sum
}

// The bands of all periods, that before the first one at the start.
pub(crate) fn write_bands(bands: &mut Vec<Band>, task: Task<'_>) -> Result<(), AllocError> {
    bands.clear();
    let mut band = Band::first();
    bands.push(band)?;
    let last = task.last_need();
    let mut later = most_of(task);
    for period in 0..task.periods() {
        let term = task.term(period);
        later = later.saturating_sub(term.largest);
        band = band.next(term, task.width, last, later);
        bands.push(band)?;
    }
    Ok(())
}

// The band after so many periods.
pub(crate) fn band_at(bands: &[Band], periods: usize) -> Band {
    match bands.get(periods) {
        Some(band) => *band,
        None => Band { low: 0, end: 0 },
    }
}
