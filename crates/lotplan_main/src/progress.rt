// What tells on the error stream how far a search is, and ends it where its time is over. Nothing else is claimed of it.
ghost use Rattle.std.specs.Prelude.{◌≡◌};

use search_plugins::Watch;
use std::io::IsTerminal;
use std::rt::Stderr;
use std::time::{Duration, Instant};
use work_clock::Deadline;

// How long it is silent after a line, in milliseconds: on a terminal, where each line takes the place of the one before, and elsewhere.
const TERMINAL_PACE: u64 = 200;

const FILE_PACE: u64 = 5_000;

// It tells how many nodes of the tree have a leaf, what no plan costs less than, and what the best plan costs.
#[derive(Drop)]
pub(crate) struct Teller {
    rt: HostRuntime,
    to: Stderr,
    // Whether it tells anything.
    is_asked: bool,
    is_terminal: bool,
    // The time at which it ends a search, if it may.
    is_limited: bool,
    until: Deadline,
    // What it was told so far.
    nodes: u64,
    bound: Option<u128>,
    last: Option<Instant>,
}

impl Teller {
    pub(crate) fn new(
        rt: &HostRuntime,
        is_asked: bool,
        is_limited: bool,
        until: Deadline,
    ) -> Teller {
        let to = rt.stderr();
        Teller {
            rt: *rt,
            to,
            is_asked,
            is_terminal: to.is_terminal(),
            is_limited,
            until,
            nodes: 0,
            bound: None,
            last: None,
        }
    }

    // Whether it is time for a line, which is then the last one. Without a clock it is silent.
    fn is_due(&mut self) -> bool
        ensures { self.new.is_limited ≡ self.old.is_limited }
    {
        let Ok(now) = Instant::now(&self.rt) else {
            return false;
        };
        let pace = if self.is_terminal {
            TERMINAL_PACE
        } else {
            FILE_PACE
        };
        let pace = Duration::from_millis(pace);
        let is_due = match self.last {
            Some(last) => now.saturating_duration_since(last) >= pace,
            None => true,
        };
        self.last = if is_due { Some(now) } else { self.last };
        is_due
    }

    // A line, on a terminal in the place of the one before. What can't be written is lost.
    fn tell(&self, is_first: bool, best: Option<u128>) {
        if self.is_terminal && !is_first {
            let _ = self.to.eprint("\x1b[A\r\x1b[K");
        }
        let _ = self.to.eprint(format_args!("nodes {}", self.nodes));
        if let Some(bound) = self.bound {
            let _ = self.to.eprint(format_args!(", bound {}", bound));
        }
        if let Some(best) = best {
            let _ = self.to.eprint(format_args!(", plan {}", best));
        }
        match tenths_of_percent(self.bound, best) {
            Some(tenths) => {
                let _ = self
                    .to
                    .eprintln(format_args!(", {}.{} percent", tenths / 10, tenths % 10));
            }
            None => {
                let _ = self.to.eprintln("");
            }
        }
    }
}

// What of the best plan's cost lies above the bound, in tenths of a percent, where that is counted.
fn tenths_of_percent(bound: Option<u128>, best: Option<u128>) -> Option<u128> {
    let best = best?;
    let above = best.checked_sub(bound?)?;
    above.checked_mul(1_000)?.checked_div(best)
}

impl Watch for Teller {
    ghost may_stop = { λ t. t.is_limited };

    fn node(&mut self, depth: usize, says: Option<u128>, best: Option<u128>) {
        if !self.is_asked {
            return;
        }
        self.nodes = self.nodes.saturating_add(1);
        self.bound = if depth == 0 { says } else { self.bound };
        let is_first = self.last.is_none();
        if self.is_due() {
            self.tell(is_first, best);
        }
    }

    fn pass(&mut self, bound: Option<u128>, _best: Option<u128>) {
        self.bound = bound;
    }

    // Without a clock no time is over.
    fn stops(&mut self) -> bool {
        self.is_limited && self.until.is_past()
    }
}
