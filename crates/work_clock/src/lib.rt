//! When work is to end, for work that isn't a search itself and that may end early with what it has.
//!
//! A `Deadline` is made where the program begins, and handed to what makes plans and prices. Without a time nobody reads a clock.
//!
//! Family: plugins. It stands on no crate; `first_plans`, `heur_setup_lps`, `heur_plugin`, `price_rounds`, `price_plugin` and `lotplan_main` stand on it.
//! Nothing is claimed of what a clock says.
#![tactic(auto)]

use std::time::Instant;

// A clock, when work began by it, and how many milliseconds it may take.
#[derive(Clone, Copy)]
struct Span {
    rt: HostRuntime,
    begun: Instant,
    millis: u64,
}

/// A time at which work is to end, where there is one.
#[derive(Clone, Copy)]
pub struct Deadline {
    span: Option<Span>,
}

impl Deadline {
    /// No time: it never comes, and no clock is read.
    pub fn none() -> Deadline {
        Deadline { span: None }
    }

    /// So many seconds from now; no time where the clock can't be read.
    pub fn after(rt: &HostRuntime, seconds: u32) -> Deadline {
        let Ok(begun) = Instant::now(rt) else {
            return Deadline::none();
        };
        let millis = u64::from(seconds).saturating_mul(1_000);
        Deadline {
            span: Some(Span {
                rt: *rt,
                begun,
                millis,
            }),
        }
    }

    /// The end of the first one of so many equal parts of the time.
    pub fn first_of(&self, parts: u64) -> Deadline {
        match self.span {
            Some(span) => Deadline {
                span: Some(Span {
                    millis: span.millis.checked_div(parts).unwrap_or(span.millis),
                    ..span
                }),
            },
            None => Deadline::none(),
        }
    }

    /// The milliseconds until it comes. None where there is no time, or where the clock can't be read.
    pub fn millis_left(&self) -> Option<u64> {
        let span = self.span?;
        match Instant::now(&span.rt) {
            Ok(now) => {
                let gone = now.saturating_duration_since(span.begun).as_millis();
                let gone = u64::try_from(gone).unwrap_or(u64::MAX);
                Some(span.millis.saturating_sub(gone))
            }
            Err(_) => None,
        }
    }

    /// Whether it has come. This reads the clock once.
    pub fn is_past(&self) -> bool {
        match self.millis_left() {
            Some(left) => left == 0,
            None => false,
        }
    }
}
