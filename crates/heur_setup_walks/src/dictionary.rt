// The dual simplex in fixed point. Nothing is claimed of what it says.
use integer_grids::numbers::{less, narrow, plus, share, times, wide};
use std::alloc::{AllocError, Global};

/// One in coefficients and right sides: they are counted in parts of it.
pub(crate) const UNIT: i64 = 1_048_576;

const WIDE_UNIT: i128 = UNIT as i128;

// A right side may lack so much, a two hundredth of a unit.
const LACK: i64 = UNIT / 200;

// A coefficient is at least so much where its column enters.
const LEAST_PIVOT: i64 = UNIT / 1_000;

// A lot counts as whole that is so near to a whole number.
const NEAR: i64 = UNIT / 50;

// Most pivots of a program.
const MOST_PIVOTS: u32 = 400;

/// The name of variables that are no lots.
pub(crate) const NO_LOT: usize = usize::MAX;

/// A basic variable by those that aren't, all of them at least 0: its name, its value where they are 0, and their coefficients.
#[derive(Drop)]
pub(crate) struct Line {
    pub(crate) name: usize,
    pub(crate) right: i64,
    pub(crate) terms: Vec<i64>,
}

/// The basic variables, the costs, and the names of the variables that aren't basic.
#[derive(Drop)]
pub(crate) struct Dictionary {
    pub(crate) rows: Vec<Line>,
    pub(crate) costs: Line,
    pub(crate) names: Vec<usize>,
}

impl Line {
    // The same once more.
    fn copy(&self, alloc: Global) -> Result<Line, AllocError> {
        Ok(Line {
            name: self.name,
            right: self.right,
            terms: self.terms.as_slice().to_vec(alloc)?,
        })
    }

    // By how much the variable is above its value, rounded up, or below it, rounded down.
    fn bounded(&self, alloc: Global, up: bool) -> Result<Line, AllocError> {
        let floor = times(self.right.div_euclid(UNIT), UNIT);
        if up {
            return Ok(Line {
                name: NO_LOT,
                right: less(self.right, plus(floor, UNIT)),
                terms: self.terms.as_slice().to_vec(alloc)?,
            });
        }
        let mut terms = Vec::new(alloc);
        for term in self.terms.iter() {
            terms.push(less(0, *term))?;
        }
        Ok(Line {
            name: NO_LOT,
            right: less(floor, self.right),
            terms,
        })
    }

    /// How far the value is from the nearest whole number.
    pub(crate) fn away(&self) -> i64 {
        let part = self.right.rem_euclid(UNIT);
        part.min(less(UNIT, part))
    }

    /// Whether a lot isn't whole.
    pub(crate) fn is_part(&self) -> bool {
        self.name != NO_LOT && self.away() > NEAR
    }
}

// A line solved for the column that enters, which gets the row's name.
#[derive(Drop)]
struct Turned {
    column: usize,
    name: usize,
    line: Line,
}

// The column that may enter, with its cost and its coefficient.
#[derive(Clone, Copy)]
struct Ratio {
    column: usize,
    cost: i64,
    term: i64,
}

impl Ratio {
    // Whether its cost for a unit of the row is less, or the same with a larger coefficient.
    fn is_below(self, other: Option<Ratio>) -> bool {
        match other {
            Some(other) => {
                let own = wide(self.cost, other.term);
                let that = wide(other.cost, self.term);
                own < that || own == that && self.term > other.term
            }
            None => true,
        }
    }
}

// The column that enters: of those that raise the row the one that costs least for that.
fn entering(row: &Line, costs: &Line) -> Option<Ratio> {
    let mut least = None;
    for (column, (term, cost)) in row.terms.iter().zip(&costs.terms).enumerate() {
        let ratio = Ratio {
            column,
            cost: *cost,
            term: *term,
        };
        if ratio.term > LEAST_PIVOT && ratio.is_below(least) {
            least = Some(ratio);
        }
    }
    least
}

// A line solved for a column.
fn solved(alloc: Global, row: &Line, name: usize, ratio: Ratio) -> Result<Turned, AllocError> {
    let head = 0i64.saturating_sub(ratio.term);
    let mut terms = Vec::new(alloc);
    for term in row.terms.iter() {
        terms.push(share(*term, UNIT, head))?;
    }
    if let Some(cell) = terms.get_mut(ratio.column) {
        *cell = share(UNIT, UNIT, ratio.term);
    }
    Ok(Turned {
        column: ratio.column,
        name: row.name,
        line: Line {
            name,
            right: share(row.right, UNIT, head),
            terms,
        },
    })
}

// Adds so many times a list to another one.
fn add_terms(terms: &mut [i64], other: &[i64], factor: i64) {
    for (term, number) in terms.iter_mut().zip(other) {
        *term = term.wrapping_add(factor.wrapping_mul(*number) / UNIT);
    }
}

// Puts a column's line in.
fn put_in(row: &mut Line, turned: &Turned) {
    let Some(cell) = row.terms.get_mut(turned.column) else {
        return;
    };
    let factor = *cell;
    if factor == 0 {
        return;
    }
    *cell = 0;
    let more = narrow(wide(factor, turned.line.right).wrapping_div(WIDE_UNIT));
    row.right = plus(row.right, more);
    add_terms(&mut row.terms, &turned.line.terms, factor);
}

impl Dictionary {
    // The place of the row that lacks most.
    fn leaving(&self) -> Option<usize> {
        let mut least = 0i64.saturating_sub(LACK);
        let mut found = None;
        for (place, row) in self.rows.iter().enumerate() {
            if row.right < least {
                least = row.right;
                found = Some(place);
            }
        }
        found
    }

    // The row of a place solved for the column that enters, if one does.
    fn turned(&self, alloc: Global, place: usize) -> Result<Option<Turned>, AllocError> {
        let Some(row) = self.rows.get(place) else {
            return Ok(None);
        };
        match entering(row, &self.costs) {
            Some(ratio) => {
                let name = self.names.get(ratio.column).copied().unwrap_or(NO_LOT);
                Ok(Some(solved(alloc, row, name, ratio)?))
            }
            None => Ok(None),
        }
    }

    // Puts a column's line into all others, and in its own row's place.
    fn put_all(&mut self, place: usize, turned: Turned) {
        for row in self.rows.iter_mut() {
            put_in(row, &turned);
        }
        put_in(&mut self.costs, &turned);
        if let Some(name) = self.names.get_mut(turned.column) {
            *name = turned.name;
        }
        if let Some(row) = self.rows.get_mut(place) {
            *row = turned.line;
        }
    }

    /// The same once more.
    pub(crate) fn copy(&self, alloc: Global) -> Result<Dictionary, AllocError> {
        let mut rows = Vec::new(alloc);
        for row in self.rows.iter() {
            rows.push(row.copy(alloc)?)?;
        }
        Ok(Dictionary {
            rows,
            costs: self.costs.copy(alloc)?,
            names: self.names.as_slice().to_vec(alloc)?,
        })
    }

    /// The variable of a row is bounded by its value, rounded up or down: at least that, or at most.
    pub(crate) fn bound(
        &mut self,
        alloc: Global,
        place: usize,
        up: bool,
    ) -> Result<(), AllocError> {
        if let Some(row) = self.rows.get(place) {
            let bound = row.bounded(alloc, up)?;
            self.rows.push(bound)?;
        }
        Ok(())
    }

    /// The least cost, if it isn't past this. None too where there is no point, and past so many pivots.
    pub(crate) fn least_cost(
        &mut self,
        alloc: Global,
        most: i64,
    ) -> Result<Option<i64>, AllocError> {
        for _pivot in 0..MOST_PIVOTS {
            if self.costs.right > most {
                return Ok(None);
            }
            let Some(place) = self.leaving() else {
                return Ok(Some(self.costs.right));
            };
            match self.turned(alloc, place)? {
                Some(turned) => self.put_all(place, turned),
                None => return Ok(None),
            }
        }
        Ok(None)
    }
}
