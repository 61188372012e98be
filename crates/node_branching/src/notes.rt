// What rounds of prices came to at nodes, for those below them. Nothing is claimed of it.
use crate::choosing::Choice;
use lin_rows::Bound;
use lot_model::Instance;
use price_leaves::{Average, DualPrices};
use std::alloc::{AllocError, Global};

// The most numbers, of 8 bytes each, that the notes of all open nodes have together: half a gigabyte.
const MOST_NUMBERS: usize = 67_108_864;

// The most grids by item and period that a note has: six of prices, and four of averages.
const GRIDS: usize = 10;

/// What rounds of prices came to at a node.
#[derive(Debug, Drop)]
pub struct Note {
    /// The best prices.
    pub prices: DualPrices,
    /// How often each item is set up in each period, on the average of the rounds.
    pub average: Average,
    /// The setup on which the node is to be branched, where it was chosen.
    pub choice: Option<Choice>,
}

/// Notes by their places, counted from 0. Together they take half a gigabyte at most: where there is no room, a node has no note.
#[derive(Debug, Drop)]
pub struct Notes {
    notes: Vec<Option<Note>>,
    // How many there may be at a time, and how many there are.
    most: usize,
    kept: usize,
}

// How many numbers a note of a model has at most.
fn numbers_of(instance: &Instance) -> usize {
    let items = (instance.items() as usize).saturating_mul(GRIDS);
    let lines = items.saturating_add(instance.resources() as usize);
    lines.saturating_mul(instance.periods() as usize)
}

impl Notes {
    /// Nothing is noted of a model.
    ///
    /// It takes no memory yet.
    pub fn new(alloc: Global, instance: &Instance) -> Notes {
        Notes {
            notes: Vec::new(alloc),
            most: MOST_NUMBERS / numbers_of(instance).max(1),
            kept: 0,
        }
    }

    /// The note of a place, if there is a place and the note wasn't taken out of it.
    ///
    /// It takes no memory.
    pub fn get(&self, place: Option<usize>) -> Option<&Note> {
        let place = place?;
        match self.notes.get(place) {
            Some(found) => found.as_ref(),
            None => None,
        }
    }

    // The note is taken out of its place.
    fn take(&mut self, place: Option<usize>) -> Option<Note> {
        let place = place?;
        let taken = match self.notes.get_mut(place) {
            Some(found) => found.take(),
            None => None,
        };
        if taken.is_some() {
            self.kept = self.kept.saturating_sub(1);
        }
        taken
    }

    // The note once more.
    fn copy(&self, alloc: Global, place: Option<usize>) -> Result<Option<Note>, AllocError> {
        match self.get(place) {
            Some(note) => Ok(Some(Note {
                prices: note.prices.copy(alloc)?,
                average: note.average.copy(alloc)?,
                choice: note.choice,
            })),
            None => Ok(None),
        }
    }

    /// The note of a node for a side of its branch: a copy for the low side, which comes first, and the note itself for
    /// the high one. `path` is that of the side.
    ///
    /// The error is that memory ran out.
    pub fn hand_down(
        &mut self,
        alloc: Global,
        place: Option<usize>,
        path: &[Bound],
    ) -> Result<Option<Note>, AllocError> {
        match path.last() {
            Some(bound) if !bound.most => Ok(self.take(place)),
            _ => self.copy(alloc, place),
        }
    }

    /// Remembers a note, and gives its place; None where there are as many as may be. A node without a note begins with the first
    /// prices.
    ///
    /// The error is that memory ran out.
    pub fn put(&mut self, note: Note) -> Result<Option<usize>, AllocError> {
        if self.kept >= self.most {
            return Ok(None);
        }
        let place = self.notes.len();
        self.notes.push(Some(note))?;
        self.kept = self.kept.saturating_add(1);
        Ok(Some(place))
    }
}
