// Numbers by line and period.
use crate::numbers::{Rate, UNIT, add_times, at, dot, less, plus, times, write};
use std::alloc::{AllocError, Global};

/// Numbers by line and period, both counted from 1: a line is an item or a resource. Outside all numbers are 0.
#[derive(Debug, Drop)]
pub struct IntegerGrid {
    // Line after line, each with a number for each period.
    cells: Vec<i64>,
    periods: usize,
}

// So many numbers of a list after so many others, or those that there are.
fn part(list: &[i64], before: usize, count: usize) -> &[i64] {
    let rest = &list[list.len().min(before)..];
    &rest[..rest.len().min(count)]
}

// The same, to be changed.
fn part_mut(list: &mut [i64], before: usize, count: usize) -> &mut [i64] {
    let start = list.len().min(before);
    let rest = &mut list[start..];
    let end = rest.len().min(count);
    &mut rest[..end]
}

impl IntegerGrid {
    /// A grid of so many lines and periods, all 0.
    pub fn zero(alloc: Global, lines: u32, periods: u32) -> Result<IntegerGrid, AllocError> {
        let mut cells = Vec::new(alloc);
        cells.resize((lines as usize).saturating_mul(periods as usize), 0)?;
        Ok(IntegerGrid {
            cells,
            periods: periods as usize,
        })
    }

    /// The same numbers once more.
    pub fn copy(&self, alloc: Global) -> Result<IntegerGrid, AllocError> {
        Ok(IntegerGrid {
            cells: self.cells.as_slice().to_vec(alloc)?,
            periods: self.periods,
        })
    }

    // How many numbers stand before a line.
    fn before(&self, line: u32) -> usize {
        (line as usize).wrapping_sub(1).saturating_mul(self.periods)
    }

    /// The numbers of a line, by period.
    pub fn line(&self, line: u32) -> &[i64] {
        part(&self.cells, self.before(line), self.periods)
    }

    /// The same, to be changed; None where there is no such line.
    pub fn line_mut(&mut self, line: u32) -> Option<&mut [i64]> {
        let before = self.before(line);
        if before >= self.cells.len() {
            return None;
        }
        Some(part_mut(&mut self.cells, before, self.periods))
    }

    /// The number of a line and a period.
    pub fn get(&self, line: u32, period: u32) -> i64 {
        at(self.line(line), period)
    }

    /// A number is written, where there is such a line and period.
    pub fn put(&mut self, line: u32, period: u32, number: i64) {
        if let Some(found) = self.line_mut(line) {
            write(found, period, number);
        }
    }

    /// A line gets so many times another list.
    pub fn add_times(&mut self, line: u32, other: &[i64], factor: i64) {
        if let Some(found) = self.line_mut(line) {
            add_times(found, other, factor);
        }
    }

    /// All numbers are those of another grid of as many lines and periods.
    pub fn take_from(&mut self, other: &IntegerGrid) {
        copy_line(&mut self.cells, &other.cells);
    }

    /// Each number goes towards that of another grid, so much of the way in units of 1/`UNIT`.
    pub fn mix(&mut self, other: &IntegerGrid, weight: i64) {
        mix_line(&mut self.cells, &other.cells, weight);
    }

    /// Each number is that of another grid, and so much of that of a third one.
    pub fn go(&mut self, from: &IntegerGrid, slopes: &IntegerGrid, rate: Rate) {
        go_line(&mut self.cells, &from.cells, &slopes.cells, rate);
    }

    /// All numbers are 0.
    pub fn clear(&mut self) {
        clear(&mut self.cells);
    }

    /// No number stays below 0.
    pub fn cut_at_zero(&mut self) {
        cut_line(&mut self.cells);
    }

    /// The sum of the products of numbers that stand at the same places.
    pub fn dot(&self, other: &IntegerGrid) -> i128 {
        dot(&self.cells, &other.cells)
    }
}

/// Each number is 0.
pub fn clear(line: &mut [i64]) {
    for cell in line.iter_mut() {
        *cell = 0;
    }
}

// The numbers of another line.
fn copy_line(line: &mut [i64], from: &[i64]) {
    for (cell, number) in line.iter_mut().zip(from) {
        *cell = *number;
    }
}

// No number stays below 0.
pub fn cut_line(line: &mut [i64]) {
    for cell in line.iter_mut() {
        *cell = (*cell).max(0);
    }
}

// Each number goes some of the way to another one.
fn mix_line(line: &mut [i64], with: &[i64], weight: i64) {
    for (cell, number) in line.iter_mut().zip(with) {
        *cell = plus(*cell, times(weight, less(*number, *cell)) / UNIT);
    }
}

// Each number is one of another line, moved.
fn go_line(line: &mut [i64], from: &[i64], by: &[i64], rate: Rate) {
    for ((cell, first), slope) in line.iter_mut().zip(from).zip(by) {
        *cell = plus(*first, rate.of(*slope));
    }
}
