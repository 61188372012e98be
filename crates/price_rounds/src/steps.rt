// How far prices of capacity go in their directions.
use integer_grids::IntegerGrid;
use integer_grids::numbers::{Rate, dot, of_amount, plus, times};
use lot_model::Instance;
use price_items::Pricing;
use std::alloc::{AllocError, Global};

// The steps of prices of capacity, which are as long as those of prices of stock, or shorter where a unit takes more of the time of a
// resource: then the directions are as many times longer, and the prices as many times smaller.
#[derive(Debug, Drop)]
pub(crate) struct Steps {
    // By resource the parts of such a step that one takes; None where all steps are as long.
    parts: Option<IntegerGrid>,
    resources: u32,
}

// What a unit takes of a resource on the average over all items that take some; 1 at least.
fn time_of(instance: &Instance, resource: u32) -> i64 {
    let mut sum = 0;
    let mut count = 0;
    for item in 1..instance.items() + 1 {
        for usage in instance.uses(item) {
            if usage.resource == resource && usage.unit > 0 {
                sum = plus(sum, of_amount(usage.unit));
                count = plus(count, 1);
            }
        }
    }
    sum.wrapping_div(count.max(1)).max(1)
}

// Each number is one of another line, moved.
fn go_line(line: &mut [i64], from: &[i64], by: &[i64], rate: Rate) {
    for ((cell, first), slope) in line.iter_mut().zip(from).zip(by) {
        *cell = plus(*first, rate.of(*slope));
    }
}

impl Steps {
    // Steps are of one length but where items are planned by what is on time of them. The error is that memory ran out.
    pub(crate) fn of(
        alloc: Global,
        instance: &Instance,
        pricing: &Pricing,
    ) -> Result<Steps, AllocError> {
        if pricing.late_grouping().is_none() {
            return Ok(Steps {
                parts: None,
                resources: instance.resources(),
            });
        }
        let mut parts = IntegerGrid::zero(alloc, instance.resources(), 1)?;
        for resource in 1..instance.resources() + 1 {
            let time = time_of(instance, resource);
            parts.put(resource, 1, times(time, time));
        }
        Ok(Steps {
            parts: Some(parts),
            resources: instance.resources(),
        })
    }

    // The sum of the products of directions, each in its part of a step.
    pub(crate) fn dot(&self, one: &IntegerGrid, other: &IntegerGrid) -> i128 {
        let Some(parts) = &self.parts else {
            return one.dot(other);
        };
        let mut sum = 0i128;
        for resource in 1..self.resources.saturating_add(1) {
            let product = dot(one.line(resource), other.line(resource));
            let whole = i128::from(parts.get(resource, 1)).max(1);
            sum = sum.saturating_add(product.wrapping_div(whole));
        }
        sum
    }

    // Prices go by such a part of a whole of their directions, each in its part of a step.
    pub(crate) fn go(
        &self,
        to: &mut IntegerGrid,
        from: &IntegerGrid,
        slopes: &IntegerGrid,
        part: i128,
        whole: i128,
    ) {
        let Some(parts) = &self.parts else {
            to.go(from, slopes, Rate::new(part, whole));
            return;
        };
        for resource in 1..self.resources.saturating_add(1) {
            let times = i128::from(parts.get(resource, 1)).max(1);
            let rate = Rate::new(part, whole.saturating_mul(times));
            if let Some(line) = to.line_mut(resource) {
                go_line(line, from.line(resource), slopes.line(resource), rate);
            }
        }
    }
}
