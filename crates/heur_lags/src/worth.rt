// What a plan costs, and by how much it breaks rules.
use crate::shop::{Machine, Product, Shop};
use crate::taking::{arriving, asked};
use integer_grids::IntegerGrid;
use integer_grids::numbers::{at, less, plus, times};

/// What a plan costs, and the penalties of what it breaks, both in money.
#[derive(Clone, Copy, Debug)]
pub(crate) struct Worth {
    pub(crate) cost: i64,
    pub(crate) broken: i64,
}

impl Worth {
    /// What another one costs and breaks is added.
    pub(crate) fn add(&mut self, other: Worth) {
        self.cost = plus(self.cost, other.cost);
        self.broken = plus(self.broken, other.broken);
    }
}

// A lot, with its setup.
fn lot_worth(product: &Product, lot: i64, period: u32) -> Worth {
    let units = times(at(&product.unit, period), lot);
    let cost = if lot > 0 {
        plus(at(&product.setup, period), units)
    } else {
        0
    };
    Worth { cost, broken: 0 }
}

// So much in stock at the end of a period, or owed, where it is below 0.
fn stock_worth(product: &Product, stock: i64, period: u32) -> Worth {
    let held = times(at(&product.hold, period), stock.max(0));
    let wanting = less(0, stock).max(0);
    if product.late {
        Worth {
            cost: plus(held, times(at(&product.owed, period), wanting)),
            broken: 0,
        }
    } else {
        Worth {
            cost: held,
            broken: times(product.penalty, wanting),
        }
    }
}

// So much in stock at the end of the last period.
fn end_worth(product: &Product, stock: i64) -> Worth {
    let wanting = less(product.end_min, stock).max(0);
    let surplus = less(stock, product.end_max).max(0);
    let outside = times(times(product.penalty, 4), plus(wanting, surplus));
    Worth {
        cost: 0,
        broken: outside,
    }
}

/// What an item costs, and by how much it breaks rules.
pub(crate) fn item_worth(shop: &Shop, make: &IntegerGrid, product: &Product) -> Worth {
    let mut worth = Worth { cost: 0, broken: 0 };
    let mut stock = product.opening;
    for period in 1..shop.periods.saturating_add(1) {
        let more = arriving(product, make, period);
        stock = less(plus(stock, more), asked(product, make, period));
        worth.add(lot_worth(product, make.get(product.number, period), period));
        worth.add(stock_worth(product, stock, period));
    }
    worth.add(end_worth(product, stock));
    worth
}

/// By how much so much time in each period is more than there is of a resource.
pub(crate) fn time_worth(used: &[i64], machine: &Machine) -> Worth {
    let mut broken = 0;
    for (taken, time) in used.iter().zip(machine.time.iter()) {
        let over = less(*taken, *time).max(0);
        broken = plus(broken, times(machine.penalty, over));
    }
    Worth { cost: 0, broken }
}
