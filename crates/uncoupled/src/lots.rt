// The lots and setups of blocks.
ghost use Rattle.std.specs.Prelude.{◌≡◌, ◌≤◌, ◌*◌, ℕ};
ghost use Rattle.lot_sizing.specs.declared.limits.TheConstants.{MAX_PERIODS, MAX_TOTAL};
ghost use Rattle.lot_sizing.specs.Single.{Cover, IsBlock, IsWithinBounds, block_lot, lot_in, period_count, positions, setup_in};
ghost use Rattle.echelon.specs.Views.{single_of_item};
ghost use Rattle.plan_rules.specs.Cells.{table_of};
ghost use Rattle.plan_rules.specs.Rows.{OtherRowsSame};
ghost use Rattle.uncoupled.specs.Rows.{HasItemCells, IsEmptyRow, IsPut};

use echelon::{Block, SingleItem};
use plan_rules::Grid;

// What a block makes.
fn block_lot(single: &SingleItem, needed: &[u32], block: Block) -> u64
    requires within { IsWithinBounds (single_of_item single.now) }
    requires needed { needed.now ≡ positions (single_of_item single.now) }
    requires block { IsBlock (single_of_item single.now) block }
    ensures value { result ≡ block_lot (single_of_item single.now) block }
    ensures small { result ≤ MAX_PERIODS * MAX_TOTAL }
{
    let mut lot = 0u64;
    for place in block.first..block.last + 1 {
        let period = needed[(place - 1) as usize];
        lot += single.net[(period - 1) as usize] as u64;
    }
    lot
}

// Puts the lot and the setup of a block in the row of an item.
fn set_block(
    single: &SingleItem,
    needed: &[u32],
    block: Block,
    item: u32,
    make: &mut Grid,
    setup: &mut Grid,
)
    requires within { IsWithinBounds (single_of_item single.now) }
    requires needed { needed.now ≡ positions (single_of_item single.now) }
    requires block { IsBlock (single_of_item single.now) block }
    requires make { HasItemCells (period_count (single_of_item single.now)) item make.old }
    requires setup { HasItemCells (period_count (single_of_item single.now)) item setup.old }
    requires small { table_of make.old item block.server ≤ MAX_PERIODS * (MAX_PERIODS * MAX_TOTAL) }
    ensures { IsPut (single_of_item single.now) block item make.old setup.old make.new setup.new }
{
    let lot = block_lot(single, needed, block);
    let before = make.get(item, block.server);
    make.set(item, block.server, before + lot);
    setup.set(item, block.server, 1);
}

/// Puts the lots and setups of blocks in the row of an item.
pub fn set_lots(
    single: &SingleItem,
    needed: &[u32],
    blocks: &[Block],
    item: u32,
    make: &mut Grid,
    setup: &mut Grid,
)
    requires within { IsWithinBounds (single_of_item single.now) }
    requires needed { needed.now ≡ positions (single_of_item single.now) }
    requires blocks { Cover (single_of_item single.now) blocks.now }
    requires make { HasItemCells (period_count (single_of_item single.now)) item make.old }
    requires setup { HasItemCells (period_count (single_of_item single.now)) item setup.old }
    requires no_make { IsEmptyRow make.old item }
    requires no_setup { IsEmptyRow setup.old item }
    ensures make { (t : ℕ) → 1 ≤ t → t ≤ period_count (single_of_item single.now)
        → table_of make.new item t ≡ lot_in (single_of_item single.now) blocks.now t }
    ensures setup { (t : ℕ) → 1 ≤ t → t ≤ period_count (single_of_item single.now)
        → table_of setup.new item t ≡ setup_in blocks.now t }
    ensures other_makes { OtherRowsSame make.old make.new item }
    ensures other_setups { OtherRowsSame setup.old setup.new item }
    ensures make_items { make.new.items ≡ make.old.items }
    ensures make_periods { make.new.periods ≡ make.old.periods }
    ensures setup_items { setup.new.items ≡ setup.old.items }
    ensures setup_periods { setup.new.periods ≡ setup.old.periods }
{
    for block in blocks {
        set_block(single, needed, *block, item, make, setup);
    }
}
