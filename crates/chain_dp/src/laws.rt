//! Laws about chains, each the contract of a function that does nothing.
ghost use Rattle.chain_dp.specs.Stocks.{StocksAreUnused};
ghost use Rattle.chain_dp.specs.Worked.{WorkedChain};

/// A part, of which two go into a product, over two periods: the least cost is 15.
pub fn worked_chain()
    ensures law { WorkedChain }
{}

/// Where opening stock costs at least what the first unit costs that is made in the first period, with all
/// that goes into it and all setups, and all arrives at once, then the least cost is that of a choice
/// without opening stocks.
pub fn stocks_are_unused()
    ensures law { StocksAreUnused }
{}
