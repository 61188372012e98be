// Laws of tables, each the contract of a function that does nothing.
ghost use Rattle.lot_quantities.specs.Laws.{TablesMeanOneThing, TablesMeanSomething};

/// No records mean two things: quantities and setups are meant exactly where there is no fault, up to what no record
/// says, and of the faults the first alone is.
pub fn tables_mean_one_thing()
    ensures { TablesMeanOneThing }
{}

/// All records mean quantities and setups, or have a fault that isn't out of memory.
pub fn tables_mean_something()
    ensures { TablesMeanSomething }
{}
