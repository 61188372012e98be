use instance_reader::{read_instance, write_model};
use lot_model::Instance;
use std::alloc::Global;
use std::process::Abort;

// The instance of a text.
fn instance(rt: &impl Abort, alloc: Global, text: &str) -> Instance {
    read_instance(alloc, text.as_bytes()).expect(rt, "an instance")
}

// A model of two items over two periods, of which the first has a lead time and bounds of its lots.
const LOTS: &str =
    "version = 2\nperiods = 2\n[[item]]\nname = \"A\"\ndemand = 1\nlead = 1\nmin_lot = 2\nmax_lot = 3\n[[item]]\nname = \"B\"\ndemand = [3, 4]\n";

// The lead times and the bounds of lots of two items.
fn lots_of_two(instance: &Instance) -> Option<[(u32, u64, Option<u64>); 2]> {
    if instance.items() != 2 {
        return None;
    }
    Some([
        (instance.lead(1), instance.min_lot(1), instance.max_lot(1)),
        (instance.lead(2), instance.min_lot(2), instance.max_lot(2)),
    ])
}

#[test]
fn lead_times_and_lots_are_read(rt: HostRuntime) {
    let read = instance(&rt, rt.alloc(), LOTS);
    assert_eq!(rt; lots_of_two(&read), Some([(1, 2, Some(3)), (0, 0, None)]));
}

// A model of the first version with what it needs alone, and what it is in the newest one: each list is written out, and each
// key that may be absent has its default.
const FIRST: &str =
    "version = 1\nperiods = 1\n[[item]]\nname = \"A\"\ndemand = [10]\nsetup_cost = 5\nunit_cost = 2\n";

const FIRST_WRITTEN: &str =
    "version = 2\nperiods = 1\n[[item]]\nname = \"A\"\ndemand = [10]\nunit_cost = [2]\nsetup_cost = [5]\nhold_cost = [0]\nopening = 0\nend_min = 0\nend_max = 0\nlead = 0\nmin_lot = 0\n";

// A model with each key that there is, and what it is written as. What may be left in the end is by default what is there
// before and what is asked for in the end.
const ALL_KEYS: &str =
    "version = 2\nperiods = 2\n[[resource]]\nname = \"m\"\ncapacity = 6\n[[item]]\nname = \"A\"\ndemand = [2, 8]\nunit_cost = 4\nsetup_cost = [10, 11]\nhold_cost = 1\nbacklog_cost = [3, 2]\nopening = 1\nend_min = 2\nlead = 1\nmin_lot = 5\nmax_lot = 9\nneeds = [{ item = \"B\", quantity = 7 }]\nuses = [{ resource = \"m\", setup = 1 }]\n[[item]]\nname = \"B\"\ndemand = 0\nend_max = 3\n";

const ALL_KEYS_WRITTEN: &str =
    "version = 2\nperiods = 2\n[[resource]]\nname = \"m\"\ncapacity = [6, 6]\n[[item]]\nname = \"A\"\ndemand = [2, 8]\nunit_cost = [4, 4]\nsetup_cost = [10, 11]\nhold_cost = [1, 1]\nbacklog_cost = [3, 2]\nopening = 1\nend_min = 2\nend_max = 3\nlead = 1\nmin_lot = 5\nmax_lot = 9\nneeds = [{ item = \"B\", quantity = 7 }]\nuses = [{ resource = \"m\", unit = 0, setup = 1 }]\n[[item]]\nname = \"B\"\ndemand = [0, 0]\nunit_cost = [0, 0]\nsetup_cost = [0, 0]\nhold_cost = [0, 0]\nopening = 0\nend_min = 0\nend_max = 3\nlead = 0\nmin_lot = 0\n";

// What an instance of a text is written as has this table. How `toml` spells it is its own affair.
fn is_written_as(rt: &impl Abort, alloc: Global, text: &str, table: &str) -> bool {
    let written = write_model(alloc, &instance(rt, alloc, text)).expect(rt, "memory");
    let found = toml::table_from_slice(alloc, &written).expect(rt, "a table");
    found == toml::table_from_str(alloc, table).expect(rt, "a table")
}

#[test]
fn models_are_written_in_the_newest_version(rt: HostRuntime) {
    let alloc = rt.alloc();
    for (text, table) in [(FIRST, FIRST_WRITTEN), (ALL_KEYS, ALL_KEYS_WRITTEN)] {
        assert!(rt; is_written_as(&rt, alloc, text, table));
        assert!(rt; is_written_as(&rt, alloc, table, table));
    }
}
