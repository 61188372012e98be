// The table of the program's commands: adding one is a row here, a row of `specs/Grammar`, and its request.

// An argument that is known by its place: what usage and matches call it, and what it is.
#[derive(Clone, Copy)]
pub(crate) struct Argument {
    pub(crate) id: &'static str,
    pub(crate) help: &'static str,
}

// An option, which may be there once: what it is called, the text that it takes, if it takes one, and what it is.
#[derive(Clone, Copy)]
pub(crate) struct Choice {
    pub(crate) id: &'static str,
    pub(crate) text: Option<&'static str>,
    pub(crate) help: &'static str,
}

// A command: its name, what it does, what it prints and ends with, its arguments in order, and its options.
#[derive(Clone, Copy)]
pub(crate) struct Row {
    pub(crate) name: &'static str,
    pub(crate) about: &'static str,
    pub(crate) prints: &'static str,
    pub(crate) arguments: &'static [Argument],
    pub(crate) options: &'static [Choice],
}

const MODEL_READ: Argument = Argument {
    id: "M",
    help: "The model file, which is read",
};

const MODEL_WRITTEN: Argument = Argument {
    id: "M",
    help: "The model file, which is written",
};

const MODEL_UPGRADED: Argument = Argument {
    id: "M2",
    help: "The model file, which is written",
};

const PLAN_READ: Argument = Argument {
    id: "P",
    help: "The plan file, which is read",
};

const PLAN_WRITTEN: Argument = Argument {
    id: "P",
    help: "The plan file, which is written",
};

const PLAN_CLAIMED: Argument = Argument {
    id: "P",
    help: "The plan file, which is read where an optimal cost is claimed",
};

const CERTIFICATE_READ: Argument = Argument {
    id: "C",
    help: "The certificate file, which is read",
};

const CERTIFICATE_WRITTEN: Argument = Argument {
    id: "C",
    help: "The certificate file, which is written",
};

const SEED: Argument = Argument {
    id: "N",
    help: "The number that is drawn from, below 2^64",
};

// The limits in the texts of help are literals, as `MAX_ITEMS` and `FIRST_VERSION_PERIODS` have them.
const ITEMS: Argument = Argument {
    id: "ITEMS",
    help: "How many items, 1 to 40",
};

const PERIODS: Argument = Argument {
    id: "PERIODS",
    help: "How many periods, 1 to 60",
};

const SCHEDULE_READ: Argument = Argument {
    id: "S",
    help: "The schedule file, which is read",
};

const SCHEDULE_WRITTEN: Argument = Argument {
    id: "S",
    help: "The schedule file, which is written",
};

const PEGS_WRITTEN: Argument = Argument {
    id: "Q",
    help: "The file of pegs, which is written",
};

const PAGE_WRITTEN: Argument = Argument {
    id: "H",
    help: "The page, which is written",
};

const QUANTITIES_READ: Argument = Argument {
    id: "P",
    help: "The table of quantities, which is read",
};

const PLAN_COMPLETED: Argument = Argument {
    id: "P2",
    help: "The plan file, which is written",
};

const STAYING: Argument = Argument {
    id: "F",
    help: "How many periods stay as they are, from 0 on",
};

const NEXT_MODEL: Argument = Argument {
    id: "M2",
    help: "The model file of the later periods, which is written",
};

const NEXT_PLAN: Argument = Argument {
    id: "P2",
    help: "The plan file of the later periods, which is written where there is a plan",
};

const NEXT_CERTIFICATE: Argument = Argument {
    id: "C",
    help: "The certificate file of the later periods, which is written",
};

// The options of a search.
const SEARCH_OPTIONS: [Choice; 2] = [
    Choice {
        id: "nodes",
        text: Some("N"),
        help: "The most nodes of the certificate's tree, 1 to 1000000 [usually 1000]",
    },
    Choice {
        id: "progress",
        text: None,
        help: "Tells on the error stream how far the search is",
    },
];

// The options of a plan: those of a search, a plan to start from, where the search may end early, and the newest version that the
// certificate may have.
const PLAN_OPTIONS: [Choice; 6] = [
    Choice {
        id: "nodes",
        text: Some("N"),
        help: "The most nodes of the certificate's tree, 1 to 1000000 [usually 1000]",
    },
    Choice {
        id: "progress",
        text: None,
        help: "Tells on the error stream how far the search is",
    },
    Choice {
        id: "start",
        text: Some("P0"),
        help: "A plan file to start from, which is read: what is written costs no more",
    },
    Choice {
        id: "gap",
        text: Some("PERCENT"),
        help: "Lets the search end where the bound is so near the cost, 0 to 100, as 0.5",
    },
    Choice {
        id: "seconds",
        text: Some("S"),
        help: "Lets the search end after so many seconds, 1 to 1000000",
    },
    Choice {
        id: "certificate",
        text: Some("N"),
        help: "The newest version that the certificate may have, 2 or 3 [usually 3]",
    },
];

// The options of a report, of which one is there at most.
const REPORT_OPTIONS: [Choice; 2] = [
    Choice {
        id: "full",
        text: None,
        help: "Prints all of the plan by periods, as one line of JSON",
    },
    Choice {
        id: "table",
        text: None,
        help: "Prints the plan as tables for a terminal",
    },
];

// The option of a page that says what is proved.
const PROOF_OPTIONS: [Choice; 1] = [Choice {
    id: "proof",
    text: Some("C"),
    help: "A certificate file, which is read: the page says what it proves",
}];

// The commands, in the order in which help lists them.
pub(crate) const COMMANDS: [Row; 14] = [
    Row {
        name: "plan",
        about: "Plans a model at the least cost, or proves that it has no plan",
        prints: "Prints the root's line, `nodes N`, and then `optimal N`, `infeasible`, `undecided B plan N` or
`undecided B`, where B is a bound of the cost of every plan and N the cost of the plan that was
written. Ends with 0 where it is optimal, with 1 where there is no plan, and with 2 where it is
undecided. With `--start` the plan file P0 is judged first: where it is no plan or breaks a rule it
prints what `judge` prints, and ends with 3. P0 may be P. With `--certificate 2` the certificate is
of version 2 or below, for checkers that read no other. `lotplan --help` has the other statuses.

Example: lotplan plan model.toml plan.csv plan.cert --start old.csv --gap 0.5 --seconds 60",
        arguments: &[MODEL_READ, PLAN_WRITTEN, CERTIFICATE_WRITTEN],
        options: &PLAN_OPTIONS,
    },
    Row {
        name: "judge",
        about: "Judges a plan by the rules of its model",
        prints: "Prints `feasible N` with the cost of the plan, or the first rule that it breaks. Ends with 0 or
with 3; `lotplan --help` has the other statuses.

Example: lotplan judge model.toml plan.csv",
        arguments: &[MODEL_READ, PLAN_READ],
        options: &[],
    },
    Row {
        name: "check",
        about: "Checks a certificate",
        prints: "Prints `accepted optimal N`, `accepted infeasible` or `accepted bound N`, or the first fault.
Ends with 0 or, at a fault, with 3; `lotplan --help` has the other statuses.

Example: lotplan check model.toml plan.csv plan.cert",
        arguments: &[MODEL_READ, PLAN_CLAIMED, CERTIFICATE_READ],
        options: &[],
    },
    Row {
        name: "report",
        about: "Judges a plan and sums it up",
        prints: "Prints one line of JSON: costs, quantities made and setups by item, time used by resource and
period. With `--full` the line also has capacities and free times, and lots, setups, stocks and
backlogs by period; with `--table` it prints tables of lots, stocks, loads in percent and free times
instead. Only one of the two may be given. Of a plan that breaks a rule it prints that rule. Ends
with 0 or with 3; `lotplan --help` has the other statuses.

Example: lotplan report model.toml plan.csv --table",
        arguments: &[MODEL_READ, PLAN_READ],
        options: &REPORT_OPTIONS,
    },
    Row {
        name: "gen",
        about: "Writes a model that is drawn from a number",
        prints: "The model is of version 1, without lead times and bounds on lots.
Prints `written M`. Ends with 0; `lotplan --help` has the other statuses.

Example: lotplan gen 7 12 24 model.toml",
        arguments: &[SEED, ITEMS, PERIODS, MODEL_WRITTEN],
        options: &[],
    },
    Row {
        name: "demo",
        about: "Plans two models that are drawn from a number, without any file",
        prints: "Prints `free` and `coupled`, each with the three lines that `plan` prints. Ends with 0;
`lotplan --help` has the other statuses.

Example: lotplan demo 7",
        arguments: &[SEED],
        options: &[],
    },
    Row {
        name: "upgrade",
        about: "Writes a model of version 1 anew in the newest version",
        prints: "Prints `written M2`. Ends with 0; `lotplan --help` has the other statuses.

Example: lotplan upgrade old.toml new.toml",
        arguments: &[MODEL_READ, MODEL_UPGRADED],
        options: &[],
    },
    Row {
        name: "bound",
        about: "Bounds the cost of all plans of a model from below",
        prints: "Prints `bound N` by the linear relaxation without cuts and ends with 0, or prints `empty` and ends
with 1 where that has no point, so that there is no plan, or `skipped` or `passed` and ends with 2
where it is too large or its numbers are; `lotplan --help` has the other statuses.

Example: lotplan bound model.toml",
        arguments: &[MODEL_READ],
        options: &[],
    },
    Row {
        name: "schedule",
        about: "Lays the lots of a plan as times on each resource, one after the other",
        prints: "Prints `scheduled N` with the number of slots, or the first rule that the plan breaks. A line of
the schedule file is a slot: resource, period, item, start, end. Ends with 0 or with 3;
`lotplan --help` has the other statuses.

Example: lotplan schedule model.toml plan.csv slots.csv",
        arguments: &[MODEL_READ, PLAN_READ, SCHEDULE_WRITTEN],
        options: &[],
    },
    Row {
        name: "schedcheck",
        about: "Checks times on each resource against the lots of a plan",
        prints: "Prints `accepted schedule`, or the first fault: `slot header`, `slot row N`, `rejected slot 1 row N`
of a slot that has no lot or is there twice, `2` of one that doesn't last as long as its lot, `3` of
one that ends too late, `4` of one that overlaps an earlier one, or `rejected slot 5 resource K
period T item I` of a lot that has none. Of a plan that breaks a rule it prints that rule. Ends with
0 or, at a fault, with 3; `lotplan --help` has the other statuses.

Example: lotplan schedcheck model.toml plan.csv slots.csv",
        arguments: &[MODEL_READ, PLAN_READ, SCHEDULE_READ],
        options: &[],
    },
    Row {
        name: "peg",
        about: "Says which supply of a plan serves which need, first in first out",
        prints: "Prints `pegged N` with the number of pegs, or the first rule that the plan breaks. A line of the
file of pegs is a peg: item, from, to, quantity, where a supply is `opening` or `lot T` and a need
`demand T`, `use NAME T` or `end`. Ends with 0 or with 3; `lotplan --help` has the other statuses.

Example: lotplan peg model.toml plan.csv pegs.csv",
        arguments: &[MODEL_READ, PLAN_READ, PEGS_WRITTEN],
        options: &[],
    },
    Row {
        name: "complete",
        about: "Completes quantities to a plan with the least stocks and backlogs",
        prints: "Reads a table with the columns `item`, `period`, `make` and maybe `setup`, in any order and among any
others, and a row for each item and period as in a plan file; a plan file is one. Without `setup`
there is a setup where something is made. Prints `completed N` with the cost of the plan, or the
first rule that is broken where no plan has these quantities and setups. Ends with 0, or with 3 and
no plan; `lotplan --help` has the other statuses.

Example: lotplan complete model.toml changed.csv plan.csv",
        arguments: &[MODEL_READ, QUANTITIES_READ, PLAN_COMPLETED],
        options: &[],
    },
    Row {
        name: "draw",
        about: "Draws a plan, its loads and what is proved as a page for a browser",
        prints: "Prints `drawn N` with the bytes of the page, or the first rule that the plan breaks. With `--proof` the
certificate is checked first, and its first fault is printed where it isn't accepted. The page is one
HTML file that needs no other. Ends with 0, or with 3 and no page; `lotplan --help` has the other
statuses.

Example: lotplan draw model.toml plan.csv plan.html --proof plan.cert",
        arguments: &[MODEL_READ, PLAN_READ, PAGE_WRITTEN],
        options: &PROOF_OPTIONS,
    },
    Row {
        name: "replan",
        about: "Keeps the first periods of a plan and plans the later ones",
        prints: "Prints the lines of `plan` for the later periods, and then `total N`, what the whole costs at least
with these first periods, or `total floor N`, which it can't cost less than. `infeasible` alone says
that the first periods can't stay as they are. Ends with 0 where it is optimal, with 1 where there is
no plan, with 2 where it is undecided, and with 13 where the later periods make no model;
`lotplan --help` has the other statuses.

Example: lotplan replan model.toml plan.csv 4 later.toml later.csv later.cert",
        arguments: &[
            MODEL_READ,
            PLAN_READ,
            STAYING,
            NEXT_MODEL,
            NEXT_PLAN,
            NEXT_CERTIFICATE,
        ],
        options: &SEARCH_OPTIONS,
    },
];
