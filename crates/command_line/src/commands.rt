// What the words of a command line ask for.

/// What the words ask for.
#[derive(Clone, Copy, Debug, PartialEq, Eq)]
pub enum Command<'a> {
    /// The program's name and version.
    Name,
    /// To plan a model file.
    Plan {
        /// The names of the files.
        names: Names<'a>,
        /// How the plan is searched.
        search: Search<'a>,
    },
    /// To judge a plan file.
    Judge(TwoNames<'a>),
    /// To check a certificate file.
    Check(Names<'a>),
    /// To write a model of the first version as one of the newest.
    Upgrade(UpgradeNames<'a>),
    /// To bound the cost of all plans of the model in the file of this name.
    Bound(&'a str),
    /// To judge a plan file and to tell of it.
    Report {
        /// The names of the files.
        names: TwoNames<'a>,
        /// What is told, and as which text.
        form: ReportForm,
    },
    /// To write a model that is made from a number.
    Generate {
        /// The number, from which the model's numbers are drawn.
        seed: u64,
        /// How many items the model has, from 1 to `MAX_ITEMS`.
        items: u32,
        /// How many periods the model has, from 1 to `FIRST_VERSION_PERIODS`.
        periods: u32,
        /// The model file, which is written.
        model: &'a str,
    },
    /// To plan two models that are made from this number.
    Demo(u64),
    /// To lay the lots of a plan as times on each resource.
    Schedule(ScheduleNames<'a>),
    /// To check such times.
    CheckSchedule(ScheduleNames<'a>),
    /// To say which supply serves which need.
    Peg(PegNames<'a>),
    /// To complete a table of quantities to a plan.
    Complete(CompleteNames<'a>),
    /// To draw a plan.
    Draw {
        /// The names of the files.
        names: DrawNames<'a>,
        /// The certificate file, which is read, where the page is to say what it proves. Its name is none of the others.
        certificate: Option<&'a str>,
    },
    /// To plan on after the first periods of a plan.
    Replan {
        /// The names of the files.
        names: ReplanNames<'a>,
        /// How many periods stay as they are.
        periods: u32,
        /// The most nodes that the certificate's tree may have, from 1 to `LARGEST_BUDGET`.
        budget: u64,
    },
}

/// How a plan is searched.
#[derive(Clone, Copy, Debug, PartialEq, Eq)]
pub struct Search<'a> {
    /// The most nodes that the certificate's tree may have, from 1 to `LARGEST_BUDGET`.
    pub budget: u64,
    /// The plan file to start from, which is read. It may be the plan file that is written, and is neither the model file
    /// nor the certificate file.
    pub start: Option<&'a str>,
    /// The gap between bound and cost at which the search may end, in hundredths of a percent of the cost, from 0 to
    /// `LARGEST_GAP`.
    pub gap: Option<u32>,
    /// The seconds after which the search may end, from 1 to `LARGEST_SECONDS`.
    pub seconds: Option<u32>,
    /// The newest version that the certificate's text may have, from `OLDEST_CERTIFICATE` to `NEWEST_CERTIFICATE`.
    pub newest: u32,
}

/// What a report tells of a plan, and as which text.
#[derive(Clone, Copy, Debug, PartialEq, Eq)]
pub enum ReportForm {
    /// A summary as one line of JSON.
    Summary,
    /// All of the plan by periods as one line of JSON.
    Full,
    /// The plan as tables for a terminal.
    Tables,
}

/// The names of the files of a plan or of a check, no two of them the same.
#[derive(Clone, Copy, Debug, PartialEq, Eq)]
pub struct Names<'a> {
    /// The model file, which is read.
    pub model: &'a str,
    /// The plan file, which is written, or read by a check.
    pub plan: &'a str,
    /// The certificate file, which is written, or read by a check.
    pub certificate: &'a str,
}

/// The names of the files of a judgement or of a report, which aren't the same.
#[derive(Clone, Copy, Debug, PartialEq, Eq)]
pub struct TwoNames<'a> {
    /// The model file, which is read.
    pub model: &'a str,
    /// The plan file, which is read.
    pub plan: &'a str,
}

/// The names of the files of an upgrade, which aren't the same.
#[derive(Clone, Copy, Debug, PartialEq, Eq)]
pub struct UpgradeNames<'a> {
    /// The model file, which is read.
    pub model: &'a str,
    /// The new file, which is written.
    pub upgraded: &'a str,
}

/// The names of the files of times, no two of them the same.
#[derive(Clone, Copy, Debug, PartialEq, Eq)]
pub struct ScheduleNames<'a> {
    /// The model file, which is read.
    pub model: &'a str,
    /// The plan file, which is read.
    pub plan: &'a str,
    /// The file of times, which is written, or read by a check.
    pub schedule: &'a str,
}

/// The names of the files of pegs, no two of them the same.
#[derive(Clone, Copy, Debug, PartialEq, Eq)]
pub struct PegNames<'a> {
    /// The model file, which is read.
    pub model: &'a str,
    /// The plan file, which is read.
    pub plan: &'a str,
    /// The file of pegs, which is written.
    pub pegs: &'a str,
}

/// The names of the files of a plan that is completed, no two of them the same.
#[derive(Clone, Copy, Debug, PartialEq, Eq)]
pub struct CompleteNames<'a> {
    /// The model file, which is read.
    pub model: &'a str,
    /// The table of quantities, which is read.
    pub quantities: &'a str,
    /// The plan file, which is written.
    pub completed: &'a str,
}

/// The names of the files of a page, no two of them the same.
#[derive(Clone, Copy, Debug, PartialEq, Eq)]
pub struct DrawNames<'a> {
    /// The model file, which is read.
    pub model: &'a str,
    /// The plan file, which is read.
    pub plan: &'a str,
    /// The page, which is written.
    pub page: &'a str,
}

/// The names of the files of a plan that goes on, no two of them the same.
#[derive(Clone, Copy, Debug, PartialEq, Eq)]
pub struct ReplanNames<'a> {
    /// The model file, which is read.
    pub model: &'a str,
    /// The plan file, which is read.
    pub plan: &'a str,
    /// The model file of the later periods, which is written.
    pub next_model: &'a str,
    /// The plan file of the later periods, which is written where there is a plan.
    pub next_plan: &'a str,
    /// The certificate file of the later periods, which is written.
    pub certificate: &'a str,
}

/// What words were read as.
#[derive(Debug, Drop)]
pub enum Reading<'a> {
    /// A command.
    Command(Command<'a>),
    /// No command, with the text that is printed instead: `clap`'s own of help, of the version, or of why it refuses
    /// the words, and `refused words` and a line feed where it takes them.
    Text(String),
}
