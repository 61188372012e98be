// The state of a search: its pool of cuts with their rows, and the incumbent.
use cert_checker::NamedSums;
use certificate::Cut;
use lin_rows::Row;
use plan_rules::Planned;

/// The cuts so far with their rows, which the leaves name, and the best plan so far.
#[derive(Debug, Drop)]
pub(crate) struct Known {
    pub(crate) cuts: Vec<Cut>,
    pub(crate) rows: Vec<Row>,
    pub(crate) best: Option<Planned>,
    /// Sums of rows, by which leaves are judged.
    pub(crate) sums: NamedSums,
}
