// The commands that the texts of arguments give, where the names and numbers are in order.
ghost use Rattle.std.specs.Prelude.{◌≡◌, option_map};
ghost use Rattle.command_line.specs.Meant.{request_by, search_by};
ghost use Rattle.command_line.specs.Words.{bounding_from, budget_from, checking_from, completing_from, demonstrating_from, drawing_from, form_from, gap_from, generated, generating_from, is_set, judging_from, newest_from, pegging_from, planned, planning_from, replanned, replanning_from, reporting_from, schedule_checking_from, scheduling_from, search_from, seconds_from, upgrading_from};

use crate::commands::{
    Command, CompleteNames, DrawNames, Names, PegNames, ReplanNames, ReportForm, ScheduleNames,
    Search, TwoNames, UpgradeNames,
};
use crate::conditions::{
    are_file_names, are_five_names, are_four_names, are_two_names, is_file_name, is_start_name,
    read_gap, read_number,
};
use instance_reader::FIRST_VERSION_PERIODS;
use lot_sizing::limits::MAX_ITEMS;

/// The nodes where no number is given.
pub const USUAL_BUDGET: u64 = 1_000;

/// The most nodes that may be asked for.
pub const LARGEST_BUDGET: u64 = 1_000_000;

/// The largest gap that may be asked for, in hundredths of a percent.
pub const LARGEST_GAP: u32 = 10_000;

/// The most seconds that may be asked for.
pub const LARGEST_SECONDS: u64 = 1_000_000;

/// The oldest version that a certificate's text may be asked to keep to: the first in which a part may name a least lot or a late
/// one, so that each model has certificates of it.
pub const OLDEST_CERTIFICATE: u32 = 2;

/// The newest version of certificates' texts, to which they keep where none is given.
pub const NEWEST_CERTIFICATE: u32 = 3;

// The nodes that a plan may use.
fn budget_of(nodes: Option<&str>) -> Option<u64>
    ensures { result ≡ budget_from (option_map (λ s. s.now) nodes.entry) }
{
    match nodes {
        Some(number) => read_number(number, 1, LARGEST_BUDGET),
        None => Some(USUAL_BUDGET),
    }
}

// The gap at which a search may end, if one is given.
fn gap_of(gap: Option<&str>) -> Option<Option<u32>>
    ensures { result ≡ gap_from (option_map (λ s. s.now) gap.entry) }
{
    match gap {
        Some(text) => match read_gap(text) {
            Some(hundredths) => Some(Some(hundredths)),
            None => None,
        },
        None => Some(None),
    }
}

// The seconds after which a search may end, if they are given.
fn seconds_of(seconds: Option<&str>) -> Option<Option<u32>>
    ensures { result ≡ seconds_from (option_map (λ s. s.now) seconds.entry) }
{
    match seconds {
        Some(text) => match read_number(text, 1, LARGEST_SECONDS) {
            Some(number) => Some(Some(number as u32)),
            None => None,
        },
        None => Some(None),
    }
}

// The newest version that the certificate may have.
fn newest_of(certificate: Option<&str>) -> Option<u32>
    ensures { result ≡ newest_from (option_map (λ s. s.now) certificate.entry) }
{
    match certificate {
        Some(text) => match read_number(
            text,
            u64::from(OLDEST_CERTIFICATE),
            u64::from(NEWEST_CERTIFICATE),
        ) {
            Some(number) => Some(number as u32),
            None => None,
        },
        None => Some(NEWEST_CERTIFICATE),
    }
}

// The texts of the arguments of a plan, where they are given.
#[derive(Clone, Copy)]
pub(crate) struct PlanTexts<'a> {
    pub(crate) model: Option<&'a str>,
    pub(crate) plan: Option<&'a str>,
    pub(crate) certificate: Option<&'a str>,
    pub(crate) nodes: Option<&'a str>,
    pub(crate) start: Option<&'a str>,
    pub(crate) gap: Option<&'a str>,
    pub(crate) seconds: Option<&'a str>,
    pub(crate) version: Option<&'a str>,
}

// How a plan is searched, where the numbers are in order.
fn search_of<'a>(given: PlanTexts<'a>) -> Option<Search<'a>>
    ensures { option_map search_by result
        ≡ search_from (option_map (λ s. s.now) given.entry.nodes)
        (option_map (λ s. s.now) given.entry.start) (option_map (λ s. s.now) given.entry.gap)
        (option_map (λ s. s.now) given.entry.seconds)
        (option_map (λ s. s.now) given.entry.version) }
{
    let budget = budget_of(given.nodes)?;
    let gap = gap_of(given.gap)?;
    let seconds = seconds_of(given.seconds)?;
    let newest = newest_of(given.version)?;
    Some(Search {
        budget,
        start: given.start,
        gap,
        seconds,
        newest,
    })
}

// A plan, where its names are in order.
fn planned<'a>(names: Names<'a>, search: Option<Search<'a>>) -> Option<Command<'a>>
    ensures { option_map request_by result
        ≡ planned names.entry.model.now names.entry.plan.now names.entry.certificate.now
        (option_map search_by search.entry) }
{
    let search = search?;
    if !is_start_name(names.model, names.certificate, search.start)
        || !are_file_names(names.model, names.plan, names.certificate)
    {
        return None;
    }
    Some(Command::Plan { names, search })
}

pub(crate) fn plan<'a>(given: PlanTexts<'a>) -> Option<Command<'a>>
    ensures { option_map request_by result
        ≡ planning_from (option_map (λ s. s.now) given.entry.model)
        (option_map (λ s. s.now) given.entry.plan) (option_map (λ s. s.now) given.entry.certificate)
        (search_from (option_map (λ s. s.now) given.entry.nodes)
        (option_map (λ s. s.now) given.entry.start) (option_map (λ s. s.now) given.entry.gap)
        (option_map (λ s. s.now) given.entry.seconds)
        (option_map (λ s. s.now) given.entry.version)) }
{
    let (Some(model), Some(plan), Some(certificate)) = (given.model, given.plan, given.certificate)
    else {
        return None;
    };
    let names = Names {
        model,
        plan,
        certificate,
    };
    planned(names, search_of(given))
}

pub(crate) fn judge<'a>(model: Option<&'a str>, plan: Option<&'a str>) -> Option<Command<'a>>
    ensures { option_map request_by result
        ≡ judging_from (option_map (λ s. s.now) model.entry) (option_map (λ s. s.now) plan.entry) }
{
    match (model, plan) {
        (Some(model), Some(plan)) if are_two_names(model, plan) => Some(Command::Judge(TwoNames {
            model,
            plan,
        })),
        _ => None,
    }
}

pub(crate) fn check<'a>(
    model: Option<&'a str>,
    plan: Option<&'a str>,
    certificate: Option<&'a str>,
) -> Option<Command<'a>>
    ensures { option_map request_by result
        ≡ checking_from (option_map (λ s. s.now) model.entry) (option_map (λ s. s.now) plan.entry)
        (option_map (λ s. s.now) certificate.entry) }
{
    match (model, plan, certificate) {
        (Some(model), Some(plan), Some(certificate)) if are_file_names(model, plan, certificate) =>
            {
                Some(Command::Check(Names {
                    model,
                    plan,
                    certificate,
                }))
            }
        _ => None,
    }
}

// Whether an option without a text is there: its text is then `true`.
fn is_set(flag: Option<&str>) -> bool
    ensures { result ≡ is_set (option_map (λ s. s.now) flag.entry) }
{
    match flag {
        Some(text) => text == "true",
        None => false,
    }
}

// What a report tells, by its two options, of which one is there at most.
fn form_of(full: Option<&str>, table: Option<&str>) -> Option<ReportForm>
    ensures { result ≡ form_from (option_map (λ s. s.now) full.entry)
        (option_map (λ s. s.now) table.entry) }
{
    if is_set(full) {
        if is_set(table) {
            None
        } else {
            Some(ReportForm::Full)
        }
    } else if is_set(table) {
        Some(ReportForm::Tables)
    } else {
        Some(ReportForm::Summary)
    }
}

pub(crate) fn report<'a>(
    model: Option<&'a str>,
    plan: Option<&'a str>,
    full: Option<&'a str>,
    table: Option<&'a str>,
) -> Option<Command<'a>>
    ensures { option_map request_by result
        ≡ reporting_from (option_map (λ s. s.now) model.entry) (option_map (λ s. s.now) plan.entry)
        (option_map (λ s. s.now) full.entry) (option_map (λ s. s.now) table.entry) }
{
    let (Some(model), Some(plan)) = (model, plan) else {
        return None;
    };
    match form_of(full, table) {
        Some(form) if are_two_names(model, plan) => Some(Command::Report {
            names: TwoNames { model, plan },
            form,
        }),
        _ => None,
    }
}

// A model to be drawn, by the texts of its numbers.
fn generated<'a>(seed: &str, items: &str, periods: &str, model: &'a str) -> Option<Command<'a>>
    ensures { option_map request_by result
        ≡ generated seed.now items.now periods.now model.entry.now }
{
    if !is_file_name(model) {
        return None;
    }
    let seed = read_number(seed, 0, u64::MAX)?;
    let items = read_number(items, 1, u64::from(MAX_ITEMS))? as u32;
    let periods = read_number(periods, 1, u64::from(FIRST_VERSION_PERIODS))? as u32;
    Some(Command::Generate {
        seed,
        items,
        periods,
        model,
    })
}

pub(crate) fn generate<'a>(
    seed: Option<&'a str>,
    items: Option<&'a str>,
    periods: Option<&'a str>,
    model: Option<&'a str>,
) -> Option<Command<'a>>
    ensures { option_map request_by result
        ≡ generating_from (option_map (λ s. s.now) seed.entry) (option_map (λ s. s.now) items.entry)
        (option_map (λ s. s.now) periods.entry) (option_map (λ s. s.now) model.entry) }
{
    match (seed, items, periods, model) {
        (Some(seed), Some(items), Some(periods), Some(model)) => {
            generated(seed, items, periods, model)
        }
        _ => None,
    }
}

pub(crate) fn demo<'a>(seed: Option<&'a str>) -> Option<Command<'a>>
    ensures { option_map request_by result
        ≡ demonstrating_from (option_map (λ s. s.now) seed.entry) }
{
    match read_number(seed?, 0, u64::MAX) {
        Some(seed) => Some(Command::Demo(seed)),
        None => None,
    }
}

pub(crate) fn upgrade<'a>(model: Option<&'a str>, upgraded: Option<&'a str>) -> Option<Command<'a>>
    ensures { option_map request_by result
        ≡ upgrading_from (option_map (λ s. s.now) model.entry)
        (option_map (λ s. s.now) upgraded.entry) }
{
    match (model, upgraded) {
        (Some(model), Some(upgraded)) if are_two_names(model, upgraded) => {
            Some(Command::Upgrade(UpgradeNames { model, upgraded }))
        }
        _ => None,
    }
}

pub(crate) fn bound<'a>(model: Option<&'a str>) -> Option<Command<'a>>
    ensures { option_map request_by result ≡ bounding_from (option_map (λ s. s.now) model.entry) }
{
    match model {
        Some(model) if is_file_name(model) => Some(Command::Bound(model)),
        _ => None,
    }
}

pub(crate) fn schedule<'a>(
    model: Option<&'a str>,
    plan: Option<&'a str>,
    schedule: Option<&'a str>,
) -> Option<Command<'a>>
    ensures { option_map request_by result
        ≡ scheduling_from (option_map (λ s. s.now) model.entry) (option_map (λ s. s.now) plan.entry)
        (option_map (λ s. s.now) schedule.entry) }
{
    match (model, plan, schedule) {
        (Some(model), Some(plan), Some(schedule)) if are_file_names(model, plan, schedule) => {
            Some(Command::Schedule(ScheduleNames {
                model,
                plan,
                schedule,
            }))
        }
        _ => None,
    }
}

pub(crate) fn check_schedule<'a>(
    model: Option<&'a str>,
    plan: Option<&'a str>,
    schedule: Option<&'a str>,
) -> Option<Command<'a>>
    ensures { option_map request_by result
        ≡ schedule_checking_from (option_map (λ s. s.now) model.entry)
        (option_map (λ s. s.now) plan.entry) (option_map (λ s. s.now) schedule.entry) }
{
    match (model, plan, schedule) {
        (Some(model), Some(plan), Some(schedule)) if are_file_names(model, plan, schedule) => {
            Some(Command::CheckSchedule(ScheduleNames {
                model,
                plan,
                schedule,
            }))
        }
        _ => None,
    }
}

pub(crate) fn peg<'a>(
    model: Option<&'a str>,
    plan: Option<&'a str>,
    pegs: Option<&'a str>,
) -> Option<Command<'a>>
    ensures { option_map request_by result
        ≡ pegging_from (option_map (λ s. s.now) model.entry) (option_map (λ s. s.now) plan.entry)
        (option_map (λ s. s.now) pegs.entry) }
{
    match (model, plan, pegs) {
        (Some(model), Some(plan), Some(pegs)) if are_file_names(model, plan, pegs) => {
            Some(Command::Peg(PegNames { model, plan, pegs }))
        }
        _ => None,
    }
}

pub(crate) fn complete<'a>(
    model: Option<&'a str>,
    quantities: Option<&'a str>,
    completed: Option<&'a str>,
) -> Option<Command<'a>>
    ensures { option_map request_by result
        ≡ completing_from (option_map (λ s. s.now) model.entry)
        (option_map (λ s. s.now) quantities.entry) (option_map (λ s. s.now) completed.entry) }
{
    match (model, quantities, completed) {
        (Some(model), Some(quantities), Some(completed))
            if are_file_names(model, quantities, completed) => {
            Some(Command::Complete(CompleteNames {
                model,
                quantities,
                completed,
            }))
        }
        _ => None,
    }
}

pub(crate) fn draw<'a>(
    model: Option<&'a str>,
    plan: Option<&'a str>,
    page: Option<&'a str>,
    certificate: Option<&'a str>,
) -> Option<Command<'a>>
    ensures { option_map request_by result
        ≡ drawing_from (option_map (λ s. s.now) model.entry) (option_map (λ s. s.now) plan.entry)
        (option_map (λ s. s.now) page.entry) (option_map (λ s. s.now) certificate.entry) }
{
    let (Some(model), Some(plan), Some(page)) = (model, plan, page) else {
        return None;
    };
    let are_names = match certificate {
        Some(certificate) => are_four_names(model, plan, page, certificate),
        None => are_file_names(model, plan, page),
    };
    if !are_names {
        return None;
    }
    let names = DrawNames { model, plan, page };
    Some(Command::Draw { names, certificate })
}

// A plan that goes on, by the text of its periods and its nodes.
fn replanned<'a>(names: ReplanNames<'a>, periods: &str, nodes: Option<u64>) -> Option<Command<'a>>
    ensures { option_map request_by result
        ≡ replanned names.entry.model.now names.entry.plan.now periods.now
        names.entry.next_model.now names.entry.next_plan.now names.entry.certificate.now nodes }
{
    let budget = nodes?;
    if !are_five_names(
        names.model,
        names.plan,
        names.next_model,
        names.next_plan,
        names.certificate,
    ) {
        return None;
    }
    let periods = read_number(periods, 0, u64::from(u32::MAX))? as u32;
    Some(Command::Replan {
        names,
        periods,
        budget,
    })
}

// The texts of the arguments of a plan that goes on, where they are given.
#[derive(Clone, Copy)]
pub(crate) struct ReplanTexts<'a> {
    pub(crate) model: Option<&'a str>,
    pub(crate) plan: Option<&'a str>,
    pub(crate) periods: Option<&'a str>,
    pub(crate) next_model: Option<&'a str>,
    pub(crate) next_plan: Option<&'a str>,
    pub(crate) certificate: Option<&'a str>,
    pub(crate) nodes: Option<&'a str>,
}

pub(crate) fn replan<'a>(given: ReplanTexts<'a>) -> Option<Command<'a>>
    ensures { option_map request_by result
        ≡ replanning_from (option_map (λ s. s.now) given.entry.model)
        (option_map (λ s. s.now) given.entry.plan) (option_map (λ s. s.now) given.entry.periods)
        (option_map (λ s. s.now) given.entry.next_model)
        (option_map (λ s. s.now) given.entry.next_plan)
        (option_map (λ s. s.now) given.entry.certificate)
        (option_map (λ s. s.now) given.entry.nodes) }
{
    let (Some(model), Some(plan), Some(periods)) = (given.model, given.plan, given.periods) else {
        return None;
    };
    let (Some(next_model), Some(next_plan), Some(certificate)) = (
        given.next_model,
        given.next_plan,
        given.certificate,
    ) else {
        return None;
    };
    let names = ReplanNames {
        model,
        plan,
        next_model,
        next_plan,
        certificate,
    };
    replanned(names, periods, budget_of(given.nodes))
}
