// What is proved of a plan's cost, as it is shown.
ghost use Rattle.std.specs.Prelude.{◌≡◌, ◌≤◌, ◌<◌, ◌^◌, ◌++◌, OnOk, string_bytes};
ghost use Rattle.plan_page.specs.Proving.{bound_text, bound_width, gap_text, proof_bar, proof_text, sentence};

use crate::numbers::{Grouped, permille};
use std::alloc::AllocError;

/// What is proved of a plan's cost.
#[derive(Clone, Copy, Debug, PartialEq, Eq)]
pub enum Proved {
    /// Nothing.
    Nothing,
    /// No plan costs less.
    Optimal,
    /// No plan costs less than this amount, in money.
    Bound(u128),
}

// How much of the bar is proved, in pixels.
#[tactic(auto, unfolding(crate::specs::Proving::bound_width))]
fn bound_width(cost: u128, bound: u128) -> u128
    requires { cost < 2 ^ 110 }
    ensures { result ≡ bound_width cost bound }
{
    bound.min(cost) * 800 / cost.max(1)
}

// Adds the bar of a bound below a cost.
#[tactic(auto, unfolding(crate::specs::Proving::proof_bar))]
fn add_proof_bar(text: &mut String, cost: u128, bound: u128) -> Result<(), AllocError>
    requires { cost < 2 ^ 110 }
    ensures { OnOk result (string_bytes text.new ≡ string_bytes text.old ++ proof_bar cost bound) }
{
    let width = bound_width(cost, bound);
    let rest = 800u128.saturating_sub(width);
    let low = Grouped(bound);
    let gap = Grouped(cost.saturating_sub(bound));
    write!(
        text,
        "<svg class=\"bar\" viewBox=\"0 0 800 24\" preserveAspectRatio=\"none\" role=\"img\" aria-label=\"Bound and gap\">\
        <rect class=\"bound\" x=\"0\" y=\"0\" width=\"{width}\" height=\"24\"><title>Proved: {low}</title></rect>\
        <rect class=\"gap\" x=\"{width}\" y=\"0\" width=\"{rest}\" height=\"24\"><title>Gap: {gap}</title></rect></svg>\n"
    )?;
    Ok(())
}

// Adds the sentence of a bound below a cost.
#[tactic(auto, unfolding(crate::specs::Proving::gap_text))]
fn add_gap(text: &mut String, cost: u128, bound: u128) -> Result<(), AllocError>
    requires { cost < 2 ^ 110 }
    ensures { OnOk result (string_bytes text.new ≡ string_bytes text.old ++ gap_text cost bound) }
{
    let least = Grouped(bound);
    let gap = cost.saturating_sub(bound);
    let thousandths = permille(gap, cost);
    let (whole, tenth) = (thousandths / 10, thousandths % 10);
    let (saved, all) = (Grouped(gap), Grouped(cost));
    write!(
        text,
        "<p>No plan costs less than <b>{least}</b>: at most <b>{saved}</b> of {all}, {whole}.{tenth} percent, could be saved.</p>\n"
    )?;
    Ok(())
}

// Adds the sentence of a bound.
#[tactic(auto, unfolding(crate::specs::Proving::sentence))]
fn add_sentence(text: &mut String, cost: u128, bound: u128) -> Result<(), AllocError>
    requires { cost < 2 ^ 110 }
    ensures { OnOk result (string_bytes text.new ≡ string_bytes text.old ++ sentence cost bound) }
{
    if bound < cost {
        return add_gap(text, cost, bound);
    }
    text.push_str("<p>No plan costs less.</p>\n")?;
    Ok(())
}

// Adds what a bound says of a cost.
#[tactic(auto, unfolding(crate::specs::Proving::bound_text))]
fn add_bound(text: &mut String, cost: u128, bound: u128) -> Result<(), AllocError>
    requires { cost < 2 ^ 110 }
    ensures { OnOk result (string_bytes text.new ≡ string_bytes text.old ++ bound_text cost bound) }
{
    text.push_str("<section id=\"proof\"><h2>Proof</h2>\n")?;
    add_sentence(text, cost, bound)?;
    add_proof_bar(text, cost, bound)?;
    text.push_str("</section>\n")?;
    Ok(())
}

/// Adds what is proved of a cost.
#[tactic(auto, unfolding(crate::specs::Proving::proof_text))]
pub fn add_proof(text: &mut String, cost: u128, proved: Proved) -> Result<(), AllocError>
    requires { cost < 2 ^ 110 }
    ensures { OnOk result (string_bytes text.new
        ≡ string_bytes text.old ++ proof_text cost proved) }
{
    match proved {
        Proved::Nothing => Ok(()),
        Proved::Optimal => add_bound(text, cost, cost),
        Proved::Bound(bound) => add_bound(text, cost, bound),
    }
}
