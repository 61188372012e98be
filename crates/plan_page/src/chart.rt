// Where things stand in a chart, in pixels.
ghost use Rattle.std.specs.Prelude.{◌≡◌, ◌<◌, ◌+◌, ◌^◌};
ghost use Rattle.plan_page.specs.Charts.{chart_of, foot, gutter_of, hanging, left_of, level, middle_of, scaled, stacked, step_of, width_of};

/// Where the plot begins; above it stand the shares.
pub const TOP: u32 = 24;
/// How high the largest number of a chart is drawn.
pub const PLOT: u32 = 120;
/// Where the axis of periods stands.
pub const AXIS: u32 = 144;
/// The room below the axis where a chart has backlogs.
pub const DEPTH: u32 = 40;
/// The room for the numbers of the periods.
pub const FOOT: u32 = 24;

/// The measures of a chart, in pixels, and the number that is drawn as high as the plot.
#[derive(Clone, Copy)]
pub struct Chart {
    /// The width left of the first period.
    pub gutter: u32,
    /// The width of a period.
    pub step: u32,
    /// The room below the axis.
    pub depth: u32,
    /// The number of periods.
    pub periods: u32,
    /// The number that is drawn as high as the plot.
    pub most: u64,
}

/// A rectangle: its left and upper edge, and its size.
#[derive(Clone, Copy)]
pub struct Bar {
    pub x: u128,
    pub y: u128,
    pub width: u128,
    pub height: u128,
}

// The width of a period: the more periods, the narrower.
#[tactic(auto, unfolding(crate::specs::Charts::step_of))]
fn step_of(periods: u32) -> u32
    ensures { result ≡ step_of periods }
{
    (864 / periods.max(1)).min(96).max(28)
}

// The width for the largest number.
#[tactic(auto, unfolding(crate::specs::Charts::gutter_of))]
fn gutter_of(most: u64) -> u32
    ensures { result ≡ gutter_of most }
{
    if most < 10_000 {
        44
    } else if most < 10_000_000 {
        68
    } else {
        116
    }
}

/// The chart of so many periods in which no number is larger than the peak.
#[tactic(auto, unfolding(crate::specs::Charts::chart_of, crate::specs::Charts::most_of))]
pub fn chart_of(periods: u32, depth: u32, peak: u128) -> Chart
    ensures { result ≡ chart_of periods depth peak }
{
    let most = peak.max(1).min(u64::MAX as u128) as u64;
    Chart {
        gutter: gutter_of(most),
        step: step_of(periods),
        depth,
        periods,
        most,
    }
}

/// How high a number is drawn: 0 is, and no other, and none is higher than the plot.
#[tactic(auto, unfolding(crate::specs::Charts::scaled))]
pub fn scaled(chart: Chart, value: u128) -> u128
    ensures { result ≡ scaled chart value }
{
    let most = (chart.most as u128).max(1);
    (value.min(most) * PLOT as u128).div_ceil(most)
}

/// Where a number stands above the axis.
#[tactic(auto, unfolding(crate::specs::Charts::level))]
pub fn level(chart: Chart, value: u128) -> u128
    ensures { result ≡ level chart value }
{
    (AXIS as u128).saturating_sub(scaled(chart, value))
}

/// The left edge of a period.
#[tactic(auto, unfolding(crate::specs::Charts::left_of))]
pub fn left_of(chart: Chart, period: u32) -> u128
    ensures value { result ≡ left_of chart period }
    ensures small { result < 2 ^ 72 }
{
    chart.gutter as u128 + period.saturating_sub(1) as u128 * chart.step as u128
}

/// The middle of a period.
#[tactic(auto, unfolding(crate::specs::Charts::middle_of))]
pub fn middle_of(chart: Chart, period: u32) -> u128
    ensures { result ≡ middle_of chart period }
{
    left_of(chart, period) + chart.step as u128 / 2
}

/// The right edge of a period.
#[tactic(auto, unfolding(crate::specs::Charts::left_of))]
pub fn right_of(chart: Chart, period: u32) -> u128
    ensures value { result ≡ left_of chart (period + 1) }
    ensures small { result < 2 ^ 72 }
{
    chart.gutter as u128 + period as u128 * chart.step as u128
}

/// The width of a chart.
#[tactic(auto, unfolding(crate::specs::Charts::width_of))]
pub fn width_of(chart: Chart) -> u128
    ensures { result ≡ width_of chart }
{
    right_of(chart, chart.periods) + 8
}

/// Where the plot and the room below it end.
#[tactic(auto, unfolding(crate::specs::Charts::foot))]
pub fn foot(chart: Chart) -> u128
    ensures value { result ≡ foot chart }
    ensures small { result < 2 ^ 40 }
{
    AXIS as u128 + chart.depth as u128
}

/// The bar from one number up to another, above the axis, so far from the edges of its period.
#[tactic(auto, unfolding(crate::specs::Charts::stacked))]
pub fn stacked(chart: Chart, period: u32, inset: u32, before: u128, after: u128) -> Bar
    ensures { result ≡ stacked chart period inset before after }
{
    Bar {
        x: left_of(chart, period) + inset as u128,
        y: level(chart, after),
        width: (chart.step as u128).saturating_sub(2 * inset as u128),
        height: scaled(chart, after).saturating_sub(scaled(chart, before)),
    }
}

/// The bar of a number that hangs from the axis.
#[tactic(auto, unfolding(crate::specs::Charts::hanging))]
pub fn hanging(chart: Chart, period: u32, inset: u32, value: u128) -> Bar
    ensures { result ≡ hanging chart period inset value }
{
    Bar {
        x: left_of(chart, period) + inset as u128,
        y: AXIS as u128,
        width: (chart.step as u128).saturating_sub(2 * inset as u128),
        height: scaled(chart, value),
    }
}
