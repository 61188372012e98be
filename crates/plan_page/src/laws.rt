// Laws of what pages show.
ghost use Rattle.plan_page.specs.Laws.{ArePlain, HeightsFit, RowsStand};

/// Names and numbers bring no markup into a page: none of their bytes is `<`, `>`, `&` or a quote.
pub fn shown_texts_are_plain()
    ensures { ArePlain }
{}

/// No number is drawn higher than the plot of its chart, and none but 0 with no height; a larger one is not drawn lower,
/// and the largest is as high as the plot.
pub fn heights_fit()
    ensures { HeightsFit }
{}

/// Each item's row of each period stands in the page, with the demand, the use by other items, the lot, the setup, the
/// stock and the backlog; and each resource's row of each period, with the capacity, the time used and the times of all
/// items.
pub fn rows_stand_in_the_page()
    ensures { RowsStand }
{}
