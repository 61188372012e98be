// Laws of what lines mean.
ghost use Rattle.cert_lines.specs.Laws.{HeadsHaveNoFeed, HeadsMeanOneThing, LinesHaveNoFeed, LinesMeanOneThing};

/// No line has two values, up to what no byte says.
pub fn lines_mean_one_thing()
    ensures { LinesMeanOneThing }
{}

/// No line after the first three has a line feed in it.
pub fn lines_have_no_feed()
    ensures { LinesHaveNoFeed }
{}

/// None of the first three lines has two values.
pub fn heads_mean_one_thing()
    ensures { HeadsMeanOneThing }
{}

/// None of the first three lines has a line feed in it.
pub fn heads_have_no_feed()
    ensures { HeadsHaveNoFeed }
{}
