// Laws about the leaves of a search, each the contract of a function that does nothing.
ghost use Rattle.leaf_growth.specs.Growth.{LeavesGoOn, LeavesStay, SaidGoesOn, SaidStays, SaysSmallAmount};
ghost use Rattle.leaf_growth.specs.Written.{FewLines, MadeIsWritable, TreesHaveLines};

/// A leaf that takes rows by their names says with more cuts, and further down the tree, what it says at a node, and
/// its sums stay as small (`leaves`); so it does whatever the largest totals are (`said`).
pub fn leaves_go_on()
    ensures leaves { LeavesGoOn }
    ensures said { SaidGoesOn }
{}

/// At the same node each leaf says with more cuts what it says without them, and its sums stay as small (`leaves`); so
/// it does whatever the largest totals are (`said`).
pub fn leaves_stay()
    ensures leaves { LeavesStay }
    ensures said { SaidStays }
{}

/// A leaf that takes rows by their names, and whose sums are small, says an amount below 2^127.
pub fn amounts_are_small()
    ensures { SaysSmallAmount }
{}

/// A split tree whose leaves have lines of texts has them too (`trees`). A certificate has a text where its cuts and
/// leaves have lines, its tree is a split tree with short paths, and its claim is a small amount (`shapes`).
pub fn made_is_writable()
    ensures trees { TreesHaveLines }
    ensures shapes { MadeIsWritable }
{}

/// A certificate that has a text and at most `MAX_NODES` nodes has fewer than 2^63 lines.
pub fn few_lines()
    ensures { FewLines }
{}
