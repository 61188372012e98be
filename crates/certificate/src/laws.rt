// Laws of what texts mean, and of shapes.
ghost use Rattle.certificate.specs.Laws.{ShapesAreCounted, ShapesAreSame, TextsMeanOneThing};

/// No text means two things: the shape of one certificate, or one fault where memory isn't the cause.
pub fn texts_mean_one_thing()
    ensures { TextsMeanOneThing }
{}

/// Certificates are the same exactly where their shapes are.
pub fn shapes_are_same()
    ensures { ShapesAreSame }
{}

/// A tree and its shape have the same numbers of nodes and of branches on a path.
pub fn shapes_are_counted()
    ensures { ShapesAreCounted }
{}
