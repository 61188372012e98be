// Laws of what models mean, and of what holds of their instances.
ghost use Rattle.lot_model.specs.Laws.{MeansOneThing, MeansSomething, WrittenOutMeansItself};
ghost use Rattle.lot_model.specs.Views.{IsInstance};

use crate::Instance;

/// No model means two things: a problem is meant exactly where no rule is broken, and of the broken rules the
/// first alone is.
pub fn a_model_means_one_thing()
    ensures { MeansOneThing }
{}

/// Each model means something: a problem, or a first rule that it breaks. So the two calls together say
/// that what a model means is a function of it.
pub fn a_model_means_something()
    ensures { MeansSomething }
{}

/// An instance breaks no rule: it keeps the limits, its names differ, its lines name things once, its components
/// have no backlog cost, its items have ranks along the bill, and no largest total and no weight is past the
/// bound. It computes nothing.
pub fn an_instance_breaks_no_rule(instance: &Instance)
    ensures { IsInstance instance.now }
{
    // What holds of all fields is known where one is read.
    let _ = &instance.periods;
}

/// The problem of an instance, written out as a model, means this problem.
pub fn written_out_means_itself()
    ensures { WrittenOutMeansItself }
{}
