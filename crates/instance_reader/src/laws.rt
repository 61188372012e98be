// Laws of what bytes mean.
ghost use Rattle.instance_reader.specs.Laws.{BytesMeanOneThing, ModelTextsAreRead};

/// No bytes mean two things: a problem is meant exactly where no rule is broken, and of the broken rules the
/// first alone is.
pub fn bytes_mean_one_thing()
    ensures { BytesMeanOneThing }
{}

/// Each text of the problem of an instance means this problem: what `write_model` writes is read again as
/// the same, and so is any other text of the same document.
pub fn model_texts_are_read()
    ensures { ModelTextsAreRead }
{
    lot_model::written_out_means_itself();
}
