// A law of lines that are taken as they are needed.
ghost use Rattle.cert_stream.specs.Laws.{TakenAreBodies};

/// Lines that meet all that is needed after the first three are those of so many cuts, a tree and the end.
pub fn taken_are_bodies()
    ensures { TakenAreBodies }
{}
