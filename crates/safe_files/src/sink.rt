// The output of a run that writes files.
ghost use Rattle.lot_io.specs.Outside.{GrewBy};
ghost use Rattle.lot_io.specs.Real.{printed};

use crate::outputs::Outputs;
use lot_io::{Sink, SinkFailed, StdSink};
use std::fs::Files;
use std::io::Write;

/// Standard output, or any other writer. Before each piece all outputs are put in their places; where one can't be put there,
/// nothing is printed.
///
/// It tells nothing of what was put. Each count stands still at 2^64 - 1.
#[derive(Drop)]
pub struct SafeSink<'a, 'b, R, F, W> {
    files: &'a R,
    outputs: &'a Outputs<'b, F>,
    sink: StdSink<W>,
}

impl<'a, 'b, F: Write + Drop, R: Files<File = F>, W: Write + Drop> SafeSink<'a, 'b, R, F, W> {
    /// The sink over this writer, for these outputs.
    pub fn new(files: &'a R, outputs: &'a Outputs<'b, F>, out: W) -> SafeSink<'a, 'b, R, F, W> {
        SafeSink {
            files,
            outputs,
            sink: StdSink::new(out),
        }
    }
}

// A count of calls that has grown by one, or stands at its last value.
fn next(count: u64) -> u64
    ensures grown { GrewBy 1 count result }
{
    count.saturating_add(1)
}

impl<'a, 'b, F: Write + Drop, R: Files<File = F>, W: Write> Sink for SafeSink<'a, 'b, R, F, W> {
    ghost shown = { λ s. printed s.sink };

    fn put(&mut self, piece: &[u8]) -> Result<(), SinkFailed> {
        if self.outputs.settle(self.files) {
            return self.sink.put(piece);
        }
        self.sink.puts = next(self.sink.puts);
        self.sink.faults = next(self.sink.faults);
        Err(SinkFailed)
    }
}
