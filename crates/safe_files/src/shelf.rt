// The machine's files, of which each output is written beside its place.
ghost use Rattle.lot_io.specs.Outside.{GrewBy};
ghost use Rattle.lot_io.specs.Real.{shelved};

use crate::outputs::{Added, Begun, Outputs};
use lot_io::{DiskShelf, Shelf, ShelfFault, WriteFailed};
use std::fs::Files;
use std::io::Write;

/// The machine's files. Each output is written to a file beside it, which takes its place before a line is printed; an output
/// that another word of the command line names too is refused.
///
/// It tells nothing of what the files hold. Each count stands still at 2^64 - 1.
#[derive(Drop)]
pub struct SafeShelf<'a, 'b, R, F> {
    files: &'a R,
    outputs: &'a Outputs<'b, F>,
    disk: DiskShelf<&'a R>,
}

impl<'a, 'b, F: Write + Drop, R: Files<File = F>> SafeShelf<'a, 'b, R, F> {
    /// The shelf over these files, which begins these outputs.
    pub fn new(files: &'a R, outputs: &'a Outputs<'b, F>) -> SafeShelf<'a, 'b, R, F> {
        SafeShelf {
            files,
            outputs,
            disk: DiskShelf::new(files),
        }
    }
}

// A count of calls that has grown by one, or stands at its last value.
fn next(count: u64) -> u64
    ensures grown { GrewBy 1 count result }
{
    count.saturating_add(1)
}

impl<'a, 'b, F: Write + Drop, R: Files<File = F>> Shelf for SafeShelf<'a, 'b, R, F> {
    ghost shown = { λ s. shelved s.disk };

    fn fetch(&mut self, name: &str, at: u64, room: &mut [u8]) -> Result<usize, ShelfFault> {
        if self.outputs.settle(self.files) {
            return self.disk.fetch(name, at, room);
        }
        self.disk.faults = next(self.disk.faults);
        Err(ShelfFault::Failed)
    }

    fn start(&mut self, name: &str) -> Result<(), WriteFailed> {
        match self.outputs.begin(self.files, name) {
            Begun::Beside => {
                self.disk.starts = next(self.disk.starts);
                Ok(())
            }
            Begun::Directly => self.disk.start(name),
            Begun::Refused => {
                self.disk.starts = next(self.disk.starts);
                self.disk.write_faults = next(self.disk.write_faults);
                Err(WriteFailed)
            }
        }
    }

    fn append(&mut self, name: &str, piece: &[u8]) -> Result<(), WriteFailed> {
        match self.outputs.add(self.files, name, piece) {
            Added::Beside => {
                self.disk.appends = next(self.disk.appends);
                Ok(())
            }
            Added::Directly => self.disk.append(name, piece),
            Added::Lost => {
                self.disk.appends = next(self.disk.appends);
                self.disk.write_faults = next(self.disk.write_faults);
                Err(WriteFailed)
            }
        }
    }
}
