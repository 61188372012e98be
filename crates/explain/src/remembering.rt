// A sink that keeps what was printed.

use lot_io::{Sink, SinkFailed};
use std::alloc::Global;
use std::str;

/// A sink that hands on each piece to another one, and keeps those that were put.
///
/// Where memory for a piece is short it is handed on all the same, and nothing is kept from then on.
#[derive(Debug, Drop)]
pub struct Remembering<K> {
    sink: K,
    kept: Vec<u8>,
    is_whole: bool,
}

impl<K: Sink + Drop> Remembering<K> {
    /// The sink before this one, which keeps nothing yet.
    pub fn new(alloc: Global, sink: K) -> Remembering<K> {
        Remembering {
            sink,
            kept: Vec::new(alloc),
            is_whole: true,
        }
    }

    /// What was put, as text; nothing where some of it isn't kept, or it is no text.
    pub fn printed(&self) -> &str {
        if !self.is_whole {
            return "";
        }
        match str::from_utf8(self.kept.as_slice()) {
            Ok(text) => text,
            Err(_) => "",
        }
    }
}

impl<K: Sink> Sink for Remembering<K> {
    ghost shown = { λ r. K.shown r.sink };

    fn put(&mut self, piece: &[u8]) -> Result<(), SinkFailed> {
        self.sink.put(piece)?;
        if self.kept.extend_from_slice(piece).is_err() {
            self.is_whole = false;
        }
        Ok(())
    }
}
