//! Takes the payloads of a log up to an offset in the joined records.

ghost use Rattle.std.specs.Prelude.{◌≡◌, None};

use log_frames::FrameSink;
use std::alloc::Global;
use std::marker::Model;

/// A sink that takes payloads up to a number of bytes. It refuses the first frame that goes beyond, and keeps the first
/// bytes of its payload, up to that number.
///
/// With it a log that ends within a record can be cut after its last whole record: the file is cut at the refused frame,
/// and the kept bytes are written again as a frame.
#[derive(Drop)]
pub struct PrefixSink {
    /// The number of bytes that are still to be taken.
    missing: u64,
    /// The first bytes of the refused frame.
    part: Option<Vec<u8>>,
    alloc: Global,
}

impl Model for PrefixSink {
    ghost use Rattle.std.specs.Prelude.{ℕ, List, Option};
    ghost use Rattle.std.specs.Option.{option_map};

    ghost Value = { ℕ × Option (List ℕ) };

    ghost view = { λ s. (s.missing, option_map (λ v. v.items) s.part) };
}

impl PrefixSink {
    /// Creates a sink that takes this number of bytes.
    pub fn new(alloc: Global, length: u64) -> PrefixSink
        ensures { result ≡ (length, None) }
    {
        PrefixSink {
            missing: length,
            part: None,
            alloc,
        }
    }

    /// Returns the number of bytes that are still to be taken.
    pub fn missing(&self) -> u64
        ensures { result ≡ (self.now).0 }
    {
        self.missing
    }

    /// Returns the first bytes of the payload that the sink refused: those that are missing after the payloads before it.
    /// `None` if no payload was refused, or memory ran out.
    pub fn part(&self) -> Option<&[u8]> {
        match &self.part {
            Some(part) => Some(part.as_slice()),
            None => None,
        }
    }
}

impl FrameSink for PrefixSink {
    ghost use Rattle.store_replay.specs.Prefixes.{RefusesLonger, TakesAll};

    ghost takes = { TakesAll };

    ghost refuses = { RefusesLonger };

    /// Takes a payload.
    ///
    /// # Errors
    ///
    /// - if the payload goes beyond the number of bytes.
    fn take(&mut self, payload: &[u8]) -> Result<(), ()> {
        let length = payload.len() as u64;
        if length <= self.missing {
            self.missing -= length;
            return Ok(());
        }
        let (part, _) = payload.split_at(self.missing as usize);
        self.part = match Vec::from_slice(self.alloc, part) {
            Ok(part) => Some(part),
            Err(_) => None,
        };
        Err(())
    }
}
