//! What a shelf keeps of its reads.
ghost use Rattle.std.specs.Prelude.{◌≡◌, ◌≤◌, [], ◌∷◌, ◌++◌, Some, OnOk, OnErr, string_bytes};
ghost use Rattle.edge_io.specs.Faults.{one_more};
ghost use Rattle.edge_io.specs.Reads.{no_readings, readings_seen};

use std::alloc::{AllocError, Global};

/// The reads of a shelf, and the files that were read, in the order of the reads.
#[derive(Drop)]
pub struct Readings {
    /// The name of each file.
    pub names: Vec<String>,
    /// What each holds.
    pub contents: Vec<Vec<u8>>,
    /// How many reads there were, whatever they answered. It stays at `u64::MAX`.
    pub calls: u64,
    /// How many reads failed. It stays at `u64::MAX`.
    pub faults: u64,
    /// The name of the read that failed last.
    pub failed: Option<String>,
    /// How many reads there were once it had failed, or 0.
    pub failed_call: u64,
}

impl Readings {
    /// No read so far.
    pub fn new(alloc: Global) -> Readings
        ensures { readings_seen result ≡ no_readings }
    {
        Readings {
            names: Vec::new(alloc),
            contents: Vec::new(alloc),
            calls: 0,
            faults: 0,
            failed: None,
            failed_call: 0,
        }
    }

    /// Counts a failure of the last read that was counted, whose name this is.
    pub fn count_failure(&mut self, name: String)
        ensures counted { readings_seen self.new ≡ record (readings_seen self.old) {
          faults = one_more (readings_seen self.old).faults;
          failed = Some (string_bytes name);
          failed_call = (readings_seen self.old).calls;
        } }
        ensures never_falls { self.old.faults ≤ self.new.faults }
    {
        self.faults = self.faults.saturating_add(1);
        self.failed = Some(name);
        self.failed_call = self.calls;
    }

    /// Keeps a file behind the others. Where memory is wanting, all stays as it was.
    pub fn keep(&mut self, name: String, bytes: Vec<u8>) -> Result<(), AllocError>
        ensures ok { OnOk result (readings_seen self.new ≡ record (readings_seen self.old) {
          names = (readings_seen self.old).names ++ string_bytes name ∷ [];
          contents = (readings_seen self.old).contents ++ bytes.items ∷ [];
        }) }
        ensures err { OnErr result (readings_seen self.new ≡ readings_seen self.old) }
    {
        self.names.push(name)?;
        if self.contents.push(bytes).is_err() {
            self.names.pop();
            return Err(AllocError);
        }
        Ok(())
    }
}
