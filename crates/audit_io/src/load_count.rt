//! Counts of failed loads.

ghost use Rattle.std.specs.Prelude.{◌≡◌};
ghost use Rattle.audit_io.specs.Loads.{HasLoadCause};

use crate::keeper::LoadError;
use std::marker::Model;

/// The number of failed loads, and the number of these that failed because another process had locked the slots. Loads
/// that end with `Long` or `Memory` are not failures of the store, and are not counted.
#[derive(Drop)]
pub struct LoadCount {
    failed: u64,
    refused: u64,
}

impl Model for LoadCount {
    ghost use Rattle.audit_model.specs.State.{LoadFaults};

    ghost Value = { LoadFaults };

    ghost view = { λ c. record { all = c.failed; taken = c.refused } };
}

impl LoadCount {
    /// Makes two counts of 0.
    pub fn new() -> LoadCount
        ensures { result ≡ record { all = 0; taken = 0 } }
    {
        LoadCount {
            failed: 0,
            refused: 0,
        }
    }

    /// Counts the result of a load, and returns the result unchanged.
    pub fn count(&mut self, loaded: Result<bool, LoadError>) -> Result<bool, LoadError>
        ensures counted { HasLoadCause self.old self.new loaded }
        ensures same { result ≡ loaded }
    {
        match loaded {
            Err(LoadError::Failed) => self.failed = self.failed.saturating_add(1),
            Err(LoadError::Taken) => {
                self.failed = self.failed.saturating_add(1);
                self.refused = self.refused.saturating_add(1);
            }
            Err(LoadError::Long(_)) | Err(LoadError::Memory) | Ok(_) => {}
        }
        loaded
    }
}
