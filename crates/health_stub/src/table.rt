//! The statuses of services, each list under a name.
ghost use Rattle.std.specs.Prelude.{◌≡◌, ◌⊎◌, ℕ, List, [], codes, if◌then◌else◌, IfErr, IsErr, OnErr, OnOk, Some, None};
ghost use Rattle.std.specs.Option.{option_copied};
ghost use Rattle.std.specs.Str.{bytes_eq};
ghost use Rattle.ttrpc_proto.specs.declared.error.Error.{Error as AnError};
ghost use Rattle.health_stub.specs.Health.{statuses};

use std::alloc::Global;
use std::collections::BTreeMap;
use ttrpc::proto::Text;
use ttrpc::{Error, Result};

/// The statuses of services: under a name a list of at least one status.
#[derive(Drop)]
pub struct HealthTable {
    pub(crate) alloc: Global,
    names: BTreeMap<String, Vec<i32>>,
}

impl HealthTable {
    /// Returns a table without names. Takes no memory.
    pub fn new(alloc: Global) -> HealthTable
        ensures { (name : List ℕ) → statuses result name ≡ None }
    {
        let names = BTreeMap::new(alloc);
        HealthTable { alloc, names }
    }

    /// Gives a name these statuses, in the place of earlier ones. Refuses a list without a status as `Others`; the only other
    /// error is `NoMemory`. An `Err` changes nothing.
    pub fn set(&mut self, name: &str, list: &[i32]) -> Result<()>
        // The name has this list, and every other name what it had.
        ensures ok { OnOk result ((other : List ℕ) → statuses self.new other
            ≡ (if bytes_eq name.now other then Some list.now else statuses self.old other)) }
        // An empty list is refused; every error is that refusal or want of memory, and changes nothing.
        ensures empty { list.now ≡ [] → IsErr result }
        ensures refused { IfErr result (λ error.
            ((list.now ≡ []) × (error ≡ AnError.Others (codes "a status list must not be empty")))
            ⊎ (error ≡ AnError.NoMemory)) }
        ensures err { OnErr result
            ((other : List ℕ) → statuses self.new other ≡ statuses self.old other) }
    {
        if list.is_empty() {
            let text = Text::from_str(self.alloc, "a status list must not be empty")?;
            return Err(Error::Others(text));
        }
        let list = Vec::from_slice(self.alloc, list)?;
        let name = String::from_str(self.alloc, name)?;
        self.names.insert(name, list)?;
        Ok(())
    }

    /// Returns the statuses of a name, in order, if it is there. Takes no memory.
    pub fn statuses(&self, name: &str) -> Option<&[i32]>
        ensures { option_copied result ≡ statuses self.now name.now }
    {
        Some(self.names.get(name)?.as_slice())
    }
}
