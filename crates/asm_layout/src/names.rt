//! Names that have values.
ghost use Rattle.std.specs.Prelude.{◌≡◌};

use indexmap::IndexMap;
use std::alloc::{AllocError, Global};
use std::marker::Model;

/// The names that have a value. Contracts see them as the list of names with their values, in the order
/// in which they got them.
#[derive(Drop)]
pub struct Names {
    values: IndexMap<Vec<u8>, u32>,
}

impl Model for Names {
    ghost use Rattle.asm_layout.specs.Value.{Names as NameValues, names_of};

    ghost Value = { NameValues };

    ghost view = { λ names. names_of names.values.entries };
}

impl Names {
    ghost use Rattle.std.specs.Prelude.{◌≡◌, ◌++◌, ◌∷◌, [], None, OnOk};
    ghost use Rattle.asm_layout.specs.Value.{value_of_name};

    /// No names.
    pub(crate) fn new(alloc: Global) -> Names
        ensures { result ≡ [] }
    {
        Names {
            values: IndexMap::new(alloc),
        }
    }

    /// The value of a name, where it has one.
    pub(crate) fn value(&self, name: &[u8]) -> Option<u32>
        ensures { result ≡ value_of_name name.now self.now }
    {
        self.values.get(name).copied()
    }

    /// Gives a name its value.
    pub(crate) fn add(&mut self, alloc: Global, name: &[u8], value: u32) -> Result<(), AllocError>
        requires { value_of_name name.now self.old ≡ None }
        ensures { OnOk result (self.new ≡ self.old ++ (name.now, value) ∷ []) }
    {
        let name = Vec::from_slice(alloc, name)?;
        self.values.insert(name, value)?;
        Ok(())
    }
}
