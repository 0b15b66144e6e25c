//! Names and their first numbers.

ghost use Rattle.hla_base.specs.Limits.{max_attributes};
ghost use Rattle.std.specs.Prelude.{◌≡◌, OnOk, OnErr, IfErr, IfSome, [], ◌∷◌, ◌++◌, ◌<◌, None};
ghost use Rattle.hla_catalogue.specs.Lookup.{number_at};

use hla_base::Fault;
use indexmap::IndexMap;
use std::alloc::Global;
use std::marker::Model;

/// The number of a place.
pub(crate) fn number_of(place: Option<usize>) -> Option<u32>
    requires { IfSome place (λ k. k < max_attributes) }
    ensures { result ≡ number_at place }
{
    match place {
        Some(place) => Some(place as u32 + 1),
        None => None,
    }
}

/// The first number of each name, found without going over all names.
#[derive(Debug, Drop)]
pub(crate) struct FirstNumbers {
    numbers: IndexMap<Vec<u8>, u32>,
}

impl Model for FirstNumbers {
    ghost use Rattle.hla_catalogue.specs.Names.{Numbered, numbers_of_names};

    ghost Value = { Numbered };

    ghost view = { λ n. numbers_of_names n.numbers.entries };
}

impl FirstNumbers {
    ghost use Rattle.hla_catalogue.specs.Names.{number_named, with_number};

    pub(crate) fn new(alloc: Global) -> FirstNumbers
        ensures { result ≡ [] }
    {
        FirstNumbers {
            numbers: IndexMap::new(alloc),
        }
    }

    /// The first number of a name.
    pub(crate) fn get(&self, name: &[u8]) -> Option<u32>
        ensures { result ≡ number_named self.now name.now }
    {
        self.numbers.get(name).copied()
    }

    /// Notes the number of a name, unless the name has one; `OutOfMemory`, and all as it was, where a growth was refused.
    pub(crate) fn note(&mut self, name: Vec<u8>, number: u32) -> Result<(), Fault>
        ensures ok { OnOk result (self.new ≡ with_number self.old name.items number) }
        ensures err { IfErr result (λ e. e ≡ Fault.OutOfMemory) }
        ensures unchanged { OnErr result (self.new ≡ self.old) }
    {
        match self.get(name.as_slice()) {
            Some(_) => Ok(()),
            None => self.add(name, number),
        }
    }

    /// Adds a name that has no number; `OutOfMemory`, and all as it was, where a growth was refused.
    fn add(&mut self, name: Vec<u8>, number: u32) -> Result<(), Fault>
        requires { number_named self.old name.items ≡ None }
        ensures ok { OnOk result (self.new ≡ self.old ++ (name.items, number) ∷ []) }
        ensures err { IfErr result (λ e. e ≡ Fault.OutOfMemory) }
        ensures unchanged { OnErr result (self.new ≡ self.old) }
    {
        let Ok(_) = self.numbers.insert(name, number) else {
            return Err(Fault::OutOfMemory);
        };
        Ok(())
    }
}
