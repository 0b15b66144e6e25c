//! Where names are declared.

ghost use Rattle.std.specs.Prelude.{◌≡◌, OnOk, OnErr, IfErr, ℕ, List, [], ◌∷◌, ◌++◌, find};
ghost use Rattle.std.specs.Option.{option_map};
ghost use Rattle.hla_catalogue.specs.Groups.{declared_number, name_hash, is_named, is_declaration};

use crate::declared::{Attribute, Parameter};
use crate::lookup::item_numbered;
use hla_base::{ClassNo, Fault, List};
use indexmap::IndexMap;
use std::alloc::Global;
use std::hash::{FoldHasher, Hasher};
use std::marker::Model;

/// What is declared by a name.
pub(crate) trait Named {
    ghost name_of: { Self → List ℕ };

    /// The name.
    fn name(&self) -> &[u8]
        ensures { result.now ≡ name_of self.now };
}

impl Named for Attribute {
    ghost name_of = { λ a. a.name };

    fn name(&self) -> &[u8] {
        self.name.as_slice()
    }
}

impl Named for Parameter {
    ghost name_of = { λ p. p.name };

    fn name(&self) -> &[u8] {
        self.name.as_slice()
    }
}

/// The hash of a name.
#[tactic(auto, unfolding(crate::specs::Groups::name_hash))]
pub(crate) fn name_hash(name: &[u8]) -> u64
    ensures { result ≡ name_hash name.now }
{
    let mut hasher = FoldHasher::default();
    hasher.write(name);
    hasher.finish()
}

/// The class and the number of a declaration.
#[derive(Clone, Copy, Debug)]
pub(crate) struct Declared {
    pub class: ClassNo,
    pub number: u32,
}

/// Whether the item of a number has a name.
fn is_named<X: Named>(items: &[X], number: u32, name: &[u8]) -> bool
    ensures { result ≡ is_named X.name_of items.now number name.now }
{
    match item_numbered(items, number) {
        Some(item) => item.name() == name,
        None => false,
    }
}

/// Whether a declaration is of a name in some classes.
fn is_declaration<X: Named>(
    declared: Declared,
    items: &[X],
    name: &[u8],
    classes: &[ClassNo],
) -> bool
    ensures { result ≡ is_declaration X.name_of items.now name.now classes.now declared }
{
    classes.contains(&declared.class) && is_named(items, declared.number, name)
}

/// The first of the declarations that is of a name in some classes.
fn first_among<X: Named>(
    group: &[Declared],
    items: &[X],
    name: &[u8],
    classes: &[ClassNo],
) -> Option<Declared>
    ensures { result ≡ find (is_declaration X.name_of items.now name.now classes.now) group.now }
{
    group
        .iter()
        .copied()
        .find(|d| is_declaration(*d, items, name, classes))
}

/// The declarations of the names of a hash, in the order of their numbers. Most names are declared once, and few share a hash, so
/// the first stands here and takes no memory of its own.
#[derive(Debug, Drop)]
struct Group {
    first: Declared,
    more: List<Declared>,
}

impl Model for Group {
    ghost use Rattle.std.specs.Prelude.{List, ◌∷◌};
    ghost use Rattle.hla_catalogue.specs.declared.groups.Declared.{Declared};

    ghost Value = { List Declared };

    ghost view = { λ g. g.first ∷ g.more };
}

impl Group {
    /// A single declaration; it takes no memory.
    fn new(alloc: Global, first: Declared) -> Group
        ensures { result ≡ first ∷ [] }
    {
        Group {
            first,
            more: List::new(alloc),
        }
    }

    /// Adds a declaration; `OutOfMemory`, and the declarations as they were, where a growth was refused.
    fn push(&mut self, place: Declared) -> Result<(), Fault>
        ensures ok { OnOk result (self.new ≡ self.old ++ place ∷ []) }
        ensures err { IfErr result (λ e. e ≡ Fault.OutOfMemory) }
        ensures unchanged { OnErr result (self.new ≡ self.old) }
    {
        self.more.push(place)
    }

    /// The number of the first of the declarations that is of a name in some classes.
    fn first_number<X: Named>(&self, items: &[X], name: &[u8], classes: &[ClassNo]) -> Option<u32>
        ensures { result
            ≡ option_map declared_number (find (is_declaration X.name_of items.now name.now
            classes.now) self.now) }
    {
        if is_declaration(self.first, items, name, classes) {
            return Some(self.first.number);
        }
        match first_among(self.more.as_slice(), items, name, classes) {
            Some(declared) => Some(declared.number),
            None => None,
        }
    }
}

/// Where the names of a list of items are declared, in the order of their numbers, found without going over all items. The names
/// stand in the items alone, so an index by their hashes takes no memory for them.
#[derive(Debug, Drop)]
pub(crate) struct Groups {
    groups: IndexMap<u64, Group>,
    alloc: Global,
}

impl Model for Groups {
    ghost use Rattle.hla_catalogue.specs.Groups.{GroupsValue};

    ghost Value = { GroupsValue };

    ghost view = { λ n. n.groups.entries };
}

impl Groups {
    ghost use Rattle.hla_catalogue.specs.Groups.{group_in, IsNoted};

    pub(crate) fn new(alloc: Global) -> Groups
        ensures { result ≡ [] }
    {
        Groups {
            groups: IndexMap::new(alloc),
            alloc,
        }
    }

    /// The number of the first of the declarations that is of a name in some classes.
    pub(crate) fn first_number<X: Named>(
        &self,
        items: &[X],
        name: &[u8],
        classes: &[ClassNo],
    ) -> Option<u32>
        ensures { result
            ≡ option_map declared_number (find (is_declaration X.name_of items.now name.now
            classes.now) (group_in self.now (name_hash name.now))) }
    {
        match self.groups.get(&name_hash(name)) {
            Some(group) => group.first_number(items, name, classes),
            None => None,
        }
    }

    /// Notes one more declaration of a name of a hash; `OutOfMemory`, and all as it was, where a growth was refused.
    pub(crate) fn note(&mut self, hash: u64, place: Declared) -> Result<(), Fault>
        ensures ok { OnOk result (IsNoted self.old self.new hash place) }
        ensures err { IfErr result (λ e. e ≡ Fault.OutOfMemory) }
        ensures unchanged { OnErr result (self.new ≡ self.old) }
    {
        if let Some(group) = self.groups.get_mut(&hash) {
            return group.push(place);
        }
        let group = Group::new(self.alloc, place);
        let Ok(_) = self.groups.insert(hash, group) else {
            return Err(Fault::OutOfMemory);
        };
        Ok(())
    }
}
