//! The registry of objects.

ghost use Rattle.std.specs.Prelude.{◌≡◌, ◌<◌, ◌≤◌, ◌+◌, IfSome, MatchOption, OnOk, OnErr, IfOk, IfErr, true, false, length};
ghost use Rattle.std.specs.Option.{option_map};
ghost use Rattle.std.specs.Map.Iter.{deref_pair};
ghost use Rattle.hla_base.specs.Limits.{max_joins, max_objects};
ghost use Rattle.hla_base.specs.Tables.{upd, upd2};
ghost use Rattle.hla_base.specs.declared.fault.Fault.TheVariants.{OutOfMemory};
ghost use Rattle.hla_catalogue.specs.Lookup.{item_numbered};
ghost use Rattle.hla_orders.specs.Orders.{AreUpTo};
ghost use Rattle.hla_machine.specs.Registered.{registry_of, new_registry};
ghost use Rattle.hla_object_registry.specs.Queries.{is_name_used_in, is_known_in, is_owned_in, is_object_of, objects_owned, object_found, with_registered, with_orders, without_owned};
ghost use Rattle.hla_object_registry.specs.Entries.{registered_object, IsUnused, IsNumberOf, AreOwned};

use crate::entry::Entry;
use crate::federate_set::FederateSet;
use hla_base::{AttributeNo, ClassNo, Fault, FederateNo, List, ObjectNo};
use hla_catalogue::Order;
use hla_orders::ChangedOrders;
use indexmap::IndexMap;
use std::alloc::Global;
use std::marker::Model;

/// The objects of an execution, by their numbers and by their names. Contracts see them in the order of their numbers,
/// which count from 1, and `registry_of` leads from there to tables by number. A deleted object keeps its entry, so that
/// neither its number nor its name is used again.
#[derive(Debug, Drop)]
pub struct Registry {
    entries: IndexMap<Vec<u8>, Entry>,
}

impl Model for Registry {
    ghost use Rattle.std.specs.Prelude.{List};
    ghost use Rattle.hla_machine.specs.Registered.{Registered};

    ghost Value = { List Registered };

    ghost use Rattle.hla_object_registry.specs.Entries.{registered_objects, AreEntriesKept};

    ghost view = { λ r. registered_objects r.entries.entries };

    ghost invariant = { λ r. AreEntriesKept r.entries.entries };
}

impl Registry {
    /// A registry of no objects; it takes no memory.
    pub fn new(alloc: Global) -> Registry
        ensures { registry_of result ≡ new_registry }
    {
        Registry {
            entries: IndexMap::new(alloc),
        }
    }

    /// The number of the object that is registered next: 1 at first, and at most 4097. Each object below it has an owner,
    /// whose number is not 0.
    pub fn next_object(&self) -> ObjectNo
        ensures next { result ≡ (registry_of self.now).next_object }
        ensures few { result ≤ 4097 }
        ensures owned { AreOwned (registry_of self.now) }
    {
        self.entries.len() as u32 + 1
    }

    /// The name and the entry of an object, if it was registered.
    fn entry(&self, object: ObjectNo) -> Option<(&Vec<u8>, &Entry)>
        ensures { option_map (λ e. registered_object (deref_pair e)) result
            ≡ item_numbered self.now object }
    {
        if object == 0 {
            None
        } else {
            self.entries.get_index(object as usize - 1)
        }
    }

    /// The number of the object of a name, deleted or not.
    fn number_of(&self, name: &[u8]) -> Option<ObjectNo>
        ensures { MatchOption result (IsUnused self.now name.now) (IsNumberOf self.now name.now) }
    {
        match self.entries.get_index_of(name) {
            Some(place) => Some(place as u32 + 1),
            None => None,
        }
    }

    /// Whether an object exists: it was registered and not deleted. Its number counts from 1, as in all methods; of a number
    /// that no object has the answer is no.
    pub fn has_object(&self, object: ObjectNo) -> bool
        ensures { result ≡ ((registry_of self.now).object object).exists }
    {
        match self.entry(object) {
            Some((_, entry)) => entry.exists,
            None => false,
        }
    }

    /// The class at which an object was registered, by its number from 1; 0 where no object has the number.
    pub fn class_of(&self, object: ObjectNo) -> ClassNo
        ensures { result ≡ ((registry_of self.now).object object).class }
    {
        match self.entry(object) {
            Some((_, entry)) => entry.class,
            None => 0,
        }
    }

    /// The federate that registered an object, by its number from 1; 0 where no object has the number.
    pub fn owner(&self, object: ObjectNo) -> FederateNo
        ensures { result ≡ ((registry_of self.now).object object).owner }
    {
        match self.entry(object) {
            Some((_, entry)) => entry.owner,
            None => 0,
        }
    }

    /// The name of an object, deleted or not (Get Object Instance Name); empty where no object has the number.
    pub fn name_of(&self, object: ObjectNo) -> &[u8]
        ensures { result.now ≡ ((registry_of self.now).object object).name }
    {
        match self.entry(object) {
            Some((name, _)) => name.as_slice(),
            None => &[],
        }
    }

    /// Whether an object was ever made known to a federate, deleted or not.
    pub fn was_made_known(&self, object: ObjectNo, federate: FederateNo) -> bool
        ensures { result ≡ (registry_of self.now).known object federate }
    {
        match self.entry(object) {
            Some((_, entry)) => entry.known.contains(federate),
            None => false,
        }
    }

    /// Whether an object exists and is known to a federate.
    pub fn is_known(&self, object: ObjectNo, federate: FederateNo) -> bool
        ensures { result ≡ is_known_in (registry_of self.now) federate object }
    {
        self.has_object(object) && self.was_made_known(object, federate)
    }

    /// Whether a federate owns an attribute of an object, deleted or not.
    pub fn owns_attribute(
        &self,
        federate: FederateNo,
        object: ObjectNo,
        attribute: AttributeNo,
    ) -> bool
        ensures { result ≡ is_owned_in (registry_of self.now) federate object attribute }
    {
        match self.entry(object) {
            Some((_, entry)) => {
                entry.owner == federate && entry.attributes.as_slice().contains(&attribute)
            }
            None => false,
        }
    }

    /// In which order updates of an attribute of an object go, if that was changed (Change Attribute Order Type); `None`
    /// where no object has the number. It takes constant time.
    pub fn changed_order(&self, object: ObjectNo, attribute: AttributeNo) -> Option<Order>
        ensures { result ≡ (registry_of self.now).orders object attribute }
    {
        match self.entry(object) {
            Some((_, entry)) => entry.orders.get(attribute),
            None => None,
        }
    }

    /// Whether an object exists and a federate owns it.
    fn is_object_of(&self, object: ObjectNo, federate: FederateNo) -> bool
        ensures { result ≡ is_object_of (registry_of self.now) federate object }
    {
        match self.entry(object) {
            Some((_, entry)) => entry.exists && entry.owner == federate,
            None => false,
        }
    }

    /// Whether a name was ever given to an object, deleted or not. It is answered without going over all objects.
    pub fn is_name_used(&self, name: &[u8]) -> bool
        ensures { result ≡ is_name_used_in (registry_of self.now) name.now }
    {
        self.number_of(name).is_some()
    }

    /// The object of a name that exists and is known to a federate, if there is one (Get Object Instance Handle). It is found
    /// without going over all objects.
    pub fn object_named(&self, federate: FederateNo, name: &[u8]) -> Option<ObjectNo>
        ensures { result ≡ object_found (registry_of self.now) federate name.now }
    {
        match self.number_of(name) {
            Some(object) => {
                if self.is_known(object, federate) {
                    Some(object)
                } else {
                    None
                }
            }
            None => None,
        }
    }

    /// Registers an object under a name that none had before, known to its owner alone, and answers its number (Register
    /// Object Instance); `OutOfMemory`, and the registry as it was, where a growth was refused.
    pub fn register(
        &mut self,
        class: ClassNo,
        name: List<u8>,
        owner: FederateNo,
        attributes: List<AttributeNo>,
    ) -> Result<ObjectNo, Fault>
        requires few { (registry_of self.old).next_object ≤ max_objects }
        requires some { 0 < owner }
        requires within { owner ≤ max_joins }
        requires unused { is_name_used_in (registry_of self.old) name ≡ false }
        ensures answer { IfOk result (λ h. h ≡ (registry_of self.old).next_object) }
        ensures registered { OnOk result
            (registry_of self.new ≡ with_registered (registry_of self.old)
            class name owner attributes) }
        ensures err { IfErr result (λ e. e ≡ Fault.OutOfMemory) }
        ensures unchanged { OnErr result (self.new ≡ self.old) }
    {
        let object = self.next_object();
        let entry = Entry {
            class,
            owner,
            attributes,
            exists: true,
            known: FederateSet::of(owner),
            orders: ChangedOrders::new(),
        };
        let Ok(_) = self.entries.insert(name.into_vec(), entry) else {
            return Err(Fault::OutOfMemory);
        };
        Ok(object)
    }

    /// Makes an object known to a federate, both by their numbers from 1 (Discover Object Instance). It takes no memory.
    pub fn make_known(&mut self, object: ObjectNo, federate: FederateNo)
        requires object { 0 < object }
        requires registered { object < (registry_of self.old).next_object }
        requires federate { 0 < federate }
        requires within { federate ≤ max_joins }
        ensures { registry_of self.new ≡ record (registry_of self.old) {
          known = upd2 (registry_of self.old).known object federate true;
        } }
    {
        let entry = &mut self.entries[object as usize - 1];
        entry.known.insert(federate);
    }

    /// Updates of these attributes of an object go in this order from now on (Change Attribute Order Type); each attribute
    /// has a number from 1 to `count`. `OutOfMemory`, and the registry as it was, where room for the orders was refused.
    pub fn change_orders(
        &mut self,
        alloc: Global,
        object: ObjectNo,
        attributes: &[AttributeNo],
        order: Order,
        count: usize,
    ) -> Result<(), Fault>
        requires some { 0 < object }
        requires registered { object < (registry_of self.old).next_object }
        requires numbered { AreUpTo count attributes.now }
        ensures ok { OnOk result (registry_of self.new ≡ with_orders (registry_of self.old) object
            attributes.now order) }
        ensures err { IfErr result (λ e. e ≡ Fault.OutOfMemory) }
        ensures unchanged { OnErr result (self.new ≡ self.old) }
    {
        let entry = &mut self.entries[object as usize - 1];
        entry.orders.give(alloc, count, attributes, order)
    }

    /// Deletes an object; its number and its name stay used (Delete Object Instance). It takes no memory.
    pub fn delete(&mut self, object: ObjectNo)
        requires some { 0 < object }
        requires registered { object < (registry_of self.old).next_object }
        ensures { registry_of self.new
            ≡ record (registry_of self.old) {
              object = upd (registry_of self.old).object object
                  (record ((registry_of self.old).object object) { exists = false });
            } }
    {
        let entry = &mut self.entries[object as usize - 1];
        entry.exists = false;
    }

    /// Deletes all objects of a federate that resigns (Resign Federation Execution). It takes no memory.
    pub fn delete_owned_by(&mut self, federate: FederateNo)
        ensures { registry_of self.new ≡ without_owned (registry_of self.old) federate }
    {
        for place in 0..self.entries.len() {
            let entry = &mut self.entries[place];
            entry.exists &= entry.owner != federate;
        }
    }

    /// The objects of a federate that exist, by rising number; `OutOfMemory` where a growth was refused.
    pub fn objects_owned_by(
        &self,
        alloc: Global,
        federate: FederateNo,
    ) -> Result<List<ObjectNo>, Fault>
        ensures ok { IfOk result
            (λ objects. objects ≡ objects_owned (registry_of self.now) federate) }
        ensures err { IfErr result (λ e. e ≡ Fault.OutOfMemory) }
    {
        let mut objects = List::new(alloc);
        for object in 1..self.next_object() {
            if self.is_object_of(object, federate) {
                objects.push(object)?;
            }
        }
        Ok(objects)
    }

    /// How many objects of a federate exist. It takes no memory.
    pub fn count_owned_by(&self, federate: FederateNo) -> usize
        ensures { result ≡ length (objects_owned (registry_of self.now) federate) }
    {
        let mut count = 0;
        for object in 1..self.next_object() {
            if self.is_object_of(object, federate) {
                count += 1;
            }
        }
        count
    }
}
