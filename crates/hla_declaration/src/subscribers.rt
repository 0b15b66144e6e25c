//! Who subscribes each class.

ghost use Rattle.std.specs.Prelude.{◌≡◌, ◌<◌, ◌≤◌, ◌&&◌, ℕ, [], length, cond, eqb, find, None, false, IfErr, OnOk};
ghost use Rattle.std.specs.List.{list_any};
ghost use Rattle.hla_base.specs.Limits.{max_joins};
ghost use Rattle.hla_base.specs.declared.fault.Fault.TheVariants.{OutOfMemory};
ghost use Rattle.hla_declaration.specs.Entries.{entry_at};
ghost use Rattle.hla_declaration.specs.Subscribers.{has_federate, is_in_set_of};

use hla_base::{ClassNo, Fault, FederateNo};
use std::alloc::Global;
use std::marker::Model;

/// Whether a federate is in a set, which has a bit for each federate, at its number.
fn has_federate(set: u32, federate: FederateNo) -> bool
    requires { federate ≤ max_joins }
    ensures { result ≡ has_federate set federate }
{
    (set >> federate) & 1 == 1
}

/// A set with a federate or without it, and with the others as before.
fn with_federate(set: u32, federate: FederateNo, is_in: bool) -> u32
    requires { federate ≤ max_joins }
    ensures { (f : ℕ) → f ≤ max_joins
        → has_federate result f ≡ cond (eqb federate f) is_in (has_federate set f) }
{
    if is_in {
        set | (1 << federate)
    } else {
        set & !(1 << federate)
    }
}

/// For each class, which are numbered from 1, the federates that subscribe it. Contracts see a number for each class,
/// whose bits are the federates'. Room is taken by `make_room` alone.
#[derive(Debug, Drop)]
pub struct SubscriberSets {
    sets: Vec<u32>,
}

impl Model for SubscriberSets {
    ghost use Rattle.std.specs.Prelude.{ℕ, List};

    ghost Value = { List ℕ };

    ghost view = { λ s. s.sets.items };
}

impl SubscriberSets {
    /// Nobody subscribes anything, and there is room for no class; it takes no memory.
    pub fn new(alloc: Global) -> SubscriberSets
        ensures { result ≡ [] }
    {
        SubscriberSets {
            sets: Vec::new(alloc),
        }
    }

    /// There is room for this many classes from now on; `OutOfMemory` where it was refused. Nobody subscribes other
    /// classes than before, either way.
    pub fn make_room(&mut self, classes: usize) -> Result<(), Fault>
        ensures same { (class : ℕ) → entry_at 0 self.new class ≡ entry_at 0 self.old class }
        ensures kept { length self.old ≤ length self.new }
        ensures ok { OnOk result (classes ≤ length self.new) }
        ensures err { IfErr result (λ e. e ≡ Fault.OutOfMemory) }
    {
        for _class in self.sets.len()..classes {
            if self.sets.push(0).is_err() {
                return Err(Fault::OutOfMemory);
            }
        }
        Ok(())
    }

    /// The federates that subscribe a class; none for a number of no class.
    pub fn get(&self, class: ClassNo) -> u32
        ensures { result ≡ entry_at 0 self.now class }
    {
        if class == 0 {
            return 0;
        }
        self.sets.get(class as usize - 1).copied().unwrap_or(0)
    }

    /// The federates that subscribe any of these classes.
    pub fn subscribers_among(&self, classes: &[ClassNo]) -> u32
        ensures { (f : ℕ) → f ≤ max_joins
            → has_federate result f ≡ list_any (is_in_set_of self.now f) classes.now }
    {
        let mut subscribers = 0;
        for class in classes {
            subscribers |= self.get(*class);
        }
        subscribers
    }

    /// The first of these classes that a federate subscribes, where none outside this set of federates subscribes any of
    /// them; it looks at the classes only for a federate in the set.
    pub fn class_served_within(
        &self,
        subscribers: u32,
        classes: &[ClassNo],
        federate: FederateNo,
    ) -> Option<ClassNo>
        requires few { federate ≤ max_joins }
        requires others { has_federate subscribers federate ≡ false
            → find (is_in_set_of self.now federate) classes.now ≡ None }
        ensures { result ≡ find (is_in_set_of self.now federate) classes.now }
    {
        if !has_federate(subscribers, federate) {
            return None;
        }
        classes
            .iter()
            .copied()
            .find(|k| has_federate(self.get(*k), federate))
    }

    /// A federate subscribes a class from now on, or not any more.
    pub fn set(&mut self, federate: FederateNo, class: ClassNo, is_in: bool)
        requires few { federate ≤ max_joins }
        requires some { 0 < class }
        requires within { class ≤ length self.old }
        ensures listed { (f k : ℕ) → f ≤ max_joins
            → is_in_set_of self.new f k
            ≡ cond (eqb federate f && eqb class k) is_in (is_in_set_of self.old f k) }
        ensures room { length self.new ≡ length self.old }
    {
        let place = class as usize - 1;
        self.sets[place] = with_federate(self.sets[place], federate, is_in);
    }

    /// A federate subscribes no class any more.
    pub fn withdraw(&mut self, federate: FederateNo)
        requires few { federate ≤ max_joins }
        ensures listed { (f k : ℕ) → f ≤ max_joins
            → is_in_set_of self.new f k ≡ cond (eqb federate f) false (is_in_set_of self.old f k) }
        ensures room { length self.new ≡ length self.old }
    {
        for set in self.sets.iter_mut() {
            *set = with_federate(*set, federate, false);
        }
    }
}
