//! Events, each as often as it was added.

ghost use Rattle.std.specs.Prelude.{◌≡◌, ℕ, ◌+◌, ◌-◌, [], cond, eqb, length, OnOk, OnErr, IfErr};
ghost use Rattle.std.specs.List.{position};
ghost use Rattle.hla_base.specs.declared.fault.Fault.TheVariants.{OutOfMemory};
ghost use Rattle.hla_base.specs.Tables.{one_if};
ghost use Rattle.hla_machine.specs.Central.{is_key};
ghost use Rattle.hla_bags.specs.Bags.{is_listed};
ghost use Rattle.hla_accounts.specs.Accounts.{times_listed, is_handle_of};

use hla_bags::is_listed;
use hla_base::{EventHandle, Fault};
use std::alloc::Global;
use std::marker::Model;

/// Events, each as often as it was added. Contracts see the list; `times_listed` counts in it.
#[derive(Debug, Drop)]
pub struct Handles {
    events: Vec<EventHandle>,
}

impl Model for Handles {
    ghost use Rattle.std.specs.Prelude.{List};
    ghost use Rattle.hla_base.specs.declared.number.EventHandle.{EventHandle};

    ghost Value = { List EventHandle };

    ghost view = { λ h. h.events.items };
}

impl Handles {
    /// No event; it takes no memory.
    pub fn new(alloc: Global) -> Handles
        ensures { result ≡ [] }
    {
        Handles {
            events: Vec::new(alloc),
        }
    }

    /// Whether there is none.
    pub fn is_empty(&self) -> bool
        ensures { result ≡ eqb (length self.now) 0 }
    {
        self.events.is_empty()
    }

    /// Whether an event is there. It looks at each.
    pub fn has(&self, event: EventHandle) -> bool
        ensures { result ≡ is_listed self.now event.sender event.serial }
    {
        is_listed(self.events.as_slice(), event)
    }

    /// Adds an event once more; `OutOfMemory`, and all as it was, where a growth was refused.
    pub fn add(&mut self, event: EventHandle) -> Result<(), Fault>
        ensures ok { OnOk result
            ((g m : ℕ) → times_listed self.new g m ≡ times_listed self.old g m + one_if
            (is_key event.sender event.serial g m)) }
        ensures err { IfErr result (λ e. e ≡ Fault.OutOfMemory) }
        ensures unchanged { OnErr result (self.new ≡ self.old) }
    {
        match self.events.push(event) {
            Ok(()) => Ok(()),
            Err(_) => Err(Fault::OutOfMemory),
        }
    }

    /// Takes an event out once, if it is there. It looks at each.
    pub fn remove(&mut self, event: EventHandle)
        ensures { (g m : ℕ)
            → times_listed self.new g m ≡ cond (is_key event.sender event.serial g m)
            (times_listed self.old g m - 1) (times_listed self.old g m) }
    {
        match self.place_of(event) {
            Some(place) => {
                self.events.remove(place);
            }
            None => {}
        }
    }

    /// There is none any more.
    pub fn clear(&mut self)
        ensures { self.new ≡ [] }
    {
        self.events.clear();
    }

    fn place_of(&self, event: EventHandle) -> Option<usize>
        ensures { result ≡ position (is_handle_of event.sender event.serial) self.now }
    {
        self.events
            .iter()
            .position(|e| e.sender == event.sender && e.serial == event.serial)
    }
}
