//! Messages that their receivers share.

ghost use Rattle.std.specs.Prelude.{◌≡◌, IfOk, IfErr};
ghost use Rattle.hla_base.specs.declared.fault.Fault.TheVariants.{OutOfMemory};

use crate::content::Event;
use crate::fault::Fault;
use std::alloc::Global;
use std::marker::Model;
use std::sync::Arc;

/// A message that stays as it is, and that all its receivers share: one more share takes no memory. Contracts see the message.
#[derive(Debug)]
pub struct SharedEvent {
    event: Arc<Event>,
}

// By name and not derived, so that it is proved here alone, and not by each crate that owns one.
impl Drop for SharedEvent {
    fn drop(self) {
        let SharedEvent { event: _ } = self;
    }
}

impl Model for SharedEvent {
    ghost use Rattle.std.specs.Arc.{arc_value};
    ghost use Rattle.hla_base.specs.declared.content.Event.{Event};

    ghost Value = { Event };

    ghost view = { λ s. arc_value s.event };
}

impl SharedEvent {
    /// The message, from now on shared; `OutOfMemory` where a growth was refused.
    pub fn new(alloc: Global, event: Event) -> Result<SharedEvent, Fault>
        ensures ok { IfOk result (λ s. s ≡ event) }
        ensures err { IfErr result (λ e. e ≡ Fault.OutOfMemory) }
    {
        match Arc::new(alloc, event) {
            Ok(event) => Ok(SharedEvent { event }),
            Err(_) => Err(Fault::OutOfMemory),
        }
    }

    /// One more share of the message; `OutOfMemory` where it was refused, which takes more shares than there can be wires.
    pub fn share(&self) -> Result<SharedEvent, Fault>
        ensures ok { IfOk result (λ s. s ≡ self.now) }
        ensures err { IfErr result (λ e. e ≡ Fault.OutOfMemory) }
    {
        match self.event.clone() {
            Ok(event) => Ok(SharedEvent { event }),
            Err(_) => Err(Fault::OutOfMemory),
        }
    }

    /// The message.
    pub fn as_event(&self) -> &Event
        ensures { result.now ≡ self.now }
    {
        self.event.as_ref()
    }
}
