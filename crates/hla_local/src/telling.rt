//! What a federate is to be told of synchronization points.

ghost use Rattle.std.specs.Prelude.{◌≡◌, ◌++◌, ◌-◌, map, IfErr, OnOk, OnErr};
ghost use Rattle.hla_base.specs.declared.fault.Fault.TheVariants.{OutOfMemory};
ghost use Rattle.hla_component_rules.specs.declared.control.Control.TheVariants.{ToTell};
ghost use Rattle.hla_component_rules.specs.Telling.{local_told, local_untold};

use crate::local::Local;
use hla_base::{Fault, Notice, Plain};
use hla_order_queues::Control;
use std::collections::VecDeque;

/// Puts notices behind these controls, each as one more share; `OutOfMemory`, and all as it was, where a growth or a share
/// was refused.
fn put_notices(controls: &mut VecDeque<Control>, notices: &[Notice]) -> Result<(), Fault>
    ensures ok { OnOk result (controls.new.items ≡ controls.old.items ++ map ToTell notices.now) }
    ensures err { IfErr result (λ e. e ≡ Fault.OutOfMemory) }
    ensures unchanged { OnErr result (controls.new.items ≡ controls.old.items) }
{
    if controls.reserve(notices.len()).is_err() {
        return Err(Fault::OutOfMemory);
    }
    let before = controls.len();
    for notice in notices {
        let Ok(notice) = notice.copy() else {
            controls.truncate(before);
            return Err(Fault::OutOfMemory);
        };
        controls.push_back_reserved(Control::ToTell { notice });
    }
    Ok(())
}

impl Local {
    /// Its federate is to be told these, behind all else that it may be given at any tick (HLA 1.3, federation management:
    /// Announce Synchronization Point and its kin). `OutOfMemory`, and all as it was, where a growth was refused.
    pub fn tell(&mut self, notices: &[Notice]) -> Result<(), Fault>
        ensures ok { OnOk result (self.new ≡ local_told notices.now self.old) }
        ensures err { IfErr result (λ e. e ≡ Fault.OutOfMemory) }
        ensures unchanged { OnErr result (self.new ≡ self.old) }
    {
        put_notices(&mut self.controls, notices)
    }

    /// So many of what its federate may be given at any tick are taken back, the last first. After `tell` that leaves all as
    /// it was. It takes no memory.
    pub fn untell(&mut self, count: usize)
        ensures { self.new ≡ local_untold count self.old }
    {
        let left = self.controls.len().saturating_sub(count);
        self.controls.truncate(left);
    }
}
