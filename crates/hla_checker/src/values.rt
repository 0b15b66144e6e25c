//! The values of one message, which those who are shown all of them share.

ghost use Rattle.std.specs.Prelude.{◌≡◌, length, OnOk, IfOk, IfErr};
ghost use Rattle.hla_base.specs.declared.fault.Fault.TheVariants.{OutOfMemory};

use hla_base::{Fault, HandleValuePair, List, Plain, SharedList};
use std::alloc::Global;
use std::marker::Model;
use std::mem;

/// The values of a message: a list until a receiver is shown all of them, and shared from then on. Contracts see the list.
#[derive(Debug, Drop)]
pub(crate) struct Values {
    /// No values once they are shared.
    listed: List<HandleValuePair>,
    shared: Option<SharedList<HandleValuePair>>,
}

impl Model for Values {
    ghost use Rattle.std.specs.Prelude.{List};
    ghost use Rattle.std.specs.Option.{unwrap_or};
    ghost use Rattle.hla_base.specs.declared.content.HandleValuePair.{HandleValuePair};

    ghost Value = { List HandleValuePair };

    ghost view = { λ v. unwrap_or v.shared v.listed };
}

impl Values {
    /// The values of a list, which nobody shares yet; it takes no memory.
    pub(crate) fn of(listed: List<HandleValuePair>) -> Values
        ensures { result ≡ listed }
    {
        Values {
            listed,
            shared: None,
        }
    }

    /// The values.
    pub(crate) fn as_slice(&self) -> &[HandleValuePair]
        ensures { result.now ≡ self.now }
    {
        match &self.shared {
            Some(shared) => shared.as_slice(),
            None => self.listed.as_slice(),
        }
    }

    /// How many values there are.
    pub(crate) fn len(&self) -> usize
        ensures { result ≡ length self.now }
    {
        self.as_slice().len()
    }

    /// A share of the values. The first one takes memory; `OutOfMemory` where that was refused, and the values are of no use then.
    /// Of no values each gets a list of its own, since a share of them would cost more.
    pub(crate) fn share(&mut self, alloc: Global) -> Result<SharedList<HandleValuePair>, Fault>
        ensures ok { IfOk result (λ share. share ≡ self.old) }
        ensures kept { OnOk result (self.new ≡ self.old) }
        ensures err { IfErr result (λ e. e ≡ Fault.OutOfMemory) }
    {
        if let Some(shared) = &self.shared {
            return shared.copy();
        }
        if self.listed.is_empty() {
            return SharedList::from_list(List::new(alloc));
        }
        let listed = mem::replace(&mut self.listed, List::new(alloc));
        let shared = SharedList::from_list(listed)?;
        let share = shared.copy()?;
        self.shared = Some(shared);
        Ok(share)
    }
}
