//! What changes of one account do to the state that accounts stand for.

ghost use Rattle.std.specs.Prelude.{◌≡◌, ◌<◌, ◌≤◌, ◌+◌, ◌-◌, None, length, not, is_some, OnOk, IfErr};
ghost use Rattle.hla_base.specs.declared.fault.Fault.TheVariants.{OutOfMemory};
ghost use Rattle.hla_machine.specs.Directory.{Directory};
ghost use Rattle.hla_base.specs.Rows.{is_disabled};
ghost use Rattle.hla_machine.specs.Central.{at_key, at3};
ghost use Rattle.hla_machine.specs.Machine.{after_arrival, after_retraction_arrival};
ghost use Rattle.hla_machine.specs.Callbacks.{with_central_row, with_demoted};
ghost use Rattle.hla_accounts.specs.Accounts.{account_at, central_with, copy_at};
ghost use Rattle.hla_accounts.specs.RowChanges.{changed_row, MayChangeRow};

use crate::accounts::Accounts;
use crate::row_change::RowChange;
use hla_base::{EventHandle, Fault, FederateNo};

impl Accounts {
    /// The row of a federate changes.
    pub fn change_row(&mut self, federate: FederateNo, change: RowChange)
        requires some { 0 < federate }
        requires within { federate ≤ length self.old }
        requires may { MayChangeRow change (account_at self.old federate).state }
        ensures { (d : Directory)
            → central_with d self.new ≡ with_central_row (central_with d self.old)
            federate (changed_row change (account_at self.old federate).state) }
    {
        change.make(&mut self.accounts[federate as usize - 1].state);
    }

    /// A message waits for a federate no longer. It takes the time of `Bag::remove`.
    pub fn take(&mut self, federate: FederateNo, event: EventHandle)
        requires some { 0 < federate }
        requires within { federate ≤ length self.old }
        ensures { (d : Directory) → central_with d self.new ≡ record (central_with d self.old) {
          bag = at_key (central_with d self.old).bag event.sender event.serial federate None;
        } }
    {
        self.accounts[federate as usize - 1].bag.remove(event);
    }

    /// Messages that wait for a federate are to be given in receive order. It takes the time of `Bag::demote`.
    pub fn demote(&mut self, federate: FederateNo, events: &[EventHandle])
        requires some { 0 < federate }
        requires within { federate ≤ length self.old }
        ensures { (d : Directory) → central_with d self.new ≡ record (central_with d self.old) {
          bag = with_demoted (central_with d self.old).bag federate events.now;
        } }
    {
        self.accounts[federate as usize - 1].bag.demote(events);
    }

    /// Whether what arrives for a federate in time-stamp order is kept in that order.
    fn is_order_kept(&self, federate: FederateNo) -> bool
        ensures { result ≡ not (is_disabled (account_at self.now federate).state.constrained) }
    {
        match self.get(federate) {
            Some(account) => account.state.is_order_kept(),
            None => false,
        }
    }

    /// A message arrives for a federate. While the federate is not constrained it is to be given in receive order. It takes
    /// the time of `Bag::demote_one`.
    pub fn arrive(&mut self, federate: FederateNo, event: EventHandle)
        requires some { 0 < federate }
        requires within { federate ≤ length self.old }
        ensures { (d : Directory)
            → central_with d self.new ≡ after_arrival (central_with d self.old)
            event.sender federate event.serial }
    {
        if !self.is_order_kept(federate) {
            self.accounts[federate as usize - 1].bag.demote_one(event);
        }
    }

    /// A federate has been asked to take an event back. It looks at all requests that are due to it.
    pub fn take_due(&mut self, federate: FederateNo, event: EventHandle)
        requires some { 0 < federate }
        requires within { federate ≤ length self.old }
        ensures { (d : Directory) → let c = central_with d self.old
            in central_with d self.new ≡ record c {
              due = at3 c.due event.sender event.serial federate
                  (c.due event.sender event.serial federate - 1);
            } }
    {
        self.accounts[federate as usize - 1].due.remove(event);
    }

    /// A federate is to be asked to take an event back. `OutOfMemory` where a growth was refused.
    fn add_due(&mut self, federate: FederateNo, event: EventHandle) -> Result<(), Fault>
        requires some { 0 < federate }
        requires within { federate ≤ length self.old }
        ensures ok { OnOk result
            ((d : Directory)
            → let c = central_with d self.old in central_with d self.new
            ≡ record c {
              due = at3 c.due event.sender event.serial federate
                  (c.due event.sender event.serial federate + 1);
            }) }
        ensures err { IfErr result (λ e. e ≡ Fault.OutOfMemory) }
    {
        self.accounts[federate as usize - 1].due.add(event)
    }

    /// A retraction of an event is under way to a federate. `OutOfMemory` where a growth was refused; nothing is said of
    /// the accounts then.
    pub fn add_owed(&mut self, federate: FederateNo, event: EventHandle) -> Result<(), Fault>
        requires some { 0 < federate }
        requires within { federate ≤ length self.old }
        ensures ok { OnOk result
            ((d : Directory)
            → let c = central_with d self.old in central_with d self.new
            ≡ record c {
              owed = at3 c.owed event.sender event.serial federate
                  (c.owed event.sender event.serial federate + 1);
            }) }
        ensures err { IfErr result (λ e. e ≡ Fault.OutOfMemory) }
    {
        self.accounts[federate as usize - 1].owed.add(event)
    }

    /// A retraction of an event is no longer under way to a federate. It looks at all that are under way to it.
    fn take_owed(&mut self, federate: FederateNo, event: EventHandle)
        requires some { 0 < federate }
        requires within { federate ≤ length self.old }
        ensures { (d : Directory)
            → let c = central_with d self.old in central_with d self.new
            ≡ record c {
              owed = at3 c.owed event.sender event.serial federate
                  (c.owed event.sender event.serial federate - 1);
            } }
    {
        self.accounts[federate as usize - 1].owed.remove(event);
    }

    /// Whether a message waits for a federate.
    fn is_there(&self, federate: FederateNo, event: EventHandle) -> bool
        ensures { result
            ≡ is_some (copy_at (account_at self.now federate).bag event.sender event.serial) }
    {
        self.find(federate, event).is_some()
    }

    /// A retraction arrives for a federate (HLA 1.3, Retract): it takes the message back, or the federate, which has picked
    /// it up, is to be asked to. `OutOfMemory` where a growth was refused; nothing is said of the accounts then. It takes
    /// the time of `Bag::remove`, and looks at all retractions that are under way to the federate.
    pub fn settle(&mut self, federate: FederateNo, event: EventHandle) -> Result<(), Fault>
        requires some { 0 < federate }
        requires within { federate ≤ length self.old }
        ensures ok { OnOk result
            ((d : Directory) → central_with d self.new ≡ after_retraction_arrival
            (central_with d self.old) event.sender federate event.serial) }
        ensures err { IfErr result (λ e. e ≡ Fault.OutOfMemory) }
    {
        if !self.is_there(federate, event) {
            self.add_due(federate, event)?;
        }
        self.take(federate, event);
        self.take_owed(federate, event);
        Ok(())
    }
}
