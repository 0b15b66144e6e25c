//! To whom the retraction of a message goes (HLA 1.3, time management, Retract).

ghost use Rattle.std.specs.Prelude.{◌≡◌, ◌<◌, ◌≤◌, true, length, OnOk, IfErr};
ghost use Rattle.hla_base.specs.declared.fault.Fault.TheVariants.{OutOfMemory};
ghost use Rattle.hla_base.specs.RowRefusals.{first_fault};
ghost use Rattle.hla_retraction.specs.SentEvents.{may_retract};
ghost use Rattle.hla_retraction.specs.SentRows.{sent_of};
ghost use Rattle.hla_machine.specs.declared.service.Service.TheVariants as service;
ghost use Rattle.hla_machine.specs.Directory.{Directory};
ghost use Rattle.hla_machine.specs.Machine.{after_retract, central_seen};
ghost use Rattle.hla_machine.specs.Refusals.{call_tests};
ghost use Rattle.hla_machine.specs.Sends.{owed_to_receivers};
ghost use Rattle.hla_accounts.specs.Accounts.{account_at, central_with};
ghost use Rattle.hla_accounts.specs.Calls.{is_told_of};

use crate::accounts::Accounts;
use hla_base::{EventHandle, Fault, FederateNo};

impl Accounts {
    /// Whether the sender of a message may retract it now. The time grows with the logarithm of the messages that it may
    /// retract.
    fn may_retract(&self, event: EventHandle) -> bool
        ensures { result ≡ may_retract (account_at self.now event.sender).state
            (sent_of (account_at self.now event.sender).sent event.serial) }
    {
        match self.get(event.sender) {
            Some(account) => account.sent.may_retract(
                account.state.is_regulation_enabled(),
                account.state.least_stamp(),
                event.serial,
            ),
            None => false,
        }
    }

    /// Why a federate may not retract a message, if it may not (Retract): it is another's, or may be retracted no more.
    pub fn retract_fault(&self, federate: FederateNo, event: EventHandle) -> Option<Fault>
        ensures { (d : Directory)
            → result ≡ first_fault
            (call_tests (central_seen (central_with d self.now)) federate (service.Retract event)) }
    {
        if event.sender == federate && self.may_retract(event) {
            None
        } else {
            Some(Fault::InvalidRetractionHandle)
        }
    }

    /// Whether a message that may be retracted was sent to a federate.
    fn was_sent_to(&self, event: EventHandle, federate: FederateNo) -> bool
        ensures { result
            ≡ (sent_of (account_at self.now event.sender).sent event.serial).receivers federate }
    {
        match self.get(event.sender) {
            Some(account) => account.sent.is_receiver(event.serial, federate),
            None => false,
        }
    }

    /// Whether the retraction of a message goes to a federate: it is joined, is not the sender, and the message was sent to
    /// it.
    fn is_told(&self, event: EventHandle, federate: FederateNo) -> bool
        ensures { result ≡ is_told_of self.now event.sender event.serial federate }
    {
        event.sender != federate && self.is_joined(federate) && self.was_sent_to(event, federate)
    }

    /// The retraction of a message is under way to each federate to which it goes. `OutOfMemory` where a growth was
    /// refused; nothing is said of the accounts then.
    pub fn owe(&mut self, event: EventHandle) -> Result<(), Fault>
        ensures ok { OnOk result
            ((d : Directory)
            → let c = central_with d self.old in central_with d self.new
            ≡ record c {
              owed = owed_to_receivers c.owed event.sender event.serial
                  (is_told_of self.old event.sender event.serial);
            }) }
        ensures err { IfErr result (λ e. e ≡ Fault.OutOfMemory) }
    {
        for receiver in 1..self.next_federate() {
            if self.is_told(event, receiver) {
                self.add_owed(receiver, event)?;
            }
        }
        Ok(())
    }

    /// A federate retracts its message (Retract): each other federate to which it was sent and that is joined is to be
    /// told. `OutOfMemory` where a growth was refused; nothing is said of the accounts then.
    pub fn take_back(&mut self, event: EventHandle) -> Result<(), Fault>
        requires some { 0 < event.sender }
        requires within { event.sender ≤ length self.old }
        requires may { (sent_of (account_at self.old event.sender).sent event.serial).retractable
            ≡ true }
        ensures ok { OnOk result
            ((d : Directory)
            → central_with d self.new
            ≡ after_retract (central_with d self.old) event.sender event.serial) }
        ensures err { IfErr result (λ e. e ≡ Fault.OutOfMemory) }
    {
        self.owe(event)?;
        self.retract(event.sender, event.serial);
        Ok(())
    }
}
