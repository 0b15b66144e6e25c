//! Sending and retracting messages (HLA 1.3, object management and time management).

ghost use Rattle.std.specs.Prelude.{◌≡◌, ◌+◌, ◌<◌, ◌≤◌, true, false, None, Some, length, OnOk, IfErr};
ghost use Rattle.hla_base.specs.declared.fault.Fault.TheVariants.{OutOfMemory};
ghost use Rattle.hla_base.specs.Limits.{max_serial};
ghost use Rattle.hla_base.specs.Tables.{upd, upd2};
ghost use Rattle.hla_base.specs.FederateSets.{federate_set};
ghost use Rattle.hla_retraction.specs.SentRows.{sent_of};
ghost use Rattle.hla_machine.specs.Directory.{Directory};
ghost use Rattle.hla_machine.specs.Central.{at_key};
ghost use Rattle.hla_accounts.specs.Accounts.{account_at, central_with, copy_of};
ghost use Rattle.hla_bags.specs.Bags.{waiting_at};

use crate::accounts::Accounts;
use hla_bags::Waiting;
use hla_base::{Fault, FederateNo, FederateSet, Serial, Ticks};

impl Accounts {
    /// A federate sends a message that it may not retract: the message takes its next serial.
    pub fn take_serial(&mut self, federate: FederateNo)
        requires some { 0 < federate }
        requires within { federate ≤ length self.old }
        requires room { (account_at self.old federate).next_serial ≤ max_serial }
        ensures { (d : Directory) → let c = central_with d self.old
            in central_with d self.new ≡ record c {
              serial = upd c.serial federate (c.serial federate + 1);
            } }
    {
        self.accounts[federate as usize - 1].take_serial();
    }

    /// A federate sends a message that it may retract, with a stamp in ticks, to these receivers: the message takes its
    /// next serial. `OutOfMemory` where a growth was refused; nothing is said of the accounts then.
    pub fn note(
        &mut self,
        federate: FederateNo,
        stamp: Ticks,
        receivers: FederateSet,
    ) -> Result<(), Fault>
        requires some { 0 < federate }
        requires within { federate ≤ length self.old }
        requires room { (account_at self.old federate).next_serial ≤ max_serial }
        ensures ok { OnOk result
            ((d : Directory) → let c = central_with d self.old
            in central_with d self.new ≡ record c {
              serial = upd c.serial federate (c.serial federate + 1);
              sent = upd2 c.sent federate (c.serial federate) (record {
                stamp = stamp;
                retractable = true;
                retracted = false;
                receivers = federate_set receivers;
              });
            }) }
        ensures err { IfErr result (λ e. e ≡ Fault.OutOfMemory) }
    {
        self.accounts[federate as usize - 1].note(stamp, receivers)
    }

    /// A copy of a message waits for a federate. `OutOfMemory` where a growth was refused; nothing is said of the accounts
    /// then.
    pub fn put(&mut self, federate: FederateNo, waiting: Waiting) -> Result<(), Fault>
        requires some { 0 < federate }
        requires within { federate ≤ length self.old }
        requires free { waiting_at
            (account_at self.old federate).bag waiting.event.sender waiting.event.serial ≡ None }
        requires used { waiting.event.serial
            < (account_at self.old waiting.event.sender).next_serial }
        ensures ok { OnOk result
            ((d : Directory)
            → let c = central_with d self.old in central_with d self.new
            ≡ record c {
              bag = at_key c.bag waiting.event.sender waiting.event.serial federate
                  (Some (copy_of waiting));
            }) }
        ensures err { IfErr result (λ e. e ≡ Fault.OutOfMemory) }
    {
        self.accounts[federate as usize - 1].bag.put(waiting)
    }

    /// A federate's message is retracted. The time grows with the logarithm of the messages that it may retract.
    pub fn retract(&mut self, federate: FederateNo, serial: Serial)
        requires some { 0 < federate }
        requires within { federate ≤ length self.old }
        requires may { (sent_of (account_at self.old federate).sent serial).retractable ≡ true }
        ensures { (d : Directory) → let c = central_with d self.old
            in central_with d self.new ≡ record c {
              sent = upd2 c.sent federate serial
                  (record (c.sent federate serial) { retracted = true });
            } }
    {
        self.accounts[federate as usize - 1].sent.retract(serial);
    }
}
