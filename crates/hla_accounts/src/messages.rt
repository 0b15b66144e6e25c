//! Sending a message to all of its receivers (HLA 1.3, object management).

ghost use Rattle.std.specs.Prelude.{◌≡◌, ℕ, ◌+◌, ◌<◌, ◌≤◌, ◌&&◌, None, length, is_some, option_map, OnOk, IfErr};
ghost use Rattle.hla_base.specs.declared.fault.Fault.TheVariants.{OutOfMemory};
ghost use Rattle.hla_base.specs.Limits.{max_joins, max_serial};
ghost use Rattle.hla_base.specs.Tables.{upd, upd2, is_other, or_else, when};
ghost use Rattle.hla_base.specs.FederateSets.{federate_set};
ghost use Rattle.hla_retraction.specs.SentEvents.{no_event};
ghost use Rattle.hla_retraction.specs.SentRows.{sent_of};
ghost use Rattle.hla_machine.specs.Directory.{Directory, Outgoing};
ghost use Rattle.hla_machine.specs.Central.{at_key, with_copies};
ghost use Rattle.hla_machine.specs.Sends.{after_message};
ghost use Rattle.hla_accounts.specs.Accounts.{account_at, central_with, copy_at, copy_given};
ghost use Rattle.hla_accounts.specs.Sendings.{item_for, is_sent_in_order, stamp_in_order, sent_delivery, copy_sent, kept_event, IsCutTo};

use crate::accounts::Accounts;
use hla_bags::Waiting;
use hla_base::{Content, EventHandle, Fault, FederateNo, FederateSet, Serial, Ticks};
use hla_callbacks::Delivery;
use hla_catalogue::Order;

/// Whether there is a content for a federate. The contents are by number, counted from 1.
fn has_content(contents: &[Option<Content>], federate: FederateNo) -> bool
    ensures { result ≡ is_some (item_for contents.now federate) }
{
    federate > 0 && matches!(contents.get(federate as usize - 1), Some(Some(_)))
}

/// How a message is delivered that has this stamp, in ticks, if it goes in time-stamp order.
fn sent_delivery(stamp: Option<Ticks>) -> Delivery
    ensures { result ≡ sent_delivery stamp }
{
    match stamp {
        Some(stamp) => Delivery::TimeStamp { stamp },
        None => Delivery::Receive,
    }
}

impl Accounts {
    /// Whether a message of a federate goes in time-stamp order: its order says so, it has a stamp, and its sender regulates.
    pub fn is_sent_in_order(&self, sender: FederateNo, order: Order, stamp: Option<Ticks>) -> bool
        ensures { result ≡ is_sent_in_order (account_at self.now sender).state order stamp }
    {
        let is_regulating = match self.get(sender) {
            Some(account) => account.state.is_regulation_enabled(),
            None => false,
        };
        order == Order::Timestamp && stamp.is_some() && is_regulating
    }

    /// The stamp of a message of a federate, in ticks, if it goes in time-stamp order.
    pub fn stamp_in_order(
        &self,
        sender: FederateNo,
        order: Order,
        stamp: Option<Ticks>,
    ) -> Option<Ticks>
        ensures { result ≡ stamp_in_order (account_at self.now sender).state order stamp }
    {
        if self.is_sent_in_order(sender, order, stamp) {
            stamp
        } else {
            None
        }
    }

    /// The serial of a federate's next message. No message has it, or a greater one.
    pub fn next_serial(&self, sender: FederateNo) -> Serial
        ensures serial { result ≡ (account_at self.now sender).next_serial }
        ensures unused { (f : ℕ) → copy_at (account_at self.now f).bag sender result ≡ None }
        ensures unsent { sent_of (account_at self.now sender).sent result ≡ no_event }
    {
        let _ = &self.accounts;
        match self.get(sender) {
            Some(account) => account.next_serial,
            None => 1,
        }
    }

    /// Whether a message of a federate goes to another: that one is joined, and there is a content for it.
    fn is_receiver(
        &self,
        sender: FederateNo,
        contents: &[Option<Content>],
        federate: FederateNo,
    ) -> bool
        ensures { result ≡ (is_other (λ k. (account_at self.now k).is_joined) sender federate
            && is_some (item_for contents.now federate)) }
    {
        sender != federate && self.is_joined(federate) && has_content(contents, federate)
    }

    /// To whom a message of a federate goes.
    fn receivers_of(&self, sender: FederateNo, contents: &[Option<Content>]) -> FederateSet
        ensures { federate_set result
            ≡ (λ f. is_other (λ k. (account_at self.now k).is_joined) sender f
            && is_some (item_for contents.now f)) }
    {
        let mut receivers = FederateSet::new();
        for federate in 1..self.next_federate() {
            if self.is_receiver(sender, contents, federate) {
                receivers.add(federate);
            }
        }
        receivers
    }

    /// A message takes the next serial of its sender. One that may be retracted has a stamp, in ticks, and is noted.
    /// `OutOfMemory` where a growth was refused.
    fn number(
        &mut self,
        sender: FederateNo,
        stamp: Option<Ticks>,
        contents: &[Option<Content>],
    ) -> Result<(), Fault>
        requires some { 0 < sender }
        requires within { sender ≤ length self.old }
        requires room { (account_at self.old sender).next_serial ≤ max_serial }
        requires unsent { sent_of (account_at self.old sender).sent
            (account_at self.old sender).next_serial ≡ no_event }
        ensures ok { OnOk result
            ((d : Directory)
            → let c = central_with d self.old in central_with d self.new
            ≡ record c {
              serial = upd c.serial sender (c.serial sender + 1);
              sent = upd2 c.sent sender (c.serial sender)
                  (kept_event stamp
                  (λ f. is_other c.directory.joined sender f && is_some (item_for contents.now f)));
            }) }
        ensures err { IfErr result (λ e. e ≡ Fault.OutOfMemory) }
    {
        match stamp {
            Some(stamp) => {
                let receivers = self.receivers_of(sender, contents);
                self.note(sender, stamp, receivers)
            }
            None => {
                self.take_serial(sender);
                Ok(())
            }
        }
    }

    /// The copy of a message for one federate waits for it, if it is joined, is not the sender, and there is a content for it.
    /// `OutOfMemory` where a growth was refused.
    fn put_copy(
        &mut self,
        federate: FederateNo,
        event: EventHandle,
        delivery: Delivery,
        content: Option<Content>,
    ) -> Result<(), Fault>
        requires some { 0 < federate }
        requires free { copy_at (account_at self.old federate).bag event.sender event.serial
            ≡ None }
        requires used { event.serial < (account_at self.old event.sender).next_serial }
        ensures ok { OnOk result
            ((d : Directory)
            → let c = central_with d self.old in central_with d self.new
            ≡ record c {
              bag = at_key c.bag event.sender event.serial federate
                  (when (is_other c.directory.joined event.sender federate)
                  (option_map (copy_given delivery) content));
            }) }
        ensures err { IfErr result (λ e. e ≡ Fault.OutOfMemory) }
    {
        if event.sender == federate || !self.is_joined(federate) {
            return Ok(());
        }
        match content {
            Some(content) => self.put(
                federate,
                Waiting {
                    event,
                    delivery,
                    content,
                },
            ),
            None => Ok(()),
        }
    }

    /// The copies of a message wait for its receivers. `OutOfMemory` where a growth was refused.
    fn put_copies(
        &mut self,
        event: EventHandle,
        delivery: Delivery,
        contents: Vec<Option<Content>>,
    ) -> Result<(), Fault>
        requires few { length contents.items ≤ max_joins }
        requires free { (f : ℕ)
            → copy_at (account_at self.old f).bag event.sender event.serial ≡ None }
        requires used { event.serial < (account_at self.old event.sender).next_serial }
        ensures ok { OnOk result
            ((d : Directory)
            → let c = central_with d self.old in central_with d self.new
            ≡ record c {
              bag = with_copies c.directory.joined c.bag event.sender event.serial
                  (copy_sent delivery contents.items);
            }) }
        ensures err { IfErr result (λ e. e ≡ Fault.OutOfMemory) }
    {
        let mut federate = 1;
        for content in contents {
            self.put_copy(federate, event, delivery, content)?;
            federate += 1;
        }
        Ok(())
    }

    /// A federate sends a message (Update Attribute Values, Send Interaction, Delete Object Instance, and Resign Federation
    /// Execution for each object that it deletes): the message takes its next serial, a copy waits for each receiver, and it
    /// is noted if it may be retracted. The caller says what the directory decides: its order, whether it is a deletion, and
    /// what it says to each federate, by number, counted from 1. What stands there for the sender, or for a federate that is
    /// not joined, counts for nothing. The stamp is in ticks. `OutOfMemory` where a growth was refused; nothing is said of
    /// the accounts then.
    pub fn send(
        &mut self,
        sender: FederateNo,
        order: Order,
        stamp: Option<Ticks>,
        is_deletion: bool,
        contents: Vec<Option<Content>>,
    ) -> Result<(), Fault>
        requires some { 0 < sender }
        requires within { sender ≤ length self.old }
        requires room { (account_at self.old sender).next_serial ≤ max_serial }
        requires few { length contents.items ≤ max_joins }
        ensures ok { OnOk result ((d : Directory) (out : Outgoing) →
            IsCutTo (central_with d self.old) sender out order is_deletion contents.items →
            central_with d self.new ≡ after_message (central_with d self.old) sender stamp out) }
        ensures err { IfErr result (λ e. e ≡ Fault.OutOfMemory) }
    {
        let stamp = self.stamp_in_order(sender, order, stamp);
        let event = EventHandle {
            sender,
            serial: self.next_serial(sender),
        };
        let noted = if is_deletion { None } else { stamp };
        self.number(sender, noted, contents.as_slice())?;
        self.put_copies(event, sent_delivery(stamp), contents)
    }
}
