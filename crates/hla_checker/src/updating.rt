//! Updating attributes, and whether the central machine allows it (HLA 1.3, object management).

ghost use Rattle.std.specs.Prelude.{◌≡◌, ◌≤◌, ◌+◌, true, length, OnOk, IfOk, IfErr};
ghost use Rattle.hla_base.specs.Limits.{max_serial};
ghost use Rattle.hla_base.specs.declared.fault.Fault.TheVariants.{OutOfMemory};
ghost use Rattle.std.specs.List.{list_all};
ghost use Rattle.hla_machine.specs.Directory.{is_of_order, order_of_attribute, part_sent, update_sent, values_of_order};
ghost use Rattle.hla_machine.specs.Machine.{send_answer};
ghost use Rattle.hla_machine.specs.Sends.{after_messages};
ghost use Rattle.hla_machine.specs.declared.service.Service.TheVariants as services;
ghost use Rattle.hla_machine.specs.declared.step.Step.TheVariants as steps;
ghost use Rattle.hla_accounts.specs.Accounts.{account_at};
ghost use Rattle.hla_verdicts.specs.Kept.{IsConsistent, JudgedStep, central_of, directory_of};

use crate::contents::{Body, ServiceMessage};
use crate::kept::KeptExecution;
use crate::pairs::by_handle;
use crate::values::Values;
use hla_base::{EventHandle, Fault, FederateNo, HandleValuePair, List, ObjectNo, Plain, Ticks};
use hla_catalogue::Order;
use hla_machine::{Choice, Outcome};
use hla_verdicts::{Verdict, answer_to_test, is_sent};

/// The values of an update that go in receive order, and those that go in time-stamp order.
#[derive(Debug, Drop)]
struct Parts {
    received: List<HandleValuePair>,
    stamped: List<HandleValuePair>,
}

impl KeptExecution {
    /// How many of these values are of attributes whose updates go in receive order: as many as a list of them has room for.
    fn count_received(&self, object: ObjectNo, values: &[HandleValuePair]) -> usize {
        values
            .iter()
            .filter(|value| self.order_of_attribute(object, value.handle) == Order::Receive)
            .count()
    }

    /// Whether all of these values are of attributes whose updates have this order.
    fn has_only(&self, order: Order, object: ObjectNo, values: &[HandleValuePair]) -> bool
        ensures { result ≡ list_all (λ (v : HandleValuePair). is_of_order order
            (order_of_attribute (directory_of self.now) object v.handle)) values.now }
    {
        values.iter().all(|value| self.order_of_attribute(object, value.handle) == order)
    }

    /// The values of the attributes whose updates go in receive order, and the others, each moved into its part. `OutOfMemory`
    /// where a growth was refused.
    fn split(&self, object: ObjectNo, values: List<HandleValuePair>) -> Result<Parts, Fault>
        ensures received { IfOk result
            (λ p. p.received
            ≡ values_of_order (directory_of self.now) object Order.Receive values) }
        ensures stamped { IfOk result
            (λ p. p.stamped
            ≡ values_of_order (directory_of self.now) object Order.Timestamp values) }
        ensures err { IfErr result (λ e. e ≡ Fault.OutOfMemory) }
    {
        let count = self.count_received(object, values.as_slice());
        let mut received = List::with_room(self.alloc, count)?;
        let mut stamped = List::with_room(self.alloc, values.len().saturating_sub(count))?;
        for value in values.into_vec() {
            match self.order_of_attribute(object, value.handle) {
                Order::Receive => received.push(value)?,
                Order::Timestamp => stamped.push(value)?,
            }
        }
        Ok(Parts { received, stamped })
    }

    /// The parts of an update: those that are given, where all have one order. `OutOfMemory` where a growth was refused.
    fn parts_of(&self, object: ObjectNo, values: List<HandleValuePair>) -> Result<Parts, Fault>
        ensures received { IfOk result
            (λ p. p.received
            ≡ values_of_order (directory_of self.now) object Order.Receive values) }
        ensures stamped { IfOk result
            (λ p. p.stamped
            ≡ values_of_order (directory_of self.now) object Order.Timestamp values) }
        ensures err { IfErr result (λ e. e ≡ Fault.OutOfMemory) }
    {
        if self.has_only(Order::Receive, object, values.as_slice()) {
            return Ok(Parts {
                received: values,
                stamped: List::new(self.alloc),
            });
        }
        if self.has_only(Order::Timestamp, object, values.as_slice()) {
            return Ok(Parts {
                received: List::new(self.alloc),
                stamped: values,
            });
        }
        self.split(object, values)
    }

    /// The handle of the part of an update that goes in time-stamp order, if there is one: the part in receive order goes
    /// before it.
    fn update_handle(
        &self,
        federate: FederateNo,
        object: ObjectNo,
        values: &[HandleValuePair],
        stamp: Option<Ticks>,
    ) -> Option<EventHandle>
        requires { (account_at self.now.accounts federate).next_serial ≤ max_serial + 1 }
        ensures { result ≡ send_answer (central_of self.now) federate stamp
            (update_sent (directory_of self.now) object values.now) }
    {
        if !self.has_order(Order::Timestamp, object, values) {
            return None;
        }
        if !self
            .accounts
            .is_sent_in_order(federate, Order::Timestamp, stamp)
        {
            return None;
        }
        let before = u64::from(self.has_order(Order::Receive, object, values));
        Some(EventHandle {
            sender: federate,
            serial: self.accounts.next_serial(federate) + before,
        })
    }

    /// A joined federate sends the part of an update that has one order; a part without values makes no message.
    /// `OutOfMemory` where a growth was refused.
    fn send_part(
        &mut self,
        federate: FederateNo,
        object: ObjectNo,
        order: Order,
        values: List<HandleValuePair>,
        stamp: Option<Ticks>,
    ) -> Result<(), Fault>
        requires consistent { IsConsistent self.old }
        requires joined { (account_at self.old.accounts federate).is_joined ≡ true }
        requires room { (account_at self.old.accounts federate).next_serial
            + length (part_sent order object values) ≤ max_serial + 1 }
        ensures sent { OnOk result
            (central_of self.new ≡ after_messages (central_of self.old) federate stamp
            (part_sent order object values)) }
        ensures consistent { OnOk result (IsConsistent self.new) }
        ensures err { IfErr result (λ e. e ≡ Fault.OutOfMemory) }
    {
        if values.is_empty() {
            return Ok(());
        }
        let values = Values::of(values);
        let body = Body::Update { object, values };
        self.send(federate, stamp, &mut ServiceMessage { order, body })
    }

    /// A joined federate updates attributes of an object: those whose updates go in receive order make one message, the
    /// others another one after it. `OutOfMemory` where a growth was refused.
    fn send_update(
        &mut self,
        federate: FederateNo,
        object: ObjectNo,
        values: &[HandleValuePair],
        stamp: Option<Ticks>,
    ) -> Result<(), Fault>
        requires consistent { IsConsistent self.old }
        requires joined { (account_at self.old.accounts federate).is_joined ≡ true }
        requires room { (account_at self.old.accounts federate).next_serial
            + length (update_sent (directory_of self.old) object values.now) ≤ max_serial + 1 }
        ensures sent { OnOk result
            (central_of self.new ≡ after_messages (central_of self.old) federate stamp
            (update_sent (directory_of self.old) object values.now)) }
        ensures consistent { OnOk result (IsConsistent self.new) }
        ensures err { IfErr result (λ e. e ≡ Fault.OutOfMemory) }
    {
        let values = by_handle(self.alloc, values)?;
        let parts = self.parts_of(object, values)?;
        self.send_part(federate, object, Order::Receive, parts.received, stamp)?;
        self.send_part(federate, object, Order::Timestamp, parts.stamped, stamp)
    }

    /// Whether the machine allows that a joined federate updates attributes of an object, which ended so and chose this;
    /// where it does, the update is sent. `OutOfMemory` where a growth was refused; nothing is said of the state then.
    pub(crate) fn judge_update_attribute_values(
        &mut self,
        federate: FederateNo,
        object: ObjectNo,
        values: &List<HandleValuePair>,
        stamp: Option<Ticks>,
        outcome: &Outcome,
        choice: &Choice,
    ) -> Result<Verdict, Fault>
        requires consistent { IsConsistent self.old }
        requires joined { (account_at self.old.accounts federate).is_joined ≡ true }
        ensures ok { IfOk result (JudgedStep self.old (steps.Call federate
            (services.UpdateAttributeValues object values.now stamp)) outcome.now choice.now
            self.new) }
        ensures err { IfErr result (λ e. e ≡ Fault.OutOfMemory) }
    {
        let fault = self.update_fault(federate, object, values.as_slice(), stamp);
        match answer_to_test(fault, outcome, choice) {
            Err(verdict) => Ok(verdict),
            Ok(answer) => {
                let handle = self.update_handle(federate, object, values.as_slice(), stamp);
                if !is_sent(answer, handle) {
                    return Ok(Verdict::Wrong);
                }
                self.send_update(federate, object, values.as_slice(), stamp)?;
                Ok(Verdict::Allowed)
            }
        }
    }
}
