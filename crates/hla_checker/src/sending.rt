//! Sending messages, and whether the central machine allows it (HLA 1.3, object management).

ghost use Rattle.std.specs.Prelude.{◌≡◌, ◌≤◌, List, true, OnOk, IfOk, IfErr, ◌∷◌, []};
ghost use Rattle.hla_base.specs.Limits.{max_serial};
ghost use Rattle.hla_base.specs.declared.content.HandleValuePair.{HandleValuePair};
ghost use Rattle.hla_base.specs.declared.fault.Fault.TheVariants.{OutOfMemory};
ghost use Rattle.hla_machine.specs.Directory.{interaction_sent, Outgoing};
ghost use Rattle.hla_machine.specs.Machine.{send_answer};
ghost use Rattle.hla_machine.specs.Sends.{after_message, after_messages, is_deletion};
ghost use Rattle.hla_machine.specs.declared.service.Service.TheVariants as services;
ghost use Rattle.hla_machine.specs.declared.step.Step.TheVariants as steps;
ghost use Rattle.hla_accounts.specs.Accounts.{account_at};
ghost use Rattle.hla_verdicts.specs.Kept.{IsConsistent, JudgedStep, central_of, directory_of};
ghost use Rattle.hla_checker.specs.Sending.{body_said, outgoing};

use crate::contents::{Body, ServiceMessage};
use crate::kept::KeptExecution;
use crate::pairs::by_handle;
use crate::values::Values;
use hla_base::{ClassNo, EventHandle, Fault, FederateNo, HandleValuePair, List, Ticks};
use hla_catalogue::Order;
use hla_machine::{Choice, Outcome};
use hla_verdicts::{Verdict, answer_to_test, is_sent};

impl Body {
    /// Whether it is a deletion.
    fn is_deletion(&self) -> bool
        ensures { result ≡ is_deletion (body_said self.now) }
    {
        match self {
            Body::Interaction { .. } => false,
            Body::Update { .. } => false,
            Body::Deletion { .. } => true,
        }
    }
}

impl KeptExecution {
    /// A joined federate sends a message, with a stamp in ticks or without one. `OutOfMemory` where a growth was refused;
    /// nothing is said of the state then.
    pub(crate) fn send(
        &mut self,
        federate: FederateNo,
        stamp: Option<Ticks>,
        message: &mut ServiceMessage,
    ) -> Result<(), Fault>
        requires consistent { IsConsistent self.old }
        requires joined { (account_at self.old.accounts federate).is_joined ≡ true }
        requires room { (account_at self.old.accounts federate).next_serial ≤ max_serial }
        ensures sent { OnOk result
            (central_of self.new ≡ after_message (central_of self.old) federate stamp
            (outgoing message.old)) }
        ensures consistent { OnOk result (IsConsistent self.new) }
        ensures err { IfErr result (λ e. e ≡ Fault.OutOfMemory) }
    {
        let is_deletion = message.body.is_deletion();
        let contents = self.contents_of(&mut message.body)?;
        self.accounts
            .send(federate, message.order, stamp, is_deletion, contents)?;
        Ok(())
    }

    /// The handle of a federate's next message of this order, if it goes in time-stamp order.
    fn handle_of(
        &self,
        federate: FederateNo,
        order: Order,
        stamp: Option<Ticks>,
    ) -> Option<EventHandle>
        ensures { (out : Outgoing) → out.order ≡ order →
            result ≡ send_answer (central_of self.now) federate stamp (out ∷ []) }
    {
        if self.accounts.is_sent_in_order(federate, order, stamp) {
            Some(EventHandle {
                sender: federate,
                serial: self.accounts.next_serial(federate),
            })
        } else {
            None
        }
    }

    /// The handle of an interaction that a federate sends now, if it goes in time-stamp order.
    fn interaction_handle(
        &self,
        federate: FederateNo,
        class: ClassNo,
        stamp: Option<Ticks>,
    ) -> Option<EventHandle>
        ensures { (values : List HandleValuePair)
            → result ≡ send_answer (central_of self.now) federate stamp
            (interaction_sent (directory_of self.now) federate class values) }
    {
        let order = self.order_of_interaction(federate, class);
        self.handle_of(federate, order, stamp)
    }

    /// A joined federate sends an interaction. `OutOfMemory` where a growth was refused.
    fn send_interaction(
        &mut self,
        federate: FederateNo,
        class: ClassNo,
        values: &[HandleValuePair],
        stamp: Option<Ticks>,
    ) -> Result<(), Fault>
        requires consistent { IsConsistent self.old }
        requires joined { (account_at self.old.accounts federate).is_joined ≡ true }
        requires room { (account_at self.old.accounts federate).next_serial ≤ max_serial }
        ensures sent { OnOk result
            (central_of self.new ≡ after_messages (central_of self.old) federate stamp
            (interaction_sent (directory_of self.old) federate class values.now)) }
        ensures consistent { OnOk result (IsConsistent self.new) }
        ensures err { IfErr result (λ e. e ≡ Fault.OutOfMemory) }
    {
        let order = self.order_of_interaction(federate, class);
        let values = Values::of(by_handle(self.alloc, values)?);
        let body = Body::Interaction { class, values };
        self.send(federate, stamp, &mut ServiceMessage { order, body })
    }

    /// Whether the machine allows that a joined federate sends an interaction, which ended so and chose this; where it
    /// does, it is sent. `OutOfMemory` where a growth was refused; nothing is said of the state then.
    pub(crate) fn judge_send_interaction(
        &mut self,
        federate: FederateNo,
        class: ClassNo,
        values: &List<HandleValuePair>,
        stamp: Option<Ticks>,
        outcome: &Outcome,
        choice: &Choice,
    ) -> Result<Verdict, Fault>
        requires consistent { IsConsistent self.old }
        requires joined { (account_at self.old.accounts federate).is_joined ≡ true }
        ensures ok { IfOk result (JudgedStep self.old (steps.Call federate
            (services.SendInteraction class values.now stamp)) outcome.now choice.now self.new) }
        ensures err { IfErr result (λ e. e ≡ Fault.OutOfMemory) }
    {
        let fault = self.interaction_fault(federate, class, values.as_slice(), stamp);
        match answer_to_test(fault, outcome, choice) {
            Err(verdict) => Ok(verdict),
            Ok(answer) => {
                let handle = self.interaction_handle(federate, class, stamp);
                if !is_sent(answer, handle) {
                    return Ok(Verdict::Wrong);
                }
                self.send_interaction(federate, class, values.as_slice(), stamp)?;
                Ok(Verdict::Allowed)
            }
        }
    }
}
