//! In which order messages go, and whether the central machine allows a change of it (HLA 1.3, time management).

ghost use Rattle.std.specs.Prelude.{◌≡◌, true, IfOk, IfErr};
ghost use Rattle.hla_base.specs.declared.fault.Fault.TheVariants.{OutOfMemory};
ghost use Rattle.hla_machine.specs.Directory.{order_of_attribute, order_of_deletion, order_of_interaction};
ghost use Rattle.hla_machine.specs.declared.service.Service.TheVariants as services;
ghost use Rattle.hla_machine.specs.declared.step.Step.TheVariants as steps;
ghost use Rattle.hla_accounts.specs.Accounts.{account_at};
ghost use Rattle.hla_checker.specs.Ordering.{IsOrderCall};
ghost use Rattle.hla_verdicts.specs.Kept.{IsConsistent, JudgedStep, directory_of};

use crate::kept::KeptExecution;
use hla_base::{AttributeNo, ClassNo, Fault, FederateNo, List, ObjectNo};
use hla_catalogue::Order;
use hla_machine::{Choice, Outcome, Service};
use hla_verdicts::{Verdict, verdict_unless_done};

impl KeptExecution {
    /// In which order a federate's interactions of a class go now.
    pub(crate) fn order_of_interaction(&self, federate: FederateNo, class: ClassNo) -> Order
        ensures { result ≡ order_of_interaction (directory_of self.now) federate class }
    {
        match self.declarations.interaction_order(federate, class) {
            Some(order) => order,
            None => self.catalogue.interaction_order(class),
        }
    }

    /// In which order updates of an attribute of an object go now.
    pub(crate) fn order_of_attribute(&self, object: ObjectNo, attribute: AttributeNo) -> Order
        ensures { result ≡ order_of_attribute (directory_of self.now) object attribute }
    {
        match self.registry.changed_order(object, attribute) {
            Some(order) => order,
            None => self.catalogue.attribute_order(attribute),
        }
    }

    /// In which order the deletion of an object goes now.
    pub(crate) fn order_of_deletion(&self, object: ObjectNo) -> Order
        ensures { result ≡ order_of_deletion (directory_of self.now) object }
    {
        let class = self.registry.class_of(object);
        match self.catalogue.deletion_privilege(class) {
            Some(attribute) => self.order_of_attribute(object, attribute),
            None => Order::Receive,
        }
    }

    /// Whether the machine allows a joined federate's Change Attribute Order Type that ended so and chose this; where it does,
    /// the orders are changed. `OutOfMemory` where a growth was refused; nothing is said of the state then.
    fn judge_attribute_order(
        &mut self,
        federate: FederateNo,
        object: ObjectNo,
        attributes: &List<AttributeNo>,
        order: Order,
        outcome: &Outcome,
        choice: &Choice,
    ) -> Result<Verdict, Fault>
        requires consistent { IsConsistent self.old }
        requires joined { (account_at self.old.accounts federate).is_joined ≡ true }
        ensures ok { IfOk result (JudgedStep self.old (steps.Call federate
            (services.ChangeAttributeOrderType object attributes.now order))
            outcome.now choice.now self.new) }
        ensures err { IfErr result (λ e. e ≡ Fault.OutOfMemory) }
    {
        let fault = self.attribute_order_fault(federate, object, attributes.as_slice());
        match verdict_unless_done(fault, outcome, choice) {
            Some(verdict) => Ok(verdict),
            None => {
                let count = self.catalogue.attributes().len();
                self.registry
                    .change_orders(self.alloc, object, attributes.as_slice(), order, count)?;
                Ok(Verdict::Allowed)
            }
        }
    }

    /// Whether the machine allows a joined federate's Change Interaction Order Type that ended so and chose this; where it
    /// does, the order is changed. `OutOfMemory` where a growth was refused; nothing is said of the state then.
    fn judge_interaction_order(
        &mut self,
        federate: FederateNo,
        class: ClassNo,
        order: Order,
        outcome: &Outcome,
        choice: &Choice,
    ) -> Result<Verdict, Fault>
        requires consistent { IsConsistent self.old }
        requires joined { (account_at self.old.accounts federate).is_joined ≡ true }
        ensures ok { IfOk result (JudgedStep self.old (steps.Call federate
            (services.ChangeInteractionOrderType class order)) outcome.now choice.now self.new) }
        ensures err { IfErr result (λ e. e ≡ Fault.OutOfMemory) }
    {
        let fault = self.interaction_order_fault(federate, class);
        match verdict_unless_done(fault, outcome, choice) {
            Some(verdict) => Ok(verdict),
            None => {
                self.declarations
                    .change_interaction_order(federate, class, order)?;
                Ok(Verdict::Allowed)
            }
        }
    }

    /// Whether the machine allows a joined federate's call that changes an order, ended so and chose this; where it does, the
    /// order is changed. `OutOfMemory` where a growth was refused; nothing is said of the state then.
    #[tactic(auto, using(hla_verdicts::proofs::Steps::Outcomes::called_as))]
    pub(crate) fn judge_order_change(
        &mut self,
        federate: FederateNo,
        service: &Service,
        outcome: &Outcome,
        choice: &Choice,
    ) -> Result<Verdict, Fault>
        requires consistent { IsConsistent self.old }
        requires joined { (account_at self.old.accounts federate).is_joined ≡ true }
        requires order { IsOrderCall service.now }
        ensures ok { IfOk result
            (JudgedStep self.old
            (steps.Call federate service.now) outcome.now choice.now self.new) }
        ensures err { IfErr result (λ e. e ≡ Fault.OutOfMemory) }
    {
        match service {
            Service::ChangeAttributeOrderType {
                object,
                attributes,
                order,
            } => self.judge_attribute_order(federate, *object, attributes, *order, outcome, choice),
            Service::ChangeInteractionOrderType { class, order } => {
                self.judge_interaction_order(federate, *class, *order, outcome, choice)
            }
            _ => unreachable!(),
        }
    }
}
