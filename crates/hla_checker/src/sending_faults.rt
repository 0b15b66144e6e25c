//! Why a federate may not send, delete or resign (HLA 1.3, object management and federation management).

ghost use Rattle.std.specs.Prelude.{◌≡◌, List, not, length};
ghost use Rattle.std.specs.List.{list_any};
ghost use Rattle.hla_base.specs.declared.content.HandleValuePair.{HandleValuePair};
ghost use Rattle.hla_base.specs.RowRefusals.{first_fault};
ghost use Rattle.hla_catalogue.specs.Lookup.{has_attribute, has_parameter};
ghost use Rattle.hla_catalogue.specs.declared.declared.Order.TheVariants.{Timestamp};
ghost use Rattle.hla_machine.specs.Directory.{Outgoing, is_of_order, order_of_attribute, update_sent};
ghost use Rattle.hla_machine.specs.Machine.{central_seen};
ghost use Rattle.hla_machine.specs.Refusals.{call_tests, is_owned, is_published};
ghost use Rattle.hla_machine.specs.declared.service.Service.TheVariants as services;
ghost use Rattle.hla_accounts.specs.Accounts.{account_at};
ghost use Rattle.hla_verdicts.specs.Kept.{central_of, directory_of};
ghost use Rattle.hla_checker.specs.Sending.{sending_tests};

use crate::kept::KeptExecution;
use hla_accounts::Accounts;
use hla_base::{ClassNo, Fault, FederateNo, HandleValuePair, ObjectNo, Ticks};
use hla_catalogue::Order;
use hla_machine::ResignAction;

/// Whether messages of this order go in time-stamp order, where their sender gives a stamp and regulates.
fn is_timestamp(order: Order) -> bool
    ensures { result ≡ is_of_order Timestamp order }
{
    order == Order::Timestamp
}

/// Why a federate may not send so many messages with a stamp, in ticks, if it may not. `is_some_timestamp` says whether the
/// order of one of them is time-stamp order.
fn sending_fault(
    accounts: &Accounts,
    federate: FederateNo,
    stamp: Option<Ticks>,
    is_some_timestamp: bool,
    count: u64,
) -> Option<Fault>
    ensures { (outs : List Outgoing) →
        list_any (λ (out : Outgoing). is_of_order Timestamp out.order) outs ≡ is_some_timestamp →
        length outs ≡ count →
        result ≡ first_fault (sending_tests (account_at accounts.now federate) stamp outs) }
{
    if accounts.is_bad_stamp(federate, stamp, is_some_timestamp) {
        Some(Fault::InvalidFederationTime)
    } else if accounts.is_out_of_serials(federate, count) {
        Some(Fault::LimitReached)
    } else {
        None
    }
}

impl KeptExecution {
    /// Whether a class lacks one of these parameters.
    fn lacks_parameter(&self, class: ClassNo, values: &[HandleValuePair]) -> bool
        ensures { result ≡ list_any (λ (v : HandleValuePair). not
            (has_parameter self.now.catalogue class v.handle)) values.now }
    {
        values
            .iter()
            .any(|v| !self.catalogue.has_parameter(class, v.handle))
    }

    /// Whether a class lacks one of these attributes.
    fn lacks_value(&self, class: ClassNo, values: &[HandleValuePair]) -> bool
        ensures { result ≡ list_any (λ (v : HandleValuePair). not
            (has_attribute self.now.catalogue class v.handle)) values.now }
    {
        values
            .iter()
            .any(|v| !self.catalogue.has_attribute(class, v.handle))
    }

    /// Whether a federate does not own one of these attributes of an object.
    fn lacks_ownership(
        &self,
        federate: FederateNo,
        object: ObjectNo,
        values: &[HandleValuePair],
    ) -> bool
        ensures { result ≡ list_any (λ (v : HandleValuePair). not
            (is_owned (directory_of self.now) federate object v.handle)) values.now }
    {
        values.iter().any(|v| !self.registry.owns_attribute(federate, object, v.handle))
    }

    /// Whether a federate does not publish one of these attributes of a class.
    fn lacks_publication(
        &self,
        federate: FederateNo,
        class: ClassNo,
        values: &[HandleValuePair],
    ) -> bool
        ensures { result ≡ list_any (λ (v : HandleValuePair). not
            (is_published (directory_of self.now) federate class v.handle)) values.now }
    {
        values.iter().any(|v| !self
            .declarations
            .publishes_attribute(federate, class, v.handle))
    }

    /// Whether one of these values is of an attribute whose updates have this order, of this object and now.
    pub(crate) fn has_order(
        &self,
        order: Order,
        object: ObjectNo,
        values: &[HandleValuePair],
    ) -> bool
        ensures { result ≡ list_any (λ (v : HandleValuePair). is_of_order order
            (order_of_attribute (directory_of self.now) object v.handle)) values.now }
    {
        values
            .iter()
            .any(|v| self.order_of_attribute(object, v.handle) == order)
    }

    /// How many messages an update of an object makes: one for each order that one of its attributes has.
    fn count_parts(&self, object: ObjectNo, values: &[HandleValuePair]) -> u64
        ensures { length (update_sent (directory_of self.now) object values.now) ≡ result }
    {
        let received = self.has_order(Order::Receive, object, values);
        let stamped = self.has_order(Order::Timestamp, object, values);
        u64::from(received) + u64::from(stamped)
    }

    /// Why a joined federate may not send an interaction with this stamp, in ticks, if it may not.
    pub(crate) fn interaction_fault(
        &self,
        federate: FederateNo,
        class: ClassNo,
        values: &[HandleValuePair],
        stamp: Option<Ticks>,
    ) -> Option<Fault>
        ensures { result ≡ first_fault (call_tests (central_seen (central_of self.now)) federate
            (services.SendInteraction class values.now stamp)) }
    {
        let is_stamped = is_timestamp(self.order_of_interaction(federate, class));
        if !self.catalogue.is_interaction_class(class) {
            Some(Fault::InteractionClassNotDefined)
        } else if self.lacks_parameter(class, values) {
            Some(Fault::InteractionParameterNotDefined)
        } else if !self
            .declarations
            .publishes_interaction_class(federate, class)
        {
            Some(Fault::InteractionClassNotPublished)
        } else {
            sending_fault(&self.accounts, federate, stamp, is_stamped, 1)
        }
    }

    /// Why a joined federate may not update attributes of an object with this stamp, in ticks, if it may not.
    pub(crate) fn update_fault(
        &self,
        federate: FederateNo,
        object: ObjectNo,
        values: &[HandleValuePair],
        stamp: Option<Ticks>,
    ) -> Option<Fault>
        ensures { result ≡ first_fault (call_tests (central_seen (central_of self.now)) federate
            (services.UpdateAttributeValues object values.now stamp)) }
    {
        let class = self.registry.class_of(object);
        let is_stamped = self.has_order(Order::Timestamp, object, values);
        if !self.registry.is_known(object, federate) {
            Some(Fault::ObjectNotKnown)
        } else if self.lacks_value(class, values) {
            Some(Fault::AttributeNotDefined)
        } else if self.lacks_ownership(federate, object, values) {
            Some(Fault::AttributeNotOwned)
        } else if self.lacks_publication(federate, class, values) {
            Some(Fault::AttributeNotPublished)
        } else {
            let count = self.count_parts(object, values);
            sending_fault(&self.accounts, federate, stamp, is_stamped, count)
        }
    }

    /// Why a joined federate may not delete an object with this stamp, in ticks, if it may not.
    pub(crate) fn deletion_fault(
        &self,
        federate: FederateNo,
        object: ObjectNo,
        stamp: Option<Ticks>,
    ) -> Option<Fault>
        ensures { result ≡ first_fault (call_tests (central_seen (central_of self.now)) federate
            (services.DeleteObjectInstance object stamp)) }
    {
        let is_stamped = is_timestamp(self.order_of_deletion(object));
        if !self.registry.is_known(object, federate) {
            Some(Fault::ObjectNotKnown)
        } else if self.registry.owner(object) != federate {
            Some(Fault::DeletePrivilegeNotHeld)
        } else {
            sending_fault(&self.accounts, federate, stamp, is_stamped, 1)
        }
    }

    /// Why a joined federate may not resign so, if it may not.
    pub(crate) fn resign_fault(&self, federate: FederateNo, action: ResignAction) -> Option<Fault>
        ensures { result ≡ first_fault (call_tests (central_seen (central_of self.now)) federate
            (services.Resign action)) }
    {
        let owned = self.registry.count_owned_by(federate) as u64;
        match action {
            ResignAction::NoAction => {
                if owned > 0 {
                    Some(Fault::FederateOwnsAttributes)
                } else {
                    None
                }
            }
            ResignAction::DeleteObjects => {
                if self.accounts.is_out_of_serials(federate, owned) {
                    Some(Fault::LimitReached)
                } else {
                    None
                }
            }
            ResignAction::ReleaseAttributes | ResignAction::DeleteObjectsAndReleaseAttributes => {
                Some(Fault::InvalidResignAction)
            }
        }
    }
}
