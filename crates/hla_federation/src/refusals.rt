//! Which fault a step is refused with: the first of its list that applies.

ghost use Rattle.std.specs.Prelude.{◌≡◌, ◌<◌, not, ◌∷◌, []};
ghost use Rattle.std.specs.List.{list_any};
ghost use Rattle.hla_base.specs.declared.content.HandleValuePair.{HandleValuePair};
ghost use Rattle.hla_catalogue.specs.Lookup.{has_attribute, has_parameter};
ghost use Rattle.hla_catalogue.specs.declared.declared.Order.{Order};
ghost use Rattle.hla_base.specs.RowRefusals.{first_fault};
ghost use Rattle.hla_machine.specs.Refusals.{refusal, joined_test, no_object_class, no_interaction_class, no_attribute, is_length_in, is_owned, is_published};
ghost use Rattle.hla_machine.specs.declared.service.Service.TheVariants as service;
ghost use Rattle.hla_machine.specs.declared.step.Step.TheVariants as step;
ghost use Rattle.hla_components.specs.Next.{components_seen};
ghost use Rattle.hla_federation.specs.Steps.Soundness.{MayCall};
ghost use Rattle.hla_federation.specs.Steps.State.{state_of, GivesHandle};

mod messages;

use crate::parts::Parts;
use hla_base::{
    AttributeNo, ClassNo, Fault, FederateNo, HandleValuePair, List, MAX_FEDERATE_NAME, MAX_JOINS,
    MAX_NAME, MAX_OBJECTS, MAX_POINT_LABEL, MAX_SERIAL, ObjectNo, ParameterNo,
};
use hla_catalogue::Order;
use hla_machine::ResignAction;

/// Whether a name has at least one byte, and at most so many.
fn fits_name(name: &[u8], most: usize) -> bool
    ensures { result ≡ is_length_in 1 most name.now }
{
    !name.is_empty() && name.len() <= most
}

impl Parts {
    /// Whether a class lacks one of these attributes.
    fn lacks_attribute(&self, class: ClassNo, attributes: &[AttributeNo]) -> bool
        ensures { result
            ≡ list_any (λ a. not (has_attribute self.now.catalogue class a)) attributes.now }
    {
        attributes
            .iter()
            .any(|a| !self.catalogue.has_attribute(class, *a))
    }

    /// Whether a class lacks one of these parameters.
    fn lacks_parameter(&self, class: ClassNo, values: &[HandleValuePair]) -> bool
        ensures { result ≡ list_any (λ (v : HandleValuePair). not
            (has_parameter self.now.catalogue class v.handle)) values.now }
    {
        values
            .iter()
            .any(|v| !self.catalogue.has_parameter(class, v.handle))
    }

    /// Whether a class lacks one of the attributes that have these values.
    fn lacks_value(&self, class: ClassNo, values: &[HandleValuePair]) -> bool
        ensures { result ≡ list_any (λ (v : HandleValuePair). not
            (has_attribute self.now.catalogue class v.handle)) values.now }
    {
        values
            .iter()
            .any(|v| !self.catalogue.has_attribute(class, v.handle))
    }

    /// Whether a federate does not own one of these attributes of an object.
    fn lacks_ownership(
        &self,
        federate: FederateNo,
        object: ObjectNo,
        values: &[HandleValuePair],
    ) -> bool
        ensures { result ≡ list_any (λ (v : HandleValuePair). not
            (is_owned (state_of self.now).directory federate object v.handle)) values.now }
    {
        values.iter().any(|v| !self.registry.owns_attribute(federate, object, v.handle))
    }

    /// Whether a federate does not publish one of these attributes of a class.
    fn lacks_publication(
        &self,
        federate: FederateNo,
        class: ClassNo,
        values: &[HandleValuePair],
    ) -> bool
        ensures { result ≡ list_any (λ (v : HandleValuePair). not
            (is_published (state_of self.now).directory federate class v.handle)) values.now }
    {
        values.iter().any(|v| !self
            .declarations
            .publishes_attribute(federate, class, v.handle))
    }

    /// Why a federate may not call, announce or tick, if it may not.
    pub fn caller_fault(&self, federate: FederateNo) -> Option<Fault>
        ensures { result ≡ first_fault (joined_test (state_of self.now).directory federate ∷ []) }
    {
        if self.members.is_joined(federate) {
            None
        } else {
            Some(Fault::FederateNotExecutionMember)
        }
    }

    /// Why nothing may be carried from a federate to another, if it may not: a wire leads to one that is joined, from one
    /// that ever was.
    pub fn carry_fault(&self, from: FederateNo, to: FederateNo) -> Option<Fault>
        ensures { result ≡ refusal (components_seen (state_of self.now)) (step.Carry from to) }
    {
        if !self.members.is_joined(to)
            || from == to
            || from == 0
            || from >= self.members.next_federate()
        {
            Some(Fault::FederateNotExecutionMember)
        } else {
            None
        }
    }

    /// Why a number is of no object class, if it is of none.
    pub fn object_class_fault(&self, class: ClassNo) -> Option<Fault>
        ensures { result ≡ first_fault (no_object_class (state_of self.now).directory class ∷ []) }
    {
        if self.catalogue.is_object_class(class) {
            None
        } else {
            Some(Fault::ObjectClassNotDefined)
        }
    }

    /// Why a number is of no interaction class, if it is of none.
    pub fn interaction_class_fault(&self, class: ClassNo) -> Option<Fault>
        ensures { result
            ≡ first_fault (no_interaction_class (state_of self.now).directory class ∷ []) }
    {
        if self.catalogue.is_interaction_class(class) {
            None
        } else {
            Some(Fault::InteractionClassNotDefined)
        }
    }

    /// Why the name of an object may not be looked up, if it may not.
    pub fn object_name_fault(&self, federate: FederateNo, object: ObjectNo) -> Option<Fault>
        requires { MayCall self.now federate }
        ensures { result ≡ refusal (components_seen (state_of self.now))
            (step.Call federate (service.GetObjectInstanceName object)) }
    {
        if self.registry.is_known(object, federate) {
            None
        } else {
            Some(Fault::ObjectNotKnown)
        }
    }

    /// The object class of this name. `NameNotFound` where there is none.
    pub fn object_class_handle(&self, federate: FederateNo, name: &[u8]) -> Result<ClassNo, Fault>
        requires { MayCall self.now federate }
        ensures { GivesHandle self.now
            (step.Call federate (service.GetObjectClassHandle name.now)) result }
    {
        match self.catalogue.object_class(name) {
            Some(number) => Ok(number),
            None => Err(Fault::NameNotFound),
        }
    }

    /// The interaction class of this name. `NameNotFound` where there is none.
    pub fn interaction_class_handle(
        &self,
        federate: FederateNo,
        name: &[u8],
    ) -> Result<ClassNo, Fault>
        requires { MayCall self.now federate }
        ensures { GivesHandle self.now
            (step.Call federate (service.GetInteractionClassHandle name.now)) result }
    {
        match self.catalogue.interaction_class(name) {
            Some(number) => Ok(number),
            None => Err(Fault::NameNotFound),
        }
    }

    /// The attribute of this name that a class has. `ObjectClassNotDefined` where the FED file has no such class; else
    /// `NameNotFound` where the class has no attribute of this name.
    pub fn attribute_handle(
        &self,
        federate: FederateNo,
        name: &[u8],
        class: ClassNo,
    ) -> Result<AttributeNo, Fault>
        requires { MayCall self.now federate }
        ensures { GivesHandle self.now
            (step.Call federate (service.GetAttributeHandle name.now class)) result }
    {
        if let Some(fault) = self.object_class_fault(class) {
            return Err(fault);
        }
        match self.catalogue.attribute(class, name) {
            Some(number) => Ok(number),
            None => Err(Fault::NameNotFound),
        }
    }

    /// The parameter of this name that a class has. `InteractionClassNotDefined` where the FED file has no such class; else
    /// `NameNotFound` where the class has no parameter of this name.
    pub fn parameter_handle(
        &self,
        federate: FederateNo,
        name: &[u8],
        class: ClassNo,
    ) -> Result<ParameterNo, Fault>
        requires { MayCall self.now federate }
        ensures { GivesHandle self.now
            (step.Call federate (service.GetParameterHandle name.now class)) result }
    {
        if let Some(fault) = self.interaction_class_fault(class) {
            return Err(fault);
        }
        match self.catalogue.parameter(class, name) {
            Some(number) => Ok(number),
            None => Err(Fault::NameNotFound),
        }
    }

    /// The object of this name that a federate knows. `ObjectNotKnown` where it knows none.
    pub fn object_handle(&self, federate: FederateNo, name: &[u8]) -> Result<ObjectNo, Fault>
        requires { MayCall self.now federate }
        ensures { GivesHandle self.now
            (step.Call federate (service.GetObjectInstanceHandle name.now)) result }
    {
        match self.registry.object_named(federate, name) {
            Some(number) => Ok(number),
            None => Err(Fault::ObjectNotKnown),
        }
    }

    /// Why an object class may not be published or subscribed with these attributes, if it may not.
    pub fn attributes_fault(&self, class: ClassNo, attributes: &[AttributeNo]) -> Option<Fault>
        ensures { let d = (state_of self.now).directory in
            result
            ≡ first_fault (no_object_class d class ∷ no_attribute d class attributes.now ∷ []) }
    {
        if !self.catalogue.is_object_class(class) {
            Some(Fault::ObjectClassNotDefined)
        } else if self.lacks_attribute(class, attributes) {
            Some(Fault::AttributeNotDefined)
        } else {
            None
        }
    }

    /// Why an object class may not be unpublished, if it may not.
    pub fn unpublish_object_fault(&self, federate: FederateNo, class: ClassNo) -> Option<Fault>
        requires { MayCall self.now federate }
        ensures { result ≡ refusal (components_seen (state_of self.now))
            (step.Call federate (service.UnpublishObjectClass class)) }
    {
        if !self.catalogue.is_object_class(class) {
            Some(Fault::ObjectClassNotDefined)
        } else if !self.declarations.publishes_object_class(federate, class) {
            Some(Fault::ObjectClassNotPublished)
        } else {
            None
        }
    }

    /// Why an object class may not be unsubscribed, if it may not.
    pub fn unsubscribe_object_fault(&self, federate: FederateNo, class: ClassNo) -> Option<Fault>
        requires { MayCall self.now federate }
        ensures { result ≡ refusal (components_seen (state_of self.now))
            (step.Call federate (service.UnsubscribeObjectClass class)) }
    {
        if !self.catalogue.is_object_class(class) {
            Some(Fault::ObjectClassNotDefined)
        } else if !self.declarations.subscribes_object_class(federate, class) {
            Some(Fault::ObjectClassNotSubscribed)
        } else {
            None
        }
    }

    /// Why an interaction class may not be unpublished, if it may not.
    pub fn unpublish_interaction_fault(&self, federate: FederateNo, class: ClassNo) -> Option<Fault>
        requires { MayCall self.now federate }
        ensures { result ≡ refusal (components_seen (state_of self.now))
            (step.Call federate (service.UnpublishInteractionClass class)) }
    {
        if !self.catalogue.is_interaction_class(class) {
            Some(Fault::InteractionClassNotDefined)
        } else if !self
            .declarations
            .publishes_interaction_class(federate, class)
        {
            Some(Fault::InteractionClassNotPublished)
        } else {
            None
        }
    }

    /// Why an interaction class may not be unsubscribed, if it may not.
    pub fn unsubscribe_interaction_fault(
        &self,
        federate: FederateNo,
        class: ClassNo,
    ) -> Option<Fault>
        requires { MayCall self.now federate }
        ensures { result ≡ refusal (components_seen (state_of self.now))
            (step.Call federate (service.UnsubscribeInteractionClass class)) }
    {
        if !self.catalogue.is_interaction_class(class) {
            Some(Fault::InteractionClassNotDefined)
        } else if !self
            .declarations
            .subscribes_interaction_class(federate, class)
        {
            Some(Fault::InteractionClassNotSubscribed)
        } else {
            None
        }
    }

    /// Why a federate may not join under a name, if it may not.
    pub fn join_fault(&self, name: &[u8]) -> Option<Fault>
        ensures { result ≡ refusal (components_seen (state_of self.now)) (step.Join name.now) }
    {
        if self.members.is_name_joined(name) {
            Some(Fault::FederateAlreadyExecutionMember)
        } else if self.members.next_federate() as usize > MAX_JOINS
            || !fits_name(name, MAX_FEDERATE_NAME)
        {
            Some(Fault::LimitReached)
        } else {
            None
        }
    }

    /// Why an object may not be registered, if it may not.
    pub fn register_fault(
        &self,
        federate: FederateNo,
        class: ClassNo,
        name: &Option<List<u8>>,
    ) -> Option<Fault>
        requires { MayCall self.now federate }
        ensures { result ≡ refusal (components_seen (state_of self.now))
            (step.Call federate (service.RegisterObjectInstance class name.now)) }
    {
        let given = match name {
            Some(name) => name.as_slice(),
            None => self.next_name.as_slice(),
        };
        if !self.catalogue.is_object_class(class) {
            Some(Fault::ObjectClassNotDefined)
        } else if !self.declarations.publishes_object_class(federate, class) {
            Some(Fault::ObjectClassNotPublished)
        } else if self.registry.is_name_used(given) {
            Some(Fault::ObjectAlreadyRegistered)
        } else if self.registry.next_object() > MAX_OBJECTS || !fits_name(given, MAX_NAME) {
            Some(Fault::LimitReached)
        } else {
            None
        }
    }

    /// Whether a federate does not own one of these attributes of an object.
    fn lacks_attribute_of(
        &self,
        federate: FederateNo,
        object: ObjectNo,
        attributes: &[AttributeNo],
    ) -> bool
        ensures { result ≡ list_any (λ a. not
            (is_owned (state_of self.now).directory federate object a)) attributes.now }
    {
        attributes
            .iter()
            .any(|a| !self.registry.owns_attribute(federate, object, *a))
    }

    /// Why a federate may not change the order of these attributes of an object, if it may not.
    pub fn attribute_order_fault(
        &self,
        federate: FederateNo,
        object: ObjectNo,
        attributes: &[AttributeNo],
    ) -> Option<Fault>
        requires { MayCall self.now federate }
        ensures { (order : Order) → result ≡ refusal (components_seen (state_of self.now))
            (step.Call federate (service.ChangeAttributeOrderType object attributes.now order)) }
    {
        let class = self.registry.class_of(object);
        if !self.registry.is_known(object, federate) {
            Some(Fault::ObjectNotKnown)
        } else if self.lacks_attribute(class, attributes) {
            Some(Fault::AttributeNotDefined)
        } else if self.lacks_attribute_of(federate, object, attributes) {
            Some(Fault::AttributeNotOwned)
        } else {
            None
        }
    }

    /// Why a federate may not change the order of its interactions of a class, if it may not.
    pub fn interaction_order_fault(&self, federate: FederateNo, class: ClassNo) -> Option<Fault>
        requires { MayCall self.now federate }
        ensures { (order : Order) → result ≡ refusal (components_seen (state_of self.now))
            (step.Call federate (service.ChangeInteractionOrderType class order)) }
    {
        self.unpublish_interaction_fault(federate, class)
    }

    /// Why a federate may not register a synchronization point of this label, if it may not.
    pub fn register_point_fault(&self, federate: FederateNo, label: &[u8]) -> Option<Fault>
        requires { MayCall self.now federate }
        ensures { result ≡ refusal (components_seen (state_of self.now)) (step.Call federate
            (service.RegisterFederationSynchronizationPoint label.now)) }
    {
        let _caller = federate;
        if !fits_name(label, MAX_POINT_LABEL)
            || (!self.points.is_open(label) && self.points.is_full())
        {
            Some(Fault::LimitReached)
        } else {
            None
        }
    }

    /// Why a federate may not achieve the synchronization point of this label, if it may not: it was not told of it, has
    /// achieved it, or none is open.
    pub fn achieve_fault(&self, federate: FederateNo, label: &[u8]) -> Option<Fault>
        requires { MayCall self.now federate }
        ensures { result ≡ refusal (components_seen (state_of self.now)) (step.Call federate
            (service.SynchronizationPointAchieved label.now)) }
    {
        if self.points.may_achieve(federate, label) {
            None
        } else {
            Some(Fault::SynchronizationPointLabelWasNotAnnounced)
        }
    }

    /// Why a federate may not resign, if it may not.
    pub fn resign_fault(&self, federate: FederateNo, action: ResignAction) -> Option<Fault>
        requires { MayCall self.now federate }
        ensures { result ≡ refusal (components_seen (state_of self.now))
            (step.Call federate (service.Resign action)) }
    {
        let owned = self.registry.count_owned_by(federate) as u64;
        match action {
            ResignAction::NoAction => {
                if owned > 0 {
                    Some(Fault::FederateOwnsAttributes)
                } else {
                    None
                }
            }
            ResignAction::DeleteObjects => {
                if self.members.next_serial(federate).saturating_add(owned) > MAX_SERIAL + 1 {
                    Some(Fault::LimitReached)
                } else {
                    None
                }
            }
            _ => Some(Fault::InvalidResignAction),
        }
    }
}
