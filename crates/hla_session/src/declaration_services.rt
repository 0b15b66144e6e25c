//! Declaration management of a session.

ghost use Rattle.hla_machine.specs.declared.service.Service.TheVariants as service;
ghost use Rattle.hla_federation.specs.Steps.Answering.{answered_as};
ghost use Rattle.hla_session.specs.Calls.{IsServiceCalled, IsServiceCalledOrUncopied, no_answer};

use crate::lists::list_of_numbers;
use crate::session::Session;
use hla_base::{AttributeNo, ClassNo, Fault, FederateNo};
use hla_machine::Service;
use std::alloc::Global;

/// Besides the faults that are told at each call: `FederateNotExecutionMember` comes before all others where the federate
/// is not joined, and `OutOfMemory` where a growth was refused; at a call that has an `alloc` that may be the copy of what
/// it is handed, before all else. Nothing has changed at any fault.
impl Session {
    /// Publish Object Class (HLA 1.3, declaration management): from now on the federate may register objects of this class
    /// and update these attributes of them, in place of what it published of the class before. `ObjectClassNotDefined`;
    /// `AttributeNotDefined` where an attribute is not available at the class.
    pub fn publish_object_class(
        &mut self,
        alloc: Global,
        federate: FederateNo,
        class: ClassNo,
        attributes: &[AttributeNo],
    ) -> Result<(), Fault>
        ensures { IsServiceCalledOrUncopied self.old federate
            (service.PublishObjectClass class attributes.now)
            (answered_as no_answer result) self.new }
    {
        let attributes = list_of_numbers(alloc, attributes)?;
        self.serve_done(federate, Service::PublishObjectClass { class, attributes })
    }

    /// Unpublish Object Class (HLA 1.3, declaration management). `ObjectClassNotDefined`; `ObjectClassNotPublished`.
    pub fn unpublish_object_class(
        &mut self,
        federate: FederateNo,
        class: ClassNo,
    ) -> Result<(), Fault>
        ensures { IsServiceCalled self.old federate (service.UnpublishObjectClass class)
            (answered_as no_answer result) self.new }
    {
        self.serve_done(federate, Service::UnpublishObjectClass { class })
    }

    /// Subscribe Object Class Attributes (HLA 1.3, declaration management): from now on the federate discovers objects of
    /// this class and is told of updates of these attributes, in place of what it subscribed to of the class before.
    /// `ObjectClassNotDefined`; `AttributeNotDefined` where an attribute is not available at the class.
    pub fn subscribe_object_class_attributes(
        &mut self,
        alloc: Global,
        federate: FederateNo,
        class: ClassNo,
        attributes: &[AttributeNo],
    ) -> Result<(), Fault>
        ensures { IsServiceCalledOrUncopied self.old federate
            (service.SubscribeObjectClassAttributes class attributes.now)
            (answered_as no_answer result)
            self.new }
    {
        let attributes = list_of_numbers(alloc, attributes)?;
        self.serve_done(
            federate,
            Service::SubscribeObjectClassAttributes { class, attributes },
        )
    }

    /// Unsubscribe Object Class (HLA 1.3, declaration management). `ObjectClassNotDefined`; `ObjectClassNotSubscribed`.
    pub fn unsubscribe_object_class(
        &mut self,
        federate: FederateNo,
        class: ClassNo,
    ) -> Result<(), Fault>
        ensures { IsServiceCalled self.old federate (service.UnsubscribeObjectClass class)
            (answered_as no_answer result) self.new }
    {
        self.serve_done(federate, Service::UnsubscribeObjectClass { class })
    }

    /// Publish Interaction Class (HLA 1.3, declaration management): from now on the federate may send interactions of this
    /// class. `InteractionClassNotDefined`.
    pub fn publish_interaction_class(
        &mut self,
        federate: FederateNo,
        class: ClassNo,
    ) -> Result<(), Fault>
        ensures { IsServiceCalled self.old federate (service.PublishInteractionClass class)
            (answered_as no_answer result) self.new }
    {
        self.serve_done(federate, Service::PublishInteractionClass { class })
    }

    /// Unpublish Interaction Class (HLA 1.3, declaration management). `InteractionClassNotDefined`;
    /// `InteractionClassNotPublished`.
    pub fn unpublish_interaction_class(
        &mut self,
        federate: FederateNo,
        class: ClassNo,
    ) -> Result<(), Fault>
        ensures { IsServiceCalled self.old federate (service.UnpublishInteractionClass class)
            (answered_as no_answer result) self.new }
    {
        self.serve_done(federate, Service::UnpublishInteractionClass { class })
    }

    /// Subscribe Interaction Class (HLA 1.3, declaration management): from now on the federate receives interactions of
    /// this class. `InteractionClassNotDefined`.
    pub fn subscribe_interaction_class(
        &mut self,
        federate: FederateNo,
        class: ClassNo,
    ) -> Result<(), Fault>
        ensures { IsServiceCalled self.old federate (service.SubscribeInteractionClass class)
            (answered_as no_answer result) self.new }
    {
        self.serve_done(federate, Service::SubscribeInteractionClass { class })
    }

    /// Unsubscribe Interaction Class (HLA 1.3, declaration management). `InteractionClassNotDefined`;
    /// `InteractionClassNotSubscribed`.
    pub fn unsubscribe_interaction_class(
        &mut self,
        federate: FederateNo,
        class: ClassNo,
    ) -> Result<(), Fault>
        ensures { IsServiceCalled self.old federate (service.UnsubscribeInteractionClass class)
            (answered_as no_answer result) self.new }
    {
        self.serve_done(federate, Service::UnsubscribeInteractionClass { class })
    }
}
