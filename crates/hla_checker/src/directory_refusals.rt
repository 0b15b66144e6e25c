//! Why a joined federate's call of a directory service is refused: the first test that applies.

ghost use Rattle.std.specs.Prelude.{◌≡◌, ◌∷◌, [], not};
ghost use Rattle.std.specs.List.{list_any};
ghost use Rattle.hla_base.specs.RowRefusals.{first_fault, test_for};
ghost use Rattle.hla_catalogue.specs.Lookup.{has_attribute};
ghost use Rattle.hla_base.specs.declared.fault.Fault.TheVariants as fault;
ghost use Rattle.hla_machine.specs.Refusals.{attribute_order_tests, is_owned, no_attribute, no_interaction_class, no_object_class};
ghost use Rattle.hla_checker.specs.Declaring.{declaration_tests};
ghost use Rattle.hla_verdicts.specs.Kept.{directory_of};

use crate::declaring::ClassDeclaration;
use crate::kept::KeptExecution;
use hla_base::{AttributeNo, ClassNo, Fault, FederateNo, ObjectNo};

/// Why what was not declared may not be withdrawn.
fn fault_unless(is_declared: bool, fault: Fault) -> Option<Fault>
    ensures { result ≡ first_fault (test_for fault (not is_declared) ∷ []) }
{
    if is_declared { None } else { Some(fault) }
}

impl KeptExecution {
    /// Whether a class lacks one of these attributes.
    fn lacks_attribute(&self, class: ClassNo, attributes: &[AttributeNo]) -> bool
        ensures { result
            ≡ list_any (λ a. not (has_attribute self.now.catalogue class a)) attributes.now }
    {
        attributes
            .iter()
            .any(|a| !self.catalogue.has_attribute(class, *a))
    }

    /// Why an object class may not be published or subscribed with these attributes, if it may not.
    pub(crate) fn attributes_fault(
        &self,
        class: ClassNo,
        attributes: &[AttributeNo],
    ) -> Option<Fault>
        ensures { let d = directory_of self.now in
            result
            ≡ first_fault (no_object_class d class ∷ no_attribute d class attributes.now ∷ []) }
    {
        if !self.catalogue.is_object_class(class) {
            Some(Fault::ObjectClassNotDefined)
        } else if self.lacks_attribute(class, attributes) {
            Some(Fault::AttributeNotDefined)
        } else {
            None
        }
    }

    /// Why an object class may not be withdrawn, by whether it is declared and the fault where it is not.
    fn object_class_fault(&self, class: ClassNo, is_declared: bool, fault: Fault) -> Option<Fault>
        ensures { result
            ≡ first_fault
            (no_object_class (directory_of self.now) class ∷ test_for fault (not is_declared)
            ∷ []) }
    {
        if !self.catalogue.is_object_class(class) {
            return Some(Fault::ObjectClassNotDefined);
        }
        fault_unless(is_declared, fault)
    }

    /// Why a number is of no interaction class, if it is of none.
    fn interaction_class_fault(&self, class: ClassNo) -> Option<Fault>
        ensures { result ≡ first_fault (no_interaction_class (directory_of self.now) class ∷ []) }
    {
        if self.catalogue.is_interaction_class(class) {
            None
        } else {
            Some(Fault::InteractionClassNotDefined)
        }
    }

    /// Why an interaction class may not be withdrawn, by whether it is declared and the fault where it is not.
    fn withdrawn_interaction_fault(
        &self,
        class: ClassNo,
        is_declared: bool,
        fault: Fault,
    ) -> Option<Fault>
        ensures { result
            ≡ first_fault
            (no_interaction_class (directory_of self.now) class ∷ test_for fault (not is_declared)
            ∷ []) }
    {
        if !self.catalogue.is_interaction_class(class) {
            return Some(Fault::InteractionClassNotDefined);
        }
        fault_unless(is_declared, fault)
    }

    /// Whether a federate does not own one of these attributes of an object.
    fn lacks_attribute_of(
        &self,
        federate: FederateNo,
        object: ObjectNo,
        attributes: &[AttributeNo],
    ) -> bool
        ensures { result ≡ list_any (λ a. not (is_owned (directory_of self.now) federate object a))
            attributes.now }
    {
        attributes
            .iter()
            .any(|a| !self.registry.owns_attribute(federate, object, *a))
    }

    /// Why a joined federate may not change the order of these attributes of an object, if it may not.
    pub(crate) fn attribute_order_fault(
        &self,
        federate: FederateNo,
        object: ObjectNo,
        attributes: &[AttributeNo],
    ) -> Option<Fault>
        ensures { result ≡ first_fault (attribute_order_tests (directory_of self.now)
            federate object attributes.now) }
    {
        let class = self.registry.class_of(object);
        if !self.registry.is_known(object, federate) {
            Some(Fault::ObjectNotKnown)
        } else if self.lacks_attribute(class, attributes) {
            Some(Fault::AttributeNotDefined)
        } else if self.lacks_attribute_of(federate, object, attributes) {
            Some(Fault::AttributeNotOwned)
        } else {
            None
        }
    }

    /// Why a joined federate may not change the order of its interactions of a class, if it may not.
    pub(crate) fn interaction_order_fault(
        &self,
        federate: FederateNo,
        class: ClassNo,
    ) -> Option<Fault>
        ensures { let d = directory_of self.now in
            result ≡ first_fault (no_interaction_class d class ∷
            test_for fault.InteractionClassNotPublished
            (not (d.published_interaction federate class)) ∷ []) }
    {
        let is_published = self
            .declarations
            .publishes_interaction_class(federate, class);
        self.withdrawn_interaction_fault(class, is_published, Fault::InteractionClassNotPublished)
    }

    /// Why a federate may not declare this, if it may not.
    pub(crate) fn declaration_fault(
        &self,
        federate: FederateNo,
        declaration: ClassDeclaration,
    ) -> Option<Fault>
        ensures { result
            ≡ first_fault (declaration_tests (directory_of self.now) federate declaration) }
    {
        match declaration {
            ClassDeclaration::UnpublishObject { class } => {
                let is_published = self.declarations.publishes_object_class(federate, class);
                self.object_class_fault(class, is_published, Fault::ObjectClassNotPublished)
            }
            ClassDeclaration::UnsubscribeObject { class } => {
                let is_subscribed = self.declarations.subscribes_object_class(federate, class);
                self.object_class_fault(class, is_subscribed, Fault::ObjectClassNotSubscribed)
            }
            ClassDeclaration::PublishInteraction { class } => self.interaction_class_fault(class),
            ClassDeclaration::UnpublishInteraction { class } => {
                let is_published = self
                    .declarations
                    .publishes_interaction_class(federate, class);
                self.withdrawn_interaction_fault(
                    class,
                    is_published,
                    Fault::InteractionClassNotPublished,
                )
            }
            ClassDeclaration::SubscribeInteraction { class } => self.interaction_class_fault(class),
            ClassDeclaration::UnsubscribeInteraction { class } => {
                let is_subscribed = self
                    .declarations
                    .subscribes_interaction_class(federate, class);
                self.withdrawn_interaction_fault(
                    class,
                    is_subscribed,
                    Fault::InteractionClassNotSubscribed,
                )
            }
        }
    }
}
