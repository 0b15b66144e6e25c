//! Whether the central machine allows a declaration (HLA 1.3, declaration management), but for subscribing an object class,
//! which may make objects known.

ghost use Rattle.std.specs.Prelude.{◌≡◌, ◌<◌, ◌≤◌, Some, true, IfOk, IfErr};
ghost use Rattle.hla_base.specs.declared.fault.Fault.TheVariants.{OutOfMemory};
ghost use Rattle.hla_declaration.specs.Declarations.{declarations_of};
ghost use Rattle.hla_machine.specs.declared.service.Service.TheVariants as services;
ghost use Rattle.hla_machine.specs.declared.step.Step.TheVariants as steps;
ghost use Rattle.hla_accounts.specs.Accounts.{account_at};
ghost use Rattle.hla_checker.specs.Declaring.{declaration_of, with_declaration, IsOfClass};
ghost use Rattle.hla_verdicts.specs.Kept.{IsConsistent, JudgedStep};

use crate::kept::KeptExecution;
use hla_base::{AttributeNo, ClassNo, Fault, FederateNo, List, Plain};
use hla_declaration::Declarations;
use hla_machine::{Choice, Outcome, Service};
use hla_verdicts::{Verdict, verdict_unless_done};

/// What a federate declares of a class by its number alone.
#[derive(Clone, Copy, Debug, PartialEq, Eq)]
pub(crate) enum ClassDeclaration {
    /// Unpublish Object Class.
    UnpublishObject { class: ClassNo },
    /// Unsubscribe Object Class.
    UnsubscribeObject { class: ClassNo },
    /// Publish Interaction Class.
    PublishInteraction { class: ClassNo },
    /// Unpublish Interaction Class.
    UnpublishInteraction { class: ClassNo },
    /// Subscribe Interaction Class.
    SubscribeInteraction { class: ClassNo },
    /// Unsubscribe Interaction Class.
    UnsubscribeInteraction { class: ClassNo },
}

/// What a service declares, where it needs no more than a class.
pub(crate) fn declaration_of(service: &Service) -> Option<ClassDeclaration>
    ensures { result ≡ declaration_of service.now }
{
    match service {
        Service::UnpublishObjectClass { class } => Some(ClassDeclaration::UnpublishObject {
            class: *class,
        }),
        Service::UnsubscribeObjectClass { class } => Some(ClassDeclaration::UnsubscribeObject {
            class: *class,
        }),
        Service::PublishInteractionClass { class } => Some(ClassDeclaration::PublishInteraction {
            class: *class,
        }),
        Service::UnpublishInteractionClass { class } => Some(
            ClassDeclaration::UnpublishInteraction { class: *class },
        ),
        Service::SubscribeInteractionClass { class } => Some(
            ClassDeclaration::SubscribeInteraction { class: *class },
        ),
        Service::UnsubscribeInteractionClass { class } => Some(
            ClassDeclaration::UnsubscribeInteraction { class: *class },
        ),
        _ => None,
    }
}

/// A federate declares this from now on.
fn declare(declarations: &mut Declarations, federate: FederateNo, declaration: ClassDeclaration)
    requires some { 0 < federate }
    requires joined { federate ≤ (declarations_of declarations.old).federates }
    requires defined { IsOfClass (declarations_of declarations.old) declaration }
    ensures { declarations_of declarations.new
        ≡ with_declaration (declarations_of declarations.old) federate declaration }
{
    match declaration {
        ClassDeclaration::UnpublishObject { class } => {
            declarations.unpublish_object_class(federate, class);
        }
        ClassDeclaration::UnsubscribeObject { class } => {
            declarations.unsubscribe_object_class(federate, class);
        }
        ClassDeclaration::PublishInteraction { class } => {
            declarations.publish_interaction_class(federate, class);
        }
        ClassDeclaration::UnpublishInteraction { class } => {
            declarations.unpublish_interaction_class(federate, class);
        }
        ClassDeclaration::SubscribeInteraction { class } => {
            declarations.subscribe_interaction_class(federate, class);
        }
        ClassDeclaration::UnsubscribeInteraction { class } => {
            declarations.unsubscribe_interaction_class(federate, class);
        }
    }
}

impl KeptExecution {
    /// Whether the machine allows a joined federate's call that declares this, ended so and chose this; where it does, it is
    /// declared.
    pub(crate) fn judge_declaration(
        &mut self,
        federate: FederateNo,
        service: &Service,
        declaration: ClassDeclaration,
        outcome: &Outcome,
        choice: &Choice,
    ) -> Verdict
        requires consistent { IsConsistent self.old }
        requires joined { (account_at self.old.accounts federate).is_joined ≡ true }
        requires declaration { declaration_of service.now ≡ Some declaration }
        ensures { JudgedStep self.old
            (steps.Call federate service.now) outcome.now choice.now self.new result }
    {
        let fault = self.declaration_fault(federate, declaration);
        match verdict_unless_done(fault, outcome, choice) {
            Some(verdict) => verdict,
            None => {
                declare(&mut self.declarations, federate, declaration);
                Verdict::Allowed
            }
        }
    }

    /// Whether the machine allows a joined federate's Publish Object Class that ended so and chose this; where it does, the
    /// class is published. `OutOfMemory` where a growth was refused; nothing is said of the state then.
    pub(crate) fn judge_publishing(
        &mut self,
        federate: FederateNo,
        class: ClassNo,
        attributes: &List<AttributeNo>,
        outcome: &Outcome,
        choice: &Choice,
    ) -> Result<Verdict, Fault>
        requires consistent { IsConsistent self.old }
        requires joined { (account_at self.old.accounts federate).is_joined ≡ true }
        ensures ok { IfOk result
            (JudgedStep self.old
            (steps.Call federate
            (services.PublishObjectClass class attributes.now)) outcome.now choice.now self.new) }
        ensures err { IfErr result (λ e. e ≡ Fault.OutOfMemory) }
    {
        let fault = self.attributes_fault(class, attributes.as_slice());
        match verdict_unless_done(fault, outcome, choice) {
            Some(verdict) => Ok(verdict),
            None => {
                let own = attributes.copy()?;
                self.declarations.publish_object_class(federate, class, own);
                Ok(Verdict::Allowed)
            }
        }
    }
}
