//! What the federates of one execution declare.

ghost use Rattle.std.specs.Prelude.{◌≡◌, ◌<◌, ◌≤◌, ◌+◌, [], None, Some, false, true, IfOk, IfErr, OnOk, OnErr, is_some};
ghost use Rattle.std.specs.Option.{option_map_or, option_copied};
ghost use Rattle.hla_base.specs.Limits.{max_classes, max_joins};
ghost use Rattle.hla_base.specs.declared.fault.Fault.TheVariants.{OutOfMemory};
ghost use Rattle.hla_base.specs.Tables.{upd, upd2};
ghost use Rattle.hla_catalogue.specs.Lookup.{item_numbered, contains_number};
ghost use Rattle.hla_declaration.specs.Declarations.{declarations_of, IsBounded};
ghost use Rattle.hla_declaration.specs.Subscribers.{AreSubscribers};

use crate::member::Declarer;
use crate::subscribers::SubscriberSets;
use hla_base::{AttributeNo, ClassNo, Fault, FederateNo, List};
use hla_catalogue::Order;
use std::alloc::Global;
use std::marker::Model;

/// What each federate of an execution publishes and subscribes (HLA 1.3, declaration management), and in which order its
/// interactions go, where it changed that (time management). Federates and classes
/// are numbered from 1. Contracts see lists; `declarations_of` reads them as tables by federate and class, which say for
/// a number of no federate or of no class that nothing is declared. The room for declarations is taken when a federate
/// joins, so that none takes memory later; that for orders, when a federate changes the first. Beside them stands who subscribes each class, so that a send need not look at
/// each federate's declarations.
#[derive(Debug, Drop)]
pub struct Declarations {
    object_classes: usize,
    interaction_classes: usize,
    members: Vec<Declarer>,
    object_subscribers: SubscriberSets,
    interaction_subscribers: SubscriberSets,
}

impl Model for Declarations {
    ghost use Rattle.hla_declaration.specs.Lists.{DeclarationLists};
    ghost use Rattle.hla_declaration.specs.Subscribers.{AreDeclarationsWhole};

    ghost Value = { DeclarationLists };

    ghost view = { λ d. record {
      object_classes = d.object_classes;
      interaction_classes = d.interaction_classes;
      members = d.members.items;
    } };

    ghost invariant = { λ d. AreDeclarationsWhole d.object_classes d.interaction_classes
        d.members.items d.object_subscribers d.interaction_subscribers };
}

impl Declarations {
    /// The declarations of an execution that no federate has joined yet, with this many object classes and interaction
    /// classes; it takes no memory.
    pub fn new(alloc: Global, object_classes: usize, interaction_classes: usize) -> Declarations
        requires objects { object_classes ≤ max_classes }
        requires interactions { interaction_classes ≤ max_classes }
        ensures { declarations_of result ≡ record {
          federates = 0;
          object_classes = object_classes;
          interaction_classes = interaction_classes;
          published = λ _ _. None;
          subscribed = λ _ _. None;
          published_interaction = λ _ _. false;
          subscribed_interaction = λ _ _. false;
          interaction_orders = λ _ _. None;
        } }
    {
        Declarations {
            object_classes,
            interaction_classes,
            members: Vec::new(alloc),
            object_subscribers: SubscriberSets::new(alloc),
            interaction_subscribers: SubscriberSets::new(alloc),
        }
    }

    /// How many federates have joined so far. Nothing is declared of any other number, nor of a number of no class.
    pub fn federates(&self) -> usize
        ensures count { result ≡ (declarations_of self.now).federates }
        ensures few { result ≤ max_joins }
        ensures bounds { IsBounded (declarations_of self.now) }
    {
        self.members.len()
    }

    /// The federates that subscribe each object class.
    pub(crate) fn object_subscribers(&self) -> &SubscriberSets
        ensures { AreSubscribers result.now
            (λ f k. is_some ((declarations_of self.now).subscribed f k)) }
    {
        &self.object_subscribers
    }

    /// The federates that subscribe each interaction class.
    pub(crate) fn interaction_subscribers(&self) -> &SubscriberSets
        ensures { AreSubscribers result.now (declarations_of self.now).subscribed_interaction }
    {
        &self.interaction_subscribers
    }

    /// What a federate declares; `None` where no federate has the number.
    pub(crate) fn member(&self, federate: FederateNo) -> Option<&Declarer>
        ensures { option_copied result ≡ item_numbered self.now.members federate }
    {
        if federate == 0 {
            return None;
        }
        self.members.get(federate as usize - 1)
    }

    /// One more federate, which declares nothing (Join Federation Execution). Its number is the next one, and there are at
    /// most 16. `OutOfMemory`, and all as it was, where a growth was refused.
    pub fn admit(&mut self) -> Result<(), Fault>
        requires { (declarations_of self.old).federates < max_joins }
        ensures ok { OnOk result (declarations_of self.new ≡ record (declarations_of self.old) {
          federates = (declarations_of self.old).federates + 1;
        }) }
        ensures err { IfErr result (λ e. e ≡ Fault.OutOfMemory) }
        ensures unchanged { OnErr result (self.new ≡ self.old) }
    {
        let alloc = *self.members.allocator();
        let member = Declarer::new(alloc, self.object_classes, self.interaction_classes)?;
        self.object_subscribers.make_room(self.object_classes)?;
        self.interaction_subscribers
            .make_room(self.interaction_classes)?;
        let Ok(()) = self.members.push(member) else {
            return Err(Fault::OutOfMemory);
        };
        Ok(())
    }

    /// A federate declares nothing any more, and its interactions go as the FED file says (Resign Federation Execution). Its number stays its own.
    pub fn withdraw(&mut self, federate: FederateNo)
        requires some { 0 < federate }
        requires joined { federate ≤ (declarations_of self.old).federates }
        ensures { let old = declarations_of self.old in declarations_of self.new ≡ record old {
          published = upd old.published federate (λ _. None);
          subscribed = upd old.subscribed federate (λ _. None);
          published_interaction = upd old.published_interaction federate (λ _. false);
          subscribed_interaction = upd old.subscribed_interaction federate (λ _. false);
          interaction_orders = upd old.interaction_orders federate (λ _. None);
        } }
    {
        self.members[federate as usize - 1].clear();
        self.object_subscribers.withdraw(federate);
        self.interaction_subscribers.withdraw(federate);
    }

    /// A federate publishes these attributes of an object class from now on, or does not publish it any more.
    fn set_published(
        &mut self,
        federate: FederateNo,
        class: ClassNo,
        attributes: Option<List<AttributeNo>>,
    )
        requires some { 0 < federate }
        requires joined { federate ≤ (declarations_of self.old).federates }
        requires numbered { 0 < class }
        requires defined { class ≤ (declarations_of self.old).object_classes }
        ensures { declarations_of self.new ≡ record (declarations_of self.old) {
          published = upd2 (declarations_of self.old).published federate class attributes;
        } }
    {
        self.members[federate as usize - 1]
            .published
            .set(class, attributes);
    }

    /// A federate subscribes these attributes of an object class from now on, or does not subscribe it any more.
    fn set_subscribed(
        &mut self,
        federate: FederateNo,
        class: ClassNo,
        attributes: Option<List<AttributeNo>>,
    )
        requires some { 0 < federate }
        requires joined { federate ≤ (declarations_of self.old).federates }
        requires numbered { 0 < class }
        requires defined { class ≤ (declarations_of self.old).object_classes }
        ensures { declarations_of self.new ≡ record (declarations_of self.old) {
          subscribed = upd2 (declarations_of self.old).subscribed federate class attributes;
        } }
    {
        let subscribes = attributes.is_some();
        self.members[federate as usize - 1]
            .subscribed
            .set(class, attributes);
        self.object_subscribers.set(federate, class, subscribes);
    }

    /// A federate publishes an interaction class from now on, or not any more.
    fn set_published_interaction(&mut self, federate: FederateNo, class: ClassNo, publishes: bool)
        requires some { 0 < federate }
        requires joined { federate ≤ (declarations_of self.old).federates }
        requires numbered { 0 < class }
        requires defined { class ≤ (declarations_of self.old).interaction_classes }
        ensures { declarations_of self.new
            ≡ record (declarations_of self.old) {
              published_interaction = upd2
                  (declarations_of self.old).published_interaction federate class publishes;
            } }
    {
        self.members[federate as usize - 1]
            .published_interactions
            .set(class, publishes);
    }

    /// A federate subscribes an interaction class from now on, or not any more.
    fn set_subscribed_interaction(&mut self, federate: FederateNo, class: ClassNo, subscribes: bool)
        requires some { 0 < federate }
        requires joined { federate ≤ (declarations_of self.old).federates }
        requires numbered { 0 < class }
        requires defined { class ≤ (declarations_of self.old).interaction_classes }
        ensures { declarations_of self.new
            ≡ record (declarations_of self.old) {
              subscribed_interaction = upd2
                  (declarations_of self.old).subscribed_interaction federate class subscribes;
            } }
    {
        self.members[federate as usize - 1]
            .subscribed_interactions
            .set(class, subscribes);
        self.interaction_subscribers
            .set(federate, class, subscribes);
    }

    /// Publish Object Class: the federate publishes just these attributes of the class from now on. It takes no memory.
    pub fn publish_object_class(
        &mut self,
        federate: FederateNo,
        class: ClassNo,
        attributes: List<AttributeNo>,
    )
        requires some { 0 < federate }
        requires joined { federate ≤ (declarations_of self.old).federates }
        requires numbered { 0 < class }
        requires defined { class ≤ (declarations_of self.old).object_classes }
        ensures { declarations_of self.new ≡ record (declarations_of self.old) {
          published = upd2 (declarations_of self.old).published federate class (Some attributes);
        } }
    {
        self.set_published(federate, class, Some(attributes));
    }

    /// Unpublish Object Class: the federate publishes nothing of the class from now on.
    pub fn unpublish_object_class(&mut self, federate: FederateNo, class: ClassNo)
        requires some { 0 < federate }
        requires joined { federate ≤ (declarations_of self.old).federates }
        requires numbered { 0 < class }
        requires defined { class ≤ (declarations_of self.old).object_classes }
        ensures { declarations_of self.new ≡ record (declarations_of self.old) {
          published = upd2 (declarations_of self.old).published federate class None;
        } }
    {
        self.set_published(federate, class, None);
    }

    /// Subscribe Object Class Attributes: the federate subscribes just these attributes of the class from now on. It takes
    /// no memory.
    pub fn subscribe_object_class_attributes(
        &mut self,
        federate: FederateNo,
        class: ClassNo,
        attributes: List<AttributeNo>,
    )
        requires some { 0 < federate }
        requires joined { federate ≤ (declarations_of self.old).federates }
        requires numbered { 0 < class }
        requires defined { class ≤ (declarations_of self.old).object_classes }
        ensures { declarations_of self.new ≡ record (declarations_of self.old) {
          subscribed = upd2 (declarations_of self.old).subscribed federate class (Some attributes);
        } }
    {
        self.set_subscribed(federate, class, Some(attributes));
    }

    /// Unsubscribe Object Class: the federate subscribes nothing of the class from now on.
    pub fn unsubscribe_object_class(&mut self, federate: FederateNo, class: ClassNo)
        requires some { 0 < federate }
        requires joined { federate ≤ (declarations_of self.old).federates }
        requires numbered { 0 < class }
        requires defined { class ≤ (declarations_of self.old).object_classes }
        ensures { declarations_of self.new ≡ record (declarations_of self.old) {
          subscribed = upd2 (declarations_of self.old).subscribed federate class None;
        } }
    {
        self.set_subscribed(federate, class, None);
    }

    /// Publish Interaction Class: the federate publishes the class from now on.
    pub fn publish_interaction_class(&mut self, federate: FederateNo, class: ClassNo)
        requires some { 0 < federate }
        requires joined { federate ≤ (declarations_of self.old).federates }
        requires numbered { 0 < class }
        requires defined { class ≤ (declarations_of self.old).interaction_classes }
        ensures { declarations_of self.new ≡ record (declarations_of self.old) {
          published_interaction = upd2 (declarations_of self.old).published_interaction federate
              class true;
        } }
    {
        self.set_published_interaction(federate, class, true);
    }

    /// Unpublish Interaction Class: the federate does not publish the class any more.
    pub fn unpublish_interaction_class(&mut self, federate: FederateNo, class: ClassNo)
        requires some { 0 < federate }
        requires joined { federate ≤ (declarations_of self.old).federates }
        requires numbered { 0 < class }
        requires defined { class ≤ (declarations_of self.old).interaction_classes }
        ensures { declarations_of self.new ≡ record (declarations_of self.old) {
          published_interaction = upd2 (declarations_of self.old).published_interaction federate
              class false;
        } }
    {
        self.set_published_interaction(federate, class, false);
    }

    /// Subscribe Interaction Class: the federate subscribes the class from now on.
    pub fn subscribe_interaction_class(&mut self, federate: FederateNo, class: ClassNo)
        requires some { 0 < federate }
        requires joined { federate ≤ (declarations_of self.old).federates }
        requires numbered { 0 < class }
        requires defined { class ≤ (declarations_of self.old).interaction_classes }
        ensures { declarations_of self.new ≡ record (declarations_of self.old) {
          subscribed_interaction = upd2 (declarations_of self.old).subscribed_interaction federate
              class true;
        } }
    {
        self.set_subscribed_interaction(federate, class, true);
    }

    /// Unsubscribe Interaction Class: the federate does not subscribe the class any more.
    pub fn unsubscribe_interaction_class(&mut self, federate: FederateNo, class: ClassNo)
        requires some { 0 < federate }
        requires joined { federate ≤ (declarations_of self.old).federates }
        requires numbered { 0 < class }
        requires defined { class ≤ (declarations_of self.old).interaction_classes }
        ensures { declarations_of self.new
            ≡ record (declarations_of self.old) {
              subscribed_interaction = upd2
                  (declarations_of self.old).subscribed_interaction federate class false;
            } }
    {
        self.set_subscribed_interaction(federate, class, false);
    }
    /// Change Interaction Order Type: the federate's interactions of just this class go in this order from now on.
    /// `OutOfMemory`, and all as it was, where room for the orders was refused.
    pub fn change_interaction_order(
        &mut self,
        federate: FederateNo,
        class: ClassNo,
        order: Order,
    ) -> Result<(), Fault>
        requires some { 0 < federate }
        requires joined { federate ≤ (declarations_of self.old).federates }
        requires numbered { 0 < class }
        requires defined { class ≤ (declarations_of self.old).interaction_classes }
        ensures ok { OnOk result
            (declarations_of self.new ≡ record (declarations_of self.old) {
              interaction_orders = upd2
                  (declarations_of self.old).interaction_orders federate class (Some order);
            }) }
        ensures err { IfErr result (λ e. e ≡ Fault.OutOfMemory) }
        ensures unchanged { OnErr result (self.new ≡ self.old) }
    {
        let alloc = *self.members.allocator();
        let classes = self.interaction_classes;
        self.members[federate as usize - 1]
            .interaction_orders
            .give_one(alloc, classes, class, order)
    }
}
