//! Registering objects and subscribing their classes: what makes objects known.

ghost use Rattle.std.specs.Prelude.{◌≡◌, ◌+◌, ◌<◌, ◌≤◌, ◌||◌, eqb, find, is_some, Some, ℕ, List, [], option_map, unwrap_or, map, OnOk, IfErr, IfOk};
ghost use Rattle.std.specs.Option.{option_map_or};
ghost use Rattle.hla_base.specs.declared.content.Discovery.{Discovery};
ghost use Rattle.hla_base.specs.Limits.{max_joins, max_objects};
ghost use Rattle.hla_base.specs.declared.fault.Fault.TheVariants.{OutOfMemory};
ghost use Rattle.hla_catalogue.specs.Lookup.{object_lineage};
ghost use Rattle.hla_null_message.specs.declared.message.Message.TheVariants as message;
ghost use Rattle.hla_declaration.specs.Declarations.{declarations_of};
ghost use Rattle.hla_declaration.specs.Receivers.{object_class_served, receivers_of};
ghost use Rattle.hla_machine.specs.Directory.{default_name, discovery_of, discoveries_of, with_discoveries_made, with_subscribed};
ghost use Rattle.hla_machine.specs.declared.service.Service.TheVariants as service;
ghost use Rattle.hla_machine.specs.declared.step.Step.TheVariants as step;
ghost use Rattle.hla_machine.specs.Registered.{registry_of};
ghost use Rattle.hla_federation.specs.Steps.Discovering.{AreFederates, discovery_to, with_known_among};
ghost use Rattle.hla_federation.specs.Steps.Sending.{HasAdded, messages_among};
ghost use Rattle.hla_federation.specs.Steps.Soundness.{IsSound, MayCall};
ghost use Rattle.hla_federation.specs.Steps.State.{state_of, IsWhole, Ends};

use crate::naming::{default_name, shared_name};
use crate::parts::Parts;
use hla_base::{
    AttributeNo, ClassNo, Discovery, Fault, FederateNo, List, ObjectNo, Plain, SharedList,
};
use hla_declaration::Receiver;
use hla_machine::Answer;
use hla_members::{Direction, Outbox};
use hla_null_message::Message;

/// What a registration keeps of a new object and answers, made before anything changes.
#[derive(Drop)]
struct NewObject {
    name: List<u8>,
    answered: List<u8>,
    attributes: List<AttributeNo>,
    /// The name of the object after it, where none is given.
    next_name: List<u8>,
}

impl Parts {
    /// A copy of the attributes that a federate publishes of a class. `OutOfMemory` where room for it was refused.
    fn published_copy(
        &self,
        federate: FederateNo,
        class: ClassNo,
    ) -> Result<List<AttributeNo>, Fault>
        ensures ok { IfOk result (λ xs. xs ≡ option_map_or (λ ys. ys)
            ((state_of self.now).directory.published federate class) []) }
        ensures err { IfErr result (λ e. e ≡ Fault.OutOfMemory) }
    {
        let published = self.declarations.published_attributes(federate, class);
        match Vec::from_slice(self.alloc, published) {
            Ok(copy) => Ok(List::from_vec(copy)),
            Err(_) => Err(Fault::OutOfMemory),
        }
    }

    /// Adds the discovery of a new object for each of its receivers. `OutOfMemory` where a growth was refused; nothing is
    /// said of the outbox then.
    fn address_discoveries(
        &self,
        outbox: &mut Outbox,
        receivers: &[Receiver],
        object: ObjectNo,
        name: &SharedList<u8>,
    ) -> Result<(), Fault>
        requires { AreFederates receivers.now }
        ensures ok { OnOk result
            (HasAdded (messages_among (discovery_to object name.now) receivers.now)
            outbox.old outbox.new) }
        ensures err { IfErr result (λ e. e ≡ Fault.OutOfMemory) }
    {
        for receiver in receivers {
            let discovery = Discovery {
                object,
                class: receiver.class,
                name: name.copy()?,
            };
            outbox.put(receiver.federate, Message::Discovery(discovery))?;
        }
        Ok(())
    }

    /// The name of a new object: that which is given, or else the one that is next. `OutOfMemory` where a growth was refused.
    fn name_of_new(&self, name: &Option<List<u8>>) -> Result<List<u8>, Fault>
        ensures ok { IfOk result (λ given. given ≡ unwrap_or name.now self.now.next_name) }
        ensures err { IfErr result (λ e. e ≡ Fault.OutOfMemory) }
    {
        match name {
            Some(name) => name.copy(),
            None => self.next_name.copy(),
        }
    }

    /// What a registration keeps of a new object and answers. `OutOfMemory` where a growth was refused.
    fn new_object(
        &self,
        federate: FederateNo,
        class: ClassNo,
        object: ObjectNo,
        name: &Option<List<u8>>,
    ) -> Result<NewObject, Fault>
        requires { object ≤ max_objects }
        ensures name { IfOk result (λ new. new.name ≡ unwrap_or name.now self.now.next_name) }
        ensures answered { IfOk result (λ new. new.answered ≡ new.name) }
        ensures attributes { IfOk result (λ new. new.attributes ≡ option_map_or (λ ys. ys)
            ((state_of self.now).directory.published federate class) []) }
        ensures next { IfOk result (λ new. new.next_name ≡ default_name (object + 1)) }
        ensures err { IfErr result (λ e. e ≡ Fault.OutOfMemory) }
    {
        let name = self.name_of_new(name)?;
        let answered = name.copy()?;
        let next_name = default_name(self.alloc, object + 1)?;
        let attributes = self.published_copy(federate, class)?;
        Ok(NewObject {
            name,
            answered,
            attributes,
            next_name,
        })
    }

    /// The discovery of a new object for each of its receivers, and these. `OutOfMemory` where a growth was refused.
    fn discoveries_of_new(
        &self,
        federate: FederateNo,
        class: ClassNo,
        object: ObjectNo,
        name: &[u8],
    ) -> Result<(Outbox, List<Receiver>), Fault>
        requires { IsSound self.now }
        ensures made { IfOk result (λ p. HasAdded
            (messages_among (discovery_to object name.now) p.1) [] p.0) }
        ensures receivers { IfOk result (λ p. p.1 ≡ receivers_of
            (λ k. object_class_served self.now.catalogue
            (state_of self.now).directory.subscribed k class)
            (declarations_of self.now.declarations).federates federate) }
        ensures federates { IfOk result (λ p. AreFederates p.1) }
        ensures err { IfErr result (λ e. e ≡ Fault.OutOfMemory) }
    {
        let receivers = self
            .declarations
            .receivers_of_object_class(self.alloc, &self.catalogue, federate, class)?;
        let mut outbox = Outbox::new(self.alloc)?;
        let known = shared_name(self.alloc, name)?;
        self.address_discoveries(&mut outbox, receivers.as_slice(), object, &known)?;
        Ok((outbox, receivers))
    }

    /// Makes a new object known to its receivers.
    fn make_known_to(&mut self, receivers: &[Receiver], object: ObjectNo)
        requires federates { AreFederates receivers.now }
        requires some { 0 < object }
        requires registered { object < (registry_of self.old.objects).next_object }
        ensures same { self.new ≡ record self.old { objects = self.new.objects } }
        ensures known { registry_of self.new.objects ≡ record (registry_of self.old.objects) {
          known = with_known_among receivers.now object (registry_of self.old.objects).known;
        } }
    {
        for receiver in receivers {
            self.registry.make_known(object, receiver.federate);
        }
    }

    /// Register Object Instance. Refused, it changes nothing: `ObjectClassNotDefined` where the FED file has no such class;
    /// `ObjectClassNotPublished` where the federate does not publish it; `ObjectAlreadyRegistered` where an object ever had
    /// the name; `LimitReached` where 4,096 objects were ever registered, or the name has not 1 to 255 bytes; the first
    /// that applies; else `OutOfMemory` where a growth was refused.
    pub fn register_object_instance(
        &mut self,
        federate: FederateNo,
        class: ClassNo,
        name: &Option<List<u8>>,
    ) -> Result<Answer, Fault>
        requires { MayCall self.old federate }
        ensures whole { IsWhole self.new }
        ensures done { Ends self.old
            (step.Call federate (service.RegisterObjectInstance class name.now)) result self.new }
    {
        if let Some(fault) = self.register_fault(federate, class, name) {
            return Err(fault);
        }
        let object = self.registry.next_object();
        let new = self.new_object(federate, class, object, name)?;
        let (outbox, receivers) = self.discoveries_of_new(
            federate,
            class,
            object,
            new.name.as_slice(),
        )?;
        let along = Direction::From(federate);
        self.members.reserve_all(along, &outbox)?;
        let NewObject {
            name,
            answered,
            attributes,
            next_name,
        } = new;
        self.registry.register(class, name, federate, attributes)?;
        self.members.post_all(along, outbox);
        self.make_known_to(receivers.as_slice(), object);
        self.next_name = next_name;
        Ok(Answer::Registered {
            object,
            name: answered,
        })
    }

    /// At which class a federate is served once it subscribes another class too, if it is.
    fn serving_class_with(
        &self,
        federate: FederateNo,
        subscribed: ClassNo,
        class: ClassNo,
    ) -> Option<ClassNo>
        ensures { result ≡ find (λ k. eqb k subscribed || is_some
            ((state_of self.now).directory.subscribed federate k))
            (object_lineage self.now.catalogue class) }
    {
        self.catalogue.object_lineage(class).iter().copied().find(|k| {
            *k == subscribed || self.declarations.subscribes_object_class(federate, *k)
        })
    }

    /// At which class a federate is to discover an object once it subscribes a class too, if it is to.
    fn discovery_class(
        &self,
        federate: FederateNo,
        class: ClassNo,
        object: ObjectNo,
    ) -> Option<ClassNo>
        ensures { (attributes : List ℕ) → result ≡ option_map (λ (d : Discovery). d.class)
            (discovery_of
            (with_subscribed (state_of self.now).directory federate class (Some attributes))
            federate object) }
    {
        if !self.registry.has_object(object)
            || self.registry.owner(object) == federate
            || self.registry.was_made_known(object, federate)
        {
            return None;
        }
        self.serving_class_with(federate, class, self.registry.class_of(object))
    }

    /// Adds the discovery of each object that a federate is to discover once it subscribes a class too, for the wire from
    /// its owner. `OutOfMemory` where a growth was refused; nothing is said of the outbox then.
    fn address_found(
        &self,
        outbox: &mut Outbox,
        federate: FederateNo,
        class: ClassNo,
    ) -> Result<(), Fault>
        requires { IsSound self.now }
        ensures ok { OnOk result ((attributes : List ℕ) → HasAdded
            (λ g. map message.Discovery
            (discoveries_of (with_subscribed (state_of self.now).directory
            federate class (Some attributes)) g federate)) outbox.old outbox.new) }
        ensures err { IfErr result (λ e. e ≡ Fault.OutOfMemory) }
    {
        let end = self.registry.next_object();
        for object in 1..end {
            if let Some(class) = self.discovery_class(federate, class, object) {
                let discovery = Discovery {
                    object,
                    class,
                    name: shared_name(self.alloc, self.registry.name_of(object))?,
                };
                outbox.put(self.registry.owner(object), Message::Discovery(discovery))?;
            }
        }
        Ok(())
    }

    /// Makes each object known to a federate that it is to discover once it subscribes a class too.
    fn make_found_known(&mut self, federate: FederateNo, class: ClassNo)
        requires some { 0 < federate }
        requires within { federate ≤ max_joins }
        ensures same { self.new ≡ record self.old { objects = self.new.objects } }
        ensures known { (attributes : List ℕ)
            → registry_of self.new.objects
            ≡ record (registry_of self.old.objects) {
              known =
                  (with_discoveries_made
                  (with_subscribed (state_of self.old).directory federate class
                  (Some attributes)) federate).known;
            } }
    {
        let end = self.registry.next_object();
        for object in 1..end {
            if self.discovery_class(federate, class, object).is_some() {
                self.registry.make_known(object, federate);
            }
        }
    }

    /// Subscribe Object Class Attributes, with these in place of those that were subscribed before. The federate is to
    /// discover what fits its subscriptions then. Refused, it changes nothing: `ObjectClassNotDefined` where the FED file
    /// has no such class; `AttributeNotDefined` where the class has not each of the attributes; else `OutOfMemory` where a
    /// growth was refused.
    pub fn subscribe_object_class_attributes(
        &mut self,
        federate: FederateNo,
        class: ClassNo,
        attributes: &List<AttributeNo>,
    ) -> Result<Answer, Fault>
        requires { MayCall self.old federate }
        ensures whole { IsWhole self.new }
        ensures done { Ends self.old
            (step.Call federate
            (service.SubscribeObjectClassAttributes class attributes.now)) result self.new }
    {
        if let Some(fault) = self.attributes_fault(class, attributes.as_slice()) {
            return Err(fault);
        }
        let attributes = attributes.copy()?;
        let mut outbox = Outbox::new(self.alloc)?;
        self.address_found(&mut outbox, federate, class)?;
        let along = Direction::To(federate);
        self.members.reserve_all(along, &outbox)?;
        self.members.post_all(along, outbox);
        self.make_found_known(federate, class);
        self.declarations
            .subscribe_object_class_attributes(federate, class, attributes);
        Ok(Answer::Done)
    }
}
