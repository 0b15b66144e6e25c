//! Interactions and updates put on their wires, one receiver after another. Where memory runs out before all have theirs, those
//! that were put are taken back.

ghost use Rattle.std.specs.Prelude.{◌≡◌, ◌≤◌, ◌<◌, [], false, length, filter, is_some, not, eqb, IfOk, IfErr, IfSome, OnOk, OnErr};
ghost use Rattle.hla_base.specs.declared.content.Content.TheVariants as content;
ghost use Rattle.hla_base.specs.declared.content.HandleValuePair.{HandleValuePair};
ghost use Rattle.hla_base.specs.declared.fault.Fault.TheVariants.{OutOfMemory};
ghost use Rattle.hla_base.specs.FederateSets.{federate_set};
ghost use Rattle.hla_base.specs.Limits.{max_joins};
ghost use Rattle.hla_base.specs.Tables.{one_if, upd, when};
ghost use Rattle.hla_catalogue.specs.Lookup.{has_parameter};
ghost use Rattle.hla_catalogue.specs.declared.declared.Order.TheVariants.{Receive};
ghost use Rattle.hla_declaration.specs.Receivers.{AreServed};
ghost use Rattle.hla_machine.specs.Directory.{AnInteraction, AnUpdate, is_receiver, part_sent, served_interaction, served_object, values_of_order};
ghost use Rattle.hla_members.specs.Putting.{taken_back};
ghost use Rattle.hla_federation.specs.Steps.Reflecting.{IsMade};
ghost use Rattle.hla_federation.specs.Steps.Sending.{HasSent, message_to, only_to, part_taken_back, part_to, said_under};
ghost use Rattle.hla_federation.specs.Steps.State.{state_of, IsWhole};

use crate::heading::Heading;
use crate::parts::Parts;
use crate::reflecting::Made;
use hla_base::{
    ClassNo, Content, Fault, FederateNo, FederateSet, HandleValuePair, ObjectNo, Plain,
    SharedEvent, SharedList,
};
use hla_catalogue::Order;
use hla_declaration::{Receiver, Subscribers};

/// An interaction or an update that is put on the wires to its receivers.
#[derive(Clone, Copy)]
struct Post<'a> {
    heading: Heading,
    /// The class of the interaction, or of the object.
    class: ClassNo,
    values: &'a SharedList<HandleValuePair>,
    /// The event as those have it who are shown all of it.
    whole: &'a SharedEvent,
    /// Who subscribes the class or one of those around it.
    subscribers: Subscribers,
}

impl Parts {
    /// At which class a federate receives an interaction, where it does; the sender does not.
    #[inline(always)]
    fn interaction_served(&self, post: Post<'_>, peer: FederateNo) -> Option<ClassNo>
        requires few { peer ≤ max_joins }
        requires subscribers { AreServed post.subscribers
            (λ f. served_interaction (state_of self.now).directory f post.class) }
        ensures { result ≡ when (not (eqb post.entry.heading.sender peer))
            (served_interaction (state_of self.now).directory peer post.entry.class) }
    {
        if peer == post.heading.sender {
            return None;
        }
        self.declarations
            .interaction_class_served_among(&self.catalogue, post.subscribers, peer, post.class)
    }

    /// Puts an interaction on the wire to a federate, where it receives it, who is among those that were told then.
    /// `OutOfMemory`, and all as it was, where a growth was refused.
    #[inline(always)]
    fn post_interaction_to(
        &mut self,
        told: &mut FederateSet,
        post: Post<'_>,
        peer: FederateNo,
    ) -> Result<(), Fault>
        requires parts { IsWhole self.old }
        requires some_sender { 0 < post.heading.sender }
        requires within_sender { post.heading.sender ≤ max_joins }
        requires some { 0 < peer }
        requires within { peer < (state_of self.old).directory.next_federate }
        requires untold { federate_set told.old peer ≡ false }
        requires subscribers { AreServed post.subscribers
            (λ f. served_interaction (state_of self.old).directory f post.class) }
        requires whole { post.whole.now
            ≡ said_under post.heading (content.Interaction post.class (filter
            (λ (v : HandleValuePair). has_parameter self.old.catalogue post.class v.handle)
            post.values.now)) }
        ensures sent { OnOk result (HasSent post.entry.heading.sender
            (only_to peer (message_to (state_of self.old).directory post.entry.heading
            (AnInteraction post.entry.class post.entry.values.now))) self.old self.new) }
        ensures told { OnOk result (federate_set told.new
            ≡ upd (federate_set told.old) peer
            (is_receiver (state_of self.old).directory post.entry.heading.sender
            (AnInteraction post.entry.class post.entry.values.now) peer)) }
        ensures back { OnOk result
            (taken_back post.entry.heading.sender (federate_set told.new) self.new.members
            ≡ taken_back post.entry.heading.sender (federate_set told.old) self.old.members) }
        ensures err { IfErr result (λ e. e ≡ Fault.OutOfMemory) }
        ensures unchanged { OnErr result (self.new ≡ self.old) }
        ensures told_unchanged { OnErr result (told.new ≡ told.old) }
    {
        let Some(class) = self.interaction_served(post, peer) else {
            return Ok(());
        };
        let event = self.interaction_for(post.whole, post.class, post.heading, class, post.values)?;
        self.members.put_event(post.heading.sender, peer, event)?;
        told.add(peer);
        Ok(())
    }

    /// Puts an interaction on the wire to each federate that receives it, at the class at which it does, and answers who they
    /// are. It asks the federates from the first to the last of those that subscribe the class, or one of those around it.
    /// `OutOfMemory`, and all as it was, where a growth was refused.
    pub fn post_interaction(
        &mut self,
        heading: Heading,
        class: ClassNo,
        values: &SharedList<HandleValuePair>,
    ) -> Result<FederateSet, Fault>
        requires parts { IsWhole self.old }
        requires some { 0 < heading.sender }
        requires within { heading.sender ≤ max_joins }
        ensures sent { OnOk result (HasSent heading.sender
            (message_to (state_of self.old).directory heading
            (AnInteraction class values.now)) self.old self.new) }
        ensures receivers { IfOk result
            (λ told. federate_set told ≡ is_receiver (state_of self.old).directory
            heading.sender (AnInteraction class values.now)) }
        ensures back { IfOk result (λ told.
            taken_back heading.sender (federate_set told) self.new.members ≡ self.old.members) }
        ensures err { IfErr result (λ e. e ≡ Fault.OutOfMemory) }
        ensures unchanged { OnErr result (self.new ≡ self.old) }
    {
        let whole = self.interaction_at(heading, class, values)?;
        let subscribers = self
            .declarations
            .subscribers_of_interaction_class(&self.catalogue, class);
        let post = Post {
            heading,
            class,
            values,
            whole: &whole,
            subscribers,
        };
        let mut told = FederateSet::new();
        let end = self.members.next_federate().min(subscribers.end());
        for peer in subscribers.first()..end {
            if self.post_interaction_to(&mut told, post, peer).is_err() {
                self.members.take_back(heading.sender, told);
                return Err(Fault::OutOfMemory);
            }
        }
        Ok(told)
    }

    /// At which class a federate receives an update, where it does; the sender does not.
    #[inline(always)]
    fn update_served(&self, post: Post<'_>, peer: FederateNo) -> Option<ClassNo>
        requires few { peer ≤ max_joins }
        requires subscribers { AreServed post.subscribers
            (λ f. served_object (state_of self.now).directory f post.class) }
        ensures { result ≡ when (not (eqb post.entry.heading.sender peer))
            (served_object (state_of self.now).directory peer post.entry.class) }
    {
        if peer == post.heading.sender {
            return None;
        }
        self.declarations
            .object_class_served_among(&self.catalogue, post.subscribers, peer, post.class)
    }

    /// Puts an update on the wire to a federate, where it is shown any of it, who is among those that were told then.
    /// `OutOfMemory`, and all but `made` as it was, where a growth was refused.
    #[inline(always)]
    fn post_update_to(
        &mut self,
        told: &mut FederateSet,
        made: &mut Option<Made>,
        post: Post<'_>,
        object: ObjectNo,
        peer: FederateNo,
    ) -> Result<(), Fault>
        requires parts { IsWhole self.old }
        requires some_sender { 0 < post.heading.sender }
        requires within_sender { post.heading.sender ≤ max_joins }
        requires some { 0 < peer }
        requires within { peer < (state_of self.old).directory.next_federate }
        requires untold { federate_set told.old peer ≡ false }
        requires class { post.class ≡ ((state_of self.old).directory.object object).class }
        requires subscribers { AreServed post.subscribers
            (λ f. served_object (state_of self.old).directory f post.class) }
        requires whole { post.whole.now
            ≡ said_under post.heading (content.Reflection object post.values.now) }
        requires made { IfSome made.old
            (IsMade (state_of self.old).directory.subscribed post.heading object
            post.values.now) }
        ensures made { OnOk result (IfSome made.new
            (IsMade (state_of self.old).directory.subscribed post.entry.heading object
            post.entry.values.now)) }
        ensures sent { OnOk result (HasSent post.entry.heading.sender
            (only_to peer (message_to (state_of self.old).directory post.entry.heading
            (AnUpdate object post.entry.values.now))) self.old self.new) }
        ensures told { OnOk result (federate_set told.new
            ≡ upd (federate_set told.old) peer
            (is_receiver (state_of self.old).directory post.entry.heading.sender
            (AnUpdate object post.entry.values.now) peer)) }
        ensures back { OnOk result
            (taken_back post.entry.heading.sender (federate_set told.new) self.new.members
            ≡ taken_back post.entry.heading.sender (federate_set told.old) self.old.members) }
        ensures err { IfErr result (λ e. e ≡ Fault.OutOfMemory) }
        ensures unchanged { OnErr result (self.new ≡ self.old) }
        ensures told_unchanged { OnErr result (told.new ≡ told.old) }
    {
        let Some(class) = self.update_served(post, peer) else {
            return Ok(());
        };
        let receiver = Receiver {
            federate: peer,
            class,
        };
        let reflection = self.shared_reflection(
            made,
            post.whole,
            post.heading,
            object,
            post.values,
            receiver,
        )?;
        let Some(event) = reflection else {
            return Ok(());
        };
        self.members.put_event(post.heading.sender, peer, event)?;
        told.add(peer);
        Ok(())
    }

    /// Puts an update on the wire to each federate that receives it, with the attributes that it is shown, and answers who they
    /// are. It asks the federates from the first to the last of those that subscribe the class, or one of those around it.
    /// `OutOfMemory`, and all as it was, where a growth was refused.
    #[inline(always)]
    fn post_update(
        &mut self,
        heading: Heading,
        object: ObjectNo,
        values: &SharedList<HandleValuePair>,
    ) -> Result<FederateSet, Fault>
        requires parts { IsWhole self.old }
        requires some { 0 < heading.sender }
        requires within { heading.sender ≤ max_joins }
        ensures sent { OnOk result (HasSent heading.sender
            (message_to (state_of self.old).directory heading
            (AnUpdate object values.now)) self.old self.new) }
        ensures receivers { IfOk result
            (λ told. federate_set told ≡ is_receiver (state_of self.old).directory
            heading.sender (AnUpdate object values.now)) }
        ensures back { IfOk result (λ told.
            taken_back heading.sender (federate_set told) self.new.members ≡ self.old.members) }
        ensures err { IfErr result (λ e. e ≡ Fault.OutOfMemory) }
        ensures unchanged { OnErr result (self.new ≡ self.old) }
    {
        let class = self.registry.class_of(object);
        let content = Content::Reflection {
            object,
            values: values.copy()?,
        };
        let whole = heading.event(self.alloc, content)?;
        let subscribers = self
            .declarations
            .subscribers_of_object_class(&self.catalogue, class);
        let post = Post {
            heading,
            class,
            values,
            whole: &whole,
            subscribers,
        };
        let mut told = FederateSet::new();
        let mut made = None;
        let end = self.members.next_federate().min(subscribers.end());
        for peer in subscribers.first()..end {
            let posted = self.post_update_to(&mut told, &mut made, post, object, peer);
            if posted.is_err() {
                self.members.take_back(heading.sender, told);
                return Err(Fault::OutOfMemory);
            }
        }
        Ok(told)
    }

    /// Puts a part of an update on its wires, and answers who receives it; none where the part has no values, and so makes no
    /// message. `OutOfMemory`, and all as it was, where a growth was refused.
    #[inline(always)]
    fn post_part(
        &mut self,
        heading: Heading,
        object: ObjectNo,
        values: &SharedList<HandleValuePair>,
    ) -> Result<Option<FederateSet>, Fault>
        requires parts { IsWhole self.old }
        requires some { 0 < heading.sender }
        requires within { heading.sender ≤ max_joins }
        ensures count { IfOk result
            (λ told. one_if (is_some told) ≡ length (part_sent Receive object values.now)) }
        ensures receivers { IfOk result (λ told. IfSome told (λ rs. federate_set rs ≡ is_receiver
            (state_of self.old).directory heading.sender (AnUpdate object values.now))) }
        ensures sent { OnOk result (HasSent heading.sender
            (part_to (state_of self.old).directory heading object values.now)
            self.old self.new) }
        ensures back { IfOk result (λ told.
            part_taken_back heading.sender told self.new.members ≡ self.old.members) }
        ensures err { IfErr result (λ e. e ≡ Fault.OutOfMemory) }
        ensures unchanged { OnErr result (self.new ≡ self.old) }
    {
        if values.is_empty() {
            return Ok(None);
        }
        let told = self.post_update(heading, object, values)?;
        Ok(Some(told))
    }

    /// Puts the part of an update that has one order on its wires, and answers who receives it. Where no value has that order,
    /// there is no such part, and no list of it is made. `OutOfMemory`, and all as it was, where a growth was refused.
    pub fn post_order(
        &mut self,
        heading: Heading,
        object: ObjectNo,
        order: Order,
        values: &SharedList<HandleValuePair>,
    ) -> Result<Option<FederateSet>, Fault>
        requires parts { IsWhole self.old }
        requires some { 0 < heading.sender }
        requires within { heading.sender ≤ max_joins }
        ensures count { IfOk result
            (λ told. one_if (is_some told) ≡ length (part_sent Receive object
            (values_of_order (state_of self.old).directory object order values.now))) }
        ensures receivers { IfOk result (λ told. IfSome told (λ rs. federate_set rs ≡ is_receiver
            (state_of self.old).directory heading.sender (AnUpdate object
            (values_of_order (state_of self.old).directory object order values.now)))) }
        ensures sent { OnOk result (HasSent heading.sender
            (part_to (state_of self.old).directory heading object
            (values_of_order (state_of self.old).directory object order values.now))
            self.old self.new) }
        ensures back { IfOk result (λ told.
            part_taken_back heading.sender told self.new.members ≡ self.old.members) }
        ensures err { IfErr result (λ e. e ≡ Fault.OutOfMemory) }
        ensures unchanged { OnErr result (self.new ≡ self.old) }
    {
        if !self.has_order(order, object, values.as_slice()) {
            return Ok(None);
        }
        let part = self.values_of_order(object, order, values)?;
        self.post_part(heading, object, &part)
    }

    /// Takes the part of an update that was put on the wires last off them, by who was told it.
    pub fn take_part_back(&mut self, sender: FederateNo, told: Option<FederateSet>)
        requires some { 0 < sender }
        requires within { sender ≤ max_joins }
        ensures { self.new ≡ record self.old {
          members = part_taken_back sender told self.old.members;
        } }
    {
        if let Some(told) = told {
            self.members.take_back(sender, told);
        }
    }
}
