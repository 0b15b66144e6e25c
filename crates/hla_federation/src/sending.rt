//! Sending updates, interactions and deletions.

ghost use Rattle.std.specs.Prelude.{◌≡◌, ◌≤◌, ◌<◌, ◌+◌, ◌&&◌, [], ◌∷◌, ℕ, false, true, length, filter, is_some, IfOk, IfErr, IfSome, OnOk};
ghost use Rattle.hla_base.specs.declared.content.Content.TheVariants as content;
ghost use Rattle.hla_base.specs.declared.content.HandleValuePair.{HandleValuePair};
ghost use Rattle.hla_base.specs.declared.fault.Fault.TheVariants.{OutOfMemory};
ghost use Rattle.hla_base.specs.Tables.{is_other, one_if};
ghost use Rattle.std.specs.List.{list_all};
ghost use Rattle.hla_catalogue.specs.Lookup.{contains_number, has_parameter};
ghost use Rattle.hla_catalogue.specs.declared.declared.Order.TheVariants.{Receive};
ghost use Rattle.hla_base.specs.FederateSets.{federate_set};
ghost use Rattle.hla_machine.specs.Directory.{AnInteraction, AnUpdate, ADeletion, is_receiver, values_of_order, part_sent, is_of_order, order_of_attribute};
ghost use Rattle.hla_machine.specs.declared.service.Service.TheVariants as service;
ghost use Rattle.hla_machine.specs.declared.step.Step.TheVariants as step;
ghost use Rattle.hla_members.specs.Noting.{handle_noted};
ghost use Rattle.hla_federation.specs.Steps.Sending.{HasAdded, heading_of, said_under, said_messages, message_to, part_to};
ghost use Rattle.hla_federation.specs.Steps.Soundness.{MayCall};
ghost use Rattle.hla_federation.specs.Steps.State.{state_of, IsWhole, Ends};

use crate::heading::{Heading, is_timestamp};
use crate::pairs::shared_by_handle;
use crate::parts::Parts;
use hla_base::{
    ClassNo, Content, EventHandle, Fault, FederateNo, HandleValuePair, List, ObjectNo, Plain,
    Serial, SharedEvent, SharedList, Ticks,
};
use hla_catalogue::Order;
use hla_machine::Answer;
use hla_members::{Note, Outbox};
use hla_null_message::Message;

/// The handle by which its sender may retract a message, if there is one to retract.
fn handle_noted(sender: FederateNo, note: &Option<Note>) -> Option<EventHandle>
    ensures { result ≡ handle_noted sender note.now }
{
    match note {
        Some(note) => Some(EventHandle {
            sender,
            serial: note.serial,
        }),
        None => None,
    }
}

impl Parts {
    /// The values of the parameters that a class has. `OutOfMemory` where a growth was refused.
    fn shown_parameters(
        &self,
        class: ClassNo,
        values: &[HandleValuePair],
    ) -> Result<List<HandleValuePair>, Fault>
        ensures ok { IfOk result (λ shown. shown ≡ filter
            (λ (v : HandleValuePair). has_parameter self.now.catalogue class v.handle) values.now) }
        ensures err { IfErr result (λ e. e ≡ Fault.OutOfMemory) }
    {
        let mut shown = List::with_room(self.alloc, values.len())?;
        for value in values {
            if self.catalogue.has_parameter(class, value.handle) {
                shown.push(value.copy()?)?;
            }
        }
        Ok(shown)
    }

    /// Whether a class has all the parameters of these values.
    #[inline(always)]
    fn shows_parameters(&self, class: ClassNo, values: &[HandleValuePair]) -> bool
        ensures { result
            ≡ list_all (λ (v : HandleValuePair). has_parameter self.now.catalogue class v.handle)
            values.now }
    {
        values
            .iter()
            .all(|v| self.catalogue.has_parameter(class, v.handle))
    }

    /// The values of the parameters that a class has, shared: those that are given, where it has all of them. `OutOfMemory`
    /// where a growth was refused.
    #[inline(always)]
    fn parameters_for(
        &self,
        class: ClassNo,
        values: &SharedList<HandleValuePair>,
    ) -> Result<SharedList<HandleValuePair>, Fault>
        ensures ok { IfOk result (λ shown. shown ≡ filter
            (λ (v : HandleValuePair). has_parameter self.now.catalogue class v.handle) values.now) }
        ensures err { IfErr result (λ e. e ≡ Fault.OutOfMemory) }
    {
        if self.shows_parameters(class, values.as_slice()) {
            let same = values.copy()?;
            return Ok(same);
        }
        let shown = self.shown_parameters(class, values.as_slice())?;
        let shared = SharedList::from_list(shown)?;
        Ok(shared)
    }

    /// The interaction as those receive it who do so at a class: with the parameters that the class has. `OutOfMemory`
    /// where a growth was refused.
    #[inline(always)]
    pub(crate) fn interaction_at(
        &self,
        heading: Heading,
        class: ClassNo,
        values: &SharedList<HandleValuePair>,
    ) -> Result<SharedEvent, Fault>
        ensures ok { IfOk result (λ e. e ≡ said_under heading (content.Interaction class (filter
            (λ (v : HandleValuePair). has_parameter self.now.catalogue class v.handle)
            values.now))) }
        ensures err { IfErr result (λ e. e ≡ Fault.OutOfMemory) }
    {
        let values = self.parameters_for(class, values)?;
        heading.event(self.alloc, Content::Interaction { class, values })
    }

    /// The same for one who receives it at a class: a share of `whole`, where that is as it is at this class. `OutOfMemory`
    /// where a growth was refused.
    #[inline(always)]
    pub(crate) fn interaction_for(
        &self,
        whole: &SharedEvent,
        whole_class: ClassNo,
        heading: Heading,
        class: ClassNo,
        values: &SharedList<HandleValuePair>,
    ) -> Result<SharedEvent, Fault>
        requires { whole.now ≡ said_under heading (content.Interaction whole_class (filter
            (λ (v : HandleValuePair). has_parameter self.now.catalogue whole_class v.handle)
            values.now)) }
        ensures ok { IfOk result (λ e. e ≡ said_under heading (content.Interaction class (filter
            (λ (v : HandleValuePair). has_parameter self.now.catalogue class v.handle)
            values.now))) }
        ensures err { IfErr result (λ e. e ≡ Fault.OutOfMemory) }
    {
        if class == whole_class {
            whole.share()
        } else {
            self.interaction_at(heading, class, values)
        }
    }

    /// Whether all these values are of attributes whose updates have this order, of this object and now.
    #[inline(always)]
    fn are_of_order(&self, object: ObjectNo, order: Order, values: &[HandleValuePair]) -> bool
        ensures { result ≡ list_all (λ (v : HandleValuePair). is_of_order order
            (order_of_attribute (state_of self.now).directory object v.handle)) values.now }
    {
        values
            .iter()
            .all(|v| self.order_of_attribute(object, v.handle) == order)
    }

    /// Copies of the values of the attributes whose updates have this order. `OutOfMemory` where a growth was refused.
    fn picked_of_order(
        &self,
        object: ObjectNo,
        order: Order,
        values: &[HandleValuePair],
    ) -> Result<List<HandleValuePair>, Fault>
        ensures ok { IfOk result
            (λ part. part ≡ values_of_order (state_of self.now).directory object order values.now) }
        ensures err { IfErr result (λ e. e ≡ Fault.OutOfMemory) }
    {
        let mut part = List::with_room(self.alloc, values.len())?;
        for value in values {
            if self.order_of_attribute(object, value.handle) == order {
                part.push(value.copy()?)?;
            }
        }
        Ok(part)
    }

    /// The values of the attributes whose updates have this order, shared: those that are given, where all of them have it.
    /// `OutOfMemory` where a growth was refused.
    pub(crate) fn values_of_order(
        &self,
        object: ObjectNo,
        order: Order,
        values: &SharedList<HandleValuePair>,
    ) -> Result<SharedList<HandleValuePair>, Fault>
        ensures ok { IfOk result
            (λ part. part ≡ values_of_order (state_of self.now).directory object order values.now) }
        ensures err { IfErr result (λ e. e ≡ Fault.OutOfMemory) }
    {
        if self.are_of_order(object, order, values.as_slice()) {
            let same = values.copy()?;
            return Ok(same);
        }
        let part = self.picked_of_order(object, order, values.as_slice())?;
        let shared = SharedList::from_list(part)?;
        Ok(shared)
    }

    /// What heads a message of a federate that has this order: the stamp counts where the order is time-stamp order and the
    /// federate regulates.
    pub fn heading(
        &self,
        sender: FederateNo,
        serial: Serial,
        order: Order,
        stamp: Option<Ticks>,
    ) -> Heading
        requires some { 0 < sender }
        requires within { sender < (state_of self.now).directory.next_federate }
        ensures { result ≡ heading_of sender serial ((state_of self.now).row sender) stamp order }
    {
        let is_regulating = self.members.local(sender).state().is_regulation_enabled();
        let stamp = if is_timestamp(order) && is_regulating {
            stamp
        } else {
            None
        };
        Heading {
            sender,
            serial,
            stamp,
        }
    }

    /// Whether the removal of an object goes to a federate: to each other to which it is known.
    fn receives_removal(&self, sender: FederateNo, object: ObjectNo, federate: FederateNo) -> bool
        ensures { let d = (state_of self.now).directory in result
            ≡ is_other d.joined sender federate && d.known object federate }
    {
        federate != sender
            && self.members.is_joined(federate)
            && self.registry.was_made_known(object, federate)
    }

    /// Adds the removal of an object for each other federate to which it is known. `OutOfMemory` where a growth was
    /// refused; nothing is said of the outbox then.
    pub fn address_removal(
        &self,
        outbox: &mut Outbox,
        heading: Heading,
        object: ObjectNo,
    ) -> Result<(), Fault>
        requires { IsWhole self.now }
        ensures ok { OnOk result
            (HasAdded (message_to (state_of self.now).directory heading
            (ADeletion object)) outbox.old outbox.new) }
        ensures err { IfErr result (λ e. e ≡ Fault.OutOfMemory) }
    {
        let end = self.members.next_federate();
        let whole = heading.event(self.alloc, Content::Removal { object })?;
        for peer in 1..end {
            if self.receives_removal(heading.sender, object, peer) {
                let share = whole.share()?;
                outbox.put(peer, Message::Event(share))?;
            }
        }
        Ok(())
    }

    /// Send Interaction, with a stamp in ticks or without one. It goes in time-stamp order if that is now the order of the
    /// federate's interactions of the class, a stamp is given and the federate regulates. Refused, it changes nothing:
    /// `InteractionClassNotDefined` where the FED file has no such class; `InteractionParameterNotDefined` where the class has not each of the parameters;
    /// `InteractionClassNotPublished` where the federate does not publish it; `InvalidFederationTime` where the stamp is
    /// above 10^18, or below the federate's least stamp where a message goes in time-stamp order; `LimitReached` where no
    /// serial is left; the first that applies; else `OutOfMemory` where a growth was refused.
    pub fn send_interaction(
        &mut self,
        federate: FederateNo,
        class: ClassNo,
        values: &[HandleValuePair],
        stamp: Option<Ticks>,
    ) -> Result<Answer, Fault>
        requires { MayCall self.old federate }
        ensures whole { IsWhole self.new }
        ensures done { Ends self.old
            (step.Call federate (service.SendInteraction class values.now stamp)) result self.new }
    {
        if let Some(fault) = self.send_fault(federate, class, values, stamp) {
            return Err(fault);
        }
        let serial = self.members.next_serial(federate);
        let order = self.order_of_interaction(federate, class);
        let heading = self.heading(federate, serial, order, stamp);
        let values = shared_by_handle(self.alloc, values)?;
        let told = self.post_interaction(heading, class, &values)?;
        let note = heading.note(told);
        let handle = handle_noted(federate, &note);
        if self.members.count_sent(federate, 1, note).is_err() {
            self.members.take_back(federate, told);
            return Err(Fault::OutOfMemory);
        }
        Ok(Answer::Sent(handle))
    }

    /// Update Attribute Values, with a stamp in ticks or without one. The attributes whose updates go in receive order now make
    /// one message, the others another one after it, which goes in time-stamp order if a stamp is given and the federate
    /// regulates. Refused, it changes nothing: `ObjectNotKnown` where the object is not there, or not known to the
    /// federate; `AttributeNotDefined` where its class has not each of the attributes; `AttributeNotOwned` and
    /// `AttributeNotPublished` where the federate does not own, or publish, each of them; `InvalidFederationTime` where the
    /// stamp is above 10^18, or below the federate's least stamp where a message goes in time-stamp order; `LimitReached`
    /// where too few serials are left; the first that applies; else `OutOfMemory` where a growth was refused.
    pub fn update_attribute_values(
        &mut self,
        federate: FederateNo,
        object: ObjectNo,
        values: &[HandleValuePair],
        stamp: Option<Ticks>,
    ) -> Result<Answer, Fault>
        requires { MayCall self.old federate }
        ensures whole { IsWhole self.new }
        ensures done { Ends self.old
            (step.Call federate
            (service.UpdateAttributeValues object values.now stamp)) result self.new }
    {
        if let Some(fault) = self.update_fault(federate, object, values, stamp) {
            return Err(fault);
        }
        let serial = self.members.next_serial(federate);
        let values = shared_by_handle(self.alloc, values)?;
        let first = self.heading(federate, serial, Order::Receive, stamp);
        let received_by = self.post_order(first, object, Order::Receive, &values)?;
        let first_count = u64::from(received_by.is_some());
        let second = self.heading(federate, serial + first_count, Order::Timestamp, stamp);
        let Ok(stamped_by) = self.post_order(second, object, Order::Timestamp, &values) else {
            self.take_part_back(federate, received_by);
            return Err(Fault::OutOfMemory);
        };
        let count = first_count + u64::from(stamped_by.is_some());
        let note = second.note_part(stamped_by);
        let handle = handle_noted(federate, &note);
        if self.members.count_sent(federate, count, note).is_err() {
            self.take_part_back(federate, stamped_by);
            self.take_part_back(federate, received_by);
            return Err(Fault::OutOfMemory);
        }
        Ok(Answer::Sent(handle))
    }

    /// Delete Object Instance, with a stamp in ticks or without one. The removals go in time-stamp order if that is now the
    /// order of the object's `privilegeToDelete`, a stamp is given and the federate regulates. A deletion cannot be
    /// retracted. Refused, it changes nothing: `ObjectNotKnown` where the object is not there, or not known to the federate; `DeletePrivilegeNotHeld`
    /// where it is another's; `InvalidFederationTime` where the stamp is above 10^18, or below the federate's least stamp
    /// where a message goes in time-stamp order; `LimitReached` where no serial is left; the first that applies; else
    /// `OutOfMemory` where a growth was refused.
    pub fn delete_object_instance(
        &mut self,
        federate: FederateNo,
        object: ObjectNo,
        stamp: Option<Ticks>,
    ) -> Result<Answer, Fault>
        requires { MayCall self.old federate }
        ensures whole { IsWhole self.new }
        ensures done { Ends self.old
            (step.Call federate (service.DeleteObjectInstance object stamp)) result self.new }
    {
        if let Some(fault) = self.delete_fault(federate, object, stamp) {
            return Err(fault);
        }
        let serial = self.members.next_serial(federate);
        let order = self.order_of_deletion(object);
        let heading = self.heading(federate, serial, order, stamp);
        let mut outbox = Outbox::new(self.alloc)?;
        self.address_removal(&mut outbox, heading, object)?;
        self.members.send_all(federate, outbox, 1, None)?;
        self.registry.delete(object);
        Ok(Answer::Done)
    }
}
