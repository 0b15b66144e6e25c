//! Updates as their receivers are shown them.

ghost use Rattle.std.specs.Prelude.{◌≡◌, ◌<◌, ◌∷◌, [], true, false, filter, not, Some, IfOk, IfErr, IfSome, OnOk};
ghost use Rattle.std.specs.List.{position};
ghost use Rattle.std.specs.Option.{option_map_or};
ghost use Rattle.hla_base.specs.declared.content.Content.TheVariants as content;
ghost use Rattle.hla_base.specs.declared.content.Event.{Event};
ghost use Rattle.hla_base.specs.declared.content.HandleValuePair.{HandleValuePair};
ghost use Rattle.hla_base.specs.declared.fault.Fault.TheVariants.{OutOfMemory};
ghost use Rattle.hla_catalogue.specs.Lookup.{contains_number};
ghost use Rattle.hla_machine.specs.Directory.{reflection_of, subscribed_values};
ghost use Rattle.hla_federation.specs.Steps.Reflecting.{IsMade, attributes_at, event_messages};
ghost use Rattle.hla_federation.specs.Steps.Sending.{said_under, said_messages};
ghost use Rattle.hla_federation.specs.Steps.State.{state_of};

use crate::heading::Heading;
use crate::parts::Parts;
use hla_base::{
    AttributeNo, Content, Fault, HandleValuePair, List, ObjectNo, Plain, SharedEvent, SharedList,
};
use hla_declaration::Receiver;

/// What was made of an update for those who subscribe the same attributes as one receiver: nothing, where the update says
/// nothing of them.
#[derive(Debug, Drop)]
pub(crate) struct Made {
    receiver: Receiver,
    /// The place of the first value that they are not shown.
    hidden: usize,
    event: Option<SharedEvent>,
}

/// One more share of an event, if there is one. `OutOfMemory` where the share was refused.
fn share_of(event: &Option<SharedEvent>) -> Result<Option<SharedEvent>, Fault>
    ensures ok { IfOk result (λ e. e ≡ event.now) }
    ensures err { IfErr result (λ e. e ≡ Fault.OutOfMemory) }
{
    match event {
        Some(event) => {
            let share = event.share()?;
            Ok(Some(share))
        }
        None => Ok(None),
    }
}

/// Whether an attribute is among those that are subscribed.
fn is_subscribed(subscribed: &[AttributeNo], attribute: AttributeNo) -> bool
    ensures { result ≡ contains_number attribute subscribed.now }
{
    subscribed.contains(&attribute)
}

/// The place of the first of these values whose attribute is not subscribed, if there is one.
#[inline(always)]
fn first_hidden(subscribed: &[AttributeNo], values: &[HandleValuePair]) -> Option<usize>
    ensures { result
        ≡ position (λ (v : HandleValuePair). not
        (contains_number v.handle subscribed.now)) values.now }
{
    values
        .iter()
        .position(|v| !is_subscribed(subscribed, v.handle))
}

/// Whether a value is shown that stands at this place: those before the first that is hidden are, and that one is not.
fn is_shown(subscribed: &[AttributeNo], attribute: AttributeNo, place: usize, hidden: usize) -> bool
    requires before { place < hidden → contains_number attribute subscribed.now ≡ true }
    requires there { place ≡ hidden → contains_number attribute subscribed.now ≡ false }
    ensures { result ≡ contains_number attribute subscribed.now }
{
    place < hidden || place > hidden && is_subscribed(subscribed, attribute)
}

impl Parts {
    /// The attributes that a receiver subscribes at its class.
    #[inline(always)]
    fn attributes_of(&self, receiver: Receiver) -> &[AttributeNo]
        ensures { result.now ≡ attributes_at
            (state_of self.now).directory.subscribed receiver }
    {
        self.declarations
            .subscribed_attributes(receiver.federate, receiver.class)
    }

    /// What was made for others, if they subscribe just these attributes. Most lists differ in the first value that is hidden,
    /// too, which costs less to see.
    fn made_for<'a>(
        &self,
        made: &'a Option<Made>,
        subscribed: &[AttributeNo],
        hidden: usize,
    ) -> Option<&'a Made>
        ensures same { IfSome result (λ m. attributes_at
            (state_of self.now).directory.subscribed m.now.receiver
            ≡ subscribed.now) }
        ensures made { IfSome result (λ m. made.now ≡ Some m.now) }
    {
        match made {
            Some(one) if one.hidden == hidden && self.attributes_of(one.receiver) == subscribed =>
                Some(one),
            _ => None,
        }
    }

    /// The values of the attributes that are subscribed, where the first that is not is at this place. `OutOfMemory` where
    /// a growth was refused.
    fn shown_attributes(
        &self,
        subscribed: &[AttributeNo],
        values: &[HandleValuePair],
        hidden: usize,
    ) -> Result<List<HandleValuePair>, Fault>
        requires { position
            (λ (v : HandleValuePair). not (contains_number v.handle subscribed.now)) values.now
            ≡ Some hidden }
        ensures ok { IfOk result (λ shown. shown ≡ filter
            (λ (v : HandleValuePair). contains_number v.handle subscribed.now) values.now) }
        ensures err { IfErr result (λ e. e ≡ Fault.OutOfMemory) }
    {
        let mut shown = List::with_room(self.alloc, values.len())?;
        for (place, value) in values.iter().enumerate() {
            if is_shown(subscribed, value.handle, place, hidden) {
                shown.push(value.copy()?)?;
            }
        }
        Ok(shown)
    }

    /// The part of an update that those are shown who subscribe these attributes, where the first value that they are not shown is
    /// at this place: nothing, where it says nothing of them. `OutOfMemory` where a growth was refused.
    fn part_for(
        &self,
        heading: Heading,
        object: ObjectNo,
        values: &SharedList<HandleValuePair>,
        subscribed: &[AttributeNo],
        hidden: usize,
    ) -> Result<Option<SharedEvent>, Fault>
        requires { position
            (λ (v : HandleValuePair). not (contains_number v.handle subscribed.now)) values.now
            ≡ Some hidden }
        ensures ok { IfOk result
            (λ e. event_messages e ≡ said_messages heading (reflection_of object (filter
            (λ (v : HandleValuePair). contains_number v.handle subscribed.now) values.now))) }
        ensures err { IfErr result (λ e. e ≡ Fault.OutOfMemory) }
    {
        let shown = self.shown_attributes(subscribed, values.as_slice(), hidden)?;
        if shown.is_empty() {
            return Ok(None);
        }
        let values = SharedList::from_list(shown)?;
        let event = heading.event(self.alloc, Content::Reflection { object, values })?;
        Ok(Some(event))
    }

    /// The same part: a share of what was made for others that subscribe the same, where that was kept. The first part is
    /// kept and no other, so that a receiver compares its attributes with one list at most, and costs no more than a value
    /// that is looked for in it. `OutOfMemory` where a growth was refused; nothing is said of `made` then.
    fn shared_part(
        &self,
        made: &mut Option<Made>,
        heading: Heading,
        object: ObjectNo,
        values: &SharedList<HandleValuePair>,
        receiver: Receiver,
        hidden: usize,
    ) -> Result<Option<SharedEvent>, Fault>
        requires made { IfSome made.old
            (IsMade (state_of self.now).directory.subscribed heading object
            values.now) }
        requires hidden { position
            (λ (v : HandleValuePair). not (contains_number v.handle (attributes_at
            (state_of self.now).directory.subscribed receiver))) values.now
            ≡ Some hidden }
        ensures made { OnOk result (IfSome made.new
            (IsMade (state_of self.now).directory.subscribed heading object
            values.now)) }
        ensures ok { IfOk result
            (λ e. event_messages e ≡ said_messages heading (reflection_of object (filter
            (λ (v : HandleValuePair). contains_number v.handle (attributes_at
            (state_of self.now).directory.subscribed receiver))
            values.now))) }
        ensures err { IfErr result (λ e. e ≡ Fault.OutOfMemory) }
    {
        let subscribed = self.attributes_of(receiver);
        if let Some(same) = self.made_for(made, subscribed, hidden) {
            let share = share_of(&same.event)?;
            return Ok(share);
        }
        let event = self.part_for(heading, object, values, subscribed, hidden)?;
        if made.is_some() {
            return Ok(event);
        }
        let share = share_of(&event)?;
        *made = Some(Made {
            receiver,
            hidden,
            event,
        });
        Ok(share)
    }

    /// The update as a receiver is shown it: a share of `whole` where these are all that it says; nothing
    /// where it says nothing of them. `OutOfMemory` where a growth was refused; nothing is said of `made` then.
    fn reflection_for(
        &self,
        made: &mut Option<Made>,
        whole: &SharedEvent,
        heading: Heading,
        object: ObjectNo,
        values: &SharedList<HandleValuePair>,
        receiver: Receiver,
    ) -> Result<Option<SharedEvent>, Fault>
        requires whole { whole.now ≡ said_under heading (content.Reflection object values.now) }
        requires made { IfSome made.old
            (IsMade (state_of self.now).directory.subscribed heading object
            values.now) }
        ensures made { OnOk result (IfSome made.new
            (IsMade (state_of self.now).directory.subscribed heading object
            values.now)) }
        ensures ok { IfOk result
            (λ e. event_messages e ≡ said_messages heading (reflection_of object (filter
            (λ (v : HandleValuePair). contains_number v.handle (attributes_at
            (state_of self.now).directory.subscribed receiver))
            values.now))) }
        ensures err { IfErr result (λ e. e ≡ Fault.OutOfMemory) }
    {
        if values.is_empty() {
            return Ok(None);
        }
        match first_hidden(self.attributes_of(receiver), values.as_slice()) {
            None => {
                let share = whole.share()?;
                Ok(Some(share))
            }
            // The only value is hidden.
            Some(_) if values.len() == 1 => Ok(None),
            Some(hidden) => self.shared_part(made, heading, object, values, receiver, hidden),
        }
    }

    /// The update as a federate receives it at a class, with the attributes that it subscribes there: a share of `whole`,
    /// or of the part that was kept for those who subscribe the same, where there is one. So receivers of two kinds, those
    /// who subscribe all and those who subscribe one part, cost two events. `OutOfMemory` where a growth was refused;
    /// nothing is said of `made` then.
    #[inline(always)]
    pub(crate) fn shared_reflection(
        &self,
        made: &mut Option<Made>,
        whole: &SharedEvent,
        heading: Heading,
        object: ObjectNo,
        values: &SharedList<HandleValuePair>,
        receiver: Receiver,
    ) -> Result<Option<SharedEvent>, Fault>
        requires whole { whole.now ≡ said_under heading (content.Reflection object values.now) }
        requires made { IfSome made.old
            (IsMade (state_of self.now).directory.subscribed heading object
            values.now) }
        ensures made { OnOk result (IfSome made.new
            (IsMade (state_of self.now).directory.subscribed heading object
            values.now)) }
        ensures ok { IfOk result
            (λ e. event_messages e ≡ said_messages heading (reflection_of object
            (subscribed_values
            (state_of self.now).directory receiver.federate receiver.class values.now))) }
        ensures err { IfErr result (λ e. e ≡ Fault.OutOfMemory) }
    {
        self.reflection_for(made, whole, heading, object, values, receiver)
    }
}
