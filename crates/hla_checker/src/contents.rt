//! What a message says to each federate.

ghost use Rattle.std.specs.Prelude.{◌≡◌, ◌≤◌, ◌<◌, ◌++◌, filter, length, OnOk, IfOk, IfErr};
ghost use Rattle.std.specs.List.{prefix_len};
ghost use Rattle.hla_base.specs.Limits.{max_joins};
ghost use Rattle.hla_base.specs.declared.content.HandleValuePair.{HandleValuePair};
ghost use Rattle.hla_base.specs.declared.fault.Fault.TheVariants.{OutOfMemory};
ghost use Rattle.hla_catalogue.specs.Lookup.{contains_number, has_parameter};
ghost use Rattle.hla_machine.specs.Directory.{AnInteraction, AnUpdate, ADeletion, content_for, subscribed_values};
ghost use Rattle.hla_verdicts.specs.Kept.{directory_of};
ghost use Rattle.hla_checker.specs.Sending.{body_said, AreContents};

use crate::kept::KeptExecution;
use crate::values::Values;
use hla_base::{
    AttributeNo, ClassNo, Content, Fault, FederateNo, HandleValuePair, List, ObjectNo, Plain,
    SharedList,
};
use hla_catalogue::Order;
use std::alloc::Global;

/// What a service sends, before it is cut to what each receiver is shown. The values are by rising handle.
#[derive(Debug, Drop)]
pub(crate) enum Body {
    Interaction { class: ClassNo, values: Values },
    Update { object: ObjectNo, values: Values },
    Deletion { object: ObjectNo },
}

/// One message of a service.
#[derive(Debug, Drop)]
pub(crate) struct ServiceMessage {
    pub(crate) order: Order,
    pub(crate) body: Body,
}

/// How many of these values come before the first whose attribute is not among those that a federate subscribes.
fn count_subscribed(subscribed: &[AttributeNo], values: &[HandleValuePair]) -> usize
    ensures { result
        ≡ prefix_len (λ (v : HandleValuePair). contains_number v.handle subscribed.now) values.now }
{
    values
        .iter()
        .take_while(|shown| subscribed.contains(&shown.handle))
        .count()
}

/// Copies of values, in a list with room for so many. `OutOfMemory` where a growth was refused.
fn copied(
    alloc: Global,
    values: &[HandleValuePair],
    room: usize,
) -> Result<List<HandleValuePair>, Fault>
    ensures ok { IfOk result (λ copies. copies ≡ values.now) }
    ensures err { IfErr result (λ e. e ≡ Fault.OutOfMemory) }
{
    let mut copies = List::with_room(alloc, room)?;
    for value in values {
        copies.push(value.copy()?)?;
    }
    Ok(copies)
}

/// Adds copies of the values of the attributes that a federate subscribes. `OutOfMemory` where a growth was refused.
fn add_subscribed(
    shown: &mut List<HandleValuePair>,
    subscribed: &[AttributeNo],
    values: &[HandleValuePair],
) -> Result<(), Fault>
    ensures ok { OnOk result
        (shown.new ≡ shown.old
        ++ filter (λ (v : HandleValuePair). contains_number v.handle subscribed.now) values.now) }
    ensures err { IfErr result (λ e. e ≡ Fault.OutOfMemory) }
{
    for value in values {
        if subscribed.contains(&value.handle) {
            shown.push(value.copy()?)?;
        }
    }
    Ok(())
}

/// Copies of the values of the attributes that a federate subscribes; `first` of them come before the first that it does not
/// subscribe. `OutOfMemory` where a growth was refused.
fn cut_to_subscribed(
    alloc: Global,
    subscribed: &[AttributeNo],
    values: &[HandleValuePair],
    first: usize,
) -> Result<SharedList<HandleValuePair>, Fault>
    requires count { first
        ≡ prefix_len (λ (v : HandleValuePair). contains_number v.handle subscribed.now) values.now }
    requires within { first < length values.now }
    ensures ok { IfOk result
        (λ shown. shown ≡ filter (λ (v : HandleValuePair). contains_number v.handle
        subscribed.now) values.now) }
    ensures err { IfErr result (λ e. e ≡ Fault.OutOfMemory) }
{
    let mut shown = copied(alloc, &values[..first], values.len() - 1)?;
    add_subscribed(&mut shown, subscribed, &values[first + 1..])?;
    let shared = SharedList::from_list(shown)?;
    Ok(shared)
}

impl KeptExecution {
    /// How many of these values come before the first whose parameter a class does not have.
    fn count_parameters(&self, class: ClassNo, values: &[HandleValuePair]) -> usize
        ensures { result
            ≡ prefix_len
            (λ (v : HandleValuePair). has_parameter self.now.catalogue class v.handle) values.now }
    {
        values
            .iter()
            .take_while(|shown| self.catalogue.has_parameter(class, shown.handle))
            .count()
    }

    /// Adds copies of the values of the parameters that a class has. `OutOfMemory` where a growth was refused.
    fn add_parameters(
        &self,
        shown: &mut List<HandleValuePair>,
        class: ClassNo,
        values: &[HandleValuePair],
    ) -> Result<(), Fault>
        ensures ok { OnOk result (shown.new ≡ shown.old ++ filter
            (λ (v : HandleValuePair). has_parameter self.now.catalogue class v.handle) values.now) }
        ensures err { IfErr result (λ e. e ≡ Fault.OutOfMemory) }
    {
        for value in values {
            if self.catalogue.has_parameter(class, value.handle) {
                shown.push(value.copy()?)?;
            }
        }
        Ok(())
    }

    /// Copies of the values of the parameters that a class has; `count` of them come before the first that it does not have.
    /// `OutOfMemory` where a growth was refused.
    fn cut_parameters(
        &self,
        class: ClassNo,
        values: &[HandleValuePair],
        count: usize,
    ) -> Result<SharedList<HandleValuePair>, Fault>
        requires count { count
            ≡ prefix_len
            (λ (v : HandleValuePair). has_parameter self.now.catalogue class v.handle) values.now }
        requires within { count < length values.now }
        ensures ok { IfOk result (λ shown. shown ≡ filter
            (λ (v : HandleValuePair). has_parameter self.now.catalogue class v.handle) values.now) }
        ensures err { IfErr result (λ e. e ≡ Fault.OutOfMemory) }
    {
        let mut shown = copied(self.alloc, &values[..count], values.len() - 1)?;
        self.add_parameters(&mut shown, class, &values[count + 1..])?;
        let shared = SharedList::from_list(shown)?;
        Ok(shared)
    }

    /// The values of the parameters that a class has: those that are given, where it has all of them. `OutOfMemory` where a growth
    /// was refused.
    fn shown_parameters(
        &self,
        class: ClassNo,
        values: &mut Values,
    ) -> Result<SharedList<HandleValuePair>, Fault>
        ensures ok { IfOk result (λ shown. shown ≡ filter
            (λ (v : HandleValuePair). has_parameter self.now.catalogue class v.handle) values.old) }
        ensures kept { OnOk result (values.new ≡ values.old) }
        ensures err { IfErr result (λ e. e ≡ Fault.OutOfMemory) }
    {
        let count = self.count_parameters(class, values.as_slice());
        if count == values.len() {
            return values.share(self.alloc);
        }
        self.cut_parameters(class, values.as_slice(), count)
    }

    /// The values of the attributes that a federate subscribes at a class: those that are given, where it subscribes all of them.
    /// `OutOfMemory` where a growth was refused.
    fn shown_attributes(
        &self,
        federate: FederateNo,
        class: ClassNo,
        values: &mut Values,
    ) -> Result<SharedList<HandleValuePair>, Fault>
        ensures ok { IfOk result
            (λ shown. shown ≡ subscribed_values (directory_of self.now) federate class values.old) }
        ensures kept { OnOk result (values.new ≡ values.old) }
        ensures err { IfErr result (λ e. e ≡ Fault.OutOfMemory) }
    {
        let subscribed = self.declarations.subscribed_attributes(federate, class);
        let first = count_subscribed(subscribed, values.as_slice());
        if first == values.len() {
            return values.share(self.alloc);
        }
        cut_to_subscribed(self.alloc, subscribed, values.as_slice(), first)
    }

    /// What an interaction says to a federate, if anything. `OutOfMemory` where a growth was refused.
    fn interaction_for(
        &self,
        federate: FederateNo,
        class: ClassNo,
        values: &mut Values,
    ) -> Result<Option<Content>, Fault>
        ensures ok { IfOk result
            (λ x. x ≡ content_for (directory_of self.now)
            (AnInteraction class values.old) federate) }
        ensures kept { OnOk result (values.new ≡ values.old) }
        ensures err { IfErr result (λ e. e ≡ Fault.OutOfMemory) }
    {
        match self
            .declarations
            .interaction_class_served(&self.catalogue, federate, class)
        {
            Some(class) => {
                let values = self.shown_parameters(class, values)?;
                Ok(Some(Content::Interaction { class, values }))
            }
            None => Ok(None),
        }
    }

    /// What an update says to a federate, if anything. `OutOfMemory` where a growth was refused.
    fn update_for(
        &self,
        federate: FederateNo,
        object: ObjectNo,
        values: &mut Values,
    ) -> Result<Option<Content>, Fault>
        ensures ok { IfOk result
            (λ x. x ≡ content_for (directory_of self.now) (AnUpdate object values.old) federate) }
        ensures kept { OnOk result (values.new ≡ values.old) }
        ensures err { IfErr result (λ e. e ≡ Fault.OutOfMemory) }
    {
        let class = self.registry.class_of(object);
        match self
            .declarations
            .object_class_served(&self.catalogue, federate, class)
        {
            Some(class) => {
                let values = self.shown_attributes(federate, class, values)?;
                if values.is_empty() {
                    Ok(None)
                } else {
                    Ok(Some(Content::Reflection { object, values }))
                }
            }
            None => Ok(None),
        }
    }

    /// What a deletion says to a federate, if anything.
    fn removal_for(&self, federate: FederateNo, object: ObjectNo) -> Option<Content>
        ensures { result ≡ content_for (directory_of self.now) (ADeletion object) federate }
    {
        if self.registry.was_made_known(object, federate) {
            Some(Content::Removal { object })
        } else {
            None
        }
    }

    /// What a message says to a federate, if anything. `OutOfMemory` where a growth was refused.
    fn content_for(&self, body: &mut Body, federate: FederateNo) -> Result<Option<Content>, Fault>
        ensures ok { IfOk result
            (λ x. x ≡ content_for (directory_of self.now) (body_said body.old) federate) }
        ensures kept { OnOk result (body_said body.new ≡ body_said body.old) }
        ensures err { IfErr result (λ e. e ≡ Fault.OutOfMemory) }
    {
        match body {
            Body::Interaction { class, values } => {
                self.interaction_for(federate, *class, values)
            }
            Body::Update { object, values } => { self.update_for(federate, *object, values) }
            Body::Deletion { object } => Ok(self.removal_for(federate, *object)),
        }
    }

    /// What a message says to each federate that has ever joined, by number, counted from 1. `OutOfMemory` where a growth
    /// was refused; nothing is said of the values then.
    pub(crate) fn contents_of(&self, body: &mut Body) -> Result<Vec<Option<Content>>, Fault>
        ensures ok { IfOk result
            (λ contents. AreContents (directory_of self.now) (body_said body.old)
            (length self.now.accounts) contents.items) }
        ensures few { IfOk result (λ contents. length contents.items ≤ max_joins) }
        ensures err { IfErr result (λ e. e ≡ Fault.OutOfMemory) }
    {
        let end = self.accounts.next_federate();
        let Ok(mut contents) = Vec::with_capacity(self.alloc, end as usize) else {
            return Err(Fault::OutOfMemory);
        };
        for federate in 1..end {
            let content = self.content_for(body, federate)?;
            let Ok(()) = contents.push(content) else {
                return Err(Fault::OutOfMemory);
            };
        }
        Ok(contents)
    }
}
