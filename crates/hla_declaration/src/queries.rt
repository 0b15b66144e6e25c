//! Who declares what.

ghost use Rattle.std.specs.Prelude.{◌≡◌, [], false, is_some};
ghost use Rattle.std.specs.Option.{option_map_or, option_copied};
ghost use Rattle.hla_catalogue.specs.Lookup.{contains_number};
ghost use Rattle.hla_declaration.specs.Declarations.{declarations_of};

use crate::declarations::Declarations;
use hla_base::{AttributeNo, ClassNo, FederateNo, List};
use hla_catalogue::Order;

impl Declarations {
    /// The attributes that a federate publishes of an object class; `None` where it does not publish it.
    fn publication(&self, federate: FederateNo, class: ClassNo) -> Option<&List<AttributeNo>>
        ensures { option_copied result ≡ (declarations_of self.now).published federate class }
    {
        match self.member(federate) {
            Some(member) => member.published.get(class),
            None => None,
        }
    }

    /// The attributes that a federate subscribes of an object class; `None` where it does not subscribe it.
    fn subscription(&self, federate: FederateNo, class: ClassNo) -> Option<&List<AttributeNo>>
        ensures { option_copied result ≡ (declarations_of self.now).subscribed federate class }
    {
        match self.member(federate) {
            Some(member) => member.subscribed.get(class),
            None => None,
        }
    }

    /// Whether a federate publishes an object class; no for a number of no federate or of no class.
    pub fn publishes_object_class(&self, federate: FederateNo, class: ClassNo) -> bool
        ensures { result ≡ is_some ((declarations_of self.now).published federate class) }
    {
        self.publication(federate, class).is_some()
    }

    /// Whether a federate subscribes an object class; no for a number of no federate or of no class.
    pub fn subscribes_object_class(&self, federate: FederateNo, class: ClassNo) -> bool
        ensures { result ≡ is_some ((declarations_of self.now).subscribed federate class) }
    {
        self.subscription(federate, class).is_some()
    }

    /// Whether a federate publishes an interaction class; no for a number of no federate or of no class.
    pub fn publishes_interaction_class(&self, federate: FederateNo, class: ClassNo) -> bool
        ensures { result ≡ (declarations_of self.now).published_interaction federate class }
    {
        match self.member(federate) {
            Some(member) => member.published_interactions.contains(class),
            None => false,
        }
    }

    /// Whether a federate subscribes an interaction class; no for a number of no federate or of no class.
    pub fn subscribes_interaction_class(&self, federate: FederateNo, class: ClassNo) -> bool
        ensures { result ≡ (declarations_of self.now).subscribed_interaction federate class }
    {
        match self.member(federate) {
            Some(member) => member.subscribed_interactions.contains(class),
            None => false,
        }
    }

    /// Whether a federate publishes an attribute of an object class; no where it does not publish the class.
    pub fn publishes_attribute(
        &self,
        federate: FederateNo,
        class: ClassNo,
        attribute: AttributeNo,
    ) -> bool
        ensures { result ≡ option_map_or (contains_number attribute)
            ((declarations_of self.now).published federate class) false }
    {
        match self.publication(federate, class) {
            Some(published) => published.as_slice().contains(&attribute),
            None => false,
        }
    }

    /// Whether a federate subscribes an attribute of an object class; no where it does not subscribe the class.
    pub fn subscribes_attribute(
        &self,
        federate: FederateNo,
        class: ClassNo,
        attribute: AttributeNo,
    ) -> bool
        ensures { result ≡ option_map_or (contains_number attribute)
            ((declarations_of self.now).subscribed federate class) false }
    {
        self.subscribed_attributes(federate, class)
            .contains(&attribute)
    }

    /// The attributes that a federate subscribes of an object class, as it named them; none where it does not subscribe it.
    pub fn subscribed_attributes(&self, federate: FederateNo, class: ClassNo) -> &[AttributeNo]
        ensures { result.now
            ≡ option_map_or (λ xs. xs) ((declarations_of self.now).subscribed federate class) [] }
    {
        match self.subscription(federate, class) {
            Some(subscribed) => subscribed.as_slice(),
            None => &[],
        }
    }

    /// The attributes that a federate publishes of an object class, as it named them; none where it does not publish it.
    pub fn published_attributes(&self, federate: FederateNo, class: ClassNo) -> &[AttributeNo]
        ensures { result.now
            ≡ option_map_or (λ xs. xs) ((declarations_of self.now).published federate class) [] }
    {
        match self.publication(federate, class) {
            Some(attributes) => attributes.as_slice(),
            None => &[],
        }
    }

    /// In which order a federate's interactions of a class go, if it changed that; `None` for a number of no federate or of
    /// no class. It takes constant time.
    pub fn interaction_order(&self, federate: FederateNo, class: ClassNo) -> Option<Order>
        ensures { result ≡ (declarations_of self.now).interaction_orders federate class }
    {
        match self.member(federate) {
            Some(member) => member.interaction_orders.get(class),
            None => None,
        }
    }
}
