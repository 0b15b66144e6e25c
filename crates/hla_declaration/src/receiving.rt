//! Who receives what is sent of a class.

ghost use Rattle.std.specs.Prelude.{◌≡◌, ◌≤◌, not, eqb, option_map, IfOk, IfErr};
ghost use Rattle.hla_base.specs.Limits.{max_joins};
ghost use Rattle.hla_base.specs.declared.fault.Fault.TheVariants.{OutOfMemory};
ghost use Rattle.hla_base.specs.Tables.{when};
ghost use Rattle.hla_declaration.specs.Declarations.{declarations_of};
ghost use Rattle.hla_declaration.specs.Receivers.{object_class_served, interaction_class_served, receivers_of, AreServed};

use crate::declarations::Declarations;
use crate::receiver::Receiver;
use crate::subscribing::Subscribers;
use hla_base::{ClassNo, Fault, FederateNo, List};
use hla_catalogue::Catalogue;
use std::alloc::Global;

/// A federate as a receiver, where it is served and is not the sender.
fn receiver(sender: FederateNo, federate: FederateNo, served: Option<ClassNo>) -> Option<Receiver>
    ensures { result ≡ when (not (eqb sender federate)) (option_map (λ k. record {
      federate = federate;
      class = k;
    }) served) }
{
    if sender == federate {
        return None;
    }
    match served {
        Some(class) => Some(Receiver { federate, class }),
        None => None,
    }
}

impl Declarations {
    /// At which class a federate receives what is sent of an object class: the most derived one that it subscribes of
    /// the class and of those around it; `None` where it subscribes none.
    pub fn object_class_served(
        &self,
        catalogue: &Catalogue,
        federate: FederateNo,
        class: ClassNo,
    ) -> Option<ClassNo>
        ensures { result
            ≡ object_class_served catalogue.now (declarations_of self.now).subscribed federate
            class }
    {
        catalogue
            .object_lineage(class)
            .iter()
            .copied()
            .find(|k| self.subscribes_object_class(federate, *k))
    }

    /// At which class a federate receives an interaction of a class: the most derived one that it subscribes of the
    /// class and of those around it; `None` where it subscribes none.
    pub fn interaction_class_served(
        &self,
        catalogue: &Catalogue,
        federate: FederateNo,
        class: ClassNo,
    ) -> Option<ClassNo>
        ensures { result ≡ interaction_class_served catalogue.now
            (declarations_of self.now).subscribed_interaction federate class }
    {
        catalogue
            .interaction_lineage(class)
            .iter()
            .copied()
            .find(|k| self.subscribes_interaction_class(federate, *k))
    }

    /// Who subscribes an object class or one of those around it. It looks once at each of them.
    #[inline(always)]
    pub fn subscribers_of_object_class(&self, catalogue: &Catalogue, class: ClassNo) -> Subscribers
        ensures { AreServed result
            (λ f. object_class_served catalogue.now (declarations_of self.now).subscribed f class) }
    {
        let lineage = catalogue.object_lineage(class);
        Subscribers {
            bits: self.object_subscribers().subscribers_among(lineage),
        }
    }

    /// The same as `object_class_served`, where it is known who subscribes the class or one of those around it: it looks at
    /// these classes only for one who does.
    #[inline(always)]
    pub fn object_class_served_among(
        &self,
        catalogue: &Catalogue,
        subscribers: Subscribers,
        federate: FederateNo,
        class: ClassNo,
    ) -> Option<ClassNo>
        requires few { federate ≤ max_joins }
        requires subscribers { AreServed subscribers
            (λ f. object_class_served catalogue.now (declarations_of self.now).subscribed f class) }
        ensures { result
            ≡ object_class_served catalogue.now (declarations_of self.now).subscribed federate
            class }
    {
        let lineage = catalogue.object_lineage(class);
        self.object_subscribers()
            .class_served_within(subscribers.bits, lineage, federate)
    }

    /// Who subscribes an interaction class or one of those around it. It looks once at each of them.
    #[inline(always)]
    pub fn subscribers_of_interaction_class(
        &self,
        catalogue: &Catalogue,
        class: ClassNo,
    ) -> Subscribers
        ensures { AreServed result (λ f. interaction_class_served catalogue.now
            (declarations_of self.now).subscribed_interaction f class) }
    {
        let lineage = catalogue.interaction_lineage(class);
        Subscribers {
            bits: self.interaction_subscribers().subscribers_among(lineage),
        }
    }

    /// The same as `interaction_class_served`, where it is known who subscribes the class or one of those around it: it looks
    /// at these classes only for one who does.
    #[inline(always)]
    pub fn interaction_class_served_among(
        &self,
        catalogue: &Catalogue,
        subscribers: Subscribers,
        federate: FederateNo,
        class: ClassNo,
    ) -> Option<ClassNo>
        requires few { federate ≤ max_joins }
        requires subscribers { AreServed subscribers (λ f. interaction_class_served catalogue.now
            (declarations_of self.now).subscribed_interaction f class) }
        ensures { result ≡ interaction_class_served catalogue.now
            (declarations_of self.now).subscribed_interaction federate class }
    {
        let lineage = catalogue.interaction_lineage(class);
        self.interaction_subscribers()
            .class_served_within(subscribers.bits, lineage, federate)
    }

    /// Who but the sender receives what is sent of an object class, and at which class, by rising number of the
    /// federate; `OutOfMemory` where a growth was refused.
    ///
    /// It looks once at each class around the class, and again for each federate that subscribes one of them, so that
    /// federates that subscribe none cost no search.
    pub fn receivers_of_object_class(
        &self,
        alloc: Global,
        catalogue: &Catalogue,
        sender: FederateNo,
        class: ClassNo,
    ) -> Result<List<Receiver>, Fault>
        ensures ok { IfOk result (λ rs. rs ≡ receivers_of
            (λ g. object_class_served catalogue.now (declarations_of self.now).subscribed g class)
            (declarations_of self.now).federates sender) }
        ensures err { IfErr result (λ e. e ≡ Fault.OutOfMemory) }
    {
        let lineage = catalogue.object_lineage(class);
        let sets = self.object_subscribers();
        let subscribers = sets.subscribers_among(lineage);
        let mut receivers = List::with_room(alloc, self.federates())?;
        for place in 0..self.federates() {
            let federate = place as FederateNo + 1;
            let served = sets.class_served_within(subscribers, lineage, federate);
            if let Some(receiver) = receiver(sender, federate, served) {
                receivers.push(receiver)?;
            }
        }
        Ok(receivers)
    }

    /// Who but the sender receives an interaction of a class, and at which class, by rising number of the federate;
    /// `OutOfMemory` where a growth was refused.
    ///
    /// It looks once at each class around the class, and again for each federate that subscribes one of them, so that
    /// federates that subscribe none cost no search.
    pub fn receivers_of_interaction_class(
        &self,
        alloc: Global,
        catalogue: &Catalogue,
        sender: FederateNo,
        class: ClassNo,
    ) -> Result<List<Receiver>, Fault>
        ensures ok { IfOk result (λ rs. rs ≡ receivers_of
            (λ g. interaction_class_served catalogue.now
            (declarations_of self.now).subscribed_interaction g
            class) (declarations_of self.now).federates sender) }
        ensures err { IfErr result (λ e. e ≡ Fault.OutOfMemory) }
    {
        let lineage = catalogue.interaction_lineage(class);
        let sets = self.interaction_subscribers();
        let subscribers = sets.subscribers_among(lineage);
        let mut receivers = List::with_room(alloc, self.federates())?;
        for place in 0..self.federates() {
            let federate = place as FederateNo + 1;
            let served = sets.class_served_within(subscribers, lineage, federate);
            if let Some(receiver) = receiver(sender, federate, served) {
                receivers.push(receiver)?;
            }
        }
        Ok(receivers)
    }
}
