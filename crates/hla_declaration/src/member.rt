//! What one federate declares.

ghost use Rattle.std.specs.Prelude.{◌≡◌, ℕ, None, false, length, IfOk, IfErr};
ghost use Rattle.hla_base.specs.declared.fault.Fault.TheVariants.{OutOfMemory};
ghost use Rattle.hla_declaration.specs.Entries.{entry_at};
ghost use Rattle.hla_declaration.specs.Members.{new_declarer, IsMember, IsCleared};

use crate::attribute_lists::AttributeLists;
use crate::class_set::ClassSet;
use hla_base::Fault;
use hla_orders::ChangedOrders;
use std::alloc::Global;

/// What one federate publishes and subscribes, and in which order its interactions go, where it changed that.
#[derive(Debug, Drop)]
pub struct Declarer {
    pub published: AttributeLists,
    pub subscribed: AttributeLists,
    pub published_interactions: ClassSet,
    pub subscribed_interactions: ClassSet,
    pub interaction_orders: ChangedOrders,
}

impl Declarer {
    /// A federate that declares nothing, where there are this many object classes and interaction classes;
    /// `OutOfMemory` where the room for them was refused.
    pub fn new(
        alloc: Global,
        object_classes: usize,
        interaction_classes: usize,
    ) -> Result<Declarer, Fault>
        ensures ok { IfOk result (λ m. m ≡ new_declarer object_classes interaction_classes) }
        ensures err { IfErr result (λ e. e ≡ Fault.OutOfMemory) }
    {
        Ok(Declarer {
            published: AttributeLists::new(alloc, object_classes)?,
            subscribed: AttributeLists::new(alloc, object_classes)?,
            published_interactions: ClassSet::new(alloc, interaction_classes)?,
            subscribed_interactions: ClassSet::new(alloc, interaction_classes)?,
            interaction_orders: ChangedOrders::new(),
        })
    }

    /// It declares nothing any more, and its interactions go as the FED file says.
    pub fn clear(&mut self)
        ensures { IsCleared self.old self.new }
    {
        self.published.clear();
        self.subscribed.clear();
        self.published_interactions.clear();
        self.subscribed_interactions.clear();
        self.interaction_orders = ChangedOrders::new();
    }
}
