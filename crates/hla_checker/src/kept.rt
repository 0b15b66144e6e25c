//! One execution of a recorded run.

ghost use Rattle.std.specs.Prelude.{◌≡◌, ◌+◌, length};
ghost use Rattle.std.specs.List.{list_any};
ghost use Rattle.hla_base.specs.Tables.{numbers_below};
ghost use Rattle.hla_accounts.specs.Accounts.{account_at};
ghost use Rattle.hla_machine.specs.Central.{new_central};
ghost use Rattle.hla_machine.specs.Runs.{is_joined_by_any};
ghost use Rattle.hla_verdicts.specs.Kept.{central_of, IsConsistent};

use hla_accounts::Accounts;
use hla_catalogue::Catalogue;
use hla_declaration::Declarations;
use hla_object_registry::Registry;
use hla_synchronization::OpenPoints;
use std::alloc::Global;
use std::marker::Model;

/// What the records of one execution so far say of it. Contracts see what its parts say; `central_of` leads from there to
/// the state of the central machine.
#[derive(Drop)]
pub(crate) struct KeptExecution {
    pub(crate) alloc: Global,
    pub(crate) catalogue: Catalogue,
    pub(crate) declarations: Declarations,
    pub(crate) registry: Registry,
    pub(crate) accounts: Accounts,
    pub(crate) points: OpenPoints,
}

impl Model for KeptExecution {
    ghost use Rattle.hla_verdicts.specs.Kept.{KeptValue};

    ghost Value = { KeptValue };

    ghost view = { λ k. record {
      catalogue = k.catalogue;
      declarations = k.declarations;
      objects = k.registry;
      accounts = k.accounts;
      points = k.points;
    } };
}

/// Whether any federate is joined.
fn is_any_joined(accounts: &Accounts) -> bool
    ensures { result
        ≡ list_any (λ f. (account_at accounts.now f).is_joined)
        (numbers_below (length accounts.now + 1)) }
{
    for federate in 0..accounts.next_federate() {
        if accounts.is_joined(federate) {
            return true;
        }
    }
    false
}

impl KeptExecution {
    /// An execution that nobody has joined yet; it takes no memory.
    pub(crate) fn new(alloc: Global, catalogue: Catalogue) -> KeptExecution
        ensures new { central_of result ≡ new_central catalogue }
        ensures consistent { IsConsistent result }
    {
        let object_classes = catalogue.object_classes().len();
        let interaction_classes = catalogue.interaction_classes().len();
        KeptExecution {
            alloc,
            catalogue,
            declarations: Declarations::new(alloc, object_classes, interaction_classes),
            registry: Registry::new(alloc),
            accounts: Accounts::new(alloc),
            points: OpenPoints::new(),
        }
    }

    /// Whether any federate is joined; then the execution may not be destroyed.
    pub(crate) fn is_joined_by_any(&self) -> bool
        ensures { result ≡ is_joined_by_any (central_of self.now) }
    {
        is_any_joined(&self.accounts)
    }
}
