//! The discoveries that federates are to make, and to whom objects become known by them (HLA 1.3, declaration management and
//! object management).

ghost use Rattle.std.specs.Prelude.{◌≡◌, ◌<◌, ◌≤◌, ◌&&◌, ◌++◌, [], cond, eqb, is_some, option_map, ℕ, true, length, OnOk, IfOk, IfErr};
ghost use Rattle.hla_base.specs.declared.content.Discovery.{Discovery};
ghost use Rattle.hla_base.specs.declared.fault.Fault.TheVariants.{OutOfMemory};
ghost use Rattle.hla_base.specs.Limits.{max_joins};
ghost use Rattle.hla_base.specs.Tables.{is_other, upd2, upd_row, when};
ghost use Rattle.hla_declaration.specs.Declarations.{declarations_of};
ghost use Rattle.hla_machine.specs.Registered.{registry_of};
ghost use Rattle.hla_machine.specs.Directory.{Directory, discoveries_of, discovery_of, with_discoveries_made};
ghost use Rattle.hla_accounts.specs.Accounts.{account_at, central_with, offers_from};
ghost use Rattle.hla_verdicts.specs.Kept.{directory_kept};
ghost use Rattle.hla_checker.specs.Offering.{is_wanted, known_to_joined, wanted_of, wanted_discoveries};

use crate::naming::shared_name;
use hla_accounts::{Accounts, Offer};
use hla_base::{ClassNo, Discovery, Fault, FederateNo, ObjectNo};
use hla_catalogue::Catalogue;
use hla_declaration::Declarations;
use hla_object_registry::Registry;
use std::alloc::Global;

/// Whether discoveries of a federate's objects are asked for: of one owner alone, or of all.
fn is_wanted(of: Option<FederateNo>, owner: FederateNo) -> bool
    ensures { result ≡ is_wanted of owner }
{
    match of {
        Some(federate) => federate == owner,
        None => true,
    }
}

/// At which class a federate is to discover an object now, if it is to.
fn discovery_class(
    catalogue: &Catalogue,
    declarations: &Declarations,
    registry: &Registry,
    federate: FederateNo,
    object: ObjectNo,
) -> Option<ClassNo>
    ensures { result
        ≡ option_map (λ (d : Discovery). d.class)
        (discovery_of
        (directory_kept catalogue.now (declarations_of declarations.now)
        (registry_of registry.now)) federate object) }
{
    if !registry.has_object(object)
        || registry.owner(object) == federate
        || registry.was_made_known(object, federate)
    {
        return None;
    }
    declarations.object_class_served(catalogue, federate, registry.class_of(object))
}

/// At which class a federate is to discover an object now, if it is to and discoveries of the owner's objects are asked for.
fn wanted_class(
    catalogue: &Catalogue,
    declarations: &Declarations,
    registry: &Registry,
    of: Option<FederateNo>,
    federate: FederateNo,
    object: ObjectNo,
) -> Option<ClassNo>
    ensures { result
        ≡ option_map (λ (d : Discovery). d.class)
        (wanted_of (directory_kept catalogue.now (declarations_of declarations.now)
        (registry_of registry.now)) of federate object) }
{
    if is_wanted(of, registry.owner(object)) {
        discovery_class(catalogue, declarations, registry, federate, object)
    } else {
        None
    }
}

/// The discoveries that a federate is to make now, of the objects of one owner or of all, by rising number of the object;
/// `OutOfMemory` where a growth was refused. It looks at each object.
pub(crate) fn offers_to(
    alloc: Global,
    catalogue: &Catalogue,
    declarations: &Declarations,
    registry: &Registry,
    of: Option<FederateNo>,
    federate: FederateNo,
) -> Result<Vec<Offer>, Fault>
    ensures ok { IfOk result
        (λ offers. (g : ℕ)
        → offers_from g offers.items
        ≡ wanted_discoveries
        (directory_kept catalogue.now (declarations_of declarations.now)
        (registry_of registry.now)) of g federate) }
    ensures err { IfErr result (λ e. e ≡ Fault.OutOfMemory) }
{
    let mut offers = Vec::new(alloc);
    let end = registry.next_object();
    for object in 1..end {
        if let Some(class) = wanted_class(catalogue, declarations, registry, of, federate, object) {
            let name = shared_name(alloc, registry.name_of(object))?;
            let from = registry.owner(object);
            let discovery = Discovery {
                object,
                class,
                name,
            };
            let Ok(()) = offers.push(Offer { from, discovery }) else {
                return Err(Fault::OutOfMemory);
            };
        }
    }
    Ok(offers)
}

/// Makes each object known to a federate that it is to discover now. It looks at each object.
pub(crate) fn make_found_known(
    catalogue: &Catalogue,
    declarations: &Declarations,
    registry: &mut Registry,
    federate: FederateNo,
)
    requires some { 0 < federate }
    requires within { federate ≤ max_joins }
    ensures { registry_of registry.new
        ≡ record (registry_of registry.old) {
          known =
              (with_discoveries_made
              (directory_kept catalogue.now (declarations_of declarations.now)
              (registry_of registry.old)) federate).known;
        } }
{
    let end = registry.next_object();
    for object in 1..end {
        if discovery_class(catalogue, declarations, registry, federate, object).is_some() {
            registry.make_known(object, federate);
        }
    }
}

/// Whether a federate is joined and is to discover an object now.
fn is_to_discover(
    accounts: &Accounts,
    catalogue: &Catalogue,
    declarations: &Declarations,
    registry: &Registry,
    federate: FederateNo,
    object: ObjectNo,
) -> bool
    ensures { result
        ≡ (account_at accounts.now federate).is_joined
        && is_some (discovery_of
        (directory_kept catalogue.now (declarations_of declarations.now)
        (registry_of registry.now)) federate object) }
{
    accounts.is_joined(federate)
        && discovery_class(catalogue, declarations, registry, federate, object).is_some()
}

/// Makes an object known to each joined federate that is to discover it now.
pub(crate) fn make_new_known(
    accounts: &Accounts,
    catalogue: &Catalogue,
    declarations: &Declarations,
    registry: &mut Registry,
    object: ObjectNo,
)
    requires some { 0 < object }
    requires registered { object < (registry_of registry.old).next_object }
    ensures { registry_of registry.new
        ≡ record (registry_of registry.old) {
          known = known_to_joined
              (directory_kept catalogue.now (declarations_of declarations.now)
              (registry_of registry.old))
              (λ f. (account_at accounts.now f).is_joined) object;
        } }
{
    let end = accounts.next_federate();
    for federate in 1..end {
        if is_to_discover(
            accounts,
            catalogue,
            declarations,
            registry,
            federate,
            object,
        ) {
            registry.make_known(object, federate);
        }
    }
}

/// The discoveries of a federate's objects that another joined federate is to make now wait for that one, behind the others.
/// `OutOfMemory` where a growth was refused.
fn offer_new_to(
    accounts: &mut Accounts,
    alloc: Global,
    catalogue: &Catalogue,
    declarations: &Declarations,
    registry: &Registry,
    owner: FederateNo,
    federate: FederateNo,
) -> Result<(), Fault>
    requires some { 0 < federate }
    requires within { federate ≤ length accounts.old }
    ensures ok { OnOk result
        ((d : Directory)
        → let c = central_with d accounts.old in central_with d accounts.new
        ≡ record c {
          discoveries = upd2 c.discoveries owner federate
              (c.discoveries owner federate
              ++ cond (is_other c.directory.joined owner federate)
              (discoveries_of
              (directory_kept catalogue.now (declarations_of declarations.now)
              (registry_of registry.now)) owner federate) []);
        }) }
    ensures err { IfErr result (λ e. e ≡ Fault.OutOfMemory) }
{
    if owner == federate || !accounts.is_joined(federate) {
        return Ok(());
    }
    let offers = offers_to(
        alloc,
        catalogue,
        declarations,
        registry,
        Some(owner),
        federate,
    )?;
    accounts.add_offers(federate, offers)
}

/// The discoveries of a federate's objects that each other joined federate is to make now wait for it, behind the others.
/// `OutOfMemory` where a growth was refused; nothing is said of the accounts then.
pub(crate) fn offer_new(
    accounts: &mut Accounts,
    alloc: Global,
    catalogue: &Catalogue,
    declarations: &Declarations,
    registry: &Registry,
    owner: FederateNo,
) -> Result<(), Fault>
    ensures ok { OnOk result
        ((d : Directory)
        → let c = central_with d accounts.old in central_with d accounts.new
        ≡ record c {
          discoveries = upd_row c.discoveries c.directory.joined owner
              (λ f discoveries. discoveries
              ++ discoveries_of
              (directory_kept catalogue.now (declarations_of declarations.now)
              (registry_of registry.now)) owner f);
        }) }
    ensures err { IfErr result (λ e. e ≡ Fault.OutOfMemory) }
{
    let end = accounts.next_federate();
    for federate in 1..end {
        offer_new_to(
            accounts,
            alloc,
            catalogue,
            declarations,
            registry,
            owner,
            federate,
        )?;
    }
    Ok(())
}
