//! The run-time infrastructure behind one lock: federates and other callers, each with a transcript of its own acts.
//!
//! Its calls are those of `hla_interface`, which says what each does over whatever executions are kept; here they are kept as
//! `Federation` of `hla_federation`. The services of a federate under their names are methods of the traits of `hla_services`, which a
//! caller imports from here: `ObjectServices`, `TimeServices`, `SupportServices` and `SynchronizationServices`.
#![tactic(auto)]

ghost use Rattle.std.specs.Prelude.{◌≡◌, ◌<◌, ◌≤◌, ◌⊎◌, IfOk, IfErr, OnOk};
ghost use Rattle.hla_base.specs.Limits.{ledger_parts, max_history_limit};
ghost use Rattle.hla_callers.specs.Callers.{new_caller};

use hla_base::Fault;
use hla_callbacks::FederateAmbassador;
use hla_federation::Federation;
pub use hla_interface::{
    CloseFault, Closed, LEDGER_PARTS, Left, MAX_CALLERS, MAX_COURIERS, MAX_HISTORY_LIMIT, Seat,
    Unsettled, settle,
};
use hla_monitor::{Naming, Opened, Published};
pub use hla_services::{
    ObjectServices, Registration, SupportServices, SynchronizationServices, TimeServices,
};
use hla_shared::Shared;
use std::alloc::Global;
use std::sync::Wait;
use std::sync::ledger::{Blank, Ledger};

/// The run-time infrastructure: `hla_interface::Rti` over federations.
pub type Rti<L, B, W> = hla_interface::Rti<L, B, W, Shared<L, B, Federation>>;

/// A joined federate, which calls the services of HLA 1.3: `hla_interface::Federate` over federations.
pub type Federate<L, B, W> = hla_interface::Federate<L, B, W, Shared<L, B, Federation>>;

/// A caller that moves what is on the wires between federates: `hla_interface::Courier` over federations.
pub type Courier<L, B, W> = hla_interface::Courier<L, B, W, Shared<L, B, Federation>>;

/// What `Rti::close` gives back where it does not close: `hla_interface::NotClosed` over federations.
pub type NotClosed<L, B, W> = hla_interface::NotClosed<L, B, W, Shared<L, B, Federation>>;

/// The infrastructure with monitors that are read without a lock, as `Rti::new` makes it over the board of
/// `hla_monitor::open_board`. Publishing waits by the handle `R`. `LimitReached` where the limit is above `MAX_HISTORY_LIMIT`;
/// `OutOfMemory` where a growth was refused.
pub fn open_rti<L: Ledger + Naming, B: FederateAmbassador, R: Wait + Drop>(
    alloc: Global,
    rt: R,
    blank: Blank,
    opened: Opened,
    history_limit: usize,
) -> Result<Rti<L, B, Published<L, R>>, Fault>
    requires name { blank.name ≡ L.name }
    requires parts { blank.parts ≡ L.parts }
    requires all { blank.parts ≡ ledger_parts }
    requires book { opened.seen.book ≡ L.book }
    ensures ok { IfOk result (λ r. r ≡ record { handed = 0; couriers = 0; own = new_caller 0 }) }
    ensures limit { OnOk result (history_limit ≤ max_history_limit) }
    ensures err { IfErr result
        (λ e. ((e ≡ Fault.LimitReached) × (max_history_limit < history_limit))
        ⊎ (e ≡ Fault.OutOfMemory)) }
{
    hla_interface::open_rti::<L, B, Shared<L, B, Federation>, R>(
        alloc,
        rt,
        blank,
        opened,
        history_limit,
    )
}
