//! Services by the forms of their answers: each call of a name is one of these.

ghost use Rattle.std.specs.Prelude.{◌≡◌};
ghost use Rattle.hla_machine.specs.declared.step.Answer.TheVariants as answer;
ghost use Rattle.hla_machine.specs.declared.step.Step.TheVariants as step;
ghost use Rattle.hla_history.specs.Forms.{NoAnswer, ARegistration, AHandle, AName, AnEvent, ATime, service_form};
ghost use Rattle.hla_history.specs.Hosts.{IsPlain};
ghost use Rattle.hla_callers.specs.Callers.{IsServed, said, nothing};

use crate::answers::{Registration, event_in, handle_in, name_in, registration_in, time_in};
use hla_base::{EventHandle, Fault, List, Ticks};
use hla_callbacks::FederateAmbassador;
use hla_history::History;
use hla_interface::{Federate, done_in};
use hla_machine::Service;
use hla_monitor::{Naming, Publisher};
use std::sync::Wait;
use std::sync::ledger::Ledger;

/// Calls a service that answers nothing. The faults are those of `serve`.
pub(crate) fn serve_done<
    L: Ledger + Naming,
    B: FederateAmbassador,
    W: Publisher<L>,
    H: History<L, B>,
>(federate: &mut Federate<L, B, W, H>, rt: &impl Wait, service: Service) -> Result<(), Fault>
    requires plain { IsPlain (step.Call federate.old.federate service) }
    requires form { service_form service ≡ NoAnswer }
    ensures { IsServed federate.old service (said nothing result) federate.new }
{
    done_in(federate.serve(rt, service))
}

/// Calls a service that registers an object. The faults are those of `serve`.
pub(crate) fn serve_registration<
    L: Ledger + Naming,
    B: FederateAmbassador,
    W: Publisher<L>,
    H: History<L, B>,
>(
    federate: &mut Federate<L, B, W, H>,
    rt: &impl Wait,
    service: Service,
) -> Result<Registration, Fault>
    requires plain { IsPlain (step.Call federate.old.federate service) }
    requires form { service_form service ≡ ARegistration }
    ensures { IsServed federate.old service
        (said (λ r. answer.Registered r.object r.name) result) federate.new }
{
    registration_in(federate.serve(rt, service))
}

/// Calls a service that sends a message. The faults are those of `serve`.
pub(crate) fn serve_event<
    L: Ledger + Naming,
    B: FederateAmbassador,
    W: Publisher<L>,
    H: History<L, B>,
>(
    federate: &mut Federate<L, B, W, H>,
    rt: &impl Wait,
    service: Service,
) -> Result<Option<EventHandle>, Fault>
    requires plain { IsPlain (step.Call federate.old.federate service) }
    requires form { service_form service ≡ AnEvent }
    ensures { IsServed federate.old service (said answer.Sent result) federate.new }
{
    event_in(federate.serve(rt, service))
}

/// Calls a service that answers a time. The faults are those of `serve`.
pub(crate) fn serve_time<
    L: Ledger + Naming,
    B: FederateAmbassador,
    W: Publisher<L>,
    H: History<L, B>,
>(federate: &mut Federate<L, B, W, H>, rt: &impl Wait, service: Service) -> Result<Ticks, Fault>
    requires plain { IsPlain (step.Call federate.old.federate service) }
    requires form { service_form service ≡ ATime }
    ensures { IsServed federate.old service (said answer.Time result) federate.new }
{
    time_in(federate.serve(rt, service))
}

/// Calls a service that answers a number. The faults are those of `serve`.
pub(crate) fn serve_handle<
    L: Ledger + Naming,
    B: FederateAmbassador,
    W: Publisher<L>,
    H: History<L, B>,
>(federate: &mut Federate<L, B, W, H>, rt: &impl Wait, service: Service) -> Result<u32, Fault>
    requires plain { IsPlain (step.Call federate.old.federate service) }
    requires form { service_form service ≡ AHandle }
    ensures { IsServed federate.old service (said answer.Handle result) federate.new }
{
    handle_in(federate.serve(rt, service))
}

/// Calls a service that answers a name. The faults are those of `serve`.
pub(crate) fn serve_name<
    L: Ledger + Naming,
    B: FederateAmbassador,
    W: Publisher<L>,
    H: History<L, B>,
>(federate: &mut Federate<L, B, W, H>, rt: &impl Wait, service: Service) -> Result<List<u8>, Fault>
    requires plain { IsPlain (step.Call federate.old.federate service) }
    requires form { service_form service ≡ AName }
    ensures { IsServed federate.old service (said answer.Name result) federate.new }
{
    name_in(federate.serve(rt, service))
}
