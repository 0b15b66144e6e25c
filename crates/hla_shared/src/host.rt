//! One execution under the lock, with the ambassadors of its federates.

ghost use Rattle.std.specs.Prelude.{◌≡◌, ◌<◌, ◌++◌, ◌∷◌, [], Some, None, is_some, IfOk, IfErr, IfSome, OnErr, if◌then◌else◌, is_ok, ◌+◌, vec_len, vec_capacity};
ghost use Rattle.std.specs.Str.{bytes_eq};
ghost use Rattle.hla_components.specs.CentralOf.{central};
ghost use Rattle.hla_components.specs.Next.{next};
ghost use Rattle.hla_machine.specs.Runs.{is_joined_by_any};
ghost use Rattle.hla_machine.specs.declared.service.Service.TheVariants as service;
ghost use Rattle.hla_machine.specs.declared.step.Act.TheVariants as act;
ghost use Rattle.hla_machine.specs.declared.step.Step.TheVariants as step;
ghost use Rattle.hla_history.specs.Creating.{is_accepted, heard_from};
ghost use Rattle.hla_history.specs.Heard.{given_outcome};
ghost use Rattle.hla_history.specs.Hosting.{components_hosted, host_of};
ghost use Rattle.hla_history.specs.Hosts.{IsPlain, HasAmbassadors, host_after, new_host};
ghost use Rattle.hla_history.specs.Tags.{no_tags, tag_table, tag_table_after};
ghost use Rattle.hla_history.specs.Writing.{step_record};

use crate::delivering::make_ready;
use crate::doing::carry_out;
use crate::preparing::take_step;
use crate::seating::{seat, unseat};
use crate::writing::{answered, take_away, write_foreseen};
use hla_base::{ExecutionName, Fault, FederateNo, List, MAX_JOINS, Plain, SharedList};
use hla_callbacks::{Ear, FederateAmbassador};
use hla_catalogue::Catalogue;
use hla_execution::Execution;
use hla_history::Stepped;
use hla_machine::{Outcome, Record, ResignAction, Service, Step};
use std::alloc::Global;
use std::marker::Model;

/// An execution by name, with an ear for each joined federate. Contracts see its components, what each ear has heard, and
/// whose ambassador it has.
#[derive(Drop)]
pub(crate) struct Hosted<B: FederateAmbassador, F: Execution> {
    name: SharedList<u8>,
    federation: F,
    /// By the number of the federate; the place of no federate is empty.
    ears: Vec<Option<Ear<B>>>,
}

impl<B: FederateAmbassador, F: Execution> Model for Hosted<B, F> {
    ghost use Rattle.std.specs.Prelude.{◌≡◌, vec_len};
    ghost use Rattle.hla_history.specs.Hosting.{HostedValue, components_hosted, heard_of, tags_of};

    ghost Value = { HostedValue };

    ghost view = { λ h. record {
      name = h.name;
      federation = F.value h.federation;
      heard = heard_of h.ears.items;
      tags = tags_of h.ears.items;
    } };

    ghost invariant = { λ h. vec_len h.ears
        ≡ (components_hosted (F.value h.federation)).directory.next_federate };
}

impl<B: FederateAmbassador, F: Execution> Hosted<B, F> {
    /// An execution that nobody has joined; `OutOfMemory` where a growth was refused.
    pub(crate) fn new(
        alloc: Global,
        name: &ExecutionName,
        catalogue: Catalogue,
    ) -> Result<Hosted<B, F>, Fault>
        ensures name { IfOk result (λ h. h.name ≡ name.now) }
        ensures host { IfOk result (λ h. host_of h ≡ new_host catalogue) }
        ensures tags { IfOk result (λ h. tag_table h.tags ≡ no_tags) }
        ensures err { IfErr result (λ e. e ≡ Fault.OutOfMemory) }
    {
        let Ok(mut ears) = Vec::with_capacity(alloc, MAX_JOINS + 1) else {
            return Err(Fault::OutOfMemory);
        };
        ears.push_reserved(None);
        Ok(Hosted {
            name: SharedList::from_slice(alloc, name.as_slice())?,
            federation: F::new(alloc, catalogue),
            ears,
        })
    }

    /// Whether any federate is joined.
    pub(crate) fn is_joined_by_any(&self) -> bool
        ensures { result ≡ is_joined_by_any (central (components_hosted self.now.federation)) }
    {
        self.federation.is_joined_by_any()
    }

    /// Whether this is the execution of that name.
    pub(crate) fn is_named(&self, name: &ExecutionName) -> bool
        ensures { result ≡ bytes_eq name.now self.now.name }
    {
        name.as_slice() == self.name.as_slice()
    }

    /// Does a step that is no joining and no resigning, gives its callback to the ear of its federate, and writes the record at
    /// the end of the history and its copy at the end of a transcript, which both have room. `OutOfMemory`, and nothing done or
    /// written, where a growth was refused.
    pub(crate) fn step_into(
        &mut self,
        actor: u32,
        step: Step,
        history: &mut Vec<Record>,
        transcript: &mut Vec<Record>,
    ) -> Result<Outcome, Fault>
        requires plain { IsPlain step }
        requires ambassadors { HasAmbassadors (host_of self.old) }
        requires room { vec_len history.old < vec_capacity history.old }
        requires room_beside { vec_len transcript.old < vec_capacity transcript.old }
        ensures written { IfOk result
            (λ out. history.new.items
            ≡ history.old.items
            ++ step_record actor self.old.name step out
            (next (components_hosted self.old.federation) step).choice ∷ []) }
        ensures copied { IfOk result
            (λ out. transcript.new.items
            ≡ transcript.old.items
            ++ step_record actor self.old.name step out
            (next (components_hosted self.old.federation) step).choice ∷ []) }
        ensures given { IfOk result
            (λ out. given_outcome out
            ≡ (next (components_hosted self.old.federation) step).outcome) }
        ensures name { self.new.name ≡ self.old.name }
        ensures host { IfOk result
            (λ out. host_of self.new ≡ host_after (host_of self.old) step out) }
        ensures tags { self.new.tags ≡ self.old.tags }
        ensures len { vec_len history.new
            ≡ (if is_ok result then vec_len history.old + 1 else vec_len history.old) }
        ensures capacity { vec_capacity history.new ≡ vec_capacity history.old }
        ensures err { IfErr result (λ e. e ≡ Fault.OutOfMemory) }
        ensures unchanged { OnErr result (self.new ≡ self.old) }
        ensures unwritten { OnErr result (history.new.items ≡ history.old.items) }
        ensures uncopied { OnErr result (transcript.new.items ≡ transcript.old.items) }
    {
        if let Err(fault) = make_ready(&mut self.ears, &step) {
            drop(step);
            return Err(fault);
        }
        write_foreseen(&self.federation, actor, &self.name, step, history)?;
        let made = &history[history.len() - 1];
        match carry_out(&mut self.federation, &mut self.ears, made, transcript) {
            Ok(ended) => Ok(answered(ended, history, transcript)),
            Err(fault) => {
                take_away(history);
                Err(fault)
            }
        }
    }

    /// Joins a federate with this ambassador, which comes back where the federate is refused. `OutOfMemory`, with the
    /// ambassador and nothing done, where a growth was refused.
    pub(crate) fn join(
        &mut self,
        actor: u32,
        name: List<u8>,
        inner: B,
    ) -> Result<(Record, Stepped, Option<B>), (Fault, B)>
        requires { B.heard inner ≡ [] }
        ensures record { IfOk result (λ p. p.0 ≡ record {
          actor = actor;
          execution = self.old.name;
          act = act.Step (step.Join name);
          outcome = (next (components_hosted self.old.federation) (step.Join name)).outcome;
          choice = (next (components_hosted self.old.federation) (step.Join name)).choice;
        }) }
        ensures own { IfOk result (λ p. p.1.own ≡ p.0) }
        ensures answer { IfOk result (λ p. p.1.answer ≡ p.0.outcome) }
        ensures back { IfOk result
            (λ p. p.2 ≡ (if is_accepted p.1.answer then None else Some inner)) }
        ensures name { self.new.name ≡ self.old.name }
        ensures host { IfOk result
            (λ p. host_of self.new ≡ host_after (host_of self.old) (step.Join name) p.0.outcome) }
        ensures tags { IfOk result
            (λ p. tag_table self.new.tags
            ≡ tag_table_after (tag_table self.old.tags)
            (step.Join name) p.0.outcome (Some (B.tag inner))) }
        ensures err { IfErr result (λ e. e.0 ≡ Fault.OutOfMemory) }
        ensures returned { IfErr result (λ e. e.1 ≡ inner) }
        ensures unchanged { OnErr result (self.new ≡ self.old) }
    {
        if self.ears.reserve(1).is_err() {
            return Err((Fault::OutOfMemory, inner));
        }
        let Ok(execution) = self.name.copy() else {
            return Err((Fault::OutOfMemory, inner));
        };
        match take_step(&mut self.federation, actor, execution, Step::Join { name }) {
            Ok(made) => {
                let (record, stepped) = made;
                let back = seat(&mut self.ears, &stepped.answer, inner);
                Ok((record, stepped, back))
            }
            Err(fault) => Err((fault, inner)),
        }
    }

    /// Resigns a federate, and hands out its ambassador where that was done. `OutOfMemory`, and nothing done, where a growth
    /// was refused.
    pub(crate) fn resign(
        &mut self,
        actor: u32,
        federate: FederateNo,
        action: ResignAction,
    ) -> Result<(Record, Stepped, Option<B>), Fault>
        requires { HasAmbassadors (host_of self.old) }
        ensures record { IfOk result (λ p. p.0 ≡ record {
          actor = actor;
          execution = self.old.name;
          act = act.Step (step.Call federate (service.Resign action));
          outcome = (next (components_hosted self.old.federation)
              (step.Call federate (service.Resign action))).outcome;
          choice = (next (components_hosted self.old.federation)
              (step.Call federate (service.Resign action))).choice;
        }) }
        ensures own { IfOk result (λ p. p.1.own ≡ p.0) }
        ensures answer { IfOk result (λ p. p.1.answer ≡ p.0.outcome) }
        ensures back { IfOk result (λ p. is_some p.2 ≡ is_accepted p.1.answer) }
        ensures heard { IfOk result
            (λ p. IfSome p.2
            (λ b. heard_from (Some (host_of self.old)) federate ≡ Some (B.heard b))) }
        ensures tag { IfOk result
            (λ p. IfSome p.2 (λ b. tag_table self.old.tags federate ≡ Some (B.tag b))) }
        ensures name { self.new.name ≡ self.old.name }
        ensures host { IfOk result (λ p. host_of self.new
            ≡ host_after (host_of self.old)
            (step.Call federate (service.Resign action)) p.0.outcome) }
        ensures tags { IfOk result
            (λ p. tag_table self.new.tags
            ≡ tag_table_after (tag_table self.old.tags)
            (step.Call federate (service.Resign action)) p.0.outcome None) }
        ensures err { IfErr result (λ e. e ≡ Fault.OutOfMemory) }
        ensures unchanged { OnErr result (self.new ≡ self.old) }
    {
        let execution = self.name.copy()?;
        let service = Service::Resign { action };
        let (record, stepped) = take_step(
            &mut self.federation,
            actor,
            execution,
            Step::Call { federate, service },
        )?;
        let back = unseat(&mut self.ears, federate, &stepped.answer);
        Ok((record, stepped, back))
    }
}
