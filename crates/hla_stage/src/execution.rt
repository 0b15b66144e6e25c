//! The execution that a script plays.

ghost use Rattle.std.specs.Prelude.{◌≡◌, ◌<◌, ◌+◌, ◌≤◌, [], Some, None, IfOk, IfErr, OnErr, option_map, codes, vec_len, vec_capacity};
ghost use Rattle.hla_machine.specs.declared.step.Act.TheVariants as act;
ghost use Rattle.hla_requests.specs.Members.{member_after};
ghost use Rattle.hla_stage.specs.Playing.{act_of, created_catalogue};
ghost use Rattle.hla_stage.specs.Keeping.{components_of, standing, IsStepped, IsDestroyed, IsActed};

use hla_base::{Fault, MAX_CREATES, Plain, SharedList};
use hla_catalogue::Catalogue;
use hla_execution::Execution;
use hla_machine::{Act, Answer, Choice, Outcome, Record, Step};
use hla_requests::{MemberChange, NamedFederate, Request, note};
use std::alloc::Global;

/// The execution named `play`, which may not be there, with what its FED file says and the federates that have joined
/// since it was last created. `F` is how it is kept.
#[derive(Drop)]
pub struct Played<F: Execution> {
    pub alloc: Global,
    /// The name, which all records of the execution share.
    pub name: SharedList<u8>,
    pub catalogue: Catalogue,
    /// How often it was created.
    pub creates: u32,
    pub federation: Option<F>,
    pub members: Vec<NamedFederate>,
}

/// How a step ended, and what it chose.
#[derive(Drop)]
struct Ending {
    outcome: Outcome,
    choice: Choice,
}

/// Does a step, and answers how it ended; where memory ran out it is not done.
fn do_step<F: Execution>(federation: &mut Option<F>, step: &Step) -> Result<Ending, Fault>
    ensures ok { IfOk result
        (λ e. IsStepped (option_map components_of (option_map F.value federation.old)) step.now
        e.outcome e.choice (option_map components_of (option_map F.value federation.new))) }
    ensures err { OnErr result
        (option_map F.value federation.new ≡ option_map F.value federation.old) }
{
    let Some(federation) = federation else {
        return Ok(Ending {
            outcome: Outcome::Refused(Fault::FederationExecutionDoesNotExist),
            choice: Choice::None,
        });
    };
    let choice = federation.choice(step)?;
    match federation.step(step) {
        Ok(answer) => Ok(Ending {
            outcome: Outcome::Done(answer),
            choice,
        }),
        Err(fault) => {
            if fault == Fault::OutOfMemory {
                return Err(fault);
            }
            Ok(Ending {
                outcome: Outcome::Refused(fault),
                choice,
            })
        }
    }
}

/// Destroys the execution where it is there and no federate is joined.
fn destroy_unless_joined<F: Execution>(federation: &mut Option<F>) -> Outcome
    ensures { IsDestroyed (option_map components_of (option_map F.value federation.old)) result
        (option_map components_of (option_map F.value federation.new)) }
{
    match federation {
        None => return Outcome::Refused(Fault::FederationExecutionDoesNotExist),
        Some(here) => {
            if here.is_joined_by_any() {
                return Outcome::Refused(Fault::FederatesCurrentlyJoined);
            }
        }
    }
    drop(federation.take());
    Outcome::Done(Answer::Done)
}

fn script_record(name: SharedList<u8>, act: Act, outcome: Outcome, choice: Choice) -> Record
    ensures { result ≡ record {
      actor = 0;
      execution = name;
      act = act;
      outcome = outcome;
      choice = choice;
    } }
{
    Record {
        actor: 0,
        execution: name,
        act,
        outcome,
        choice,
    }
}

impl<F: Execution> Played<F> {
    /// No execution yet, for a FED file.
    pub fn new(alloc: Global, name: SharedList<u8>, catalogue: Catalogue) -> Played<F>
        ensures name { result.name ≡ name }
        ensures catalogue { result.catalogue ≡ catalogue }
        ensures creates { result.creates ≡ 0 }
        ensures federation { result.federation ≡ None }
        ensures members { result.members.items ≡ [] }
    {
        Played {
            alloc,
            name,
            catalogue,
            creates: 0,
            federation: None,
            members: Vec::new(alloc),
        }
    }

    /// Does what is asked, and answers its record. `OutOfMemory` where a growth was refused; then nothing has changed. Any
    /// other fault is in the record.
    pub fn act(&mut self, request: Request) -> Result<Record, Fault>
        requires name { self.old.name ≡ codes "play" }
        ensures ok { IfOk result (λ r. IsActed (act_of self.old.catalogue request r.outcome)
            (standing self.old.creates (option_map F.value self.old.federation))
            self.old.members.items r
            (standing self.new.creates (option_map F.value self.new.federation))
            self.new.members.items) }
        ensures err { OnErr result (option_map F.value self.new.federation
            ≡ option_map F.value self.old.federation) }
        ensures creates { OnErr result (self.new.creates ≡ self.old.creates) }
        ensures members { OnErr result (self.new.members.items ≡ self.old.members.items) }
        ensures catalogue { self.new.catalogue ≡ self.old.catalogue }
        ensures name { self.new.name ≡ self.old.name }
    {
        let Ok(name) = self.name.copy() else {
            drop(request);
            return Err(Fault::OutOfMemory);
        };
        match request {
            Request::Create => self.create(name),
            Request::Destroy => Ok(self.destroy(name)),
            Request::Step(step) => self.take(name, step),
        }
    }

    /// Creates the execution, unless it is there. `OutOfMemory` where a growth was refused; then nothing has changed. Any
    /// other fault is in the record.
    fn create(&mut self, name: SharedList<u8>) -> Result<Record, Fault>
        requires { name ≡ codes "play" }
        ensures ok { IfOk result
            (λ r. IsActed (act.Create (created_catalogue self.old.catalogue r.outcome))
            (standing self.old.creates (option_map F.value self.old.federation))
            self.old.members.items r
            (standing self.new.creates (option_map F.value self.new.federation))
            self.new.members.items) }
        ensures err { OnErr result (option_map F.value self.new.federation
            ≡ option_map F.value self.old.federation) }
        ensures creates { OnErr result (self.new.creates ≡ self.old.creates) }
        ensures members { OnErr result (self.new.members.items ≡ self.old.members.items) }
        ensures catalogue { self.new.catalogue ≡ self.old.catalogue }
        ensures name { self.new.name ≡ self.old.name }
    {
        if self.federation.is_some() {
            return Ok(script_record(
                name,
                Act::Create { catalogue: None },
                Outcome::Refused(Fault::FederationExecutionAlreadyExists),
                Choice::None,
            ));
        }
        let held = self.catalogue.copy()?;
        if self.creates >= MAX_CREATES {
            return Ok(script_record(
                name,
                Act::Create {
                    catalogue: Some(held),
                },
                Outcome::Refused(Fault::LimitReached),
                Choice::None,
            ));
        }
        let used = self.catalogue.copy()?;
        drop(self.federation.replace(F::new(self.alloc, used)));
        self.creates += 1;
        self.members.clear();
        Ok(script_record(
            name,
            Act::Create {
                catalogue: Some(held),
            },
            Outcome::Done(Answer::Done),
            Choice::None,
        ))
    }

    /// Destroys the execution, where it may be.
    fn destroy(&mut self, name: SharedList<u8>) -> Record
        requires { name ≡ codes "play" }
        ensures ok { IsActed act.Destroy
            (standing self.old.creates (option_map F.value self.old.federation))
            self.old.members.items result
            (standing self.new.creates (option_map F.value self.new.federation))
            self.new.members.items }
        ensures catalogue { self.new.catalogue ≡ self.old.catalogue }
        ensures name { self.new.name ≡ self.old.name }
    {
        let outcome = destroy_unless_joined(&mut self.federation);
        script_record(name, Act::Destroy, outcome, Choice::None)
    }

    /// Does a step, and notes who has joined or resigned by it. Where memory runs out, nothing has changed.
    fn step_and_note(&mut self, step: &Step) -> Result<Ending, Fault>
        ensures ok { IfOk result
            (λ e. IsStepped
            (option_map components_of (option_map F.value self.old.federation)) step.now
            e.outcome e.choice
            (option_map components_of (option_map F.value self.new.federation))) }
        ensures noted { IfOk result (λ e. self.new.members.items
            ≡ member_after self.old.members.items (act.Step step.now) e.outcome) }
        ensures err { OnErr result (option_map F.value self.new.federation
            ≡ option_map F.value self.old.federation) }
        ensures creates { self.new.creates ≡ self.old.creates }
        ensures members { OnErr result (self.new.members.items ≡ self.old.members.items) }
        ensures catalogue { self.new.catalogue ≡ self.old.catalogue }
        ensures name { self.new.name ≡ self.old.name }
    {
        let change = MemberChange::of(step)?;
        if self.members.reserve(1).is_err() {
            return Err(Fault::OutOfMemory);
        }
        let ending = do_step(&mut self.federation, step)?;
        note(&mut self.members, change, &ending.outcome);
        Ok(ending)
    }

    /// Does a step of the execution. `OutOfMemory` where a growth was refused; then nothing has changed. Any other fault is
    /// in the record.
    fn take(&mut self, name: SharedList<u8>, step: Step) -> Result<Record, Fault>
        requires name { name ≡ codes "play" }
        ensures ok { IfOk result (λ r. IsActed (act.Step step)
            (standing self.old.creates (option_map F.value self.old.federation))
            self.old.members.items r
            (standing self.new.creates (option_map F.value self.new.federation))
            self.new.members.items) }
        ensures err { OnErr result (option_map F.value self.new.federation
            ≡ option_map F.value self.old.federation) }
        ensures creates { OnErr result (self.new.creates ≡ self.old.creates) }
        ensures members { OnErr result (self.new.members.items ≡ self.old.members.items) }
        ensures catalogue { self.new.catalogue ≡ self.old.catalogue }
        ensures name { self.new.name ≡ self.old.name }
    {
        match self.step_and_note(&step) {
            Ok(Ending { outcome, choice }) => {
                Ok(script_record(name, Act::Step(step), outcome, choice))
            }
            Err(fault) => {
                drop(step);
                Err(fault)
            }
        }
    }
}
