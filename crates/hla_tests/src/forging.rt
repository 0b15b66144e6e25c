//! Records of scripts, and what is told of them once one is forged. Places count from 0.

use crate::sketches::{Deed, News, Told};
use crate::{objects, orders, picks, points, rows, runs, turns};
use hla_base::{EventHandle, Fault, List, Serial, SharedList, Ticks};
use hla_checker::{CheckFault, check_run};
use hla_machine::{Act, Answer, Choice, Outcome, Record, Step};
use hla_script::{Watched, play};
use std::alloc::Global;
use std::process::Abort;
use std::{io, mem};

/// An object class `Car` (2) with an attribute `Pos` (2) in time-stamp order, and an interaction class `Hit` (2) in that order.
const FED: &str = "(FED
 (Federation Demo)
 (FEDversion v1.3)
 (spaces)
 (objects
  (class ObjectRoot
   (attribute privilegeToDelete reliable timestamp)
   (class Car
    (attribute Pos reliable timestamp))))
 (interactions
  (class InteractionRoot reliable receive
   (class Hit reliable timestamp
    (parameter Force)))))
";

/// The number of the interaction class `Hit`.
pub const HIT: u32 = 2;

/// What a step has chosen.
pub enum Chosen {
    None,
    Entry(Ticks),
    NothingMoved,
    /// A message of federate 1.
    Moved(Serial),
}

/// What is forged of a record, or by it.
pub enum Forged {
    /// Another answer.
    Answer(Told),
    /// A refusal in place of the outcome.
    Refusal(Fault),
    /// An ambassador that failed in this callback.
    Failure(News),
    /// Another choice.
    Choice(Chosen),
    /// Another step.
    Deed(Deed),
    /// A tick of another federate, which gave nothing.
    EmptyTick(u32),
    /// Another execution.
    Execution(&'static str),
    /// The record and the one behind it in the other order.
    Exchange,
    /// The record left out.
    Without,
}

/// A forgery of the record at a place, and the place that is told as the first that is no step, if one is.
pub struct Forgery {
    pub name: &'static str,
    pub place: usize,
    pub forged: Forged,
    pub told: Option<usize>,
}

/// A script, which must be a run of so many records, and forgeries of it.
pub struct Forgeries {
    pub script: &'static str,
    pub records: usize,
    pub forgeries: &'static [Forgery],
}

impl Chosen {
    fn choice(&self, rt: &impl Abort, alloc: Global) -> Choice {
        match self {
            Chosen::None => Choice::None,
            Chosen::Entry(stamp) => Choice::Entry(*stamp),
            Chosen::NothingMoved => Choice::Moved(List::new(alloc)),
            Chosen::Moved(serial) => {
                let mut moved = List::new(alloc);
                moved
                    .push(EventHandle {
                        sender: 1,
                        serial: *serial,
                    })
                    .expect(rt, "room");
                Choice::Moved(moved)
            }
        }
    }
}

/// Has a record end otherwise. What it ended with goes by name, since a value that an assignment drops is taken apart there.
fn end(record: &mut Record, outcome: Outcome) {
    drop(mem::replace(&mut record.outcome, outcome));
}

/// Has a record be one of another step.
fn act(record: &mut Record, step: Step) {
    drop(mem::replace(&mut record.act, Act::Step(step)));
}

impl Forged {
    /// Forges a record.
    fn forge(&self, rt: &impl Abort, alloc: Global, record: &mut Record) {
        match self {
            Forged::Answer(told) => end(record, Outcome::Done(told.answer(rt, alloc))),
            Forged::Refusal(fault) => end(record, Outcome::Refused(*fault)),
            Forged::Failure(news) => end(record, Outcome::Failed(news.callback(rt, alloc))),
            Forged::Choice(chosen) => {
                drop(mem::replace(&mut record.choice, chosen.choice(rt, alloc)))
            }
            Forged::Deed(deed) => act(record, deed.step(rt, alloc)),
            Forged::EmptyTick(federate) => {
                let federate = *federate;
                act(record, Step::Tick { federate });
                end(record, Outcome::Done(Answer::Ticked(None)));
            }
            Forged::Execution(name) => {
                let name = SharedList::from_slice(alloc, name.as_bytes()).expect(rt, "room");
                drop(mem::replace(&mut record.execution, name));
            }
            Forged::Exchange | Forged::Without => {}
        }
    }
}

impl Forgery {
    /// Forges records of a script.
    fn forge(&self, rt: &impl Abort, alloc: Global, records: &mut Vec<Record>) {
        if self.place >= records.len() {
            return;
        }
        match &self.forged {
            Forged::Exchange => {
                if 1 < records.len() - self.place {
                    records.swap(self.place, self.place + 1);
                }
            }
            Forged::Without => drop(records.remove(self.place)),
            forged => forged.forge(rt, alloc, &mut records[self.place]),
        }
    }

    /// What is told of the records of a script once they are forged.
    fn verdict(&self, rt: &impl Abort, alloc: Global, script: &str) -> Result<(), CheckFault> {
        let mut records = records_of(rt, alloc, script);
        self.forge(rt, alloc, &mut records);
        let verdict = check_run(alloc, records.as_slice());
        drop(records);
        verdict
    }
}

/// The records of a script.
fn records_of(rt: &impl Abort, alloc: Global, script: &str) -> Vec<Record> {
    let mut out = Watched::new(io::sink());
    let records = play(alloc, FED.as_bytes(), script.as_bytes(), &mut out);
    records.expect(rt, "records").into_vec()
}

/// How many records a script has, which must be a run.
fn count_of(rt: &impl Abort, alloc: Global, script: &str) -> usize {
    let records = records_of(rt, alloc, script);
    check_run(alloc, records.as_slice()).expect(rt, script);
    let count = records.len();
    drop(records);
    count
}

/// Says that a script is a run, and that each of its forgeries is told.
fn check_forgeries(rt: &impl Abort, alloc: Global, forgeries: &Forgeries) {
    let count = count_of(rt, alloc, forgeries.script);
    assert!(rt;
        count == forgeries.records,
        "{count} records of {}",
        forgeries.script
    );
    for forgery in forgeries.forgeries {
        let told = match forgery.told {
            Some(place) => Err(CheckFault::Place(place)),
            None => Ok(()),
        };
        let verdict = forgery.verdict(rt, alloc, forgeries.script);
        assert!(rt; verdict == told, "{}: {verdict:?}", forgery.name);
    }
}

/// All scripts with their forgeries.
static ALL: [&Forgeries; 11] = [
    &rows::NEWCOMER,
    &objects::CAR,
    &orders::CHANGED,
    &picks::HITS,
    &picks::RETRACTED,
    &picks::CEASED,
    &points::SYNCHRONIZED,
    &points::LEFT,
    &runs::RESIGNED,
    &runs::NOTHING,
    &turns::TURNS,
];

#[test]
fn tells_each_forgery(rt: HostRuntime) {
    for forgeries in &ALL {
        check_forgeries(&rt, rt.alloc(), forgeries);
    }
}
