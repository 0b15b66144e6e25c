//! Lists of steps, given to a federation at once.

use crate::sketches::{Asked, Deed, NamedService, News, Told};
use hla_base::Fault;
use hla_fed_file::read;
use hla_federation::Federation;
use hla_machine::{Answer, Step};
use hla_part_tests::FED;
use std::alloc::Global;
use std::process::Abort;

/// The number of the interaction class `Hit`.
const HIT: u32 = 4;

/// A step, and what it answers.
struct Line {
    deed: Deed,
    answer: Result<Told, Fault>,
}

/// Steps of one federation.
struct Steps {
    name: &'static str,
    lines: &'static [Line],
}

/// Names that are looked up, and who may tick.
const LOOK_UPS: Steps = Steps {
    name: "look-ups",
    lines: &[
        Line {
            deed: Deed::Join("A"),
            answer: Ok(Told::Federate(1)),
        },
        Line {
            deed: Deed::Join("B"),
            answer: Ok(Told::Federate(2)),
        },
        Line {
            deed: Deed::Call(
                1,
                Asked::Named {
                    service: NamedService::ObjectClassHandle,
                    name: "Car",
                },
            ),
            answer: Ok(Told::Handle(2)),
        },
        Line {
            deed: Deed::Call(
                1,
                Asked::Named {
                    service: NamedService::AttributeHandle { class: 2 },
                    name: "Paint",
                },
            ),
            answer: Ok(Told::Handle(3)),
        },
        Line {
            deed: Deed::Call(
                1,
                Asked::Named {
                    service: NamedService::InteractionClassHandle,
                    name: "Hit",
                },
            ),
            answer: Ok(Told::Handle(4)),
        },
        Line {
            deed: Deed::Call(
                1,
                Asked::Named {
                    service: NamedService::ParameterHandle { class: HIT },
                    name: "Force",
                },
            ),
            answer: Ok(Told::Handle(3)),
        },
        Line {
            deed: Deed::Join("A"),
            answer: Err(Fault::FederateAlreadyExecutionMember),
        },
        Line {
            deed: Deed::Tick(2),
            answer: Ok(Told::Nothing),
        },
        Line {
            deed: Deed::Tick(3),
            answer: Err(Fault::FederateNotExecutionMember),
        },
    ],
};

/// A begins to regulate, and B to regulate and to be constrained. B promises in a next-event request what it knows by A, and C,
/// which asks to regulate from 0 on, comes no earlier.
const NEWCOMER: Steps = Steps {
    name: "newcomer",
    lines: &[
        Line {
            deed: Deed::Join("A"),
            answer: Ok(Told::Federate(1)),
        },
        Line {
            deed: Deed::Join("B"),
            answer: Ok(Told::Federate(2)),
        },
        Line {
            deed: Deed::Join("C"),
            answer: Ok(Told::Federate(3)),
        },
        Line {
            deed: Deed::Call(3, Asked::PublishInteractions { class: HIT }),
            answer: Ok(Told::Done),
        },
        Line {
            deed: Deed::Call(
                1,
                Asked::Regulate {
                    time: 0,
                    lookahead: 1,
                },
            ),
            answer: Ok(Told::Done),
        },
        Line {
            deed: Deed::Tick(1),
            answer: Ok(Told::Given(News::Regulation { time: 0 })),
        },
        Line {
            deed: Deed::Carry { from: 1, to: 2 },
            answer: Ok(Told::Null { bound: 1 }),
        },
        Line {
            deed: Deed::Call(
                2,
                Asked::Regulate {
                    time: 0,
                    lookahead: 1,
                },
            ),
            answer: Ok(Told::Done),
        },
        Line {
            deed: Deed::Tick(2),
            answer: Ok(Told::Given(News::Regulation { time: 0 })),
        },
        Line {
            deed: Deed::Call(2, Asked::Constrain),
            answer: Ok(Told::Done),
        },
        Line {
            deed: Deed::Tick(2),
            answer: Ok(Told::Given(News::Constraint { time: 0 })),
        },
        Line {
            deed: Deed::Call(1, Asked::TimeAdvance { time: 49 }),
            answer: Ok(Told::Done),
        },
        Line {
            deed: Deed::Announce(1),
            answer: Ok(Told::Announced(50)),
        },
        Line {
            deed: Deed::Carry { from: 1, to: 2 },
            answer: Ok(Told::Null { bound: 50 }),
        },
        Line {
            deed: Deed::Call(2, Asked::NextEvent { time: 100 }),
            answer: Ok(Told::Done),
        },
        Line {
            deed: Deed::Announce(2),
            answer: Ok(Told::Announced(51)),
        },
        Line {
            deed: Deed::Call(
                3,
                Asked::Regulate {
                    time: 0,
                    lookahead: 1,
                },
            ),
            answer: Ok(Told::Done),
        },
        Line {
            deed: Deed::Tick(3),
            answer: Ok(Told::Given(News::Regulation { time: 49 })),
        },
        Line {
            deed: Deed::Call(
                3,
                Asked::Send {
                    class: HIT,
                    stamp: 49,
                },
            ),
            answer: Err(Fault::InvalidFederationTime),
        },
        Line {
            deed: Deed::Call(
                3,
                Asked::Send {
                    class: HIT,
                    stamp: 50,
                },
            ),
            answer: Ok(Told::Sent {
                sender: 3,
                serial: 1,
            }),
        },
        Line {
            deed: Deed::Call(2, Asked::Lbts),
            answer: Ok(Told::Time(50)),
        },
    ],
};

impl Line {
    /// Whether a step was answered so.
    fn is_answer(&self, rt: &impl Abort, alloc: Global, answer: &Result<Answer, Fault>) -> bool {
        match (&self.answer, answer) {
            (Ok(told), Ok(answer)) => {
                let told = told.answer(rt, alloc);
                let is_same = told == *answer;
                drop(told);
                is_same
            }
            (Err(told), Err(fault)) => told == fault,
            _ => false,
        }
    }
}

impl Steps {
    fn steps(&self, rt: &impl Abort, alloc: Global) -> Vec<Step> {
        let mut steps = Vec::new(alloc);
        for line in self.lines {
            steps.push(line.deed.step(rt, alloc)).expect(rt, "room");
        }
        steps
    }

    /// Says that answers are those of the lines.
    fn compare(&self, rt: &impl Abort, alloc: Global, answers: &[Result<Answer, Fault>]) {
        assert!(rt; answers.len() == self.lines.len(), "{}", self.name);
        for (place, (line, answer)) in self.lines.iter().zip(answers).enumerate() {
            let is_right = line.is_answer(rt, alloc, answer);
            assert!(rt; is_right, "{}, step {place}: {answer:?}", self.name);
        }
    }

    /// Gives a federation with `FED` the steps, which it must answer as their lines say.
    fn check(&self, rt: &impl Abort, alloc: Global) {
        let steps = self.steps(rt, alloc);
        let catalogue = read(alloc, FED.as_bytes()).expect(rt, "a catalogue");
        let mut federation = Federation::new(alloc, catalogue);
        let answers = federation.run(steps.as_slice());
        drop(federation);
        drop(steps);
        let answers = answers.expect(rt, "answers");
        self.compare(rt, alloc, answers.as_slice());
        drop(answers);
    }
}

/// All lists of steps.
static ALL: [&Steps; 2] = [&LOOK_UPS, &NEWCOMER];

#[test]
fn runs_lists_of_steps(rt: HostRuntime) {
    for steps in &ALL {
        steps.check(&rt, rt.alloc());
    }
}
