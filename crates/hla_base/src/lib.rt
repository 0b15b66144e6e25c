//! What all crates of the run-time infrastructure speak of: numbers, time, values, faults, and the row of a federate.
#![tactic(auto)]

mod content;
mod fault;
mod federate_set;
mod limits;
mod list;
mod name;
mod notice;
mod number;
mod plain;
mod row;
mod shared_event;
mod shared_list;
mod value;

pub use content::{Content, Discovery, Event, HandleValuePair};
pub use fault::Fault;
pub use federate_set::FederateSet;
pub use limits::{
    FOREVER, LEDGER_PARTS, MAX_ATTRIBUTES, MAX_CALLERS, MAX_CLASSES, MAX_COURIERS, MAX_CREATES,
    MAX_ENABLINGS, MAX_EXECUTION_NAME, MAX_EXECUTIONS, MAX_FED_FILE, MAX_FED_NESTING,
    MAX_FEDERATE_NAME, MAX_HISTORY, MAX_HISTORY_LIMIT, MAX_JOINS, MAX_MONITORS, MAX_NAME,
    MAX_OBJECTS, MAX_OPEN_POINTS, MAX_PARAMETERS, MAX_POINT_LABEL, MAX_SCRIPT, MAX_SCRIPT_LINE,
    MAX_SERIAL, MAX_TIME, MAX_VALUE,
};
pub use list::List;
pub use name::ExecutionName;
pub use notice::{Notice, NoticeKind};
pub use number::{
    AttributeNo, ClassNo, EventHandle, FederateNo, ObjectNo, ParameterNo, Serial, Ticks,
};
pub use plain::Plain;
pub use row::{AdvanceKind, AdvanceRequest, Role, TimeRow};
pub use shared_event::SharedEvent;
pub use shared_list::SharedList;
pub use value::Value;
