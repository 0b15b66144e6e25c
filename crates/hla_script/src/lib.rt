//! Scripts played in a federation execution, which a `Federation` keeps.
#![tactic(auto)]

mod player;

pub use hla_commands::{
    Call, Command, Declaration, Line, NameValuePair, Script, ScriptFault, ScriptFaultKind, parse,
};
pub use hla_stage::PlayFault;
pub use hla_transcript::{ListFault, Watched, list};
pub use player::{play, play_whole};
