//! The language of scripts: a script's text, read into lines.
#![tactic(auto)]

mod arguments;
mod calls;
mod lines;
mod reader;
mod vocabulary;
mod words;

pub use lines::{
    Call, Command, Declaration, Line, NameValuePair, Script, ScriptFault, ScriptFaultKind,
};
pub use reader::parse;
pub use words::Word;
