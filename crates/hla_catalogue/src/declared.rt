//! What a FED file declares.

ghost use Rattle.std.proofs.Common.{rules};

use hla_base::{ClassNo, List, Plain};

/// In which order messages of an attribute or an interaction class are given to their receivers.
#[derive(Clone, Copy, Debug, PartialEq, Eq)]
pub enum Order {
    Receive,
    Timestamp,
}

/// How messages of an attribute or an interaction class are carried. It is read and kept, and has no effect.
#[derive(Clone, Copy, Debug, PartialEq, Eq)]
pub enum Transport {
    Reliable,
    BestEffort,
}

/// An object class. Its number is its place in the catalogue, counted from 1.
#[derive(Clone, PartialEq, Eq, Debug, Drop)]
pub struct ObjectClass {
    /// The names from its top class on, joined by dots.
    pub path: List<u8>,
    /// Its own number and those of the classes around it, innermost first.
    pub lineage: List<ClassNo>,
}

/// An interaction class. Its number is its place in the catalogue, counted from 1.
#[derive(Clone, PartialEq, Eq, Debug, Drop)]
pub struct InteractionClass {
    /// The names from its top class on, joined by dots.
    pub path: List<u8>,
    /// Its own number and those of the classes around it, innermost first.
    pub lineage: List<ClassNo>,
    pub transport: Transport,
    pub order: Order,
}

/// An attribute. Its number is its place in the catalogue, counted from 1.
#[derive(Clone, PartialEq, Eq, Debug, Drop)]
pub struct Attribute {
    /// The object class that declares it.
    pub class: ClassNo,
    pub name: List<u8>,
    pub transport: Transport,
    pub order: Order,
}

/// A parameter. Its number is its place in the catalogue, counted from 1.
#[derive(Clone, PartialEq, Eq, Debug, Drop)]
pub struct Parameter {
    /// The interaction class that declares it.
    pub class: ClassNo,
    pub name: List<u8>,
}

impl Plain for ObjectClass {
    ghost exact = { Prim.search rules };

    ghost cloned = { Prim.search rules };
}

impl Plain for InteractionClass {
    ghost exact = { Prim.search rules };

    ghost cloned = { Prim.search rules };
}

impl Plain for Attribute {
    ghost exact = { Prim.search rules };

    ghost cloned = { Prim.search rules };
}

impl Plain for Parameter {
    ghost exact = { Prim.search rules };

    ghost cloned = { Prim.search rules };
}
