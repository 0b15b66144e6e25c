//! A catalogue while it is read.

ghost use Rattle.std.specs.Prelude.{◌≡◌, ◌++◌, ◌∷◌, ◌<◌, ◌≤◌, ◌&&◌, [], length, position, IfErr, OnOk, OnErr};
ghost use Rattle.std.specs.Str.{bytes_eq};
ghost use Rattle.hla_base.specs.Limits.{max_classes, max_attributes, max_parameters};
ghost use Rattle.hla_catalogue.specs.Lookup.{number_at, contains_number};
ghost use Rattle.hla_catalogue.specs.declared.declared.ObjectClass.{ObjectClass};
ghost use Rattle.hla_catalogue.specs.declared.declared.InteractionClass.{InteractionClass};
ghost use Rattle.hla_catalogue.specs.declared.declared.Attribute.{Attribute};
ghost use Rattle.hla_catalogue.specs.declared.declared.Parameter.{Parameter};

use crate::declared::{Attribute, InteractionClass, ObjectClass, Parameter};
use crate::groups::{Declared, Groups, name_hash};
use crate::names::FirstNumbers;
use hla_base::{AttributeNo, ClassNo, Fault, List, ParameterNo};
use std::alloc::Global;
use std::marker::Model;

/// What a FED file declares, as far as it is read. Contracts see its four lists, in the order of the numbers.
#[derive(Debug)]
pub struct Draft {
    object_classes: List<ObjectClass>,
    interaction_classes: List<InteractionClass>,
    attributes: List<Attribute>,
    parameters: List<Parameter>,
    object_paths: FirstNumbers,
    interaction_paths: FirstNumbers,
    attribute_names: Groups,
    parameter_names: Groups,
    alloc: Global,
}

impl Model for Draft {
    ghost use Rattle.hla_catalogue.specs.CatalogueValue.{CatalogueValue};

    ghost Value = { CatalogueValue };

    ghost view = { λ c. record {
      object_classes = c.object_classes;
      interaction_classes = c.interaction_classes;
      attributes = c.attributes;
      parameters = c.parameters;
    } };

    ghost use Rattle.hla_catalogue.specs.Indexes.{AreIndexed};

    ghost invariant = { λ c. AreIndexed c.object_classes c.interaction_classes c.attributes
        c.parameters c.object_paths c.interaction_paths c.attribute_names c.parameter_names };
}

impl Drop for Draft {
    fn drop(self) {
        let Draft {
            object_classes: _,
            interaction_classes: _,
            attributes: _,
            parameters: _,
            object_paths: _,
            interaction_paths: _,
            attribute_names: _,
            parameter_names: _,
            alloc: _,
        } = self;
    }
}

impl Draft {
    ghost use Rattle.hla_catalogue.specs.CatalogueValue.{empty_catalogue};

    /// A draft of nothing; it takes no memory.
    pub fn new(alloc: Global) -> Draft
        ensures { result ≡ empty_catalogue }
    {
        Draft {
            object_classes: List::new(alloc),
            interaction_classes: List::new(alloc),
            attributes: List::new(alloc),
            parameters: List::new(alloc),
            object_paths: FirstNumbers::new(alloc),
            interaction_paths: FirstNumbers::new(alloc),
            attribute_names: Groups::new(alloc),
            parameter_names: Groups::new(alloc),
            alloc,
        }
    }

    /// The object classes, in the order of their numbers.
    pub fn object_classes(&self) -> &[ObjectClass]
        ensures items { result.now ≡ self.now.object_classes }
        ensures few { length result.now ≤ max_classes }
    {
        self.object_classes.as_slice()
    }

    /// The interaction classes, in the order of their numbers.
    pub fn interaction_classes(&self) -> &[InteractionClass]
        ensures items { result.now ≡ self.now.interaction_classes }
        ensures few { length result.now ≤ max_classes }
    {
        self.interaction_classes.as_slice()
    }

    /// The attributes, in the order of their numbers.
    pub fn attributes(&self) -> &[Attribute]
        ensures items { result.now ≡ self.now.attributes }
        ensures few { length result.now ≤ max_attributes }
    {
        self.attributes.as_slice()
    }

    /// The parameters, in the order of their numbers.
    pub fn parameters(&self) -> &[Parameter]
        ensures items { result.now ≡ self.now.parameters }
        ensures few { length result.now ≤ max_parameters }
    {
        self.parameters.as_slice()
    }

    /// The first object class of a path.
    pub(crate) fn object_at(&self, path: &[u8]) -> Option<ClassNo>
        ensures { result ≡ number_at (position (λ (k : ObjectClass). bytes_eq k.path path.now)
            self.now.object_classes) }
    {
        self.object_paths.get(path)
    }

    /// The first interaction class of a path.
    pub(crate) fn interaction_at(&self, path: &[u8]) -> Option<ClassNo>
        ensures { result ≡ number_at (position (λ (k : InteractionClass). bytes_eq k.path path.now)
            self.now.interaction_classes) }
    {
        self.interaction_paths.get(path)
    }

    /// The first attribute of a name among those of some classes.
    pub fn attribute_among(&self, classes: &[ClassNo], name: &[u8]) -> Option<AttributeNo>
        ensures { result
            ≡ number_at (position (λ (a : Attribute). contains_number a.class classes.now &&
            bytes_eq a.name name.now) self.now.attributes) }
    {
        self.attribute_names
            .first_number(self.attributes.as_slice(), name, classes)
    }

    /// The first parameter of a name among those of some classes.
    pub fn parameter_among(&self, classes: &[ClassNo], name: &[u8]) -> Option<ParameterNo>
        ensures { result
            ≡ number_at (position (λ (p : Parameter). contains_number p.class classes.now &&
            bytes_eq p.name name.now) self.now.parameters) }
    {
        self.parameter_names
            .first_number(self.parameters.as_slice(), name, classes)
    }

    /// Adds an object class; `OutOfMemory`, and the draft as it was, where a growth was refused.
    pub fn add_object_class(&mut self, class: ObjectClass) -> Result<(), Fault>
        requires { length self.old.object_classes < max_classes }
        ensures ok { OnOk result (self.new ≡ record self.old {
          object_classes = self.old.object_classes ++ class ∷ [];
        }) }
        ensures err { IfErr result (λ e. e ≡ Fault.OutOfMemory) }
        ensures unchanged { OnErr result (self.new ≡ self.old) }
    {
        let number = self.object_classes.len() as u32 + 1;
        let Ok(path) = Vec::from_slice(self.alloc, class.path.as_slice()) else {
            return Err(Fault::OutOfMemory);
        };
        self.object_classes.push(class)?;
        match self.object_paths.note(path, number) {
            Ok(()) => Ok(()),
            Err(fault) => {
                let _ = self.object_classes.pop();
                Err(fault)
            }
        }
    }

    /// Adds an interaction class; `OutOfMemory`, and the draft as it was, where a growth was refused.
    pub fn add_interaction_class(&mut self, class: InteractionClass) -> Result<(), Fault>
        requires { length self.old.interaction_classes < max_classes }
        ensures ok { OnOk result (self.new ≡ record self.old {
          interaction_classes = self.old.interaction_classes ++ class ∷ [];
        }) }
        ensures err { IfErr result (λ e. e ≡ Fault.OutOfMemory) }
        ensures unchanged { OnErr result (self.new ≡ self.old) }
    {
        let number = self.interaction_classes.len() as u32 + 1;
        let Ok(path) = Vec::from_slice(self.alloc, class.path.as_slice()) else {
            return Err(Fault::OutOfMemory);
        };
        self.interaction_classes.push(class)?;
        match self.interaction_paths.note(path, number) {
            Ok(()) => Ok(()),
            Err(fault) => {
                let _ = self.interaction_classes.pop();
                Err(fault)
            }
        }
    }

    /// Adds an attribute; `OutOfMemory`, and the draft as it was, where a growth was refused.
    pub fn add_attribute(&mut self, attribute: Attribute) -> Result<(), Fault>
        requires { length self.old.attributes < max_attributes }
        ensures ok { OnOk result (self.new ≡ record self.old {
          attributes = self.old.attributes ++ attribute ∷ [];
        }) }
        ensures err { IfErr result (λ e. e ≡ Fault.OutOfMemory) }
        ensures unchanged { OnErr result (self.new ≡ self.old) }
    {
        let number = self.attributes.len() as u32 + 1;
        let class = attribute.class;
        let hash = name_hash(attribute.name.as_slice());
        self.attributes.push(attribute)?;
        match self.attribute_names.note(hash, Declared { class, number }) {
            Ok(()) => Ok(()),
            Err(fault) => {
                let _ = self.attributes.pop();
                Err(fault)
            }
        }
    }

    /// Adds a parameter; `OutOfMemory`, and the draft as it was, where a growth was refused.
    pub fn add_parameter(&mut self, parameter: Parameter) -> Result<(), Fault>
        requires { length self.old.parameters < max_parameters }
        ensures ok { OnOk result (self.new ≡ record self.old {
          parameters = self.old.parameters ++ parameter ∷ [];
        }) }
        ensures err { IfErr result (λ e. e ≡ Fault.OutOfMemory) }
        ensures unchanged { OnErr result (self.new ≡ self.old) }
    {
        let number = self.parameters.len() as u32 + 1;
        let class = parameter.class;
        let hash = name_hash(parameter.name.as_slice());
        self.parameters.push(parameter)?;
        match self.parameter_names.note(hash, Declared { class, number }) {
            Ok(()) => Ok(()),
            Err(fault) => {
                let _ = self.parameters.pop();
                Err(fault)
            }
        }
    }
}
