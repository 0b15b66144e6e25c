//! The catalogue: what a FED file declares, in the order of its numbers.

ghost use Rattle.std.specs.Prelude.{◌≡◌, ◌≤◌, ◌&&◌, length, position, IfOk, IfErr};
ghost use Rattle.std.specs.Str.{bytes_eq};
ghost use Rattle.std.specs.Ordering.{on, eq_of_both};
ghost use Rattle.std.specs.Cmp.{partial_equiv_from_equiv};
ghost use Rattle.std.proofs.lemmas.Cmp.{on_equiv, and_equiv, lists_equiv};
ghost use Rattle.std.proofs.Common.{rules};
ghost use Rattle.hla_base.specs.Limits.{max_classes, max_attributes, max_parameters};
ghost use Rattle.hla_base.specs.declared.fault.Fault.TheVariants.{OutOfMemory};
ghost use Rattle.hla_catalogue.specs.contracts.declared.ObjectClassEq.TheImpl.Laws.{laws-law as object_class_laws};
ghost use Rattle.hla_catalogue.specs.contracts.declared.InteractionClassEq.TheImpl.Laws.{laws-law as interaction_class_laws};
ghost use Rattle.hla_catalogue.specs.contracts.declared.AttributeEq.TheImpl.Laws.{laws-law as attribute_laws};
ghost use Rattle.hla_catalogue.specs.contracts.declared.ParameterEq.TheImpl.Laws.{laws-law as parameter_laws};
ghost use Rattle.hla_catalogue.specs.Lookup.{number_at, contains_number};
ghost use Rattle.hla_catalogue.specs.declared.declared.ObjectClass.{ObjectClass};
ghost use Rattle.hla_catalogue.specs.declared.declared.InteractionClass.{InteractionClass};
ghost use Rattle.hla_catalogue.specs.declared.declared.Attribute.{Attribute};
ghost use Rattle.hla_catalogue.specs.declared.declared.Parameter.{Parameter};

use crate::declared::{Attribute, InteractionClass, ObjectClass, Parameter};
use crate::draft::Draft;
use hla_base::{AttributeNo, ClassNo, Fault, List, ParameterNo, Plain};
use std::alloc::{AllocError, Global};
use std::marker::Model;
use std::sync::Arc;

/// What a FED file declares. Its copies share it, so a copy takes no memory. Contracts see its four lists, in the order of
/// the numbers.
#[derive(Debug)]
pub struct Catalogue {
    draft: Arc<Draft>,
}

impl Model for Catalogue {
    ghost use Rattle.std.specs.Arc.{arc_value};
    ghost use Rattle.hla_catalogue.specs.CatalogueValue.{CatalogueValue};

    ghost Value = { CatalogueValue };

    ghost view = { λ c. arc_value c.draft };
}

impl Drop for Catalogue {
    fn drop(self) {
        let Catalogue { draft: _ } = self;
    }
}

impl Catalogue {
    /// What was read, from now on shared; `OutOfMemory` where a growth was refused.
    pub fn from_draft(alloc: Global, draft: Draft) -> Result<Catalogue, Fault>
        ensures ok { IfOk result (λ c. c ≡ draft) }
        ensures err { IfErr result (λ e. e ≡ Fault.OutOfMemory) }
    {
        match Arc::new(alloc, draft) {
            Ok(draft) => Ok(Catalogue { draft }),
            Err(_) => Err(Fault::OutOfMemory),
        }
    }

    /// The object classes, in the order of their numbers.
    pub fn object_classes(&self) -> &[ObjectClass]
        ensures items { result.now ≡ self.now.object_classes }
        ensures few { length result.now ≤ max_classes }
    {
        self.draft.object_classes()
    }

    /// The interaction classes, in the order of their numbers.
    pub fn interaction_classes(&self) -> &[InteractionClass]
        ensures items { result.now ≡ self.now.interaction_classes }
        ensures few { length result.now ≤ max_classes }
    {
        self.draft.interaction_classes()
    }

    /// The attributes, in the order of their numbers.
    pub fn attributes(&self) -> &[Attribute]
        ensures items { result.now ≡ self.now.attributes }
        ensures few { length result.now ≤ max_attributes }
    {
        self.draft.attributes()
    }

    /// The parameters, in the order of their numbers.
    pub fn parameters(&self) -> &[Parameter]
        ensures items { result.now ≡ self.now.parameters }
        ensures few { length result.now ≤ max_parameters }
    {
        self.draft.parameters()
    }

    /// The first object class of a path.
    pub(crate) fn object_at(&self, path: &[u8]) -> Option<ClassNo>
        ensures { result ≡ number_at (position (λ (k : ObjectClass). bytes_eq k.path path.now)
            self.now.object_classes) }
    {
        self.draft.object_at(path)
    }

    /// The first interaction class of a path.
    pub(crate) fn interaction_at(&self, path: &[u8]) -> Option<ClassNo>
        ensures { result ≡ number_at (position (λ (k : InteractionClass). bytes_eq k.path path.now)
            self.now.interaction_classes) }
    {
        self.draft.interaction_at(path)
    }

    /// The first attribute of a name among those of some classes.
    pub(crate) fn attribute_among(&self, classes: &[ClassNo], name: &[u8]) -> Option<AttributeNo>
        ensures { result
            ≡ number_at (position (λ (a : Attribute). contains_number a.class classes.now &&
            bytes_eq a.name name.now) self.now.attributes) }
    {
        self.draft.attribute_among(classes, name)
    }

    /// The first parameter of a name among those of some classes.
    pub(crate) fn parameter_among(&self, classes: &[ClassNo], name: &[u8]) -> Option<ParameterNo>
        ensures { result
            ≡ number_at (position (λ (p : Parameter). contains_number p.class classes.now &&
            bytes_eq p.name name.now) self.now.parameters) }
    {
        self.draft.parameter_among(classes, name)
    }
}

impl PartialEq for Catalogue {
    ghost eq = { eq_of_both (on (λ t. t.object_classes) ⟦<List<ObjectClass> as PartialEq>⟧.eq)
        (eq_of_both (on (λ t. t.interaction_classes) ⟦<List<InteractionClass> as PartialEq>⟧.eq)
        (eq_of_both (on (λ t. t.attributes) ⟦<List<Attribute> as PartialEq>⟧.eq)
        (on (λ t. t.parameters) ⟦<List<Parameter> as PartialEq>⟧.eq))) };

    ghost laws = { partial_equiv_from_equiv
        (and_equiv (on_equiv (λ t. t.object_classes) (lists_equiv object_class_laws))
        (and_equiv (on_equiv (λ t. t.interaction_classes) (lists_equiv interaction_class_laws))
        (and_equiv (on_equiv (λ t. t.attributes) (lists_equiv attribute_laws))
        (on_equiv (λ t. t.parameters) (lists_equiv parameter_laws))))) };

    fn eq(&self, other: &Catalogue) -> bool {
        self.object_classes() == other.object_classes()
            && self.interaction_classes() == other.interaction_classes()
            && self.attributes() == other.attributes()
            && self.parameters() == other.parameters()
    }
}

impl Eq for Catalogue {
    ghost laws = { and_equiv (on_equiv (λ t. t.object_classes) (lists_equiv object_class_laws))
        (and_equiv (on_equiv (λ t. t.interaction_classes) (lists_equiv interaction_class_laws))
        (and_equiv (on_equiv (λ t. t.attributes) (lists_equiv attribute_laws))
        (on_equiv (λ t. t.parameters) (lists_equiv parameter_laws)))) };
}

impl Clone for Catalogue {
    ghost is_clone = { λ c d. d ≡ c };

    fn clone(&self) -> Result<Catalogue, AllocError> {
        Ok(Catalogue {
            draft: self.draft.clone()?,
        })
    }
}

impl Plain for Catalogue {
    ghost use Rattle.hla_catalogue.specs.contracts.declared.ObjectClassPlain.TheImpl.Laws.{lists-law as same_object_classes};
    ghost use Rattle.hla_catalogue.specs.contracts.declared.InteractionClassPlain.TheImpl.Laws.{lists-law as same_interaction_classes};
    ghost use Rattle.hla_catalogue.specs.contracts.declared.AttributePlain.TheImpl.Laws.{lists-law as same_attributes};
    ghost use Rattle.hla_catalogue.specs.contracts.declared.ParameterPlain.TheImpl.Laws.{lists-law as same_parameters};

    ghost exact = { Prim.search (
      rules,
      same_object_classes,
      same_interaction_classes,
      same_attributes,
      same_parameters,
    ) };

    ghost cloned = { Prim.search rules };
}
