//! Looking up names and numbers in a catalogue (HLA 1.3, support services).

ghost use Rattle.hla_base.specs.Limits.{max_classes};
ghost use Rattle.std.specs.Prelude.{◌≡◌, ◌≤◌, ◌<◌, length, position, slice_get, IfSome};
ghost use Rattle.hla_catalogue.specs.declared.declared.ObjectClass.{ObjectClass};
ghost use Rattle.hla_catalogue.specs.declared.declared.InteractionClass.{InteractionClass};
ghost use Rattle.std.specs.Option.{option_copied};
ghost use Rattle.hla_catalogue.specs.Lookup.{item_numbered, number_at, ends_with_name, contains_number, object_class_named, interaction_class_named, attribute_named, parameter_named, object_path, interaction_path, object_lineage, interaction_lineage, attribute_name, parameter_name, is_object_class, is_interaction_class, has_attribute, has_parameter, attribute_order, interaction_order, deletion_privilege};

use crate::catalogue::Catalogue;
use crate::declared::{Attribute, InteractionClass, ObjectClass, Order, Parameter};
use crate::draft::Draft;
use crate::names::number_of;
use hla_base::{AttributeNo, ClassNo, ParameterNo};

/// The item of a number; numbers count from 1.
pub(crate) fn item_numbered<T>(items: &[T], number: u32) -> Option<&T>
    ensures { option_copied result ≡ item_numbered items.now number }
{
    if number == 0 {
        None
    } else {
        items.get(number as usize - 1)
    }
}

/// Whether a path ends with a dot and the name.
fn ends_with_name(path: &[u8], name: &[u8]) -> bool
    ensures { result ≡ ends_with_name path.now name.now }
{
    if name.len() < path.len() {
        let (_, end) = path.split_at(path.len() - name.len() - 1);
        end[0] == b'.' && &end[1..] == name
    } else {
        false
    }
}

impl Draft {
    /// The path of an object class; empty where no object class has the number.
    pub fn object_path(&self, class: ClassNo) -> &[u8]
        ensures { result.now ≡ object_path self.now class }
    {
        match item_numbered(self.object_classes(), class) {
            Some(outer) => outer.path.as_slice(),
            None => &[],
        }
    }

    /// The path of an interaction class; empty where no interaction class has the number.
    pub fn interaction_path(&self, class: ClassNo) -> &[u8]
        ensures { result.now ≡ interaction_path self.now class }
    {
        match item_numbered(self.interaction_classes(), class) {
            Some(outer) => outer.path.as_slice(),
            None => &[],
        }
    }
}

impl Catalogue {
    /// The object class of a number.
    fn object(&self, class: ClassNo) -> Option<&ObjectClass>
        ensures { option_copied result ≡ item_numbered self.now.object_classes class }
    {
        item_numbered(self.object_classes(), class)
    }

    /// The interaction class of a number.
    fn interaction(&self, class: ClassNo) -> Option<&InteractionClass>
        ensures { option_copied result ≡ item_numbered self.now.interaction_classes class }
    {
        item_numbered(self.interaction_classes(), class)
    }

    /// The attribute of a number.
    fn attribute_at(&self, attribute: AttributeNo) -> Option<&Attribute>
        ensures { option_copied result ≡ item_numbered self.now.attributes attribute }
    {
        item_numbered(self.attributes(), attribute)
    }

    /// The parameter of a number.
    fn parameter_at(&self, parameter: ParameterNo) -> Option<&Parameter>
        ensures { option_copied result ≡ item_numbered self.now.parameters parameter }
    {
        item_numbered(self.parameters(), parameter)
    }

    /// Whether there is an object class of this number.
    pub fn is_object_class(&self, class: ClassNo) -> bool
        ensures { result ≡ is_object_class self.now class }
    {
        self.object(class).is_some()
    }

    /// Whether there is an interaction class of this number.
    pub fn is_interaction_class(&self, class: ClassNo) -> bool
        ensures { result ≡ is_interaction_class self.now class }
    {
        self.interaction(class).is_some()
    }

    /// The names of an object class and of those around it, outermost first, joined by dots; empty where no object class
    /// has the number.
    pub fn object_path(&self, class: ClassNo) -> &[u8]
        ensures { result.now ≡ object_path self.now class }
    {
        match self.object(class) {
            Some(class) => class.path.as_slice(),
            None => &[],
        }
    }

    /// The names of an interaction class and of those around it, outermost first, joined by dots; empty where no
    /// interaction class has the number.
    pub fn interaction_path(&self, class: ClassNo) -> &[u8]
        ensures { result.now ≡ interaction_path self.now class }
    {
        match self.interaction(class) {
            Some(interaction) => interaction.path.as_slice(),
            None => &[],
        }
    }

    /// The number of an object class and of those around it, innermost first; empty where no object class has the number.
    pub fn object_lineage(&self, class: ClassNo) -> &[ClassNo]
        ensures { result.now ≡ object_lineage self.now class }
    {
        match self.object(class) {
            Some(class) => class.lineage.as_slice(),
            None => &[],
        }
    }

    /// The number of an interaction class and of those around it, innermost first; empty where no interaction class has
    /// the number.
    pub fn interaction_lineage(&self, class: ClassNo) -> &[ClassNo]
        ensures { result.now ≡ interaction_lineage self.now class }
    {
        match self.interaction(class) {
            Some(interaction) => interaction.lineage.as_slice(),
            None => &[],
        }
    }

    /// The name of an attribute; empty where no attribute has the number.
    pub fn attribute_name(&self, attribute: AttributeNo) -> &[u8]
        ensures { result.now ≡ attribute_name self.now attribute }
    {
        match self.attribute_at(attribute) {
            Some(attribute) => attribute.name.as_slice(),
            None => &[],
        }
    }

    /// The name of a parameter; empty where no parameter has the number.
    pub fn parameter_name(&self, parameter: ParameterNo) -> &[u8]
        ensures { result.now ≡ parameter_name self.now parameter }
    {
        match self.parameter_at(parameter) {
            Some(parameter) => parameter.name.as_slice(),
            None => &[],
        }
    }

    /// Whether a class declares or inherits an attribute.
    pub fn has_attribute(&self, class: ClassNo, attribute: AttributeNo) -> bool
        ensures { result ≡ has_attribute self.now class attribute }
    {
        match self.attribute_at(attribute) {
            Some(attribute) => self.object_lineage(class).contains(&attribute.class),
            None => false,
        }
    }

    /// Whether a class declares or inherits a parameter.
    pub fn has_parameter(&self, class: ClassNo, parameter: ParameterNo) -> bool
        ensures { result ≡ has_parameter self.now class parameter }
    {
        match self.parameter_at(parameter) {
            Some(parameter) => self.interaction_lineage(class).contains(&parameter.class),
            None => false,
        }
    }

    /// The order of the updates of an attribute; receive order where no attribute has the number.
    pub fn attribute_order(&self, attribute: AttributeNo) -> Order
        ensures { result ≡ attribute_order self.now attribute }
    {
        match self.attribute_at(attribute) {
            Some(attribute) => attribute.order,
            None => Order::Receive,
        }
    }

    /// The order of the interactions of a class; receive order where no interaction class has the number.
    pub fn interaction_order(&self, class: ClassNo) -> Order
        ensures { result ≡ interaction_order self.now class }
    {
        match self.interaction(class) {
            Some(interaction) => interaction.order,
            None => Order::Receive,
        }
    }

    /// The attribute of a class whose order is that of the deletions of its objects, `privilegeToDelete`; `None` where the
    /// class has none.
    pub fn deletion_privilege(&self, class: ClassNo) -> Option<AttributeNo>
        ensures { result ≡ deletion_privilege self.now class }
    {
        self.attribute(class, b"privilegeToDelete")
    }

    /// The first object class whose path ends with a dot and the name.
    fn object_below(&self, name: &[u8]) -> Option<usize>
        ensures small { IfSome result (λ k. k < max_classes) }
        ensures first { result ≡ position (λ (k : ObjectClass). ends_with_name k.path name.now)
            self.now.object_classes }
    {
        self.object_classes()
            .iter()
            .position(|k| ends_with_name(k.path.as_slice(), name))
    }

    /// The first interaction class whose path ends with a dot and the name.
    fn interaction_below(&self, name: &[u8]) -> Option<usize>
        ensures small { IfSome result (λ k. k < max_classes) }
        ensures first { result ≡ position (λ (k : InteractionClass). ends_with_name k.path name.now)
            self.now.interaction_classes }
    {
        self.interaction_classes()
            .iter()
            .position(|k| ends_with_name(k.path.as_slice(), name))
    }

    /// The first object class whose path is the name, or else the first whose path ends with a dot and the name. A whole
    /// path is found without going over all classes.
    pub fn object_class(&self, name: &[u8]) -> Option<ClassNo>
        ensures { result ≡ object_class_named self.now name.now }
    {
        match self.object_at(name) {
            Some(class) => Some(class),
            None => number_of(self.object_below(name)),
        }
    }

    /// The first interaction class whose path is the name, or else the first whose path ends with a dot and the name. A
    /// whole path is found without going over all classes.
    pub fn interaction_class(&self, name: &[u8]) -> Option<ClassNo>
        ensures { result ≡ interaction_class_named self.now name.now }
    {
        match self.interaction_at(name) {
            Some(class) => Some(class),
            None => number_of(self.interaction_below(name)),
        }
    }

    /// The attribute of this name that a class declares or inherits; of several the one with the lowest number.
    pub fn attribute(&self, class: ClassNo, name: &[u8]) -> Option<AttributeNo>
        ensures { result ≡ attribute_named self.now class name.now }
    {
        self.attribute_among(self.object_lineage(class), name)
    }

    /// The parameter of this name that a class declares or inherits; of several the one with the lowest number.
    pub fn parameter(&self, class: ClassNo, name: &[u8]) -> Option<ParameterNo>
        ensures { result ≡ parameter_named self.now class name.now }
    {
        self.parameter_among(self.interaction_lineage(class), name)
    }
}
