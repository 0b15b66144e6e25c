//! One step of reading for each token.

ghost use Rattle.std.specs.Prelude.{◌≡◌, ◌∷◌, ◌+◌, Ok, Err, IfOk, IfErr, drop, length};
ghost use Rattle.hla_fed_file.specs.Reading.{Moves, with_paren_opened, with_paren_closed, with_attribute_declared, with_class_declared, head_in, after_open, with_class_left, with_list_closed, place_behind, after_close, after_name_at, after_name, place_behind_keyword, with_place, attribute_option, class_option, after_word, after_quoted, after_token, start, ending_of};
ghost use Rattle.hla_catalogue.specs.Declaring.{innermost, extended_path};
ghost use Rattle.hla_fed_file.specs.Keywords.{keyword_of};
ghost use Rattle.hla_fed_file.specs.Tokens.{view};

use crate::fault::{FedFault, FedFaultKind};
use crate::lexer::Token;
use crate::place::{Head, Keyword, Lists, NameOf, OptionStage, Place, Within, meaning};
use hla_base::{
    ClassNo, Fault, List, MAX_ATTRIBUTES, MAX_CLASSES, MAX_FED_NESTING, MAX_NAME, MAX_PARAMETERS,
    Plain,
};
use hla_catalogue::{Attribute, Draft, InteractionClass, ObjectClass, Order, Parameter, Transport};
use std::alloc::Global;

/// What was read so far.
#[derive(Drop)]
pub struct Reader {
    pub place: Place,
    /// How many parentheses are open.
    pub depth: u32,
    /// The open classes, innermost first.
    pub lineage: List<ClassNo>,
    /// The attribute that is being read, unless it is ignored.
    pub attribute: Option<Attribute>,
    /// The interaction class whose options are being read.
    pub class: Option<InteractionClass>,
    pub(crate) catalogue: Draft,
}

/// Whose keyword must stand behind a parenthesis in a list of lists.
fn head_in(lists: Lists) -> Head
    ensures { result ≡ head_in lists }
{
    match lists {
        Lists::Parts => Head::Part,
        Lists::ObjectClasses => Head::ObjectClass,
        Lists::ObjectItems => Head::ObjectItem,
        Lists::InteractionClasses => Head::InteractionClass,
        Lists::InteractionItems => Head::InteractionItem,
    }
}

/// The place behind an ignored list.
fn place_behind(within: Within) -> Place
    ensures { result ≡ place_behind within }
{
    match within {
        Within::File => Place::Between(Lists::Parts),
        Within::ObjectClass => Place::Between(Lists::ObjectItems),
        Within::Attribute => Place::AttributeEnd,
        Within::InteractionClass => Place::Between(Lists::InteractionItems),
        Within::Parameter => Place::ParameterEnd,
    }
}

/// The place behind a keyword.
fn place_behind_keyword(head: Head, depth: u32, keyword: Option<Keyword>) -> Option<Place>
    ensures { result ≡ place_behind_keyword head depth keyword }
{
    match (head, keyword?) {
        (Head::File, Keyword::Fed) => Some(Place::Between(Lists::Parts)),
        (Head::Part, Keyword::Label) => Some(Place::Name(NameOf::Label)),
        (Head::Part, Keyword::Ignored) => Some(Place::Ignored(Within::File, depth)),
        (Head::Part, Keyword::Objects) => Some(Place::Between(Lists::ObjectClasses)),
        (Head::Part, Keyword::Interactions) => Some(Place::Between(Lists::InteractionClasses)),
        (Head::ObjectClass | Head::ObjectItem, Keyword::Class) => Some(Place::Name(
            NameOf::ObjectClass,
        )),
        (Head::ObjectItem, Keyword::Attribute) => Some(Place::Name(NameOf::Attribute)),
        (Head::ObjectItem, Keyword::SecLevel) => Some(Place::Ignored(Within::ObjectClass, depth)),
        (Head::AttributeItem, Keyword::SecLevel) => Some(Place::Ignored(Within::Attribute, depth)),
        (Head::InteractionClass | Head::InteractionItem, Keyword::Class) => Some(Place::Name(
            NameOf::InteractionClass,
        )),
        (Head::InteractionItem, Keyword::Parameter) => Some(Place::Name(NameOf::Parameter)),
        (Head::InteractionItem, Keyword::SecLevel) => Some(Place::Ignored(
            Within::InteractionClass,
            depth,
        )),
        (Head::ParameterItem, Keyword::SecLevel) => Some(Place::Ignored(Within::Parameter, depth)),
        _ => None,
    }
}

/// The number of the innermost class, or 0.
fn innermost(lineage: &[ClassNo]) -> ClassNo
    ensures { result ≡ innermost lineage.now }
{
    match lineage.split_first() {
        Some((class, _)) => *class,
        None => 0,
    }
}

/// A path and one more name, with a dot between them; or that a growth was refused.
fn extended_path(alloc: Global, path: &[u8], name: &[u8]) -> Result<List<u8>, FedFaultKind>
    ensures ok { IfOk result (λ all. all ≡ extended_path path.now name.now) }
    ensures err { IfErr result (λ e. e ≡ FedFaultKind.OutOfMemory) }
{
    let mut all = Vec::new(alloc);
    if all.extend_from_slice(path).is_err() {
        return Err(FedFaultKind::OutOfMemory);
    }
    if !path.is_empty() && all.push(b'.').is_err() {
        return Err(FedFaultKind::OutOfMemory);
    }
    if all.extend_from_slice(name).is_err() {
        return Err(FedFaultKind::OutOfMemory);
    }
    Ok(List::from_vec(all))
}

/// The number of a class and the classes around it; or that a growth was refused.
fn lineage_of(
    alloc: Global,
    class: ClassNo,
    around: &[ClassNo],
) -> Result<List<ClassNo>, FedFaultKind>
    ensures ok { IfOk result (λ all. all ≡ class ∷ around.now) }
    ensures err { IfErr result (λ e. e ≡ FedFaultKind.OutOfMemory) }
{
    let mut all = Vec::new(alloc);
    if all.push(class).is_err() || all.extend_from_slice(around).is_err() {
        return Err(FedFaultKind::OutOfMemory);
    }
    Ok(List::from_vec(all))
}

/// The classes around the innermost one; or that a growth was refused.
fn classes_around(alloc: Global, lineage: &[ClassNo]) -> Result<List<ClassNo>, FedFaultKind>
    ensures ok { IfOk result (λ all. all ≡ drop 1 lineage.now) }
    ensures err { IfErr result (λ e. e ≡ FedFaultKind.OutOfMemory) }
{
    let rest = match lineage.split_first() {
        Some((_, rest)) => rest,
        None => lineage,
    };
    match Vec::from_slice(alloc, rest) {
        Ok(rest) => Ok(List::from_vec(rest)),
        Err(_) => Err(FedFaultKind::OutOfMemory),
    }
}

impl Reader {
    /// Before the first token.
    pub fn new(alloc: Global) -> Reader
        ensures { result ≡ start }
    {
        Reader {
            place: Place::Start,
            depth: 0,
            lineage: List::new(alloc),
            attribute: None,
            class: None,
            catalogue: Draft::new(alloc),
        }
    }

    /// Goes behind an opening parenthesis that may stand here. `TooLarge` where `MAX_FED_NESTING` are open.
    fn deepen(&mut self, place: Place) -> Result<(), FedFaultKind>
        ensures { Moves result (with_paren_opened place self.old) self.new }
    {
        if self.depth >= MAX_FED_NESTING {
            return Err(FedFaultKind::TooLarge);
        }
        self.place = place;
        self.depth += 1;
        Ok(())
    }

    /// Goes behind a closing parenthesis.
    fn rise(&mut self, place: Place)
        ensures { self.new ≡ with_paren_closed place self.old }
    {
        self.place = place;
        self.depth = self.depth.saturating_sub(1);
    }

    /// Declares the attribute that was read, unless it is ignored. `OutOfMemory` where a growth was refused, or the limit
    /// is reached, which was tested at its name.
    fn declare_attribute(&mut self) -> Result<(), FedFaultKind>
        ensures { Moves result (Ok (with_attribute_declared self.old)) self.new }
    {
        if let Some(attribute) = self.attribute.take() {
            // Its name was refused where there was no room.
            let full = self.catalogue.attributes().len() >= MAX_ATTRIBUTES;
            if full || self.catalogue.add_attribute(attribute).is_err() {
                return Err(FedFaultKind::OutOfMemory);
            }
        }
        Ok(())
    }

    /// Declares the interaction class whose options end, and goes on in it. `OutOfMemory` where a growth was refused, or
    /// the limit is reached, which was tested at its name.
    fn declare_class(&mut self) -> Result<(), FedFaultKind>
        ensures { Moves result (Ok (with_class_declared self.old)) self.new }
    {
        if let Some(class) = self.class.take() {
            let Ok(lineage) = class.lineage.copy() else {
                return Err(FedFaultKind::OutOfMemory);
            };
            // Its name was refused where there was no room.
            let full = self.catalogue.interaction_classes().len() >= MAX_CLASSES;
            if full || self.catalogue.add_interaction_class(class).is_err() {
                return Err(FedFaultKind::OutOfMemory);
            }
            self.place = Place::Between(Lists::InteractionItems);
            self.lineage = lineage;
        }
        Ok(())
    }

    /// Takes an opening parenthesis. `UnknownKeyword`, `ExpectedName`, `ExpectedClose` or `TrailingText` where another
    /// token must stand; `TooLarge` where `MAX_FED_NESTING` are open; `OutOfMemory` as of `declare_class`.
    #[tactic(auto, unfolding(crate::specs::Reading::after_open))]
    fn open(&mut self) -> Result<(), FedFaultKind>
        ensures { Moves result (after_open self.old) self.new }
    {
        match self.place {
            Place::Start => self.deepen(Place::Head(Head::File)),
            Place::Head(_) => Err(FedFaultKind::UnknownKeyword),
            Place::Name(_) => Err(FedFaultKind::ExpectedName),
            Place::Between(lists) => self.deepen(Place::Head(head_in(lists))),
            Place::LabelEnd => Err(FedFaultKind::ExpectedClose),
            Place::AttributeOptions(_) | Place::AttributeEnd => self.deepen(Place::Head(
                Head::AttributeItem,
            )),
            Place::ClassOptions(_) => {
                self.declare_class()?;
                self.deepen(Place::Head(Head::InteractionItem))
            }
            Place::ParameterEnd => self.deepen(Place::Head(Head::ParameterItem)),
            Place::Ignored(within, depth) => self.deepen(Place::Ignored(within, depth)),
            Place::Done => Err(FedFaultKind::TrailingText),
        }
    }

    /// Leaves a class, for the class around it or for the list of classes. `OutOfMemory` where a growth was refused.
    fn leave_class(&mut self, alloc: Global, top: Lists, inner: Lists) -> Result<(), FedFaultKind>
        ensures { Moves result (Ok (with_class_left top inner self.old)) self.new }
    {
        self.lineage = classes_around(alloc, self.lineage.as_slice())?;
        let lists = if self.lineage.is_empty() { top } else { inner };
        self.rise(Place::Between(lists));
        Ok(())
    }

    /// Ends a list of lists. `OutOfMemory` where a growth was refused.
    fn close_list(&mut self, alloc: Global, lists: Lists) -> Result<(), FedFaultKind>
        ensures { Moves result (Ok (with_list_closed lists self.old)) self.new }
    {
        match lists {
            Lists::Parts => self.rise(Place::Done),
            Lists::ObjectClasses | Lists::InteractionClasses => self.rise(Place::Between(
                Lists::Parts,
            )),
            Lists::ObjectItems => {
                return self.leave_class(alloc, Lists::ObjectClasses, Lists::ObjectItems);
            }
            Lists::InteractionItems => {
                return self.leave_class(alloc, Lists::InteractionClasses, Lists::InteractionItems);
            }
        }
        Ok(())
    }

    /// Takes a closing parenthesis. `ExpectedOpen`, `UnknownKeyword`, `ExpectedName` or `TrailingText` where another token
    /// must stand; `OutOfMemory` as of `declare_attribute`, `declare_class` and `close_list`.
    #[tactic(auto, unfolding(crate::specs::Reading::after_close))]
    fn close(&mut self, alloc: Global) -> Result<(), FedFaultKind>
        ensures { Moves result (after_close self.old) self.new }
    {
        match self.place {
            Place::Start => return Err(FedFaultKind::ExpectedOpen),
            Place::Head(_) => return Err(FedFaultKind::UnknownKeyword),
            Place::Name(_) => return Err(FedFaultKind::ExpectedName),
            Place::Between(lists) => return self.close_list(alloc, lists),
            Place::LabelEnd => self.rise(Place::Between(Lists::Parts)),
            Place::AttributeOptions(_) | Place::AttributeEnd => {
                self.declare_attribute()?;
                self.rise(Place::Between(Lists::ObjectItems));
            }
            Place::ClassOptions(_) => {
                self.declare_class()?;
                return self.close_list(alloc, Lists::InteractionItems);
            }
            Place::ParameterEnd => self.rise(Place::Between(Lists::InteractionItems)),
            Place::Ignored(within, depth) if self.depth == depth => self.rise(place_behind(within)),
            Place::Ignored(within, depth) => self.rise(Place::Ignored(within, depth)),
            Place::Done => return Err(FedFaultKind::TrailingText),
        }
        Ok(())
    }

    /// Takes the name of an object class. `TooLarge` where there are `MAX_CLASSES` of them; `OutOfMemory` where a growth
    /// was refused.
    fn open_object_class(&mut self, alloc: Global, name: &[u8]) -> Result<(), FedFaultKind>
        ensures { Moves result (after_name_at NameOf.ObjectClass self.old name.now) self.new }
    {
        let count = self.catalogue.object_classes().len();
        if count >= MAX_CLASSES {
            return Err(FedFaultKind::TooLarge);
        }
        let outer = innermost(self.lineage.as_slice());
        let path = extended_path(alloc, self.catalogue.object_path(outer), name)?;
        let lineage = lineage_of(alloc, count as u32 + 1, self.lineage.as_slice())?;
        let Ok(inner) = lineage.copy() else {
            return Err(FedFaultKind::OutOfMemory);
        };
        if self
            .catalogue
            .add_object_class(ObjectClass { path, lineage })
            .is_err()
        {
            return Err(FedFaultKind::OutOfMemory);
        }
        self.lineage = inner;
        self.place = Place::Between(Lists::ObjectItems);
        Ok(())
    }

    /// Takes the name of an interaction class. `TooLarge` where there are `MAX_CLASSES` of them; `OutOfMemory` where a
    /// growth was refused.
    fn open_interaction_class(&mut self, alloc: Global, name: &[u8]) -> Result<(), FedFaultKind>
        ensures { Moves result (after_name_at NameOf.InteractionClass self.old name.now) self.new }
    {
        let count = self.catalogue.interaction_classes().len();
        if count >= MAX_CLASSES {
            return Err(FedFaultKind::TooLarge);
        }
        let outer = innermost(self.lineage.as_slice());
        let path = extended_path(alloc, self.catalogue.interaction_path(outer), name)?;
        let lineage = lineage_of(alloc, count as u32 + 1, self.lineage.as_slice())?;
        self.class = Some(InteractionClass {
            path,
            lineage,
            transport: Transport::Reliable,
            order: Order::Receive,
        });
        self.place = Place::ClassOptions(OptionStage::Named);
        Ok(())
    }

    /// Takes the name of an attribute. Where no open class has one of that name: `TooLarge` where there are
    /// `MAX_ATTRIBUTES` in all; `OutOfMemory` where a growth was refused.
    fn open_attribute(&mut self, alloc: Global, name: &[u8]) -> Result<(), FedFaultKind>
        ensures { Moves result (after_name_at NameOf.Attribute self.old name.now) self.new }
    {
        if self
            .catalogue
            .attribute_among(self.lineage.as_slice(), name)
            .is_some()
        {
            self.attribute = None;
        } else {
            if self.catalogue.attributes().len() >= MAX_ATTRIBUTES {
                return Err(FedFaultKind::TooLarge);
            }
            let class = innermost(self.lineage.as_slice());
            let Ok(name) = Vec::from_slice(alloc, name) else {
                return Err(FedFaultKind::OutOfMemory);
            };
            self.attribute = Some(Attribute {
                class,
                name: List::from_vec(name),
                transport: Transport::Reliable,
                order: Order::Receive,
            });
        }
        self.place = Place::AttributeOptions(OptionStage::Named);
        Ok(())
    }

    /// Takes the name of a parameter. Where no open class has one of that name: `TooLarge` where there are `MAX_PARAMETERS`
    /// in all; `OutOfMemory` where a growth was refused.
    fn open_parameter(&mut self, alloc: Global, name: &[u8]) -> Result<(), FedFaultKind>
        ensures { Moves result (after_name_at NameOf.Parameter self.old name.now) self.new }
    {
        if self
            .catalogue
            .parameter_among(self.lineage.as_slice(), name)
            .is_none()
        {
            if self.catalogue.parameters().len() >= MAX_PARAMETERS {
                return Err(FedFaultKind::TooLarge);
            }
            let class = innermost(self.lineage.as_slice());
            let Ok(name) = Vec::from_slice(alloc, name) else {
                return Err(FedFaultKind::OutOfMemory);
            };
            let name = List::from_vec(name);
            if self
                .catalogue
                .add_parameter(Parameter { class, name })
                .is_err()
            {
                return Err(FedFaultKind::OutOfMemory);
            }
        }
        self.place = Place::ParameterEnd;
        Ok(())
    }

    /// Takes a name where one must stand. `ExpectedName` where it is empty; `TooLarge` where it has more than `MAX_NAME`
    /// bytes; else the fault of what it opens: `TooLarge` or `OutOfMemory`.
    #[tactic(auto, unfolding(crate::specs::Reading::after_name))]
    fn take_name(&mut self, alloc: Global, naming: NameOf, name: &[u8]) -> Result<(), FedFaultKind>
        ensures { Moves result (after_name naming self.old name.now) self.new }
    {
        if name.is_empty() {
            return Err(FedFaultKind::ExpectedName);
        }
        if name.len() > MAX_NAME {
            return Err(FedFaultKind::TooLarge);
        }
        match naming {
            NameOf::Label => {
                self.place = Place::LabelEnd;
                Ok(())
            }
            NameOf::ObjectClass => self.open_object_class(alloc, name),
            NameOf::Attribute => self.open_attribute(alloc, name),
            NameOf::InteractionClass => self.open_interaction_class(alloc, name),
            NameOf::Parameter => self.open_parameter(alloc, name),
        }
    }

    /// Takes a keyword behind an opening parenthesis. `UnknownKeyword` where it is none that may stand there.
    fn begin(&mut self, head: Head, word: &[u8]) -> Result<(), FedFaultKind>
        ensures { Moves result (with_place (place_behind_keyword head self.old.depth
            (keyword_of word.now)) self.old) self.new }
    {
        match place_behind_keyword(head, self.depth, meaning(word)) {
            Some(place) => {
                self.place = place;
                Ok(())
            }
            None => Err(FedFaultKind::UnknownKeyword),
        }
    }

    /// Takes a word in the options of an attribute. `UnknownKeyword` where it is none that may stand there.
    fn attribute_option(&mut self, stage: OptionStage, word: &[u8]) -> Result<(), FedFaultKind>
        ensures { Moves result (attribute_option stage (keyword_of word.now) self.old) self.new }
    {
        if stage == OptionStage::Ordered {
            self.place = Place::AttributeEnd;
            return Ok(());
        }
        match (stage, meaning(word)) {
            (OptionStage::Named, Some(Keyword::Carried(transport))) => {
                if let Some(attribute) = &mut self.attribute {
                    attribute.transport = transport;
                }
                self.place = Place::AttributeOptions(OptionStage::Carried);
                Ok(())
            }
            (_, Some(Keyword::Ordered(order))) => {
                if let Some(attribute) = &mut self.attribute {
                    attribute.order = order;
                }
                self.place = Place::AttributeOptions(OptionStage::Ordered);
                Ok(())
            }
            _ => Err(FedFaultKind::UnknownKeyword),
        }
    }

    /// Takes a word in the options of an interaction class. `UnknownKeyword` where it is none that may stand there;
    /// `OutOfMemory` as of `declare_class`.
    fn class_option(&mut self, stage: OptionStage, word: &[u8]) -> Result<(), FedFaultKind>
        ensures { Moves result (class_option stage (keyword_of word.now) self.old) self.new }
    {
        if stage == OptionStage::Ordered {
            return self.declare_class();
        }
        match (stage, meaning(word)) {
            (OptionStage::Named, Some(Keyword::Carried(transport))) => {
                if let Some(class) = &mut self.class {
                    class.transport = transport;
                }
                self.place = Place::ClassOptions(OptionStage::Carried);
                Ok(())
            }
            (_, Some(Keyword::Ordered(order))) => {
                if let Some(class) = &mut self.class {
                    class.order = order;
                }
                self.place = Place::ClassOptions(OptionStage::Ordered);
                Ok(())
            }
            _ => Err(FedFaultKind::UnknownKeyword),
        }
    }

    /// Takes a bare word. `ExpectedOpen`, `ExpectedClose` or `TrailingText` where another token must stand; else the fault
    /// of `begin`, `take_name`, `attribute_option` or `class_option`, which takes it.
    #[tactic(auto, unfolding(crate::specs::Reading::after_word))]
    fn take_word(&mut self, alloc: Global, word: &[u8]) -> Result<(), FedFaultKind>
        ensures { Moves result (after_word self.old word.now) self.new }
    {
        match self.place {
            Place::Ignored(_, _) => Ok(()),
            Place::Head(head) => self.begin(head, word),
            Place::Name(naming) => self.take_name(alloc, naming, word),
            Place::AttributeOptions(stage) => self.attribute_option(stage, word),
            Place::ClassOptions(stage) => self.class_option(stage, word),
            Place::Start | Place::Between(_) => Err(FedFaultKind::ExpectedOpen),
            Place::LabelEnd | Place::AttributeEnd | Place::ParameterEnd => Err(
                FedFaultKind::ExpectedClose,
            ),
            Place::Done => Err(FedFaultKind::TrailingText),
        }
    }

    /// Takes a quoted name. `ExpectedOpen`, `ExpectedClose`, `UnknownKeyword` or `TrailingText` where another token must
    /// stand; else the fault of `take_name` or `declare_class`.
    #[tactic(auto, unfolding(crate::specs::Reading::after_quoted))]
    fn take_quoted_name(&mut self, alloc: Global, name: &[u8]) -> Result<(), FedFaultKind>
        ensures { Moves result (after_quoted self.old name.now) self.new }
    {
        match self.place {
            Place::Ignored(_, _) => Ok(()),
            Place::Name(naming) => self.take_name(alloc, naming, name),
            Place::AttributeOptions(OptionStage::Ordered) => {
                self.place = Place::AttributeEnd;
                Ok(())
            }
            Place::ClassOptions(OptionStage::Ordered) => self.declare_class(),
            Place::Head(_) => Err(FedFaultKind::UnknownKeyword),
            Place::Start | Place::Between(_) | Place::ClassOptions(_) => Err(
                FedFaultKind::ExpectedOpen,
            ),
            Place::LabelEnd
            | Place::AttributeOptions(_)
            | Place::AttributeEnd
            | Place::ParameterEnd => { Err(FedFaultKind::ExpectedClose) }
            Place::Done => Err(FedFaultKind::TrailingText),
        }
    }

    /// Takes the next token, or tells what is wrong with it where it stands: `BadByte` of a token that is cut wrongly, and
    /// `UnexpectedEnd` of one that is not closed and of the end; `ExpectedOpen`, `ExpectedClose`, `ExpectedName`,
    /// `UnknownKeyword` or `TrailingText` where another token must stand; `TooLarge` past a limit; `OutOfMemory` where a
    /// growth was refused. What was read so far is left open then.
    pub fn take(&mut self, alloc: Global, token: Token<'_>) -> Result<(), FedFaultKind>
        ensures { Moves result (after_token self.old (view token.entry)) self.new }
    {
        match token {
            Token::Open => self.open(),
            Token::Close => self.close(alloc),
            Token::Word(word) => self.take_word(alloc, word),
            Token::Quoted(name) => self.take_quoted_name(alloc, name),
            Token::Bad => Err(FedFaultKind::BadByte),
            Token::Unclosed | Token::End => Err(FedFaultKind::UnexpectedEnd),
        }
    }

    /// What was read, where the text ends on a line; `UnexpectedEnd` on that line where the FED list is not closed.
    pub(crate) fn finish(self, line: usize) -> Result<Draft, FedFault>
        ensures { result ≡ ending_of line self }
    {
        if matches!(self.place, Place::Done) {
            Ok(self.catalogue)
        } else {
            Err(FedFault {
                line,
                kind: FedFaultKind::UnexpectedEnd,
            })
        }
    }
}
