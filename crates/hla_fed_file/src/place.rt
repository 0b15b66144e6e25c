//! The words and the places of a FED text.

ghost use Rattle.std.specs.Prelude.{◌≡◌};
ghost use Rattle.hla_fed_file.specs.Keywords.{keyword_of, is_spelling_of};

use hla_catalogue::{Order, Transport};

/// What a bare word means where a keyword may stand.
#[derive(Clone, Copy, Debug, PartialEq, Eq)]
pub enum Keyword {
    Fed,
    /// `Federation` or `FEDversion`.
    Label,
    /// `federate` or `spaces`.
    Ignored,
    Objects,
    Interactions,
    Class,
    Attribute,
    Parameter,
    SecLevel,
    Carried(Transport),
    Ordered(Order),
}

/// Whose keyword must stand behind an opening parenthesis.
#[derive(Clone, Copy, Debug, PartialEq, Eq)]
pub enum Head {
    File,
    Part,
    ObjectClass,
    ObjectItem,
    AttributeItem,
    InteractionClass,
    InteractionItem,
    ParameterItem,
}

/// Whose name must stand.
#[derive(Clone, Copy, Debug, PartialEq, Eq)]
pub enum NameOf {
    Label,
    ObjectClass,
    Attribute,
    InteractionClass,
    Parameter,
}

/// A list in which only lists stand.
#[derive(Clone, Copy, Debug, PartialEq, Eq)]
pub enum Lists {
    Parts,
    ObjectClasses,
    ObjectItems,
    InteractionClasses,
    InteractionItems,
}

/// What stands before the place of a transport, an order or a routing space.
#[derive(Clone, Copy, Debug, PartialEq, Eq)]
pub enum OptionStage {
    Named,
    Carried,
    Ordered,
}

/// Where an ignored list stands.
#[derive(Clone, Copy, Debug, PartialEq, Eq)]
pub enum Within {
    File,
    ObjectClass,
    Attribute,
    InteractionClass,
    Parameter,
}

/// A place of a FED text.
#[derive(Clone, Copy, Debug, PartialEq, Eq)]
pub enum Place {
    Start,
    /// Behind an opening parenthesis.
    Head(Head),
    /// Where a name must stand.
    Name(NameOf),
    /// Where a list may begin, or the present one end.
    Between(Lists),
    /// Behind the name of `Federation` or `FEDversion`.
    LabelEnd,
    AttributeOptions(OptionStage),
    AttributeEnd,
    ClassOptions(OptionStage),
    ParameterEnd,
    /// In an ignored list, which ends where so many parentheses are open.
    Ignored(Within, u32),
    /// Behind the FED list.
    Done,
}

/// Whether a word is a keyword, whatever its case. Texts spell most keywords in small letters, as here, and then one comparison
/// tells.
#[inline(always)]
#[tactic(auto, using(crate::proofs::Lexical::SpellingLemmas::same_spelling))]
fn is_spelling_of(word: &[u8], keyword: &[u8]) -> bool
    ensures { result ≡ is_spelling_of word.now keyword.now }
{
    word.len() == keyword.len() && (word == keyword || word.eq_ignore_ascii_case(keyword))
}

/// The meaning of a word, whatever its case.
#[tactic(auto, unfolding(crate::specs::Keywords::keyword_of))]
pub fn meaning(word: &[u8]) -> Option<Keyword>
    ensures { result ≡ keyword_of word.now }
{
    if is_spelling_of(word, b"attribute") {
        Some(Keyword::Attribute)
    } else if is_spelling_of(word, b"parameter") {
        Some(Keyword::Parameter)
    } else if is_spelling_of(word, b"class") {
        Some(Keyword::Class)
    } else if is_spelling_of(word, b"reliable") {
        Some(Keyword::Carried(Transport::Reliable))
    } else if is_spelling_of(word, b"best_effort") {
        Some(Keyword::Carried(Transport::BestEffort))
    } else if is_spelling_of(word, b"receive") {
        Some(Keyword::Ordered(Order::Receive))
    } else if is_spelling_of(word, b"timestamp") {
        Some(Keyword::Ordered(Order::Timestamp))
    } else if is_spelling_of(word, b"sec_level") {
        Some(Keyword::SecLevel)
    } else if is_spelling_of(word, b"objects") {
        Some(Keyword::Objects)
    } else if is_spelling_of(word, b"interactions") {
        Some(Keyword::Interactions)
    } else if is_spelling_of(word, b"federate") || is_spelling_of(word, b"spaces") {
        Some(Keyword::Ignored)
    } else if is_spelling_of(word, b"federation") || is_spelling_of(word, b"fedversion") {
        Some(Keyword::Label)
    } else if is_spelling_of(word, b"fed") {
        Some(Keyword::Fed)
    } else {
        None
    }
}
