//! Types of attributes, alone, in unions and in lists, and the cast of a value to a text by each.

ghost use Rattle.std.specs.Prelude.{◌≡◌, ◌&&◌, false, IfOk, IfErr, Ok};
ghost use Rattle.html_names_core.specs.Texts.{text_view, texts_view};
ghost use Rattle.html_values.specs.Casts.{GivesCast, GivesTexts, shorthand_answer, option_answer, cast, castable, castable_by_any, first_cast, has_presence, item_texts, presence_in, text_answer};
ghost use Rattle.html_values.specs.Types.{inner_view, list, list_type_view, attr_type_view, attr_types_view};
ghost use Rattle.html_values.specs.Values.{value_view, values_view};

use crate::cast::{allowed_text, is_among, join, text_or_empty, without_separator};
use crate::native_type::NativeType;
use crate::text::empty;
use crate::value::Value;
use html_names_core::Refused;
use html_values_css::CastFault;
use std::alloc::{AllocFailed, Global};

/// A type of attribute: the values that it accepts, and the text of each.
#[derive(Debug, Drop)]
#[cycle(attr_type)]
pub enum AttrType {
    /// A Boolean: an attribute that is present or not.
    Presence,
    /// Values of one kind.
    Native(NativeType),
    /// One of these texts.
    Strings(Vec<String>),
    /// The first of these types that accepts the value.
    Union(Vec<AttrType>),
    /// An array, joined into one text.
    List(ListType),
}

/// A type of attribute for arrays, joined into one text by a separator.
#[derive(Debug, Drop)]
#[cycle(attr_type)]
pub struct ListType {
    inner: Box<AttrType>,
    separator: char,
    shorthand: bool,
}

impl ListType {
    /// Creates the type of lists whose items have the type `inner`. A cast joins the texts of the
    /// items by `separator`, with a space after a comma. With `shorthand`, a value that the inner
    /// type accepts may stand for an array of itself.
    ///
    /// Each item must have a text, so `inner` must not be `Presence` or a union that contains it.
    /// If an allocation fails, the error holds `inner`.
    pub fn new(
        alloc: Global,
        inner: AttrType,
        separator: char,
        shorthand: bool,
    ) -> Result<ListType, Refused<AttrType>>
        requires { has_presence (attr_type_view inner) ≡ false }
        ensures ok { IfOk result
            (λ made. list_type_view made ≡ list (attr_type_view inner) separator shorthand) }
        ensures back { IfErr result (λ refused. refused.back ≡ inner) }
    {
        match Box::new(alloc, inner) {
            Ok(inner) => Ok(ListType {
                inner,
                separator,
                shorthand,
            }),
            Err(AllocFailed { value }) => Err(Refused { back: value }),
        }
    }
}

impl AttrType {
    /// Returns whether the type accepts a value by its kind, or as one of the texts that it lists.
    #[cycle(castable)]
    pub fn castable(&self, value: &Value) -> bool
        ensures { result ≡ castable (attr_type_view self.now) (value_view value.now) }
    {
        match self {
            AttrType::Presence => matches!(value, Value::Bool(_)),
            AttrType::Native(native) => native.castable(value),
            AttrType::Strings(texts) => match value {
                Value::Str(text) => is_among(text.as_str(), texts),
                _ => false,
            },
            AttrType::Union(members) => is_castable_by_any(members, value),
            AttrType::List(list) => list.castable(value),
        }
    }

    /// Returns whether the type is `Presence`, or a union that contains it, even in inner unions.
    #[cycle(presence)]
    pub fn has_presence(&self) -> bool
        ensures { result ≡ has_presence (attr_type_view self.now) }
    {
        match self {
            AttrType::Presence => true,
            AttrType::Union(members) => is_presence_in(members),
            _ => false,
        }
    }
}

impl ListType {
    #[cycle(castable)]
    fn castable(&self, value: &Value) -> bool
        ensures { result ≡ castable (list_type_view self.now) (value_view value.now) }
    {
        match value {
            Value::Array(_) => true,
            _ => self.shorthand && self.inner.castable(value),
        }
    }
}

#[cycle(castable)]
fn is_castable_by_any(members: &[AttrType], value: &Value) -> bool
    ensures { result ≡ castable_by_any (attr_types_view members.now) (value_view value.now) }
{
    for member in members {
        if member.castable(value) {
            return true;
        }
    }
    false
}

#[cycle(presence)]
fn is_presence_in(members: &[AttrType]) -> bool
    ensures { result ≡ presence_in (attr_types_view members.now) }
{
    for member in members {
        if member.has_presence() {
            return true;
        }
    }
    false
}

impl AttrType {
    /// Casts a value to an attribute of this type: returns its text, or nothing if the attribute is
    /// omitted.
    ///
    /// Fails with `WrongKind` if the type does not accept the value, or with `NotInStrings` if it
    /// lists other texts. If the type accepts the value but the value has no text in it, fails with
    /// the fault that says why. A union casts by its first type that is `castable` for the value. A
    /// list joins the texts of its items.
    ///
    /// ```
    /// use html_values::{AttrType, CastFault, NativeType, Value};
    ///
    /// let (alloc, seven) = (rt.alloc(), Value::Int(7));
    /// let text = AttrType::Native(NativeType::Int).cast(alloc, &seven)?;
    /// assert_eq!(rt; text.expect(&rt, "a text").as_str(), "7");
    /// let omitted = AttrType::Presence.cast(alloc, &Value::Bool(false))?;
    /// assert!(rt; omitted.is_none());
    /// let fault = AttrType::Presence.cast(alloc, &seven).err();
    /// assert!(rt; fault == Some(CastFault::WrongKind));
    /// ```
    #[cycle(cast)]
    pub fn cast(&self, alloc: Global, value: &Value) -> Result<Option<String>, CastFault>
        ensures { GivesCast option_answer result
            (cast (attr_type_view self.now) (value_view value.now)) }
    {
        match self {
            AttrType::Presence => match value {
                Value::Bool(true) => Ok(Some(empty(alloc))),
                Value::Bool(false) => Ok(None),
                _ => Err(CastFault::WrongKind),
            },
            AttrType::Native(native) => Ok(Some(native.cast(alloc, value)?)),
            AttrType::Strings(texts) => Ok(Some(allowed_text(texts, value)?)),
            AttrType::Union(members) => cast_by_first(alloc, members, value),
            AttrType::List(list) => Ok(Some(list.cast(alloc, value)?)),
        }
    }
}

impl ListType {
    #[cycle(cast)]
    fn cast(&self, alloc: Global, value: &Value) -> Result<String, CastFault>
        ensures { GivesCast text_answer result (cast (list_type_view self.now) (value_view value.now)) }
    {
        match value {
            Value::Array(items) => {
                let texts = self.texts(alloc, items)?;
                Ok(join(alloc, &texts, self.separator)?)
            }
            _ => self.cast_shorthand(alloc, value),
        }
    }

    /// Returns the text of a value that stands for an array of itself.
    #[cycle(cast)]
    #[tactic(auto, using(crate::proofs::Joined::item_refusal))]
    fn cast_shorthand(&self, alloc: Global, value: &Value) -> Result<String, CastFault>
        ensures { GivesCast text_answer result (shorthand_answer
            (self.now.shorthand && castable (inner_view self.now) (value_view value.now))
            (cast (inner_view self.now) (value_view value.now))) }
    {
        if self.shorthand && self.inner.castable(value) {
            Ok(text_or_empty(alloc, self.inner.cast(alloc, value)?))
        } else {
            Err(CastFault::WrongKind)
        }
    }

    #[cycle(cast)]
    fn texts(&self, alloc: Global, items: &[Value]) -> Result<Vec<String>, CastFault>
        ensures { GivesTexts result self.now.separator
            (item_texts (cast (inner_view self.now)) self.now.separator (values_view items.now)) }
    {
        let mut texts = Vec::new(alloc);
        for item in items {
            let made = self.inner.cast(alloc, item)?;
            texts.push(without_separator(text_or_empty(alloc, made), self.separator)?)?;
        }
        Ok(texts)
    }
}

#[cycle(cast)]
fn cast_by_first(
    alloc: Global,
    members: &[AttrType],
    value: &Value,
) -> Result<Option<String>, CastFault>
    ensures { GivesCast option_answer result
        (first_cast (attr_types_view members.now) (value_view value.now)) }
{
    for kind in members {
        if kind.castable(value) {
            return kind.cast(alloc, value);
        }
    }
    Err(CastFault::WrongKind)
}
