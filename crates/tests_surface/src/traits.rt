//! The traits of public types. Functions that do nothing are there for their bounds.

use html_page::{
    DeadFragment, DecodedPage, Encoding, PageError, PageFault, PageNote, PageRefusal, PageText,
    RepeatedId,
};
use std::error::Error;
use std::fmt::{Debug, Display as Shown};
use std::hash::Hash;
use std::num::{NonZeroI64, NonZeroU64};
use typst_html::property::Display;
use typst_html::{
    Abs, Angle, AutoValue, CalcPart, CastFault, ConstructFault, ConversionLevel, Datetime,
    DeadLink, Dir, DocumentInfo, Duration, Em, ExportFault, FlowFault, Frame, FrameFault,
    FrameItem, FrameWriter, HorizontalDir, HtmlAttr, HtmlAttrs, HtmlElement, HtmlFrame, HtmlNode,
    HtmlOptions, HtmlTag, IconSize, ImageCandidate, Inline, IntoAttr, Length, Locale, Location,
    Moment, NameFault, NativeType, NoneEmpty, NoneUndefined, NoneValue, OnOffBool, Paint, Place,
    Point, Properties, Property, Ratio, ReadFault, Refused, Rel, Rgba, Separator, Span, Str, Tag,
    ToCss, TrueFalseBool, Warning, WarningSink, Whitespace, YesNoBool,
};
use typst_html_run::{Fault, InputPlace, LastCall, Settings, Status, Task, WriteFailed};

fn are_compared<T: Debug + Drop + Eq>() {}

fn are_copied<T: Copy + Debug + Eq>() {}

fn are_keys<T: Debug + Drop + Eq + Hash>() {}

fn are_errors<A: Error, B: Error, C: Error, D: Error, E: Error>() {}

fn are_shown<A: Shown, B: Shown, C: Shown, D: Shown, E: Shown>() {}

fn are_css<A: ToCss, B: ToCss, C: ToCss, D: ToCss>() {}

fn are_parts_of_sums<A: CalcPart, B: CalcPart, C: CalcPart, D: CalcPart>() {}

fn are_attributes<A: IntoAttr, B: IntoAttr, C: IntoAttr, D: IntoAttr, E: IntoAttr>() {}

fn are_sinks<A: WarningSink, B: WarningSink, C: WarningSink>() {}

fn writes_frames<T: FrameWriter>() {}

#[test]
fn types_that_are_compared() {
    are_compared::<(DocumentInfo, Frame, FrameItem, HtmlElement)>();
    are_compared::<(HtmlFrame, HtmlNode, ImageCandidate, Locale)>();
    are_compared::<(DecodedPage, PageFault, PageText, Str, Tag)>();
    are_compared::<
        (
            CastFault,
            ConstructFault,
            ExportFault,
            FlowFault,
            FrameFault,
        ),
    >();
    are_compared::<(NameFault, ReadFault, Refused<u8>, Warning, WriteFailed)>();
}

#[test]
fn types_that_are_copied() {
    are_copied::<(AutoValue, Datetime, Dir, Duration, Fault)>();
    are_copied::<(HorizontalDir, IconSize, LastCall, Moment, NativeType)>();
    are_copied::<(NoneEmpty, NoneUndefined, NoneValue, OnOffBool, Point)>();
    are_copied::<(Encoding, InputPlace, PageError, PageNote, PageRefusal)>();
    are_copied::<(Separator, Settings, Status, Task)>();
    are_copied::<(TrueFalseBool, YesNoBool)>();
}

#[test]
fn types_that_are_keys() {
    are_keys::<(Abs, Angle, Em, Ratio)>();
    are_keys::<(ConversionLevel, DeadFragment, DeadLink, Display)>();
    are_keys::<(HtmlAttr, HtmlAttrs, HtmlOptions, HtmlTag)>();
    are_keys::<(Length, Location, Paint, Place, Properties, Property)>();
    are_keys::<(Rel, RepeatedId, Rgba, Span, Whitespace)>();
}

#[test]
fn types_that_are_errors() {
    are_errors::<CastFault, ConstructFault, ExportFault, FlowFault, FrameFault>();
    are_errors::<NameFault, PageError, PageFault, PageRefusal, ReadFault>();
    are_errors::<Refused<u8>, Refused<String>, Refused<Tag>, Warning, WriteFailed>();
}

#[test]
fn types_with_texts() {
    are_shown::<HtmlAttr, HtmlTag, Inline<'static>, PageText, Place>();
    are_css::<&'static str, Abs, Display, Length>();
    are_css::<Paint, Rel, Rgba, String>();
    are_parts_of_sums::<Abs, Angle, Em, Ratio>();
    are_attributes::<AutoValue, Datetime, Dir, Duration, HorizontalDir>();
    are_attributes::<IconSize, ImageCandidate, NoneEmpty, NoneUndefined, NoneValue>();
    are_attributes::<NonZeroI64, NonZeroU64, OnOffBool, Rgba, Str>();
    are_attributes::<TrueFalseBool, YesNoBool, char, i64, u64>();
}

#[test]
fn types_that_take_warnings_or_frames() {
    are_sinks::<(), &'static mut (), Vec<Warning>>();
    writes_frames::<()>();
}
