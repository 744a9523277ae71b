//! Why items or a tree have no HTML text, and the faults of names, casts and constructions.

ghost use Rattle.std.specs.Prelude.{◌≡◌, ◌↔◌, IsTrue};
ghost use Rattle.typst_html_encode.specs.{ExportFaults.{first_span}, FaultViews.{export_fault_view, spans_view}};

use crate::frame::FrameFault;
use html_dom_tree::Span;
use html_flow_faults::laws::equal_construct_faults;
use html_flow_faults::{ConstructFault, FlowFault};
use html_names_core::{HtmlTag, NameFault, Refused};
use html_values_css::CastFault;
use std::alloc::{AllocError, AllocFailed};
use thiserror::Error;

/// The reason why items or a tree have no HTML text.
///
/// Writing a tree fails with the variants from `Unencodable` to `FrameRefused`, and making a
/// document from items with those from `TooDeep` to `Footnotes`. Neither fails with the last three
/// variants, which are faults of other calls. With them, a function that makes items and writes
/// them can return all its faults with `?`.
#[derive(Debug, Drop, Error)]
pub enum ExportFault {
    /// An allocation failed.
    #[error("out of memory")]
    OutOfMemory,
    /// A body of items is deeper than the limit.
    #[error("items are nested too deeply")]
    TooDeep {
        /// The span of the item that has the body.
        span: Span,
    },
    /// An `html` or `body` is among other nodes of a document.
    #[error("this element must be the only element in the document")]
    NotAlone {
        /// The element's name.
        tag: HtmlTag,
        /// The element's span.
        span: Span,
    },
    /// There are footnotes, but the document has an `html` or `body` of its own.
    #[error("footnotes are not supported with a custom root element")]
    Footnotes {
        /// The spans of the footnotes, in order.
        spans: Vec<Span>,
    },
    /// A text or a value has a character that HTML cannot hold, or a text whose characters are all
    /// written as references has a carriage return.
    #[error("a character cannot be encoded in HTML")]
    Unencodable {
        /// The character.
        c: char,
        /// The span of the text, or of the element that has the value.
        span: Span,
    },
    /// A void element, or a foreign one that is written self-closing, has a child.
    #[error("HTML void elements must not have children")]
    VoidChildren {
        /// The element's span.
        span: Span,
    },
    /// A raw or escapable raw element has an element or a frame as its child.
    #[error("HTML raw text element cannot have non-text children")]
    RawChild {
        /// The child's span.
        span: Span,
    },
    /// The text of a raw element would end the element.
    #[error("HTML raw text element cannot contain its own closing tag")]
    RawClosing {
        /// The element's span.
        span: Span,
    },
    /// The writer of frames refused a frame.
    #[error("a frame was refused by its writer")]
    FrameRefused {
        /// The frame's span.
        span: Span,
    },
    /// A text is not the name of a tag or of an attribute.
    #[error("{0}")]
    Name(NameFault),
    /// A value has no text as an attribute.
    #[error("{0}")]
    Cast(CastFault),
    /// An element could not be constructed from its arguments.
    #[error("{0}")]
    Construct(ConstructFault),
}

impl ExportFault {
    ghost use Rattle.typst_html_encode.specs.ExportFaults.{number_of, span_of};

    /// Returns the fault's number: 0 for out of memory, from 8 on in the order of the variants up
    /// to `FrameRefused`, and the number of the inner fault for the last three.
    pub fn number(&self) -> u8
        ensures { result ≡ number_of self.now }
    {
        match self {
            ExportFault::OutOfMemory => 0,
            ExportFault::TooDeep { .. } => 8,
            ExportFault::NotAlone { .. } => 9,
            ExportFault::Footnotes { .. } => 10,
            ExportFault::Unencodable { .. } => 11,
            ExportFault::VoidChildren { .. } => 12,
            ExportFault::RawChild { .. } => 13,
            ExportFault::RawClosing { .. } => 14,
            ExportFault::FrameRefused { .. } => 15,
            ExportFault::Name(fault) => fault.number(),
            ExportFault::Cast(fault) => fault.number(),
            ExportFault::Construct(fault) => fault.number(),
        }
    }

    /// Returns the span of the fault: that of the first of several footnotes or arguments, and 0
    /// for out of memory, for a name or a cast, and if there is none.
    pub fn span(&self) -> Span
        ensures { result.0 ≡ span_of self.now }
    {
        match self {
            ExportFault::OutOfMemory | ExportFault::Name(_) | ExportFault::Cast(_) => Span(0),
            ExportFault::Construct(fault) => fault.span(),
            ExportFault::Footnotes { spans } => first_span(spans),
            ExportFault::TooDeep { span }
            | ExportFault::NotAlone { span, .. }
            | ExportFault::Unencodable { span, .. }
            | ExportFault::VoidChildren { span }
            | ExportFault::RawChild { span }
            | ExportFault::RawClosing { span }
            | ExportFault::FrameRefused { span } => *span,
        }
    }
}

/// Returns the first span, or 0 if there is none.
fn first_span(spans: &[Span]) -> Span
    ensures { result.0 ≡ first_span spans.now }
{
    match spans.first() {
        Some(span) => *span,
        None => Span(0),
    }
}

fn same_fault(a: &ExportFault, b: &ExportFault) -> bool
    ensures { IsTrue result ↔ (export_fault_view a.now ≡ export_fault_view b.now) }
{
    match (a, b) {
        (ExportFault::OutOfMemory, ExportFault::OutOfMemory) => true,
        (
            ExportFault::NotAlone { tag, span },
            ExportFault::NotAlone {
                tag: other,
                span: other_span,
            },
        ) => *tag == *other && *span == *other_span,
        (ExportFault::Footnotes { spans }, ExportFault::Footnotes { spans: others }) => {
            same_spans(spans, others)
        }
        (
            ExportFault::Unencodable { c, span },
            ExportFault::Unencodable {
                c: other,
                span: other_span,
            },
        ) => *c == *other && *span == *other_span,
        (ExportFault::TooDeep { span }, ExportFault::TooDeep { span: other })
        | (ExportFault::VoidChildren { span }, ExportFault::VoidChildren { span: other })
        | (ExportFault::RawChild { span }, ExportFault::RawChild { span: other })
        | (ExportFault::RawClosing { span }, ExportFault::RawClosing { span: other })
        | (ExportFault::FrameRefused { span }, ExportFault::FrameRefused { span: other }) => {
            *span == *other
        }
        (ExportFault::Name(fault), ExportFault::Name(other)) => *fault == *other,
        (ExportFault::Cast(fault), ExportFault::Cast(other)) => *fault == *other,
        (ExportFault::Construct(fault), ExportFault::Construct(other)) => {
            equal_construct_faults(fault, other)
        }
        _ => false,
    }
}

fn same_spans(a: &[Span], b: &[Span]) -> bool
    ensures { IsTrue result ↔ (spans_view a.now ≡ spans_view b.now) }
{
    a == b
}

impl PartialEq for ExportFault {
    ghost use Rattle.std.specs.Cmp.{partial_equiv_from_equiv};
    ghost use Rattle.html_names_core.specs.Equal.{same, same_equiv};
    ghost use Rattle.typst_html_encode.specs.FaultViews.{export_fault_discrete};

    ghost eq = { same export_fault_view export_fault_discrete };

    ghost laws = { partial_equiv_from_equiv (same_equiv export_fault_view export_fault_discrete) };

    fn eq(&self, other: &ExportFault) -> bool {
        same_fault(self, other)
    }
}

impl Eq for ExportFault {
    ghost use Rattle.html_names_core.specs.Equal.{same_equiv};
    ghost use Rattle.typst_html_encode.specs.FaultViews.{export_fault_discrete};

    ghost laws = { same_equiv export_fault_view export_fault_discrete };
}

impl From<AllocError> for ExportFault {
    ghost use Rattle.typst_html_encode.specs.declared.fault.ExportFault.TheVariants.{OutOfMemory};

    ghost from_gives = { λ _ e. e ≡ OutOfMemory };

    fn from(_refused: AllocError) -> ExportFault {
        ExportFault::OutOfMemory
    }
}

impl<T: Drop> From<AllocFailed<T>> for ExportFault {
    ghost use Rattle.typst_html_encode.specs.declared.fault.ExportFault.TheVariants.{OutOfMemory};

    ghost from_gives = { λ _ e. e ≡ OutOfMemory };

    fn from(_refused: AllocFailed<T>) -> ExportFault {
        ExportFault::OutOfMemory
    }
}

impl<T: Drop> From<Refused<T>> for ExportFault {
    ghost use Rattle.typst_html_encode.specs.declared.fault.ExportFault.TheVariants.{OutOfMemory};

    ghost from_gives = { λ _ e. e ≡ OutOfMemory };

    fn from(_refused: Refused<T>) -> ExportFault {
        ExportFault::OutOfMemory
    }
}

impl From<FlowFault> for ExportFault {
    ghost use Rattle.typst_html_encode.specs.Conversions.{of_flow};

    ghost from_gives = { λ fault made. made ≡ of_flow fault };

    fn from(fault: FlowFault) -> ExportFault {
        match fault {
            FlowFault::OutOfMemory => ExportFault::OutOfMemory,
            FlowFault::TooDeep { span } => ExportFault::TooDeep { span },
        }
    }
}

/// A refused frame gets the span 0. The caller of the writer knows which frame it was.
impl From<FrameFault> for ExportFault {
    ghost use Rattle.typst_html_encode.specs.Conversions.{of_frame};

    ghost from_gives = { λ fault made. made ≡ of_frame fault };

    fn from(fault: FrameFault) -> ExportFault {
        match fault {
            FrameFault::OutOfMemory => ExportFault::OutOfMemory,
            FrameFault::Refused => ExportFault::FrameRefused { span: Span(0) },
        }
    }
}

impl From<NameFault> for ExportFault {
    ghost use Rattle.typst_html_encode.specs.Conversions.{of_name};

    ghost from_gives = { λ fault made. made ≡ of_name fault };

    fn from(fault: NameFault) -> ExportFault {
        match fault {
            NameFault::OutOfMemory => ExportFault::OutOfMemory,
            _ => ExportFault::Name(fault),
        }
    }
}

impl From<CastFault> for ExportFault {
    ghost use Rattle.typst_html_encode.specs.Conversions.{of_cast};

    ghost from_gives = { λ fault made. made ≡ of_cast fault };

    fn from(fault: CastFault) -> ExportFault {
        match fault {
            CastFault::OutOfMemory => ExportFault::OutOfMemory,
            _ => ExportFault::Cast(fault),
        }
    }
}

impl From<ConstructFault> for ExportFault {
    ghost use Rattle.typst_html_encode.specs.Conversions.{of_construct};

    ghost from_gives = { λ fault made. made ≡ of_construct fault };

    fn from(fault: ConstructFault) -> ExportFault {
        match fault {
            ConstructFault::OutOfMemory => ExportFault::OutOfMemory,
            _ => ExportFault::Construct(fault),
        }
    }
}
