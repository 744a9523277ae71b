//! Numbers, spans and texts of faults, also of those that `?` makes of faults of the layers below.
//! Rows of `tests_rows` show those of all refusals of pages but one (`as-browsers`, `c-check`).

use html_page::{PageFault, PageRefusal};
use std::alloc::Global;
use tests_asserts::{TestResult, assert_text};
use typst_html::{
    CastFault, ConstructFault, ExportFault, FlowFault, FrameFault, NameFault, NameTable, Place,
    ReadFault, Refused, Span, tag,
};
use typst_html_run::WriteFailed;

/// Asserts the number, the span and the text of each fault.
fn assert_faults(alloc: Global, faults: &[ExportFault], wanted: &str) -> TestResult {
    let mut shown = String::new(alloc);
    for fault in faults {
        write!(shown, "{} at {}: {fault}\n", fault.number(), fault.span().0)?;
    }
    assert_text(&shown, wanted)
}

const OWN: &str = "\
    0 at 0: out of memory\n\
    8 at 7: items are nested too deeply\n\
    9 at 7: this element must be the only element in the document\n\
    11 at 7: a character cannot be encoded in HTML\n\
    12 at 7: HTML void elements must not have children\n\
    13 at 7: HTML raw text element cannot have non-text children\n\
    14 at 7: HTML raw text element cannot contain its own closing tag\n\
    15 at 7: a frame was refused by its writer\n\
    10 at 7: footnotes are not supported with a custom root element\n\
    10 at 0: footnotes are not supported with a custom root element\n";

#[test]
fn faults_of_writing(rt: HostRuntime) -> TestResult {
    let (span, tag, c, none) = (Span(7), tag::body, '\0', Vec::new(rt.alloc()));
    let spans = vec![in rt.alloc(); span, Span(8)]?;
    let faults = [
        ExportFault::OutOfMemory,
        ExportFault::TooDeep { span },
        ExportFault::NotAlone { tag, span },
        ExportFault::Unencodable { c, span },
        ExportFault::VoidChildren { span },
        ExportFault::RawChild { span },
        ExportFault::RawClosing { span },
        ExportFault::FrameRefused { span },
        ExportFault::Footnotes { spans },
        ExportFault::Footnotes { spans: none },
    ];
    assert_faults(rt.alloc(), &faults, OWN)
}

const MADE: &str = "\
    8 at 7: items are nested too deeply\n\
    15 at 0: a frame was refused by its writer\n\
    1 at 0: tag name must not be empty\n\
    23 at 0: the year is out of range\n\
    24 at 7: the body has the wrong kind\n\
    18 at 5: arguments could not be cast\n";

#[test]
fn faults_of_the_layers_below(rt: HostRuntime) -> TestResult {
    let (alloc, span) = (rt.alloc(), Span(7));
    let casts = vec![in alloc; (CastFault::NumberRange, Span(5))]?;
    let faults = [
        ExportFault::from(FlowFault::TooDeep { span }),
        ExportFault::from(FrameFault::Refused),
        ExportFault::from(NameFault::EmptyTag),
        ExportFault::from(CastFault::YearRange),
        ExportFault::from(ConstructFault::BodyKind { span }),
        ExportFault::from(ConstructFault::Casts(casts)),
    ];
    assert_faults(alloc, &faults, MADE)
}

const PLACE: Place = Place {
    offset: 40,
    line: 3,
    column: 14,
};

const OTHERS: &str = "\
    0: out of memory\n\
    8: items are nested too deeply\n\
    0: out of memory\n\
    15: a frame was refused by its writer\n\
    0: out of memory\n\
    8: elements are nested too deeply at 3:14\n\
    25: other syntax than that of written pages at 3:14\n\
    a write failed\n";

const OF_PAGES: &str = "\
    0: out of memory\n\
    25: unknown encoding `big5` at 3:14\n\
    25: a byte that is no text at 3:14\n\
    40: too many elements are made again at 3:14\n";

#[test]
fn other_faults(rt: HostRuntime) -> TestResult {
    let (mut shown, span) = (String::new(rt.alloc()), Span(7));
    let place = PLACE;
    for fault in [FlowFault::OutOfMemory, FlowFault::TooDeep { span }] {
        write!(shown, "{}: {fault}\n", fault.number())?;
    }
    for fault in [FrameFault::OutOfMemory, FrameFault::Refused] {
        write!(shown, "{}: {fault}\n", fault.number())?;
    }
    let (deep, syntax) = (ReadFault::TooDeep { place }, ReadFault::Syntax { place });
    for fault in [ReadFault::OutOfMemory, deep, syntax] {
        write!(shown, "{}: {fault}\n", fault.number())?;
    }
    write!(shown, "{WriteFailed}\n")?;
    assert_text(&shown, OTHERS)
}

#[test]
fn faults_of_pages(rt: HostRuntime) -> TestResult {
    let (mut shown, place) = (String::new(rt.alloc()), PLACE);
    let label = String::from_str(rt.alloc(), "big5")?;
    let refusal = PageRefusal::TooManyCopies;
    let faults = [
        PageFault::OutOfMemory,
        PageFault::UnknownLabel { label, place },
        PageFault::NotText { place },
        PageFault::Refused { refusal, place },
    ];
    for fault in &faults {
        write!(shown, "{}: {fault}\n", fault.number())?;
    }
    assert_text(&shown, OF_PAGES)
}

/// Values whose fields are not shown.
#[test]
fn hidden_fields(rt: HostRuntime) -> TestResult {
    let (refused, names) = (Refused { back: 7u8 }, NameTable::new(rt.alloc()));
    let shown = format!(in rt.alloc(); "{refused:?} {names:?}")?;
    assert_text(&shown, "Refused(..) NameTable")
}
