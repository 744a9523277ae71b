//! Each public name is where users look for it.

/// Trees and items, in html_dom and html_flow.
mod trees {
    use html_dom::{
        DeadLink, DocumentInfo, DomIndices, FlatElement, FlatNode, FlatTree, Frame, FrameItem,
        HtmlAttrs, HtmlDocument, HtmlElement, HtmlFrame, HtmlIntrospector, HtmlNode, HtmlOutput,
        HtmlPosition, HtmlSliceExt, Locale, Location, Point, Span, Tag, base_of,
        create_link_anchors, dead_links, decoded_fragment, fragment_in, fragment_leads,
        href_is_script, href_to, ids_are_distinct, laws, place_in, place_names,
        resolve_inline_styles, resolve_links, with_resolved_links,
    };
    use html_flow::{
        Arg, ArgValue, Args, Bareness, ConstructFault, ConversionLevel, ElementInfo, FlowFault,
        FrameElem, HtmlElem, Item, ItemList, NamedPlaces, Notes, Pair, Role, Whitespace,
        bare_spaces, construct, convert_to_nodes, html_block_fragment, html_inline_fragment,
        html_math_fragment, is_depth_limit, laws as laws_of_items, push_located,
    };
}

/// Names and values, in html_names and html_values.
mod values {
    use html_names::attr::mathml;
    use html_names::property::Display;
    use html_names::text_writer::TextWriter;
    use html_names::{
        HtmlAttr, HtmlTag, NameFault, NameTable, Refused, attr, charsets, laws as laws_of_names,
        tag,
    };
    use html_values::{
        Abs, Angle, AttrType, AutoValue, Calc, CalcPart, Call, CastFault, CssWriter, Datetime, Dir,
        Duration, Em, HorizontalDir, IconSize, ImageCandidate, Inline, IntoAttr, Length, ListType,
        Moment, NativeType, NoneEmpty, NoneUndefined, NoneValue, OnOffBool, Paint, Properties,
        PropertiesBuilder, Property, Ratio, Rel, Rgba, Separator, Str, ToCss, TrueFalseBool, Value,
        Warning, WarningSink, YesNoBool, civil, laws,
    };
}

/// Pages and the trees that they become, in html_page.
mod pages {
    use html_page::{
        DeadFragment, DecodedPage, Encoding, Frame, FrameItem, HtmlAttr, HtmlAttrs, HtmlElement,
        HtmlFrame, HtmlNode, HtmlTag, Location, Misnested, Misnesting, NameFault, PageError,
        PageFault, PageNote, PageNotes, PageRefusal, PageText, Place, Places, Point, Refused,
        RepeatedId, Shown, Span, Tag, Visit, Walk, attr, base_of, dead_fragments,
        decode_page_bytes, decoded_fragment, element_at, fragment_in, fragment_leads,
        href_is_script, laws, misnested, page_text, place_in, place_names, property,
        read_any_fragment, read_fragment, read_page, read_page_bytes, repeated_ids, tag,
    };
}

/// The program, in typst_html_run.
mod program {
    use typst_html_run::{
        DocumentText, Fault, InputPlace, LastCall, Recorded, Settings, Status, Task, WriteFailed,
        element_in, items_in, run, run_recorded, text_of_document, text_of_fragment, text_of_input,
        unused_of_document, wanted_task, words_of,
    };
}

/// Types and traits of trees, items and documents, in typst_html.
mod all_types {
    use typst_html::{
        Arg, ArgValue, Args, Bareness, ConstructFault, ConversionLevel, DeadLink, DocumentInfo,
        DomIndices, ElementInfo, ExportFault, FlatElement, FlatNode, FlatTree, FlowFault, Frame,
        FrameElem, FrameFault, FrameItem, FrameWriter, HtmlAttr, HtmlAttrs, HtmlDocument, HtmlElem,
        HtmlElement, HtmlFrame, HtmlIntrospector, HtmlNode, HtmlOptions, HtmlOutput, HtmlPosition,
        HtmlSliceExt, HtmlTag, Item, ItemList, Locale, Location, NameFault, NameTable, NamedPlaces,
        Notes, Pair, Place, Point, ReadFault, Refused, Role, Span, Tag, Visit, Walk, Whitespace,
    };
}

/// Types and traits of values, in typst_html.
mod all_values {
    use typst_html::{
        Abs, Angle, AttrType, AutoValue, Calc, CalcPart, Call, CastFault, CssWriter, Datetime, Dir,
        Duration, Em, HorizontalDir, IconSize, ImageCandidate, Inline, IntoAttr, Length, ListType,
        Moment, NativeType, NoneEmpty, NoneUndefined, NoneValue, OnOffBool, Paint, Properties,
        PropertiesBuilder, Property, Ratio, Rel, Rgba, Separator, Str, ToCss, TrueFalseBool, Value,
        Warning, WarningSink, YesNoBool,
    };
}

/// Calls and modules of all layers, in typst_html.
mod all_calls {
    use typst_html::{
        attr, bare_spaces, base_of, charsets, civil, construct, convert_to_nodes,
        create_link_anchors, dead_links, decoded_fragment, export, export_linked, export_with_head,
        fragment_in, fragment_leads, has_own_root, href_is_script, href_to, html,
        html_block_fragment, html_document, html_document_for_bundle, html_document_with_head,
        html_in_bundle, html_inline_fragment, html_math_fragment, ids_are_distinct, is_depth_limit,
        laws, place_in, place_names, property, push_located, read_html, resolve_inline_styles,
        resolve_links, tag, text_writer, with_resolved_links,
    };
}
