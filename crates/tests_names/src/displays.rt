//! The texts of displays.

use html_names::property::Display;
use tests_asserts::{TestResult, assert_text};

/// Each display with its text, and whether it is tabular.
#[rattlefmt::skip]
static DISPLAYS: [(Display, &str, bool); 28] = [
    (Display::Block, "block", false), (Display::Inline, "inline", false),
    (Display::RunIn, "run-in", false), (Display::Flow, "flow", false),
    (Display::FlowRoot, "flow-root", false), (Display::Table, "table", true),
    (Display::Flex, "flex", false), (Display::Grid, "grid", false), (Display::Ruby, "ruby", false),
    (Display::ListItem, "list-item", false), (Display::TableRowGroup, "table-row-group", true),
    (Display::TableHeaderGroup, "table-header-group", true),
    (Display::TableFooterGroup, "table-footer-group", true), (Display::TableRow, "table-row", true),
    (Display::TableCell, "table-cell", true),
    (Display::TableColumnGroup, "table-column-group", true),
    (Display::TableColumn, "table-column", true), (Display::TableCaption, "table-caption", true),
    (Display::RubyBase, "ruby-base", false), (Display::RubyText, "ruby-text", false),
    (Display::Contents, "contents", false), (Display::None, "none", false),
    (Display::InlineBlock, "inline-block", false), (Display::InlineTable, "inline-table", false),
    (Display::InlineFlex, "inline-flex", false), (Display::InlineGrid, "inline-grid", false),
    (Display::InlineMath, "inline math", false), (Display::BlockMath, "block math", false),
];

#[test]
fn displays(rt: HostRuntime) -> TestResult {
    for (display, text, is_tabular) in &DISPLAYS {
        assert_text(display.as_str(), text)?;
        assert!(rt; display.is_tabular() == *is_tabular, "{text}");
    }
    Ok(())
}
