//! The css property `display` and its defaults by tag.

ghost use Rattle.std.specs.Prelude.{◌≡◌};

use crate::html_tag::HtmlTag;

/// A value of the css property `display` (CSS Display 3, MathML Core 4.1), spelled as in `as_str`.
#[rattlefmt::skip]
#[derive(Clone, Copy, Debug, PartialEq, Eq, Hash)]
pub enum Display {
    Block, Inline, RunIn,
    Flow, FlowRoot, Table, Flex, Grid, Ruby,
    ListItem,
    TableRowGroup, TableHeaderGroup, TableFooterGroup, TableRow, TableCell,
    TableColumnGroup, TableColumn, TableCaption, RubyBase, RubyText,
    Contents, None,
    InlineBlock, InlineTable, InlineFlex, InlineGrid,
    InlineMath, BlockMath,
}

impl Display {
    ghost use Rattle.html_names_core.specs.Displays.{default_display, is_tabular, is_border, display_text};

    /// Returns the display that elements with this tag have without a style sheet, if they have
    /// one. The defaults are this project's profile of HTML Standard 15.3.
    #[tactic(auto, using(crate::proofs::ByTable::display_by_table))]
    pub fn default_for(tag: &HtmlTag) -> Option<Display>
        ensures { result ≡ default_display tag.now }
    {
        tag.name.display()
    }

    /// Returns whether the display is that of a table or a part of one.
    #[rattlefmt::skip]
    pub fn is_tabular(self) -> bool
        ensures { result ≡ is_tabular self }
    {
        matches!(
            self,
            Display::Table | Display::TableCaption | Display::TableColumn
                | Display::TableColumnGroup | Display::TableRow | Display::TableRowGroup
                | Display::TableHeaderGroup | Display::TableFooterGroup | Display::TableCell
        )
    }

    /// Returns whether a line ends before and after an element with this display.
    #[rattlefmt::skip]
    pub fn is_border(self) -> bool
        ensures { result ≡ is_border self }
    {
        matches!(
            self,
            Display::Block | Display::ListItem | Display::Table | Display::TableHeaderGroup
                | Display::TableRowGroup | Display::TableFooterGroup | Display::TableRow
                | Display::TableCell | Display::TableCaption
        )
    }

    /// Returns the css text.
    pub fn as_str(self) -> &'static str
        ensures { result.now ≡ display_text self }
    {
        match self {
            Display::Block => "block",
            Display::Inline => "inline",
            Display::RunIn => "run-in",
            Display::Flow => "flow",
            Display::FlowRoot => "flow-root",
            Display::Table => "table",
            Display::Flex => "flex",
            Display::Grid => "grid",
            Display::Ruby => "ruby",
            Display::ListItem => "list-item",
            Display::TableRowGroup => "table-row-group",
            Display::TableHeaderGroup => "table-header-group",
            Display::TableFooterGroup => "table-footer-group",
            Display::TableRow => "table-row",
            Display::TableCell => "table-cell",
            Display::TableColumnGroup => "table-column-group",
            Display::TableColumn => "table-column",
            Display::TableCaption => "table-caption",
            Display::RubyBase => "ruby-base",
            Display::RubyText => "ruby-text",
            Display::Contents => "contents",
            Display::None => "none",
            Display::InlineBlock => "inline-block",
            Display::InlineTable => "inline-table",
            Display::InlineFlex => "inline-flex",
            Display::InlineGrid => "inline-grid",
            Display::InlineMath => "inline math",
            Display::BlockMath => "block math",
        }
    }
}
