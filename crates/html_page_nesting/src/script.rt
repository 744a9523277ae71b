//! Whether a script's end tag is read as text (HTML Standard 13.2.5.4, 13.2.5.15 to 13.2.5.31).

ghost use Rattle.std.specs.{List.{fold}, Prelude.{◌≡◌, ◌≤◌, chars, length}};
ghost use Rattle.html_dom_tree.specs.Views.{node_view, nodes_view};
ghost use Rattle.html_text.specs.RawEnds.{ends_in};
ghost use Rattle.html_page_nesting.specs.ScriptTexts as script;

use html_dom_tree::HtmlNode;
use html_text::is_tag_end;

/// The depth of a script in comments.
#[derive(Clone, Copy)]
pub(crate) enum ScriptDepth {
    /// In none.
    Outside,
    /// Behind `<!--`.
    Comment,
    /// Behind `<script` in a comment, where its end tag does not end it.
    Script,
    /// Behind its end tag.
    Ended,
}

/// A script's text, as far as it is read.
#[derive(Clone, Copy)]
pub(crate) struct ScriptText {
    depth: ScriptDepth,
    /// Its last characters, as many as the longest word has that is looked for.
    last: [char; 8],
}

impl ScriptText {
    fn new() -> ScriptText
        ensures { script.kept_of result ≡ script.first_kept }
    {
        ScriptText {
            depth: ScriptDepth::Outside,
            last: ['\0'; 8],
        }
    }

    /// Returns whether the text ends in a word, in any ASCII case. The word has at most eight bytes
    /// and no capitals.
    fn ends_in(&self, word: &str) -> bool
        requires { length word.now ≤ 8 }
        ensures { result ≡ ends_in word.now self.now.last }
    {
        let word = word.as_bytes();
        let end = &self.last[self.last.len() - word.len()..];
        for (index, c) in end.iter().enumerate() {
            if c.to_ascii_lowercase() != char::from(word[index]) {
                return false;
            }
        }
        true
    }

    /// Returns the depth behind the text and one more character.
    fn depth_behind(&self, c: char) -> ScriptDepth
        ensures { let kept = script.kept_of self.now in
            script.depth_of result ≡ script.depth_behind kept.0 kept.1 c }
    {
        match self.depth {
            ScriptDepth::Ended => ScriptDepth::Ended,
            ScriptDepth::Outside | ScriptDepth::Comment
                if is_tag_end(c) && self.ends_in("</script") => { ScriptDepth::Ended }
            ScriptDepth::Outside if c == '-' && self.ends_in("<!-") => ScriptDepth::Comment,
            ScriptDepth::Outside => ScriptDepth::Outside,
            _ if c == '>' && self.ends_in("--") => ScriptDepth::Outside,
            ScriptDepth::Comment if is_tag_end(c) && self.ends_in("<script") => ScriptDepth::Script,
            ScriptDepth::Script if is_tag_end(c) && self.ends_in("</script") => {
                ScriptDepth::Comment
            }
            depth => depth,
        }
    }

    fn behind(self, c: char) -> ScriptText
        ensures { script.kept_of result ≡ script.kept_behind (script.kept_of self) c }
    {
        let depth = self.depth_behind(c);
        let mut last = self.last;
        last.rotate_left(1);
        last[7] = c;
        ScriptText { depth, last }
    }

    fn behind_text(self, text: &str) -> ScriptText
        ensures { script.kept_of result
            ≡ fold script.kept_behind (script.kept_of self) (chars text.now) }
    {
        let mut read = self;
        for c in text.chars() {
            read = read.behind(c);
        }
        read
    }

    fn behind_node(self, node: &HtmlNode) -> ScriptText
        ensures { script.kept_of result ≡ fold script.kept_behind (script.kept_of self)
            (script.node_text (node_view node.now)) }
    {
        match node {
            HtmlNode::Text(text, _) => self.behind_text(text.as_str()),
            HtmlNode::Tag(_) | HtmlNode::Element(_) | HtmlNode::Frame(_) => self,
        }
    }

    fn hides_end(self) -> bool
        ensures { result ≡ script.is_in_script (script.kept_of self).0 }
    {
        matches!(self.depth, ScriptDepth::Script)
    }
}

/// Returns whether the end tag behind a script with these nodes is read as text.
pub(crate) fn hide_end(nodes: &[HtmlNode]) -> bool
    ensures { result ≡ script.hides_end (script.joined_text (nodes_view nodes.now)) }
{
    let mut read = ScriptText::new();
    for node in nodes {
        read = read.behind_node(node);
    }
    read.hides_end()
}
