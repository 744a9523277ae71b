//! Comments (HTML Standard 13.2.5.43 to 13.2.5.52).

ghost use Rattle.std.specs.Prelude.{◌≡◌, OnOk};
ghost use Rattle.html_page_read.specs.PageTokens as tokens;
ghost use Rattle.html_page_read.specs.PageReaderViews.{reader_of, reading_of};

use crate::reader::{Reader, State};
use html_page_stack::PageError;
use std::alloc::AllocError;

/// The reader's state in a comment (HTML Standard 13.2.5.43 to 13.2.5.52).
#[derive(Clone, Copy, Debug, PartialEq, Eq)]
pub(crate) enum CommentPart {
    Start,
    StartDash,
    Within,
    Less,
    LessBang,
    LessBangDash,
    LessBangDashes,
    EndDash,
    End,
    EndBang,
}

/// Returns the part that any other character leads to.
fn within(c: char) -> CommentPart
    ensures { result ≡ tokens.within_comment c }
{
    match c {
        '<' => CommentPart::Less,
        '-' => CommentPart::EndDash,
        _ => CommentPart::Within,
    }
}

/// Returns the part of a comment after a character, if the comment goes on.
fn next_part(part: CommentPart, c: char) -> Option<CommentPart>
    ensures { result ≡ tokens.next_part part c }
{
    use CommentPart::{
        End, EndBang, EndDash, Less, LessBang, LessBangDash, LessBangDashes, Start, StartDash,
        Within,
    };
    match (part, c) {
        (Start | StartDash | LessBangDashes | End | EndBang, '>') => None,
        (Start, '-') => Some(StartDash),
        (StartDash | LessBangDashes | EndDash | End, '-') => Some(End),
        (Less, '!') => Some(LessBang),
        (LessBang, '-') => Some(LessBangDash),
        (LessBangDash, '-') => Some(LessBangDashes),
        (LessBangDashes | End, '!') => Some(EndBang),
        (EndBang, '-') => Some(EndDash),
        (Within | Less | _, _) => Some(within(c)),
    }
}

/// Returns the error that a character is in a comment.
fn error_of(part: CommentPart, c: char) -> Option<PageError>
    ensures { result ≡ tokens.comment_error part c }
{
    match part {
        CommentPart::Start | CommentPart::StartDash if c == '>' => {
            Some(PageError::AbruptClosingOfEmptyComment)
        }
        CommentPart::LessBangDashes if c != '>' => Some(PageError::NestedComment),
        CommentPart::EndBang if c == '>' => Some(PageError::IncorrectlyClosedComment),
        _ => None,
    }
}

impl Reader {
    pub(crate) fn comment(&mut self, c: char) -> Result<(), AllocError>
        ensures { OnOk result (reader_of self.new
            ≡ tokens.comment_read self.old.part c (reading_of self.old.reading)) }
    {
        self.reading.note_some(error_of(self.part, c))?;
        match next_part(self.part, c) {
            None => {
                self.reading.pass_comment()?;
                self.state = State::Data;
            }
            Some(part) => {
                self.part = part;
                self.state = State::Comment;
            }
        }
        Ok(())
    }
}
