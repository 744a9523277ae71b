//! The findings in a site.

use examples_links_files::NotGiven;
use html_page::{PageFault, Place};
use std::alloc::{AllocError, Global};
use std::fmt;

/// A page that is refused, or a page or folder that the system can't read.
#[derive(Drop)]
pub struct Unread {
    /// Its path, and the reason.
    pub what: NotGiven,
    /// The place where reading the page stops, and the number of the refusal.
    pub refusal: Option<(Place, u8)>,
}

impl Unread {
    /// Returns the reason why a page is not read. Fails if an allocation fails.
    pub fn by_fault(alloc: Global, path: &str, fault: &PageFault) -> Result<Unread, AllocError> {
        let (place, reason) = match fault {
            PageFault::OutOfMemory => return Err(AllocError),
            PageFault::UnknownLabel { label, place } => {
                (*place, format!(in alloc; "unknown encoding `{label}`")?)
            }
            PageFault::NotText { place } => {
                (*place, String::from_str(alloc, "a byte that is no text")?)
            }
            PageFault::Refused { refusal, place } => (*place, format!(in alloc; "{refusal}")?),
        };
        let path = String::from_str(alloc, path)?;
        Ok(Unread {
            what: NotGiven { path, reason },
            refusal: Some((place, fault.number())),
        })
    }
}

/// Writes `file:line:column: not read: why`, without the place if the system can't read the file.
impl fmt::Display for Unread {
    fn fmt<W: fmt::Write>(&self, f: &mut fmt::Formatter<W>) -> fmt::Result {
        let NotGiven { path, reason } = &self.what;
        match &self.refusal {
            Some((place, _)) => write!(f, "{path}:{place}: not read: {reason}"),
            None => write!(f, "{path}: not read: {reason}"),
        }
    }
}

/// A kind of finding in a link, an id or another node.
#[derive(Clone, Copy)]
pub enum Kind {
    /// A link to a fragment that leads to no place of its page.
    DeadFragment,
    /// A link to a path that does not exist.
    MissingFile,
    /// A link to a path that does not exist, but differs only in case from one that does.
    OtherCase,
    /// An id that an earlier element has.
    RepeatedId,
    /// An element that some browsers place otherwise, or fill.
    Misnested,
}

impl Kind {
    /// Returns its name in JSON.
    pub fn name(self) -> &'static str {
        match self {
            Kind::DeadFragment => "dead-fragment",
            Kind::MissingFile => "missing-file",
            Kind::OtherCase => "other-case",
            Kind::RepeatedId => "repeated-id",
            Kind::Misnested => "misnested",
        }
    }
}

/// A finding in a page.
#[derive(Drop)]
pub struct Finding<'a> {
    /// The path of the page.
    pub file: &'a str,
    /// Where its element begins.
    pub place: Place,
    /// The kind.
    pub kind: Kind,
    /// The link, if it is about one.
    pub link: Option<&'a str>,
    /// The target of the link, the path in another case, the id, or what becomes of the element.
    pub target: String,
}

/// Writes `file:line:column: what is wrong`.
impl fmt::Display for Finding<'_> {
    fn fmt<W: fmt::Write>(&self, f: &mut fmt::Formatter<W>) -> fmt::Result {
        let (file, place, target) = (self.file, &self.place, &self.target);
        let link = self.link.unwrap_or("");
        write!(f, "{file}:{place}: ")?;
        match self.kind {
            Kind::DeadFragment => {
                write!(f, "{link:?} leads nowhere: there is no place {target}")
            }
            Kind::MissingFile => write!(f, "{link:?} leads nowhere: there is no file {target}"),
            Kind::OtherCase => write!(f, "{link:?} differs in case from the file {target}"),
            Kind::RepeatedId => write!(f, "an element before has the id {target:?}"),
            Kind::Misnested => write!(f, "a browser reads this otherwise: it {target}"),
        }
    }
}
