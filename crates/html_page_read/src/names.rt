//! A cache of the names of tags, so that most are looked up once.

ghost use Rattle.std.specs.Prelude.{◌≡◌, ◌<◌, IfOk, IfSome, MatchOption, OnOk, chars, false, true};
ghost use Rattle.html_names_core.specs.Characters.{IsOf, is_tag_char};
ghost use Rattle.html_page_read.specs.PageTokens.{is_name};

use crate::draft::tag_named;
use html_page_stack::TagName;
use std::alloc::{AllocError, Global};

/// The number of cached names.
const MOST_NAMES: usize = 64;

/// The length of the longest cached name.
const LONGEST: usize = 12;

/// Names that were read, each at an index that its text determines.
#[derive(Drop)]
pub(crate) struct Names {
    kept: Vec<Option<TagName>>,
}

/// Returns the index of a name in the cache.
fn place_of(name: &str) -> usize {
    match name.as_bytes() {
        [first, .., last] => {
            (usize::from(*first) * 5 + usize::from(*last) * 3 + name.len()) % MOST_NAMES
        }
        [first] => usize::from(*first) % MOST_NAMES,
        [] => 0,
    }
}

impl Names {
    pub(crate) fn new(alloc: Global) -> Names {
        Names {
            kept: Vec::new(alloc),
        }
    }

    /// Returns the name, if it is cached.
    fn get(&self, name: &str) -> Option<&TagName>
        ensures same { IfSome result (λ found. found.now.tag ≡ chars name.now) }
        ensures valid { IfSome result (λ found. IsOf is_tag_char found.now.tag) }
    {
        match self.kept.get(place_of(name)) {
            Some(Some(found)) if found.tag.resolve() == name => Some(found),
            _ => None,
        }
    }

    /// Caches a name, replacing another, unless it is long.
    fn keep(&mut self, name: &TagName) -> Result<(), AllocError> {
        let text = name.tag.resolve();
        if LONGEST < text.len() {
            return Ok(());
        }
        for _ in self.kept.len()..MOST_NAMES {
            self.kept.push(None)?;
        }
        if let Some(place) = self.kept.get_mut(place_of(text)) {
            *place = Some(name.try_clone()?);
        }
        Ok(())
    }

    /// Returns the name of a tag, if it is one.
    #[tactic(auto, using(crate::proofs::TagNames::name_of_tag))]
    pub(crate) fn named(&mut self, alloc: Global, name: &str) -> Result<Option<TagName>, AllocError>
        ensures { IfOk result (λ found. MatchOption found (is_name (chars name.now) ≡ false)
            (λ tag. (tag.tag ≡ chars name.now) × (is_name (chars name.now) ≡ true))) }
    {
        if let Some(known) = self.get(name) {
            return Ok(Some(known.try_clone()?));
        }
        let Some(tag) = tag_named(alloc, name)? else {
            return Ok(None);
        };
        let found = TagName::new(tag);
        self.keep(&found)?;
        Ok(Some(found))
    }
}
