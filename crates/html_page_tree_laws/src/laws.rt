//! Laws of the tokens of pages. Each function has a law as its contract, and does nothing.

ghost use Rattle.html_page_tree_laws.specs.TokensTaken.{TokensTaken, TurnsEnd};

/// Each token of each page is taken within the turns that it has.
pub fn tokens_are_taken()
    ensures { TokensTaken }
{}

/// So more turns would change nothing.
pub fn turns_end()
    ensures { TurnsEnd }
{}
