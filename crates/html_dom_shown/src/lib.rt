//! What a tree shows once white space has collapsed, as a definition over its normal form.
//!
//! There is no code here, only definitions and their lemmas: a tree is a row of atoms, each blank is
//! judged by its neighbours, and what is left are visible pieces. The writer's laws and the page
//! text both speak of them.
#![tactic(auto)]
