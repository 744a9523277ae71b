//! The laws of the constants of tags and attributes: each is the name that its identifier spells.
#![tactic(auto)]

/// Makes an array of constants, each paired with its identifier.
macro_rules! identified {
    ($($name:ident,)*) => { [$((stringify!($name), $name)),*] };
}

pub mod attrs;
pub mod tags;
