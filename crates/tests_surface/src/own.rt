//! A user's whole implementation of each trait that users may implement.

mod attr;
mod frame;
mod part;
mod sink;
mod value;
mod warns;
