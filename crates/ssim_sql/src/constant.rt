//! Constant parts of a script, from the files of `schema/`.

pub(crate) mod heads;
pub(crate) mod tables;
pub(crate) mod views;
