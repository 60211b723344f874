//! How the page looks and what it does: constant texts, each the bytes of a file of `look/`.

pub(crate) mod bar;
pub(crate) mod style;
pub(crate) mod timetable_script;
pub(crate) mod view_script;
