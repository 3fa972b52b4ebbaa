#![tactic(auto)]

// Records in, lines out. The definitions are in specs/.

pub mod bytes; // numbers of bytes
pub mod lines; // lines, as far as they fit
pub mod opening; // the opening
pub mod record; // whether a body is a record
pub mod setup; // what is read before the opening
pub mod signed_text; // signed numbers
mod contact; // the line of a contact
pub mod table; // the lines of a table and of contacts
pub mod text; // text written into bytes
pub mod told; // the line of an answer
