//! Instance texts of a job shop: OR-Library's jobshop1, one instance or a collection of named ones.
//!
//! The grammar is a relation on the whole list of lines.
#![tactic(auto)]

mod compare;
mod document;
mod kinds;
mod lines;
mod named;
mod or_fault;
mod readers;
mod reading;
mod words;

pub use document::{NotWritten, instance_document, instance_lines};
pub use named::Named;
pub use or_fault::OrFault;
pub use readers::{read_from_collection, read_instance, read_route};
