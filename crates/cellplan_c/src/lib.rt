//! The controller of a cell as a library for C.
//!
//! `include/cellplan.h` declares the calls, and says what no clause can: how a cell begins, that buffers are apart,
//! and that one call at a time is in a cell. Each call that works a cell takes its controller out, calls cell_control,
//! and puts it back; so the clauses of that library are repeated here.
#![tactic(auto)]

mod answers;
mod cell;
mod cells;
mod faults;
mod hand_overs;
mod inner;
mod instances;
mod names;
mod numbers;
mod promised;
mod raw_box;
mod readers;
mod reports;
mod rests;
mod rooms;
mod slot;
mod statuses;
