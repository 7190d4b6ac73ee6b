//! The answers of the commands of `cellplan`, as functions over the files that are asked for.
//!
//! What comes of texts belongs to the shop and the plan that they give, and comes whenever they give them, unless
//! memory runs out. A fault is the instance's first, or the plan's first if the instance gives a shop.
//!
//! A command over files asks for the instance's file and reads it, then for the plan's, and if the plan (of `bounds`
//! and `decide` its numbers) is sound for that of names, where one is given, and then for the log's. The first that
//! can't be had, or gives no instance, no plan or no names, ends the command with its fault.
#![tactic(auto)]

mod answer;
mod asked_job;
mod bound_answers;
mod bound_lines;
mod cells;
mod chapters;
mod checks;
mod command_fault;
mod decides;
mod decision_lines;
mod digests;
mod explains;
mod facts;
mod improves;
mod inputs;
mod instance_texts;
mod known_rests;
mod lines;
mod loading;
mod logs;
mod made_jobs;
mod margins;
mod moves;
mod naming;
mod parsing;
mod pictures;
mod rest_decides;
mod rest_improves;
mod rests;
mod revises;
mod search;
mod shape_faults;
mod shapes;
mod states;
mod texts;
mod whole_file;

pub use answer::{Answer, Answered, CommandResult, GOOD, REFUSED};
pub use bound_answers::bounds_answer;
pub use cells::{Cells, load_cells};
pub use chapters::other_plan_answer;
pub use checks::{check, loaded_answer};
pub use command_fault::CommandFault;
pub use decides::decide_answer;
pub use digests::digest_answer;
pub use explains::explain;
pub use facts::{facts_answer, facts_of};
pub use improves::improve_answer;
pub use inputs::{Files, InputPaths, RunFiles, shape_files};
pub use lines::log_refused;
pub use loading::{Loaded, load, load_files, load_shaped};
pub use logs::{LogAnswer, log_answer, log_fault_answer};
pub use margins::margin_answer;
pub use moves::moves_answer;
pub use pictures::{Drawn, log_picture, schedule_picture};
pub use rests::{PlanAnswer, answer_rest, rest_answer, run_fault_answer};
pub use revises::{Revised, Revision, revise_answer};
pub use search::plan_answer;
pub use shapes::shape_answer;
pub use states::state_answer;
pub use texts::Texts;
pub use whole_file::read_whole;
