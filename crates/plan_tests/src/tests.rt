//! Tables of texts, plans and searches, and the rest of a run.

mod better_plans;
mod better_rests;
mod by_budget;
mod descending;
mod driven_on;
mod evidence;
mod instance_texts;
mod opened_plans;
mod plan_texts;
mod plans;
mod rests;
mod schedules;
mod scripted;
mod searches;
mod shapes;
mod solutions;
