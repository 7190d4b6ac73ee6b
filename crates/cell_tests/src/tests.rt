//! Worked runs, faulty devices, logs that survive a crash, and what they are made of.

mod calling;
mod cells;
mod controller_runs;
mod crashes;
mod devices;
mod driven;
mod driven_devices;
mod driven_inputs;
mod dues;
mod events;
mod faults;
mod folders;
mod from_nothing;
mod full_logs;
mod gantt_texts;
mod hubs;
mod kept_runs;
mod log_lines;
mod many_orders;
mod memory_log;
mod memory_logs;
mod one_byte_writer;
mod piece_reader;
mod recoverable;
mod two_jobs;
mod worked_runs;
