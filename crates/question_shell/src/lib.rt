//! Question lines in, replies out: the shell around whatever answers questions.
//!
//! `run` answers the lines of a source one after another, through a buffer of fixed size. It says
//! exactly the replies that filtering the answerer's chart gives. Its `Desk` holds up to 16 walks
//! over paths, which lines draw from in turn.
#![tactic(auto)]

mod answer;
mod answering;
mod asking;
mod bad;
mod counting;
mod desk;
mod form;
mod found;
mod grammar;
mod held_text;
mod item;
mod layout;
mod line_buffer;
mod line_cut;
mod listening;
mod named_fact;
mod number_word;
mod region_reading;
mod reply;
mod reply_line;
mod room;
mod saying;
mod shape_reading;
mod shape_words;
mod shell;
mod shell_fault;
mod time;
mod turn_fault;
mod words;

pub use answering::say_reply;
pub use bad::Bad;
pub use counting::count_found;
pub use desk::Desk;
pub use grammar::read_question;
pub use shell::run;
pub use shell_fault::ShellFault;
pub use turn_fault::TurnFault;
