//! The top call of Ribbit: the words of a command line in, a status and its text out.
//!
//! A command goes through steps that each give the next what it needs, or the answer at which all
//! ends: a status with the line that says why. So each answer is the first that is due. Take
//! `run list.rib 100 4096 7`:
//!
//! ```text
//! parse             the command                          or usage, at a word
//! read_within       the bytes of list.rib                or a file too long, or not read
//! accept            its program, agreed with layouts     or the first fault of the file
//! compile           code
//! read_arguments    the values of main                   or the word that is none
//! answer_main       the value of main                    or calls, or the region, are spent
//! print_value       its text
//! print             the text to the first sink           or a sink that fails
//! ```
//!
//! Nothing is written before the text is whole: that of status 0 goes to the first sink, the line
//! of any other to the second. Want of memory is the one answer that is left open, at any step.
//!
//! There is a file for each command. [`top`] puts them together, and its contract is the main
//! theorem: the status and the bytes in both sinks are those that the definition of the command
//! says, for what the source handed out.
#![tactic(auto)]

pub mod check;
pub mod compile;
pub mod count;
pub mod exec;
pub mod generate;
pub mod image;
pub mod laws;
pub mod layout;
pub mod peek;
pub mod run;
pub mod top;
pub mod value;
