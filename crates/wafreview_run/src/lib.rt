//! A run of the program: the words of a command line and files go in, one whole text and an exit status come out.
#![tactic(auto)]

mod answer;
mod command;
mod decimal;
mod impact_report;
mod impact_text;
mod keys_text;
mod laws;
mod letting_go;
mod named_files;
mod refusal;
mod replaying;
mod report;
mod reports;
mod review_text;
mod role;
mod running;
mod status;
mod writing;

pub use answer::Answer;
pub use laws::written_where_the_count_stayed;
pub use review_text::write_review;
pub use role::Role;
pub use running::run;
pub use status::Status;
pub use writing::write_answer;
