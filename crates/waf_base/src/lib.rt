//! What stands between the product and the outside: files that are read, a sink that is written, memory that may
//! be wanting, and the count of nodes that a review may make.
#![tactic(auto)]

mod counter;
mod files;
mod look_up;
mod memory_files;
mod memory_sink;
mod meter;
mod named_file;
mod real_files;
mod refusal;
mod sink;
mod standard_sink;
mod sure_files;
mod sure_sink;
mod text;

pub use files::{FileEnd, Files, LONGEST_FILE};
pub use memory_files::MemFiles;
pub use memory_sink::MemSink;
pub use meter::Meter;
pub use named_file::NamedFile;
pub use real_files::RealFiles;
pub use refusal::{Full, Memory, Stop};
pub use sink::{Failed, Sink};
pub use sqlite_items::{Boxed, Items};
pub use standard_sink::StdSink;
pub use sure_files::SureFiles;
pub use sure_sink::SureSink;
pub use text::Text;
