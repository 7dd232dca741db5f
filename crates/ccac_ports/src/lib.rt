//! What the program takes from outside and gives to it: a folder of named files to fetch from and
//! a sink to put the report into, each as a trait, in memory, and as the real thing.
#![tactic(auto)]

mod mem_folder;
mod mem_sink;
mod ports;
mod real_folder;
mod real_sink;
mod streams;
#[cfg(test)]
mod tests;

pub use mem_folder::MemFolder;
pub use mem_sink::MemSink;
pub use ports::{FetchFault, Folder, PutFault, Sink};
pub use real_folder::RealFolder;
pub use real_sink::RealSink;
