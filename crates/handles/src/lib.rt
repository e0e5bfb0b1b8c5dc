//! Worlds of text widgets behind a pointer that a C program keeps, and the calls on them.
#![tactic(auto)]

mod calls;
pub mod ends;
mod handle;
mod loose;
mod report;
mod report_calls;
mod report_handle;
mod room;
mod session;
mod turns;
mod words;

pub use handle::Handle;
pub use report_handle::ReportHandle;
