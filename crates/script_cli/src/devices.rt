//! Devices: what a program reads from and writes to, watched for its first failure, and what passed through them as
//! data for contracts alone.

mod passed_bytes;
mod read_count;
mod traits;
mod watched;

pub use traits::{ByteSink, ByteSource};
pub use watched::Watched;
