//! What a machine reads from and writes to: sources and sinks over memory, over a reader and over a writer,
//! with buffers and without. That they report their failures, and what each does after one, is this
//! processor's own choice.
#![tactic(auto)]

mod buffered;
mod characters;
mod counted;
mod device;
mod digits;
mod input;
mod output;
mod read_source;
mod retrying;
mod slice_sink;
mod slice_source;
mod write_sink;

pub use buffered::{BufferedReader, BufferedWriter};
pub use characters::{Characters, write_characters};
pub use device::{Next, Sink, SinkFailed, Source};
pub use digits::decimal_len;
pub use input::Input;
pub use output::Output;
pub use read_source::ReadSource;
pub use retrying::{RetryingReader, RetryingWriter, TRIES};
pub use slice_sink::SliceSink;
pub use slice_source::SliceSource;
pub use write_sink::WriteSink;
