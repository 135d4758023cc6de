//! The two ends of a run: where its bytes come from, and where they go.
//!
//! A [`Source`] and a [`Sink`] say which bytes moved, where they can tell, and count their own
//! faults: a call that failed has a cause, which code that merely calls them cannot make up.
//! [`MemSource`] and [`MemSink`] are fakes that fail at chosen calls, [`QuietSource`] and
//! [`QuietSink`] never fail, and [`StdSource`] and [`StdSink`] are the outside world.
//!
//! What the two programs share stands here too: the words of the command line, and what a command
//! finds in them; pieces of a source, read up to a limit; and bytes, written to a sink till all are
//! taken.
#![tactic(auto)]

mod command_line;
pub mod limits;
mod mem_sink;
mod mem_source;
mod quiet_sink;
mod quiet_source;
mod reading;
mod sink;
mod source;
mod std_sink;
mod std_source;
mod tape;
mod writing;

pub use command_line::{Unread, arguments, bare_command, match_words, read_arguments};
pub use mem_sink::MemSink;
pub use mem_source::MemSource;
pub use quiet_sink::QuietSink;
pub use quiet_source::QuietSource;
pub use reading::{Piece, read_piece};
pub use sink::{Sink, Write};
pub use source::{Read, Source};
pub use std_sink::StdSink;
pub use std_source::StdSource;
pub use writing::{SinkFault, write_all};
