//! Sessions over a source and a sink: a grammar, a text, and questions about the spans of its
//! tokens. A grammar may also be read by itself, as the language by which texts are opened.
#![tactic(auto)]

mod accepting;
mod answering;
mod ending;
mod known_texts;
mod language;
mod options;
mod outcomes;
mod refusals;
mod replies;
mod reply;
mod replying;
mod serving;
mod session;
mod status;
mod token_lines;
mod version;

pub use accepting::{LanguageFault, read_language};
pub use language::Language;
pub use options::Options;
pub use outcomes::{AskFault, Opened, Refusal, SessionFault};
pub use serving::serve;
pub use session::Session;
pub use version::Version;
