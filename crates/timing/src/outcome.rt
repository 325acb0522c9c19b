//! What a file comes to.
use texts::SentBack;
use visits::visit::SettledTable;

/// What is told of a plan file: its plan settles, or the file or the settle is sent back.
pub type Outcome = Result<SettledTable, SentBack>;
