// Why rows give no outcome.
use mix_text::Fault;
use thiserror::Error;

/// Why the rows after an auction give no outcome of it.
#[derive(Clone, Copy, PartialEq, Eq, Debug, Error)]
pub enum OutcomeError {
    #[error("row {}: {:?}", .0.at, .0.code)]
    Fault(Fault),
    #[error("out of memory")]
    Memory,
}
