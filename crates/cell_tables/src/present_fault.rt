use shop_base::Moment;
use thiserror::Error;

/// Why a moment isn't the present one of a run: the first reason.
#[derive(Clone, Copy, Debug, PartialEq, Eq, Error)]
pub enum PresentFault {
    /// It is before the last moment of the run.
    #[error("Past {last}")]
    Past { last: Moment },
    /// It is past the latest.
    #[error("TooLarge")]
    TooLarge,
}
