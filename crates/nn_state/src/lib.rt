//! Storage states: what the folders of a name directory say it is in the middle of.
//! It knows nothing of what the files hold.
#![tactic(auto)]

mod analysis;
mod bay;
mod reading;
mod recovery;
mod renaming;
mod serving;
mod settling;
mod state;
mod typed;

pub use analysis::{found, table};
pub use bay::{Bay, BayFault, recover_found};
pub use reading::look;
pub use serving::seat;
pub use settling::Stuck;
pub use state::{Seven, StorageState, Why};
pub use typed::{
    CompleteCheckpoint, CompleteFinalize, CompleteRollback, CompleteUpgrade, Found, Fresh,
    NonExistent, Normal, NotFormatted, Ready, ReadyWithPrevious, RecoverCheckpoint,
    RecoverRollback, RecoverUpgrade, Settled,
};
