// Which folders of a name directory serve.
ghost use Rattle.std.specs.Prelude.{◌≡◌};
ghost use Rattle.nn_state.specs.Seat.{seat_in, seat_of};

use crate::{Seven, StorageState, table};
use nn_base::Sub;

/// The folder that serves as current, and the one that serves as previous, before the directory is recovered as well as
/// after it. None where there is no such folder, or where the table calls the directory inconsistent.
pub fn seat(seven: Seven) -> (Option<Sub>, Option<Sub>)
    ensures current { result.0 ≡ (seat_of seven).current }
    ensures previous { result.1 ≡ (seat_of seven).previous }
{
    match table(seven) {
        Ok(state) => seat_of_state(state, seven),
        Err(_) => (None, None),
    }
}

fn seat_of_state(state: StorageState, seven: Seven) -> (Option<Sub>, Option<Sub>)
    ensures current { result.0 ≡ (seat_in state seven).current }
    ensures previous { result.1 ≡ (seat_in state seven).previous }
{
    let previous = if seven.previous {
        Some(Sub::Previous)
    } else {
        None
    };
    match state {
        StorageState::NonExistent | StorageState::NotFormatted => (None, None),
        StorageState::Normal | StorageState::CompleteCheckpoint => (Some(Sub::Current), previous),
        StorageState::RecoverCheckpoint => (Some(Sub::LastCheckpointTmp), previous),
        StorageState::CompleteUpgrade => (Some(Sub::Current), Some(Sub::PreviousTmp)),
        StorageState::RecoverUpgrade => (Some(Sub::PreviousTmp), None),
        StorageState::CompleteFinalize if seven.current => (Some(Sub::Current), None),
        StorageState::CompleteFinalize => (None, None),
        StorageState::CompleteRollback => (Some(Sub::Current), None),
        StorageState::RecoverRollback => (Some(Sub::RemovedTmp), Some(Sub::Previous)),
    }
}
