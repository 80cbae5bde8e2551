// The table of storage states.
ghost use Rattle.std.specs.Prelude.{◌≡◌, IfOk, IfErr, Ok, Err};
ghost use Rattle.nn_state.specs.Table.{table_of, tmp_count as count_of};
ghost use Rattle.nn_state.specs.Typed.{state_of, dir_of};

use crate::typed::in_state;
use crate::{Found, Seven, StorageState, Why};
use nn_base::DirNo;

/// The storage state of these folders, or why none fits: the table of Hadoop's `StorageDirectory.analyzeStorage`.
#[tactic(auto, unfolding(crate::specs::Table::table_of))]
pub fn table(seven: Seven) -> Result<StorageState, Why>
    ensures { result ≡ table_of seven }
{
    if !seven.root {
        return Ok(StorageState::NonExistent);
    }
    if tmp_count(seven) > 1 {
        return Err(Why::SeveralTmp);
    }
    if seven.last_checkpoint_tmp {
        return match seven.current {
            true => Ok(StorageState::CompleteCheckpoint),
            false => Ok(StorageState::RecoverCheckpoint),
        };
    }
    if seven.finalized_tmp {
        return match seven.previous {
            true => Err(Why::FinalizedAndPrevious),
            false => Ok(StorageState::CompleteFinalize),
        };
    }
    if seven.previous_tmp {
        return match (seven.previous, seven.current) {
            (true, _) => Err(Why::UpgradeAndPrevious),
            (false, true) => Ok(StorageState::CompleteUpgrade),
            (false, false) => Ok(StorageState::RecoverUpgrade),
        };
    }
    if seven.removed_tmp {
        return match (seven.current, seven.previous) {
            (true, true) => Err(Why::RollbackBoth),
            (false, false) => Err(Why::RollbackNeither),
            (true, false) => Ok(StorageState::CompleteRollback),
            (false, true) => Ok(StorageState::RecoverRollback),
        };
    }
    match (seven.current, seven.previous) {
        (true, _) => Ok(StorageState::Normal),
        (false, true) => Err(Why::PreviousAlone),
        (false, false) => Ok(StorageState::NotFormatted),
    }
}

/// Directory `i` in the state of these folders, or why none fits.
pub fn found(i: DirNo, seven: Seven) -> Result<Found, Why>
    ensures state { IfOk result (λ it. table_of seven ≡ Ok (state_of it)) }
    ensures dir { IfOk result (λ it. dir_of it ≡ i) }
    ensures err { IfErr result (λ why. table_of seven ≡ Err why) }
{
    match table(seven) {
        Ok(state) => Ok(in_state(i, state)),
        Err(why) => Err(why),
    }
}

fn tmp_count(seven: Seven) -> u8
    ensures { result ≡ count_of seven }
{
    u8::from(seven.previous_tmp)
        + u8::from(seven.removed_tmp)
        + u8::from(seven.finalized_tmp)
        + u8::from(seven.last_checkpoint_tmp)
}
