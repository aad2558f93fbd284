//! The refused changes of a race.

ghost use Rattle.std.specs.Prelude.{◌≡◌, ◌<◌, true, false, length, get_or, All, IfOk, IfErr};
ghost use Rattle.std.specs.List.Sorted.{IsPermutation};
ghost use Rattle.mp_race.specs.RaceFault.{IsOfRace};
ghost use Rattle.mp_race.specs.Refusals.{AreInOrder, IsUntold};
ghost use Rattle.mp_race.specs.Inside.Marks.{IsMarked, IsUnmarked};

use crate::fault::RaceFault;
use crate::told::{Refused, Told};
use mp_memory::{Memory, NoMemory};

// For each of `tasks` commands, whether it has an entry.
fn marks_of(memory: Memory, tasks: usize, told: &[Told]) -> Result<Vec<bool, Memory>, NoMemory>
    ensures { IfOk result (λ marks. All (λ t. IsMarked marks.items t.task) told.now) }
{
    let mut marks = vec![in memory; false; tasks]?;
    for entry in told {
        let task = entry.task as usize;
        if task < marks.len() {
            marks[task] = true;
        }
    }
    Ok(marks)
}

fn is_unmarked(marks: &[bool], task: u64) -> bool
    ensures unmarked { result ≡ true → IsUnmarked marks.now task }
    ensures within { result ≡ true → task < length marks.now }
{
    let place = task as usize;
    place < marks.len() && !marks[place]
}

// Whether the commands are strictly increasing, and none is marked.
fn are_others(marks: &[bool], refused: &[Refused]) -> bool
    ensures order { result ≡ true → AreInOrder 0 refused.now }
    ensures unmarked { result ≡ true → All (λ r. IsUnmarked marks.now r.task) refused.now }
{
    let mut least = 0;
    for refusal in refused {
        if refusal.task < least || !is_unmarked(marks, refusal.task) {
            return false;
        }
        least = refusal.task + 1;
    }
    true
}

/// The refusals in the order of their commands: `number` of them, each of one of `tasks` commands and without an entry.
///
/// # Errors
/// `MissingEntry` with the number of entries, if there are more or fewer refusals, two of one command, or one of a command with
/// an entry. `NoMemory`.
pub fn order_refused(
    memory: Memory,
    tasks: usize,
    told: &[Told],
    number: u64,
    mut refused: Vec<Refused, Memory>,
) -> Result<Vec<Refused, Memory>, RaceFault>
    ensures number { IfOk result (λ found. length found.items ≡ number) }
    ensures same { IfOk result (λ found. IsPermutation refused.items found.items) }
    ensures order { IfOk result (λ found. AreInOrder 0 found.items) }
    ensures others { IfOk result (λ found. All (IsUntold told.now) found.items) }
    ensures fault { IfErr result IsOfRace }
{
    refused.sort_by_key(|refusal| refusal.task)?;
    let marks = marks_of(memory, tasks, told)?;
    if refused.len() as u64 != number || !are_others(&marks, &refused) {
        return Err(RaceFault::MissingEntry(told.len() as u64));
    }
    Ok(refused)
}
