ghost use Rattle.std.specs.Prelude.{◌≡◌, ◌≤◌, Ok, IfOk};
ghost use Rattle.case_keeper.specs.Keeper.{KeepCause};
ghost use Rattle.sqlite_keeper.specs.Counting.{counted};

use case_keeper::KeepFault;
use case_tables::Refusal;

/// Counts a refusal of the database; want of memory is not counted.
pub fn counting<T>(faults: &mut u64, done: Result<T, Refusal>) -> Result<T, KeepFault>
    ensures same { IfOk result (λ value. done ≡ Ok value) }
    ensures counted { faults.new ≡ counted faults.old result }
    ensures never_falls { faults.old ≤ faults.new }
    ensures cause { KeepCause faults.old faults.new result }
{
    match done {
        Ok(value) => Ok(value),
        Err(Refusal::Memory) => Err(KeepFault::Memory),
        Err(Refusal::Database | Refusal::Inconsistent) => {
            *faults = faults.saturating_add(1);
            Err(KeepFault::Failed)
        }
    }
}
