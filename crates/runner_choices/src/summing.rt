ghost use Rattle.std.specs.Prelude.{◌≡◌, ◌+◌, IfOk};

use vet_base::Memory;

/// The sum of two counts. Beyond what can be counted it is want of memory.
pub fn sum(one: usize, other: usize) -> Result<usize, Memory>
    ensures { IfOk result (λ all. all ≡ one + other) }
{
    if other > usize::MAX - one {
        return Err(Memory);
    }
    Ok(one + other)
}
