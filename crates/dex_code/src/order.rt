ghost use Rattle.std.specs.Prelude.{◌≡◌};
ghost use Rattle.dex_code.specs.Next.{in_order};

/// Puts numbers in ascending order, each once.
pub fn put_in_order(numbers: &mut Vec<u32>)
    ensures { numbers.new.items ≡ in_order numbers.old.items }
{
    numbers.sort_unstable();
    numbers.dedup();
}
