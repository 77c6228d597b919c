ghost use Rattle.std.specs.Prelude.{◌≡◌, ◌==◌, not, filter};

/// Keeps the numbers that aren't this one.
pub fn keep_others(x: u32, numbers: &mut Vec<u32>)
    ensures { numbers.new.items ≡ filter (λ other. not (other == x)) numbers.old.items }
{
    numbers.retain(|other| *other != x);
}
