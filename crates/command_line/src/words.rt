// Options that are more than one word or number.
ghost use Rattle.std.specs.Prelude.{IfSome};
ghost use Rattle.command_line.specs.Seeds.{AreSeeds};

/// The first seed of `A..B`, and the one after the last. There is one at least.
pub fn seeds_of(text: &str) -> Option<(u64, u64)>
    ensures { IfSome result (λ seeds. AreSeeds text.now seeds.0 seeds.1) }
{
    let (first, end) = text.split_once("..")?;
    let (first, end) = (first.parse::<u64>().ok()?, end.parse::<u64>().ok()?);
    (first < end).then_some((first, end))
}
