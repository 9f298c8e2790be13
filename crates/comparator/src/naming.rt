ghost use Rattle.std.specs.Prelude.{◌≡◌};
ghost use Rattle.comparator.specs.Naming.{given, no_names, used};

use posix_terms::Limits;

// What no descriptor can be has this for its name.
const NO_NAME: i64 = -1;

/// How many descriptors were named, and the name of each number that has one now.
#[derive(Clone, Copy, Debug)]
pub(crate) struct Names {
    pub count: u32,
    pub of: [Option<u32>; Limits::DESCRIPTORS],
}

impl Names {
    // None was.
    pub fn new() -> Names
        ensures { result ≡ no_names }
    {
        Names {
            count: 0,
            of: [None; Limits::DESCRIPTORS],
        }
    }

    // A number is that of a new descriptor: its name.
    pub fn given(&mut self, number: i64) -> i64
        ensures { (self.new, result) ≡ given self.old number }
    {
        match usize::try_from(number) {
            Ok(number) if number < Limits::DESCRIPTORS => {
                let name = self.count;
                self.of[number] = Some(name);
                self.count = name.saturating_add(1);
                i64::from(name)
            }
            _ => NO_NAME,
        }
    }

    // A number is used: its name.
    pub fn used(&mut self, number: i64) -> i64
        ensures { (self.new, result) ≡ used self.old number }
    {
        if let Ok(place) = usize::try_from(number) {
            if let Some(Some(name)) = self.of.get(place) {
                return i64::from(*name);
            }
        }
        self.given(number)
    }
}
