// What can be undefined.
ghost use Rattle.std.specs.Prelude.{◌≡◌};
ghost use Rattle.c99_tree.specs.UndefinedCode.{undefined_code};

/// Why the evaluation of a program has no defined result.
#[derive(Clone, Copy, Debug, PartialEq, Eq)]
pub enum Undefined {
    /// A signed result out of range (6.5 paragraph 5), or the least value divided by -1.
    Overflow = 1,
    /// A division or a remainder by zero (6.5.5).
    ZeroDivisor = 2,
    /// A shift by a count out of range, or of a negative value (6.5.7).
    BadShift = 3,
    /// A subscript outside of its array (6.5.2.1, 6.5.6).
    BadIndex = 4,
    /// A conversion to a signed type that can't hold the value (6.3.1.3).
    BadConversion = 5,
}

impl Undefined {
    /// Its number: 1 for Overflow, 2 for ZeroDivisor, 3 for BadShift, 4 for BadIndex, 5 for BadConversion.
    pub fn code(self) -> u8
        ensures { result ≡ undefined_code self }
    {
        self as u8
    }
}
