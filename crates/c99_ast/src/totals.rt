// Sums that are told up to a bound.
ghost use Rattle.std.specs.Prelude.{◌≡◌, ◌+◌, ◌*◌, ◌≤◌};
ghost use Rattle.c99_ast.specs.Bound.{up_to_bound};

/// The bound of the totals that this crate tells: more than any total that a program can state.
pub const BOUND: u64 = 0x1_0000_0000;

// The sum of two totals.
pub fn sum(a: u64, b: u64) -> u64
    requires left { a ≤ 4294967296 }
    requires right { b ≤ 4294967296 }
    ensures { result ≡ up_to_bound (a + b) }
{
    (a + b).min(BOUND)
}

// A total, a number of times.
pub fn times(n: u32, a: u64) -> u64
    requires { a ≤ 4294967296 }
    ensures { result ≡ up_to_bound (n * a) }
{
    u64::from(n).saturating_mul(a).min(BOUND)
}
