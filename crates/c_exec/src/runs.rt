// Runs of words.
ghost use Rattle.std.specs.Prelude.{◌≡◌, ◌+◌, ◌*◌, take, drop, length};
ghost use Rattle.c_exec.specs.Runs.{written};

/// At most `n` words from `at` on.
pub(crate) fn run_of(words: &[u64], at: usize, n: usize) -> &[u64]
    ensures { result.now ≡ take n (drop at words.now) }
{
    let (_, rest) = words.split_at(at.min(words.len()));
    let (run, _) = rest.split_at(n.min(rest.len()));
    run
}

/// Where element `k` begins, each having `n` words, the first at `at`.
pub(crate) fn spot(at: u32, k: u32, n: u32) -> usize
    ensures { result ≡ at + k * n }
{
    at as usize + k as usize * n as usize
}

/// Writes a run of words from `at` on, as far as there are words.
pub(crate) fn write(words: &mut [u64], at: usize, run: &[u64])
    ensures items { words.new ≡ written at run.now words.old }
    ensures long { length words.new ≡ length words.old }
{
    let mut to = at;
    for word in run {
        if words.len() <= to {
            return;
        }
        words[to] = *word;
        to += 1;
    }
}
