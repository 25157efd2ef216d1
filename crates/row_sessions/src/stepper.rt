// A machine that is stepped over rows.
ghost use Rattle.std.specs.Prelude.{◌≡◌, ◌∷◌, ◌++◌, [], List, ℕ, Result, OnOk};
ghost use Rattle.stream_types.specs.Types.{AreWords};
ghost use Rattle.row_sessions.specs.Stepping.{MayStep, IsStep, output};

use crate::ending::Stop;
use sm_io::Sink;

/// A machine that is stepped over rows of words. Each step writes lines, or has a fault. What a step over some rows
/// answers never changes.
pub trait Stepper<F> {
    ghost use Rattle.stream_types.specs.declared.scalar.Scalar.{Scalar};

    /// What the step over the last of some rows writes, or its fault.
    ghost answers: { Self → List (List ℕ) → Result (List ℕ) F };

    /// It was stepped over these rows, one after another.
    ghost stands: { Self → List (List ℕ) → Type 0 };

    /// The scalars of a row that it takes.
    ghost scalars: { Self → List Scalar };

    /// Steps over one row more. It writes the step's lines, or has its fault and writes nothing. `Failed` comes only
    /// where the sink failed, and leaves the first bytes of the lines.
    fn step<K: Sink>(&mut self, row: &[u64], out: &mut K) -> Result<(), Stop<F>>
        requires stands { MayStep (stands self.old) }
        requires words { AreWords (scalars self.old) row.now }
        ensures answers { answers self.new ≡ answers self.old }
        ensures scalars { scalars self.new ≡ scalars self.old }
        ensures step { (rows : List (List ℕ)) → stands self.old rows → IsStep (answers self.old (rows ++ row.now ∷ [])) (output (K.taken out.old) (K.faults out.old)) (output (K.taken out.new) (K.faults out.new)) result }
        ensures next { (rows : List (List ℕ)) → stands self.old rows → OnOk result (stands self.new (rows ++ row.now ∷ [])) };
}
