// What expressions and buffers weigh is the size of the plain trees that stand for them.
ghost use Rattle.std.specs.Prelude.{◌≡◌, ℕ, map, slice_get, sum, Some};
ghost use Rattle.stream_core.specs.declared.spec.LibItem.{LibItem};
ghost use Rattle.stream_core.specs.Value.{SpecValue};
ghost use Rattle.stream_core.specs.Limits.{plain_weight};
ghost use Rattle.stream_core.specs.WellTyped.{WellTyped};
ghost use Rattle.stream_core.specs.Weights.{buffers_weight, heaviest_buffer, heavy};
ghost use Rattle.stream_core.specs.PlainTrees.{buffer_weights, greatest, plain_tree};

/// What a node weighs by the weights of its parts is the number of nodes of its plain tree, in which each library form is
/// written out as its value over its buffers, and each def as its expression.
pub fn nodes_weigh_their_plain_trees()
    ensures { (s : SpecValue) (i : ℕ) → heavy s i ≡ plain_weight (plain_tree s i) }
{}

/// What a library form's buffers weigh by the weights of its operands is the sum of their plain expressions' weights, and
/// what the heaviest of them weighs is the greatest of these.
pub fn buffers_weigh_their_plain_trees()
    ensures all { (s : SpecValue) (k : ℕ) (x : LibItem) → buffers_weight x.form (map (heavy s) x.args) ≡ sum (buffer_weights s k x) }
    ensures heaviest { (s : SpecValue) (k : ℕ) (x : LibItem) → WellTyped s → slice_get s.libs k ≡ Some x → heaviest_buffer x.form (map (heavy s) x.args) ≡ greatest (buffer_weights s k x) }
{}
