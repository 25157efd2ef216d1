// What is true of every type list and of every operator.
ghost use Rattle.std.specs.Prelude.{◌≡◌, ◌++◌, ◌*◌, ◌<◌, ℕ, List, [], ◌∷◌, length, take, drop, slice_get, sum_by, IfOk, IsTrue, Some};
ghost use Rattle.std.specs.List.{flat_map};
ghost use Rattle.stream_types.specs.declared.scalar.Scalar.{Scalar};
ghost use Rattle.stream_types.specs.declared.scalar.Ty.{Ty};
ghost use Rattle.stream_types.specs.declared.scalar.Ty.TheVariants as ty;
ghost use Rattle.stream_types.specs.declared.scalar.Op1.{Op1};
ghost use Rattle.stream_types.specs.declared.scalar.Op2.{Op2};
ghost use Rattle.stream_types.specs.declared.scalar.Dir.{Dir};
ghost use Rattle.stream_types.specs.declared.types.Field.{Field};
ghost use Rattle.stream_types.specs.declared.types.TypeEntry.{TypeEntry};
ghost use Rattle.stream_types.specs.declared.types.TypeEntry.TheVariants as entry;
ghost use Rattle.stream_types.specs.Scalars.{is_integer, op1_fits, op2_fits, op2_gives, shift_fits, cast_fits};
ghost use Rattle.stream_types.specs.Numbers.{is_word, op1_word, op2_word, shift_word, cast_word, abs_word, sign_word};
ghost use Rattle.stream_types.specs.Types.{words, size, scalar_bytes, repeated, leaves, field_first, field_words, AreWords};
ghost use Rattle.stream_types.specs.TypeList.{Stands, IsTypeList};

/// The scalars of a value: a scalar's is itself, an array's are those of its element so many times, and a struct's those
/// of its members in order.
pub fn leaves_follow_entries()
    ensures scalar { (types : List TypeEntry) (s : Scalar) → leaves types (ty.Scalar s) ≡ s ∷ [] }
    ensures array { (types : List TypeEntry) (i n : ℕ) (elem : Ty) → IsTypeList types
        → slice_get types i ≡ Some (entry.Array elem n) → leaves types (ty.Array i) ≡ repeated n (leaves types elem) }
    ensures members { (types : List TypeEntry) (i : ℕ) (name : List ℕ) (fields : List Field) → IsTypeList types
        → slice_get types i ≡ Some (entry.Struct name fields)
        → leaves types (ty.Struct i) ≡ flat_map (λ (f : Field). leaves types f.ty) fields }
{}

/// A longer type list leaves the scalars, the words and the bytes of a type as they are.
pub fn types_stay_in_longer_lists()
    ensures leaves { (types more : List TypeEntry) (t : Ty) → Stands types t → leaves (types ++ more) t ≡ leaves types t }
    ensures words { (types more : List TypeEntry) (t : Ty) → Stands types t → words (types ++ more) t ≡ words types t }
    ensures size { (types more : List TypeEntry) (t : Ty) → Stands types t → size (types ++ more) t ≡ size types t }
{}

/// A value has one word for each of its scalars, and the bytes of them all.
pub fn values_have_a_word_for_each_leaf()
    ensures words { (types : List TypeEntry) (t : Ty) → length (leaves types t) ≡ words types t }
    ensures bytes { (types : List TypeEntry) (t : Ty) → sum_by scalar_bytes (leaves types t) ≡ size types t }
    ensures row { (ss : List Scalar) (ws : List ℕ) → AreWords ss ws → length ws ≡ length ss }
{}

/// An element of an array's words, and a member of a struct's, are words of its own scalars.
pub fn parts_are_words()
    ensures element { (types : List TypeEntry) (i n k : ℕ) (elem : Ty) (v : List ℕ) → IsTypeList types
        → slice_get types i ≡ Some (entry.Array elem n) → k < n → AreWords (leaves types (ty.Array i)) v
        → AreWords (leaves types elem) (take (words types elem) (drop (k * words types elem) v)) }
    ensures member { (types : List TypeEntry) (i k : ℕ) (name : List ℕ) (fields : List Field) (f : Field) (v : List ℕ) → IsTypeList types
        → slice_get types i ≡ Some (entry.Struct name fields) → slice_get fields k ≡ Some f → AreWords (leaves types (ty.Struct i)) v
        → AreWords (leaves types f.ty) (take (field_words types fields k) (drop (field_first types fields k) v)) }
{}

/// What an operator that fits answers to words of its operands' scalars is a word of its answer's scalar.
pub fn operators_answer_words()
    ensures op1 { (o : Op1) (s : Scalar) (a : ℕ) → IsTrue (op1_fits o s) → IsTrue (is_word s a) → IsTrue (is_word s (op1_word o s a)) }
    ensures op2 { (o : Op2) (s : Scalar) (a b : ℕ) → IsTrue (op2_fits o s) → IsTrue (is_word s a) → IsTrue (is_word s b)
        → IfOk (op2_word o s a b) (λ w. IsTrue (is_word (op2_gives o s) w)) }
    ensures shift { (d : Dir) (s : Scalar) (a : ℕ) (t : Scalar) (c : ℕ) → IsTrue (shift_fits s t) → IsTrue (is_word s a)
        → IfOk (shift_word d s a t c) (λ w. IsTrue (is_word s w)) }
    ensures cast { (from to : Scalar) (a : ℕ) → IsTrue (cast_fits from to) → IfOk (cast_word from to a) (λ w. IsTrue (is_word to w)) }
    ensures abs { (s : Scalar) (a : ℕ) → IsTrue (is_integer s) → IfOk (abs_word s a) (λ w. IsTrue (is_word s w)) }
    ensures sign { (s : Scalar) (a : ℕ) → IsTrue (is_integer s) → IsTrue (is_word s a) → IsTrue (is_word s (sign_word s a)) }
{}
