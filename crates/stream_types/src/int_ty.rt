ghost use Rattle.std.specs.Prelude.{◌≡◌, ℕ, ℤ, Bool, true, false, IsTrue, refl, pos, negsuc};
ghost use Rattle.stream_types.specs.Numbers.{number_at, word, in_range, is_word_at};
ghost use Rattle.stream_types.specs.IntTy.{IsIntTy, int_ty};
ghost use Rattle.std.proofs.Common.{lit≤};
ghost use Rattle.stream_types.specs.IntTyLaws.{word_back, number_back};

/// An integer type of at most 64 bits, whose numbers are kept as words.
pub trait IntTy {
    ghost BITS: { ℕ };

    /// The width in bits.
    const BITS: u32;

    ghost SIGNED: { Bool };

    /// Whether it has negative numbers.
    const SIGNED: bool;

    ghost MIN: { ℤ };

    /// The least number.
    const MIN: i128;

    ghost MAX: { ℤ };

    /// The greatest number.
    const MAX: i128;

    /// The width is 1 to 64, and the numbers are those from the least to the greatest.
    ghost is_int: { IsIntTy BITS SIGNED MIN MAX };

    /// The word of a number in range is read back as that number.
    ghost read_back: { (z : ℤ) → IsTrue (in_range BITS SIGNED z) → number_at SIGNED (word z) ≡ z };

    /// The number of a word of the type has that word.
    ghost has_word: { (w : ℕ) → IsTrue (is_word_at BITS SIGNED w) → word (number_at SIGNED w) ≡ w };
}

impl IntTy for i8 {
    ghost BITS = { 8 };

    const BITS: u32 = 8;

    ghost SIGNED = { true };

    const SIGNED: bool = true;

    ghost MIN = { negsuc 127 };

    const MIN: i128 = -128;

    ghost MAX = { pos 127 };

    const MAX: i128 = 127;

    ghost is_int = { int_ty 8 true _ _ (lit≤ tt) (lit≤ tt) refl refl };

    ghost read_back = { λ z h. word_back 8 true z (lit≤ tt) (lit≤ tt) h };

    ghost has_word = { λ w h. number_back 8 true w (lit≤ tt) (lit≤ tt) h };
}

impl IntTy for i16 {
    ghost BITS = { 16 };

    const BITS: u32 = 16;

    ghost SIGNED = { true };

    const SIGNED: bool = true;

    ghost MIN = { negsuc 32767 };

    const MIN: i128 = -32768;

    ghost MAX = { pos 32767 };

    const MAX: i128 = 32767;

    ghost is_int = { int_ty 16 true _ _ (lit≤ tt) (lit≤ tt) refl refl };

    ghost read_back = { λ z h. word_back 16 true z (lit≤ tt) (lit≤ tt) h };

    ghost has_word = { λ w h. number_back 16 true w (lit≤ tt) (lit≤ tt) h };
}

impl IntTy for i32 {
    ghost BITS = { 32 };

    const BITS: u32 = 32;

    ghost SIGNED = { true };

    const SIGNED: bool = true;

    ghost MIN = { negsuc 2147483647 };

    const MIN: i128 = -2147483648;

    ghost MAX = { pos 2147483647 };

    const MAX: i128 = 2147483647;

    ghost is_int = { int_ty 32 true _ _ (lit≤ tt) (lit≤ tt) refl refl };

    ghost read_back = { λ z h. word_back 32 true z (lit≤ tt) (lit≤ tt) h };

    ghost has_word = { λ w h. number_back 32 true w (lit≤ tt) (lit≤ tt) h };
}

impl IntTy for i64 {
    ghost BITS = { 64 };

    const BITS: u32 = 64;

    ghost SIGNED = { true };

    const SIGNED: bool = true;

    ghost MIN = { negsuc 9223372036854775807 };

    const MIN: i128 = -9223372036854775808;

    ghost MAX = { pos 9223372036854775807 };

    const MAX: i128 = 9223372036854775807;

    ghost is_int = { int_ty 64 true _ _ (lit≤ tt) (lit≤ tt) refl refl };

    ghost read_back = { λ z h. word_back 64 true z (lit≤ tt) (lit≤ tt) h };

    ghost has_word = { λ w h. number_back 64 true w (lit≤ tt) (lit≤ tt) h };
}

impl IntTy for u8 {
    ghost BITS = { 8 };

    const BITS: u32 = 8;

    ghost SIGNED = { false };

    const SIGNED: bool = false;

    ghost MIN = { pos 0 };

    const MIN: i128 = 0;

    ghost MAX = { pos 255 };

    const MAX: i128 = 255;

    ghost is_int = { int_ty 8 false _ _ (lit≤ tt) (lit≤ tt) refl refl };

    ghost read_back = { λ z h. word_back 8 false z (lit≤ tt) (lit≤ tt) h };

    ghost has_word = { λ w h. number_back 8 false w (lit≤ tt) (lit≤ tt) h };
}

impl IntTy for u16 {
    ghost BITS = { 16 };

    const BITS: u32 = 16;

    ghost SIGNED = { false };

    const SIGNED: bool = false;

    ghost MIN = { pos 0 };

    const MIN: i128 = 0;

    ghost MAX = { pos 65535 };

    const MAX: i128 = 65535;

    ghost is_int = { int_ty 16 false _ _ (lit≤ tt) (lit≤ tt) refl refl };

    ghost read_back = { λ z h. word_back 16 false z (lit≤ tt) (lit≤ tt) h };

    ghost has_word = { λ w h. number_back 16 false w (lit≤ tt) (lit≤ tt) h };
}

impl IntTy for u32 {
    ghost BITS = { 32 };

    const BITS: u32 = 32;

    ghost SIGNED = { false };

    const SIGNED: bool = false;

    ghost MIN = { pos 0 };

    const MIN: i128 = 0;

    ghost MAX = { pos 4294967295 };

    const MAX: i128 = 4294967295;

    ghost is_int = { int_ty 32 false _ _ (lit≤ tt) (lit≤ tt) refl refl };

    ghost read_back = { λ z h. word_back 32 false z (lit≤ tt) (lit≤ tt) h };

    ghost has_word = { λ w h. number_back 32 false w (lit≤ tt) (lit≤ tt) h };
}

impl IntTy for u64 {
    ghost BITS = { 64 };

    const BITS: u32 = 64;

    ghost SIGNED = { false };

    const SIGNED: bool = false;

    ghost MIN = { pos 0 };

    const MIN: i128 = 0;

    ghost MAX = { pos 18446744073709551615 };

    const MAX: i128 = 18446744073709551615;

    ghost is_int = { int_ty 64 false _ _ (lit≤ tt) (lit≤ tt) refl refl };

    ghost read_back = { λ z h. word_back 64 false z (lit≤ tt) (lit≤ tt) h };

    ghost has_word = { λ w h. number_back 64 false w (lit≤ tt) (lit≤ tt) h };
}
