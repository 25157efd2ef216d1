// Words both ways, and which texts are literals.
use crate::{
    DeclHead, Head, Magnitude, Pair, Single, Window, decimal_between, decimal_of, decl_head,
    decl_word, head_of, head_word, literal, scalar_of, scalar_word, spec_word, truth_of,
    truth_text, value_of, version_of, word_of,
};
use std::test::Fail;
use stream_types::{Dir, Op1, Op2, Scalar};

const SCALARS: [(&str, Scalar); 9] = [
    ("Bool", Scalar::Bool),
    ("Int8", Scalar::Int8),
    ("Int16", Scalar::Int16),
    ("Int32", Scalar::Int32),
    ("Int64", Scalar::Int64),
    ("Word8", Scalar::Word8),
    ("Word16", Scalar::Word16),
    ("Word32", Scalar::Word32),
    ("Word64", Scalar::Word64),
];

#[test]
fn scalars_have_these_words(rt: HostRuntime) -> Result<(), Fail> {
    for (word, scalar) in SCALARS {
        assert_eq!(rt; scalar_word(scalar), word.as_bytes());
        assert_eq!(rt; scalar_of(word.as_bytes()), Some(scalar), "{word}");
    }
    assert_eq!(rt; scalar_of(b"int8"), None);
    Ok(())
}

const LITERALS: [(&str, Scalar, u64); 20] = [
    ("true", Scalar::Bool, 1),
    ("false", Scalar::Bool, 0),
    ("0:Word8", Scalar::Word8, 0),
    ("255:Word8", Scalar::Word8, 255),
    ("65535:Word16", Scalar::Word16, 65535),
    ("4294967295:Word32", Scalar::Word32, 4294967295),
    ("18446744073709551615:Word64", Scalar::Word64, u64::MAX),
    ("0:Int8", Scalar::Int8, 0),
    ("127:Int8", Scalar::Int8, 127),
    ("-1:Int8", Scalar::Int8, u64::MAX),
    ("-128:Int8", Scalar::Int8, 0xFFFF_FFFF_FFFF_FF80),
    ("32767:Int16", Scalar::Int16, 32767),
    ("-32768:Int16", Scalar::Int16, 0xFFFF_FFFF_FFFF_8000),
    ("2147483647:Int32", Scalar::Int32, 2147483647),
    ("-2147483648:Int32", Scalar::Int32, 0xFFFF_FFFF_8000_0000),
    (
        "9223372036854775807:Int64",
        Scalar::Int64,
        0x7FFF_FFFF_FFFF_FFFF,
    ),
    (
        "-9223372036854775808:Int64",
        Scalar::Int64,
        0x8000_0000_0000_0000,
    ),
    ("-10:Int64", Scalar::Int64, 0xFFFF_FFFF_FFFF_FFF6),
    ("10:Int16", Scalar::Int16, 10),
    ("7:Word64", Scalar::Word64, 7),
];

#[test]
fn texts_are_these_literals(rt: HostRuntime) -> Result<(), Fail> {
    for (text, scalar, word) in LITERALS {
        assert_eq!(rt; literal(text.as_bytes()), Some((scalar, word)), "{text}");
    }
    Ok(())
}

const NO_LITERALS: [&str; 18] = [
    "",
    "True",
    "1",
    "1:",
    ":Word8",
    "1:Bool",
    "1:word8",
    "1 :Word8",
    "+1:Word8",
    "-0:Int8",
    "-1:Word8",
    "00:Word8",
    "01:Int8",
    "256:Word8",
    "128:Int8",
    "-129:Int8",
    "18446744073709551616:Word64",
    "99999999999999999999999999999999999999999:Word64",
];

#[test]
fn texts_are_no_literals(rt: HostRuntime) -> Result<(), Fail> {
    for text in NO_LITERALS {
        assert_eq!(rt; literal(text.as_bytes()), None, "{text}");
    }
    Ok(())
}

#[test]
fn other_words_go_both_ways(rt: HostRuntime) -> Result<(), Fail> {
    assert_eq!(rt; version_of(spec_word(1)), Some(1));
    assert_eq!(rt; version_of(spec_word(2)), Some(2));
    assert_eq!(rt; truth_of(truth_text(1)), Some(1));
    assert_eq!(rt; truth_of(truth_text(0)), Some(0));
    assert_eq!(rt; decl_word(DeclHead::Trigger), b"trigger".as_slice());
    assert!(rt; matches!(decl_head(b"observer"), Some(DeclHead::Observer)));
    let heads = [
        ("~", Head::Single(Single::Un(Op1::BitNot))),
        ("/=", Head::Pair(Pair::Bin(Op2::Ne))),
        (">>", Head::Pair(Pair::Shift(Dir::Right))),
        ("window-sum", Head::Window(Window::Sum)),
    ];
    for (word, head) in heads {
        assert_eq!(rt; head_word(head), word.as_bytes());
        assert!(rt; head_of(word.as_bytes()).is_some(), "{word}");
    }
    Ok(())
}

#[test]
fn digits_write_these_numbers(rt: HostRuntime) -> Result<(), Fail> {
    assert_eq!(rt; value_of(b"007"), Magnitude::Of(7));
    assert_eq!(rt; decimal_of(b"007"), None);
    assert_eq!(rt;
        decimal_of(b"18446744073709551615"),
        Some(Magnitude::Of(u64::MAX))
    );
    assert_eq!(rt;
        decimal_of(b"18446744073709551616"),
        Some(Magnitude::Beyond)
    );
    assert_eq!(rt; decimal_between(b"128", 1, 128), Some(128));
    assert_eq!(rt; decimal_between(b"129", 1, 128), None);
    assert_eq!(rt;
        word_of(Scalar::Int8, true, Magnitude::Of(128)),
        Some(0xFFFF_FFFF_FFFF_FF80)
    );
    assert_eq!(rt; word_of(Scalar::Word64, false, Magnitude::Beyond), None);
    Ok(())
}
