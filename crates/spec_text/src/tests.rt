// Texts with their first faults, and every form once.
use crate::declarations;
use spec_forest::trees;
use std::alloc::{AllocError, Global};
use std::test::Fail;

// What is wrong with a text, or `fine`.
fn told(alloc: Global, text: &[u8]) -> Result<String, AllocError> {
    let forest = match trees(alloc, text) {
        Ok(forest) => forest,
        Err(fault) => return format!(in alloc; "{fault:?}"),
    };
    match declarations(alloc, &forest) {
        Ok(_surface) => String::from_str(alloc, "fine"),
        Err(fault) => format!(in alloc; "{fault:?}"),
    }
}

const FAULTS: [(&str, &str); 26] = [
    ("", "BadForm(0)"),
    ("spec", "BadForm(0)"),
    (" (spec)", "BadForm(0)"),
    (" (spec1 a)", "BadForm(0)"),
    ("(spec a) b", "BadForm(9)"),
    ("(spec 1) b", "BadName(6)"),
    ("(spec t (trigger x 1:Int8) (stream y))", "BadForm(27)"),
    ("(spec f (extern x Float))", "BadName(18)"),
    ("(spec f (observer o 256:Word8))", "BadLiteral(20)"),
    ("(spec d (stream s Word8 (1:Word8) (drop 1 s)))", "fine"),
    ("(spec a (struct P (x Int8) (x Int8)))", "fine"),
    ("; c\n(spec a ; x (\n)", "fine"),
    (
        "(spec a (extern abcdefghijklmnopqrstuvwxyz01234 Bool))",
        "fine",
    ),
    (
        "(spec a (extern abcdefghijklmnopqrstuvwxyz012345 Bool))",
        "BadName(16)",
    ),
    ("(spec a (observer o (once-in 0 128 p)))", "fine"),
    ("(spec a (observer o (once-in 0 129 p)))", "BadLiteral(31)"),
    ("(spec a (observer o (once-in 3 2 p)))", "BadLiteral(31)"),
    (
        "(spec a (observer o (once-in 99999999999999999999999 2 p)))",
        "BadLiteral(53)",
    ),
    ("(spec a (observer o (once-in 00 2 p)))", "BadLiteral(29)"),
    ("(spec a (observer o (clock 3 3)))", "BadLiteral(29)"),
    ("(spec a (observer o (clock 3 2)))", "fine"),
    ("(spec a (observer o -0:Int8))", "BadLiteral(20)"),
    ("(spec a (observer o -128:Int8))", "fine"),
    ("(spec a (observer step true))", "BadName(18)"),
    ("(spec a (observer o (+ x)))", "BadForm(20)"),
    ("(spec a (stream s Bool true x))", "BadForm(23)"),
];

#[test]
fn texts_have_these_faults(rt: HostRuntime) -> Result<(), Fail> {
    for (text, answer) in FAULTS {
        let told = told(rt.alloc(), text.as_bytes())?;
        assert_eq!(rt; told.as_str(), answer, "{text}");
    }
    Ok(())
}

const FORMS: &str = "(spec2 a
  (struct P (x Int8) (y (array Bool 2)))
  (extern i Word32)
  (stream s P ((record P -1:Int8 (array true false))) s)
  (def d Bool (and true (or (not false) (implies p q))))
  (trigger t true (~ (+ 1:Int8 (- a (* b (quot c (rem d e)))))) (& a (| b (^ c d))))
  (trigger t true (<< a 1:Word8) (>> a b) (if (== a b) (/= a b) (< a b)))
  (observer o (<= a (> b (>= c (cast Int8 (abs (sign e)))))))
  (observer o2 (index (array a b) (field (record P a b) x)))
  (observer o3 (once (historically (yesterday (weakly-yesterday (since p q))))))
  (observer o4 (once-in 0 1 (historically-in 2 4 (since-in 0 0 p (clock 2 1)))))
  (observer o5 (majority a (agreed b c) (window-max 2 (window-min 3 (window-sum 12 (drop 3 s)))))))";

#[test]
fn every_form_is_read(rt: HostRuntime) -> Result<(), Fail> {
    let told = told(rt.alloc(), FORMS.as_bytes())?;
    assert_eq!(rt; told.as_str(), "fine");
    Ok(())
}

// A stream of Bool with so many initial values.
fn long_stream(alloc: Global, word: &str, count: usize) -> Result<String, AllocError> {
    let mut text = String::from_str(alloc, "(")?;
    text.push_str(word)?;
    text.push_str(" a (stream s Bool (")?;
    for _ in 0..count {
        text.push_str("true ")?;
    }
    text.push_str(") s))")?;
    Ok(text)
}

#[test]
fn versions_have_their_limits(rt: HostRuntime) -> Result<(), Fail> {
    let cases = [
        ("spec", 4096, "fine"),
        ("spec", 4097, "BadForm(23)"),
        ("spec2", 65536, "fine"),
        ("spec2", 65537, "BadForm(24)"),
    ];
    for (word, count, answer) in cases {
        let text = long_stream(rt.alloc(), word, count)?;
        let told = told(rt.alloc(), text.as_str().as_bytes())?;
        assert_eq!(rt; told.as_str(), answer, "{word} {count}");
    }
    Ok(())
}
