// Names of rings, words of array types, and the words of the text: suffixes, operators and scalar types.
ghost use Rattle.std.specs.Prelude.{◌≡◌, ◌∷◌, []};
ghost use Rattle.std.specs.List.{find, list_any, list_all};
ghost use Rattle.c99_tree.specs.Words as words;
ghost use Rattle.c99_tree.specs.Spelling as spelling;

use crate::expr::{CBin, CLit, CUn};
use crate::types::CScalar;
use sm_io::{Name, is_name};

/// Whether this names a ring: a name, or a decimal from 1 on.
pub fn is_ring_name(r: &Name) -> bool
    ensures { result ≡ words.is_ring_name r.now }
{
    is_name(r.bytes()) || is_index(r.bytes())
}

fn is_index(bytes: &[u8]) -> bool
    ensures { result ≡ words.is_index bytes.now }
{
    let Some(first) = bytes.first() else {
        return false;
    };
    if *first < b'1' {
        return false;
    }
    bytes.len() <= 31 && are_digits(bytes)
}

fn are_digits(bytes: &[u8]) -> bool
    ensures { result ≡ list_all words.is_digit bytes.now }
{
    bytes.iter().all(|b| b.is_ascii_digit())
}

/// The scalar type of an array's elements, where their word is a scalar's.
pub fn element_scalar(x: &Name) -> Option<CScalar>
    ensures { result ≡ find (λ s. words.is_same (words.word_of s) x.now) words.scalars }
{
    match x.bytes() {
        b"Bool" => Some(CScalar::Bool),
        b"Int8" => Some(CScalar::I8),
        b"Int16" => Some(CScalar::I16),
        b"Int32" => Some(CScalar::I32),
        b"Int64" => Some(CScalar::I64),
        b"Word8" => Some(CScalar::U8),
        b"Word16" => Some(CScalar::U16),
        b"Word32" => Some(CScalar::U32),
        b"Word64" => Some(CScalar::U64),
        _ => None,
    }
}

/// Whether this is the word of an array's elements: a scalar's word, or a name.
pub fn is_element(x: &Name) -> bool
    ensures { result ≡ words.is_element x.now }
{
    is_name(x.bytes()) || is_scalar_word(x.bytes())
}

fn is_scalar_word(bytes: &[u8]) -> bool
    ensures { result ≡ list_any (λ s. words.is_same (words.word_of s) bytes.now) words.scalars }
{
    match bytes {
        b"Bool" => true,
        b"Int8" | b"Int16" | b"Int32" | b"Int64" => true,
        b"Word8" | b"Word16" | b"Word32" | b"Word64" => true,
        _ => false,
    }
}

/// The suffix of a literal.
pub fn suffix(kind: CLit) -> &'static [u8]
    ensures { result.now ≡ spelling.suffix kind }
{
    match kind {
        CLit::I => b"",
        CLit::U => b"U",
        CLit::LL => b"LL",
        CLit::ULL => b"ULL",
    }
}

/// The sign of a unary operator.
pub fn sign(op: CUn) -> &'static [u8]
    ensures { result.now ≡ spelling.sign op ∷ [] }
{
    match op {
        CUn::Not => b"!",
        CUn::BitNot => b"~",
        CUn::Neg => b"-",
    }
}

/// The signs of a binary operator.
pub fn operator(op: CBin) -> &'static [u8]
    ensures { result.now ≡ spelling.operator op }
{
    match op {
        CBin::Add => b"+",
        CBin::Sub => b"-",
        CBin::Mul => b"*",
        CBin::Div => b"/",
        CBin::Rem => b"%",
        CBin::BitAnd => b"&",
        CBin::BitOr => b"|",
        CBin::BitXor => b"^",
        CBin::Shl => b"<<",
        CBin::Shr => b">>",
        CBin::Eq => b"==",
        CBin::Ne => b"!=",
        CBin::Lt => b"<",
        CBin::Le => b"<=",
        CBin::Gt => b">",
        CBin::Ge => b">=",
        CBin::And => b"&&",
        CBin::Or => b"||",
    }
}

/// The name of a scalar type.
pub fn scalar_name(ty: CScalar) -> &'static [u8]
    ensures { result.now ≡ spelling.scalar_text ty }
{
    match ty {
        CScalar::Bool => b"bool",
        CScalar::I8 => b"int8_t",
        CScalar::I16 => b"int16_t",
        CScalar::I32 => b"int32_t",
        CScalar::I64 => b"int64_t",
        CScalar::U8 => b"uint8_t",
        CScalar::U16 => b"uint16_t",
        CScalar::U32 => b"uint32_t",
        CScalar::U64 => b"uint64_t",
    }
}
