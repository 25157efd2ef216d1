// The words of the text: scalar types, operators, suffixes and signs, and the names that may stand.
ghost use Rattle.std.specs.Prelude.{◌≡◌, IsTrue, ◌&&◌, nat_le};
ghost use Rattle.std.specs.List.{find, list_all};
ghost use Rattle.sm_io.specs.Names.{IsNameBytes};
ghost use Rattle.c99_tree.specs.Words as words;
ghost use Rattle.c99_read.specs.ExprAt as spec;
ghost use Rattle.c99_read.specs.TypeAt as kinds;
ghost use Rattle.c99_read.specs.Gives.{Gives};

use crate::fault::ReadFault;
use crate::front::is_digit;
use c99_tree::{CBin, CLit, CScalar, CUn};
use sm_io::is_name;

#[tactic(auto, unfolding(crate::specs::TypeAt::scalar_of))]
pub fn scalar_of(word: &[u8]) -> Result<CScalar, ReadFault>
    ensures { Gives (λ x. x) result (kinds.scalar_of word.now) }
{
    match word {
        b"bool" => Ok(CScalar::Bool),
        b"int8_t" => Ok(CScalar::I8),
        b"int16_t" => Ok(CScalar::I16),
        b"int32_t" => Ok(CScalar::I32),
        b"int64_t" => Ok(CScalar::I64),
        b"uint8_t" => Ok(CScalar::U8),
        b"uint16_t" => Ok(CScalar::U16),
        b"uint32_t" => Ok(CScalar::U32),
        b"uint64_t" => Ok(CScalar::U64),
        _ => Err(ReadFault::NotRead),
    }
}

// The scalar type of an array's elements, where their word is a scalar's.
pub fn element_scalar(x: &[u8]) -> Option<CScalar>
    ensures { result ≡ find (λ s. words.is_same (words.word_of s) x.now) words.scalars }
{
    match x {
        b"Bool" => Some(CScalar::Bool),
        b"Int8" => Some(CScalar::I8),
        b"Int16" => Some(CScalar::I16),
        b"Int32" => Some(CScalar::I32),
        b"Int64" => Some(CScalar::I64),
        b"Word8" => Some(CScalar::U8),
        b"Word16" => Some(CScalar::U16),
        b"Word32" => Some(CScalar::U32),
        b"Word64" => Some(CScalar::U64),
        _ => None,
    }
}

#[tactic(auto, unfolding(crate::specs::ExprAt::operator_of))]
pub fn operator_of(token: &[u8]) -> Result<CBin, ReadFault>
    ensures { Gives (λ x. x) result (spec.operator_of token.now) }
{
    match token {
        b"+" => Ok(CBin::Add),
        b"-" => Ok(CBin::Sub),
        b"*" => Ok(CBin::Mul),
        b"/" => Ok(CBin::Div),
        b"%" => Ok(CBin::Rem),
        b"&" => Ok(CBin::BitAnd),
        b"|" => Ok(CBin::BitOr),
        b"^" => Ok(CBin::BitXor),
        b"<<" => Ok(CBin::Shl),
        b">>" => Ok(CBin::Shr),
        b"==" => Ok(CBin::Eq),
        b"!=" => Ok(CBin::Ne),
        b"<" => Ok(CBin::Lt),
        b"<=" => Ok(CBin::Le),
        b">" => Ok(CBin::Gt),
        b">=" => Ok(CBin::Ge),
        b"&&" => Ok(CBin::And),
        b"||" => Ok(CBin::Or),
        _ => Err(ReadFault::NotRead),
    }
}

#[tactic(auto, unfolding(crate::specs::ExprAt::suffix_of))]
pub fn suffix_of(word: &[u8]) -> Result<CLit, ReadFault>
    ensures { Gives (λ x. x) result (spec.suffix_of word.now) }
{
    match word {
        b"" => Ok(CLit::I),
        b"U" => Ok(CLit::U),
        b"LL" => Ok(CLit::LL),
        b"ULL" => Ok(CLit::ULL),
        _ => Err(ReadFault::NotRead),
    }
}

pub fn sign_of(b: u8) -> Option<CUn>
    ensures { result ≡ spec.sign_of b }
{
    match b {
        b'!' => Some(CUn::Not),
        b'~' => Some(CUn::BitNot),
        b'-' => Some(CUn::Neg),
        _ => None,
    }
}

// ---- names

fn are_digits(word: &[u8]) -> bool
    ensures { result ≡ list_all words.is_digit word.now }
{
    word.iter().all(|b| is_digit(*b))
}

fn is_index(word: &[u8]) -> bool
    ensures { result ≡ words.is_index word.now }
{
    match word {
        [] => false,
        [first, rest @ ..] => *first >= 49 && are_digits(word) && rest.len() <= 30,
    }
}

// Whether these bytes are the name of a ring.
pub fn is_ring_name(word: &[u8]) -> bool
    ensures { result ≡ words.is_ring_name word.now }
{
    is_name(word) || is_index(word)
}

// Whether these bytes are the word of an array's elements.
pub fn is_element(word: &[u8]) -> bool
    ensures { result ≡ words.is_element word.now }
{
    is_name(word) || element_scalar(word).is_some()
}
