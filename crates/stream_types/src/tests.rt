// The number tables at some values, and a type list that grows.
ghost use Rattle.std.specs.Prelude.{◌≡◌, [], ◌∷◌, IfOk};
ghost use Rattle.sm_io.specs.Names.{IsNameBytes};

use crate::{
    Dir, Field, FieldAt, Hazard, Op1, Op2, Scalar, StructFault, Ty, TypeEntry, Types, cast, op1,
    op2, shift,
};
use sm_io::{Name, Steps};
use std::alloc::{AllocError, Global};
use std::marker::Brand;
use std::sync::ledger::{Blank, Ledger};
use std::test::Fail;

const MINUS_1: u64 = 0xffff_ffff_ffff_ffff;

const MINUS_2: u64 = 0xffff_ffff_ffff_fffe;

const MINUS_3: u64 = 0xffff_ffff_ffff_fffd;

const MINUS_7: u64 = 0xffff_ffff_ffff_fff9;

const MINUS_128: u64 = 0xffff_ffff_ffff_ff80;

type Answer = Result<u64, Hazard>;

fn answers<L: Ledger>(blank: Blank) -> [(&'static str, Answer, Answer); 18]
    requires name { blank.name ≡ L.name }
    requires parts { blank.parts ≡ L.parts }
    requires one { blank.parts ≡ 1 }
{
    use Op2::{Add, BitXor, Mul, Quot, Rem};
    use Scalar::{Int16, Int8, Word16, Word32, Word8};
    let mut steps: Steps<L> = Steps::new(blank);
    let s = &mut steps;
    [
        (
            "Add Int8 127, 1",
            op2(Add, Int8, 127, 1, s),
            Err(Hazard::Overflow),
        ),
        (
            "Mul Word16 65535, 65535",
            op2(Mul, Word16, 65535, 65535, s),
            Ok(1),
        ),
        (
            "Quot Int8 -7, 2",
            op2(Quot, Int8, MINUS_7, 2, s),
            Ok(MINUS_3),
        ),
        ("Rem Int8 -7, 2", op2(Rem, Int8, MINUS_7, 2, s), Ok(MINUS_1)),
        (
            "Rem Int8 -128, -1",
            op2(Rem, Int8, MINUS_128, MINUS_1, s),
            Err(Hazard::Overflow),
        ),
        (
            "Left Int8 1 by 6:Word8",
            shift(Dir::Left, Int8, 1, Word8, 6, s),
            Ok(64),
        ),
        (
            "Left Int8 1 by 7:Word8",
            shift(Dir::Left, Int8, 1, Word8, 7, s),
            Err(Hazard::Overflow),
        ),
        (
            "Left Word8 255 by 1:Int8",
            shift(Dir::Left, Word8, 255, Int8, 1, s),
            Ok(254),
        ),
        (
            "Left Word8 1 by 8:Word8",
            shift(Dir::Left, Word8, 1, Word8, 8, s),
            Err(Hazard::BadShift),
        ),
        (
            "Left Word8 1 by -1:Int8",
            shift(Dir::Left, Word8, 1, Int8, MINUS_1, s),
            Err(Hazard::BadShift),
        ),
        (
            "Right Int8 -1 by 0:Word8",
            shift(Dir::Right, Int8, MINUS_1, Word8, 0, s),
            Err(Hazard::BadShift),
        ),
        (
            "cast Int16 300 to Word8",
            cast(Int16, Word8, 300, s),
            Ok(44),
        ),
        (
            "cast Int8 -1 to Word32",
            cast(Int8, Word32, MINUS_1, s),
            Ok(4294967295),
        ),
        (
            "cast Word8 200 to Int8",
            cast(Word8, Int8, 200, s),
            Err(Hazard::Overflow),
        ),
        ("BitNot Word8 0", Ok(op1(Op1::BitNot, Word8, 0, s)), Ok(255)),
        (
            "BitXor Int8 -1, 1",
            op2(BitXor, Int8, MINUS_1, 1, s),
            Ok(MINUS_2),
        ),
        ("Not false", Ok(op1(Op1::Not, Scalar::Bool, 0, s)), Ok(1)),
        (
            "Right Word8 255 by 7:Int8",
            shift(Dir::Right, Word8, 255, Int8, 7, s),
            Ok(1),
        ),
    ]
}

#[test]
fn number_tables(rt: HostRuntime) {
    for (row, answer, wanted) in answers::<Brand>(Blank::new(1)) {
        assert_eq!(rt; answer, wanted, "{row}");
    }
}

fn name(alloc: Global, text: &str) -> Result<Name, AllocError>
    requires { IsNameBytes text.now }
    ensures { IfOk result (λ name. name ≡ text.now) }
{
    Ok(Name::new(Vec::from_slice(alloc, text.as_bytes())?))
}

// The fields x and y, of these types, under names of one's choice.
fn two_fields(alloc: Global, x: Field, y: Field) -> Result<Vec<Field>, AllocError>
    ensures { IfOk result (λ fields. fields.items ≡ x ∷ y ∷ []) }
{
    let mut fields = Vec::with_capacity(alloc, 2)?;
    fields.push(x)?;
    fields.push(y)?;
    Ok(fields)
}

#[test]
fn one_field_twice(rt: HostRuntime) -> Result<(), Fail> {
    let alloc = rt.alloc();
    let int8 = Ty::Scalar(Scalar::Int8);
    let mut types = Types::new(alloc);
    let x = Field {
        name: name(alloc, "x")?,
        ty: int8,
    };
    let again = Field {
        name: name(alloc, "x")?,
        ty: int8,
    };
    let fields = two_fields(alloc, x, again)?;
    let refused = types.add_struct(name(alloc, "P")?, fields);
    assert!(rt; matches!(refused, Err(StructFault::DoubleField)));
    assert_eq!(rt; types.len(), 0);
    Ok(())
}

#[test]
fn type_list_grows(rt: HostRuntime) -> Result<(), Fail> {
    let alloc = rt.alloc();
    let mut types = Types::new(alloc);
    let row = types.add_array(Ty::Scalar(Scalar::Int16), 3)?;
    assert_eq!(rt; types.add_array(Ty::Scalar(Scalar::Int16), 3)?, row);
    let x = Field {
        name: name(alloc, "x")?,
        ty: Ty::Scalar(Scalar::Word32),
    };
    let y = Field {
        name: name(alloc, "y")?,
        ty: row,
    };
    let fields = two_fields(alloc, x, y)?;
    let pair = types.add_struct(name(alloc, "P")?, fields)?;
    assert_eq!(rt; types.len(), 2);
    assert_eq!(rt; types.words(pair), 4);
    assert_eq!(rt; types.bytes(pair), 10);
    assert_eq!(rt;
        types.field(pair, b"y"),
        Some(FieldAt { first: 1, ty: row })
    );
    assert_eq!(rt; types.field(pair, b"z"), None);
    assert!(rt; matches!(types.add_array(pair, 257), Err(StructFault::TooWide)));
    let copy = types.copy(alloc)?;
    assert_eq!(rt; copy.len(), 2);
    assert!(rt;
        matches!(
            copy.entry(0),
            TypeEntry::Array {
                elem: Ty::Scalar(Scalar::Int16),
                n: 3
            }
        )
    );
    Ok(())
}
