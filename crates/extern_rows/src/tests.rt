// Texts of rows in pieces of several sizes, fields at the ends of their types, and lines of events.
ghost use Rattle.std.specs.Prelude.{◌≡◌, ◌<◌, [], ◌∷◌, false, length, IfOk};
ghost use Rattle.sm_io.specs.Names.{IsNameBytes};

use crate::{
    Feed, Header, Leaf, Piece, RowFault, event_line, is_blank, leaf_name, push_leaves, push_pieces,
};
use sm_io::{Name, Text, VecSink};
use std::alloc::{AllocError, Global};
use std::test::Fail;
use stream_types::{Field, Scalar, Ty, Types};

const SIZES: [usize; 4] = [1, 2, 3, 4096];

// Moves to the next line that isn't passed over, and gives the text behind it.
fn next_line<'a>(feed: &mut Feed, text: &'a [u8], size: usize) -> Result<Option<&'a [u8]>, RowFault>
    requires { feed.old.whole ≡ false }
{
    let mut rest = text;
    for _ in 0..=text.len() {
        let pushed = feed.push(&rest[..size.min(rest.len())])?;
        rest = &rest[pushed.taken.min(rest.len())..];
        if pushed.whole || rest.is_empty() {
            if !is_blank(feed.line()) {
                return Ok(Some(rest));
            }
            if rest.is_empty() {
                return Ok(None);
            }
            feed.next();
        }
    }
    Ok(None)
}

fn tell_fault(
    alloc: Global,
    mut told: String,
    fault: &RowFault,
    line: u64,
) -> Result<String, AllocError> {
    let text = format!(in alloc; "{fault:?} at {line}")?;
    told.push_str(text.as_str())?;
    Ok(told)
}

fn tell_row(alloc: Global, told: &mut String, words: &[u64]) -> Result<(), AllocError> {
    for word in words {
        let number = word.cast_signed();
        let text = format!(in alloc; "{number} ")?;
        told.push_str(text.as_str())?;
    }
    told.push_str("/ ")
}

// What a text's rows are, each as its words, and the first fault.
fn transcript(
    alloc: Global,
    text: &[u8],
    size: usize,
    leaves: &[Leaf],
) -> Result<String, AllocError>
    requires { length leaves.now < 4294967296 }
{
    let mut told = String::new(alloc);
    let mut feed = Feed::new(alloc)?;
    let mut rest = match next_line(&mut feed, text, size) {
        Ok(Some(rest)) => rest,
        Ok(None) => return Ok(told),
        Err(fault) => return tell_fault(alloc, told, &fault, feed.number()),
    };
    let header = match Header::read(alloc, feed.line(), leaves) {
        Ok(header) => header,
        Err(fault) => return tell_fault(alloc, told, &fault, feed.number()),
    };
    let mut words = Vec::from_elem(alloc, 0u64, leaves.len())?;
    for _ in 0..text.len() {
        feed.next();
        rest = match next_line(&mut feed, rest, size) {
            Ok(Some(rest)) => rest,
            Ok(None) => return Ok(told),
            Err(fault) => return tell_fault(alloc, told, &fault, feed.number()),
        };
        match header.row(alloc, feed.line(), &mut words) {
            Ok(()) => tell_row(alloc, &mut told, &words)?,
            Err(fault) => return tell_fault(alloc, told, &fault, feed.number()),
        }
    }
    Ok(told)
}

fn leaf(alloc: Global, name: &str, scalar: Scalar) -> Result<Leaf, AllocError> {
    let name = Text::new(Vec::from_slice(alloc, name.as_bytes())?);
    Ok(Leaf { name, scalar })
}

#[test]
fn reads_rows_in_pieces_of_any_size(rt: HostRuntime) -> Result<(), Fail> {
    let alloc = rt.alloc();
    let leaves = [leaf(alloc, "temp", Scalar::Int32)?];
    let cases: [(&str, &str); 19] = [
        (
            "temp,site\r\n17,a\r\n\r\n18,b\r\n16,c\r\n 15 ,d\nx,e",
            "17 / 18 / 16 / 15 / BadField(0) at 7",
        ),
        ("t\n17\n", "NoColumn(0) at 1"),
        ("", ""),
        (" \t\n\n\r\n", ""),
        ("temp", ""),
        ("temp\n1", "1 / "),
        ("temp\n1\r", "1 / "),
        ("temp\n1\r\r\n", "BadRecord at 2"),
        ("temp\n1\r2\n", "BadRecord at 2"),
        ("temp,temp\n", "TwoColumns(0) at 1"),
        ("\n\u{FEFF}temp\n\u{FEFF}-5\n", "-5 / "),
        ("\"a,b\", temp \n\"x\"\"\ny\",3\n", "BadRecord at 2"),
        ("\"a,b\", temp \n\"x,\"\"\",3\n", "3 / "),
        ("temp,\"s\n4,\"open\n", "4 / "),
        ("temp,b\n1,2,3\n", "BadRecord at 2"),
        ("temp,b\n1\n", "BadRecord at 2"),
        ("temp\n\"\"\n", "BadField(0) at 2"),
        ("temp\n\u{FEFF}\n", "BadRecord at 2"),
        ("\u{FEFF}\ntemp\n", "BadRecord at 1"),
    ];
    for (text, want) in cases {
        for size in SIZES {
            let told = transcript(alloc, text.as_bytes(), size, &leaves)?;
            assert_eq!(rt; told.as_str(), want, "{text} in pieces of {size}");
        }
    }
    Ok(())
}

#[test]
fn reads_arrays_and_structs_by_their_leaves(rt: HostRuntime) -> Result<(), Fail> {
    let alloc = rt.alloc();
    let leaves = [
        leaf(alloc, "p[0].x", Scalar::Int16)?,
        leaf(alloc, "p[0].y", Scalar::Int16)?,
        leaf(alloc, "p[1].x", Scalar::Int16)?,
        leaf(alloc, "p[1].y", Scalar::Int16)?,
        leaf(alloc, "p[2].x", Scalar::Int16)?,
        leaf(alloc, "p[2].y", Scalar::Int16)?,
        leaf(alloc, "i", Scalar::Word32)?,
    ];
    let text = "p[0].x,p[0].y,p[1].x,p[1].y,p[2].x,p[2].y,i\n1,2,3,4,5,6,2\n1,2,3,4,5,6,3\n";
    for size in SIZES {
        let told = transcript(alloc, text.as_bytes(), size, &leaves)?;
        assert_eq!(rt; told.as_str(), "1 2 3 4 5 6 2 / 1 2 3 4 5 6 3 / ");
    }
    Ok(())
}

// A field of two bytes.
fn field(alloc: Global, name: &str) -> Result<Field, AllocError>
    requires { IsNameBytes name.now }
    ensures { IfOk result (λ field. field ≡ record { name = name.now; ty = Ty.Scalar Scalar.Int16 }) }
{
    Ok(Field {
        name: Name::new(Vec::from_slice(alloc, name.as_bytes())?),
        ty: Ty::Scalar(Scalar::Int16),
    })
}

fn two_fields(alloc: Global, x: Field, y: Field) -> Result<Vec<Field>, AllocError>
    ensures { IfOk result (λ fields. fields.items ≡ x ∷ y ∷ []) }
{
    let mut fields = Vec::with_capacity(alloc, 2)?;
    fields.push(x)?;
    fields.push(y)?;
    Ok(fields)
}

#[test]
fn names_the_leaves_of_arrays_and_structs(rt: HostRuntime) -> Result<(), Fail> {
    let alloc = rt.alloc();
    let mut types = Types::new(alloc);
    let fields = two_fields(alloc, field(alloc, "x")?, field(alloc, "y")?)?;
    let name = Name::new(Vec::from_slice(alloc, b"P")?);
    let point = types.add_struct(name, fields)?;
    let points = types.add_array(point, 3)?;
    let mut leaves = Vec::new(alloc);
    push_leaves(alloc, &types, b"p", points, &mut leaves)?;
    push_leaves(alloc, &types, b"i", Ty::Scalar(Scalar::Word32), &mut leaves)?;
    let columns: [(&str, Scalar); 7] = [
        ("p[0].x", Scalar::Int16),
        ("p[0].y", Scalar::Int16),
        ("p[1].x", Scalar::Int16),
        ("p[1].y", Scalar::Int16),
        ("p[2].x", Scalar::Int16),
        ("p[2].y", Scalar::Int16),
        ("i", Scalar::Word32),
    ];
    assert_eq!(rt; leaves.len(), columns.len());
    for (leaf, (name, scalar)) in leaves.iter().zip(columns) {
        assert!(rt; leaf.name.bytes() == name.as_bytes());
        assert_eq!(rt; leaf.scalar, scalar);
    }
    assert!(rt; leaf_name(&leaves, &RowFault::BadField(6)) == b"i".as_slice());
    assert!(rt; leaf_name(&leaves, &RowFault::BadRecord).is_empty());
    let mut shape = Vec::new(alloc);
    push_pieces(&types, points, &mut shape)?;
    let [open, close] = [Piece::Open(b'{'), Piece::Close(b'}')];
    let [word, comma] = [Piece::Word(Scalar::Int16), Piece::Comma];
    let want = [
        Piece::Open(b'['),
        open,
        word,
        comma,
        word,
        close,
        comma,
        open,
        word,
        comma,
        word,
        close,
        comma,
        open,
        word,
        comma,
        word,
        close,
        Piece::Close(b']'),
    ];
    assert!(rt; shape.as_slice() == want.as_slice());
    Ok(())
}

#[test]
fn reads_fields_up_to_the_ends_of_their_types(rt: HostRuntime) -> Result<(), Fail> {
    let alloc = rt.alloc();
    let cases: [(Scalar, &str, &str); 24] = [
        (Scalar::Bool, "true", "1 / "),
        (Scalar::Bool, "0", "0 / "),
        (Scalar::Bool, "00", "BadField(0) at 2"),
        (Scalar::Bool, "True", "BadField(0) at 2"),
        (Scalar::Int8, "-128", "-128 / "),
        (Scalar::Int8, "-129", "BadField(0) at 2"),
        (Scalar::Int8, "127", "127 / "),
        (Scalar::Int8, "128", "BadField(0) at 2"),
        (Scalar::Int32, "\t-2147483648 ", "-2147483648 / "),
        (
            Scalar::Int64,
            "9223372036854775807",
            "9223372036854775807 / ",
        ),
        (Scalar::Int64, "9223372036854775808", "BadField(0) at 2"),
        (
            Scalar::Int64,
            "-9223372036854775808",
            "-9223372036854775808 / ",
        ),
        (Scalar::Int64, "-9223372036854775809", "BadField(0) at 2"),
        (Scalar::Word8, "-0", "0 / "),
        (Scalar::Word8, "-1", "BadField(0) at 2"),
        (Scalar::Word8, "0000000000000000000000000255", "255 / "),
        (Scalar::Word8, "256", "BadField(0) at 2"),
        (Scalar::Word16, "65536", "BadField(0) at 2"),
        (Scalar::Word64, "18446744073709551615", "-1 / "),
        (Scalar::Word64, "18446744073709551616", "BadField(0) at 2"),
        (
            Scalar::Word64,
            "99999999999999999999999999999999999999999999",
            "BadField(0) at 2",
        ),
        (Scalar::Int8, "+1", "BadField(0) at 2"),
        (Scalar::Int8, "-", "BadField(0) at 2"),
        (Scalar::Int8, "1 2", "BadField(0) at 2"),
    ];
    for (scalar, field, want) in cases {
        let leaves = [leaf(alloc, "x", scalar)?];
        let text = format!(in alloc; "k,x\n,{field}\n")?;
        let told = transcript(alloc, text.as_bytes(), 4096, &leaves)?;
        assert_eq!(rt; told.as_str(), want, "{field}");
    }
    Ok(())
}

#[test]
fn tells_the_first_leaf_at_fault(rt: HostRuntime) -> Result<(), Fail> {
    let alloc = rt.alloc();
    let leaves = [
        leaf(alloc, "x", Scalar::Int8)?,
        leaf(alloc, "y", Scalar::Int8)?,
    ];
    let cases: [(&str, &str); 4] = [
        ("x\n-5\n-128\n", "NoColumn(1) at 1"),
        ("y,y\n", "NoColumn(0) at 1"),
        ("y,x,y\n", "TwoColumns(1) at 1"),
        ("y,x\n-5,-128\na,b\n", "-128 -5 / BadField(0) at 3"),
    ];
    for (text, want) in cases {
        let told = transcript(alloc, text.as_bytes(), 4096, &leaves)?;
        assert_eq!(rt; told.as_str(), want, "{text}");
    }
    Ok(())
}

#[test]
fn refuses_a_line_at_the_byte_past_its_limit(rt: HostRuntime) -> Result<(), Fail> {
    let alloc = rt.alloc();
    let leaves = [leaf(alloc, "x", Scalar::Int8)?];
    let mut text = Vec::from_slice(alloc, b"x,k\n7,")?;
    text.extend_from_slice(&Vec::from_elem(alloc, b'k', 1_048_574)?)?;
    let told = transcript(alloc, &text, 4096, &leaves)?;
    assert_eq!(rt; told.as_str(), "7 / ");
    text.push(b'k')?;
    let told = transcript(alloc, &text, 4096, &leaves)?;
    assert_eq!(rt; told.as_str(), "LineTooLong at 2");
    Ok(())
}

#[test]
fn finds_one_of_many_columns(rt: HostRuntime) -> Result<(), Fail> {
    let alloc = rt.alloc();
    let leaves = [leaf(alloc, "c99999", Scalar::Int32)?];
    let mut text = Vec::new(alloc);
    for number in 0..100_000 {
        let name = format!(in alloc; "c{number},")?;
        text.extend_from_slice(name.as_bytes())?;
    }
    text.extend_from_slice(b"\n")?;
    for number in 0..100_000 {
        let name = format!(in alloc; "{number},")?;
        text.extend_from_slice(name.as_bytes())?;
    }
    let told = transcript(alloc, &text, 4096, &leaves)?;
    assert_eq!(rt; told.as_str(), "99999 / ");
    Ok(())
}

#[test]
fn writes_lines_of_events(rt: HostRuntime) -> Result<(), Fail> {
    let alloc = rt.alloc();
    let mut sink = VecSink::new(alloc);
    let shape = [Piece::Gap, Piece::Word(Scalar::Int8)];
    assert!(rt; event_line(&mut sink, 0, true, b"y", &shape, &[5]).is_ok());
    assert!(rt; event_line(&mut sink, u64::MAX, false, b"a", &[], &[]).is_ok());
    let shape = [
        Piece::Gap,
        Piece::Open(b'['),
        Piece::Word(Scalar::Bool),
        Piece::Comma,
        Piece::Word(Scalar::Bool),
        Piece::Close(b']'),
        Piece::Gap,
        Piece::Open(b'{'),
        Piece::Word(Scalar::Int64),
        Piece::Comma,
        Piece::Word(Scalar::Word64),
        Piece::Close(b'}'),
    ];
    let words = [1, 0, 0x8000_0000_0000_0000, u64::MAX];
    assert!(rt; event_line(&mut sink, 10, false, b"t", &shape, &words).is_ok());
    let want =
        b"0 =y 5\n18446744073709551615 a\n10 t [true,false] {-9223372036854775808,18446744073709551615}\n";
    assert!(rt; sink.taken() == want.as_slice());
    Ok(())
}
