// Texts with their first faults, comments, and forests node by node.
use crate::{Forest, ScanFault, Tree, trees};
use std::alloc::{AllocError, Global};
use std::test::Fail;

// Writes a node: its place, then an atom's bytes or a list's items in brackets.
fn show(alloc: Global, tree: &Tree, told: &mut String) -> Result<(), AllocError> {
    match tree {
        Tree::Atom { at, text } => {
            let bytes = String::from_utf8_lossy(alloc, text.bytes())?;
            let shown = format!(in alloc; "{at}:{bytes} ")?;
            told.push_str(shown.as_str())
        }
        Tree::List { at, items } => {
            let shown = format!(in alloc; "{at}( ")?;
            told.push_str(shown.as_str())?;
            for item in items.as_slice() {
                show(alloc, item, told)?;
            }
            told.push_str(") ")
        }
    }
}

fn shown(alloc: Global, forest: &Forest) -> Result<String, AllocError> {
    let mut told = String::new(alloc);
    for tree in forest.items.as_slice() {
        show(alloc, tree, &mut told)?;
    }
    Ok(told)
}

#[test]
fn texts_are_read_node_by_node(rt: HostRuntime) -> Result<(), Fail> {
    let rows: [(&[u8], &str); 5] = [
        (b"", ""),
        (b"; c\n(spec a ; x (\n)", "4( 5:spec 10:a ) "),
        (b"a;b\nc", "0:a 4:c "),
        (
            b"(spec t\n  (trigger a (drop 1 b)))\n",
            "0( 1:spec 6:t 10( 11:trigger 19:a 21( 22:drop 27:1 29:b ) ) ) ",
        ),
        (b"a(b\t\r()c)~d", "0:a 1( 2:b 5( ) 7:c ) 9:~d "),
    ];
    for (text, want) in rows {
        let forest = trees(rt.alloc(), text)?;
        let told = shown(rt.alloc(), &forest)?;
        assert_eq!(rt; told.as_str(), want);
    }
    Ok(())
}

#[test]
fn first_faults_are_told(rt: HostRuntime) {
    let rows: [(&[u8], ScanFault); 10] = [
        (b")", ScanFault::Unbalanced(0)),
        (b"(a))(", ScanFault::Unbalanced(3)),
        (b"(spec a", ScanFault::Unbalanced(7)),
        (b"(spec a ; )", ScanFault::Unbalanced(11)),
        (b"; \xff\n\x7f)", ScanFault::BadByte(4)),
        (b"a \x00(", ScanFault::BadByte(2)),
        (b"(\x1f", ScanFault::BadByte(1)),
        (b"ab\x80", ScanFault::BadByte(2)),
        (&[b'('; 65], ScanFault::TooDeep(64)),
        (&[b'('; 64], ScanFault::Unbalanced(64)),
    ];
    for (text, want) in rows {
        match trees(rt.alloc(), text) {
            Ok(_) => assert!(rt; false),
            Err(fault) => assert_eq!(rt; fault, want),
        }
    }
}

#[test]
fn a_text_has_at_most_1048576_bytes(rt: HostRuntime) -> Result<(), Fail> {
    let mut text = Vec::new(rt.alloc());
    for _ in 0..262_144 {
        text.extend_from_slice(b"(a )")?;
    }
    let forest = trees(rt.alloc(), text.as_slice())?;
    assert_eq!(rt; forest.items.as_slice().len(), 262_144);
    text.push(b' ')?;
    match trees(rt.alloc(), text.as_slice()) {
        Ok(_) => assert!(rt; false),
        Err(fault) => assert_eq!(rt; fault, ScanFault::TextTooLong),
    }
    Ok(())
}
