// The scan of a text.
ghost use Rattle.std.specs.Prelude.{◌≡◌, ◌+◌, ◌<◌, ◌≤◌, [], ◌∷◌, ◌++◌, length, min, not, IfOk, OnOk};
ghost use Rattle.std.specs.List.{prefix_len, position, position_or_len};
ghost use Rattle.spec_forest.specs.Node.{forest_nodes};
ghost use Rattle.spec_forest.specs.Scan.{is_break};
ghost use Rattle.spec_forest.specs.Tokens.{is_letter as letter, word, IsForestOf};
ghost use Rattle.spec_forest.specs.Extents.{nesting, list_count, item_count, IsWithin};
ghost use Rattle.spec_forest.specs.Answers.{TellsFault};
ghost use Rattle.spec_forest.specs.Scanning.{IsKind, IsScanned, held, levels, Enters, Leaves, Takes, Finishes};

use crate::fault::ScanFault;
use crate::tree::{Forest, Tree};
use sm_io::{Seq, Text};
use sqlite_items::Items;
use std::alloc::{AllocError, Global};
use std::mem;

const LONGEST_TEXT: usize = 1_048_576;

const DEEPEST: usize = 64;

// A list that is open: the offset of its `(`, and the items before it in the list around it.
#[derive(Drop)]
struct Level {
    at: usize,
    before: Vec<Tree>,
}

// The nodes of a text so far: the lists that are open, outermost first, and the items of the innermost.
#[derive(Drop)]
struct Scanner {
    open: Vec<Level>,
    items: Vec<Tree>,
}

// What a byte is outside comments.
#[derive(Clone, Copy)]
enum Kind {
    Blank,
    Left,
    Right,
    Mark,
    Letter,
    Bad,
}

fn kind_of(b: u8) -> Kind
    ensures { IsKind b result }
{
    match b {
        b'\t' | b'\n' | b'\r' | b' ' => Kind::Blank,
        b'(' => Kind::Left,
        b')' => Kind::Right,
        b';' => Kind::Mark,
        33..=126 => Kind::Letter,
        _ => Kind::Bad,
    }
}

fn is_letter(b: u8) -> bool
    ensures { result ≡ letter b }
{
    matches!(b, 33..=126) && !matches!(b, b'(' | b')' | b';')
}

fn first_other(text: &[u8]) -> Option<usize>
    ensures { result ≡ position (λ b. not (letter b)) text.now }
{
    text.iter().position(|b| !is_letter(*b))
}

// How many bytes an atom has that begins the text.
fn atom_len(text: &[u8]) -> usize
    ensures count { result ≡ prefix_len letter text.now }
    ensures within { result ≤ length text.now }
{
    first_other(text).unwrap_or(text.len())
}

fn first_break(text: &[u8]) -> Option<usize>
    ensures { result ≡ position is_break text.now }
{
    text.iter().position(|b| *b == b'\n')
}

// How many bytes a comment has that begins the text, with the line feed that ends it.
fn comment_len(text: &[u8]) -> usize
    ensures { result ≡ min (position_or_len is_break text.now + 1) (length text.now) }
{
    match first_break(text) {
        Some(end) => end + 1,
        None => text.len(),
    }
}

impl Scanner {
    fn new(alloc: Global) -> Scanner
        ensures levels { levels result ≡ 0 }
        ensures held { held result ≡ [] }
    {
        Scanner {
            open: Vec::new(alloc),
            items: Vec::new(alloc),
        }
    }

    fn enter(&mut self, alloc: Global, at: usize) -> Result<(), ScanFault>
        requires { levels self.old ≤ 64 }
        ensures { Enters self.old at self.new result }
    {
        if self.open.len() == DEEPEST {
            return Err(ScanFault::TooDeep(at as u64));
        }
        let before = mem::replace(&mut self.items, Vec::new(alloc));
        self.open.push(Level { at, before })?;
        Ok(())
    }

    fn leave(&mut self, at: usize) -> Result<(), ScanFault>
        ensures { Leaves self.old at self.new result }
    {
        match self.open.pop() {
            Some(Level { at: start, before }) => {
                let items = mem::replace(&mut self.items, before);
                self.items.push(Tree::List {
                    at: start as u64,
                    items: Items::from_vec(items),
                })?;
                Ok(())
            }
            None => Err(ScanFault::Unbalanced(at as u64)),
        }
    }

    fn atom(&mut self, alloc: Global, at: usize, bytes: &[u8]) -> Result<(), AllocError>
        ensures levels { OnOk result (levels self.new ≡ levels self.old) }
        ensures held { OnOk result (held self.new ≡ held self.old ++ word at bytes.now ∷ []) }
    {
        let text = Text::new(Vec::from_slice(alloc, bytes)?);
        self.items.push(Tree::Atom {
            at: at as u64,
            text,
        })?;
        Ok(())
    }

    // Takes what stands at an offset, and answers how many bytes it has.
    fn take(&mut self, alloc: Global, text: &[u8], at: usize) -> Result<usize, ScanFault>
        requires within { at < length text.now }
        requires short { length text.now ≤ 1048576 }
        requires shallow { levels self.old ≤ 64 }
        requires scanned { IsScanned text.now at (levels self.old) (held self.old) }
        ensures takes { Takes text.now at self.new result }
        ensures shallow { OnOk result (levels self.new ≤ 64) }
    {
        match kind_of(text[at]) {
            Kind::Blank => Ok(1),
            Kind::Left => {
                self.enter(alloc, at)?;
                Ok(1)
            }
            Kind::Right => {
                self.leave(at)?;
                Ok(1)
            }
            Kind::Mark => Ok(comment_len(&text[at..])),
            Kind::Letter => {
                let rest = &text[at..];
                let len = atom_len(rest);
                self.atom(alloc, at, &rest[..len])?;
                Ok(len)
            }
            Kind::Bad => Err(ScanFault::BadByte(at as u64)),
        }
    }

    fn finish(self, at: usize) -> Result<Forest, ScanFault>
        ensures { Finishes self at result }
    {
        let Scanner { open, items } = self;
        match open.last() {
            None => Ok(Forest {
                items: Seq::of(items),
            }),
            Some(_) => Err(ScanFault::Unbalanced(at as u64)),
        }
    }
}

/// The nodes of a text of at most 1,048,576 bytes, in order and with their places: at most 64 lists within one another,
/// 524,288 lists, and 1,048,576 lists and atoms together. Atoms are the longest runs of letters (specs/Tokens.antt); a
/// comment runs from `;` to the end of its line. Else the fault with the least offset: a byte outside comments that is
/// neither tab, LF, CR nor 32 to 126, a bracket without its other one, or a `(` that would open a 65th level.
pub fn trees(alloc: Global, text: &[u8]) -> Result<Forest, ScanFault>
    ensures fault { TellsFault text.now result }
    ensures forest { IfOk result (λ forest. IsForestOf text.now (forest_nodes forest)) }
    ensures nesting { IfOk result (λ forest. nesting (forest_nodes forest) ≤ 64) }
    ensures lists { IfOk result (λ forest. list_count (forest_nodes forest) ≤ 524288) }
    ensures items { IfOk result (λ forest. item_count (forest_nodes forest) ≤ 1048576) }
    ensures places { IfOk result (λ forest. IsWithin (length text.now) (forest_nodes forest)) }
{
    if text.len() > LONGEST_TEXT {
        return Err(ScanFault::TextTooLong);
    }
    let mut scanner = Scanner::new(alloc);
    let mut at = 0;
    while at < text.len() {
        at += scanner.take(alloc, text, at)?;
    }
    scanner.finish(at)
}
