// The line at hand of a text that comes in pieces.
ghost use Rattle.std.specs.Prelude.{◌≡◌, ◌+◌, ◌-◌, ◌≤◌, ◌&&◌, ◌++◌, false, not, length, take, min, nat_lt, IfOk};
ghost use Rattle.std.specs.List.{position, position_or_len};
ghost use Rattle.extern_rows.specs.Lines.{is_break, first_line, without_cr};
ghost use Rattle.extern_rows.specs.Feeding.{start, next_line, fed, pushed};
ghost use Rattle.extern_rows.specs.FeedLimits.{fault_of};
ghost use Rattle.extern_rows.specs.FeedStanding.{StandsInTexts, CutsAnywhere, MovesOn};
ghost use Rattle.extern_rows.specs.FeedTexts.{TookNothing, TakesMore, RefusesMore, NextTakesNothing, FinishesText};

use crate::fault::RowFault;
use std::alloc::{AllocError, Global};
use std::marker::Model;

const LONGEST_LINE: usize = 1_048_576;

const LAST_LINE: u64 = 4_294_967_295;

/// What a push took.
#[derive(Clone, Copy, Debug, PartialEq, Eq)]
pub struct Pushed {
    /// How many bytes of the piece.
    pub taken: usize,
    /// Whether the last of them ended the line.
    pub whole: bool,
}

// The limit that a text went past.
#[derive(Clone, Copy)]
enum Limit {
    Length,
    Count,
}

impl Limit {
    fn fault(self) -> RowFault
        ensures { result ≡ fault_of self }
    {
        match self {
            Limit::Length => RowFault::LineTooLong,
            Limit::Count => RowFault::TooManyLines,
        }
    }
}

/// The line at hand of a text that comes in pieces of any size: its bytes so far, its number from 1, whether it is
/// whole, and the refusal, once there is one. It has room for one line of 1,048,576 bytes, and takes no memory but
/// at `new`. After `LineTooLong` the line holds those first bytes.
#[derive(Drop)]
pub struct Feed {
    space: Vec<u8>,
    at: usize,
    number: u64,
    whole: bool,
    refusal: Option<Limit>,
}

impl Model for Feed {
    ghost use Rattle.std.specs.Prelude.{◌≡◌, ◌≤◌, take, vec_len};
    ghost use Rattle.std.specs.Option.{option_map};
    ghost use Rattle.extern_rows.specs.Feeding.{Feeding};
    ghost use Rattle.extern_rows.specs.FeedLimits.{fault_of};

    ghost Value = { Feeding };

    ghost view = { λ a. record { line = take a.at a.space.items; number = a.number; whole = a.whole; refusal = option_map fault_of a.refusal } };

    ghost invariant = { λ a. (vec_len a.space ≡ 1048576) × (a.at ≤ 1048576) };
}

fn break_at(piece: &[u8]) -> Option<usize>
    ensures { result ≡ position is_break piece.now }
{
    piece.iter().position(|b| *b == b'\n')
}

// How many bytes stand before the first line feed, or how many there are.
fn text_len(piece: &[u8]) -> usize
    ensures { result ≡ position_or_len is_break piece.now }
{
    break_at(piece).unwrap_or(piece.len())
}

// Puts the first of the bytes behind those that are there, as many as there is room for.
fn fill(space: &mut [u8], at: usize, bytes: &[u8]) -> usize
    requires { at ≤ length space.old }
    ensures count { result ≡ min (length space.old - at) (length bytes.now) }
    ensures same { length space.new ≡ length space.old }
    ensures taken { take (at + result) space.new ≡ take at space.old ++ take result bytes.now }
{
    let count = (space.len() - at).min(bytes.len());
    space[at..at + count].copy_from_slice(&bytes[..count]);
    count
}

impl Feed {
    /// At the first line of a text, before any byte.
    pub fn new(alloc: Global) -> Result<Feed, AllocError>
        ensures { IfOk result (λ feed. feed ≡ start) }
    {
        Ok(Feed {
            space: Vec::from_elem(alloc, 0u8, LONGEST_LINE)?,
            at: 0,
            number: 1,
            whole: false,
            refusal: None,
        })
    }

    /// Takes the bytes of the piece up to and with the next line feed, or all. `TooManyLines` and `LineTooLong` come
    /// with the byte that shows them, and stay.
    pub fn push(&mut self, piece: &[u8]) -> Result<Pushed, RowFault>
        requires { self.old.whole ≡ false }
        ensures fed { self.new ≡ fed self.old (first_line piece.now) }
        ensures answer { result ≡ pushed self.new.refusal self.new.whole (first_line piece.now) }
    {
        match self.refusal {
            Some(limit) => return Err(limit.fault()),
            None => {}
        }
        if piece.is_empty() {
            return Ok(Pushed {
                taken: 0,
                whole: false,
            });
        }
        if self.number > LAST_LINE {
            self.refusal = Some(Limit::Count);
            return Err(RowFault::TooManyLines);
        }
        let text = &piece[..text_len(piece)];
        let count = fill(&mut self.space, self.at, text);
        self.at += count;
        if count < text.len() {
            self.refusal = Some(Limit::Length);
            return Err(RowFault::LineTooLong);
        }
        self.whole = count < piece.len();
        Ok(Pushed {
            taken: if self.whole { count + 1 } else { count },
            whole: self.whole,
        })
    }

    /// The line so far, without its line feed and without one carriage return at its end.
    pub fn line(&self) -> &[u8]
        ensures { result.now ≡ without_cr self.now.line }
    {
        let line = &self.space[..self.at];
        match line.last() {
            Some(&b'\r') => &line[..line.len() - 1],
            _ => line,
        }
    }

    /// The line's number, from 1.
    pub fn number(&self) -> u64
        ensures { result ≡ self.now.number }
    {
        self.number
    }

    /// Makes room for the next line. Its number stands still at `u64::MAX`.
    pub fn next(&mut self)
        ensures { self.new ≡ next_line self.old }
    {
        self.at = 0;
        self.number = self.number.saturating_add(1);
        self.whole = false;
    }

    /// Whether bytes stand for which no line feed came: at the end of the text they are its last line.
    pub fn finish(&self) -> bool
        ensures { result ≡ (not self.now.whole && nat_lt 0 (length self.now.line)) }
    {
        !self.whole && self.at > 0
    }
}

/// However a text is cut into pieces, a feed that took it holds the text's line, its number and its first limit.
pub fn stands_in_texts()
    ensures texts { StandsInTexts }
    ensures cuts { CutsAnywhere }
    ensures next { MovesOn }
{}

/// What a feed took is a text, which its pushes make longer: some whole lines, then its own line, by its number. Room
/// for the next line makes no difference, and at the end a last line stands where the text doesn't end in a line feed.
pub fn feeds_take_texts()
    ensures new { TookNothing }
    ensures push { TakesMore }
    ensures refusal { RefusesMore }
    ensures next { NextTakesNothing }
    ensures finish { FinishesText }
{}
