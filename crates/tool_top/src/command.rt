// The words of a run, and the command that they are.
ghost use Rattle.std.specs.Prelude.{◌≤◌, ◌≡◌, [], ◌∷◌, map, string_bytes, codes, IsTrue, IfSome, IfNone, true, false};
ghost use Rattle.std.specs.List.{list_all};
ghost use Rattle.sm_io.specs.Words.{is_name};
ghost use Rattle.spec_words.specs.Decimals.{value_of};
ghost use Rattle.tool_top.specs.Command.{value_of_command, IsFit, copilot_command, ogma_command, command_of, is_compile, is_interpret, is_cexec, is_demo, is_migrate, is_standalone, is_frame, cfs_ends, ros_ends, fprime_ends, application, is_file, is_file_byte, is_file_of, is_apart, is_word};

use crate::outcome::Tool;
use sm_io::is_name;
use spec_words::decimal_between;

/// A row of the command table with its words.
#[derive(Clone, Copy)]
pub enum Command<'a> {
    /// The file of a specification, and the name of the unit that it becomes.
    Compile { spec: &'a str, name: &'a str },
    /// The file of a specification.
    Interpret { spec: &'a str },
    /// The name of a unit.
    Cexec { name: &'a str },
    /// How many streams, and how many steps.
    Demo { streams: u32, steps: u32 },
    /// The names of a unit of the old layout and of the new one.
    Migrate { old: &'a str, new: &'a str },
    /// The file of the requirements, and that of the specification.
    Standalone { reqs: &'a str, spec: &'a str },
    /// The file of the requirements, and the name of the application.
    Cfs { reqs: &'a str, name: &'a str },
    Ros { reqs: &'a str, name: &'a str },
    Fprime { reqs: &'a str, name: &'a str },
    /// Words of no row.
    NoCommand,
}

fn is_file_byte(b: u8) -> bool
    ensures { result ≡ is_file_byte b }
{
    b.is_ascii_digit()
        || b.is_ascii_uppercase()
        || b.is_ascii_lowercase()
        || b == b'_'
        || b == b'-'
        || b == b'.'
}

fn are_file_bytes(word: &[u8]) -> bool
    ensures { result ≡ list_all is_file_byte word.now }
{
    word.iter().all(|b| is_file_byte(*b))
}

// Whether a word may name a file.
fn is_file(word: &[u8]) -> bool
    ensures { result ≡ is_file word.now }
{
    if word.is_empty() {
        return false;
    }
    if word.len() > 255 {
        return false;
    }
    if !are_file_bytes(word) {
        return false;
    }
    if word.starts_with(b".") {
        return false;
    }
    !word.starts_with(b"-")
}

// Whether a text is a name with an ending.
fn is_file_of(file: &[u8], name: &[u8], end: &[u8]) -> bool
    ensures { result ≡ is_file_of file.now name.now end.now }
{
    file.starts_with(name) && &file[name.len()..] == end
}

// Whether a file is none of those with a name and one of the endings.
fn is_apart(ends: &[&[u8]], file: &[u8], name: &[u8]) -> bool
    ensures { result ≡ is_apart (map (λ end. end.now) ends.now) file.now name.now }
{
    for end in ends {
        if is_file_of(file, name, end) {
            return false;
        }
    }
    true
}

// Whether a word is the one that is wanted.
fn is_word(word: &[u8], wanted: &[u8]) -> bool
    ensures { result ≡ is_word word.now wanted.now }
{
    word == wanted
}

// ---- the rows of `copilot`

// Whether three words are a compile. The file is neither of those that are written.
fn is_compile(word: &[u8], spec: &[u8], name: &[u8]) -> bool
    ensures value { result ≡ is_compile word.now spec.now name.now }
    ensures named { IsTrue result → IsTrue (is_name name.now) }
{
    if !is_word(word, b"compile") {
        return false;
    }
    if !is_file(spec) {
        return false;
    }
    if !is_name(name) {
        return false;
    }
    is_apart(&[b".h", b".c"], spec, name)
}

fn is_interpret(word: &[u8], spec: &[u8]) -> bool
    ensures { result ≡ is_interpret word.now spec.now }
{
    if !is_word(word, b"interpret") {
        return false;
    }
    is_file(spec)
}

fn is_cexec(word: &[u8], name: &[u8]) -> bool
    ensures { result ≡ is_cexec word.now name.now }
{
    if !is_word(word, b"cexec") {
        return false;
    }
    is_name(name)
}

// The streams and the steps of a demo.
fn demo_numbers(word: &[u8], streams: &[u8], steps: &[u8]) -> Option<(u32, u32)>
    ensures none { IfNone result (is_demo word.now streams.now steps.now ≡ false) }
    ensures some { IfSome result (λ n. (is_demo word.now streams.now steps.now ≡ true)
        × (n.0 ≡ value_of streams.now) × (n.1 ≡ value_of steps.now)) }
    ensures few { IfSome result (λ n. (n.0 ≤ 1000) × (n.1 ≤ 1000000)) }
{
    if !is_word(word, b"demo") {
        return None;
    }
    let streams = decimal_between(streams, 1, 1_000)?;
    let steps = decimal_between(steps, 0, 1_000_000)?;
    Some((streams, steps))
}

fn is_migrate(word: &[u8], old: &[u8], new: &[u8]) -> bool
    ensures value { result ≡ is_migrate word.now old.now new.now }
    ensures named { IsTrue result → IsTrue (is_name new.now) }
{
    if !is_word(word, b"migrate") {
        return false;
    }
    if !is_name(old) {
        return false;
    }
    if !is_name(new) {
        return false;
    }
    !is_word(old, new)
}

fn copilot_pair<'a>(word: &'a str, a: &'a str) -> Command<'a>
    ensures value { value_of_command result ≡ copilot_command (word.now ∷ a.now ∷ []) }
    ensures fit { IsFit (value_of_command result) }
{
    if is_interpret(word.as_bytes(), a.as_bytes()) {
        return Command::Interpret { spec: a };
    }
    if is_cexec(word.as_bytes(), a.as_bytes()) {
        return Command::Cexec { name: a };
    }
    Command::NoCommand
}

fn copilot_triple<'a>(word: &'a str, a: &'a str, b: &'a str) -> Command<'a>
    ensures value { value_of_command result ≡ copilot_command (word.now ∷ a.now ∷ b.now ∷ []) }
    ensures fit { IsFit (value_of_command result) }
{
    if is_compile(word.as_bytes(), a.as_bytes(), b.as_bytes()) {
        return Command::Compile { spec: a, name: b };
    }
    if let Some((streams, steps)) = demo_numbers(word.as_bytes(), a.as_bytes(), b.as_bytes()) {
        return Command::Demo { streams, steps };
    }
    if is_migrate(word.as_bytes(), a.as_bytes(), b.as_bytes()) {
        return Command::Migrate { old: a, new: b };
    }
    Command::NoCommand
}

fn copilot_command<'a>(words: &'a [String]) -> Command<'a>
    ensures value { value_of_command result ≡ copilot_command (map string_bytes words.now) }
    ensures fit { IsFit (value_of_command result) }
{
    if words.len() == 2 {
        let [word, a] = words else {
            return Command::NoCommand;
        };
        return copilot_pair(word.as_str(), a.as_str());
    }
    if words.len() == 3 {
        let [word, a, b] = words else {
            return Command::NoCommand;
        };
        return copilot_triple(word.as_str(), a.as_str(), b.as_str());
    }
    Command::NoCommand
}

// ---- the rows of `ogma`

fn is_standalone(word: &[u8], reqs: &[u8], spec: &[u8]) -> bool
    ensures { result ≡ is_standalone word.now reqs.now spec.now }
{
    if !is_word(word, b"standalone") {
        return false;
    }
    if !is_file(reqs) {
        return false;
    }
    if !is_file(spec) {
        return false;
    }
    !is_word(reqs, spec)
}

// Whether three words are this frame over a file that is none of those that are written.
fn is_frame(wanted: &[u8], ends: &[&[u8]], word: &[u8], reqs: &[u8], name: &[u8]) -> bool
    ensures { result ≡ is_frame wanted.now (map (λ end. end.now) ends.now) word.now reqs.now name.now }
{
    if !is_word(word, wanted) {
        return false;
    }
    if !is_file(reqs) {
        return false;
    }
    if !is_name(name) {
        return false;
    }
    is_apart(ends, reqs, name)
}

fn is_cfs(word: &[u8], reqs: &[u8], name: &[u8]) -> bool
    ensures { result ≡ is_frame (codes "cfs") cfs_ends word.now reqs.now name.now }
{
    is_frame(b"cfs", &[b".spec", b"_app.c"], word, reqs, name)
}

fn is_ros(word: &[u8], reqs: &[u8], name: &[u8]) -> bool
    ensures { result ≡ is_frame (codes "ros") ros_ends word.now reqs.now name.now }
{
    is_frame(b"ros", &[b".spec", b"_node.cpp"], word, reqs, name)
}

fn is_fprime(word: &[u8], reqs: &[u8], name: &[u8]) -> bool
    ensures { result ≡ is_frame (codes "fprime") fprime_ends word.now reqs.now name.now }
{
    is_frame(
        b"fprime",
        &[b".spec", b".fpp", b"_fprime.cpp"],
        word,
        reqs,
        name,
    )
}

fn application<'a>(word: &'a str, reqs: &'a str, name: &'a str) -> Command<'a>
    ensures value { value_of_command result ≡ application word.now reqs.now name.now }
    ensures fit { IsFit (value_of_command result) }
{
    if is_cfs(word.as_bytes(), reqs.as_bytes(), name.as_bytes()) {
        return Command::Cfs { reqs, name };
    }
    if is_ros(word.as_bytes(), reqs.as_bytes(), name.as_bytes()) {
        return Command::Ros { reqs, name };
    }
    if is_fprime(word.as_bytes(), reqs.as_bytes(), name.as_bytes()) {
        return Command::Fprime { reqs, name };
    }
    Command::NoCommand
}

fn ogma_triple<'a>(word: &'a str, a: &'a str, b: &'a str) -> Command<'a>
    ensures value { value_of_command result ≡ ogma_command (word.now ∷ a.now ∷ b.now ∷ []) }
    ensures fit { IsFit (value_of_command result) }
{
    if is_standalone(word.as_bytes(), a.as_bytes(), b.as_bytes()) {
        return Command::Standalone { reqs: a, spec: b };
    }
    application(word, a, b)
}

fn ogma_command<'a>(words: &'a [String]) -> Command<'a>
    ensures value { value_of_command result ≡ ogma_command (map string_bytes words.now) }
    ensures fit { IsFit (value_of_command result) }
{
    if words.len() != 3 {
        return Command::NoCommand;
    }
    let [word, a, b] = words else {
        return Command::NoCommand;
    };
    ogma_triple(word.as_str(), a.as_str(), b.as_str())
}

/// The command that a tool's words are.
pub fn command_of<'a>(tool: Tool, words: &'a [String]) -> Command<'a>
    ensures value { value_of_command result ≡ command_of tool (map string_bytes words.now) }
    ensures fit { IsFit (value_of_command result) }
{
    match tool {
        Tool::Copilot => copilot_command(words),
        Tool::Ogma => ogma_command(words),
    }
}
