//! The command line: the words given to the program, and their parsing.

ghost use Rattle.std.specs.Prelude.{◌≡◌, ◌++◌, ◌∷◌, IfOk, IfErr, drop, map, option_map, string_bytes};
ghost use Rattle.cli.specs.Said.{AreRefused, StatesInvocation};
ghost use Rattle.club_program.specs.internal.CommandLine.{file_at, file_behind, is_option, option_words, plain_path};
ghost use Rattle.club_program.specs.internal.CommandLine.{plain_words, with_file};

use cli::{BadWords, Invocation, read_words};
use std::alloc::AllocError;
use std::io::ErrorKind;

/// The words of the command line, the program's name first.
///
/// # Errors
///
/// - `Memory` if out of memory.
/// - `Text` if a word is not UTF-8.
pub(crate) fn given_words(rt: &HostRuntime) -> Result<Vec<String>, BadWords> {
    let words = match std::env::args(rt) {
        Ok(words) => words,
        Err(error) if error.kind() == ErrorKind::OutOfMemory => return Err(BadWords::Memory),
        Err(_) => {
            let text = String::from_str(rt.alloc(), "error: a word is not UTF-8\n")?;
            return Err(BadWords::Text(text));
        }
    };
    Ok(words.collect(rt.alloc())?)
}

fn texts<'a>(rt: &HostRuntime, words: &'a [String]) -> Result<Vec<&'a str>, AllocError>
    ensures { IfOk result (λ texts. map (λ t. t.now) texts.items ≡ map string_bytes words.now) }
{
    let mut texts = Vec::new(rt.alloc());
    for word in words {
        texts.push(word.as_str())?;
    }
    Ok(texts)
}

// Whether a word is an option before the file, with its value.
fn is_option(word: &str) -> bool
    ensures { result ≡ is_option word.now }
{
    word == "--explain" || word.starts_with("--now=")
}

// The number of words of the option that these words begin with.
fn option_words(words: &[&str]) -> usize
    ensures { result ≡ option_words (map (λ t. t.now) words.now) }
{
    match words.first() {
        None => 0,
        Some(word) => {
            if is_option(word) {
                1
            } else if *word == "--now" {
                2
            } else {
                0
            }
        }
    }
}

// The number of words of the option at an index.
fn option_words_at(words: &[&str], at: usize) -> usize
    ensures { result ≡ option_words (drop at (map (λ t. t.now) words.now)) }
{
    let (_, rest) = words.split_at(at.min(words.len()));
    option_words(rest)
}

// The index of the word behind the program's name and at most two options.
fn file_at(words: &[&str]) -> usize
    ensures { result ≡ file_at (map (λ t. t.now) words.now) }
{
    let second = 1 + option_words_at(words, 1);
    second + option_words_at(words, second)
}

// The same file by a path that does not start with a hyphen.
fn plain_path(rt: &HostRuntime, file: &str) -> Result<String, AllocError>
    ensures { IfOk result (λ path. string_bytes path ≡ plain_path file.now) }
{
    if file.starts_with('-') {
        format!(in rt.alloc(); "./{file}")
    } else {
        String::from_str(rt.alloc(), file)
    }
}

// The options and the words behind them, with a path in place of the first two of these.
fn with_file<'a>(
    rt: &HostRuntime,
    options: &[&'a str],
    rest: &[&'a str],
    path: &'a Option<String>,
) -> Result<Vec<&'a str>, AllocError>
    ensures { IfOk result (λ taken. map (λ t. t.now) taken.items ≡
        with_file (map (λ t. t.now) options.now) (map (λ t. t.now) rest.now) (option_map string_bytes path.now)) }
{
    let mut taken = Vec::new(rt.alloc());
    taken.extend_from_slice(options)?;
    match path {
        None => taken.extend_from_slice(rest)?,
        Some(path) => {
            taken.push(path.as_str())?;
            let (_, others) = rest.split_at(rest.len().min(2));
            taken.extend_from_slice(others)?;
        }
    }
    Ok(taken)
}

// The word behind a `--` that these words begin with.
fn file_behind<'a>(words: &[&'a str]) -> Option<&'a str>
    ensures { option_map (λ t. t.now) result ≡ file_behind (map (λ t. t.now) words.now) }
{
    match words.split_first() {
        None => None,
        Some((mark, rest)) => {
            if *mark == "--" {
                rest.first().copied()
            } else {
                None
            }
        }
    }
}

// The path of the file behind a `--`, if these words begin so.
fn path_behind(rt: &HostRuntime, words: &[&str]) -> Result<Option<String>, AllocError>
    ensures { IfOk result (λ path. option_map string_bytes path ≡
        option_map plain_path (file_behind (map (λ t. t.now) words.now))) }
{
    match file_behind(words) {
        None => Ok(None),
        Some(file) => {
            let path = plain_path(rt, file)?;
            Ok(Some(path))
        }
    }
}

// Copies of the words.
fn owned(rt: &HostRuntime, words: &[&str]) -> Result<Vec<String>, AllocError>
    ensures { IfOk result (λ owned. map string_bytes owned.items ≡ map (λ t. t.now) words.now) }
{
    let mut owned = Vec::new(rt.alloc());
    for word in words {
        owned.push(String::from_str(rt.alloc(), word)?)?;
    }
    Ok(owned)
}

/// The words to parse, and to send to a running server: after a `--` the file may start with a hyphen.
///
/// # Errors
///
/// `AllocError` if out of memory.
pub(crate) fn plain_words(rt: &HostRuntime, words: &[String]) -> Result<Vec<String>, AllocError>
    ensures { IfOk result (λ plain. map string_bytes plain.items ≡ plain_words (map string_bytes words.now)) }
{
    let texts = texts(rt, words)?;
    let words = texts.as_slice();
    let (options, rest) = words.split_at(file_at(words).min(words.len()));
    let path = path_behind(rt, rest)?;
    let taken = with_file(rt, options, rest, &path)?;
    owned(rt, taken.as_slice())
}

/// Parses the command line.
///
/// # Errors
///
/// `BadWords` if it is malformed, asks for help or the version, or if out of memory.
pub(crate) fn parse_words(rt: &HostRuntime, words: &[String]) -> Result<Invocation, BadWords>
    ensures ok { IfOk result (StatesInvocation (map string_bytes words.now)) }
    ensures err { IfErr result (AreRefused (map string_bytes words.now)) }
{
    let texts = texts(rt, words)?;
    read_words(rt.alloc(), texts.as_slice())
}
