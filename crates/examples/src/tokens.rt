//! Prints the tokens of standard input, each with its line and column: words, numbers, quoted texts, comments after `#`
//! and marks; and then each word once, in order. Something else is reported with its first place.
#![tactic(auto)]

ghost use Rattle.std.specs.List.{flat_map};
ghost use Rattle.std.specs.Prelude.{◌≡◌, ◌≢◌, ◌∷◌, [], All, IfErr, IfOk, MatchResult, OnOk, length};
ghost use Rattle.std.proofs.Common.{rules};
ghost use Rattle.ascii.specs.View.{text_of};
ghost use Rattle.ascii_formats.specs.Parts.{part_text};
ghost use Rattle.examples.specs.Tokens.{AddsWords, AreLaid, HasWordsOf, IsErrorOf, IsTaken};
ghost use Rattle.examples.specs.Tokens.{IsTokenOf, token_text};

use ascii::classes::{ByRanges, Digit, Punctuation, Ranges, Whitespace};
use ascii::{AsciiChar, AsciiStr, text};
use ascii_formats::AsciiStrExt;
use ascii_formats::parts::{Expected, ParseError, Part, Taken};
use ascii_keys::AsciiSet;
use std::alloc::{AllocError, Global};
use std::io::{self, Read};

/// What a token is.
#[derive(Clone, Copy, PartialEq, Eq, Debug)]
pub enum Kind {
    /// Whitespace.
    Space,
    /// What comes after `#` in its line.
    Comment,
    /// Digits.
    Number,
    /// Letters, digits and `_`.
    Word,
    /// What is between two `"`, where `\` makes the next character an ordinary one.
    Quoted,
    /// A punctuation mark.
    Mark,
}

/// A token, with its place in the text.
#[derive(Clone, Copy)]
pub struct Token<'a> {
    pub kind: Kind,
    pub part: Part<'a>,
}

pub struct WordRanges;

const WORD: [(u8, u8); 4] = [(b'0', b'9'), (b'A', b'Z'), (b'a', b'z'), (b'_', b'_')];

impl Ranges for WordRanges {
    ghost use Rattle.examples.specs.Tokens.{IsWordCode};
    ghost use Rattle.examples.specs.declared.tokens.TheConstants.{WORD};

    ghost set = { IsWordCode };

    ghost list = { WORD };

    ghost matches = { λ n. Prim.search rules };

    fn ranges() -> &'static [(u8, u8)] {
        &WORD
    }
}

/// The characters of a word.
pub type Word = ByRanges<WordRanges>;

pub struct LineRanges;

const LINE: [(u8, u8); 2] = [(0, 9), (11, 127)];

impl Ranges for LineRanges {
    ghost use Rattle.examples.specs.Tokens.{IsLineCode};
    ghost use Rattle.examples.specs.declared.tokens.TheConstants.{LINE};

    ghost set = { IsLineCode };

    ghost list = { LINE };

    ghost matches = { λ n. Prim.search rules };

    fn ranges() -> &'static [(u8, u8)] {
        &LINE
    }
}

/// The characters of a line.
pub type Line = ByRanges<LineRanges>;

/// Returns the tokens of a text, in order, or the part of the text at whose start there is none.
pub fn read_tokens<'a>(alloc: Global, text: AsciiStr<'a>) -> Result<Vec<Token<'a>>, ParseError<'a>>
    ensures joined { IfOk result (λ tokens. flat_map token_text tokens.items ≡ text_of text.entry) }
    ensures tokens { IfOk result (λ tokens. All (IsTokenOf text.entry) tokens.items) }
    ensures places { IfOk result (λ tokens.
        AreLaid 0 tokens.items (length (text_of text.entry))) }
    ensures fault { IfErr result (IsErrorOf text.entry) }
{
    let (mut tokens, mut rest) = (Vec::new(alloc), Part::of(text));
    'tokens: while !rest.is_empty() {
        let (token, after) = take_token(rest)?;
        tokens.push(token).map_err(|_| ParseError::Memory)?;
        rest = after;
    }
    Ok(tokens)
}

/// Takes a token from the start of a text that is not empty.
fn take_token<'a>(text: Part<'a>) -> Taken<'a, Token<'a>>
    requires { part_text text ≢ [] }
    ensures { MatchResult result (IsTaken text.entry) (IsErrorOf text.entry.whole) }
{
    if let Some((part, rest)) = text.take_some::<Whitespace>() {
        let kind = Kind::Space;
        return Ok((Token { kind, part }, rest));
    }
    if let Some((part, rest)) = text.take_some::<Digit>() {
        let kind = Kind::Number;
        return Ok((Token { kind, part }, rest));
    }
    if let Some((part, rest)) = text.take_some::<Word>() {
        let kind = Kind::Word;
        return Ok((Token { kind, part }, rest));
    }
    if text.text().starts_with_char(AsciiChar::Quotation) {
        let (part, rest) = text.expect_quoted(AsciiChar::Quotation, AsciiChar::BackSlash)?;
        let kind = Kind::Quoted;
        return Ok((Token { kind, part }, rest));
    }
    take_mark(text)
}

/// Takes a comment or a punctuation mark from the start of a text that is not empty.
fn take_mark<'a>(text: Part<'a>) -> Taken<'a, Token<'a>>
    requires { part_text text ≢ [] }
    ensures { MatchResult result (IsTaken text.entry) (IsErrorOf text.entry.whole) }
{
    if let Some(after) = text.strip_prefix_char(AsciiChar::Hash) {
        let (kind, (part, rest)) = (Kind::Comment, after.span::<Line>());
        return Ok((Token { kind, part }, rest));
    }
    let (kind, (part, rest)) = (Kind::Mark, text.split_at(1));
    if part.text().is_all::<Punctuation>() {
        return Ok((Token { kind, part }, rest));
    }
    Err(ParseError::At(text, Expected::Named("a token")))
}

/// Returns the words among the tokens, each once, or an error if an allocation fails.
pub fn unique_words(alloc: Global, tokens: &[Token<'_>]) -> Result<AsciiSet, AllocError>
    ensures { IfOk result (HasWordsOf tokens.now) }
{
    let mut words = AsciiSet::new(alloc);
    for token in tokens {
        add_word(&mut words, *token)?;
    }
    Ok(words)
}

/// Adds the text of a token, if it is a word.
fn add_word(words: &mut AsciiSet, token: Token<'_>) -> Result<(), AllocError>
    ensures { OnOk result (AddsWords words.old (token.entry ∷ []) words.new) }
{
    if let Kind::Word = token.kind {
        words.insert(token.part.text())?;
    }
    Ok(())
}

pub fn main(rt: HostRuntime) -> io::Result<()> {
    let mut source = String::new(rt.alloc());
    rt.stdin().read_to_string(&mut source)?;
    let view = match text::as_ascii_str(source.as_str()) {
        Ok(view) => view,
        Err(error) => return println!(rt; "{error}"),
    };
    match read_tokens(rt.alloc(), view) {
        Ok(tokens) => {
            show_tokens(&rt, tokens.as_slice())?;
            show_words(&rt, &unique_words(rt.alloc(), &tokens)?)
        }
        Err(ParseError::At(part, what)) => println!(rt; "{}", part.fault(what)),
        Err(ParseError::Memory) => println!(rt; "no memory"),
    }
}

fn show_tokens(rt: &HostRuntime, tokens: &[Token<'_>]) -> io::Result<()> {
    for token in tokens {
        if token.kind != Kind::Space {
            let place = token.part.line_and_column();
            println!(rt; "{place}: {:?} {}", token.kind, token.part)?;
        }
    }
    Ok(())
}

fn show_words(rt: &HostRuntime, words: &AsciiSet) -> io::Result<()> {
    for word in words.iter() {
        println!(rt; "{word}")?;
    }
    Ok(())
}
