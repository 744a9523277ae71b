//! Where a text that is not JSON is wrong.

ghost use Rattle.std.specs.{Prelude.{◌≡◌, ◌≤◌, suc, ℕ, List, [], ◌∷◌, length, IfOk, if◌then◌else◌}, Str.Lossy.{utf8_valid_len}};
ghost use Rattle.typst_html_json.specs.JsonPlaces as places;
ghost use Rattle.typst_html_json.specs.declared.json_stage.{Move.TheVariants.{GoOn}, NumberPart.TheVariants.{Zero, Whole, Fraction}};
ghost use Rattle.typst_html_json.specs.declared.json_stage.Stage.TheVariants.{Value, Number};
ghost use Rattle.typst_html_json.specs.declared.json_stage.TextPart.TheVariants.{Plain, Escape, Unit, UnitD};

use crate::json_stage::{Bracket, Move, NumberPart, Stage, TextPart, WordPart};
use std::alloc::{AllocError, Global};
use std::str;

/// The greatest number of brackets that may be open.
const MAX_DEPTH: usize = 127;

fn is_space(b: u8) -> bool
    ensures { result ≡ places.is_space b }
{
    b == b' ' || b == b'\t' || b == b'\n' || b == b'\r'
}

fn is_digit(b: u8) -> bool
    ensures { result ≡ places.is_digit b }
{
    b'0' <= b && b <= b'9'
}

fn is_exponent(b: u8) -> bool
    ensures { result ≡ places.is_exponent b }
{
    b == b'E' || b == b'e'
}

fn is_within(first: u8, last: u8, b: u8) -> bool
    ensures { result ≡ places.is_within first last b }
{
    first <= b && b <= last
}

fn is_hex(b: u8) -> bool
    ensures { result ≡ places.is_hex b }
{
    is_digit(b) || is_within(b'A', b'F', b) || is_within(b'a', b'f', b)
}

fn is_escaped(b: u8) -> bool
    ensures { result ≡ places.is_escaped b }
{
    b == b'"'
        || b == b'\\'
        || b == b'/'
        || b == b'b'
        || b == b'f'
        || b == b'n'
        || b == b'r'
        || b == b't'
}

/// Returns whether the digit may be the first of a surrogate.
fn is_d(b: u8) -> bool
    ensures { result ≡ places.is_d b }
{
    b == b'D' || b == b'd'
}

/// Returns whether the digit may be the second of a high surrogate.
fn is_high(b: u8) -> bool
    ensures { result ≡ places.is_high b }
{
    is_within(b'8', b'9', b) || is_within(b'A', b'B', b) || is_within(b'a', b'b', b)
}

/// Returns whether the digit may be the second of a low surrogate.
fn is_low(b: u8) -> bool
    ensures { result ≡ places.is_low b }
{
    is_within(b'C', b'F', b) || is_within(b'c', b'f', b)
}

fn behind_text(is_key: bool) -> Stage
    ensures { result ≡ places.behind_text is_key }
{
    if is_key { Stage::Colon } else { Stage::Behind }
}

fn plain_move(is_key: bool, b: u8) -> Option<Stage>
    ensures { result ≡ places.text_move is_key Plain b }
{
    if b == b'"' {
        Some(behind_text(is_key))
    } else if b == b'\\' {
        Some(Stage::Text(is_key, TextPart::Escape))
    } else {
        (b' ' <= b).then_some(Stage::Text(is_key, TextPart::Plain))
    }
}

fn escape_move(is_key: bool, b: u8) -> Option<Stage>
    ensures { result ≡ places.text_move is_key Escape b }
{
    if b == b'u' {
        Some(Stage::Text(is_key, TextPart::Unit))
    } else {
        is_escaped(b).then_some(Stage::Text(is_key, TextPart::Plain))
    }
}

fn unit_move(is_key: bool, b: u8) -> Option<Stage>
    ensures { result ≡ places.text_move is_key Unit b }
{
    if is_d(b) {
        Some(Stage::Text(is_key, TextPart::UnitD))
    } else {
        is_hex(b).then_some(Stage::Text(is_key, TextPart::ThreeLeft))
    }
}

fn unit_d_move(is_key: bool, b: u8) -> Option<Stage>
    ensures { result ≡ places.text_move is_key UnitD b }
{
    if is_within(b'0', b'7', b) {
        Some(Stage::Text(is_key, TextPart::TwoLeft))
    } else {
        is_high(b).then_some(Stage::Text(is_key, TextPart::HighTwoLeft))
    }
}

/// Returns what comes next in a string.
fn text_move(is_key: bool, part: TextPart, b: u8) -> Option<Stage>
    ensures { result ≡ places.text_move is_key part b }
{
    let (holds, next) = match part {
        TextPart::Plain => return plain_move(is_key, b),
        TextPart::Escape => return escape_move(is_key, b),
        TextPart::Unit => return unit_move(is_key, b),
        TextPart::UnitD => return unit_d_move(is_key, b),
        TextPart::ThreeLeft => (is_hex(b), TextPart::TwoLeft),
        TextPart::TwoLeft => (is_hex(b), TextPart::OneLeft),
        TextPart::OneLeft => (is_hex(b), TextPart::Plain),
        TextPart::HighTwoLeft => (is_hex(b), TextPart::HighOneLeft),
        TextPart::HighOneLeft => (is_hex(b), TextPart::LowEscape),
        TextPart::LowEscape => (b == b'\\', TextPart::LowU),
        TextPart::LowU => (b == b'u', TextPart::LowUnit),
        TextPart::LowUnit => (is_d(b), TextPart::LowUnitD),
        TextPart::LowUnitD => (is_low(b), TextPart::TwoLeft),
    };
    holds.then_some(Stage::Text(is_key, next))
}

/// Returns what comes next in `true`, `false` or `null`.
fn word_move(part: WordPart, b: u8) -> Option<Stage>
    ensures { result ≡ places.word_move part b }
{
    match part {
        WordPart::Rue => (b == b'r').then_some(Stage::Word(WordPart::Ue)),
        WordPart::Ue => (b == b'u').then_some(Stage::Word(WordPart::E)),
        WordPart::E => (b == b'e').then_some(Stage::Behind),
        WordPart::Alse => (b == b'a').then_some(Stage::Word(WordPart::Lse)),
        WordPart::Lse => (b == b'l').then_some(Stage::Word(WordPart::Se)),
        WordPart::Se => (b == b's').then_some(Stage::Word(WordPart::E)),
        WordPart::Ull => (b == b'u').then_some(Stage::Word(WordPart::Ll)),
        WordPart::Ll => (b == b'l').then_some(Stage::Word(WordPart::L)),
        WordPart::L => (b == b'l').then_some(Stage::Behind),
    }
}

fn ended_move(innermost: Option<Bracket>, b: u8) -> Option<Move>
    ensures { result ≡ places.ended_move innermost b }
{
    match innermost {
        None => None,
        Some(Bracket::Array) if b == b',' => Some(Move::GoOn(Stage::Value)),
        Some(Bracket::Array) => (b == b']').then_some(Move::Close),
        Some(Bracket::Object) if b == b',' => Some(Move::GoOn(Stage::Key)),
        Some(Bracket::Object) => (b == b'}').then_some(Move::Close),
    }
}

/// Returns what comes next after a value.
fn behind_move(innermost: Option<Bracket>, b: u8) -> Option<Move>
    ensures { result ≡ places.behind_move innermost b }
{
    if is_space(b) {
        Some(Move::GoOn(Stage::Behind))
    } else {
        ended_move(innermost, b)
    }
}

fn number_at(part: NumberPart) -> Move
    ensures { result ≡ GoOn (Number part) }
{
    Move::GoOn(Stage::Number(part))
}

fn whole_move(innermost: Option<Bracket>, b: u8) -> Option<Move>
    ensures { result ≡ places.number_move Whole innermost b }
{
    if is_digit(b) {
        Some(number_at(NumberPart::Whole))
    } else {
        zero_move(innermost, b)
    }
}

fn zero_move(innermost: Option<Bracket>, b: u8) -> Option<Move>
    ensures { result ≡ places.number_move Zero innermost b }
{
    if b == b'.' {
        Some(number_at(NumberPart::Point))
    } else if is_exponent(b) {
        Some(number_at(NumberPart::Exponent))
    } else {
        behind_move(innermost, b)
    }
}

fn fraction_move(innermost: Option<Bracket>, b: u8) -> Option<Move>
    ensures { result ≡ places.number_move Fraction innermost b }
{
    if is_digit(b) {
        Some(number_at(NumberPart::Fraction))
    } else if is_exponent(b) {
        Some(number_at(NumberPart::Exponent))
    } else {
        behind_move(innermost, b)
    }
}

/// Returns what comes next in a number.
fn number_move(part: NumberPart, innermost: Option<Bracket>, b: u8) -> Option<Move>
    ensures { result ≡ places.number_move part innermost b }
{
    match part {
        NumberPart::Minus if b == b'0' => Some(number_at(NumberPart::Zero)),
        NumberPart::Minus => is_digit(b).then_some(number_at(NumberPart::Whole)),
        NumberPart::Zero => zero_move(innermost, b),
        NumberPart::Whole => whole_move(innermost, b),
        NumberPart::Point => is_digit(b).then_some(number_at(NumberPart::Fraction)),
        NumberPart::Fraction => fraction_move(innermost, b),
        NumberPart::Exponent if b == b'+' || b == b'-' => Some(number_at(NumberPart::Sign)),
        NumberPart::Exponent => is_digit(b).then_some(number_at(NumberPart::Power)),
        NumberPart::Sign => is_digit(b).then_some(number_at(NumberPart::Power)),
        NumberPart::Power if is_digit(b) => Some(number_at(NumberPart::Power)),
        NumberPart::Power => behind_move(innermost, b),
    }
}

/// Returns what begins a value.
fn begin_move(b: u8) -> Option<Move>
    ensures { result ≡ places.begin_move b }
{
    if b == b'"' {
        Some(Move::GoOn(Stage::Text(false, TextPart::Plain)))
    } else if b == b'[' {
        Some(Move::Open(Bracket::Array))
    } else if b == b'{' {
        Some(Move::Open(Bracket::Object))
    } else if b == b'-' {
        Some(number_at(NumberPart::Minus))
    } else if b == b'0' {
        Some(number_at(NumberPart::Zero))
    } else if is_digit(b) {
        Some(number_at(NumberPart::Whole))
    } else {
        begin_word(b)
    }
}

fn begin_word(b: u8) -> Option<Move>
    ensures { result ≡ places.begin_word b }
{
    if b == b't' {
        Some(Move::GoOn(Stage::Word(WordPart::Rue)))
    } else if b == b'f' {
        Some(Move::GoOn(Stage::Word(WordPart::Alse)))
    } else {
        (b == b'n').then_some(Move::GoOn(Stage::Word(WordPart::Ull)))
    }
}

fn key_move(b: u8) -> Option<Move>
    ensures { result ≡ places.key_move b }
{
    (b == b'"').then_some(Move::GoOn(Stage::Text(true, TextPart::Plain)))
}

fn move_past_space(stage: Stage, innermost: Option<Bracket>, b: u8) -> Option<Move>
    ensures { result ≡ places.move_past_space stage innermost b }
{
    match stage {
        Stage::FirstItem if b == b']' => Some(Move::Close),
        Stage::Value | Stage::FirstItem => begin_move(b),
        Stage::FirstKey if b == b'}' => Some(Move::Close),
        Stage::FirstKey | Stage::Key => key_move(b),
        Stage::Colon => (b == b':').then_some(Move::GoOn(Stage::Value)),
        _ => ended_move(innermost, b),
    }
}

/// Returns what a byte does at a stage within these brackets, or `None` if no JSON text goes on
/// with it.
fn move_at(stage: Stage, innermost: Option<Bracket>, b: u8) -> Option<Move>
    ensures { result ≡ places.move_at stage innermost b }
{
    match stage {
        Stage::Text(is_key, part) => Some(Move::GoOn(text_move(is_key, part, b)?)),
        Stage::Word(part) => Some(Move::GoOn(word_move(part, b)?)),
        Stage::Number(part) => number_move(part, innermost, b),
        _ if is_space(b) => Some(Move::GoOn(stage)),
        _ => move_past_space(stage, innermost, b),
    }
}

fn first_stage(bracket: Bracket) -> Stage
    ensures { result ≡ places.first_stage bracket }
{
    match bracket {
        Bracket::Array => Stage::FirstItem,
        Bracket::Object => Stage::FirstKey,
    }
}

/// A point in a JSON text.
#[derive(Drop)]
struct Point {
    stage: Stage,
    /// The brackets that are open, the innermost last.
    brackets: Vec<Bracket>,
}

impl Point {
    /// Passes a byte, and returns whether a JSON text goes on with it.
    fn pass(&mut self, b: u8) -> Result<bool, AllocError>
        ensures { IfOk result (λ passed. (text : List ℕ) →
            places.begun self.old.stage self.old.brackets.items (b ∷ text) ≡ (if passed then
            suc (places.begun self.new.stage self.new.brackets.items text) else 0)) }
    {
        match move_at(self.stage, self.brackets.last().copied(), b) {
            None => return Ok(false),
            Some(Move::GoOn(stage)) => self.stage = stage,
            Some(Move::Open(bracket)) => {
                if self.brackets.len() >= MAX_DEPTH {
                    return Ok(false);
                }
                self.stage = first_stage(bracket);
                self.brackets.push(bracket)?;
            }
            Some(Move::Close) => {
                self.stage = Stage::Behind;
                let _ = self.brackets.pop();
            }
        }
        Ok(true)
    }
}

/// Returns how many bytes of a text go on.
fn begun_len(alloc: Global, text: &[u8]) -> Result<usize, AllocError>
    ensures count { IfOk result (λ n. n ≡ places.begun Value [] text.now) }
    ensures within { IfOk result (λ n. n ≤ length text.now) }
{
    let mut point = Point {
        stage: Stage::Value,
        brackets: Vec::new(alloc),
    };
    for (index, b) in text.iter().enumerate() {
        if !point.pass(*b)? {
            return Ok(index);
        }
    }
    Ok(text.len())
}

/// Returns how many bytes of a text are UTF-8.
fn valid_len(text: &[u8]) -> usize
    ensures count { result ≡ utf8_valid_len text.now }
    ensures within { result ≤ length text.now }
{
    match str::from_utf8(text) {
        Ok(_) => text.len(),
        Err(error) => error.valid_up_to(),
    }
}

/// Returns the line of the end of a text, counted from 1, and the length of that line in bytes.
fn end_of(text: &[u8]) -> (usize, usize)
    ensures end { result ≡ places.end_of 1 0 text.now }
    ensures within { result.1 ≤ length text.now }
{
    let mut line = 1;
    let mut column = 0;
    for b in text {
        if *b == b'\n' {
            line += 1;
            column = 0;
        } else {
            column += 1;
        }
    }
    (line, column)
}

/// Returns the line and the column of the byte at an offset, counted from 1. At the end of the
/// text, the column is the length of its last line.
fn place_at(offset: usize, text: &[u8]) -> (usize, usize)
    requires { offset ≤ length text.now }
    ensures { result ≡ places.place_at offset text.now }
{
    let (line, column) = end_of(&text[..offset]);
    if offset < text.len() {
        (line, column + 1)
    } else {
        (line, column)
    }
}

/// Returns the line and the column at which a text is wrong.
#[tactic(auto, unfolding(crate::specs::JsonPlaces::wrong_place))]
pub(crate) fn wrong_place(alloc: Global, text: &[u8]) -> Result<(usize, usize), AllocError>
    ensures { IfOk result (λ place. place ≡ places.wrong_place text.now) }
{
    let offset = begun_len(alloc, &text[..valid_len(text)])?;
    Ok(place_at(offset, text))
}
