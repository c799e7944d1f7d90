//! From tokens to what the grammar of queries sees of them.

ghost use Rattle.std.specs.Prelude.{◌≡◌, IfOk, length};
ghost use Rattle.std.specs.List.{list_all};
ghost use Rattle.base_grammar.specs.Counts.{number_count};
ghost use Rattle.soql.specs.grammar.Signs as spec;
ghost use Rattle.base_value.specs.Numerals.{is_digit};
ghost use Rattle.base_value.specs.Reading.{read_value};
ghost use Rattle.base_value.specs.declared.value.FieldType.TheVariants as type;

use base_grammar::{Placed, Token, characters, is_written, number_count};
use base_value::{FieldType, Items, Text, Value, ValueFail, is_digit, read_value};
use soql::{Op, Sign};
use std::alloc::{AllocError, Global};

// ---- words

// The words of conditions and their literals.
#[tactic(auto, unfolding(soql::specs::grammar::Signs::condition_word))]
fn condition_word(text: &Text) -> Option<Sign>
    ensures { result ≡ spec.condition_word text.now }
{
    if is_written("AND", text) {
        Some(Sign::And)
    } else if is_written("OR", text) {
        Some(Sign::Or)
    } else if is_written("NOT", text) {
        Some(Sign::Not)
    } else if is_written("IN", text) {
        Some(Sign::In)
    } else if is_written("LIKE", text) {
        Some(Sign::Like)
    } else if is_written("NULL", text) {
        Some(Sign::Null)
    } else if is_written("TRUE", text) {
        Some(Sign::Truth(true))
    } else if is_written("FALSE", text) {
        Some(Sign::Truth(false))
    } else {
        None
    }
}

// The words of clauses.
#[tactic(auto, unfolding(soql::specs::grammar::Signs::clause_word))]
fn clause_word(text: &Text) -> Option<Sign>
    ensures { result ≡ spec.clause_word text.now }
{
    if is_written("SELECT", text) {
        Some(Sign::Select)
    } else if is_written("FROM", text) {
        Some(Sign::From)
    } else if is_written("WHERE", text) {
        Some(Sign::Where)
    } else if is_written("ORDER", text) {
        Some(Sign::Order)
    } else if is_written("BY", text) {
        Some(Sign::By)
    } else if is_written("ASC", text) {
        Some(Sign::Descending(false))
    } else if is_written("DESC", text) {
        Some(Sign::Descending(true))
    } else if is_written("NULLS", text) {
        Some(Sign::Nulls)
    } else if is_written("FIRST", text) {
        Some(Sign::Last(false))
    } else if is_written("LAST", text) {
        Some(Sign::Last(true))
    } else if is_written("LIMIT", text) {
        Some(Sign::Limit)
    } else if is_written("OFFSET", text) {
        Some(Sign::Offset)
    } else {
        None
    }
}

// A name, of which three are days too.
#[tactic(auto, unfolding(soql::specs::grammar::Signs::name_sign))]
fn name_sign(alloc: Global, text: &Text) -> Result<Sign, AllocError>
    ensures { IfOk result (λ sign. sign ≡ spec.name_sign text.now) }
{
    let name = Text::from_str(alloc, text.as_str())?;
    if is_written("TODAY", text) {
        Ok(Sign::Today(name))
    } else if is_written("YESTERDAY", text) {
        Ok(Sign::Yesterday(name))
    } else if is_written("TOMORROW", text) {
        Ok(Sign::Tomorrow(name))
    } else {
        Ok(Sign::Name(name))
    }
}

#[tactic(auto, unfolding(soql::specs::grammar::Signs::word_sign))]
fn word_sign(alloc: Global, text: &Text) -> Result<Sign, AllocError>
    ensures { IfOk result (λ sign. sign ≡ spec.word_sign text.now) }
{
    if let Some(word) = condition_word(text) {
        return Ok(word);
    }
    match clause_word(text) {
        Some(word) => Ok(word),
        None => name_sign(alloc, text),
    }
}

// ---- runs

// The number that a count of 10^-8 is, if it is at most 50,000.
fn whole_in(count: i128) -> Option<u32>
    ensures { result ≡ spec.whole_in count }
{
    if count < 0 {
        return None;
    }
    let whole = (count as u128) / 100_000_000;
    if whole <= 50_000 {
        Some(whole as u32)
    } else {
        None
    }
}

// Whether all are digits.
fn are_digits(chars: &[char]) -> bool
    ensures { result ≡ list_all is_digit chars.now }
{
    chars.iter().all(|c| is_digit(*c))
}

// A number; without a sign and a point it is a count of rows too.
#[tactic(auto, unfolding(soql::specs::grammar::Signs::number_sign))]
fn number_sign(chars: &[char], count: i128) -> Sign
    ensures { result ≡ spec.number_sign chars.now count }
{
    if are_digits(chars) {
        Sign::Number(count, whole_in(count))
    } else {
        Sign::Number(count, None)
    }
}

// The moment that a text reads as.
fn moment_sign(alloc: Global, text: &Text) -> Result<Sign, AllocError>
    ensures { IfOk result (λ sign. sign ≡ spec.moment_in (read_value type.Moment text.now)) }
{
    match read_value(alloc, &FieldType::Moment, text.as_str()) {
        Ok(Value::Moment(second)) => Ok(Sign::Moment(second)),
        Err(ValueFail::Memory) => Err(AllocError),
        _ => Ok(Sign::Bad),
    }
}

// The day that a text reads as, or the moment.
fn date_sign(alloc: Global, text: &Text) -> Result<Sign, AllocError>
    ensures { IfOk result (λ sign. sign ≡ spec.date_sign text.now) }
{
    match read_value(alloc, &FieldType::Day, text.as_str()) {
        Ok(Value::Day(day)) => Ok(Sign::Day(day)),
        Err(ValueFail::Memory) => Err(AllocError),
        _ => moment_sign(alloc, text),
    }
}

fn run_sign(alloc: Global, text: &Text) -> Result<Sign, AllocError>
    ensures { IfOk result (λ sign. sign ≡ spec.run_sign text.now (number_count text.now)) }
{
    let characters = characters(alloc, text.as_str())?;
    match number_count(characters.as_slice()) {
        Some(count) => Ok(number_sign(characters.as_slice(), count)),
        None => date_sign(alloc, text),
    }
}

// ---- marks

#[tactic(auto, unfolding(soql::specs::grammar::Signs::mark_sign))]
fn mark_sign(c: char) -> Sign
    ensures { result ≡ spec.mark_sign c }
{
    match c {
        '(' => Sign::Open,
        ')' => Sign::Close,
        ',' => Sign::Comma,
        '.' => Sign::Dot,
        '=' => Sign::Op(Op::Equal),
        '<' => Sign::Op(Op::Less),
        '>' => Sign::Op(Op::Greater),
        _ => Sign::Bad,
    }
}

// The mark of this character and `=`.
#[tactic(auto, unfolding(soql::specs::grammar::Signs::pair_sign))]
fn pair_sign(c: char) -> Sign
    ensures { result ≡ spec.pair_sign c }
{
    match c {
        '!' => Sign::Op(Op::NotEqual),
        '<' => Sign::Op(Op::LessEqual),
        '>' => Sign::Op(Op::GreaterEqual),
        _ => Sign::Bad,
    }
}

// ---- tokens

/// What the grammar sees of a token.
fn sign_of(alloc: Global, token: &Token) -> Result<Sign, AllocError>
    ensures { IfOk result (λ sign. sign ≡ spec.sign_of token.now) }
{
    match token {
        Token::Word(text) => word_sign(alloc, text),
        Token::Run(text) => run_sign(alloc, text),
        Token::Text(pieces) => Ok(Sign::Text(Items::from_slice(alloc, pieces.as_slice())?)),
        Token::Mark(c) => Ok(mark_sign(*c)),
        Token::Pair(c, _) => Ok(pair_sign(*c)),
        Token::Bad => Ok(Sign::Bad),
    }
}

/// What the grammar sees of some tokens.
pub fn signs(alloc: Global, tokens: &[Placed]) -> Result<Items<Sign>, AllocError>
    ensures { IfOk result (λ all. all ≡ spec.signs tokens.now) }
{
    let mut found = Items::new(alloc);
    let mut rest = tokens;
    'tokens: while let Some((placed, behind)) = rest.split_first() {
        found.push(sign_of(alloc, &placed.token)?)?;
        rest = behind;
    }
    Ok(found)
}
