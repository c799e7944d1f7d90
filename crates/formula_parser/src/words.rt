//! From tokens to what the grammar of formulas sees of them.

ghost use Rattle.std.specs.Prelude.{◌≡◌, ◌≤◌, ◌+◌, length, IfOk};
ghost use Rattle.formula.specs.grammar.Signs as spec;
ghost use Rattle.formula_parser.specs.Texts.{most_fields};
ghost use Rattle.base_grammar.specs.Counts.{number_count, plain_text};

use base_grammar::{Lexis, Piece, Placed, Token, characters, is_written, number_count, plain_text};
use base_value::{Items, Text};
use formula::{NamedField, Relation, Sign, sort_of};
use std::alloc::{AllocError, Global};

/// How formulas write texts and marks.
pub struct FormulaLexis;

impl Lexis for FormulaLexis {
    ghost use Rattle.formula.specs.grammar.Signs as spec;

    ghost lexis = { spec.lexis };

    fn is_quote(c: char) -> bool {
        c == '"'
    }

    #[tactic(auto, unfolding(formula::specs::grammar::Signs::escape))]
    fn escape(c: char) -> Option<Piece> {
        if c == '"' || c == '\\' {
            Some(Piece::Plain(c))
        } else {
            None
        }
    }

    #[tactic(auto, unfolding(formula::specs::grammar::Signs::is_mark))]
    fn is_mark(c: char) -> bool {
        c == '(' || c == ')' || c == ',' || c == '=' || c == '<' || c == '>'
    }

    #[tactic(auto, unfolding(formula::specs::grammar::Signs::is_pair))]
    fn is_pair(c: char, d: char) -> bool {
        c == '<' && (d == '>' || d == '=') || c == '>' && d == '='
    }
}

// The function word that a text is.
#[tactic(auto, unfolding(formula::specs::grammar::Signs::function_word))]
fn function_word(text: &Text) -> Option<Sign>
    ensures { result ≡ spec.function_word text.now }
{
    if is_written("TRUE", text) {
        Some(Sign::Truth(true))
    } else if is_written("FALSE", text) {
        Some(Sign::Truth(false))
    } else if is_written("ISNEW", text) {
        Some(Sign::IsNew)
    } else if is_written("NOT", text) {
        Some(Sign::Not)
    } else if is_written("AND", text) {
        Some(Sign::And)
    } else if is_written("OR", text) {
        Some(Sign::Or)
    } else if is_written("ISBLANK", text) {
        Some(Sign::IsBlank)
    } else if is_written("ISCHANGED", text) {
        Some(Sign::IsChanged)
    } else if is_written("ISPICKVAL", text) {
        Some(Sign::IsPickval)
    } else if is_written("LEN", text) {
        Some(Sign::Len)
    } else if is_written("PRIORVALUE", text) {
        Some(Sign::Prior)
    } else {
        None
    }
}

// A function word, if the formula may have it.
fn allowed(criteria: bool, word: Sign) -> Sign
    ensures { result ≡ spec.allowed criteria word }
{
    match word {
        Sign::IsNew | Sign::IsChanged | Sign::Prior => { if criteria { Sign::Bad } else { word } }
        _ => word,
    }
}

// The field that has this name.
fn field_sign(fields: &[NamedField], text: &Text) -> Sign
    requires { length fields.now ≤ most_fields }
    ensures { result ≡ spec.field_sign 0 fields.now text.now }
{
    let mut rest = fields;
    let mut position: u8 = 0;
    'fields: while let Some((field, behind)) = rest.split_first() {
        if is_written(field.name.as_str(), text) {
            return Sign::Field(position, sort_of(&field.kind));
        }
        position += 1;
        rest = behind;
    }
    Sign::Bad
}

#[tactic(auto, unfolding(formula::specs::grammar::Signs::mark_sign))]
fn mark_sign(c: char) -> Sign
    ensures { result ≡ spec.mark_sign c }
{
    match c {
        '(' => Sign::Open,
        ')' => Sign::Close,
        ',' => Sign::Comma,
        '=' => Sign::Relation(Relation::Equal),
        '<' => Sign::Relation(Relation::Less),
        '>' => Sign::Relation(Relation::Greater),
        _ => Sign::Bad,
    }
}

#[tactic(auto, unfolding(formula::specs::grammar::Signs::pair_sign))]
fn pair_sign(c: char, d: char) -> Sign
    ensures { result ≡ spec.pair_sign c d }
{
    if c == '<' && d == '>' {
        Sign::Relation(Relation::NotEqual)
    } else if c == '<' && d == '=' {
        Sign::Relation(Relation::LessEqual)
    } else if c == '>' && d == '=' {
        Sign::Relation(Relation::GreaterEqual)
    } else {
        Sign::Bad
    }
}

fn word_sign(criteria: bool, fields: &[NamedField], text: &Text) -> Sign
    requires { length fields.now ≤ most_fields }
    ensures { result ≡ spec.word_or_field criteria fields.now text.now (spec.function_word text.now) }
{
    match function_word(text) {
        Some(word) => allowed(criteria, word),
        None => field_sign(fields, text),
    }
}

// The number that a run is.
fn number_sign(alloc: Global, text: &Text) -> Result<Sign, AllocError>
    ensures { IfOk result (λ sign. sign ≡ spec.number_sign (number_count text.now)) }
{
    let characters = characters(alloc, text.as_str())?;
    match number_count(characters.as_slice()) {
        Some(count) => Ok(Sign::Number(count)),
        None => Ok(Sign::Bad),
    }
}

fn text_sign(alloc: Global, pieces: &[Piece]) -> Result<Sign, AllocError>
    ensures { IfOk result (λ sign. sign ≡ spec.text_sign (plain_text pieces.now)) }
{
    match plain_text(alloc, pieces)? {
        Some(text) => Ok(Sign::Text(text)),
        None => Ok(Sign::Bad),
    }
}

/// What the grammar sees of a token.
pub fn sign_of(
    alloc: Global,
    criteria: bool,
    fields: &[NamedField],
    token: &Token,
) -> Result<Sign, AllocError>
    requires { length fields.now ≤ most_fields }
    ensures { IfOk result (λ sign. sign ≡ spec.sign_of criteria fields.now token.now) }
{
    match token {
        Token::Word(text) => Ok(word_sign(criteria, fields, text)),
        Token::Run(text) => number_sign(alloc, text),
        Token::Text(pieces) => text_sign(alloc, pieces.as_slice()),
        Token::Mark(c) => Ok(mark_sign(*c)),
        Token::Pair(c, d) => Ok(pair_sign(*c, *d)),
        Token::Bad => Ok(Sign::Bad),
    }
}

/// What the grammar sees of some tokens.
pub fn signs(
    alloc: Global,
    criteria: bool,
    fields: &[NamedField],
    tokens: &[Placed],
) -> Result<Items<Sign>, AllocError>
    requires { length fields.now ≤ most_fields }
    ensures { IfOk result (λ all. all ≡ spec.signs criteria fields.now tokens.now) }
{
    let mut found = Items::new(alloc);
    let mut rest = tokens;
    'tokens: while let Some((placed, behind)) = rest.split_first() {
        found.push(sign_of(alloc, criteria, fields, &placed.token)?)?;
        rest = behind;
    }
    Ok(found)
}
