//! What the grammar of formulas sees of a token.

ghost use Rattle.std.specs.Prelude.{◌≡◌};
ghost use Rattle.formula.specs.grammar.Signs as spec;

use crate::formula::Relation;
use base_grammar::{Kinded, TokenKind};
use base_value::{FieldType, Text};

/// What a formula asks of the type of a field.
#[derive(Clone, Copy, Debug, PartialEq, Eq)]
pub enum Sort {
    /// A text.
    Text,
    /// One of some listed texts.
    Picklist,
    /// A number.
    Number,
    /// A truth value.
    Checkbox,
    /// A date.
    Day,
    /// A moment.
    Moment,
    /// A reference to a record.
    Reference,
}

/// The kind of a term. Only terms of one kind are compared.
#[derive(Clone, Copy, Debug, PartialEq, Eq)]
pub enum Kind {
    /// Texts, also of picklists.
    Text,
    /// Numbers.
    Number,
    /// Truth values.
    Checkbox,
    /// Dates.
    Day,
    /// Moments.
    Moment,
}

/// A token, as formulas see it.
#[derive(Debug, Drop)]
pub enum Sign {
    /// `TRUE` or `FALSE`.
    Truth(bool),
    /// `ISNEW`
    IsNew,
    /// `NOT`
    Not,
    /// `AND`
    And,
    /// `OR`
    Or,
    /// `ISBLANK`
    IsBlank,
    /// `ISCHANGED`
    IsChanged,
    /// `ISPICKVAL`
    IsPickval,
    /// `LEN`
    Len,
    /// `PRIORVALUE`
    Prior,
    /// The name of the field at this position.
    Field(u8, Sort),
    /// A number, counted in units of 10^-8.
    Number(i128),
    /// A text.
    Text(Text),
    /// A relation.
    Relation(Relation),
    /// `(`
    Open,
    /// `)`
    Close,
    /// `,`
    Comma,
    /// What can follow nothing.
    Bad,
}

/// The kinds of tokens, as the definitions number them.
#[derive(Clone, Copy, Debug, PartialEq, Eq)]
pub enum SignKind {
    /// `TRUE` or `FALSE`.
    Truth,
    /// `ISNEW`
    IsNew,
    /// `NOT`
    Not,
    /// `AND`
    And,
    /// `OR`
    Or,
    /// `ISBLANK`
    IsBlank,
    /// `ISCHANGED`
    IsChanged,
    /// `ISPICKVAL`
    IsPickval,
    /// `LEN`
    Len,
    /// `PRIORVALUE`
    Prior,
    /// The name of the field at this position.
    Field,
    /// A number, counted in units of 10^-8.
    Number,
    /// A text.
    Text,
    /// A relation.
    Relation,
    /// `(`
    Open,
    /// `)`
    Close,
    /// `,`
    Comma,
    /// What can follow nothing.
    Bad,
}

impl TokenKind for SignKind {
    ghost use Rattle.formula.specs.grammar.Signs as spec;

    ghost number = { spec.number };

    fn number(self) -> u8 {
        self as u8
    }
}

impl Kinded for Sign {
    ghost use Rattle.formula.specs.grammar.Signs as spec;

    type Kind = SignKind;

    ghost kind = { spec.kind };

    fn kind(&self) -> SignKind {
        match self {
            Sign::Truth(_) => SignKind::Truth,
            Sign::IsNew => SignKind::IsNew,
            Sign::Not => SignKind::Not,
            Sign::And => SignKind::And,
            Sign::Or => SignKind::Or,
            Sign::IsBlank => SignKind::IsBlank,
            Sign::IsChanged => SignKind::IsChanged,
            Sign::IsPickval => SignKind::IsPickval,
            Sign::Len => SignKind::Len,
            Sign::Prior => SignKind::Prior,
            Sign::Field(_, _) => SignKind::Field,
            Sign::Number(_) => SignKind::Number,
            Sign::Text(_) => SignKind::Text,
            Sign::Relation(_) => SignKind::Relation,
            Sign::Open => SignKind::Open,
            Sign::Close => SignKind::Close,
            Sign::Comma => SignKind::Comma,
            Sign::Bad => SignKind::Bad,
        }
    }
}

/// What a formula asks of a type.
pub fn sort_of(kind: &FieldType) -> Sort
    ensures { result ≡ spec.sort_of kind.now }
{
    match kind {
        FieldType::Text(_) => Sort::Text,
        FieldType::Number { .. } => Sort::Number,
        FieldType::Checkbox => Sort::Checkbox,
        FieldType::Day => Sort::Day,
        FieldType::Moment => Sort::Moment,
        FieldType::Picklist(_) => Sort::Picklist,
        FieldType::Lookup { .. } | FieldType::Master { .. } => Sort::Reference,
    }
}
