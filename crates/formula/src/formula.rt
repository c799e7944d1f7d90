//! Formulas, as they are held. A field is named by its position in `Fields`, which counts from 0.

use base_value::{Boxed, FieldType, Items, Text, Value};

/// A field that a formula may name.
#[derive(Debug, Drop)]
pub struct NamedField {
    /// Its name, as declared.
    pub name: Text,
    /// Its type.
    pub kind: FieldType,
}

/// The fields that a formula may name, at most 41: `Name` and the custom fields of an object.
#[derive(Debug, Drop)]
pub struct Fields {
    /// The fields in their order.
    pub items: Items<NamedField>,
}

/// What a record has in these fields.
#[derive(Debug, Drop)]
pub struct Record {
    /// One value for each field, in the same order.
    pub values: Items<Value>,
}

/// A formula: true or false of a record, and of the one that it was before, if it was there.
#[derive(Debug, Drop)]
pub enum Formula {
    /// `TRUE` or `FALSE`.
    Const(bool),
    /// `ISNEW()`: whether the record wasn't there before.
    IsNew,
    /// `NOT(..)`: whether a formula doesn't hold.
    Not(Boxed<Formula>),
    /// `AND(.., ..)`: whether all formulas hold.
    And(Items<Formula>),
    /// `OR(.., ..)`: whether some formula holds.
    Or(Items<Formula>),
    /// `ISBLANK(field)`: whether a field is null.
    IsBlank(u8),
    /// `ISCHANGED(field)`: whether a field has another value than before.
    IsChanged(u8),
    /// `ISPICKVAL(field, "value")`: whether a picklist has this value.
    IsPickval {
        /// The position of the picklist.
        field: u8,
        /// The value.
        value: Text,
    },
    /// `left < right`, or another relation of two terms.
    Compare {
        /// The first term.
        left: Term,
        /// How they are compared.
        relation: Relation,
        /// The second term.
        right: Term,
    },
}

/// What is compared.
#[derive(Debug, PartialEq, Eq, Drop)]
pub enum Term {
    /// The value of a field.
    Field(u8),
    /// A number, counted in units of 10^-8.
    Num(i128),
    /// A text.
    Text(Text),
    /// `LEN(field)`: how many characters a field has.
    Len(u8),
    /// `PRIORVALUE(field)`: the value that a field had before.
    Prior(u8),
}

/// How terms are compared.
#[derive(Clone, Copy, Debug, PartialEq, Eq)]
pub enum Relation {
    /// `=`
    Equal,
    /// `<>`
    NotEqual,
    /// `<`
    Less,
    /// `<=`
    LessEqual,
    /// `>`
    Greater,
    /// `>=`
    GreaterEqual,
}
