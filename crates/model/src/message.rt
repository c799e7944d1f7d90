//! The messages of refusals.

ghost use Rattle.std.specs.Prelude.{◌≡◌, ◌++◌, IfOk, codes, encode_utf8_all};
ghost use Rattle.std.specs.Fmt.{decimal};
ghost use Rattle.std.specs.String.{string_bytes};
ghost use Rattle.model.specs.Limits.{limit_name, limit_number};
ghost use Rattle.model.specs.Messages.{message_of};
ghost use Rattle.base_value.specs.Id.{print18};

use crate::limit::{
    BODY_LIMIT, DELETION_LIMIT, INPUT_LIMIT, Limit, NAME_LIMIT, REPLY_LIMIT, SECRET_LEAST,
    SECRET_MOST,
};
use crate::refusal::Refusal;
use base_value::{Id, Text, Value, print_value};
use std::alloc::{AllocError, Global};

// A text and words behind it.
fn followed(alloc: Global, text: &Text, words: &str) -> Result<String, AllocError>
    ensures { IfOk result (λ s. string_bytes s ≡ encode_utf8_all text.now ++ words.now) }
{
    let text = text.as_str();
    format!(in alloc; "{text}{words}")
}

// A text between words.
fn around(alloc: Global, before: &str, text: &Text, behind: &str) -> Result<String, AllocError>
    ensures { IfOk result (λ s. string_bytes s ≡ before.now ++ encode_utf8_all text.now ++ behind.now) }
{
    let text = text.as_str();
    format!(in alloc; "{before}{text}{behind}")
}

// Two texts and words between them.
fn joined(alloc: Global, first: &Text, words: &str, second: &Text) -> Result<String, AllocError>
    ensures { IfOk result (λ s. string_bytes s ≡ encode_utf8_all first.now ++ (words.now ++ encode_utf8_all second.now)) }
{
    let first = first.as_str();
    let second = second.as_str();
    format!(in alloc; "{first}{words}{second}")
}

fn too_long(alloc: Global, field: &Text, most: u8) -> Result<String, AllocError>
    ensures { IfOk result (λ s. string_bytes s ≡ encode_utf8_all field.now ++ (codes ": over " ++ decimal most ++ codes " characters")) }
{
    let field = field.as_str();
    format!(in alloc; "{field}: over {most} characters")
}

fn referred_to(alloc: Global, object: &Text, field: &Text) -> Result<String, AllocError>
    ensures { IfOk result (λ s. string_bytes s ≡ encode_utf8_all object.now ++ (codes "." ++ encode_utf8_all field.now ++ codes ": the record is referred to")) }
{
    let object = object.as_str();
    let field = field.as_str();
    format!(in alloc; "{object}.{field}: the record is referred to")
}

fn duplicate_of(alloc: Global, field: &Text, other: &Id) -> Result<String, AllocError>
    ensures { IfOk result (λ s. string_bytes s ≡ encode_utf8_all field.now ++ (codes ": duplicate of " ++ encode_utf8_all (print18 other.now))) }
{
    let other = print_value(alloc, &Value::Ref(*other))?;
    joined(alloc, field, ": duplicate of ", &other)
}

// A number between words.
fn counted(alloc: Global, before: &str, number: usize, behind: &str) -> Result<String, AllocError>
    ensures { IfOk result (λ s. string_bytes s ≡ before.now ++ (decimal number ++ behind.now)) }
{
    format!(in alloc; "{before}{number}{behind}")
}

// Two numbers, and words behind them.
fn between(alloc: Global, least: usize, most: usize, behind: &str) -> Result<String, AllocError>
    ensures { IfOk result (λ s. string_bytes s ≡ decimal least ++ (codes " to " ++ (decimal most ++ behind.now))) }
{
    format!(in alloc; "{least} to {most}{behind}")
}

fn limit_message(alloc: Global, limit: Limit) -> Result<String, AllocError>
    ensures { IfOk result (λ s. string_bytes s ≡ limit_name limit ++ codes ": " ++ decimal (limit_number limit)) }
{
    let name = limit.name();
    let number = limit.number();
    format!(in alloc; "{name}: {number}")
}

impl Refusal {
    /// The message, which names what is refused.
    ///
    /// # Errors
    ///
    /// When out of memory.
    pub fn message(&self, alloc: Global) -> Result<String, AllocError>
        ensures { IfOk result (λ text. string_bytes text ≡ message_of self.now) }
    {
        match self {
            Refusal::BadHead => String::from_str(alloc, "the request head can't be read"),
            Refusal::HeadTooLarge => String::from_str(alloc, "the request head is too large"),
            Refusal::TransferEncoding => {
                String::from_str(alloc, "transfer encodings aren't supported")
            }
            Refusal::LengthRequired => String::from_str(alloc, "a Content-Length is required"),
            Refusal::BodyTooLarge => counted(alloc, "the body is over ", BODY_LIMIT, " bytes"),
            Refusal::InvalidSession => String::from_str(alloc, "Session expired or invalid"),
            Refusal::NotFound => String::from_str(alloc, "The requested resource does not exist"),
            Refusal::MethodNotAllowed => String::from_str(alloc, "the method isn't allowed here"),
            Refusal::AdminRequired => String::from_str(alloc, "only an administrator may do this"),
            Refusal::BodyForm => String::from_str(alloc, "the body isn't of the stated form"),
            Refusal::MalformedQuery { place } => format!(in alloc; "unexpected token at {place}"),
            Refusal::InvalidType { name } => around(alloc, "no object ", name, " here"),
            Refusal::InvalidField { name } => around(alloc, "no field ", name, " here"),
            Refusal::InvalidFilter { path } => followed(alloc, path, " can't be filtered so"),
            Refusal::MalformedId { text } => followed(alloc, text, " isn't an id"),
            Refusal::InsufficientAccess => String::from_str(alloc, "insufficient access rights"),
            Refusal::WrongType { field } => followed(alloc, field, ": wrong type"),
            Refusal::TooLong { field, most } => too_long(alloc, field, *most),
            Refusal::OutOfRange { field } => followed(alloc, field, ": outside the valid range"),
            Refusal::NotListed { field } => followed(alloc, field, ": value isn't listed"),
            Refusal::RequiredMissing { field } => around(
                alloc,
                "Required fields are missing: [",
                field,
                "]",
            ),
            Refusal::InvalidReference { name } => followed(alloc, name, ": no such target"),
            Refusal::RetypeConflict { field } => followed(
                alloc,
                field,
                ": the value doesn't suit the new type",
            ),
            Refusal::ValidationFailed { rule, message } => joined(alloc, rule, ": ", message),
            Refusal::DuplicateValue { field } => followed(alloc, field, ": duplicate value"),
            Refusal::DuplicateOf { field, other } => duplicate_of(alloc, field, other),
            Refusal::DeleteFailed { object, field } => referred_to(alloc, object, field),
            Refusal::CascadeTooLarge => counted(alloc, "over ", DELETION_LIMIT, " records"),
            Refusal::LimitExceeded { limit } => limit_message(alloc, *limit),
            Refusal::ReplyTooLarge => counted(alloc, "the reply is over ", REPLY_LIMIT, " bytes"),
            Refusal::InvalidName { name } => followed(alloc, name, " isn't a name here"),
            Refusal::NameTaken { name } => followed(alloc, name, " is taken"),
            Refusal::JobBusy => String::from_str(alloc, "a retype is under way"),
            Refusal::RetypeUnsupported { field } => followed(alloc, field, " can't be retyped so"),
            Refusal::FieldInUse { field, rule } => joined(alloc, field, " is used by rule ", rule),
            Refusal::MalformedFormula { place } => format!(in alloc; "unexpected token at {place}"),
            Refusal::InputTooLarge => counted(alloc, "over ", INPUT_LIMIT, " bytes"),
            Refusal::CsvRefused { row } => format!(in alloc; "row {row}"),
            Refusal::HeadingRefused { cell } => String::from_str(alloc, cell.as_str()),
            Refusal::SubqueryNotExported => String::from_str(alloc, "subqueries aren't exported"),
            Refusal::NameRefused => counted(alloc, "1 to ", NAME_LIMIT, " characters"),
            Refusal::SecretRefused => {
                between(alloc, SECRET_LEAST, SECRET_MOST, " letters or digits")
            }
            Refusal::LastAdministrator => {
                String::from_str(alloc, "an administrator must be left")
            }
        }
    }
}
