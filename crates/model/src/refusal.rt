ghost use Rattle.std.specs.Prelude.{◌≡◌, IsTrue};
ghost use Rattle.model.specs.Refusals.{code_of, is_refusal_status, status_of};

use crate::limit::Limit;
use base_value::{Id, Text};
use http::StatusCode;

/// Why a request or a command is refused, with what the refusal names.
#[derive(Drop)]
pub enum Refusal {
    /// The head of a request can't be read.
    BadHead,
    /// The head of a request is too large.
    HeadTooLarge,
    /// A request has a transfer encoding.
    TransferEncoding,
    /// A request that has a body doesn't say its length.
    LengthRequired,
    /// The body of a request is too large.
    BodyTooLarge,
    /// A request names no caller.
    InvalidSession,
    /// There is no such thing, or the caller can't read it.
    NotFound,
    /// The path has other methods.
    MethodNotAllowed,
    /// The caller is no administrator.
    AdminRequired,
    /// The body isn't of the form that its route has.
    BodyForm,
    /// A query isn't spelled by the grammar: the place is counted in bytes.
    MalformedQuery {
        /// The byte at which the token begins that can't stand there.
        place: usize,
    },
    /// There is no such object, or it doesn't suit.
    InvalidType {
        /// The name, as declared or else as given.
        name: Text,
    },
    /// There is no such field, or it isn't writable.
    InvalidField {
        /// The name, as declared or else as given.
        name: Text,
    },
    /// An operator or a literal doesn't suit a path.
    InvalidFilter {
        /// The path, as spelled.
        path: Text,
    },
    /// A text isn't an id.
    MalformedId {
        /// The text.
        text: Text,
    },
    /// The caller may read the record, and not do this.
    InsufficientAccess,
    /// A value is of another type than its field.
    WrongType {
        /// The field's name.
        field: Text,
    },
    /// A text is too long for its field.
    TooLong {
        /// The field's name.
        field: Text,
        /// The most characters that it takes.
        most: u8,
    },
    /// A number, a day or a moment is outside the range of its field.
    OutOfRange {
        /// The field's name.
        field: Text,
    },
    /// A value isn't in its field's list.
    NotListed {
        /// The field's name.
        field: Text,
    },
    /// A required field would be null.
    RequiredMissing {
        /// The field's name.
        field: Text,
    },
    /// A reference names nothing that suits.
    InvalidReference {
        /// The name, as declared or else as given.
        name: Text,
    },
    /// A value doesn't convert to the type that its field is to have.
    RetypeConflict {
        /// The field's name.
        field: Text,
    },
    /// A validation rule refuses the record.
    ValidationFailed {
        /// The rule's name.
        rule: Text,
        /// The rule's message.
        message: Text,
    },
    /// Another record, which the caller can't read, has the value of a unique field.
    DuplicateValue {
        /// The field's name.
        field: Text,
    },
    /// This other record has the value of a unique field.
    DuplicateOf {
        /// The field's name.
        field: Text,
        /// The record's id.
        other: Id,
    },
    /// A lookup holds a record that would be deleted.
    DeleteFailed {
        /// The object's name.
        object: Text,
        /// The field's name.
        field: Text,
    },
    /// A deletion would change too many records.
    CascadeTooLarge,
    /// A count would pass its limit.
    LimitExceeded {
        /// The limit.
        limit: Limit,
    },
    /// The reply of a query would be too large.
    ReplyTooLarge,
    /// A new name isn't of the form of its kind.
    InvalidName {
        /// The name, as declared or else as given.
        name: Text,
    },
    /// A new name is that of another thing.
    NameTaken {
        /// The name, as declared or else as given.
        name: Text,
    },
    /// A field's type is being changed.
    JobBusy,
    /// A field can't have this type in place of its own.
    RetypeUnsupported {
        /// The field's name.
        field: Text,
    },
    /// A rule names the field.
    FieldInUse {
        /// The field's name.
        field: Text,
        /// The rule's name.
        rule: Text,
    },
    /// A formula isn't spelled by the grammar: the place is counted in bytes.
    MalformedFormula {
        /// The byte at which the token begins that can't stand there.
        place: usize,
    },
    /// The input of a command is too large.
    InputTooLarge,
    /// A record of a CSV text can't be read; the heading is 0.
    CsvRefused {
        /// The record's number.
        row: usize,
    },
    /// A cell of a CSV heading names no field, or one twice.
    HeadingRefused {
        /// The cell.
        cell: Text,
    },
    /// A query whose rows are to be CSV has a subquery.
    SubqueryNotExported,
    /// The name of a new organisation isn't of its form.
    NameRefused,
    /// The secret of a new organisation isn't of its form.
    SecretRefused,
    /// Nobody who is active would administer the organisation.
    LastAdministrator,
}

impl Refusal {
    /// The code that is printed for it.
    pub fn code(&self) -> &'static str
        ensures { result.now ≡ code_of self.now }
    {
        match self {
            Refusal::BadHead => "BAD_HEAD",
            Refusal::HeadTooLarge => "HEAD_TOO_LARGE",
            Refusal::TransferEncoding => "TRANSFER_ENCODING",
            Refusal::LengthRequired => "LENGTH_REQUIRED",
            Refusal::BodyTooLarge => "BODY_TOO_LARGE",
            Refusal::InvalidSession => "INVALID_SESSION_ID",
            Refusal::NotFound => "NOT_FOUND",
            Refusal::MethodNotAllowed => "METHOD_NOT_ALLOWED",
            Refusal::AdminRequired => "ADMIN_REQUIRED",
            Refusal::BodyForm => "JSON_PARSER_ERROR",
            Refusal::MalformedQuery { .. } => "MALFORMED_QUERY",
            Refusal::InvalidType { .. } => "INVALID_TYPE",
            Refusal::InvalidField { .. } => "INVALID_FIELD",
            Refusal::InvalidFilter { .. } => "INVALID_QUERY_FILTER_OPERATOR",
            Refusal::MalformedId { .. } => "MALFORMED_ID",
            Refusal::InsufficientAccess => "INSUFFICIENT_ACCESS_OR_READONLY",
            Refusal::WrongType { .. } => "INVALID_TYPE_ON_FIELD_IN_RECORD",
            Refusal::TooLong { .. } => "STRING_TOO_LONG",
            Refusal::OutOfRange { .. } => "NUMBER_OUTSIDE_VALID_RANGE",
            Refusal::NotListed { .. } => "INVALID_OR_NULL_FOR_RESTRICTED_PICKLIST",
            Refusal::RequiredMissing { .. } => "REQUIRED_FIELD_MISSING",
            Refusal::InvalidReference { .. } => "INVALID_CROSS_REFERENCE_KEY",
            Refusal::RetypeConflict { .. } => "RETYPE_CONFLICT",
            Refusal::ValidationFailed { .. } => "FIELD_CUSTOM_VALIDATION_EXCEPTION",
            Refusal::DuplicateValue { .. } => "DUPLICATE_VALUE",
            Refusal::DuplicateOf { .. } => "DUPLICATE_VALUE",
            Refusal::DeleteFailed { .. } => "DELETE_FAILED",
            Refusal::CascadeTooLarge => "CASCADE_TOO_LARGE",
            Refusal::LimitExceeded { .. } => "LIMIT_EXCEEDED",
            Refusal::ReplyTooLarge => "REPLY_TOO_LARGE",
            Refusal::InvalidName { .. } => "INVALID_NAME",
            Refusal::NameTaken { .. } => "DUPLICATE_DEVELOPER_NAME",
            Refusal::JobBusy => "JOB_BUSY",
            Refusal::RetypeUnsupported { .. } => "RETYPE_UNSUPPORTED",
            Refusal::FieldInUse { .. } => "FIELD_IN_USE",
            Refusal::MalformedFormula { .. } => "MALFORMED_FORMULA",
            Refusal::InputTooLarge => "INPUT_TOO_LARGE",
            Refusal::CsvRefused { .. } => "CSV_REFUSED",
            Refusal::HeadingRefused { .. } => "HEADING_REFUSED",
            Refusal::SubqueryNotExported => "SUBQUERY_NOT_EXPORTED",
            Refusal::NameRefused => "NAME_REFUSED",
            Refusal::SecretRefused => "SECRET_REFUSED",
            Refusal::LastAdministrator => "LAST_ADMINISTRATOR",
        }
    }

    /// The status of a reply that refuses so.
    pub fn status(&self) -> StatusCode
        ensures value { result ≡ status_of self.now }
        ensures known { IsTrue (is_refusal_status result) }
    {
        match self {
            Refusal::HeadTooLarge => StatusCode::REQUEST_HEADER_FIELDS_TOO_LARGE,
            Refusal::TransferEncoding => StatusCode::NOT_IMPLEMENTED,
            Refusal::LengthRequired => StatusCode::LENGTH_REQUIRED,
            Refusal::BodyTooLarge => StatusCode::PAYLOAD_TOO_LARGE,
            Refusal::InvalidSession => StatusCode::UNAUTHORIZED,
            Refusal::NotFound => StatusCode::NOT_FOUND,
            Refusal::MethodNotAllowed => StatusCode::METHOD_NOT_ALLOWED,
            Refusal::AdminRequired => StatusCode::FORBIDDEN,
            Refusal::InsufficientAccess => StatusCode::FORBIDDEN,
            _ => StatusCode::BAD_REQUEST,
        }
    }
}
