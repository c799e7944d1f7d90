//! Methods and targets with their routes, and query strings.

use crate::line::first_of;
use api::{Routes, query_text};
use base_value::Text;
use http::Method;
use model_reads::Read;
use model_requests::{Route, Routed};
use std::alloc::{AllocError, Global};
use std::fmt::Debug;

// The texts of a route, in order.
fn texts_of_route(route: &Route) -> [&str; 4] {
    match route {
        Route::Query { pairs: one }
        | Route::Create { object: one }
        | Route::SetObject { object: one }
        | Route::RemoveSharingRule { name: one }
        | Route::SetUser { id: one }
        | Route::SetRole { id: one }
        | Route::RemoveRole { id: one }
        | Route::RemoveGroup { id: one }
        | Route::SetGroup { id: one } => [one.as_str(), "", "", ""],
        Route::Update {
            object: one,
            key: two,
        }
        | Route::Delete {
            object: one,
            key: two,
        }
        | Route::RemoveValidationRule {
            object: one,
            name: two,
        }
        | Route::Unshare { item: one, to: two } => [one.as_str(), two.as_str(), "", ""],
        Route::Upsert { object, key, value } => {
            [object.as_str(), key.as_str(), value.as_str(), ""]
        }
        _ => ["", "", "", ""],
    }
}

// The texts of a read, in order.
fn texts_of_read(read: &Read) -> [&str; 4] {
    match read {
        Read::Object { object: one }
        | Read::Shares { record: one }
        | Read::ValidationRules { object: one } => [one.as_str(), "", "", ""],
        Read::Record { object, key, pairs } => [object.as_str(), key.as_str(), pairs.as_str(), ""],
        Read::RecordBy {
            object,
            field,
            value,
            pairs,
        } => [
            object.as_str(),
            field.as_str(),
            value.as_str(),
            pairs.as_str(),
        ],
        _ => ["", "", "", ""],
    }
}

// The name of a route or of a read.
fn name<T: Debug>(alloc: Global, asked: &T) -> Result<String, AllocError> {
    let printed = format!(in alloc; "{asked:?}")?;
    let name = printed.as_str().split(' ').next().unwrap_or("");
    String::from_str(alloc, name)
}

// The name of a route or of a read, and its texts.
fn shown<T: Debug>(alloc: Global, asked: &T, texts: [&str; 4]) -> Result<String, AllocError> {
    let mut shown = name(alloc, asked)?;
    for text in texts {
        if !text.is_empty() {
            shown.push(' ')?;
            shown.push_str(text)?;
        }
    }
    Ok(shown)
}

// What a method and a target are routed to.
fn routed(alloc: Global, method: &Method, target: &str) -> Result<Routed, AllocError> {
    let routes = Routes::new(alloc)?;
    routes.route(alloc, method, target)
}

fn shown_routed(alloc: Global, routed: &Routed) -> Result<String, AllocError> {
    match routed {
        Routed::To(route) => shown(alloc, route, texts_of_route(route)),
        Routed::Reads(read) => shown(alloc, read, texts_of_read(read)),
        Routed::NotFound => String::from_str(alloc, "NotFound"),
        Routed::NotAllowed => String::from_str(alloc, "NotAllowed"),
    }
}

/// What a method and a target are routed to; what isn't a token is no method.
pub(crate) fn found(alloc: Global, arguments: &str) -> Result<String, AllocError> {
    let (method, target) = first_of(arguments);
    match Method::from_bytes(alloc, method.as_bytes()) {
        Ok(method) => shown_routed(alloc, &routed(alloc, &method, target)?),
        Err(_) => String::from_str(alloc, "no method"),
    }
}

/// The text of the query that is in a query string.
pub(crate) fn query(alloc: Global, pairs: &str) -> Result<String, AllocError> {
    query_text(alloc, &Text::from_str(alloc, pairs)?)
}
