//! Texts of formulas.

use crate::account::fields;
use crate::places::with_place;
use formula::Formula;
use formula_parser::{ParseFail, parse};
use std::alloc::{AllocError, Global};

/// The formula of a text, of a sharing rule by criteria or of a validation rule.
pub(crate) fn formula(alloc: Global, text: &str, criteria: bool) -> Result<Formula, ParseFail> {
    let fields = fields(alloc)?;
    if fields.items.as_slice().len() > 41 {
        return Err(ParseFail::Memory);
    }
    parse(alloc, text, &fields, criteria)
}

/// The text, with `^` before the token at which it is refused.
pub(crate) fn read(alloc: Global, text: &str, criteria: bool) -> Result<String, AllocError> {
    with_place(alloc, text, formula(alloc, text, criteria).map(|_| ()))
}

// A token of each kind, and of each kind of field, behind the letter that stands for it.
const TOKENS: &str = "\
T TRUE
I ISNEW
N NOT
A AND
O OR
B ISBLANK
C ISCHANGED
P ISPICKVAL
L LEN
R PRIORVALUE
n Name
s Stage__c
m Amount__c
k Closed__c
d Day__c
b Begins__c
a Account__c
1 5
q \"x\"
= =
( (
) )
, ,
u Unknown__c
! !
";

// Whether a token can follow a beginning.
fn can_follow(alloc: Global, beginning: &str, token: &str) -> Result<bool, AllocError> {
    let text = format!(in alloc; "{beginning} {token}")?;
    let place = beginning.len().saturating_add(1);
    match formula(alloc, text.as_str(), false) {
        Err(ParseFail::Malformed(at)) => Ok(at != place),
        _ => Ok(true),
    }
}

/// The letters of the tokens that can follow a beginning.
pub(crate) fn followers(alloc: Global, beginning: &str) -> Result<String, AllocError> {
    let mut letters = String::new(alloc);
    for line in TOKENS.lines() {
        let (letter, token) = line.split_once(' ').unwrap_or(("", ""));
        if can_follow(alloc, beginning, token)? {
            letters.push_str(letter)?;
        }
    }
    Ok(letters)
}
