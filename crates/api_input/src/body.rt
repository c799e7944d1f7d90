//! A body's members, read by their names and JSON types.

ghost use Rattle.std.specs.Prelude.{◌≡◌, ◌++◌, IfOk, OnOk, map};
ghost use Rattle.std.specs.Option.{option_copied, option_map};
ghost use Rattle.base_json.specs.Reading.{value_in};
ghost use Rattle.model.specs.Members as model;
ghost use Rattle.api_input.specs.inner.Names.{name_of, names_of};
ghost use Rattle.api_input.specs.inner.Outcomes.{Gives};
ghost use Rattle.api_input.specs.inner.Spelled.{body_of, choice_member, member_object, table_of, texts_in};
ghost use Rattle.api_input.specs.inner.Said.{said};

use crate::fail::BodyFail;
use crate::members::{are_formed, entry, says_any};
use crate::name::Name;
use crate::table::entry_named;
use crate::values::{
    as_list, as_object, as_text, as_text_or_null, as_truth, as_whole, into_members,
};
use base_json::{Json, JsonFail, Member, read};
use base_value::{Items, Text};
use std::alloc::{AllocError, Global};

// The value that bytes spell.
fn value_in(alloc: Global, bytes: &[u8]) -> Result<Json, BodyFail>
    ensures { Gives (λ v. v) result (value_in bytes.now) }
{
    match read(alloc, bytes) {
        Ok(value) => Ok(value),
        Err(JsonFail::NotJson) => Err(BodyFail::Form),
        Err(JsonFail::Memory) => Err(BodyFail::Memory),
    }
}

/// The members of the object that a body is.
///
/// # Errors
///
/// `Form` where it is none.
pub(crate) fn members_in(alloc: Global, bytes: &[u8]) -> Result<Items<Member>, BodyFail>
    ensures { Gives body_of result (model.body_in bytes.now) }
{
    match value_in(alloc, bytes) {
        Ok(value) => into_members(value).ok_or(BodyFail::Form),
        Err(fail) => Err(fail),
    }
}

/// An object in a body, or the whole body. Each method that reads a member has the error `Form` if the member is missing or has
/// another JSON type.
#[derive(Clone, Copy)]
pub(crate) struct Body<'a> {
    members: &'a [Member],
}

impl<'a> Body<'a> {
    pub(crate) fn new(members: &'a [Member]) -> Body<'a>
        ensures { said result ≡ body_of members.now }
    {
        Body { members }
    }

    /// Its members in their order.
    pub(crate) fn members(&self) -> &'a [Member]
        ensures { body_of result.now ≡ said self.now }
    {
        self.members
    }

    /// Refuses a body that has a member twice, lacks a needed one, or has one that is neither needed nor optional.
    pub(crate) fn check_form(&self, needed: &[Name], optional: &[Name]) -> Result<(), BodyFail>
        ensures { Gives (λ _. said self.now) result (model.formed (names_of needed.now) (names_of optional.now) (said self.now)) }
    {
        if are_formed(self.members, needed, optional) {
            Ok(())
        } else {
            Err(BodyFail::Form)
        }
    }

    /// Refuses the body of a change if it has none of these members, one twice, or another.
    pub(crate) fn check_change(&self, members: &[Name]) -> Result<(), BodyFail>
        ensures { Gives (λ _. said self.now) result (model.changing (names_of members.now) (said self.now)) }
    {
        if says_any(self.members) {
            self.check_form(&[], members)
        } else {
            Err(BodyFail::Form)
        }
    }

    /// The value of a member, if it is there.
    pub(crate) fn entry(&self, name: Name) -> Option<&'a Json>
        ensures { option_copied result ≡ model.entry_named (said self.now) (name_of name) }
    {
        entry(self.members, name.text())
    }

    // The value of a member that must be there.
    fn value(&self, name: Name) -> Result<&'a Json, BodyFail>
        ensures { Gives (λ v. v.now) result (model.entry_named (said self.now) (name_of name)) }
    {
        self.entry(name).ok_or(BodyFail::Form)
    }

    pub(crate) fn text(&self, name: Name) -> Result<&'a Text, BodyFail>
        ensures { Gives (λ t. t.now) result (model.text_in (said self.now) (name_of name)) }
    {
        as_text(self.value(name)?).ok_or(BodyFail::Form)
    }

    /// A text, or none of null.
    pub(crate) fn text_or_null(&self, name: Name) -> Result<Option<&'a Text>, BodyFail>
        ensures { Gives option_copied result (model.text_or_null_in (said self.now) (name_of name)) }
    {
        as_text_or_null(self.value(name)?).ok_or(BodyFail::Form)
    }

    /// A text, if the member is there.
    pub(crate) fn text_if_any(&self, name: Name) -> Result<Option<&'a Text>, BodyFail>
        ensures { Gives option_copied result (model.if_any model.as_text (said self.now) (name_of name)) }
    {
        match self.entry(name) {
            Some(json) => Ok(Some(as_text(json).ok_or(BodyFail::Form)?)),
            None => Ok(None),
        }
    }

    /// A text, or none of null, if the member is there.
    pub(crate) fn text_or_null_if_any(
        &self,
        name: Name,
    ) -> Result<Option<Option<&'a Text>>, BodyFail>
        ensures { Gives (option_map option_copied) result (model.if_any model.as_text_or_null (said self.now) (name_of name)) }
    {
        match self.entry(name) {
            Some(json) => Ok(Some(as_text_or_null(json).ok_or(BodyFail::Form)?)),
            None => Ok(None),
        }
    }

    /// What a table has under the text of a member.
    pub(crate) fn table_entry<T: Copy>(
        &self,
        name: Name,
        table: &[(&str, T)],
    ) -> Result<T, BodyFail>
        ensures { Gives (λ x. x) result (choice_member (said self.now) (name_of name) (table_of table.now)) }
    {
        entry_named(table, self.text(name)?).ok_or(BodyFail::Form)
    }

    pub(crate) fn truth(&self, name: Name) -> Result<bool, BodyFail>
        ensures { Gives (λ truth. truth) result (model.truth_in (said self.now) (name_of name)) }
    {
        as_truth(self.value(name)?).ok_or(BodyFail::Form)
    }

    /// A truth value, which is false if the member isn't there.
    pub(crate) fn flag(&self, name: Name) -> Result<bool, BodyFail>
        ensures { Gives (λ truth. truth) result (model.flag_in (said self.now) (name_of name)) }
    {
        match self.entry(name) {
            Some(json) => as_truth(json).ok_or(BodyFail::Form),
            None => Ok(false),
        }
    }

    /// A truth value, if the member is there.
    pub(crate) fn truth_if_any(&self, name: Name) -> Result<Option<bool>, BodyFail>
        ensures { Gives (λ truth. truth) result (model.if_any model.as_truth (said self.now) (name_of name)) }
    {
        match self.entry(name) {
            Some(json) => Ok(Some(as_truth(json).ok_or(BodyFail::Form)?)),
            None => Ok(None),
        }
    }

    /// A whole number, however it is written.
    pub(crate) fn whole(&self, name: Name) -> Result<u128, BodyFail>
        ensures { Gives (λ n. n) result (model.whole_in (said self.now) (name_of name)) }
    {
        as_whole(self.value(name)?).ok_or(BodyFail::Form)
    }

    pub(crate) fn list(&self, name: Name) -> Result<&'a [Json], BodyFail>
        ensures { Gives (λ items. items.now) result (model.list_in (said self.now) (name_of name)) }
    {
        as_list(self.value(name)?).ok_or(BodyFail::Form)
    }

    /// A list of texts.
    pub(crate) fn texts(&self, alloc: Global, name: Name) -> Result<Items<Text>, BodyFail>
        ensures { Gives (λ ts. ts) result (texts_in (said self.now) (name_of name)) }
    {
        all_texts(alloc, self.list(name)?)
    }

    /// The members of an object, if it is there.
    pub(crate) fn object_members(&self, name: Name) -> Option<&'a [Member]>
        ensures { option_map (λ ms. body_of ms.now) result ≡ member_object (said self.now) (name_of name) }
    {
        match self.entry(name) {
            Some(json) => as_object(json),
            None => None,
        }
    }

    /// An object.
    pub(crate) fn object(&self, name: Name) -> Result<Body<'a>, BodyFail>
        ensures { Gives said result (member_object (said self.now) (name_of name)) }
    {
        match self.object_members(name) {
            Some(members) => Ok(Body::new(members)),
            None => Err(BodyFail::Form),
        }
    }

    /// The names of its members in their order.
    pub(crate) fn member_names(&self, alloc: Global) -> Result<Items<Text>, AllocError>
        ensures { IfOk result (λ names. names ≡ model.member_names (said self.now)) }
    {
        let mut names = Items::new(alloc);
        append_names(alloc, &mut names, self.members)?;
        Ok(names)
    }
}

// The texts of values that are all texts.
fn all_texts(alloc: Global, items: &[Json]) -> Result<Items<Text>, BodyFail>
    ensures { Gives (λ ts. ts) result (model.all_there (map model.as_text items.now)) }
{
    let mut texts = Items::new(alloc);
    let mut rest = items;
    'items: while let Some((item, more)) = rest.split_first() {
        let text = as_text(item).ok_or(BodyFail::Form)?;
        texts.push(text.copy(alloc)?)?;
        rest = more;
    }
    Ok(texts)
}

/// Appends the names of members in their order.
pub(crate) fn append_names(
    alloc: Global,
    names: &mut Items<Text>,
    members: &[Member],
) -> Result<(), AllocError>
    ensures { OnOk result (names.new ≡ names.old ++ model.member_names (body_of members.now)) }
{
    let mut rest = members;
    'members: while let Some((member, more)) = rest.split_first() {
        names.push(member.name.copy(alloc)?)?;
        rest = more;
    }
    Ok(())
}
