//! The fields of a row of each form.

use crate::answer::Answer;
use store_rows::{
    DataRow, FieldRow, GrantRow, GroupRow, IndexRow, JobRow, ObjectRow, OrgRow, OwnerRow,
    RelationRow, RoleRow, ShareRow, SharingRow, UniqueRow, UserRow, ValidationRow, VersionRow,
};

/// A row whose fields are shown.
pub trait HasFields {
    /// Adds each field.
    fn add_to(&self, answer: &mut Answer);
}

impl HasFields for VersionRow {
    fn add_to(&self, answer: &mut Answer) {
        answer.word("version", &self.version);
        answer.word("organisations", &self.organisations);
    }
}

impl HasFields for OrgRow {
    fn add_to(&self, answer: &mut Answer) {
        answer.word("org", &self.org);
        answer.text("name", self.name.as_str());
        answer.word("counter", &self.counter);
        answer.word("objects", &self.objects);
        answer.word("records", &self.records);
        answer.word("users", &self.users);
        answer.word("roles", &self.roles);
        answer.word("groups", &self.groups);
        answer.word("sharing rules", &self.sharing_rules);
        answer.word("rule numbers", &self.rule_numbers);
    }
}

impl HasFields for ObjectRow {
    fn add_to(&self, answer: &mut Answer) {
        answer.word("org", &self.org);
        answer.word("object", &self.object);
        answer.text("name", self.name.as_str());
        answer.word("access", &self.access.access);
        answer.word("hierarchy", &self.access.hierarchy);
        answer.word("records", &self.records);
        answer.word("fields", &self.fields);
        answer.word("validation rules", &self.validation_rules);
    }
}

impl HasFields for FieldRow {
    fn add_to(&self, answer: &mut Answer) {
        answer.word("org", &self.org);
        answer.word("object", &self.object);
        answer.word("field", &self.field);
        answer.text("name", self.name.as_str());
        answer.kind("type", &self.kind);
        answer.word("required", &self.flags.required);
        answer.word("unique", &self.flags.unique);
        answer.word("indexed", &self.flags.indexed);
        answer.word("slot", &self.slot);
        answer.some_text("child", &self.child);
    }
}

impl HasFields for JobRow {
    fn add_to(&self, answer: &mut Answer) {
        answer.word("org", &self.org);
        answer.word("object", &self.object);
        answer.word("field", &self.field);
        answer.kind("type", &self.kind);
        answer.word("twin", &self.twin);
        answer.word("phase", &self.phase);
        answer.word("outcome", &self.outcome);
        answer.some_id("cursor", &self.cursor);
        answer.some_id("failed", &self.failed);
    }
}

impl HasFields for UserRow {
    fn add_to(&self, answer: &mut Answer) {
        answer.word("org", &self.org);
        answer.id("id", &self.id);
        answer.text("name", self.name.as_str());
        answer.bytes("digest", &self.digest);
        answer.some_id("role", &self.role);
        answer.word("admin", &self.admin);
        answer.word("active", &self.active);
    }
}

impl HasFields for RoleRow {
    fn add_to(&self, answer: &mut Answer) {
        answer.word("org", &self.org);
        answer.id("id", &self.id);
        answer.text("name", self.name.as_str());
        answer.some_id("parent", &self.parent);
    }
}

impl HasFields for GroupRow {
    fn add_to(&self, answer: &mut Answer) {
        answer.word("org", &self.org);
        answer.id("id", &self.id);
        answer.text("name", self.name.as_str());
        answer.members(self.members.as_slice());
    }
}

impl HasFields for ValidationRow {
    fn add_to(&self, answer: &mut Answer) {
        answer.word("org", &self.org);
        answer.word("object", &self.object);
        answer.bytes("lower name", self.lower_name.as_slice());
        answer.text("name", self.name.as_str());
        answer.text("formula", self.formula.as_str());
        answer.text("message", self.message.as_str());
    }
}

impl HasFields for SharingRow {
    fn add_to(&self, answer: &mut Answer) {
        answer.word("org", &self.org);
        answer.bytes("lower name", self.lower_name.as_slice());
        answer.text("name", self.name.as_str());
        answer.word("object", &self.object);
        answer.word("number", &self.number);
        answer.source(&self.source);
        answer.principal("to", &self.to);
        answer.word("level", &self.level);
        answer.word("state", &self.state);
        answer.some_id("cursor", &self.cursor);
    }
}

impl HasFields for DataRow {
    fn add_to(&self, answer: &mut Answer) {
        answer.word("org", &self.org);
        answer.word("object", &self.object);
        answer.id("id", &self.id);
        answer.some_text("name", &self.name);
        answer.some_id("owner", &self.owner);
        answer.word("created", &self.created);
        answer.word("modified", &self.modified);
        answer.slots(self.slots.texts());
    }
}

impl HasFields for IndexRow {
    fn add_to(&self, answer: &mut Answer) {
        answer.word("org", &self.org);
        answer.word("object", &self.object);
        answer.word("slot", &self.slot);
        answer.bytes("value", self.value.as_slice());
        answer.id("id", &self.id);
    }
}

impl HasFields for UniqueRow {
    fn add_to(&self, answer: &mut Answer) {
        answer.word("org", &self.org);
        answer.word("object", &self.object);
        answer.word("slot", &self.slot);
        answer.bytes("value", self.value.as_slice());
        answer.id("id", &self.id);
    }
}

impl HasFields for RelationRow {
    fn add_to(&self, answer: &mut Answer) {
        answer.word("org", &self.org);
        answer.word("object", &self.object);
        answer.word("slot", &self.slot);
        answer.id("target", &self.target);
        answer.id("id", &self.id);
    }
}

impl HasFields for OwnerRow {
    fn add_to(&self, answer: &mut Answer) {
        answer.word("org", &self.org);
        answer.word("object", &self.object);
        answer.id("owner", &self.owner);
        answer.id("id", &self.id);
    }
}

impl HasFields for ShareRow {
    fn add_to(&self, answer: &mut Answer) {
        answer.word("org", &self.org);
        answer.id("id", &self.id);
        answer.principal("to", &self.to);
        answer.word("level", &self.level);
    }
}

impl HasFields for GrantRow {
    fn add_to(&self, answer: &mut Answer) {
        answer.word("org", &self.org);
        answer.principal("to", &self.to);
        answer.word("object", &self.object);
        answer.id("id", &self.id);
        answer.word("cause", &self.cause);
        answer.word("level", &self.level);
    }
}
