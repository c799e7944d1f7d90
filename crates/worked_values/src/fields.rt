//! The fields of a row as one text.

use crate::answer::Answer;
use base_value::{FieldType, Id, Items, Principal, RuleSource, Text};
use std::fmt::Debug;

impl Answer {
    // Begins with a field's name.
    fn begin(&mut self, name: &str) {
        self.separate(", ");
        self.push(name);
        self.push(" ");
    }

    fn quote(&mut self, text: &str) {
        self.push("\"");
        self.push(text);
        self.push("\"");
    }

    fn quote_bytes(&mut self, bytes: &[u8]) {
        self.push("\"");
        self.push_cell(bytes);
        self.push("\"");
    }

    /// Adds a number, a truth value or a name.
    pub fn word<T: Debug>(&mut self, name: &str, value: &T) {
        self.begin(name);
        self.push_value(value);
    }

    /// Adds a text, which is written as it is between two quotes.
    pub fn text(&mut self, name: &str, text: &str) {
        self.begin(name);
        self.quote(text)
    }

    /// Adds bytes.
    pub fn bytes(&mut self, name: &str, bytes: &[u8]) {
        self.begin(name);
        self.quote_bytes(bytes);
    }

    /// Adds an id.
    pub fn id(&mut self, name: &str, id: &Id) {
        self.bytes(name, id.as_bytes())
    }

    fn none(&mut self, name: &str) {
        self.begin(name);
        self.push("none");
    }

    /// Adds an id, or that there is none.
    pub fn some_id(&mut self, name: &str, id: &Option<Id>) {
        match id {
            Some(id) => self.id(name, id),
            None => self.none(name),
        }
    }

    /// Adds a text, or that there is none.
    pub fn some_text(&mut self, name: &str, text: &Option<Text>) {
        match text {
            Some(text) => self.text(name, text.as_str()),
            None => self.none(name),
        }
    }

    /// Adds a principal.
    pub fn principal(&mut self, name: &str, principal: &Principal) {
        self.begin(name);
        self.push(match principal {
            Principal::User(_) => "user ",
            Principal::Role(_) => "role ",
            Principal::Subordinates(_) => "subordinates ",
            Principal::Group(_) => "group ",
        });
        self.quote_bytes(principal.id().as_bytes());
    }

    /// Adds the type of a field.
    pub fn kind(&mut self, name: &str, kind: &FieldType) {
        match kind {
            FieldType::Picklist(texts) => {
                self.begin(name);
                self.push("Picklist");
                self.texts(texts)
            }
            _ => self.word(name, kind),
        }
    }

    fn texts(&mut self, texts: &Items<Text>) {
        for text in texts.as_slice() {
            self.text("choice", text.as_str());
        }
    }

    fn slot(&mut self, slot: usize, text: &str) {
        self.begin("slot");
        self.push_value(&slot);
        self.push(" ");
        self.quote(text);
    }

    /// Adds the texts of slots, and how many slots there are.
    pub fn slots(&mut self, texts: &[Option<Text>]) {
        for (slot, text) in texts.iter().enumerate() {
            if let Some(text) = text {
                self.slot(slot, text.as_str());
            }
        }
        self.word("slots", &texts.len())
    }

    /// Adds what a sharing rule shares.
    pub fn source(&mut self, source: &RuleSource) {
        match source {
            RuleSource::Owner(owners) => self.principal("owner", owners),
            RuleSource::Criteria(formula) => self.text("criteria", formula.as_str()),
        }
    }

    /// Adds the members of a group.
    pub fn members(&mut self, members: &[Principal]) {
        for member in members {
            self.principal("member", member);
        }
        self.word("members", &members.len())
    }
}
