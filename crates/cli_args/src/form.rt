//! The table of the commands.

ghost use Rattle.std.specs.Prelude.{◌≡◌, ◌≢◌, IfNone, IfSome};
ghost use Rattle.cli_args.specs.inner.Forms.{IsUnknown, Takes};
ghost use Rattle.cli_args.specs.inner.Places.{HasSecret};

/// What follows the name of a command.
pub(crate) enum Operands {
    /// So many words.
    Words(usize),
    /// A count of connections, or no word.
    Count,
    /// A number of records.
    Records,
}

/// A command as it is written.
pub(crate) struct Form {
    pub(crate) name: &'static str,
    pub(crate) form: &'static str,
    pub(crate) operands: Operands,
    /// Which of the words after the name is a secret, counted from 0, if one is.
    pub(crate) secret: Option<usize>,
}

/// The commands of `platform::run`. One more is a line here, and its name in `proofs/Forms.antt`.
pub(crate) const COMMANDS: [Form; 8] = [
    Form {
        name: "csvq",
        form: "csvq QUERY",
        operands: Operands::Words(1),
        secret: None,
    },
    Form {
        name: "org-add",
        form: "org-add NAME SECRET",
        operands: Operands::Words(2),
        secret: Some(1),
    },
    Form {
        name: "user-set",
        form: "user-set ORG USER SECRET",
        operands: Operands::Words(3),
        secret: Some(2),
    },
    Form {
        name: "export",
        form: "export ORG USER SECRET QUERY",
        operands: Operands::Words(4),
        secret: Some(2),
    },
    Form {
        name: "load",
        form: "load ORG USER SECRET OBJECT",
        operands: Operands::Words(4),
        secret: Some(2),
    },
    Form {
        name: "demo",
        form: "demo N",
        operands: Operands::Records,
        secret: None,
    },
    Form {
        name: "answer",
        form: "answer",
        operands: Operands::Words(0),
        secret: None,
    },
    Form {
        name: "serve",
        form: "serve [COUNT]",
        operands: Operands::Count,
        secret: None,
    },
];

/// The form of the command of this name, with as many words as `run` takes after it.
pub(crate) fn form_of(name: &str) -> Option<&'static Form>
    ensures found { IfSome result (λ form. Takes name.now form.now.operands) }
    ensures secret { IfSome result (λ form. HasSecret name.now form.now.secret) }
    ensures none { IfNone result (IsUnknown name.now) }
{
    for form in &COMMANDS {
        if form.name == name {
            return Some(form);
        }
    }
    None
}
