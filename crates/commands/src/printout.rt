//! What a command prints.

ghost use Rattle.std.specs.Prelude.{◌≡◌, ◌⊎◌, IfOk};
ghost use Rattle.std.specs.String.{string_bytes};
ghost use Rattle.commands.specs.Printed.{refused, refused_line, user_printout};

use base_value::Id;
use model::{Refusal, org_id};
use std::alloc::{AllocError, Global};
use std::marker::Model;

/// What a command prints, made before anything of it is written.
#[derive(Drop)]
pub struct Printout {
    text: Vec<u8>,
    status: u8,
}

impl Model for Printout {
    ghost use Rattle.commands.specs.Printed.{PrintoutText};
    ghost use Rattle.std.specs.Prelude.{◌≡◌, ◌⊎◌};

    ghost Value = { PrintoutText };

    ghost view = { λ p. record { text = p.text.items; status = p.status } };

    ghost invariant = { λ p. (p.status ≡ 0) ⊎ (p.status ≡ 65) };
}

impl Printout {
    /// The printout of a command that was done.
    pub(crate) fn done(text: Vec<u8>) -> Printout
        ensures { result ≡ record { text = text.items; status = 0 } }
    {
        Printout { text, status: 0 }
    }

    /// The printout of a command that was refused.
    pub(crate) fn refused(text: Vec<u8>) -> Printout
        ensures { result ≡ record { text = text.items; status = 65 } }
    {
        Printout { text, status: 65 }
    }

    pub(crate) fn text(&self) -> &[u8]
        ensures { result.now ≡ self.now.text }
    {
        self.text.as_slice()
    }

    pub(crate) fn status(&self) -> u8
        ensures same { result ≡ self.now.status }
        ensures known { (result ≡ 0) ⊎ (result ≡ 65) }
    {
        self.status
    }
}

/// The printout that says why a command is refused.
pub(crate) fn printout_of_refusal(alloc: Global, refusal: &Refusal) -> Result<Printout, AllocError>
    ensures { IfOk result (λ p. p ≡ refused refusal.now) }
{
    let message = refusal.message(alloc)?;
    let text = refusal_line(alloc, refusal.code(), message.as_str())?;
    Ok(Printout::refused(text.into_bytes()))
}

/// The line of a refusal with this code.
pub(crate) fn refusal_line(alloc: Global, code: &str, message: &str) -> Result<String, AllocError>
    ensures { IfOk result (λ text. string_bytes text ≡ refused_line code.now message.now) }
{
    format!(in alloc; "refused: {code}: {message}\n")
}

/// The printout of a user of the organisation with this number.
pub(crate) fn printout_of_user(alloc: Global, ids: (u32, Id)) -> Result<Printout, AllocError>
    ensures { IfOk result (λ p. p ≡ user_printout ids) }
{
    let (org, user) = ids;
    let org = org_id(org).print18();
    let user = user.print18();
    let mut text = Vec::new(alloc);
    text.extend_from_slice(&org)?;
    text.push(b' ')?;
    text.extend_from_slice(&user)?;
    text.push(b'\n')?;
    Ok(Printout::done(text))
}
