//! A command line, taken apart, or the first mistake in it; and the word of it that is a secret.
//!
//! It depends on `commands` alone. Its contract: `read_line` returns the path, the port and the command of words exactly if
//! they are a command line, and else a mistake; `put_secret` gives its command another secret, and changes nothing else.
#![tactic(auto)]

mod form;
mod line;
mod mistake;
mod secret;

pub use crate::line::{CommandLine, read_line};
pub use crate::mistake::Mistake;
pub use crate::secret::{SecretWord, put_secret, read_secret, secret_in};
