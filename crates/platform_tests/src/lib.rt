//! Tests of what `cli_args` says of wrong words, and `replay_script` of wrong lines. What a command does is shown by the cases of `replay`.
#![tactic(auto)]

#[cfg(test)]
mod refused;
