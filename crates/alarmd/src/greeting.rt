//! What a person at a terminal is told before the first command.

/// Tells on standard error how to begin, with a command that may be the first.
pub fn greet(rt: &impl Eprint, first: &str) {
    let _ = eprint!(rt;
        "type commands, one on each line (docs/PROTOCOL.md has them all); Ctrl-D ends\nto begin: {first}\n"
    );
}
