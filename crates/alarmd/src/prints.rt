//! What the program prints that is no answer, and how it ends by that.

ghost use Rattle.std.specs.Prelude.{◌≡◌, ◌⊎◌};
ghost use Rattle.serve_arguments.specs.declared.ended.Ended.TheVariants as ended;

use serve_arguments::Ended;
use serve_runs::{ServeFault, Writing, put_all};
use std::io;

/// Prints on standard error why the program stopped.
pub fn stopped(rt: &impl Eprint, fault: ServeFault) -> Ended
    ensures { result ≡ ended.Fault }
{
    let _ = eprintln!(rt; "RUN {}", fault.text());
    Ended::Fault
}

/// Prints on standard error why the program stopped, and, where standard input couldn't be read or standard output not be written, the system's reason.
pub fn stopped_by(
    rt: &impl Eprint,
    fault: ServeFault,
    input: Option<io::Error>,
    output: Option<io::Error>,
) -> Ended
    ensures { result ≡ ended.Fault }
{
    let _ = eprintln!(rt; "RUN {}", fault.text());
    match (fault, input, output) {
        (ServeFault::Read, Some(error), _) => {
            let _ = eprintln!(rt; "standard input: {error}");
        }
        (ServeFault::Write, _, Some(error)) => {
            let _ = eprintln!(rt; "standard output: {error}");
        }
        _ => {}
    }
    Ended::Fault
}

/// Prints on standard error how the program is used.
pub fn usage(rt: &impl Eprint, text: &str) -> Ended
    ensures { result ≡ ended.Usage }
{
    let _ = eprint!(rt; "{text}");
    Ended::Usage
}

/// Prints on standard output the help or the version that was asked for.
pub fn asked(rt: &(impl Print + Eprint), text: &str) -> Ended
    ensures { (result ≡ ended.Done) ⊎ (result ≡ ended.Fault) }
{
    let mut sink = Writing::new(io::writer(rt));
    match put_all(&mut sink, text.as_bytes()) {
        Ok(()) => Ended::Done,
        Err(fault) => stopped_by(rt, fault, None, sink.error()),
    }
}
