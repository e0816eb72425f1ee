//! The jobs of the program.

ghost use Rattle.std.specs.Prelude.{◌≡◌};
ghost use Rattle.command_line.specs.Jobs.{job_named};

/// A job of the program.
#[derive(Clone, Copy, Debug, PartialEq, Eq)]
pub enum Job {
    /// An environment is checked and compiled, and its module is run.
    Exec,
    /// An environment is checked.
    Check,
    /// An environment is checked, and main is evaluated.
    Eval,
    /// A module is run.
    Run,
    /// An environment is checked and compiled, and its module is written.
    Compile,
    /// As `Exec`, on an environment that the program makes, with the run's figures.
    Bench,
    /// An environment is checked, and a refusal is explained.
    Explain,
    /// An environment whose main is a function is checked and compiled, and the module for calls of main is written.
    Export,
    /// An environment whose main is a function is checked and compiled, and main is called with the arguments that stand behind it.
    Call,
    /// An environment is verified along the certificate that stands behind it.
    Verify,
    /// An environment is checked, and it is written with the certificate of that.
    Cert,
}

/// The job of this name.
pub(crate) fn job_of(name: &str) -> Option<Job>
    ensures is { result ≡ job_named name.now }
{
    match name {
        "exec" => Some(Job::Exec),
        "check" => Some(Job::Check),
        "eval" => Some(Job::Eval),
        "run" => Some(Job::Run),
        "compile" => Some(Job::Compile),
        "bench" => Some(Job::Bench),
        "explain" => Some(Job::Explain),
        "export" => Some(Job::Export),
        "call" => Some(Job::Call),
        "verify" => Some(Job::Verify),
        "cert" => Some(Job::Cert),
        _ => None,
    }
}
