ghost use Rattle.std.specs.Prelude.{◌≡◌};
ghost use Rattle.wd_command.specs.Notice.{status_of, text_of, help_text, version_text, fault_text};

/// What is shown where the words are no command.
#[derive(Clone, Copy, Debug, PartialEq, Eq)]
pub enum Notice {
    /// The words that the program takes.
    Help,
    /// The program's name and version.
    Version,
    /// The words are no command line.
    Fault,
}

impl Notice {
    /// The exit status: 0 for what was asked for, and 1 for a fault.
    pub fn status(self) -> u8
        ensures { result ≡ status_of self }
    {
        match self {
            Notice::Help => 0,
            Notice::Version => 0,
            Notice::Fault => 1,
        }
    }

    /// What is printed: whole lines.
    pub fn text(self) -> &'static [u8]
        ensures { result.now ≡ text_of self }
    {
        match self {
            Notice::Help => help_text(),
            Notice::Version => version_text(),
            Notice::Fault => fault_text(),
        }
    }
}

fn help_text() -> &'static [u8]
    ensures { result.now ≡ help_text }
{
    b"A server for stateless JavaScript Workers.

Usage:
  workerd serve <config> [<const>] [--threads 1]
  workerd check <config> [<const>]
  workerd --help
  workerd --version

serve  checks and starts the scripts of a configuration, and serves at its sockets
check  checks and starts the scripts, and prints: ok <services> <sockets>

  <config>     the file of the configuration
  <const>      the constant in it, where it has several
  --threads 1  the number of threads; one alone is taken
  --help       prints this text
  --version    prints the name and the version
"
}

fn version_text() -> &'static [u8]
    ensures { result.now ≡ version_text }
{
    b"workerd 0.1.0\n"
}

fn fault_text() -> &'static [u8]
    ensures { result.now ≡ fault_text }
{
    b"error: command line\n"
}
