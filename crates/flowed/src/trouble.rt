// What can go wrong, as it is told on standard error.
ghost use Rattle.std.specs.Prelude.{◌≡◌};
ghost use Rattle.flowed.specs.declared.trouble.Trouble.TheVariants.{Memory as no_memory, Io as by_io};

use std::alloc::{AllocError, AllocFailed};
use std::{fmt, io};

#[derive(Drop)]
pub enum Trouble {
    // the command line is wrong
    Usage(String),
    // a file could not be read or written
    File(String, io::Error),
    Io(io::Error),
    Memory,
    // the body was refused, as the report says
    Body,
    // the same, and its line ends were left as they were
    BodyWithoutLf,
    // the mail was refused, as the report says
    Mail,
}

// By hand, since a contract says which trouble a `?` tells.
impl From<AllocError> for Trouble {
    ghost from_gives = { λ e r. r ≡ no_memory };

    fn from(_error: AllocError) -> Trouble {
        Trouble::Memory
    }
}

impl<T: Drop> From<AllocFailed<T>> for Trouble {
    ghost from_gives = { λ e r. r ≡ no_memory };

    fn from(_refused: AllocFailed<T>) -> Trouble {
        Trouble::Memory
    }
}

impl From<io::Error> for Trouble {
    ghost from_gives = { λ e r. r ≡ by_io e };

    fn from(error: io::Error) -> Trouble {
        Trouble::Io(error)
    }
}

impl fmt::Display for Trouble {
    fn fmt<W: fmt::Write>(&self, f: &mut fmt::Formatter<W>) -> fmt::Result {
        match self {
            Trouble::Usage(what) => write!(f, "{what} (flowed --help tells the usage)"),
            Trouble::File(name, error) => write!(f, "{name}: {error}"),
            Trouble::Io(error) => write!(f, "{error}"),
            Trouble::Memory => write!(f, "no memory is left"),
            Trouble::Mail => write!(f, "the mail was not composed; nothing was written"),
            Trouble::Body => write!(f, "the body was not carried"),
            Trouble::BodyWithoutLf => write!(
                f,
                "the body was not carried (--lf turns LF line ends into CRLF first)"
            ),
        }
    }
}
