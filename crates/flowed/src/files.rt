// Files and streams by name, where '-' and no name are the standard ones.
use crate::trouble::Trouble;
use std::alloc::Global;
use std::io::{Read, Write};
use std::{fmt, fs, io};

// An error of the file of this name.
fn file_trouble(heap: Global, name: &str, error: io::Error) -> Trouble {
    String::from_str(heap, name).map_or(Trouble::Memory, |name| Trouble::File(name, error))
}

pub fn read_all(rt: &HostRuntime, name: Option<&str>) -> Result<Vec<u8>, Trouble> {
    match name {
        None | Some("-") => {
            let mut bytes = Vec::new(rt.alloc());
            rt.stdin().read_to_end(&mut bytes)?;
            Ok(bytes)
        }
        Some(name) => { fs::read(rt, name).map_err(|error| file_trouble(rt.alloc(), name, error)) }
    }
}

// The bytes to the file of this name, if any, and the report to standard output; where the bytes go there, to standard
// error.
pub fn write_out(
    rt: &HostRuntime,
    name: Option<&str>,
    bytes: &[u8],
    report: &impl fmt::Display,
) -> Result<(), Trouble> {
    match name {
        None => print!(rt; "{report}")?,
        Some("-") => {
            rt.stdout().write_all(bytes)?;
            eprint!(rt; "{report}")?;
        }
        Some(name) => {
            fs::write(rt, name, bytes).map_err(|error| file_trouble(rt.alloc(), name, error))?;
            print!(rt; "{report}")?;
        }
    }
    Ok(())
}
