//! Names in a folder, and those of temporaries.

use folder_protocol::{TEMPORARY, are_digits};
use std::alloc::{AllocError, Global};
use std::fs::{self, Files};
use std::io;
use std::random::RandomSource;

/// How the name of a folder that is made ends, after a point and the name that it is to have.
const UNFINISHED: &str = ".lanes-new-";

/// The digits.
const HEX: [char; 16] = [
    '0', '1', '2', '3', '4', '5', '6', '7', '8', '9', 'a', 'b', 'c', 'd', 'e', 'f',
];

/// The path of a name in a folder.
pub fn path_in(alloc: Global, folder: &str, name: &str) -> Result<String, AllocError> {
    let mut path = String::from_str(alloc, folder)?;
    if !folder.ends_with('/') {
        path.push('/')?;
    }
    path.push_str(name)?;
    Ok(path)
}

/// Sixteen random digits.
pub fn random_digits<R: RandomSource + AllocGlobal>(rt: &R) -> io::Result<String> {
    let mut bytes = [0u8; 8];
    rt.fill_bytes(&mut bytes)?;
    let mut digits = String::new(rt.alloc());
    for byte in bytes {
        digits.push(HEX[(byte / 16) as usize])?;
        digits.push(HEX[(byte % 16) as usize])?;
    }
    Ok(digits)
}

/// A new name of a temporary.
pub fn temporary_name<R: RandomSource + AllocGlobal>(rt: &R) -> io::Result<String> {
    let mut name = String::from_str(rt.alloc(), TEMPORARY)?;
    name.push_str(random_digits(rt)?.as_str())?;
    Ok(name)
}

/// A new name under which a folder of this name is made.
pub fn unfinished_name<R: RandomSource + AllocGlobal>(rt: &R, last: &str) -> io::Result<String> {
    let digits = random_digits(rt)?;
    Ok(format!(in rt.alloc(); ".{last}{UNFINISHED}{digits}")?)
}

/// Whether a folder of this name is made under that name.
pub fn is_unfinished(name: &str, last: &str) -> bool {
    let Some(rest) = name.strip_prefix('.') else {
        return false;
    };
    let Some(rest) = rest.strip_prefix(last) else {
        return false;
    };
    rest.strip_prefix(UNFINISHED)
        .is_some_and(|digits| are_digits(digits.as_bytes()))
}

/// Whether a path is that of a symbolic link.
pub fn is_link<R: Files>(rt: &R, path: &str) -> bool {
    match fs::symlink_metadata(rt, path) {
        Ok(found) => found.is_symlink(),
        Err(_) => false,
    }
}
