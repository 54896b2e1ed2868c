//! The bytes of sources: files, descriptors and the environment.
use crate::complaint::{Complaint, bad_file, failed_file};
use mysql_io::readers_and_writers::{ReadError, read_whole};
use std::alloc::{AllocError, Global};
use std::env::{Env, FillError};
use std::fs;

/// Reads sources. Each descriptor is read at most once: a second read would find a pipe empty.
#[derive(Drop)]
pub struct Sources {
    taken: Vec<i32>,
}

/// The descriptor that is named by its number in `/dev/fd` or `/proc/self/fd`.
pub fn numbered_descriptor(path: &str) -> Option<i32> {
    let digits = match path.strip_prefix("/dev/fd/") {
        Some(digits) => digits,
        None => path.strip_prefix("/proc/self/fd/")?,
    };
    if digits.is_empty() || !digits.bytes().all(|byte| byte.is_ascii_digit()) {
        return None;
    }
    digits.parse::<i32>().ok()
}

// The descriptor that the path of a source stands for.
fn descriptor_of(path: &str) -> Option<i32> {
    match path {
        "-" | "/dev/stdin" => Some(0),
        path => numbered_descriptor(path),
    }
}

/// The bytes without a byte order mark of UTF-8 before them.
pub fn unmarked(bytes: &[u8]) -> &[u8] {
    match bytes {
        [0xEF, 0xBB, 0xBF, rest @ ..] => rest,
        bytes => bytes,
    }
}

/// A path, in the form that messages have.
pub fn shown_path(path: &str) -> &str {
    if path == "-" {
        "(standard input)"
    } else {
        path
    }
}

impl Sources {
    /// The state before any source is read.
    pub fn new(alloc: Global) -> Sources {
        Sources {
            taken: Vec::new(alloc),
        }
    }

    /// The whole file, or the rest of standard input or of a pipe.
    pub fn read(&mut self, rt: &HostRuntime, path: &str) -> Result<Vec<u8>, Complaint> {
        match descriptor_of(path) {
            Some(number) => self.read_once(rt, path, number),
            None => read_file(rt, path),
        }
    }

    // What a descriptor holds, if it was not read before. By its path a file is opened anew.
    fn read_once(
        &mut self,
        rt: &HostRuntime,
        path: &str,
        number: i32,
    ) -> Result<Vec<u8>, Complaint> {
        if self.taken.iter().any(|other| *other == number) {
            return Err(bad_file(
                rt.alloc(),
                shown_path(path),
                "two sources are this descriptor, and the second would be empty (without QUERY \
                 the query is standard input): read one from a file",
            ));
        }
        if self.taken.push(number).is_err() {
            return Err(Complaint::Memory);
        }
        if number == 0 {
            return match read_whole(rt.alloc(), &mut rt.stdin()) {
                Ok(bytes) => Ok(bytes),
                Err(ReadError::Memory(_)) => Err(Complaint::Memory),
                Err(ReadError::Read) => Err(bad_file(rt.alloc(), shown_path(path), "cannot read")),
            };
        }
        read_file(rt, path)
    }
}

// The whole of a file.
fn read_file(rt: &HostRuntime, path: &str) -> Result<Vec<u8>, Complaint> {
    match fs::read(rt, path) {
        Ok(bytes) => Ok(bytes),
        Err(error) => Err(failed_file(rt.alloc(), path, &error)?),
    }
}

/// The bytes of a variable, which need not be text; none if there is no such variable.
pub fn read_variable(rt: &HostRuntime, name: &str) -> Result<Option<Vec<u8>>, AllocError> {
    let mut room = Vec::new(rt.alloc());
    for _ in 0..usize::BITS {
        let len = room.len();
        room.resize(
            if len == 0 {
                256
            } else {
                len.saturating_add(len)
            },
            0u8,
        )?;
        match rt.var(name, room.as_mut_slice()) {
            Ok(n) => {
                room.truncate(n);
                return Ok(Some(room));
            }
            Err(FillError::TooLong) => {}
            Err(FillError::NotPresent) => return Ok(None),
        }
    }
    Ok(None)
}
