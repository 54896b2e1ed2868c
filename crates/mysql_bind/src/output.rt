//! The output of the text: standard output, or a file, which is written whole or not at all.
use crate::complaint::{Complaint, bad_file, bad_folder, failed_file};
use crate::sources::numbered_descriptor;
use mysql_io::readers_and_writers::write_whole;
use std::alloc::{AllocError, Global};
use std::fs::File;
use std::io::Write;
use std::{fs, io};

static IRREPLACEABLE: &str =
    "this is a device, a pipe, a socket or a descriptor, and -o writes only files: leave -o out \
     and redirect standard output";

// The descriptor that the path of an output stands for.
fn descriptor_of(path: &str) -> Option<i32> {
    match path {
        "/dev/stdin" => Some(0),
        "/dev/stdout" => Some(1),
        "/dev/stderr" => Some(2),
        path => numbered_descriptor(path),
    }
}

// The same, also for a symbolic link to such a path.
fn descriptor_at(rt: &HostRuntime, path: &str) -> Result<Option<i32>, Complaint> {
    let descriptor = descriptor_of(path);
    if descriptor.is_some() {
        return Ok(descriptor);
    }
    match fs::read_link(rt, path) {
        Ok(target) => Ok(descriptor_of(target.as_path().as_str())),
        Err(error) if error.kind() == io::ErrorKind::OutOfMemory => Err(Complaint::Memory),
        // There is no link. Any other reason is told where the file is looked at.
        Err(_) => Ok(None),
    }
}

// Refuses what a file can't replace.
fn check_replaceable(rt: &HostRuntime, path: &str) -> Result<(), Complaint> {
    match fs::metadata(rt, path) {
        Ok(found) if found.is_file() => Ok(()),
        Ok(found) if found.is_dir() => Err(bad_folder(rt.alloc(), path)),
        Ok(_) => Err(bad_file(rt.alloc(), path, IRREPLACEABLE)),
        Err(error) if error.kind() == io::ErrorKind::NotFound => Ok(()),
        Err(error) => Err(failed_file(rt.alloc(), path, &error)?),
    }
}

// The name of the new file beside the one that is asked for.
fn new_path(alloc: Global, path: &str) -> Result<String, AllocError> {
    format!(in alloc; "{path}.mysql_bind-new")
}

// The most bytes that the process may write into a file, if there is a limit (`ulimit -f`).
fn file_size_limit(rt: &HostRuntime) -> Option<usize> {
    let limits = fs::read_to_string(rt, "/proc/self/limits").ok()?;
    let line = limits
        .lines()
        .find(|line| line.starts_with("Max file size"))?;
    line.split_whitespace().nth(3)?.parse::<usize>().ok()
}

// Whether a write of the text would send the signal that ends a program at this limit.
fn exceeds_limit(rt: &HostRuntime, text: &[u8]) -> bool {
    matches!(file_size_limit(rt), Some(limit) if text.len() > limit)
}

// Writes a new file, and waits until the disk has it.
fn write_new(rt: &HostRuntime, path: &str, text: &[u8]) -> Result<(), Complaint> {
    match File::create_new(rt, path) {
        Ok(mut file) => {
            if exceeds_limit(rt, text) || write_whole(&mut file, text).is_err() {
                return Err(Complaint::Write);
            }
            match file.sync_all() {
                Ok(()) => Ok(()),
                Err(_) => Err(Complaint::Write),
            }
        }
        Err(error) => Err(failed_file(rt.alloc(), path, &error)?),
    }
}

// Renames the new file, or removes it.
fn rename_new(rt: &HostRuntime, new: &str, path: &str) -> Result<(), Complaint> {
    match fs::rename(rt, new, path) {
        Ok(()) => Ok(()),
        Err(error) => {
            let _ = fs::remove_file(rt, new);
            Err(failed_file(rt.alloc(), path, &error)?)
        }
    }
}

// Writes the file whole, or leaves it as it was.
fn write_file(rt: &HostRuntime, path: &str, text: &[u8]) -> Result<(), Complaint> {
    let new = new_path(rt.alloc(), path)?;
    match write_new(rt, new.as_str(), text) {
        Ok(()) => rename_new(rt, new.as_str(), path),
        Err(Complaint::Write) => {
            let _ = fs::remove_file(rt, new.as_str());
            Err(Complaint::Write)
        }
        Err(complaint) => Err(complaint),
    }
}

// Writes the whole text to standard output.
fn write_standard_output(rt: &HostRuntime, text: &[u8]) -> Result<(), Complaint> {
    match write_whole(&mut rt.stdout(), text) {
        Ok(()) => Ok(()),
        Err(_) => Err(Complaint::Write),
    }
}

/// Writes the whole text to standard output, or to the file. A path that stands for standard output
/// is that. One at which there is no regular file, but something else, is refused.
pub fn write_text(rt: &HostRuntime, path: Option<&str>, text: &[u8]) -> Result<(), Complaint> {
    let Some(path) = path else {
        return write_standard_output(rt, text);
    };
    match descriptor_at(rt, path)? {
        Some(1) => write_standard_output(rt, text),
        Some(_) => Err(bad_file(rt.alloc(), path, IRREPLACEABLE)),
        None => {
            check_replaceable(rt, path)?;
            write_file(rt, path, text)
        }
    }
}
