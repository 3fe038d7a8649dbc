//! `tdl`: the program over the host's files and standard streams.
#![tactic(auto)]

use std::env::{Env, FillError};
use std::process::ExitCode;
use std::str;
use tdl_io::{HostFiles, HostSink, Sink};
use tdl_top::{Status, tdl};

/// Linux takes no longer word of a command line, in bytes.
const WORD_BYTES: usize = 131_072;

/// The words after the program's name, or the status where they cannot be had: Usage where one is
/// not UTF-8. The program's own name may be any bytes.
fn words(rt: &HostRuntime) -> Result<Vec<String>, Status> {
    let alloc = rt.alloc();
    let Ok(mut buffer) = Vec::from_elem(alloc, 0u8, WORD_BYTES) else {
        return Err(Status::NoMemory);
    };
    let mut words = Vec::new(alloc);
    for at in 1..usize::MAX {
        let length = match rt.arg(at, &mut buffer) {
            Ok(length) => length,
            Err(FillError::NotPresent) => break,
            Err(FillError::TooLong) => return Err(Status::Usage),
        };
        let Ok(text) = str::from_utf8(&buffer[..length]) else {
            return Err(Status::Usage);
        };
        let Ok(word) = String::from_str(alloc, text) else {
            return Err(Status::NoMemory);
        };
        if words.push(word).is_err() {
            return Err(Status::NoMemory);
        }
    }
    Ok(words)
}

fn main(rt: HostRuntime) -> ExitCode {
    let mut files = HostFiles::new(&rt);
    let mut out = HostSink::out(&rt);
    let mut err = HostSink::err(&rt);
    let status = match words(&rt) {
        Ok(words) => tdl(rt.alloc(), &words, &mut files, &mut out, &mut err),
        Err(Status::Usage) => {
            let _ = err.put(b"tdl: usage\n");
            Status::Usage
        }
        Err(status) => status,
    };
    ExitCode::from(status.code())
}
