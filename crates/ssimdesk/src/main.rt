//! The program over the system's files and the standard streams.
#![tactic(auto)]

mod draft;
mod file_bytes;
mod files;
mod hold;
mod open_file;
mod part;
mod whole_file;

use files::FileStore;
use ssim_program::run;
use std::alloc::{AllocError, Global};
use std::env;
use std::env::VarError;
use std::io::{BufWriter, ErrorKind};
use std::process::ExitCode;

/// The size of the buffer of the standard output.
const ROOM: usize = 32_768;

/// The size of the buffer of the standard error, so that a line is written whole.
const LINE_ROOM: usize = 1_024;

/// The environment variable which, if it is set and not empty, is `--explain` before each command.
const EXPLAIN: &str = "SSIMDESK_EXPLAIN";

/// Whether each refusal is to be explained. A variable that memory is too small for is not read.
fn explains(rt: &HostRuntime) -> bool {
    match env::var(rt, EXPLAIN) {
        Ok(value) => !value.is_empty(),
        Err(VarError::NotUnicode) => true,
        Err(_) => false,
    }
}

/// Whether the first of the words after the program's name is `--explain`.
fn begins_with_explain(words: &[String]) -> bool {
    matches!(words, [first, ..] if first.as_str() == "--explain")
}

/// The words as texts, with one `--explain` before the command if each refusal is to be explained.
fn texts_of(alloc: Global, explained: bool, words: &[String]) -> Result<Vec<&str>, AllocError> {
    let mut texts = Vec::with_capacity(alloc, words.len())?;
    let [program, rest @ ..] = words else {
        return Ok(texts);
    };
    texts.push(program.as_str())?;
    if explained && !begins_with_explain(rest) {
        texts.push("--explain")?;
    }
    for word in rest {
        texts.push(word.as_str())?;
    }
    Ok(texts)
}

fn out_of_memory(rt: &impl Eprint) -> ExitCode {
    let _ = eprintln!(rt; "refused 90 Memory");
    ExitCode::from(1)
}

/// A word cannot be read if memory runs out, or if it is no text.
fn unread(rt: &impl Eprint, kind: ErrorKind) -> ExitCode {
    if kind == ErrorKind::OutOfMemory {
        return out_of_memory(rt);
    }
    let _ = eprintln!(rt;
        "error: a word of the command line is no UTF-8; names of files are to be UTF-8"
    );
    ExitCode::from(2)
}

/// The words of the command line, or why they cannot be read.
fn words_of(rt: &HostRuntime) -> Result<Vec<String>, ErrorKind> {
    let args = match env::args(rt) {
        Ok(args) => args,
        Err(error) => return Err(error.kind()),
    };
    let words: Result<Vec<String>, AllocError> = args.collect(rt.alloc());
    match words {
        Ok(words) => Ok(words),
        Err(_) => Err(ErrorKind::OutOfMemory),
    }
}

/// Runs the program on the words. Returns its status, or nothing if memory runs out before.
fn run_on(rt: &HostRuntime, words: &[&str]) -> Option<u8> {
    let alloc = rt.alloc();
    let Ok(mut out) = BufWriter::with_capacity(alloc, ROOM, rt.stdout()) else {
        return None;
    };
    let Ok(mut err) = BufWriter::with_capacity(alloc, LINE_ROOM, rt.stderr()) else {
        return None;
    };
    let Ok(mut store) = FileStore::new(rt, alloc) else {
        return None;
    };
    let status = run(alloc, words, &mut store, &mut out, &mut err);
    // What is printed was flushed. Only after a failure is there more in a buffer, and then
    // nothing more is written.
    let _ = out.into_parts();
    let _ = err.into_parts();
    Some(status)
}

fn main(rt: HostRuntime) -> ExitCode {
    let words = match words_of(&rt) {
        Ok(words) => words,
        Err(kind) => return unread(&rt, kind),
    };
    let status = match texts_of(rt.alloc(), explains(&rt), &words) {
        Ok(texts) => run_on(&rt, &texts),
        Err(_) => None,
    };
    match status {
        Some(status) => ExitCode::from(status),
        None => out_of_memory(&rt),
    }
}
