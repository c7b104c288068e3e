//! A program for people who translate: it checks, shows and lists the messages of FTL files.
#![tactic(auto)]

use fluent_cli::answer::{Answer, Status, request_of};
use fluent_cli::run::{File, run};
use fluent_cli_files::{Content, Contents, Files};
use fluent_cli_words::{Request, ask};
use std::alloc::AllocError;
use std::io::ErrorKind;
use std::process::ExitCode;
use std::{env, io};

/// The words after the program's name.
fn words(rt: &HostRuntime) -> io::Result<Vec<String>> {
    let mut words = Vec::new(rt.alloc());
    for word in env::args(rt)?.skip(1) {
        words.push(word)?;
    }
    Ok(words)
}

/// The folder of translations and that of references, where files go in pairs.
fn folders<'w>(request: &Request<'w>) -> Option<(&'w str, &'w str)> {
    let Request::Check(check) = request else {
        return None;
    };
    let translation = check.translation?;
    let reference = check.references.as_slice().first()?;
    Some((translation, *reference))
}

/// Reads the files of a request.
fn read(rt: &HostRuntime, request: &Request<'_>) -> Result<Contents, AllocError> {
    let beside = request.beside_names();
    let files = match folders(request) {
        Some((translation, reference)) => Files::pairs(rt, beside, translation, reference)?,
        None => Files::together(rt, beside, request.file_names(), request.reference_names())?,
    };
    files.read(rt)
}

/// What a file has, or why it can't be read.
fn contents_of(content: &Content) -> Result<&[u8], &str> {
    match &content.contents {
        Ok(bytes) => Ok(bytes.as_slice()),
        Err(why) => Err(why.as_str()),
    }
}

/// The same, as `run` takes them.
fn lent<'c>(rt: &HostRuntime, contents: &'c [Content]) -> Result<Vec<File<'c>>, AllocError> {
    let mut files = Vec::new(rt.alloc());
    for content in contents {
        files.push(File {
            name: content.name.as_str(),
            contents: contents_of(content),
        })?;
    }
    Ok(files)
}

/// What a request gives, when its files are read.
fn answer_request(rt: &HostRuntime, request: &Request<'_>) -> Result<Answer, AllocError> {
    let contents = read(rt, request)?;
    let beside = lent(rt, contents.beside.as_slice())?;
    let files = lent(rt, contents.files.as_slice())?;
    let references = lent(rt, contents.references.as_slice())?;
    run(
        rt.alloc(),
        request,
        beside.as_slice(),
        files.as_slice(),
        references.as_slice(),
    )
}

/// What these words give.
fn answer(rt: &HostRuntime, words: &[String]) -> Result<Answer, AllocError> {
    match request_of(rt.alloc(), ask(rt.alloc(), words)?) {
        Ok(request) => answer_request(rt, &request),
        Err(answer) => Ok(answer),
    }
}

/// Prints an answer, what is said on standard error first.
fn print(rt: &HostRuntime, answer: &Answer) -> io::Result<u8> {
    rt.eprint(answer.errors.as_str())?;
    rt.print(answer.output.as_str())?;
    Ok(answer.status.code())
}

/// Ends a run that has no answer.
fn give_up(rt: &HostRuntime, why: &str) -> u8 {
    let _ = eprintln!(rt; "fluent: {why}");
    Status::Fault.code()
}

/// Why the words could not be had.
fn without_words(error: &io::Error) -> &'static str {
    if error.kind() == ErrorKind::OutOfMemory {
        "out of memory"
    } else {
        "the words can't be read"
    }
}

fn main(rt: HostRuntime) -> ExitCode {
    let words = match words(&rt) {
        Ok(words) => words,
        Err(error) => return ExitCode::from(give_up(&rt, without_words(&error))),
    };
    ExitCode::from(match answer(&rt, words.as_slice()) {
        Ok(answer) => match print(&rt, &answer) {
            Ok(code) => code,
            Err(_) => give_up(&rt, "writing failed"),
        },
        Err(AllocError) => give_up(&rt, "out of memory"),
    })
}
