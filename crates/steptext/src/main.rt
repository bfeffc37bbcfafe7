// Turns a text of steps into a step file, and a step file into a text. The first argument says which:
//   steps  reads a text and writes its step file
//   text   reads a step file and writes its text
//   check  reads a text and writes the text of its step file
#![tactic(auto)]

use std::alloc::Global;
use std::io::{Read, Write};
use std::process::ExitCode;
use std::{env, fmt, io, str};
use text::fault::{FileFault, TextFault};
use text::parse::from_text;
use text::print::to_text;

// Why nothing is written.
#[derive(Clone, Copy, Debug, PartialEq, Eq)]
enum Failure {
    Usage,
    NotText,
    Text(TextFault),
    File(FileFault),
}

impl From<TextFault> for Failure {
    fn from(fault: TextFault) -> Failure {
        Failure::Text(fault)
    }
}

impl From<FileFault> for Failure {
    fn from(fault: FileFault) -> Failure {
        Failure::File(fault)
    }
}

impl fmt::Display for Failure {
    fn fmt<W: fmt::Write>(&self, f: &mut fmt::Formatter<W>) -> fmt::Result {
        match *self {
            Failure::Usage => write!(f, "usage: steptext steps|text|check"),
            Failure::NotText => write!(f, "not UTF-8"),
            Failure::Text(fault) => write!(f, "{fault}"),
            Failure::File(fault) => write!(f, "{fault}"),
        }
    }
}

// The step file of a text.
fn steps(heap: Global, input: &[u8]) -> Result<Vec<u8>, Failure> {
    let Ok(text) = str::from_utf8(input) else {
        return Err(Failure::NotText);
    };
    Ok(from_text(heap, text)?)
}

// What is written, by the first argument.
fn output(heap: Global, mode: &str, input: &[u8]) -> Result<Vec<u8>, Failure> {
    match mode {
        "steps" => steps(heap, input),
        "text" => Ok(to_text(heap, input)?.into_bytes()),
        "check" => Ok(to_text(heap, &steps(heap, input)?)?.into_bytes()),
        _ => Err(Failure::Usage),
    }
}

fn main(rt: HostRuntime) -> io::Result<ExitCode> {
    let Some(mode) = env::args(&rt)?.nth(1) else {
        eprintln!(rt; "{}", Failure::Usage)?;
        return Ok(ExitCode::FAILURE);
    };
    let mut input = Vec::new(rt.alloc());
    rt.stdin().read_to_end(&mut input)?;
    match output(rt.alloc(), mode.as_str(), &input) {
        Ok(bytes) => {
            rt.stdout().write_all(&bytes)?;
            Ok(ExitCode::SUCCESS)
        }
        Err(failure) => {
            eprintln!(rt; "{failure}")?;
            Ok(ExitCode::FAILURE)
        }
    }
}
