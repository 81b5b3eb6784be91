//! px: words, a graph as text, and the answer as text and a status.
#![tactic(auto)]

mod ending;
mod run;
mod work;

ghost use Rattle.std.specs.Prelude.{◌≡◌, ℕ, List, IfOk};
ghost use Rattle.px_superstep.specs.declared.plan.End.TheVariants.{Memory};
ghost use Rattle.px_superstep.specs.Lines.{Grew};
ghost use Rattle.px_tool.specs.Clauses.{IsStatus};
ghost use Rattle.px_tool.specs.Endings.{line_of_end};

use crate::ending::Ending;
use crate::run::{px_run, report};
use px_core::{SeedTurns, Sink};
use px_filedisk::FileDisk;
use px_plan_matrix::End;
use px_stdio::{Input, Output};
use std::io::ErrorKind;
use std::process::ExitCode;
use std::{env, io};

// The folders of the page files, in the current folder.
const GRAPH: &str = "px_scratch/graph";

const SCRATCH: &str = "px_scratch/scratch";

// The words after the program's name.
fn words_after_name(rt: &HostRuntime) -> io::Result<Vec<String>> {
    let mut words = Vec::new(rt.alloc());
    for word in env::args(rt)?.skip(1) {
        words.push(word)?;
    }
    Ok(words)
}

// The same, where words that are not UTF-8 are refused, as no words are.
fn words_of(rt: &HostRuntime) -> io::Result<Vec<String>> {
    match words_after_name(rt) {
        Err(e) if e.kind() == ErrorKind::InvalidData => Ok(Vec::new(rt.alloc())),
        words => words,
    }
}

// Says on the error sink that there is no memory, and answers that status.
fn no_memory<E: Sink>(errs: &mut E) -> u8
    ensures status { result ≡ 10 }
    ensures line { (e : List ℕ) → E.holds errs.old e → Grew (E.holds errs.new) (E.faults errs.old) (E.faults errs.new) e (line_of_end Memory) }
{
    let ending = Ending::Ran(End::Memory);
    report(ending, errs);
    ending.status()
}

// The run over standard input and output and the files of both disks. The only error is want of memory.
fn run_over_files<E: Sink>(rt: HostRuntime, errs: &mut E) -> io::Result<u8>
    ensures { IfOk result IsStatus }
{
    let alloc = rt.alloc();
    let words = words_of(&rt)?;
    let mut graph = FileDisk::new(rt, alloc, GRAPH)?;
    let mut scratch = FileDisk::new(rt, alloc, SCRATCH)?;
    let mut source = Input::new(rt.stdin());
    let mut out = Output::new(rt.stdout());
    let status = px_run(
        alloc,
        &words,
        &mut source,
        &mut out,
        errs,
        &mut graph,
        &mut scratch,
        &mut SeedTurns::new(),
    );
    Ok(status)
}

fn main(rt: HostRuntime) -> ExitCode {
    let mut errs = Output::new(rt.stderr());
    let status = match run_over_files(rt, &mut errs) {
        Ok(status) => status,
        Err(_) => no_memory(&mut errs),
    };
    ExitCode::from(status)
}
