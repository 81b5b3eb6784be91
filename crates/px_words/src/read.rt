// The job that words ask for. The command of `options` cuts them into names and values, and the values are read here.
ghost use Rattle.std.specs.Prelude.{◌≡◌, ◌≢◌, ◌<◌, ◌≤◌, ◌-◌, ◌^◌, ℕ, true, map, IfOk, OnOk, OnErr, IfSome, SomeIff, string_bytes, option_copied};
ghost use Rattle.clap.specs.declared.error.kind.ErrorKind.TheVariants.{OutOfMemory};
ghost use Rattle.px_frames.specs.Banks.{is_frame_len};
ghost use Rattle.px_meaning.specs.Line.{is_digit, with_digit};
ghost use Rattle.px_words.specs.Options.{Finds, value_in};
ghost use Rattle.px_words.specs.Screen.{all_pass};
ghost use Rattle.px_words.specs.Words.{job_of, job_by, chosen_of, kind_of, number_of, number_in, frame_len_in, generate_of, stats_of, IsBetween, IsInRange};

use crate::job::{Chosen, Job};
use crate::options::command;
use crate::screen::all_pass;
use clap::ArgMatches;
use clap::error::ErrorKind;
use std::alloc::{AllocError, Global};

/// A program that may be named.
#[derive(Clone, Copy)]
enum Kind {
    Reach,
    Sssp,
    Components,
    PageRank,
    Chains,
    Reverse,
    Close,
    Prune,
}

/// The job that the words ask for, or none where they are refused. The words are those after the program's name. Only memory can be short.
pub fn read_words(alloc: Global, words: &[String]) -> Result<Option<Job>, AllocError>
    ensures job { IfOk result (λ job. job ≡ job_of (map string_bytes words.now)) }
    ensures ranges { IfOk result (λ job. IfSome job IsInRange) }
{
    if !all_pass(words) {
        return Ok(None);
    }
    match parse(alloc, words)? {
        Some(matches) => Ok(job(&matches)),
        None => Ok(None),
    }
}

// The names and values of words, or none where they are refused.
fn parse<'a>(alloc: Global, words: &'a [String]) -> Result<Option<ArgMatches<'a>>, AllocError>
    requires { all_pass (map string_bytes words.now) ≡ true }
    ensures { IfOk result (Finds (map string_bytes words.now)) }
{
    match command(alloc)?.try_get_matches_from(words) {
        Ok(matches) => Ok(Some(matches)),
        Err(error) => {
            check_memory(error.kind())?;
            Ok(None)
        }
    }
}

// Tells want of memory from words that are refused.
fn check_memory(kind: ErrorKind) -> Result<(), AllocError>
    ensures ok { OnOk result (kind ≢ OutOfMemory) }
    ensures err { OnErr result (kind ≡ OutOfMemory) }
{
    match kind {
        ErrorKind::OutOfMemory => Err(AllocError),
        _ => Ok(()),
    }
}

// The value of a name.
fn value<'a>(matches: &ArgMatches<'a>, name: &str) -> Option<&'a [u8]>
    ensures { option_copied result ≡ value_in matches.now name.now }
{
    match matches.get_str(name) {
        Some(text) => Some(text.as_bytes()),
        None => None,
    }
}

#[tactic(auto, unfolding(crate::specs::Words::job_by))]
fn job(matches: &ArgMatches) -> Option<Job>
    ensures job { result ≡ job_by (value_in matches.now) }
    ensures ranges { IfSome result IsInRange }
{
    Some(Job {
        chosen: chosen(matches)?,
        most: number(matches, "max-supersteps", 0, u32::MAX.into(), 1000)? as u32,
        partitions: number(matches, "partitions", 1, 16, 4)? as u32,
        frames: number(matches, "frames", 1, 65536, 64)? as u32,
        frame_bytes: frame_len(matches, "frame-bytes", 256, 1048576, 262144)? as u32,
        seed: number(matches, "seed", 0, u64::MAX, 0)?,
        generate: generate(value(matches, "generate"))?,
        stats: stats(value(matches, "stats"))?,
    })
}

// None where no program is named, its number is missing, or a number stands that it has no use for.
fn chosen(matches: &ArgMatches) -> Option<Chosen>
    ensures { result ≡ chosen_of (value_in matches.now) }
{
    let kind = kind_of(value(matches, "program")?)?;
    match (kind, value(matches, "from"), value(matches, "rounds")) {
        (Kind::Reach, Some(from), None) => {
            let from = number_of(u64::MAX, from)?;
            Some(Chosen::Reach { from })
        }
        (Kind::Sssp, Some(from), None) => {
            let from = number_of(u64::MAX, from)?;
            Some(Chosen::Sssp { from })
        }
        (Kind::Components, None, None) => Some(Chosen::Components),
        (Kind::PageRank, None, Some(rounds)) => {
            let rounds = number_of(u32::MAX.into(), rounds)? as u32;
            Some(Chosen::PageRank { rounds })
        }
        (Kind::Chains, None, None) => Some(Chosen::Chains),
        (Kind::Reverse, None, None) => Some(Chosen::Reverse),
        (Kind::Close, None, None) => Some(Chosen::Close),
        (Kind::Prune, None, None) => Some(Chosen::Prune),
        _ => None,
    }
}

// A number from the least to the greatest value; the default where nothing is said.
fn number(matches: &ArgMatches, name: &str, least: u64, greatest: u64, default: u64) -> Option<u64>
    requires above { least ≤ default }
    requires below { default ≤ greatest }
    ensures value { result ≡ number_in least greatest default (value_in matches.now name.now) }
    ensures range { IfSome result (IsBetween least greatest) }
{
    let Some(text) = value(matches, name) else {
        return Some(default);
    };
    let number = number_of(greatest, text)?;
    if number < least {
        return None;
    }
    Some(number)
}

// Such a number, which is the length of a frame.
fn frame_len(
    matches: &ArgMatches,
    name: &str,
    least: u64,
    greatest: u64,
    default: u64,
) -> Option<u64>
    requires above { least ≤ default }
    requires below { default ≤ greatest }
    ensures value { result ≡ frame_len_in least greatest default (value_in matches.now name.now) }
    ensures range { IfSome result (IsBetween least greatest) }
    ensures len { IfSome result (λ len. is_frame_len len ≡ true) }
{
    let len = number(matches, name, least, greatest, default)?;
    if !is_frame_len(len) {
        return None;
    }
    Some(len)
}

// The number of vertices to generate, or none where nothing is said.
fn generate(text: Option<&[u8]>) -> Option<Option<u32>>
    ensures value { result ≡ generate_of (option_copied text.entry) }
    ensures range { IfSome result (λ n. IfSome n (IsBetween 1 (2 ^ 32 - 1))) }
{
    let Some(text) = text else {
        return Some(None);
    };
    let number = number_of(u32::MAX.into(), text)?;
    if number == 0 {
        return None;
    }
    Some(Some(number as u32))
}

// Yes or no, and no where nothing is said.
fn stats(text: Option<&[u8]>) -> Option<bool>
    ensures { result ≡ stats_of (option_copied text.entry) }
{
    let Some(text) = text else {
        return Some(false);
    };
    if text == b"yes".as_slice() {
        Some(true)
    } else if text == b"no".as_slice() {
        Some(false)
    } else {
        None
    }
}

// Whether this is the length of a frame.
fn is_frame_len(number: u64) -> bool
    ensures { result ≡ is_frame_len number }
{
    matches!(
        number,
        256 | 512
            | 1024
            | 2048
            | 4096
            | 8192
            | 16384
            | 32768
            | 65536
            | 131072
            | 262144
            | 524288
            | 1048576
    )
}

fn kind_of(text: &[u8]) -> Option<Kind>
    ensures { result ≡ kind_of text.now }
{
    if text == b"reach".as_slice() {
        Some(Kind::Reach)
    } else if text == b"sssp".as_slice() {
        Some(Kind::Sssp)
    } else if text == b"components".as_slice() {
        Some(Kind::Components)
    } else if text == b"pagerank".as_slice() {
        Some(Kind::PageRank)
    } else if text == b"chains".as_slice() {
        Some(Kind::Chains)
    } else if text == b"reverse".as_slice() {
        Some(Kind::Reverse)
    } else if text == b"close".as_slice() {
        Some(Kind::Close)
    } else if text == b"prune".as_slice() {
        Some(Kind::Prune)
    } else {
        None
    }
}

// A number of 1 to 20 decimal digits, leading zeros among them, of at most the greatest value.
fn number_of(greatest: u64, text: &[u8]) -> Option<u64>
    ensures { result ≡ number_of greatest text.now }
{
    if text.is_empty() || text.len() > 20 {
        return None;
    }
    let mut number: u64 = 0;
    for byte in text {
        if !byte.is_ascii_digit() {
            return None;
        }
        number = with_digit(number, *byte)?;
    }
    if number <= greatest {
        Some(number)
    } else {
        None
    }
}

fn with_digit(number: u64, digit: u8) -> Option<u64>
    requires { is_digit digit ≡ true }
    ensures { SomeIff result (with_digit number digit < 2 ^ 64) (with_digit number digit) }
{
    number.checked_mul(10)?.checked_add(u64::from(digit - b'0'))
}
