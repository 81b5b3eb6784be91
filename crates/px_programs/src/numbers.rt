// Numbers as values and as messages: eight bytes, the highest first.
ghost use Rattle.std.specs.Prelude.{◌≡◌, ℕ, List, ◌++◌, take, length, IsTrue, OnOk, OnErr, option_copied, option_map};
ghost use Rattle.px_core.specs.Counts.{Rose};
ghost use Rattle.px_meaning.specs.Merge.{IsValidMessage};
ghost use Rattle.px_program.specs.Numbers.{num, number, number_in, is_num, lesser_rule};
ghost use Rattle.px_programs.specs.Answers.{decimal_or_dash};

use byteorder::{BigEndian, ByteOrder};
use px_core::{Failed, Sink, write_all};
use px_program::print_decimal;

/// The number, where there are eight bytes.
#[tactic(auto, unfolding(px_program::specs::Numbers::number))]
pub fn number_of(bytes: &[u8]) -> Option<u64>
    ensures { result ≡ number_in bytes.now }
{
    if bytes.len() == 8 {
        Some(BigEndian::read_u64(bytes))
    } else {
        None
    }
}

/// The bytes of a number.
#[tactic(auto, using(px_program::proofs::NumberRules::num_is_valid), unfolding(px_program::specs::Numbers::num))]
pub fn bytes_of(n: u64) -> [u8; 8]
    ensures bytes { result ≡ num n }
    ensures valid { IsTrue (is_num result) }
    ensures len { length result ≡ 8 }
{
    n.to_be_bytes()
}

/// The number of a message, if there is one.
#[tactic(auto, using(px_program::proofs::NumberRules::valid_is_number))]
pub fn heard(msg: Option<&[u8]>) -> Option<u64>
    ensures { IsValidMessage lesser_rule (option_copied msg.entry) → result ≡ option_map number (option_copied msg.entry) }
{
    match msg {
        Some(bytes) => number_of(bytes),
        None => None,
    }
}

/// Writes a number in decimal, or a dash for none.
pub fn print_number<W: Sink>(n: Option<u64>, sink: &mut W) -> Result<(), Failed>
    ensures ok { OnOk result ((h : List ℕ) → W.holds sink.old h → W.holds sink.new (h ++ decimal_or_dash n)) }
    ensures err { OnErr result ((h : List ℕ) → W.holds sink.old h → (k : ℕ) × W.holds sink.new (h ++ take k (decimal_or_dash n))) }
    ensures cause { OnErr result (Rose (W.faults sink.old) (W.faults sink.new)) }
    ensures no_fault { OnOk result (W.faults sink.new ≡ W.faults sink.old) }
{
    match n {
        Some(n) => print_decimal(n, sink),
        None => write_all(sink, b"-"),
    }
}
