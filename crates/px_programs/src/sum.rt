// The sum of two numbers.
ghost use Rattle.px_program.specs.Numbers.{sum_rule};
ghost use Rattle.px_program.proofs.NumberRules.{sum_laws};

use crate::numbers::{bytes_of, number_of};
use px_frames::{Buf, Wide};
use px_program::Merge;

/// The message that is a number, of which the sum counts, at most `u64::MAX`. Eight bytes are valid.
#[derive(Clone, Copy, Debug, PartialEq, Eq)]
pub struct Sum;

impl Merge for Sum {
    ghost rule = { λ _. sum_rule };

    ghost laws = { λ _. sum_laws };

    #[tactic(auto, using(px_program::proofs::NumberRules::valid_is_number))]
    fn merge_into(&self, buf: &mut Buf, bytes: &[u8]) -> Result<(), Wide> {
        match (number_of(buf.bytes()), number_of(bytes)) {
            (Some(a), Some(b)) => buf.set(&bytes_of(a.saturating_add(b))),
            _ => Ok(()),
        }
    }
}
