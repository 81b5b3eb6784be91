// The lesser of two numbers.
ghost use Rattle.px_program.specs.Numbers.{lesser_rule};
ghost use Rattle.px_program.proofs.NumberRules.{lesser_laws};

use crate::numbers::{bytes_of, number_of};
use px_frames::{Buf, Wide};
use px_program::Merge;

/// The message that is a number, of which the least counts. Eight bytes are valid.
#[derive(Clone, Copy, Debug, PartialEq, Eq)]
pub struct Lesser;

impl Merge for Lesser {
    ghost rule = { λ _. lesser_rule };

    ghost laws = { λ _. lesser_laws };

    #[tactic(auto, using(px_program::proofs::NumberRules::valid_is_number))]
    fn merge_into(&self, buf: &mut Buf, bytes: &[u8]) -> Result<(), Wide> {
        match (number_of(buf.bytes()), number_of(bytes)) {
            (Some(a), Some(b)) => buf.set(&bytes_of(a.min(b))),
            _ => Ok(()),
        }
    }
}
