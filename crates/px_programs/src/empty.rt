// The empty message.
ghost use Rattle.px_programs.specs.Empty.{empty_rule, empty_laws};

use px_frames::{Buf, Wide};
use px_program::Merge;

/// The message that says no more than that it was sent. The empty list alone is valid.
#[derive(Clone, Copy, Debug, PartialEq, Eq)]
pub struct Empty;

impl Merge for Empty {
    ghost rule = { λ _. empty_rule };

    ghost laws = { λ _. empty_laws };

    fn merge_into(&self, buf: &mut Buf, _bytes: &[u8]) -> Result<(), Wide> {
        buf.set(&[])
    }
}
