//! Reading what stands before the body of a pattern file: comments, and the header line.
ghost use Rattle.std.specs.Prelude.{◌≡◌, ◌≢◌, ◌≤◌, Err, IfOk, IsTrue, None, length};
ghost use Rattle.text_lines.specs.Lines.{lines};
ghost use Rattle.multistate_rle.specs.Comments.{plain_origin};
ghost use Rattle.multistate_rle.specs.Head.{ReadsHead, head_from, is_passed, is_placed};

use crate::comment::{Origin, after_comment, plain_origin};
use crate::cut::begins_with;
use crate::fault::RleFault;
use crate::header_line::rule_name;
use crate::line::first_line;
use std::alloc::Global;

/// What stands before the body: where the pattern lies and which generation it is, the rule's
/// name, and the length of all this in bytes. The origin is None where a comment that gives it
/// found no memory.
#[derive(Clone, Copy, Debug)]
pub(crate) struct Head<'a> {
    pub(crate) origin: Option<Origin>,
    pub(crate) name: &'a [u8],
    pub(crate) len: usize,
}

/// Reads comments and blank lines, and then the header.
pub(crate) fn read_head(alloc: Global, text: &[u8]) -> Result<Head<'_>, RleFault>
    ensures head { ReadsHead result (head_from plain_origin 0 (lines text.now)) }
    ensures within { IfOk result (λ head. head.len ≤ length text.now) }
    ensures wanted { IfOk result
        (λ head. head.origin ≡ None → IsTrue (is_placed (lines text.now))) }
    ensures fault { result ≢ Err RleFault.NoMemory }
{
    let mut origin = Some(plain_origin());
    let mut len = 0;
    while len < text.len() {
        let line = first_line(&text[len..]);
        len += line.len;
        if !is_passed(line.says) {
            let name = rule_name(line.says)?;
            return Ok(Head { origin, name, len });
        }
        if let Some(known) = origin {
            origin = after_comment(alloc, known, line.says).ok();
        }
    }
    Err(RleFault::NoHeader)
}

// Whether a line is blank or a comment.
fn is_passed(line: &[u8]) -> bool
    ensures { result ≡ is_passed line.now }
{
    line.is_empty() || begins_with(line, b'#')
}
