//! A number that is reached by a reference is known to have the range of its type only once it is
//! read; these functions read those of a reply and do nothing else.

ghost use Rattle.std.specs.List.{AllByRecursion};
ghost use Rattle.pl_wire.specs.Replies.{FitsReplyFields, FitsVerdict, IsLine};

use pl_block::seen::{each_is_block, each_is_byte};
use pl_core::{Line, Reply};
use pl_table::Verdict;

fn verdict_fits(verdict: &Verdict)
    ensures value { FitsVerdict verdict.now }
{
    if let Verdict::Denied { row, value, .. } = verdict {
        let _numbers = (*row, *value);
    }
}

fn is_line(line: &Line)
    ensures value { IsLine line.now }
{
    verdict_fits(&line.verdict);
    let _number = line.number;
    let _pass = line.pass;
    let _principal = line.principal;
    let _epoch = line.epoch;
    let _a = line.a;
    let _b = line.b;
}

fn each_is_line(lines: &[Line])
    ensures value { AllByRecursion IsLine lines.now }
{
    for line in lines {
        is_line(line);
    }
}

/// Each number of the reply fits its field, each block is one, and each line.
pub(crate) fn each_number_fits(reply: &Reply)
    ensures value { FitsReplyFields reply.now }
{
    match reply {
        Reply::Blocks { next, blocks } => {
            let _next = *next;
            each_is_block(blocks.as_slice());
        }
        Reply::Page { at, bytes } => {
            let _at = *at;
            each_is_byte(bytes.as_slice());
        }
        Reply::Entries { lines } => each_is_line(lines.as_slice()),
        Reply::Status {
            epoch,
            primary,
            hard,
            pending,
            landing,
        } => {
            let _of_epoch = (*epoch, *primary);
            let _counts = (*hard, *pending, *landing);
        }
        Reply::Denied { row, value, .. } => {
            let _row = *row;
            let _value = *value;
        }
        _ => {}
    }
}
