// The whole listing, for a buffer of any length. The length of the text is known only when it is complete, and a buffer
// that is too short must stay untouched. So the text is written straight into the buffer if it has room for any plan with
// this number of nodes, and otherwise into an array first. A new array is filled with zeros, which takes time, so plans
// with fewer nodes get a shorter array.
ghost use Rattle.std.specs.Prelude.{◌≤◌, length};
ghost use Rattle.refusals.specs.Refusals.{numbered};
ghost use Rattle.refusals.specs.Answers.{answered};
ghost use Rattle.plan_file.specs.Decoding.{node_count};
ghost use Rattle.listing.specs.Lines.{refused_line};
ghost use Rattle.listing.specs.Listing.{TextCall, ListCall};
ghost use Rattle.listing.specs.Room.{plan_most};

use super::{MOST_TEXT, NODE_LINES, PLAN_LINE, put_plan, put_refused_line};
use plan_file::PlanFile;
use refusals::Refusal;

// The most bytes of a listing of two nodes, and of eight.
const TWO_NODES: usize = PLAN_LINE + 2 * NODE_LINES;

const EIGHT_NODES: usize = PLAN_LINE + 8 * NODE_LINES;

// Copies a text to the start of a buffer. Refuses a buffer that is too short (10).
fn copy_text(text: &[u8], out: &mut [u8]) -> Result<usize, Refusal>
    ensures { TextCall text.now out.old (answered result) out.new }
{
    if out.len() < text.len() {
        return Err(Refusal::ShortBuffer);
    }
    out[..text.len()].copy_from_slice(text);
    Ok(text.len())
}

// The one line for a refused file.
fn list_refusal(r: Refusal, out: &mut [u8]) -> Result<usize, Refusal>
    ensures text { TextCall (refused_line (numbered r)) out.old (answered result) out.new }
    ensures short { length (refused_line (numbered r)) ≤ 64 }
{
    let mut line = [0u8; 64];
    let n = put_refused_line(&mut line, r);
    copy_text(&line[..n], out)
}

// The listing of a checked file, written into `text` first.
fn list_through(plan: &PlanFile, text: &mut [u8], out: &mut [u8]) -> Result<usize, Refusal>
    requires { plan_most (node_count plan.now.bytes.now) ≤ length text.old }
    ensures { ListCall plan.now.bytes.now out.old (answered result) out.new }
{
    let n = put_plan(plan, text);
    copy_text(&text[..n], out)
}

// The same, with an array of N bytes of its own.
fn list_aside<const N: usize>(plan: &PlanFile, out: &mut [u8]) -> Result<usize, Refusal>
    requires { (plan_most (node_count plan.now.bytes.now) ≤ N) × (N ≤ 115625) }
    ensures { ListCall plan.now.bytes.now out.old (answered result) out.new }
{
    let mut text = [0u8; N];
    list_through(plan, &mut text, out)
}

// The listing of a checked file. (The length of an array is a constant, so each length is a case here.)
fn list_checked(plan: &PlanFile, out: &mut [u8]) -> Result<usize, Refusal>
    ensures { ListCall plan.now.bytes.now out.old (answered result) out.new }
{
    let nodes = plan.nodes();
    if PLAN_LINE + nodes * NODE_LINES <= out.len() {
        return Ok(put_plan(plan, out));
    }
    if nodes <= 2 {
        return list_aside::<TWO_NODES>(plan, out);
    }
    if nodes <= 8 {
        return list_aside::<EIGHT_NODES>(plan, out);
    }
    list_aside::<MOST_TEXT>(plan, out)
}

// Lists a plan file from the start of `out`, and gives the length of the text; for a refused file, the text is one line with
// the refusal. Refuses only a buffer that is too short for the text (10), and leaves it untouched. `MOST_TEXT` bytes always
// suffice.
pub fn list_plan(file: &[u8], out: &mut [u8]) -> Result<usize, Refusal>
    ensures { ListCall file.now out.old (answered result) out.new }
{
    match PlanFile::check(file) {
        Ok(plan) => list_checked(&plan, out),
        Err(r) => list_refusal(r, out),
    }
}
