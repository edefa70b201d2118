//! The text of the reply to `urgent`. Each of its lines is ended by LF, and has no other LF in it.
ghost use Rattle.std.specs.Prelude.{◌≡◌, ◌++◌, IfOk, OnOk, map};
ghost use Rattle.std.specs.String.{string_bytes};
ghost use Rattle.tc_urgent.specs.Pages.{page_lines};
ghost use Rattle.tc_urgent.specs.Texts.{urgent_text as line_of};
ghost use Rattle.tc_room.specs.Replies.{AreLines, ended};

use std::alloc::{AllocError, Global};
use tc_report::add_line;
use tc_urgent::{UrgentLine, has_more, head_text, page, urgent_text};

/// Adds a line for each of these to a reply.
fn add_urgent(alloc: Global, reply: &mut String, shown: &[UrgentLine]) -> Result<(), AllocError>
    ensures added { OnOk result (string_bytes reply.new ≡ string_bytes reply.old ++ ended (map line_of shown.now)) }
    ensures lines { OnOk result (AreLines (map line_of shown.now)) }
{
    for one in shown {
        add_line(reply, urgent_text(alloc, one)?.as_str())?;
    }
    Ok(())
}

/// The reply to `urgent`, where these lines are shown: the page that begins with line `from`.
pub fn urgent_reply(alloc: Global, lines: &[UrgentLine], from: u32) -> Result<String, AllocError>
    ensures text { IfOk result (λ text. string_bytes text ≡ ended (page_lines from lines.now)) }
    ensures lines { OnOk result (AreLines (page_lines from lines.now)) }
{
    let shown = page(lines, from as usize);
    let more = has_more(lines, from as usize);
    let mut reply = head_text(alloc, shown.len(), more)?;
    reply.push_str("\n")?;
    add_urgent(alloc, &mut reply, shown)?;
    Ok(reply)
}
