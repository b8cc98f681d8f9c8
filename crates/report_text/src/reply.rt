ghost use Rattle.std.specs.Prelude.{◌≡◌, ◌++◌, IfOk, OnOk};
ghost use Rattle.std.specs.String.{string_bytes};
ghost use Rattle.argo_model.specs.Runs.Report.{reply_bytes, head_of};

use crate::hex::push_hex;
use argo_base::{Bytes, NoMemory};
use argo_model::Reply;
use std::alloc::{AllocError, Global};

/// The text of a reply, as a report shows it after the section and the place of its line.
pub fn reply_text(alloc: Global, r: &Reply) -> Result<Bytes, NoMemory>
    ensures { IfOk result (λ text. text ≡ reply_bytes r.now) }
{
    let mut text = String::new(alloc);
    push_reply(&mut text, r)?;
    Ok(Bytes::from_vec(text.into_bytes()))
}

/// Adds the text of a reply.
pub(crate) fn push_reply(text: &mut String, r: &Reply) -> Result<(), AllocError>
    ensures { OnOk result (string_bytes text.new ≡ string_bytes text.old ++ reply_bytes r.now) }
{
    match r {
        Reply::Stored => text.push_str("ok"),
        Reply::Hex(bytes) => push_hex(text, bytes.as_slice()),
        Reply::Number(n) => write!(text, "{n}"),
        Reply::Signal => text.push_str("signal"),
        Reply::NoSignal => text.push_str("none"),
        Reply::Msg {
            src,
            port,
            kind,
            size,
            head,
        } => {
            write!(text, "msg {} {port} {kind} {size} ", src.0)?;
            push_head(text, head.as_slice())
        }
        Reply::Empty => text.push_str("empty"),
        Reply::Bad => text.push_str("bad"),
        Reply::Fault => text.push_str("fault"),
        Reply::Gone => text.push_str("gone"),
    }
}

fn push_head(text: &mut String, head: &[u8]) -> Result<(), AllocError>
    ensures { OnOk result (string_bytes text.new ≡ string_bytes text.old ++ head_of head.now) }
{
    if head.is_empty() {
        text.push_str("-")
    } else {
        push_hex(text, head)
    }
}
