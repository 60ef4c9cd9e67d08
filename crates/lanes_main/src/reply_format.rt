//! The texts of replies.
ghost use Rattle.std.specs.Prelude.{◌≡◌, ◌++◌, OnOk, IfOk, decimal};
ghost use Rattle.table_model.specs.Name.{name_text};
ghost use Rattle.table_model.specs.RefusalText.{refusal_text};
ghost use Rattle.lanes_main.specs.ReplyText.{named_text, put_text, number_text, file_text, answered_text, refused_text, reply_text_of};

use cluster_history::Reply;
use itoa::Buffer;
use query_eval::write_answer;
use replica_store::Inserted;
use std::alloc::{AllocError, Global};
use table_model::{Answer, BatchName, Refusal};

/// The text of a reply, each of its lines ended by a line feed.
pub fn reply_text(alloc: Global, reply: &Reply) -> Result<Vec<u8>, AllocError>
    ensures { IfOk result (λ text. text.items ≡ reply_text_of reply.now) }
{
    let mut out = Vec::new(alloc);
    write_reply(alloc, &mut out, reply)?;
    Ok(out)
}

/// Writes the text of a reply after what is there.
#[tactic(auto, unfolding(crate::specs::ReplyText::reply_text_of))]
pub fn write_reply(alloc: Global, out: &mut Vec<u8>, reply: &Reply) -> Result<(), AllocError>
    ensures { OnOk result (out.new.items ≡ out.old.items ++ reply_text_of reply.now) }
{
    match reply {
        Reply::Done => out.extend_from_slice(b"ok\n"),
        Reply::Named(name) => write_named(out, *name),
        Reply::Put(inserted) => write_put(out, *inserted),
        Reply::Deleted(count) => write_ok_number(out, *count),
        Reply::Sent(number) => write_ok_number(out, u64::from(*number)),
        Reply::File(file) => write_file(alloc, out, file.as_slice()),
        Reply::Answered(answer) => write_answered(out, answer),
        Reply::Refused(refusal) => write_refused(alloc, out, *refusal),
    }
}

/// Writes the name that a batch has got.
fn write_named(out: &mut Vec<u8>, name: BatchName) -> Result<(), AllocError>
    ensures { OnOk result (out.new.items ≡ out.old.items ++ named_text name) }
{
    out.extend_from_slice(b"ok ")?;
    write_number(out, u64::from(name.origin.0))?;
    out.extend_from_slice(b".")?;
    write_number(out, u64::from(name.number.0))?;
    out.extend_from_slice(b"\n")
}

/// Writes whether an inserted batch is new.
fn write_put(out: &mut Vec<u8>, inserted: Inserted) -> Result<(), AllocError>
    ensures { OnOk result (out.new.items ≡ out.old.items ++ put_text inserted) }
{
    match inserted {
        Inserted::New => out.extend_from_slice(b"ok new\n"),
        Inserted::Already => out.extend_from_slice(b"ok already\n"),
    }
}

/// Writes the number of a message that was made, or how many rows were deleted.
fn write_ok_number(out: &mut Vec<u8>, number: u64) -> Result<(), AllocError>
    ensures { OnOk result (out.new.items ≡ out.old.items ++ number_text number) }
{
    out.extend_from_slice(b"ok ")?;
    write_number(out, number)?;
    out.extend_from_slice(b"\n")
}

/// Writes the bytes of a file, two hexadecimal digits for each, in lower case.
fn write_file(alloc: Global, out: &mut Vec<u8>, file: &[u8]) -> Result<(), AllocError>
    ensures { OnOk result (out.new.items ≡ out.old.items ++ file_text file.now) }
{
    let digits = hex::encode(alloc, file)?;
    out.extend_from_slice(b"ok ")?;
    out.extend_from_slice(digits.as_bytes())?;
    out.extend_from_slice(b"\n")
}

/// Writes how many rows an answer has, and the answer.
fn write_answered(out: &mut Vec<u8>, answer: &Answer) -> Result<(), AllocError>
    ensures { OnOk result (out.new.items ≡ out.old.items ++ answered_text answer.now) }
{
    out.extend_from_slice(b"ok ")?;
    write_number(out, answer.rows().len() as u64)?;
    out.extend_from_slice(b"\n")?;
    write_answer(out, answer)
}

/// Writes a refusal's name and values.
fn write_refused(alloc: Global, out: &mut Vec<u8>, refusal: Refusal) -> Result<(), AllocError>
    ensures { OnOk result (out.new.items ≡ out.old.items ++ refused_text refusal) }
{
    let text = format!(in alloc; "refused {refusal}\n")?;
    out.extend_from_slice(text.as_bytes())
}

/// Writes a number in decimal.
fn write_number(out: &mut Vec<u8>, number: u64) -> Result<(), AllocError>
    ensures { OnOk result (out.new.items ≡ out.old.items ++ decimal number) }
{
    let mut buffer = Buffer::new();
    out.extend_from_slice(buffer.format(number).as_bytes())
}
