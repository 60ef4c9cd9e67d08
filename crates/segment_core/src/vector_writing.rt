//! Writing a vector to bytes: its nulls, then its coding, width and count, and then the payload of that coding.
ghost use Rattle.std.specs.Prelude.{◌≡◌, ◌<◌, length};
ghost use Rattle.std.specs.Option.{option_copied};
ghost use Rattle.segment_core.specs.Coded.{lane_width_of};
ghost use Rattle.segment_core.specs.Format.{Format, Writes};
ghost use Rattle.segment_core.specs.VectorBytes.{nulls, header, frame, deltas, runs, dict, payload, header_of, coded, vector};

use crate::coded::Coded;
use crate::coded_vector::CodedVector;
use crate::coding::Coding;
use crate::vector_bytes::Header;
use crate::writing::{write_mask, write_number, write_value, write_values, write_words};
use frame_delta::{Delta, For};
use run_dictionary::{Dict, Runs};
use std::io::Write;
use table_model::{Counted, Refusal};
use transpose_order::Mask;

/// Writes what comes before a payload. The width is below 256, and the count below 65,536.
fn write_header<W: Write>(
    writer: &mut Counted<W>,
    lane_width: usize,
    head: Header,
) -> Result<(), Refusal>
    requires width { head.width < 256 }
    requires count { head.count < 65536 }
    ensures { Writes result (W.contents writer.old.0) (W.contents writer.new.0) writer.old.1 writer.new.1 ((header lane_width).spell head) }
{
    write_number(writer, head.coding.tag(), 1)?;
    write_number(writer, head.width as u64, 1)?;
    write_number(writer, head.count as u64, 2)
}

/// Writes the payload of FOR.
fn write_frame<W: Write>(writer: &mut Counted<W>, form: &For) -> Result<(), Refusal>
    ensures { Writes result (W.contents writer.old.0) (W.contents writer.new.0) writer.old.1 writer.new.1
        ((frame form.now.lane_width form.now.width).spell form.now) }
{
    write_value(writer, form.reference(), form.lane_width())?;
    write_words(writer, form.words(), form.width())
}

/// Writes the payload of DELTA.
fn write_deltas<W: Write>(writer: &mut Counted<W>, form: &Delta) -> Result<(), Refusal>
    ensures { Writes result (W.contents writer.old.0) (W.contents writer.new.0) writer.old.1 writer.new.1
        ((deltas form.now.lane_width form.now.width).spell form.now) }
{
    let lane_width = form.lane_width();
    write_value(writer, form.least(), lane_width)?;
    write_values(writer, form.bases())?;
    write_words(writer, form.words(), form.width())
}

/// Writes the payload of RLE.
fn write_runs<W: Write>(writer: &mut Counted<W>, form: &Runs) -> Result<(), Refusal>
    ensures { Writes result (W.contents writer.old.0) (W.contents writer.new.0) writer.old.1 writer.new.1
        ((runs form.now.lane_width (length form.now.values)).spell form.now) }
{
    write_mask(writer, form.starts())?;
    write_values(writer, form.values())
}

/// Writes the payload of DICT.
fn write_dict<W: Write>(writer: &mut Counted<W>, form: &Dict) -> Result<(), Refusal>
    ensures { Writes result (W.contents writer.old.0) (W.contents writer.new.0) writer.old.1 writer.new.1
        ((dict form.now.lane_width form.now.width (length form.now.values)).spell form.now) }
{
    write_values(writer, form.values())?;
    write_words(writer, form.codes(), form.width())
}

/// The coding, width and count of coded values.
fn head_of(form: &Coded) -> Header
    ensures { result ≡ header_of form.now }
{
    match form {
        Coded::For(form) => Header {
            coding: Coding::For,
            width: form.get().width(),
            count: 0,
        },
        Coded::Delta(form) => Header {
            coding: Coding::Delta,
            width: form.get().width(),
            count: 0,
        },
        Coded::Runs(form) => Header {
            coding: Coding::Runs,
            width: 1,
            count: form.get().values().len(),
        },
        Coded::Dict(form) => Header {
            coding: Coding::Dict,
            width: form.get().width(),
            count: form.get().values().len(),
        },
    }
}

/// Writes the payload of coded values.
fn write_payload<W: Write>(writer: &mut Counted<W>, form: &Coded) -> Result<(), Refusal>
    ensures { Writes result (W.contents writer.old.0) (W.contents writer.new.0) writer.old.1 writer.new.1
        ((payload (lane_width_of form.now) (header_of form.now)).spell form.now) }
{
    match form {
        Coded::For(form) => write_frame(writer, form.get()),
        Coded::Delta(form) => write_deltas(writer, form.get()),
        Coded::Runs(form) => write_runs(writer, form.get()),
        Coded::Dict(form) => write_dict(writer, form.get()),
    }
}

/// Writes coded values: the coding, width and count, and the payload.
fn write_coded<W: Write>(writer: &mut Counted<W>, form: &Coded) -> Result<(), Refusal>
    ensures { Writes result (W.contents writer.old.0) (W.contents writer.new.0) writer.old.1 writer.new.1
        ((coded (lane_width_of form.now)).spell form.now) }
{
    write_header(writer, form.lane_width(), head_of(form))?;
    write_payload(writer, form)
}

/// Writes a null flag, and the null mask if there is one.
fn write_nulls<W: Write>(
    writer: &mut Counted<W>,
    found: Option<&Mask>,
    rows: usize,
) -> Result<(), Refusal>
    ensures { Writes result (W.contents writer.old.0) (W.contents writer.new.0) writer.old.1 writer.new.1
        ((nulls rows).spell (option_copied found.entry)) }
{
    match found {
        None => write_number(writer, 0, 1),
        Some(found) => {
            write_number(writer, 1, 1)?;
            write_mask(writer, found)
        }
    }
}

/// Writes a vector: its nulls and its coded values.
pub(crate) fn write_vector<W: Write>(
    writer: &mut Counted<W>,
    form: &CodedVector,
) -> Result<(), Refusal>
    ensures { Writes result (W.contents writer.old.0) (W.contents writer.new.0) writer.old.1 writer.new.1
        ((vector (lane_width_of form.now.coded) form.now.rows).spell form.now) }
{
    write_nulls(writer, form.nulls(), form.rows())?;
    write_coded(writer, form.coded())
}
