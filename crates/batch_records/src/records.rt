//! The text of a batch's records.

ghost use Rattle.std.specs.Prelude.{◌≡◌, ◌++◌, ◌∷◌, [], IfOk, OnOk, decimal};
ghost use Rattle.std.specs.Fmt.{signed_decimal};
ghost use Rattle.csv.specs.Writing.{default_writer, escaped, field_text, needs_byte, quoted, row_text};
ghost use Rattle.csv.specs.Writing as writing;
ghost use Rattle.batch_records.specs.Texts.{record_fields, records_text, with_fields};

use graph_types::{Batch, Name, NamedOp};
use itoa::Buffer;
use std::alloc::{AllocError, Global};

/// The records of a batch's operations, in order, each with a line feed at its end: what `stinger run` reads as these operations. A
/// name with a comma or a quote is quoted, as `csv` quotes it. The text takes memory as it grows, and the error is `AllocError` where
/// a growth is refused.
///
/// ```
/// let text = records_of(alloc, &batch)?;
/// file.write_all(text.as_slice())?;
/// ```
pub fn records_of(alloc: Global, batch: &Batch) -> Result<Vec<u8>, AllocError>
    ensures { IfOk result (λ text. text.items ≡ records_text batch.now) }
{
    let ops = batch.ops();
    let mut text = Vec::new(alloc);
    for op in ops {
        push_record(&mut text, op)?;
    }
    Ok(text)
}

/// The record of an operation.
fn push_record(text: &mut Vec<u8>, op: &NamedOp) -> Result<(), AllocError>
    ensures { OnOk result (text.new.items ≡ text.old.items ++ row_text default_writer (record_fields op.now)) }
{
    match op {
        NamedOp::Insert {
            kind,
            source,
            target,
            weight,
            time,
        } => push_put(text, b'i', kind, source, target, *weight, *time),
        NamedOp::Incr {
            kind,
            source,
            target,
            amount,
            time,
        } => push_put(text, b'a', kind, source, target, *amount, *time),
        NamedOp::Remove {
            kind,
            source,
            target,
        } => push_removal(text, kind, source, target),
        NamedOp::Expire { time } => push_expiry(text, *time),
    }
}

/// The record of an insertion or an addition, whose word is a letter.
fn push_put(
    text: &mut Vec<u8>,
    word: u8,
    kind: &Name,
    source: &Name,
    target: &Name,
    weight: i64,
    time: u64,
) -> Result<(), AllocError>
    requires { field_text default_writer (word ∷ []) ≡ word ∷ [] }
    ensures { OnOk result (text.new.items ≡ text.old.items ++ row_text default_writer
        ((word ∷ []) ∷ kind.now ∷ source.now ∷ target.now ∷ signed_decimal weight ∷ decimal time ∷ [])) }
{
    text.push(word)?;
    push_ends(text, kind, source, target)?;
    push_weight(text, weight)?;
    push_time(text, time)?;
    text.push(b'\n')?;
    Ok(())
}

/// The record of a removal.
fn push_removal(
    text: &mut Vec<u8>,
    kind: &Name,
    source: &Name,
    target: &Name,
) -> Result<(), AllocError>
    ensures { OnOk result (text.new.items ≡ text.old.items
        ++ row_text default_writer ((114 ∷ []) ∷ kind.now ∷ source.now ∷ target.now ∷ [])) }
{
    text.push(b'r')?;
    push_ends(text, kind, source, target)?;
    text.push(b'\n')?;
    Ok(())
}

/// The record of an expiry.
fn push_expiry(text: &mut Vec<u8>, time: u64) -> Result<(), AllocError>
    ensures { OnOk result (text.new.items ≡ text.old.items ++ row_text default_writer ((120 ∷ []) ∷ decimal time ∷ [])) }
{
    text.push(b'x')?;
    push_time(text, time)?;
    text.push(b'\n')?;
    Ok(())
}

/// The fields of an edge's kind and of its two ends.
fn push_ends(
    text: &mut Vec<u8>,
    kind: &Name,
    source: &Name,
    target: &Name,
) -> Result<(), AllocError>
    ensures { OnOk result (text.new.items ≡ with_fields text.old.items (kind.now ∷ source.now ∷ target.now ∷ [])) }
{
    push_field(text, kind.as_str().as_bytes())?;
    push_field(text, source.as_str().as_bytes())?;
    push_field(text, target.as_str().as_bytes())
}

/// The field of a weight or an amount.
fn push_weight(text: &mut Vec<u8>, weight: i64) -> Result<(), AllocError>
    ensures { OnOk result (text.new.items ≡ with_fields text.old.items (signed_decimal weight ∷ [])) }
{
    let mut digits = Buffer::new();
    push_field(text, digits.format(weight).as_bytes())
}

/// The field of a time.
fn push_time(text: &mut Vec<u8>, time: u64) -> Result<(), AllocError>
    ensures { OnOk result (text.new.items ≡ with_fields text.old.items (decimal time ∷ [])) }
{
    let mut digits = Buffer::new();
    push_field(text, digits.format(time).as_bytes())
}

/// A comma and a field, in quotes where it needs them.
fn push_field(text: &mut Vec<u8>, field: &[u8]) -> Result<(), AllocError>
    ensures { OnOk result (text.new.items ≡ with_fields text.old.items (field.now ∷ [])) }
{
    text.push(b',')?;
    if needs_quotes(field) {
        push_quoted(text, field)
    } else {
        text.extend_from_slice(field)
    }
}

/// Whether a field needs quotes.
fn needs_quotes(field: &[u8]) -> bool
    ensures { result ≡ writing.needs_quotes default_writer field.now }
{
    field.iter().any(is_mark)
}

/// Whether a byte has to stand in quotes: a comma, a quote, or what ends a line.
fn is_mark(byte: &u8) -> bool
    ensures { result ≡ needs_byte default_writer byte.now }
{
    *byte == b',' || *byte == b'"' || *byte == b'\r' || *byte == b'\n'
}

/// A field in quotes, with each of its own quotes twice.
fn push_quoted(text: &mut Vec<u8>, field: &[u8]) -> Result<(), AllocError>
    ensures { OnOk result (text.new.items ≡ text.old.items ++ quoted default_writer field.now) }
{
    text.push(b'"')?;
    for byte in field {
        push_escaped(text, *byte)?;
    }
    text.push(b'"')?;
    Ok(())
}

/// A byte between quotes: a quote twice, and any other once.
#[tactic(auto, unfolding(csv::specs::Writing::escaped))]
fn push_escaped(text: &mut Vec<u8>, byte: u8) -> Result<(), AllocError>
    ensures { OnOk result (text.new.items ≡ text.old.items ++ escaped default_writer (byte ∷ [])) }
{
    if byte == b'"' {
        return text.extend_from_slice(b"\"\"".as_slice());
    }
    text.push(byte)?;
    Ok(())
}
