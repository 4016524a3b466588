//! The lines of an answer in numbers, appended to a buffer. A vertex's name is read where it stands in the version's book, and no
//! text is made of it.

ghost use Rattle.std.specs.Prelude.{◌≡◌, ◌++◌, [], OnOk, bytes_eq, count_by, length, map, slice_index_or};
ghost use Rattle.std.specs.Prelude.{string_bytes, sum_by, zip};
ghost use Rattle.std.specs.List.{flat_map};
ghost use Rattle.std.specs.Option.{option_to_list};
ghost use Rattle.graph_levels.specs.Reached.{vertex_numbers};
ghost use Rattle.graph_types.specs.Answer.{level_row, names_of_vertices, reached};
ghost use Rattle.script_lines.specs.Lines as lines_of;
ghost use Rattle.version_answers.specs.Numbered.{named};

use crate::ends::RowEnd;
use crate::lines::edge_line;
use crate::page::{PAGE, flush, put};
use arrayvec::ArrayString;
use graph_types::{Degree, VertexId};
use std::alloc::AllocError;
use version_answers::NumberedReply;
use vertex_names::NameBook;

/// Appends the lines of a reply about the version that has these names.
pub fn reply_lines(
    lines: &mut String,
    slot: u8,
    names: &NameBook,
    reply: &NumberedReply,
) -> Result<(), AllocError>
    ensures { OnOk result (string_bytes lines.new ≡ string_bytes lines.old
        ++ lines_of.shown_lines slot (named names.now.names reply.now)) }
{
    match reply {
        NumberedReply::Levels(levels) => level_lines(lines, slot, names, levels.as_slice()),
        NumberedReply::Reached(rows) => reached_lines(lines, slot, names, rows.as_slice()),
        NumberedReply::Labels(labels) => label_lines(lines, slot, names, labels.as_slice()),
        NumberedReply::Cores(numbers) => core_lines(lines, slot, names, numbers.as_slice()),
        NumberedReply::Degrees(degrees) => degree_lines(lines, slot, names, degrees.as_slice()),
        NumberedReply::OneEdge(shown) => edge_line(lines, slot, *shown),
    }
}

/// The lines of levels: how many vertices were reached, and each of them with its level.
fn level_lines(
    lines: &mut String,
    slot: u8,
    names: &NameBook,
    levels: &[Option<u32>],
) -> Result<(), AllocError>
    ensures { OnOk result (string_bytes lines.new ≡ string_bytes lines.old
        ++ lines_of.level_lines slot (reached names.now.names levels.now)) }
{
    let reached = count_reached(names, levels);
    write!(lines, "bfs {slot} reached={reached}\n")?;
    level_rows(lines, names, levels)
}

/// A line for each vertex that has a level.
fn level_rows(
    lines: &mut String,
    names: &NameBook,
    levels: &[Option<u32>],
) -> Result<(), AllocError>
    ensures { OnOk result (string_bytes lines.new ≡ string_bytes lines.old
        ++ flat_map lines_of.number_line (reached names.now.names levels.now)) }
{
    let count = names.len().min(levels.len());
    let mut page = ArrayString::new();
    for vertex in 0..count {
        level_line(
            lines,
            &mut page,
            name_at(names, vertex as u32),
            levels[vertex],
        )?;
    }
    flush(lines, &page)?;
    Ok(())
}

/// How many vertices have a level.
fn count_reached(names: &NameBook, levels: &[Option<u32>]) -> usize
    ensures { result ≡ length (reached names.now.names levels.now) }
{
    let count = names.len().min(levels.len());
    let mut reached = 0;
    for vertex in 0..count {
        reached += usize::from(levels[vertex].is_some());
    }
    reached
}

/// The lines of levels of a few vertices: how many they are, and each of them with its level.
fn reached_lines(
    lines: &mut String,
    slot: u8,
    names: &NameBook,
    rows: &[(VertexId, u32)],
) -> Result<(), AllocError>
    ensures { OnOk result (string_bytes lines.new ≡ string_bytes lines.old
        ++ lines_of.level_lines slot (map (λ row. (slice_index_or names.now.names row.0.0 [], row.1)) rows.now)) }
{
    let reached = rows.len();
    write!(lines, "bfs {slot} reached={reached}\n")?;
    reached_rows(lines, names, rows)
}

/// A line for each of these vertices, with its level.
fn reached_rows(
    lines: &mut String,
    names: &NameBook,
    rows: &[(VertexId, u32)],
) -> Result<(), AllocError>
    ensures { OnOk result (string_bytes lines.new ≡ string_bytes lines.old
        ++ flat_map lines_of.number_line (map (λ row. (slice_index_or names.now.names row.0.0 [], row.1)) rows.now)) }
{
    let mut page = ArrayString::new();
    for row in rows {
        number_line(lines, &mut page, name_at(names, row.0.0), row.1)?;
    }
    flush(lines, &page)?;
    Ok(())
}

/// The lines of core numbers: the greatest, and each vertex with its own.
fn core_lines(
    lines: &mut String,
    slot: u8,
    names: &NameBook,
    numbers: &[u32],
) -> Result<(), AllocError>
    ensures { OnOk result (string_bytes lines.new ≡ string_bytes lines.old
        ++ lines_of.core_lines slot (zip names.now.names numbers.now)) }
{
    let most = greatest(names, numbers);
    write!(lines, "core {slot} max={most}\n")?;
    number_rows(lines, names, numbers)
}

/// A line for each vertex with its number.
fn number_rows(lines: &mut String, names: &NameBook, numbers: &[u32]) -> Result<(), AllocError>
    ensures { OnOk result (string_bytes lines.new ≡ string_bytes lines.old
        ++ flat_map lines_of.number_line (zip names.now.names numbers.now)) }
{
    let count = names.len().min(numbers.len());
    let mut page = ArrayString::new();
    for vertex in 0..count {
        number_line(
            lines,
            &mut page,
            name_at(names, vertex as u32),
            numbers[vertex],
        )?;
    }
    flush(lines, &page)?;
    Ok(())
}

/// The greatest core number of the vertices, and 0 where there is no vertex.
fn greatest(names: &NameBook, numbers: &[u32]) -> u32
    ensures { result ≡ lines_of.greatest (zip names.now.names numbers.now) }
{
    let count = names.len().min(numbers.len());
    let mut most: u32 = 0;
    for vertex in 0..count {
        most = most.max(numbers[vertex]);
    }
    most
}

/// The lines of labels: how many vertices are their own label, which is the number of parts, and each vertex with the
/// name of its label.
fn label_lines(
    lines: &mut String,
    slot: u8,
    names: &NameBook,
    labels: &[VertexId],
) -> Result<(), AllocError>
    ensures { OnOk result (let entries = zip names.now.names (names_of_vertices names.now.names (vertex_numbers labels.now)) in
        string_bytes lines.new ≡ string_bytes lines.old
        ++ lines_of.label_lines slot (count_by (λ entry. bytes_eq entry.0 entry.1) entries) entries) }
{
    let parts = own_labels(names, labels);
    write!(lines, "comp {slot} parts={parts}\n")?;
    label_rows(lines, names, labels)
}

/// A line for each vertex with the name of its label.
fn label_rows(lines: &mut String, names: &NameBook, labels: &[VertexId]) -> Result<(), AllocError>
    ensures { OnOk result (string_bytes lines.new ≡ string_bytes lines.old
        ++ flat_map lines_of.label_line (zip names.now.names (names_of_vertices names.now.names (vertex_numbers labels.now)))) }
{
    let count = names.len().min(labels.len());
    let mut page = ArrayString::new();
    for vertex in 0..count {
        let name = name_at(names, vertex as u32);
        label_line(lines, &mut page, name, name_at(names, labels[vertex].0))?;
    }
    flush(lines, &page)?;
    Ok(())
}

/// How many vertices are their own label.
fn own_labels(names: &NameBook, labels: &[VertexId]) -> usize
    ensures { result ≡ count_by (λ entry. bytes_eq entry.0 entry.1)
        (zip names.now.names (names_of_vertices names.now.names (vertex_numbers labels.now))) }
{
    let count = names.len().min(labels.len());
    let mut own = 0;
    for vertex in 0..count {
        own += usize::from(labels[vertex].0 as usize == vertex);
    }
    own
}

/// The lines of degrees: how many edges are in the view, and each vertex with its own numbers.
fn degree_lines(
    lines: &mut String,
    slot: u8,
    names: &NameBook,
    degrees: &[Degree],
) -> Result<(), AllocError>
    ensures { OnOk result (let entries = zip names.now.names degrees.now in
        string_bytes lines.new ≡ string_bytes lines.old
        ++ lines_of.degree_lines slot (sum_by (λ entry. entry.1.outgoing) entries) entries) }
{
    let edges = edges_of(names, degrees);
    write!(lines, "deg {slot} edges={edges}\n")?;
    degree_rows(lines, names, degrees)
}

/// A line for each vertex with its degrees.
fn degree_rows(lines: &mut String, names: &NameBook, degrees: &[Degree]) -> Result<(), AllocError>
    ensures { OnOk result (string_bytes lines.new ≡ string_bytes lines.old
        ++ flat_map lines_of.degree_line (zip names.now.names degrees.now)) }
{
    let count = names.len().min(degrees.len());
    let mut page = ArrayString::new();
    for vertex in 0..count {
        degree_line(
            lines,
            &mut page,
            name_at(names, vertex as u32),
            degrees[vertex],
        )?;
    }
    flush(lines, &page)?;
    Ok(())
}

/// The number of edges in the view: each leaves one vertex.
fn edges_of(names: &NameBook, degrees: &[Degree]) -> u64
    ensures { result ≡ sum_by (λ entry. entry.1.outgoing) (zip names.now.names degrees.now) }
{
    let count = names.len().min(degrees.len());
    let mut edges = 0;
    for vertex in 0..count {
        edges += u64::from(degrees[vertex].outgoing);
    }
    edges
}

/// A vertex's name as it stands in the book, and an empty text for a number past the last.
#[tactic(auto, using(graph_types::proofs::ListedNames::name_there, graph_types::proofs::ListedNames::name_past))]
fn name_at(names: &NameBook, number: u32) -> &str
    ensures { result.now ≡ slice_index_or names.now.names number [] }
{
    match names.name(number) {
        Some(name) => name,
        None => "",
    }
}

/// The line of a name with its level, and none where it has none.
#[inline(always)]
fn level_line(
    lines: &mut String,
    page: &mut ArrayString<PAGE>,
    name: &str,
    level: Option<u32>,
) -> Result<(), AllocError>
    ensures { OnOk result (string_bytes lines.new ++ page.new.bytes ≡ (string_bytes lines.old ++ page.old.bytes)
        ++ flat_map lines_of.number_line (option_to_list (level_row (name.now, level)))) }
{
    match level {
        Some(level) => number_line(lines, page, name, level),
        None => Ok(()),
    }
}

/// The line of a name with a number.
#[inline(always)]
fn number_line(
    lines: &mut String,
    page: &mut ArrayString<PAGE>,
    name: &str,
    number: u32,
) -> Result<(), AllocError>
    ensures { OnOk result (string_bytes lines.new ++ page.new.bytes ≡ (string_bytes lines.old ++ page.old.bytes)
        ++ lines_of.number_line (name.now, number)) }
{
    let mut end = RowEnd::new();
    end.put(u64::from(number));
    put(lines, page, name)?;
    put(lines, page, end.as_str())
}

/// The line of a name with the name of its label.
#[inline(always)]
fn label_line(
    lines: &mut String,
    page: &mut ArrayString<PAGE>,
    name: &str,
    label: &str,
) -> Result<(), AllocError>
    ensures { OnOk result (string_bytes lines.new ++ page.new.bytes ≡ (string_bytes lines.old ++ page.old.bytes)
        ++ lines_of.label_line (name.now, label.now)) }
{
    put(lines, page, name)?;
    put(lines, page, " ")?;
    put(lines, page, label)?;
    put(lines, page, "\n")
}

/// The line of a name with its degrees.
#[inline(always)]
fn degree_line(
    lines: &mut String,
    page: &mut ArrayString<PAGE>,
    name: &str,
    degree: Degree,
) -> Result<(), AllocError>
    ensures { OnOk result (string_bytes lines.new ++ page.new.bytes ≡ (string_bytes lines.old ++ page.old.bytes)
        ++ lines_of.degree_line (name.now, degree)) }
{
    let mut end = RowEnd::new();
    end.put_signed(degree.out_weight);
    end.put(u64::from(degree.incoming));
    end.put(u64::from(degree.outgoing));
    put(lines, page, name)?;
    put(lines, page, end.as_str())
}
