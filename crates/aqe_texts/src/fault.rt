//! The line that tells why a run ended.

use crate::place::{FaultPlace, push_shown};
use aqe_base::{AnalysisKind, LimitKind, Status, SyntaxKind, TableKind};
use aqe_store::{Sink, write_all};
use std::alloc::{AllocError, Global};

/// How the program is called, as shown where its words are not taken.
const USAGE: &str = "usage: aqe run SCRIPT\n";

fn syntax_name(kind: SyntaxKind) -> &'static str {
    match kind {
        SyntaxKind::BadByte => "BadByte",
        SyntaxKind::OpenString => "OpenString",
        SyntaxKind::OpenQuote => "OpenQuote",
        SyntaxKind::BadEscape => "BadEscape",
        SyntaxKind::WideNumber => "WideNumber",
        SyntaxKind::NotASentence => "NotASentence",
    }
}

fn analysis_name(kind: AnalysisKind) -> &'static str {
    match kind {
        AnalysisKind::NoSuchTable => "NoSuchTable",
        AnalysisKind::NoSuchColumn => "NoSuchColumn",
        AnalysisKind::Ambiguous => "Ambiguous",
        AnalysisKind::TypeMismatch => "TypeMismatch",
        AnalysisKind::NotGrouped => "NotGrouped",
        AnalysisKind::BadPosition => "BadPosition",
        AnalysisKind::UnionWidth => "UnionWidth",
        AnalysisKind::NestedAggregate => "NestedAggregate",
        AnalysisKind::TableExists => "TableExists",
        AnalysisKind::BadOption => "BadOption",
        AnalysisKind::RepeatedColumn => "RepeatedColumn",
    }
}

fn table_name(kind: TableKind) -> &'static str {
    match kind {
        TableKind::BadUtf8 => "BadUtf8",
        TableKind::BadCsv => "BadCsv",
    }
}

fn limit_name(kind: LimitKind) -> &'static str {
    match kind {
        LimitKind::Depth => "Depth",
        LimitKind::Operators => "Operators",
        LimitKind::Columns => "Columns",
        LimitKind::Files => "Files",
        LimitKind::FileBytes => "FileBytes",
        LimitKind::AllBytes => "AllBytes",
        LimitKind::Events => "Events",
    }
}

/// The name of the kind, or that of the status where it has no kind.
fn name_of(status: Status) -> &'static str {
    match status {
        Status::Done => "Done",
        Status::Usage => "Usage",
        Status::Syntax(kind) => syntax_name(kind),
        Status::Analysis(kind) => analysis_name(kind),
        Status::BadTable(kind) => table_name(kind),
        Status::Settings => "Settings",
        Status::Events => "Events",
        Status::ReadFault => "ReadFault",
        Status::Missing => "Missing",
        Status::WriteFault => "WriteFault",
        Status::Limit(kind) => limit_name(kind),
        Status::Aborted => "Aborted",
        Status::StageAborted => "StageAborted",
        Status::Unfinished => "Unfinished",
        Status::Memory => "Memory",
        Status::NotBuilt => "NotBuilt",
    }
}

fn fault_line(alloc: Global, status: Status, place: &FaultPlace) -> Result<Vec<u8>, AllocError> {
    let mut line = Vec::new(alloc);
    line.extend_from_slice(b"aqe: ")?;
    line.extend_from_slice(name_of(status).as_bytes())?;
    if !place.shown().is_empty() {
        line.push(b' ')?;
        push_shown(&mut line, place.shown())?;
    }
    line.push(b'\n')?;
    if status == Status::Usage {
        line.extend_from_slice(USAGE.as_bytes())?;
    }
    Ok(line)
}

/// Writes the fault line of a run that did not end well: `aqe: `, the name of what is wrong, and the place, name or path
/// where there is one. Where the words were not taken it tells how to call the program, too.
/// A failing sink changes nothing.
pub fn report<E: Sink>(alloc: Global, err: &mut E, status: Status, place: &FaultPlace) {
    if status == Status::Done {
        return;
    }
    if let Ok(line) = fault_line(alloc, status, place) {
        let _ = write_all(err, line.as_slice());
    }
}
