// Why an opening line cannot be placed.
ghost use Rattle.std.specs.Prelude.{◌≡◌};
ghost use Rattle.std.specs.List.{list_any};
ghost use Rattle.sb_kernel.specs.Openings.{name_of};
ghost use Rattle.sb_scripttext.specs.StartFaults.{is_object, start_fault};

use crate::faults::StartFault;
use sb_base::eq_ignore_ascii_case;
use sb_names::parent;
use sb_statements::StartLine;

// The name of the object of an opening line.
fn name_of(line: &StartLine) -> &[u16]
    ensures { result.now ≡ name_of line.now }
{
    match line {
        StartLine::Dir { name }
        | StartLine::File { name, .. }
        | StartLine::Key { name }
        | StartLine::Event { name, .. } => name.as_units(),
    }
}

// Whether another line is of the same service as a line, and its object has this name.
fn is_object(line: &StartLine, name: &[u16], other: &StartLine) -> bool
    ensures { result ≡ is_object line.now name.now other.now }
{
    match (line, other) {
        (
            StartLine::Dir { .. } | StartLine::File { .. },
            StartLine::Dir { name: own } | StartLine::File { name: own, .. },
        )
        | (StartLine::Key { .. }, StartLine::Key { name: own })
        | (StartLine::Event { .. }, StartLine::Event { name: own, .. }) => {
            eq_ignore_ascii_case(name, own.as_units())
        }
        _ => false,
    }
}

// Whether one of these lines is.
fn has_object(lines: &[StartLine], line: &StartLine, name: &[u16]) -> bool
    ensures { result ≡ list_any (is_object line.now name.now) lines.now }
{
    lines.iter().any(|other| is_object(line, name, other))
}

/// Why a line cannot be placed after these, if it cannot.
pub(crate) fn start_fault(lines: &[StartLine], line: &StartLine) -> StartFault
    ensures { result ≡ start_fault lines.now line.now }
{
    let name = name_of(line);
    if has_object(lines, line, name) {
        return StartFault::NameTaken;
    }
    if has_object(lines, line, parent(name)) {
        return StartFault::ParentIsFile;
    }
    StartFault::NoParent
}
